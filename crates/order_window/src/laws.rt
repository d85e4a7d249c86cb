//! Laws of the median of a window.
ghost use Rattle.std.specs.Prelude.{◌≡◌, ℤ};
ghost use Rattle.order_window.specs.declared.key.Key.{Key};
ghost use Rattle.order_window.specs.Window.{IsMedianOf, Window};

/// A reading has no two medians of its candidates.
pub fn one_median()
    ensures { (window : Window) (own : Key) (one other : ℤ) → IsMedianOf window own one → IsMedianOf window own other → one ≡ other }
{}
