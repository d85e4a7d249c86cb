//! Laws of the median, and of the local cost.
ghost use Rattle.std.specs.Prelude.{◌≡◌, ℕ, ◌≤◌, ℤ, ◌≤ℤ◌, List, All};
ghost use Rattle.window_median.specs.declared.cost.Near.{Near};
ghost use Rattle.window_median.specs.LocalCost.{HasSteps, IsConvex, IsLeastAt, candidates, clamped, cost_at};
ghost use Rattle.window_median.specs.Median.{IsMedian, IsOdd};

/// An odd number of values has no two medians.
pub fn one_median()
    ensures { (xs : List ℤ) (one other : ℤ) → IsOdd xs → IsMedian xs one → IsMedian xs other → one ≡ other }
{}

/// An odd number of values has a median.
pub fn median_exists()
    ensures { (xs : List ℤ) → IsOdd xs → (median : ℤ) × IsMedian xs median }
{}

/// The local cost is a convex function of the value.
pub fn local_cost_is_convex()
    ensures { (own : ℤ) (near : List Near) → All HasSteps near → IsConvex (cost_at own near) }
{}

/// The median of the candidates has the least local cost of all whole numbers.
pub fn median_costs_least()
    ensures { (own : ℤ) (near : List Near) (median : ℤ) → All HasSteps near → IsMedian (candidates own near) median → IsLeastAt (cost_at own near) median }
{}

/// Where a convex function is least of all, clamped to an interval, it is least of all the interval.
pub fn clamping_keeps_the_least()
    ensures { (f : ℤ → ℕ) (v least most within : ℤ) → IsConvex f → IsLeastAt f v → least ≤ℤ within → within ≤ℤ most → f (clamped least most v) ≤ f within }
{}
