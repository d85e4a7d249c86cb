//! Laws of the results.
ghost use Rattle.std.specs.Prelude.{ℤ, List, ◌∷◌, ◌++◌};
ghost use Rattle.window_median.specs.Median.{IsMedian, IsOdd};
ghost use Rattle.order_window.specs.declared.key.Key.{Key};
ghost use Rattle.online_values.specs.Laws.{AreReadings, CostsLeast, KeepsRates};
ghost use Rattle.online_values.specs.Results.{Speed, median};

/// The median of an odd number of values is an element with at most half of the elements below it, and at most half above
/// it, rounded down.
pub fn median_is_middle()
    ensures { (xs : List ℤ) → IsOdd xs → IsMedian xs (median xs) }
{}

/// The result for a reading has the least local cost of all whole numbers, or, where the previous reading of the sensor lies
/// within the window, of all that its steps allow after the result for that one.
pub fn results_cost_least()
    ensures { (speed : Speed) (earlier : List Key) (own : Key) (later : List Key) → AreReadings speed earlier own later → CostsLeast speed earlier own later }
{}

/// The results for any two readings of a sensor obey its speed rule.
pub fn results_keep_the_rates()
    ensures { (speed : Speed) (before : List Key) (first : Key) (between : List Key) (own : Key) (later : List Key)
        → AreReadings speed (between ++ first ∷ before) own later → KeepsRates speed before first between own later }
{}
