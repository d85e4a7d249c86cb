//! The median of an odd number of values.
ghost use Rattle.std.specs.List.Sorted.{IsPermutation, IsSorted};
ghost use Rattle.std.specs.Ordering.{int_cmp};
ghost use Rattle.window_median.specs.Median.{IsMedian, IsOdd};

/// The median of an odd number of values, which are put in rising order in place. It takes no memory.
pub fn median_plain(keys: &mut Vec<i64>) -> i64
    requires { IsOdd keys.old.items }
    ensures median { IsMedian keys.old.items result }
    ensures permutation { IsPermutation keys.old.items keys.new.items }
    ensures sorted { IsSorted int_cmp keys.new.items }
{
    keys.sort_unstable();
    keys[keys.len() / 2]
}
