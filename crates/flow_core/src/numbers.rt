//! Sums and products of signed numbers.
ghost use Rattle.std.specs.Prelude.{◌≡◌, ◌≤◌, ◌<◌, ◌+◌, ◌*◌, ◌^◌, ℤ, pos, ◌*ℤ◌, ◌≤ℤ◌, length, sum, get_or, unsigned_abs};
ghost use Rattle.std.specs.Int.{is_positive};
ghost use Rattle.flow_core.specs.State.{added, rise_by};

/// The product of two numbers, which always fits.
pub(crate) fn product(a: i64, b: i64) -> i128
    ensures { result ≡ a *ℤ b }
{
    i128::from(a) * i128::from(b)
}

/// Whether a number is above 0.
pub(crate) fn is_above_zero(number: i64) -> bool
    ensures { result ≡ is_positive number }
{
    number > 0
}

/// By how much the flow of an arc rises if an amount is pushed along it, or back along it.
pub(crate) fn rise(back: bool, amount: i64) -> i64
    requires { pos 1 ≤ℤ amount }
    ensures { result ≡ rise_by back amount }
{
    if back { 0 - amount } else { amount }
}

/// Adds to one of the numbers, which stay far from their type's ends.
pub(crate) fn add(numbers: &mut Vec<i64>, i: usize, amount: i64)
    requires place { i < length numbers.old.items }
    requires number { unsigned_abs (get_or numbers.old.items i (pos 0)) < 2 ^ 62 }
    requires amount { unsigned_abs amount < 2 ^ 62 }
    ensures { numbers.new.items ≡ added numbers.old.items i amount }
{
    numbers[i] += amount;
}

/// The sum of all weights and all prices, and 1 more.
pub(crate) fn unpriced_capacity(weights: &[u32], prices: &[u32]) -> i64
    requires weights { sum weights.now < 2 ^ 32 }
    requires prices { sum prices.now < 2 ^ 32 }
    ensures { result ≡ pos (sum weights.now + sum prices.now + 1) }
{
    i64::from(total(weights)) + i64::from(total(prices)) + 1
}

/// The sum of numbers.
fn total(numbers: &[u32]) -> u32
    requires { sum numbers.now < 2 ^ 32 }
    ensures { result ≡ sum numbers.now }
{
    numbers.iter().sum()
}
