//! Exact sums and products.
ghost use Rattle.std.specs.Prelude.{◌≡◌, ◌+◌, ◌*◌, ◌^◌, ◌<◌, ◌≤◌, neg_ℤ, ◌+ℤ◌, ◌*ℤ◌, ◌-ℤ◌, unsigned_abs};

/// The sum of two numbers.
pub(crate) fn sum_of(one: i128, other: i128) -> i128
    requires { unsigned_abs one + unsigned_abs other < 2 ^ 127 }
    ensures { result ≡ one +ℤ other }
{
    one + other
}

/// The same number.
pub(crate) fn wide(amount: i64) -> i128
    ensures { result ≡ amount }
{
    i128::from(amount)
}

/// An amount times a limit.
pub(crate) fn product(amount: i64, limit: i64) -> i128
    ensures value { result ≡ amount *ℤ limit }
    ensures small { unsigned_abs result ≡ unsigned_abs amount * unsigned_abs limit }
{
    i128::from(amount) * i128::from(limit)
}

/// The number of the other sign.
pub(crate) fn opposite(amount: i64) -> i128
    ensures { result ≡ neg_ℤ amount }
{
    0 - i128::from(amount)
}

/// How far one number lies above another.
pub(crate) fn difference(above: i128, below: i128) -> i128
    requires { unsigned_abs above + unsigned_abs below < 2 ^ 127 }
    ensures { result ≡ above -ℤ below }
{
    above - below
}
