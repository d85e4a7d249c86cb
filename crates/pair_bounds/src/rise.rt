//! The bounds on a rise from one value to another.
ghost use Rattle.std.specs.Prelude.{◌≡◌, ◌*◌, ◌^◌, ◌≤◌, neg_ℤ, unsigned_abs};
ghost use Rattle.fix_point.specs.Rates.{IsWithinReach};
ghost use Rattle.pair_bounds.specs.Pairs.{is_within, limit_on, rate_limit, rise_bound};

use fix_point::{Rate, ceil_rate, floor_rate};
use screen_model::{Bound, BoundName, End, Place, Side};

/// Whether the ticks lie between two numbers.
pub(crate) fn is_within(least: i64, most: i64, ticks: i128) -> bool
    ensures { result ≡ is_within least most ticks }
{
    i128::from(least) <= ticks && ticks <= i128::from(most)
}

/// The bound of a rule on the rise from the value at one place to that at another.
pub(crate) fn rise_bound(number: u32, from: Place, to: Place, limit: i64, side: Side) -> Bound
    ensures { result ≡ rise_bound number from to limit side }
{
    let name = BoundName {
        rule: number,
        from_row: from.row,
        to_row: to.row,
        col: from.col,
        side,
    };
    let (first, second) = match side {
        Side::Up => (from, to),
        Side::Down => (to, from),
    };
    Bound {
        name,
        first: End::At(first),
        second: End::At(second),
        limit,
    }
}

/// The limit on one side of a rise that is at least the one number and at most the other.
pub(crate) fn limit_on(side: Side, least: i64, most: i64) -> i64
    requires { unsigned_abs least ≤ 10 ^ 15 }
    ensures { result ≡ limit_on side least most }
{
    match side {
        Side::Up => most,
        Side::Down => opposite(least),
    }
}

/// The limit on one side of a rise by whole steps between two rates.
pub(crate) fn rate_limit(min: Rate, max: Rate, d: u32, dt: i64, side: Side) -> i64
    requires min { IsWithinReach min d dt }
    requires max { IsWithinReach max d dt }
    ensures { result ≡ rate_limit min max d dt side }
{
    match side {
        Side::Up => floor_rate(max, d, dt),
        Side::Down => opposite(ceil_rate(min, d, dt)),
    }
}

/// The opposite of a number of units.
pub(crate) fn opposite(units: i64) -> i64
    requires { unsigned_abs units ≤ 4 * 10 ^ 15 }
    ensures { result ≡ neg_ℤ units }
{
    -units
}
