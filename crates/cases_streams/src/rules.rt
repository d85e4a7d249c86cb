//! Rules that a file may have.

ghost use Rattle.std.specs.Prelude.{◌≡◌, ◌≤◌, ◌≤ℤ◌, IfSome, IsTrue};
ghost use Rattle.fix_point.specs.Rates.{IsInReach, IsRate};
ghost use Rattle.rule_file.specs.Limits.{IsSpan};

use crate::texts::{at, numbers, unsigned_at};
use fix_point::{MOST_MILLIONTHS, MOST_PER, MOST_REACH, Rate};
use std::alloc::{AllocError, Global};

/// What is tried: a room; two rates, in millionths for so many seconds; a window in ticks, and the decimals.
#[derive(Clone, Copy)]
pub(crate) struct Rule {
    pub(crate) room: u32,
    pub(crate) min: i64,
    pub(crate) max: i64,
    pub(crate) per: u32,
    pub(crate) window: i64,
    pub(crate) decimals: u32,
}

/// The rule of a text: its room, its rates, their seconds, its window and its decimals.
pub(crate) fn rule_of(alloc: Global, text: &str) -> Result<Rule, AllocError> {
    let numbers = numbers(alloc, text)?;
    let numbers = numbers.as_slice();
    Ok(Rule {
        room: unsigned_at(numbers, 0),
        min: at(numbers, 1),
        max: at(numbers, 2),
        per: unsigned_at(numbers, 3),
        window: at(numbers, 4),
        decimals: unsigned_at(numbers, 5),
    })
}

/// Whether the size and the seconds of a rate are within their limits.
pub(crate) fn is_rate(rate: Rate) -> bool
    ensures { IsTrue result → IsRate rate }
{
    1 <= rate.per && rate.per <= MOST_PER && rate.millionths.unsigned_abs() <= MOST_MILLIONTHS
}

/// Whether a window is within its limits.
pub(crate) fn is_span(window: i64) -> bool
    ensures { IsTrue result → IsSpan window }
{
    1 <= window && window <= 100_000_000_000_000_000
}

/// Whether a rate reaches no further than it may within a window.
pub(crate) fn is_in_reach(rate: Rate, d: u32, window: i64) -> bool
    requires rate { IsRate rate }
    requires decimals { d ≤ 6 }
    requires window { IsSpan window }
    ensures { IsTrue result → IsInReach d rate window }
{
    let units = u128::from(rate.millionths.unsigned_abs()) * 10u128.pow(d);
    let reach = units * u128::from(window.unsigned_abs());
    reach <= MOST_REACH * u128::from(rate.per)
}
