//! The heights of keys over a line.
ghost use Rattle.std.specs.Prelude.{◌≡◌, ◌↔◌, ◌*◌, ◌^◌, ◌≤◌, ◌-ℤ◌, ◌*ℤ◌, IsTrue, unsigned_abs};
ghost use Rattle.fix_point.specs.Rates.{IsRate};
ghost use Rattle.order_window.specs.Lines.{AreComparable, IsBefore, line_of, time_line};

use crate::key::Key;
use fix_point::Rate;

/// A line in the plane of times and values, by whole numbers: it rises by `rise` in each `run`.
#[derive(Clone, Copy)]
pub(crate) struct Line {
    pub(crate) run: i128,
    pub(crate) rise: i128,
}

/// Parts in which a rate is counted: millionths of a whole, times the ticks of a second.
const PARTS: i128 = 1_000_000_000_000_000;

/// The line of a rate, for units of 10^-d.
pub(crate) fn rate_line(rate: Rate, d: u32) -> Line
    requires rate { IsRate rate }
    requires decimals { d ≤ 6 }
    ensures { result ≡ line_of rate d }
{
    let run = i128::from(rate.per) * PARTS;
    let rise = i128::from(rate.millionths) * 10i128.pow(d);
    Line { run, rise }
}

/// The line over which the height of a key is its time.
pub(crate) fn ticks_line() -> Line
    ensures { result ≡ time_line }
{
    Line { run: 0, rise: -1 }
}

/// Whether a key is lower over the line than another one, or as high and earlier.
pub(crate) fn is_before(line: Line, key: Key, other: Key) -> bool
    requires { AreComparable line key other }
    ensures { IsTrue result ↔ IsBefore line key other }
{
    let values = product(difference(key.value, other.value), line.run);
    let times = product(difference(key.ticks, other.ticks), line.rise);
    if values < times {
        return true;
    }
    if times < values {
        return false;
    }
    key.ticks < other.ticks
}

/// One number less another one.
fn difference(number: i64, other: i64) -> i128
    ensures { result ≡ number -ℤ other }
{
    i128::from(number) - i128::from(other)
}

/// A product of two numbers.
fn product(number: i128, factor: i128) -> i128
    requires { unsigned_abs number * unsigned_abs factor ≤ 10 ^ 38 }
    ensures { result ≡ number *ℤ factor }
{
    number * factor
}
