//! Windows in time that go over the readings of a column.
ghost use Rattle.std.specs.Prelude.{◌≡◌, ◌+ℤ◌, ◌-ℤ◌, ◌-◌, ◌<◌, ◌≤◌, pos, ℤ, length, take, drop};
ghost use Rattle.bound_maker.specs.Windows.{IsWindow, count_before, is_before};

use crate::reading::Reading;

/// How many ticks later than a reading those are that a rule speaks of with it.
#[derive(Clone, Copy, Debug, PartialEq, Eq)]
pub(crate) struct Window {
    /// The least number of ticks.
    pub(crate) least: i64,
    /// The greatest number of ticks.
    pub(crate) most: i64,
}

/// Where readings begin, and where they end, among others.
#[derive(Clone, Copy, Debug, PartialEq, Eq)]
pub(crate) struct Span {
    /// The place of the first.
    pub(crate) start: usize,
    /// The place after the last.
    pub(crate) end: usize,
}

impl Span {
    ghost use Rattle.std.specs.Prelude.{◌≡◌, ◌-◌};

    /// The same among the others without their first.
    pub(crate) fn without_first(self) -> Span
        ensures start { result.start ≡ self.start - 1 }
        ensures end { result.end ≡ self.end - 1 }
    {
        Span {
            start: self.start.saturating_sub(1),
            end: self.end.saturating_sub(1),
        }
    }
}

/// The place of the first reading that is not less than so many ticks later than a time. The search begins at a place
/// before which all are.
fn skip_before(readings: &[Reading], from: i64, ticks: i128, at: usize) -> usize
    requires { at ≤ count_before from ticks readings.now }
    ensures { result ≡ count_before from ticks readings.now }
{
    let mut place = at;
    while place < readings.len() && is_before(readings[place], from, ticks) {
        place += 1;
    }
    place
}

/// How many ticks a reading is later than a time.
fn ticks_after(reading: Reading, from: i64) -> i128
    ensures { result ≡ reading.stamp.ticks -ℤ from }
{
    i128::from(reading.stamp.ticks) - i128::from(from)
}

/// Whether a reading is less than so many ticks later than a time.
fn is_before(reading: Reading, from: i64, ticks: i128) -> bool
    ensures { result ≡ is_before from ticks reading }
{
    ticks_after(reading, from) < ticks
}

/// The place of the first reading that is not before the window after a time.
fn start_of(window: Window, readings: &[Reading], from: i64, at: usize) -> usize
    requires { at ≤ count_before from window.least readings.now }
    ensures { result ≡ count_before from window.least readings.now }
{
    skip_before(readings, from, i128::from(window.least), at)
}

/// The place of the first reading that is after the window after a time.
fn end_of(window: Window, readings: &[Reading], from: i64, at: usize) -> usize
    requires { at ≤ count_before from (window.most +ℤ pos 1) readings.now }
    ensures { result ≡ count_before from (window.most +ℤ pos 1) readings.now }
{
    skip_before(readings, from, i128::from(window.most) + 1, at)
}

/// The readings in the window after a time. The search for each end begins at a place that is not past it.
pub(crate) fn slide(window: Window, readings: &[Reading], from: i64, at: Span) -> Span
    requires window { IsWindow window }
    requires start { at.start ≤ count_before from window.least readings.now }
    requires end { at.end ≤ count_before from (window.most +ℤ pos 1) readings.now }
    ensures start { result.start ≡ count_before from window.least readings.now }
    ensures end { result.end ≡ count_before from (window.most +ℤ pos 1) readings.now }
    ensures ordered { result.start ≤ result.end }
    ensures within { result.end ≤ length readings.now }
{
    Span {
        start: start_of(window, readings, from, at.start),
        end: end_of(window, readings, from, at.end),
    }
}

/// The readings of a span.
pub(crate) fn part_of(readings: &[Reading], span: Span) -> &[Reading]
    requires ordered { span.start ≤ span.end }
    requires within { span.end ≤ length readings.now }
    ensures { result.now ≡ take (span.end - span.start) (drop span.start readings.now) }
{
    &readings[span.start..span.end]
}
