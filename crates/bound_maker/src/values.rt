//! The bounds of rules on the value of one reading.
ghost use Rattle.std.specs.Prelude.{◌≡◌, [], ◌++◌, ◌^◌, ◌≤◌, unsigned_abs, if◌then◌else◌, OnOk};
ghost use Rattle.pair_bounds.specs.Pairs.{is_within, place_in};
ghost use Rattle.std.specs.List.{AllByRecursion, count_by};
ghost use Rattle.bound_maker.specs.declared.reading.Reading.{Reading};
ghost use Rattle.bound_maker.specs.Bounds.{bounds_in_time, size_bounds, value_bound, value_bounds};

use crate::pairs::{opposite, place_in};
use crate::reading::Reading;
use fix_point::MOST_UNITS;
use pair_bounds::Stamp;
use rule_file::{RangeRule, TrustRule};
use screen_model::{Bound, BoundList, BoundName, End, Place, Side};
use std::alloc::AllocError;

/// The bound of a rule on the value at a place.
pub(crate) fn value_bound(number: u32, place: Place, limit: i64, side: Side) -> Bound
    ensures { result ≡ value_bound number place limit side }
{
    let name = BoundName {
        rule: number,
        from_row: place.row,
        to_row: place.row,
        col: place.col,
        side,
    };
    let (first, second) = match side {
        Side::Up => (End::Zero, End::At(place)),
        Side::Down => (End::At(place), End::Zero),
    };
    Bound {
        name,
        first,
        second,
        limit,
    }
}

/// Adds the bounds of a value that is at least the one number and at most the other.
fn push_value(
    bounds: &mut BoundList,
    number: u32,
    place: Place,
    least: i64,
    most: i64,
) -> Result<(), AllocError>
    requires { unsigned_abs least ≤ 10 ^ 15 }
    ensures { OnOk result (bounds.new ≡ bounds.old ++ value_bounds number place least most) }
{
    bounds.push(value_bound(number, place, most, Side::Up))?;
    bounds.push(value_bound(number, place, opposite(least), Side::Down))?;
    Ok(())
}

/// Adds the bounds of rule 0: those of the size of each reading.
pub(crate) fn push_sizes(bounds: &mut BoundList, places: &[Place]) -> Result<(), AllocError>
    ensures { OnOk result (bounds.new ≡ bounds.old ++ size_bounds places.now) }
{
    for place in places {
        push_value(bounds, 0, *place, -MOST_UNITS, MOST_UNITS)?;
    }
    Ok(())
}

/// Between which times a rule speaks of values, and between which numbers they are to lie.
#[derive(Clone, Copy)]
pub(crate) struct Limits {
    /// The first tick.
    pub(crate) from: i64,
    /// The last tick.
    pub(crate) to: i64,
    /// The least value.
    pub(crate) least: i64,
    /// The greatest value.
    pub(crate) most: i64,
}

/// The limits of a range rule.
pub(crate) fn limits_of_range(rule: &RangeRule) -> Limits
    ensures from { result.from ≡ rule.now.from }
    ensures to { result.to ≡ rule.now.to }
    ensures least { result.least ≡ rule.now.min }
    ensures most { result.most ≡ rule.now.max }
    ensures small { unsigned_abs result.least ≤ 10 ^ 15 }
{
    Limits {
        from: rule.from,
        to: rule.to,
        least: rule.min,
        most: rule.max,
    }
}

/// The limits of a trust rule on a reading.
pub(crate) fn limits_of_trust(rule: &TrustRule, reading: &Reading) -> Limits
    ensures from { result.from ≡ rule.now.from }
    ensures to { result.to ≡ rule.now.to }
    ensures least { result.least ≡ reading.now.value }
    ensures most { result.most ≡ reading.now.value }
{
    Limits {
        from: rule.from,
        to: rule.to,
        least: reading.value,
        most: reading.value,
    }
}

/// Whether a rule with these limits speaks of a time.
pub(crate) fn covers(limits: Limits, stamp: Stamp) -> bool
    ensures { result ≡ is_within limits.from limits.to stamp.ticks }
{
    is_between(limits.from, limits.to, stamp.ticks)
}

/// Adds the bounds of the value at a time in a column, if the rule speaks of that time.
fn push_in_time(
    bounds: &mut BoundList,
    number: u32,
    col: u32,
    limits: Limits,
    stamp: Stamp,
) -> Result<(), AllocError>
    requires { unsigned_abs limits.least ≤ 10 ^ 15 }
    ensures { OnOk result (bounds.new ≡ bounds.old ++ (if is_within limits.from limits.to stamp.ticks then value_bounds number (place_in col stamp) limits.least limits.most else [])) }
{
    if covers(limits, stamp) {
        push_value(
            bounds,
            number,
            place_in(col, stamp),
            limits.least,
            limits.most,
        )?;
    }
    Ok(())
}

/// Adds the bounds of a range rule on the readings of its column.
pub(crate) fn push_range(
    bounds: &mut BoundList,
    number: u32,
    col: u32,
    rule: &RangeRule,
    readings: &[Reading],
) -> Result<(), AllocError>
    ensures { OnOk result (bounds.new ≡ bounds.old ++ bounds_in_time number col rule.now.from rule.now.to (λ value. rule.now.min) (λ value. rule.now.max) readings.now) }
{
    let limits = limits_of_range(rule);
    for reading in readings {
        push_in_time(bounds, number, col, limits, reading.stamp)?;
    }
    Ok(())
}

/// Adds the bounds of a trust rule on the readings of its column.
pub(crate) fn push_trust(
    bounds: &mut BoundList,
    number: u32,
    col: u32,
    rule: &TrustRule,
    readings: &[Reading],
) -> Result<(), AllocError>
    requires { AllByRecursion (λ (reading : Reading). unsigned_abs reading.value ≤ 10 ^ 15) readings.now }
    ensures { OnOk result (bounds.new ≡ bounds.old ++ bounds_in_time number col rule.now.from rule.now.to (λ value. value) (λ value. value) readings.now) }
{
    for reading in readings {
        let limits = limits_of_trust(rule, reading);
        push_in_time(bounds, number, col, limits, reading.stamp)?;
    }
    Ok(())
}

/// How many of the readings lie between two times, both included.
pub(crate) fn count_in_time(from: i64, to: i64, readings: &[Reading]) -> usize
    ensures { result ≡ count_by (λ (reading : Reading). is_within from to reading.stamp.ticks) readings.now }
{
    let mut count = 0;
    for reading in readings {
        count += usize::from(is_between(from, to, reading.stamp.ticks));
    }
    count
}

/// Whether a time lies between two others, both included.
pub(crate) fn is_between(from: i64, to: i64, ticks: i64) -> bool
    ensures { result ≡ is_within from to ticks }
{
    from <= ticks && ticks <= to
}
