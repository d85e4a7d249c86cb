//! Set lines, and the series that they make of the readings.
ghost use Rattle.std.specs.Prelude.{◌≡◌, ◌+◌, ◌^◌, ◌<◌, [], ◌∷◌, not, length, IfOk};
ghost use Rattle.std.specs.Ordering.{int_eq};
ghost use Rattle.series_csv.specs.Readings.{places, values};
ghost use Rattle.cert_format.specs.Sets.{series_set};
ghost use Rattle.cert_check.specs.Repair.{first_line, is_change};

use cert_format::SetLine;
use screen_model::Series;
use series_csv::Table;
use std::alloc::{AllocError, Global};

/// Whether a value is another one.
fn differs(value: i64, other: i64) -> bool
    ensures { result ≡ not (int_eq value other) }
{
    value != other
}

/// Whether a line gives a reading another value than its own.
fn is_change(table: &Table, line: &SetLine) -> bool
    ensures { result ≡ is_change (places table.now) (values table.now) line.now }
{
    // No two readings share a place, so that the index is the only one.
    let _places = table.places();
    match table.index(line.place) {
        Some(i) => match table.reading(i) {
            Some(value) => differs(line.value, value),
            None => false,
        },
        None => false,
    }
}

/// The number of the first set line that does not give a reading another value, where so many lines stand before these.
pub(crate) fn first_outside(table: &Table, sets: &[SetLine], before: u32) -> Option<u32>
    requires { before + length sets.now < 2 ^ 32 }
    ensures { result ≡ first_line (λ line. not (is_change (places table.now) (values table.now) line)) before sets.now }
{
    let mut number = before;
    for line in sets {
        number += 1;
        if !is_change(table, line) {
            return Some(number);
        }
    }
    None
}

/// Gives the reading at the place of a line the line's value.
fn set_value(table: &Table, series: &mut Series, line: &SetLine)
    requires { length series.old ≡ length (places table.now) }
    ensures { series.new ≡ series_set (places table.now) series.old (line.now ∷ []) }
{
    // No two readings share a place, so that the index is the only one.
    let _places = table.places();
    if let Some(i) = table.index(line.place) {
        series.set(i as usize, line.value);
    }
}

/// The series of the readings with the values of set lines.
pub(crate) fn series_with(
    alloc: Global,
    table: &Table,
    sets: &[SetLine],
) -> Result<Series, AllocError>
    ensures { IfOk result (λ series. series ≡ series_set (places table.now) (values table.now) sets.now) }
{
    // There are as many places as readings.
    let _places = table.places();
    let mut series = Series::from_slice(alloc, table.series().as_slice())?;
    for line in sets {
        set_value(table, &mut series, line);
    }
    Ok(series)
}
