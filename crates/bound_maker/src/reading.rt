//! The readings of a column.
ghost use Rattle.std.specs.Prelude.{◌≡◌, ℕ, ◌≤◌, ◌^◌, [], ◌++◌, length, drop, slice_get, unsigned_abs, IfOk, OnOk};
ghost use Rattle.std.specs.List.{AllByRecursion};
ghost use Rattle.screen_model.specs.declared.limits.TheConstants.{MOST_ROWS};
ghost use Rattle.bound_maker.specs.declared.reading.Reading.{Reading};
ghost use Rattle.bound_maker.specs.Readings.{before_later, reading_in, readings_of, value_in};
ghost use Rattle.bound_maker.specs.Windows.{StampsRise};

use pair_bounds::Stamp;
use sequence::Sequence;
use series_csv::{Row, RowReading, Table};
use std::alloc::{AllocError, Global};

/// A reading of a sensor.
#[derive(Clone, Copy, Debug, PartialEq, Eq)]
pub(crate) struct Reading {
    /// Its row and the time.
    pub(crate) stamp: Stamp,
    /// Its value, in units.
    pub(crate) value: i64,
}

/// The first reading, if there is one.
pub(crate) fn first_of(readings: &[Reading]) -> Option<Reading>
    ensures { result ≡ slice_get readings.now 0 }
{
    readings.first().copied()
}

/// The readings after the first.
pub(crate) fn later_of(readings: &[Reading]) -> &[Reading]
    ensures { result.now ≡ drop 1 readings.now }
{
    match readings {
        [_, later @ ..] => later,
        [] => readings,
    }
}

/// The value of the reading in a column among those of a row, if there is one.
fn value_in(readings: &[RowReading], col: u32) -> Option<i64>
    ensures { result ≡ value_in col readings.now }
{
    for reading in readings {
        if reading.col == col {
            return Some(reading.value);
        }
    }
    None
}

/// The value of the reading that a row has in a column, if it has one.
pub(crate) fn reading_in(row: &Row, col: u32) -> Option<i64>
    ensures { result ≡ reading_in col row.now }
{
    value_in(row.readings(), col)
}

/// Adds the reading in a column of the row of this number, if it has one.
fn push_reading(
    readings: &mut Sequence<Reading>,
    number: u32,
    row: &Row,
    col: u32,
) -> Result<(), AllocError>
    ensures { OnOk result (readings.new ≡ readings.old ++ before_later number row.now (reading_in col row.now) []) }
{
    match reading_in(row, col) {
        Some(value) => readings.push(Reading {
            stamp: Stamp {
                row: number,
                ticks: row.ticks(),
            },
            value,
        }),
        None => Ok(()),
    }
}

/// The readings in a column of rows, in their order.
pub(crate) fn gather(alloc: Global, rows: &[Row], col: u32) -> Result<Sequence<Reading>, AllocError>
    requires { length rows.now ≤ MOST_ROWS }
    ensures { IfOk result (λ readings. readings ≡ readings_of col rows.now) }
{
    let mut readings = Sequence::new(alloc);
    let mut number = 0;
    for row in rows {
        number += 1;
        push_reading(&mut readings, number, row, col)?;
    }
    Ok(readings)
}

/// The rows of a table, of which each has a later time than those before it.
pub(crate) fn rows_of(table: &Table) -> &[Row]
    ensures rows { result.now ≡ table.now.rows }
    ensures few { length result.now ≤ MOST_ROWS }
    ensures rise { (col : ℕ) → StampsRise (readings_of col result.now) }
    ensures small { (col : ℕ) → AllByRecursion (λ (reading : Reading). unsigned_abs reading.value ≤ 10 ^ 15) (readings_of col result.now) }
{
    // There are at most 200,000 rows, and each value is at most 10^15 in size.
    let _count = table.rows();
    let _values = table.series();
    table.all_rows()
}
