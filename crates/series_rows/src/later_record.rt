//! The fields of a later record as a row.
ghost use Rattle.std.specs.Prelude.{◌≡◌, ◌≢◌, ℕ, ◌+◌, ℤ, List, Result, IfOk, IfErr, MatchBool, length};
ghost use Rattle.words.specs.Answers.{UnlessMemory};
ghost use Rattle.series_rows.specs.Before.{BeforeView};
ghost use Rattle.series_rows.specs.Faults.{of_memory};
ghost use Rattle.series_rows.specs.Header.{HeaderView};
ghost use Rattle.series_rows.specs.Parts.{IsRowTime, IsTimeFault};
ghost use Rattle.series_rows.specs.ReadsRow.{AreFew, AreTooMany, IsLater, IsNotLater, IsRow, ReadsRow};
ghost use Rattle.series_rows.specs.Row.{RowView};

use crate::before::RowsBefore;
use crate::cells::read_cells;
use crate::column::field_in;
use crate::fault::{TableCause, TableFault};
use crate::header::Header;
use crate::laws::one_row;
use crate::limits::Limits;
use crate::row::Row;
use record_cut::Fields;
use rule_file::Rules;
use screen_model::MOST_READINGS;
use std::alloc::Global;
use time_text::{TimeFault, ticks};

/// The row that the fields of a record after the header are, or the first reason why they are none.
///
/// A row has room in itself for four readings, and for as many columns without one; more of either need an allocation.
///
/// # Errors
///
/// In the row's own number, in this order: `TooManyRows`; `Width`; `Time`, then `TimeNotRising`, of the time column;
/// `Value` of the first sensor column from the left that is refused; `TooManyReadings`. The column is 0 where none is
/// named here. `Memory` may come at any time.
pub fn read_row(
    alloc: Global,
    rules: &Rules,
    header: &Header,
    limits: Limits,
    before: RowsBefore,
    fields: Fields,
) -> Result<Row, TableFault>
    ensures accepted { IfOk result (IsRow rules.now header.now limits before fields) }
    ensures refused { IfErr result (λ fault. fault ≢ of_memory →
        ReadsRow rules.now header.now limits before fields (Err fault)) }
    ensures only { (answer : Result RowView TableFault) → ReadsRow rules.now header.now limits before fields answer →
        UnlessMemory of_memory (λ given. given ≡ answer) result }
{
    // The law of `only`; it does nothing.
    one_row();
    row_of(alloc, rules, header, limits, before, fields)
}

/// What the fields are read as.
fn row_of(
    alloc: Global,
    rules: &Rules,
    header: &Header,
    limits: Limits,
    before: RowsBefore,
    fields: Fields,
) -> Result<Row, TableFault>
    ensures { UnlessMemory of_memory (ReadsRow rules.now header.now limits before fields) result }
{
    let number = before.rows() + 1;
    if before.rows() >= limits.most_rows() {
        return Err(TableFault::at(number, 0, TableCause::TooManyRows));
    }
    if fields.width() != header.width() {
        return Err(TableFault::at(number, 0, TableCause::Width));
    }
    let time_col = header.time_col();
    let ticks = row_ticks(alloc, rules, before, field_in(&fields, time_col), time_col)?;
    let cells = read_cells(
        alloc,
        &rules.format,
        &fields,
        header.sensor_columns(),
        number,
    )?;
    if are_too_many(limits, before.readings(), cells.readings.len()) {
        return Err(TableFault::at(number, 0, TableCause::TooManyReadings));
    }
    Ok(Row::new(fields, ticks, time_col, cells))
}

/// The ticks of the time field, which stands in this column: later than those of the row before.
fn row_ticks(
    alloc: Global,
    rules: &Rules,
    before: RowsBefore,
    field: &[u8],
    col: u32,
) -> Result<i64, TableFault>
    ensures accepted { IfOk result (IsRowTime rules.now before field.now) }
    ensures refused { IfErr result (λ fault. fault ≢ of_memory → IsTimeFault rules.now before col field.now fault) }
{
    let number = before.rows() + 1;
    let ticks = match ticks(alloc, rules.format.form, field) {
        Ok(ticks) => ticks,
        Err(TimeFault::Memory) => return Err(TableFault::of_the_file(TableCause::Memory)),
        Err(fault) => return Err(TableFault::at(number, col, TableCause::Time(fault))),
    };
    if is_later(before.ticks(), ticks) {
        Ok(ticks)
    } else {
        Err(TableFault::at(number, col, TableCause::TimeNotRising))
    }
}

/// Whether the ticks are above those of the row before, if there is one.
fn is_later(last: Option<i64>, ticks: i64) -> bool
    ensures { MatchBool result (IsLater last ticks) (IsNotLater last ticks) }
{
    match last {
        Some(last) => ticks > last,
        None => true,
    }
}

/// Whether there are more readings than there may be, with those before.
fn are_too_many(limits: Limits, before: u64, count: usize) -> bool
    ensures { MatchBool result (AreTooMany limits (before + count)) (AreFew limits (before + count)) }
{
    match limits {
        Limits::Whole => before.saturating_add(count as u64) > u64::from(MOST_READINGS),
        Limits::Endless => false,
    }
}
