//! The fields of the first record as the header.
ghost use Rattle.std.specs.Prelude.{◌≡◌, ◌≢◌, ◌==◌, [], ◌∷◌, ◌++◌, Result, Ok, Err, if◌then◌else◌, IfOk, IfErr, OnOk};
ghost use Rattle.std.specs.List.{list_any};
ghost use Rattle.words.specs.Answers.{UnlessMemory};
ghost use Rattle.rule_file.specs.Numbers.{sensors};
ghost use Rattle.series_rows.specs.Faults.{of_memory};
ghost use Rattle.series_rows.specs.Header.{HeaderView, IsHeader, RefusesHeader, ReadsHeader, columns_of, named_by_sensors, time_column};

use crate::column::the_only_column;
use crate::fault::{TableCause, TableFault};
use crate::header::Header;
use crate::laws::one_header;
use record_cut::Fields;
use rule_file::{Format, Rules};
use screen_model::MOST_COLUMNS;
use sequence::Sequence;
use std::alloc::{AllocError, Global};

/// The header that the fields of the first record are, or the first reason why they are none.
///
/// Names are compared as bytes; blanks at the ends of the fields are ignored.
///
/// # Errors
///
/// In row 0, in this order: `TooManyColumns`; `NoSuchSensor` or `NameTwice` of the time column; the same of the first
/// sensor, in the order of the rules' numbers, that has no column besides the time column, or two. `NameTwice` has the
/// second such column, the others have column 0. `Memory` may come at any time.
pub fn read_header(alloc: Global, rules: &Rules, fields: Fields) -> Result<Header, TableFault>
    ensures accepted { IfOk result (IsHeader rules.now fields) }
    ensures refused { IfErr result (λ fault. fault ≢ of_memory → RefusesHeader rules.now fields fault) }
    ensures only { (answer : Result HeaderView TableFault) → ReadsHeader rules.now fields answer →
        UnlessMemory of_memory (λ given. given ≡ answer) result }
{
    // The law of `only`; it does nothing.
    one_header();
    header_of(alloc, rules, fields)
}

/// What the fields are read as.
fn header_of(alloc: Global, rules: &Rules, fields: Fields) -> Result<Header, TableFault>
    ensures { UnlessMemory of_memory (ReadsHeader rules.now fields) result }
{
    if fields.width() > MOST_COLUMNS {
        return Err(TableFault::at(0, 0, TableCause::TooManyColumns));
    }
    let time_col = time_column(&rules.format, &fields)?;
    let sensor_cols = columns_of(alloc, rules, &fields, time_col)?;
    let from_left = from_left(alloc, sensor_cols.as_slice(), fields.width())?;
    Ok(Header::new(fields, time_col, sensor_cols, from_left))
}

/// The time column.
fn time_column(format: &Format, fields: &Fields) -> Result<u32, TableFault>
    ensures { result ≡ time_column format.now.time fields.now }
{
    match &format.time {
        Some(name) => the_only_column(fields, name.bytes(), None, 0),
        None if fields.width() == 0 => {
            Err(TableFault::at(0, 0, TableCause::NoSuchSensor { rule: 0 }))
        }
        None => Ok(1),
    }
}

/// The column of each sensor of the rules, in the order of their numbers.
fn columns_of(
    alloc: Global,
    rules: &Rules,
    fields: &Fields,
    time_col: u32,
) -> Result<Sequence<u32>, TableFault>
    ensures accepted { IfOk result (λ cols. columns_of time_col fields.now (sensors rules.now) ≡ Ok cols) }
    ensures refused { IfErr result (λ fault. fault ≢ of_memory →
        columns_of time_col fields.now (sensors rules.now) ≡ Err fault) }
{
    let count = rules.sensor_count();
    let mut cols = Sequence::with_capacity(alloc, count as usize)?;
    for i in 0..count {
        let sensor = rules.sensor(i).unwrap();
        let col = the_only_column(fields, sensor.name, Some(time_col), sensor.rule)?;
        cols.push(col)?;
    }
    Ok(cols)
}

/// The columns of sensors from the left, each once, of so many columns.
fn from_left(alloc: Global, sensor_cols: &[u32], width: u32) -> Result<Sequence<u32>, AllocError>
    ensures { IfOk result (λ cols. cols ≡ named_by_sensors sensor_cols.now width) }
{
    let mut cols = Sequence::new(alloc);
    for i in 0..width {
        push_sensor_column(&mut cols, sensor_cols, i + 1)?;
    }
    Ok(cols)
}

/// Adds the column where it is one of the sensors'.
fn push_sensor_column(
    cols: &mut Sequence<u32>,
    sensor_cols: &[u32],
    col: u32,
) -> Result<(), AllocError>
    ensures { OnOk result (cols.new ≡ cols.old ++ (if list_any (λ sensor. sensor == col) sensor_cols.now then col ∷ [] else [])) }
{
    if sensor_cols.contains(&col) {
        cols.push(col)?;
    }
    Ok(())
}
