//! The texts of a header and of a row.
ghost use Rattle.std.specs.Prelude.{◌≡◌, ℕ, ◌-◌, ◌≤◌, ◌++◌, drop, length, unsigned_abs, IfOk, OnOk, OnErr};
ghost use Rattle.std.specs.Io.{StartsWith};
ghost use Rattle.fix_point.specs.Text.{text_of_value};
ghost use Rattle.series_rows.specs.Columns.{is_at, left_to_write, text_of_column};
ghost use Rattle.series_rows.specs.ReadBack.{AreValuesOf};
ghost use Rattle.series_rows.specs.Texts.{header_text, row_text_with};

use crate::cell::RowReading;
use crate::column::field_in;
use crate::header::Header;
use crate::row::Row;
use fix_point::{MOST_UNITS, push_text_of};
use record_cut::{end_row, push_first_field, push_next_field, push_row};
use rule_file::{Format, Rules};
use screen_model::Series;
use std::alloc::{AllocError, Global};

/// The text of a header, as one record with a line feed.
pub fn header_text(alloc: Global, rules: &Rules, header: &Header) -> Result<Vec<u8>, AllocError>
    ensures { IfOk result (λ text. text.items ≡ header_text rules.now header.now) }
{
    let mut text = Vec::new(alloc);
    push_header(&mut text, rules, header)?;
    Ok(text)
}

/// The text of a row as one record with a line feed, in which each reading is the text of its value: one value for each
/// reading, from the left, in units and at most 10^15 in size. All else stays as it was read.
pub fn row_with(
    alloc: Global,
    rules: &Rules,
    row: &Row,
    values: &Series,
) -> Result<Vec<u8>, AllocError>
    requires { AreValuesOf row.now values.now }
    ensures { IfOk result (λ text. text.items ≡ row_text_with rules.now row.now values.now) }
{
    let mut text = Vec::new(alloc);
    push_row_with(&mut text, rules, row, values.as_slice())?;
    Ok(text)
}

/// Adds the text of a header at the end. Where memory runs out the text stays as it was.
pub fn push_header(text: &mut Vec<u8>, rules: &Rules, header: &Header) -> Result<(), AllocError>
    ensures ok { OnOk result (text.new.items ≡ text.old.items ++ header_text rules.now header.now) }
    ensures err { OnErr result (text.new.items ≡ text.old.items) }
{
    let len = text.len();
    let pushed = push_row(text, header.fields(), rules.format.separator);
    if pushed.is_err() {
        text.truncate(len);
    }
    pushed
}

/// Adds the text of a row with these values at the end, as `row_with`. Where memory runs out the text stays as it was.
pub fn push_row_with(
    text: &mut Vec<u8>,
    rules: &Rules,
    row: &Row,
    values: &[i64],
) -> Result<(), AllocError>
    requires { AreValuesOf row.now values.now }
    ensures ok { OnOk result (text.new.items ≡ text.old.items ++ row_text_with rules.now row.now values.now) }
    ensures err { OnErr result (text.new.items ≡ text.old.items) }
{
    let len = text.len();
    let pushed = push_fields_with(text, rules, row, values);
    if pushed.is_err() {
        text.truncate(len);
    }
    pushed
}

/// Adds the fields of the row with these values, and the line feed.
fn push_fields_with(
    text: &mut Vec<u8>,
    rules: &Rules,
    row: &Row,
    values: &[i64],
) -> Result<(), AllocError>
    requires { AreValuesOf row.now values.now }
    ensures ok { OnOk result (text.new.items ≡ text.old.items ++ row_text_with rules.now row.now values.now) }
    ensures front { StartsWith text.new.items text.old.items }
{
    // The columns of the readings go up; the proof rests on it.
    let _readings = row.readings();
    let mut next = 0;
    for i in 0..row.fields().width() {
        next = push_column(text, &rules.format, row, values, i + 1, next)?;
    }
    end_row(text)
}

/// Adds what stands in a column, where so many readings stand before it, and answers how many stand before the next.
fn push_column(
    text: &mut Vec<u8>,
    format: &Format,
    row: &Row,
    values: &[i64],
    col: u32,
    next: usize,
) -> Result<usize, AllocError>
    requires values { AreValuesOf row.now values.now }
    requires least { 1 ≤ col }
    requires most { col ≤ length row.now.fields }
    requires within { next ≤ length row.now.readings }
    ensures rest { IfOk result (λ after.
        text.new.items ++ left_to_write format.now row.now values.now col after
        ≡ text.old.items ++ left_to_write format.now row.now values.now (col - 1) next) }
    ensures within { IfOk result (λ after. after ≤ length row.now.readings) }
    ensures front { StartsWith text.new.items text.old.items }
{
    let fields = row.fields();
    if is_next(row.readings(), next, col) {
        push_value(text, format, col, values[next])?;
        return Ok(next + 1);
    }
    push_unchanged(
        text,
        field_in(fields, col),
        col,
        fields.width(),
        format.separator,
    )?;
    Ok(next)
}

/// Whether the reading at this place stands in the column.
fn is_next(readings: &[RowReading], next: usize, col: u32) -> bool
    ensures { result ≡ is_at (drop next readings.now) col }
{
    if next >= readings.len() {
        return false;
    }
    readings[next].col == col
}

/// Adds the text of the value in a column as it stands in the text of a row, after a separator where it is not the first.
/// The text of a number is never in quotes.
fn push_value(text: &mut Vec<u8>, format: &Format, col: u32, value: i64) -> Result<(), AllocError>
    requires least { 1 ≤ col }
    requires small { unsigned_abs value ≤ unsigned_abs MOST_UNITS }
    ensures ok { (width : ℕ) → OnOk result
        (text.new.items ≡ text.old.items ++ text_of_column format.now.separator width col (text_of_value value format.now.decimals)) }
    ensures front { StartsWith text.new.items text.old.items }
{
    if col == 1 {
        return push_text_of(text, i128::from(value), format.decimals);
    }
    text.push(format.separator)?;
    push_text_of(text, i128::from(value), format.decimals)
}

/// Adds a field as it stands in a column of the text of a row.
fn push_unchanged(
    text: &mut Vec<u8>,
    field: &[u8],
    col: u32,
    width: u32,
    sep: u8,
) -> Result<(), AllocError>
    requires { 1 ≤ col }
    ensures ok { OnOk result (text.new.items ≡ text.old.items ++ text_of_column sep width col field.now) }
    ensures front { StartsWith text.new.items text.old.items }
{
    if col == 1 {
        push_first_field(text, field, width, sep)
    } else {
        push_next_field(text, field, sep)
    }
}
