//! Rows: their cells, or what refuses them, and their texts with other values.
ghost use Rattle.std.specs.Prelude.{◌≤◌, unsigned_abs};
ghost use Rattle.fix_point.specs.declared.scale.TheConstants.{MOST_UNITS};

use crate::separators::first_record;
use crate::shown::{fault_text, push_number, told};
use case_file::{Answers, Settings};
use fix_point::MOST_UNITS;
use rule_file::{Rules, read_rules};
use screen_model::{MOST_COLUMNS, Series};
use series_rows::{
    Cell, Header, Limits, MOST_ENDLESS_ROWS, Row, RowsBefore, read_header, read_row, row_with,
};
use std::alloc::{AllocError, Global};

/// Answers lines of rows. The setting `rules` is a rule file, `header` is the line of the header, and `before` has what
/// stands before the row: how many rows, the ticks of the last, and how many readings.
pub struct Rows;

impl Answers for Rows {
    fn answer(
        &self,
        alloc: Global,
        settings: &Settings,
        key: &str,
        input: &[u8],
    ) -> Result<Vec<u8>, AllocError> {
        let Ok(rules) = read_rules(alloc, settings.bytes("rules")) else {
            return told(alloc, "no rules");
        };
        let sep = rules.format.separator;
        let Some(fields) = first_record(alloc, sep, settings.bytes("header")) else {
            return told(alloc, "no header");
        };
        let Ok(header) = read_header(alloc, &rules, fields) else {
            return told(alloc, "no header");
        };
        let Some(before) = before_in(settings.text("before")) else {
            return told(alloc, "no such rows before");
        };
        answer_of(alloc, settings, &rules, &header, before, key, input)
    }
}

/// What stands before a row.
fn before_in(text: &str) -> Option<RowsBefore> {
    let mut words = text.split(' ');
    let rows = words.next()?.parse::<u32>().ok()?;
    let ticks = words.next()?.parse::<i64>().ok();
    let readings = words.next()?.parse::<u64>().ok()?;
    if rows > MOST_ENDLESS_ROWS || readings > u64::from(MOST_COLUMNS) * u64::from(rows) {
        return None;
    }
    Some(RowsBefore::new(rows, ticks, readings))
}

/// The answer of a row of this header.
fn answer_of(
    alloc: Global,
    settings: &Settings,
    rules: &Rules,
    header: &Header,
    before: RowsBefore,
    key: &str,
    input: &[u8],
) -> Result<Vec<u8>, AllocError> {
    let limits = if key == "stream" {
        Limits::Endless
    } else {
        Limits::Whole
    };
    let first = if key == "after" {
        RowsBefore::none()
    } else {
        before
    };
    let Some(fields) = first_record(alloc, rules.format.separator, input) else {
        return told(alloc, "no record");
    };
    match read_row(alloc, rules, header, limits, first, fields) {
        Err(fault) => fault_text(alloc, fault),
        Ok(row) if key == "after" => rows_after(alloc, before, &row),
        Ok(row) if key == "with" => written(alloc, rules, &row, value_in(settings)),
        Ok(row) => cells(alloc, &row),
    }
}

/// The cells of a row from the left: the time in ticks, readings in units, and texts.
fn cells(alloc: Global, row: &Row) -> Result<Vec<u8>, AllocError> {
    let mut text = told(alloc, "cells")?;
    let width = row.fields().width();
    for col in 0..width.saturating_add(2) {
        match row.cell(col) {
            None => {}
            Some(Cell::Time) => {
                text.extend_from_slice(b" at")?;
                push_number(&mut text, alloc, row.ticks())?;
            }
            Some(Cell::Reading(value)) => push_number(&mut text, alloc, value)?,
            Some(Cell::Missing) => text.extend_from_slice(b" missing")?,
            Some(Cell::Text) => text.extend_from_slice(b" text")?,
        }
    }
    Ok(text)
}

/// What stands before a row that comes after this one.
fn rows_after(alloc: Global, before: RowsBefore, row: &Row) -> Result<Vec<u8>, AllocError> {
    if before.rows() >= MOST_ENDLESS_ROWS {
        return told(alloc, "too many rows");
    }
    let after = before.after(row);
    let mut text = told(alloc, "rows")?;
    push_number(&mut text, alloc, i64::from(after.rows()))?;
    text.extend_from_slice(b", readings")?;
    text.extend_from_slice(format!(in alloc; " {}", after.readings())?.as_bytes())?;
    if let Some(ticks) = after.ticks() {
        text.extend_from_slice(b", last at")?;
        push_number(&mut text, alloc, ticks)?;
    }
    Ok(text)
}

/// The value that is written: the setting `value`, and 0 where that is too large.
fn value_in(settings: &Settings) -> i64
    ensures { unsigned_abs result ≤ unsigned_abs MOST_UNITS }
{
    let value = settings.number("value");
    if value > MOST_UNITS || value < -MOST_UNITS {
        return 0;
    }
    value
}

/// The text of the row, in which each reading is replaced by this value.
fn written(alloc: Global, rules: &Rules, row: &Row, value: i64) -> Result<Vec<u8>, AllocError>
    requires { unsigned_abs value ≤ unsigned_abs MOST_UNITS }
{
    let count = row.readings().len();
    let mut series = Series::new(alloc);
    for _place in 0..count {
        series.push(value)?;
    }
    row_with(alloc, rules, row, &series)
}
