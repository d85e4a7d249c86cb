//! Lines of a report, added to the text that is written so far.
ghost use Rattle.std.specs.Prelude.{◌≡◌, ◌^◌, ◌≤◌, ◌++◌, ◌∷◌, [], pos, decimal, length, unsigned_abs, OnOk};
ghost use Rattle.fix_point.specs.Text.{text_of_value};
ghost use Rattle.cert_format.specs.Words.{line_feed, space};
ghost use Rattle.repair_report.specs.Lines.{change_line, heading, right_in, rule_line, step_line, table_line, value_line};

use crate::reading::Repaired;
use crate::tally::Tally;
use cert_format::{Line, push_line};
use fix_point::{push_text_of, text_of};
use itoa::Buffer;
use screen_model::{Bound, Place};
use std::alloc::{AllocError, Global};

/// Adds a text at the right end of so many places.
fn push_right(text: &mut Vec<u8>, places: usize, word: &[u8]) -> Result<(), AllocError>
    ensures { OnOk result (text.new.items ≡ text.old.items ++ right_in places word.now) }
{
    for _ in 0..places.saturating_sub(word.len()) {
        text.push(b' ')?;
    }
    text.extend_from_slice(word)
}

/// Adds a line of the table of columns.
fn push_table_line(
    text: &mut Vec<u8>,
    column: &[u8],
    readings: &[u8],
    changed: &[u8],
    change: &[u8],
) -> Result<(), AllocError>
    ensures { OnOk result (text.new.items ≡ text.old.items ++ (table_line column.now readings.now changed.now change.now ++ line_feed ∷ [])) }
{
    push_right(text, 6, column)?;
    push_right(text, 10, readings)?;
    push_right(text, 10, changed)?;
    push_right(text, 26, change)?;
    text.push(b'\n')?;
    Ok(())
}

/// Adds the heading of the table.
pub(crate) fn push_heading(text: &mut Vec<u8>) -> Result<(), AllocError>
    ensures { OnOk result (text.new.items ≡ text.old.items ++ (heading ++ line_feed ∷ [])) }
{
    push_table_line(text, b"column", b"readings", b"changed", b"change")
}

/// Adds the line of a column.
pub(crate) fn push_column(
    alloc: Global,
    text: &mut Vec<u8>,
    decimals: u32,
    col: u32,
    tally: Tally,
) -> Result<(), AllocError>
    requires decimals { decimals ≤ 6 }
    requires small { tally.change ≤ 10 ^ 30 }
    ensures { OnOk result (text.new.items ≡ text.old.items ++ (table_line (decimal col) (decimal tally.readings) (decimal tally.changed) (text_of_value (pos tally.change) decimals) ++ line_feed ∷ [])) }
{
    let mut column = Buffer::new();
    let mut readings = Buffer::new();
    let mut changed = Buffer::new();
    let change = text_of(alloc, tally.change as i128, decimals)?;
    push_table_line(
        text,
        column.format(col).as_bytes(),
        readings.format(tally.readings).as_bytes(),
        changed.format(tally.changed).as_bytes(),
        change.as_slice(),
    )
}

/// Adds a word, a value and a line feed.
pub(crate) fn push_value_line(
    text: &mut Vec<u8>,
    word: &[u8],
    decimals: u32,
    value: i128,
) -> Result<(), AllocError>
    requires decimals { decimals ≤ 6 }
    requires small { unsigned_abs value ≤ 10 ^ 30 }
    ensures { OnOk result (text.new.items ≡ text.old.items ++ (value_line word.now decimals value ++ line_feed ∷ [])) }
{
    text.extend_from_slice(word)?;
    text.push(b' ')?;
    push_text_of(text, value, decimals)?;
    text.push(b'\n')?;
    Ok(())
}

/// Adds the line of a rule with a price.
pub(crate) fn push_rule(
    text: &mut Vec<u8>,
    decimals: u32,
    number: u32,
    paid: i128,
) -> Result<(), AllocError>
    requires decimals { decimals ≤ 6 }
    requires small { unsigned_abs paid ≤ 10 ^ 30 }
    ensures { OnOk result (text.new.items ≡ text.old.items ++ (rule_line decimals number paid ++ line_feed ∷ [])) }
{
    text.extend_from_slice(b"rule")?;
    push_number(text, number)?;
    text.push(b' ')?;
    push_text_of(text, paid, decimals)?;
    text.push(b'\n')?;
    Ok(())
}

/// Adds a space and a number.
fn push_number(text: &mut Vec<u8>, number: u32) -> Result<(), AllocError>
    ensures { OnOk result (text.new.items ≡ text.old.items ++ space ∷ decimal number) }
{
    let mut digits = Buffer::new();
    text.push(b' ')?;
    text.extend_from_slice(digits.format(number).as_bytes())
}

/// Adds a row and a column, each after a space.
fn push_place(text: &mut Vec<u8>, place: Place) -> Result<(), AllocError>
    ensures { OnOk result (text.new.items ≡ text.old.items ++ (space ∷ decimal place.row ++ space ∷ decimal place.col)) }
{
    push_number(text, place.row)?;
    push_number(text, place.col)
}

/// Adds a space and a value.
fn push_value(text: &mut Vec<u8>, decimals: u32, value: i64) -> Result<(), AllocError>
    requires { decimals ≤ 6 }
    ensures { OnOk result (text.new.items ≡ text.old.items ++ space ∷ text_of_value value decimals) }
{
    text.push(b' ')?;
    push_text_of(text, i128::from(value), decimals)
}

/// Adds the line of a reading that changed.
pub(crate) fn push_change(
    text: &mut Vec<u8>,
    decimals: u32,
    reading: Repaired,
) -> Result<(), AllocError>
    requires { decimals ≤ 6 }
    ensures { OnOk result (text.new.items ≡ text.old.items ++ (change_line decimals reading ++ line_feed ∷ [])) }
{
    text.extend_from_slice(b"change")?;
    push_place(text, reading.place)?;
    push_value(text, decimals, reading.from)?;
    push_value(text, decimals, reading.to)?;
    text.push(b'\n')?;
    Ok(())
}

/// Adds the line of a bound of a cycle.
pub(crate) fn push_step(text: &mut Vec<u8>, decimals: u32, bound: Bound) -> Result<(), AllocError>
    requires { decimals ≤ 6 }
    ensures { OnOk result (text.new.items ≡ text.old.items ++ (step_line decimals bound ++ line_feed ∷ [])) }
{
    push_line(text, Line::Step(bound.name))?;
    push_value(text, decimals, bound.limit)?;
    text.push(b'\n')?;
    Ok(())
}
