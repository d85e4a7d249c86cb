//! The texts of records.

ghost use Rattle.std.specs.Prelude.{◌≡◌, ◌<◌, ◌≤◌, [], ◌∷◌, ◌++◌, length, drop, IfOk, OnOk};
ghost use Rattle.std.specs.Io.{StartsWith};
ghost use Rattle.record_cut.specs.Bytes.{line_feed};
ghost use Rattle.record_cut.specs.Row.{holds_special, begins_with_mark, doubled, field_text, first_in_quotes, text_of_first, text_of_next, text_of_others, text_of_row};

use crate::bytes::{LINE_FEED, MARK, QUOTE, before_quote, before_special};
use crate::fields::Fields;
use std::alloc::{AllocError, Global};

/// The fields as one record of CSV text, with `sep` between them and a line feed at the end. A field is
/// written in quotes only where it would not be read back as it is.
pub fn row_text(alloc: Global, fields: &Fields, sep: u8) -> Result<Vec<u8>, AllocError>
    requires { 0 < length fields.now }
    ensures { IfOk result (λ text. text.items ≡ text_of_row sep fields.now) }
{
    let mut text = Vec::new(alloc);
    push_row(&mut text, fields, sep)?;
    Ok(text)
}

/// Adds the text of `row_text` at the end. Where memory runs out, a part of it may have been added, and what
/// stood before it stands as it was.
pub fn push_row(text: &mut Vec<u8>, fields: &Fields, sep: u8) -> Result<(), AllocError>
    requires { 0 < length fields.now }
    ensures text { OnOk result (text.new.items ≡ text.old.items ++ text_of_row sep fields.now) }
    ensures front { StartsWith text.new.items text.old.items }
{
    text.reserve(fields.size().saturating_add(fields.width() as usize))?;
    push_first_field(text, fields.at(0), fields.width(), sep)?;
    push_others(text, fields, sep)?;
    Ok(())
}

/// Adds the first field of a row of so many, as it stands in the text of the row. A row is written by this
/// call, `push_next_field` for each field after the first, and `end_row`.
///
/// Where memory runs out, a part of it may have been added, and what stood before it stands as it was.
pub fn push_first_field(
    text: &mut Vec<u8>,
    field: &[u8],
    width: u32,
    sep: u8,
) -> Result<(), AllocError>
    ensures text { OnOk result (text.new.items ≡ text.old.items ++ text_of_first sep field.now width) }
    ensures front { StartsWith text.new.items text.old.items }
{
    push_field(text, field, first_in_quotes(field, width, sep))
}

/// Adds a separator and a field after the first, as they stand in the text of a row.
///
/// Where memory runs out, a part of it may have been added, and what stood before it stands as it was.
pub fn push_next_field(text: &mut Vec<u8>, field: &[u8], sep: u8) -> Result<(), AllocError>
    ensures text { OnOk result (text.new.items ≡ text.old.items ++ text_of_next sep field.now) }
    ensures front { StartsWith text.new.items text.old.items }
{
    text.push(sep)?;
    push_field(text, field, holds_special(field, sep))?;
    Ok(())
}

/// Adds the line feed at the end of a row.
pub fn end_row(text: &mut Vec<u8>) -> Result<(), AllocError>
    ensures text { OnOk result (text.new.items ≡ text.old.items ++ line_feed ∷ []) }
    ensures front { StartsWith text.new.items text.old.items }
{
    text.push(LINE_FEED)?;
    Ok(())
}

/// Adds the fields after the first, each after a separator, and the line feed.
fn push_others(text: &mut Vec<u8>, fields: &Fields, sep: u8) -> Result<(), AllocError>
    requires { 0 < length fields.now }
    ensures text { OnOk result (text.new.items ≡ text.old.items ++ text_of_others sep (drop 1 fields.now)) }
    ensures front { StartsWith text.new.items text.old.items }
{
    for i in 1..fields.width() {
        push_next_field(text, fields.at(i), sep)?;
    }
    end_row(text)?;
    Ok(())
}

/// Whether the first field of so many is written in quotes.
fn first_in_quotes(field: &[u8], width: u32, sep: u8) -> bool
    ensures { result ≡ first_in_quotes sep field.now width }
{
    holds_special(field, sep) || begins_with_mark(field) || (field.is_empty() && width == 1)
}

/// Whether the field holds a separator, a quote or a byte of a line break.
fn holds_special(field: &[u8], sep: u8) -> bool
    ensures { result ≡ holds_special sep field.now }
{
    before_special(field, sep) < field.len()
}

/// Whether the field begins with a byte order mark.
fn begins_with_mark(field: &[u8]) -> bool
    ensures { result ≡ begins_with_mark field.now }
{
    match field {
        [first, second, third, ..] => {
            *first == MARK[0] && *second == MARK[1] && *third == MARK[2]
        }
        _ => false,
    }
}

/// Adds the field, in quotes if it is to be.
fn push_field(text: &mut Vec<u8>, field: &[u8], in_quotes: bool) -> Result<(), AllocError>
    ensures text { OnOk result (text.new.items ≡ text.old.items ++ field_text in_quotes field.now) }
    ensures front { StartsWith text.new.items text.old.items }
{
    if !in_quotes {
        return text.extend_from_slice(field);
    }
    text.push(QUOTE)?;
    push_doubled(text, field)?;
    text.push(QUOTE)?;
    Ok(())
}

/// Adds the field with each quote twice.
fn push_doubled(text: &mut Vec<u8>, field: &[u8]) -> Result<(), AllocError>
    ensures text { OnOk result (text.new.items ≡ text.old.items ++ doubled field.now) }
    ensures front { StartsWith text.new.items text.old.items }
{
    let mut from = 0;
    while from < field.len() {
        from += push_to_quote(text, &field[from..])?;
    }
    Ok(())
}

/// Adds the bytes up to the first quote, and that quote twice, and says how many bytes of the field these
/// are.
fn push_to_quote(text: &mut Vec<u8>, field: &[u8]) -> Result<usize, AllocError>
    requires { 0 < length field.now }
    ensures some { IfOk result (λ count. 0 < count) }
    ensures within { IfOk result (λ count. count ≤ length field.now) }
    ensures pushed { IfOk result (λ count.
        text.new.items ++ doubled (drop count field.now) ≡ text.old.items ++ doubled field.now) }
    ensures front { StartsWith text.new.items text.old.items }
{
    let run = before_quote(field);
    text.extend_from_slice(&field[..run])?;
    if run == field.len() {
        return Ok(run);
    }
    text.extend_from_slice(&[QUOTE, QUOTE])?;
    Ok(run + 1)
}
