//! The texts of records.

use crate::separators::cutter_with;
use crate::shown::{both, push_fields, told};
use record_cut::{Fields, end_row, push_first_field, push_next_field, push_row, row_text};
use std::alloc::{AllocError, Global};

/// What stands before a text that is added to another one.
const BEFORE: &[u8] = b"x\n";

/// The text of the fields that stand in brackets. It is written at once, a field at a time, at the end of another text,
/// and from a copy.
pub fn written(alloc: Global, sep: u8, input: &[u8]) -> Result<Vec<u8>, AllocError> {
    let row = fields_in(alloc, input)?;
    if row.width() == 0 {
        return told(alloc, "no field");
    }
    let copy = row.clone()?;
    if !is_shown(alloc, &row, input)? || !is_shown(alloc, &copy, input)? {
        return told(alloc, "other fields");
    }
    let text = row_text(alloc, &row, sep)?;
    let by_fields = by_fields(alloc, &row, sep)?;
    if by_fields.as_slice() != text.as_slice() {
        return both(
            alloc,
            text.as_slice(),
            " but by fields ",
            by_fields.as_slice(),
        );
    }
    let mut after = Vec::from_slice(alloc, BEFORE)?;
    push_row(&mut after, &row, sep)?;
    if after.as_slice().strip_prefix(BEFORE) != Some(text.as_slice()) {
        return both(
            alloc,
            text.as_slice(),
            " but after another ",
            after.as_slice(),
        );
    }
    Ok(text)
}

/// The fields that stand in brackets.
fn fields_in(alloc: Global, input: &[u8]) -> Result<Fields, AllocError> {
    let mut fields = Fields::new(alloc);
    let mut field = Vec::new(alloc);
    for byte in input {
        if *byte == b'[' {
            field.clear();
        } else if *byte == b']' {
            add(&mut fields, field.as_slice())?;
        } else {
            field.push(*byte)?;
        }
    }
    Ok(fields)
}

/// Adds a field to a list that is not full.
fn add(fields: &mut Fields, field: &[u8]) -> Result<(), AllocError> {
    if fields.width() < u32::MAX {
        fields.push(field)?;
    }
    Ok(())
}

/// Whether the fields are these in brackets, and none comes after them.
fn is_shown(alloc: Global, fields: &Fields, input: &[u8]) -> Result<bool, AllocError> {
    let mut text = Vec::new(alloc);
    push_fields(&mut text, fields)?;
    Ok(text.as_slice() == input && fields.field(fields.width()).is_none())
}

/// The text, written a field at a time.
fn by_fields(alloc: Global, row: &Fields, sep: u8) -> Result<Vec<u8>, AllocError> {
    let mut text = Vec::new(alloc);
    let first = row.field(0).unwrap_or(b"?");
    push_first_field(&mut text, first, row.width(), sep)?;
    for place in 1..row.width() {
        push_next_field(&mut text, row.field(place).unwrap_or(b"?"), sep)?;
    }
    end_row(&mut text)?;
    Ok(text)
}

/// The number of fields of a text of one record, and the text of a list of the same fields.
pub fn again(alloc: Global, sep: u8, input: &[u8]) -> Result<Vec<u8>, AllocError> {
    let taken = cutter_with(alloc, sep).feed_slice(input);
    if taken.count != input.len() {
        return told(alloc, "more than one record");
    }
    let Ok(Some(fields)) = taken.answer else {
        return told(alloc, "no record");
    };
    let mut copy = Fields::new(alloc);
    for place in 0..fields.width() {
        add(&mut copy, fields.field(place).unwrap_or(b"?"))?;
    }
    if copy.width() == 0 {
        return told(alloc, "no field");
    }
    let width = copy.width();
    let mut text = told(alloc, format!(in alloc; "{width} fields ")?.as_str())?;
    push_row(&mut text, &copy, sep)?;
    Ok(text)
}
