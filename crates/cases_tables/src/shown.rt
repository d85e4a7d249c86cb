//! How what came is told.

use record_cut::Fields;
use series_rows::TableFault;
use std::alloc::{AllocError, Global};

/// This text.
pub fn told(alloc: Global, text: &str) -> Result<Vec<u8>, AllocError> {
    Vec::from_slice(alloc, text.as_bytes())
}

/// An answer, and one that should be the same.
pub fn both(alloc: Global, answer: &[u8], but: &str, other: &[u8]) -> Result<Vec<u8>, AllocError> {
    let mut text = Vec::from_slice(alloc, answer)?;
    text.extend_from_slice(but.as_bytes())?;
    text.extend_from_slice(other)?;
    Ok(text)
}

/// Adds the fields in brackets.
pub fn push_fields(text: &mut Vec<u8>, fields: &Fields) -> Result<(), AllocError> {
    for place in 0..fields.width() {
        text.push(b'[')?;
        text.extend_from_slice(fields.field(place).unwrap_or(b"?"))?;
        text.push(b']')?;
    }
    Ok(())
}

/// Adds a number after a space.
pub fn push_number(text: &mut Vec<u8>, alloc: Global, number: i64) -> Result<(), AllocError> {
    text.extend_from_slice(format!(in alloc; " {number}")?.as_bytes())
}

/// Why a table is refused, and where.
pub fn fault_text(alloc: Global, fault: TableFault) -> Result<Vec<u8>, AllocError> {
    let cause = fault.cause;
    let row = fault.row;
    let col = fault.col;
    told(
        alloc,
        format!(in alloc; "{cause:?} row {row} column {col}")?.as_str(),
    )
}
