//! The four separators of fields.

use record_cut::{Cutter, Fields};
use std::alloc::{AllocError, Global};

/// A cutter with this separator; with a comma, where it is none.
pub fn cutter_with(alloc: Global, sep: u8) -> Cutter {
    match sep {
        b';' => Cutter::new(alloc, b';'),
        b'\t' => Cutter::new(alloc, b'\t'),
        b'|' => Cutter::new(alloc, b'|'),
        _ => Cutter::new(alloc, b','),
    }
}

/// The bytes with another byte in the place of each that is this one.
pub fn exchanged(alloc: Global, bytes: &[u8], one: u8, another: u8) -> Result<Vec<u8>, AllocError> {
    let mut all = Vec::new(alloc);
    for byte in bytes {
        all.push(if *byte == one { another } else { *byte })?;
    }
    Ok(all)
}

/// The fields of the first record of a text, if it has any and is not refused before.
pub fn first_record(alloc: Global, sep: u8, text: &[u8]) -> Option<Fields> {
    let mut cutter = cutter_with(alloc, sep);
    for byte in text {
        if let Some(fields) = cutter.feed(*byte).ok()? {
            return Some(fields);
        }
    }
    cutter.finish().ok()?
}
