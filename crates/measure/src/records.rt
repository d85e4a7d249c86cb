//! CSV texts, cut by `record_cut::Cutter` byte by byte or by slices.

use crate::texts::{next_hundredths, push_hundredths};
use record_cut::{Cutter, Fields};
use std::alloc::{AllocError, Global};
use std::io;
use std::rt::Runtime;
use std::time::Instant;

const BYTES: usize = 100_000_000;

/// The most bytes of a slice that is fed at once.
const SLICE: usize = 65_536;

/// How the fields and lines of a text are written.
#[derive(Clone, Copy, PartialEq)]
pub enum Form {
    /// Fields as they are, and line feeds.
    Plain,
    /// Fields in quotes, and line feeds.
    Quoted,
    /// Fields as they are, and carriage returns before the line feeds.
    CrLf,
}

/// Prints the picoseconds that a `Cutter` takes for a byte of CSV with eight short columns, fed byte by byte or
/// by slices, and the number of fields and of the bytes of first fields, added up.
pub fn measure<R: Runtime + AllocGlobal>(rt: &R, form: Form, by_slices: bool) -> io::Result<()> {
    let text = text(rt.alloc(), form)?;
    let began = Instant::now(rt)?;
    let sum = if by_slices {
        cut_slices(rt.alloc(), text.as_slice())
    } else {
        cut_bytes(rt.alloc(), text.as_slice())
    };
    let nanos = began.elapsed(rt)?.as_nanos();
    let count = text.len().max(1);
    println!(rt; "{} {sum}", nanos.saturating_mul(1000) / count as u128)
}

/// Cuts the text byte by byte, and adds up the sizes of its records.
fn cut_bytes(alloc: Global, text: &[u8]) -> usize {
    let mut cutter = Cutter::new(alloc, b',');
    let mut sum = 0usize;
    for byte in text {
        if let Ok(Some(fields)) = cutter.feed(*byte) {
            sum = sum.wrapping_add(size(&fields));
        }
    }
    sum.wrapping_add(last_size(&mut cutter))
}

/// Cuts the text by slices, and adds up the sizes of its records.
fn cut_slices(alloc: Global, text: &[u8]) -> usize {
    let mut cutter = Cutter::new(alloc, b',');
    let mut sum = 0usize;
    for slice in text.chunks(SLICE) {
        let mut rest = slice;
        while !rest.is_empty() {
            let taken = cutter.feed_slice(rest);
            if let Ok(Some(fields)) = &taken.answer {
                sum = sum.wrapping_add(size(fields));
            }
            rest = &rest[taken.count..];
        }
    }
    sum.wrapping_add(last_size(&mut cutter))
}

/// The size of the record that the end of the text ends, or 0.
fn last_size(cutter: &mut Cutter) -> usize {
    match cutter.finish() {
        Ok(Some(fields)) => size(&fields),
        _ => 0,
    }
}

/// The number of fields and the length of the first.
fn size(fields: &Fields) -> usize {
    let first = fields.field(0).map_or(0, |field| field.len());
    first.wrapping_add(fields.width() as usize)
}

fn text(alloc: Global, form: Form) -> Result<Vec<u8>, AllocError> {
    let mut bytes = Vec::new(alloc);
    let mut state: u64 = 1;
    for column in 0..BYTES {
        if bytes.len() >= BYTES && column % 8 == 0 {
            break;
        }
        let (next, number) = next_hundredths(state);
        state = next;
        push_field(&mut bytes, number, form)?;
        push_end(&mut bytes, column % 8 == 7, form)?;
    }
    Ok(bytes)
}

fn push_field(bytes: &mut Vec<u8>, number: u64, form: Form) -> Result<(), AllocError> {
    if form != Form::Quoted {
        return push_hundredths(bytes, number);
    }
    bytes.push(b'"')?;
    push_hundredths(bytes, number)?;
    bytes.push(b'"')?;
    Ok(())
}

/// Adds what stands after a field, the last of a line or another.
fn push_end(bytes: &mut Vec<u8>, is_last: bool, form: Form) -> Result<(), AllocError> {
    if is_last && form == Form::CrLf {
        bytes.push(b'\r')?;
    }
    bytes.push(if is_last { b'\n' } else { b',' })?;
    Ok(())
}
