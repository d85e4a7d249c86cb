//! The records of a text, however it is fed.

use crate::separators::cutter_with;
use crate::shown::{both, push_fields};
use record_cut::{CutFault, Cutter, Fields};
use std::alloc::{AllocError, Global};

/// The size of a longer text, which is not cut at each place.
const LONG: usize = 200;

/// Where such a text is cut: at each multiple of this.
const PIECE: usize = 40_000;

/// What a text has given so far.
#[derive(Drop)]
struct Seen {
    /// The records, and what refused the text.
    text: Vec<u8>,
    /// How many bytes were read.
    count: usize,
    /// Whether the text was refused, and by what.
    fault: Option<CutFault>,
}

/// The records of a text, each of its fields in brackets; then what its end leaves, or the fault with the number of
/// bytes before it. It is fed byte by byte, and as two slices, cut at each place.
pub fn records_of(alloc: Global, sep: u8, text: &[u8]) -> Result<Vec<u8>, AllocError> {
    let answer = by_bytes(alloc, sep, text)?;
    let step = if text.len() > LONG { PIECE } else { 1 };
    for at in 0..=text.len() {
        if at % step == 0 {
            let (first, second) = text.split_at(at);
            let other = by_slices(alloc, sep, first, second)?;
            if other.as_slice() != answer.as_slice() {
                return both(
                    alloc,
                    answer.as_slice(),
                    " but in pieces ",
                    other.as_slice(),
                );
            }
        }
    }
    Ok(answer)
}

/// Nothing has been read.
fn nothing(alloc: Global) -> Seen {
    Seen {
        text: Vec::new(alloc),
        count: 0,
        fault: None,
    }
}

/// What comes of a text byte by byte, and of the same text again, where it was not refused.
fn by_bytes(alloc: Global, sep: u8, text: &[u8]) -> Result<Vec<u8>, AllocError> {
    let mut cutter = cutter_with(alloc, sep);
    let mut seen = nothing(alloc);
    feed_bytes(&mut cutter, alloc, text, &mut seen)?;
    end(&mut cutter, alloc, &mut seen)?;
    if seen.fault.is_some() {
        return Ok(seen.text);
    }
    let mut again = nothing(alloc);
    feed_bytes(&mut cutter, alloc, text, &mut again)?;
    end(&mut cutter, alloc, &mut again)?;
    if again.text.as_slice() != seen.text.as_slice() {
        return both(
            alloc,
            seen.text.as_slice(),
            " but again ",
            again.text.as_slice(),
        );
    }
    Ok(seen.text)
}

/// What comes of two slices.
fn by_slices(alloc: Global, sep: u8, first: &[u8], second: &[u8]) -> Result<Vec<u8>, AllocError> {
    let mut cutter = cutter_with(alloc, sep);
    let mut seen = nothing(alloc);
    feed_slices(&mut cutter, alloc, first, &mut seen)?;
    if seen.fault.is_none() && cutter.feed_slice(b"").count != 0 {
        seen.text
            .extend_from_slice(b" and more than nothing of nothing")?;
    }
    feed_slices(&mut cutter, alloc, second, &mut seen)?;
    end(&mut cutter, alloc, &mut seen)?;
    Ok(seen.text)
}

/// Feeds the bytes one by one.
fn feed_bytes(
    cutter: &mut Cutter,
    alloc: Global,
    bytes: &[u8],
    seen: &mut Seen,
) -> Result<(), AllocError> {
    for byte in bytes {
        if seen.fault.is_some() {
            break;
        }
        see(seen, alloc, "", cutter.feed(*byte))?;
        seen.count = seen.count.saturating_add(1);
    }
    Ok(())
}

/// Feeds the bytes as a slice, and what it leaves as the next.
fn feed_slices(
    cutter: &mut Cutter,
    alloc: Global,
    bytes: &[u8],
    seen: &mut Seen,
) -> Result<(), AllocError> {
    let mut rest = bytes;
    for _ in 0..bytes.len() {
        if rest.is_empty() || seen.fault.is_some() {
            break;
        }
        let taken = cutter.feed_slice(rest);
        rest = &rest[taken.count..];
        seen.count = seen.count.saturating_add(taken.count.saturating_sub(1));
        see(seen, alloc, "", taken.answer)?;
        seen.count = seen.count.saturating_add(1);
    }
    Ok(())
}

/// Ends the text, if it was not refused. If it was, everything is refused from then on.
fn end(cutter: &mut Cutter, alloc: Global, seen: &mut Seen) -> Result<(), AllocError> {
    if seen.fault.is_none() {
        see(seen, alloc, "end ", cutter.finish())?;
    }
    if let Some(fault) = seen.fault {
        let byte = cutter.feed(b'a').err();
        let slice = cutter.feed_slice(b"ab").answer.err();
        let ended = cutter.finish().err();
        if byte != Some(fault) || slice != Some(fault) || ended != Some(fault) {
            seen.text.extend_from_slice(b" but not for ever")?;
        }
    }
    if seen.text.is_empty() {
        seen.text.extend_from_slice(b"nothing")?;
    }
    Ok(())
}

/// Adds what a call has answered.
fn see(
    seen: &mut Seen,
    alloc: Global,
    before: &str,
    answer: Result<Option<Fields>, CutFault>,
) -> Result<(), AllocError> {
    match answer {
        Ok(None) => Ok(()),
        Ok(Some(fields)) => {
            begin(seen)?;
            seen.text.extend_from_slice(before.as_bytes())?;
            push_fields(&mut seen.text, &fields)
        }
        Err(fault) => {
            begin(seen)?;
            seen.fault = Some(fault);
            let count = seen.count;
            let text = format!(in alloc; "{fault:?} after {count}")?;
            seen.text.extend_from_slice(text.as_bytes())
        }
    }
}

/// Adds a space, where something was seen before.
fn begin(seen: &mut Seen) -> Result<(), AllocError> {
    if !seen.text.is_empty() {
        seen.text.push(b' ')?;
    }
    Ok(())
}
