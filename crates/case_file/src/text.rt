//! The texts of a file of cases.

use std::alloc::{AllocError, Global};
use std::fmt::Write;

/// Adds the bytes that a text stands for.
pub fn push_text(bytes: &mut Vec<u8>, alloc: Global, text: &str) -> Result<(), AllocError> {
    let mut rest = text;
    for _ in 0..text.len() {
        let Some((before, after)) = rest.split_once('\\') else {
            break;
        };
        bytes.extend_from_slice(before.as_bytes())?;
        rest = match after.strip_prefix('*') {
            Some(repeated) => push_repeated(bytes, alloc, repeated)?,
            None => push_escape(bytes, after)?,
        };
    }
    bytes.extend_from_slice(rest.as_bytes())
}

/// Adds what is to be repeated, as `3{a}`, and answers what stands after it.
fn push_repeated<'a>(
    bytes: &mut Vec<u8>,
    alloc: Global,
    text: &'a str,
) -> Result<&'a str, AllocError> {
    let Some((count, after)) = text.split_once('{') else {
        return Ok(text);
    };
    let Some((piece, rest)) = after.split_once('}') else {
        return Ok(after);
    };
    for number in 0..count.parse::<u32>().unwrap_or(0) {
        push_piece(bytes, alloc, piece, number)?;
    }
    Ok(rest)
}

/// Adds a piece, with a number in place of each `\i`.
fn push_piece(
    bytes: &mut Vec<u8>,
    alloc: Global,
    piece: &str,
    number: u32,
) -> Result<(), AllocError> {
    let mut rest = piece;
    for _ in 0..piece.len() {
        let Some((before, after)) = rest.split_once('\\') else {
            break;
        };
        bytes.extend_from_slice(before.as_bytes())?;
        rest = match after.strip_prefix('i') {
            Some(rest) => {
                bytes.extend_from_slice(format!(in alloc; "{number}")?.as_bytes())?;
                rest
            }
            None => push_escape(bytes, after)?,
        };
    }
    bytes.extend_from_slice(rest.as_bytes())
}

/// Adds the byte that stands after a backslash, and answers what stands after it.
fn push_escape<'a>(bytes: &mut Vec<u8>, text: &'a str) -> Result<&'a str, AllocError> {
    let mut letters = text.chars();
    match letters.next() {
        Some('n') => bytes.push(b'\n')?,
        Some('r') => bytes.push(b'\r')?,
        Some('t') => bytes.push(b'\t')?,
        Some('s') => bytes.push(b' ')?,
        Some('\\') => bytes.push(b'\\')?,
        Some('x') => {
            let high = digit(letters.next());
            let low = digit(letters.next());
            bytes.push(high.wrapping_mul(16).wrapping_add(low))?;
        }
        _ => bytes.push(b'\\')?,
    }
    Ok(letters.as_str())
}

/// The value of a hexadecimal digit, or 0.
fn digit(letter: Option<char>) -> u8 {
    match letter.and_then(|letter| letter.to_digit(16)) {
        Some(value) if value < 16 => value as u8,
        _ => 0,
    }
}
