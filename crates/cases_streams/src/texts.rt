//! Numbers in the texts of cases, and in answers.

use std::alloc::{AllocError, Global};

/// The text of an input; nothing, where it is none.
pub(crate) fn text_of(input: &[u8]) -> &str {
    str::from_utf8(input).unwrap_or("")
}

/// The numbers that the words of a text are; 0 for a word that is none.
pub(crate) fn numbers(alloc: Global, text: &str) -> Result<Vec<i64>, AllocError> {
    let mut list = Vec::new(alloc);
    for word in text.split_whitespace() {
        list.push(word.parse().unwrap_or(0))?;
    }
    Ok(list)
}

/// The number at a place of a list, or 0.
pub(crate) fn at(list: &[i64], place: usize) -> i64 {
    list.get(place).copied().unwrap_or(0)
}

/// The number at a place of a list, as one without a sign; the greatest, where it is none.
pub(crate) fn unsigned_at(list: &[i64], place: usize) -> u32 {
    u32::try_from(at(list, place)).unwrap_or(u32::MAX)
}

/// Adds a text to an answer.
pub(crate) fn say(answer: &mut Vec<u8>, text: &str) -> Result<(), AllocError> {
    answer.extend_from_slice(text.as_bytes())
}

/// Adds a number to an answer.
pub(crate) fn say_number(
    answer: &mut Vec<u8>,
    alloc: Global,
    number: i128,
) -> Result<(), AllocError> {
    answer.extend_from_slice(format!(in alloc; "{number}")?.as_bytes())
}

/// Adds a comma, where something stands before it.
pub(crate) fn say_comma(answer: &mut Vec<u8>) -> Result<(), AllocError> {
    if answer.is_empty() {
        return Ok(());
    }
    say(answer, ", ")
}

/// An answer that is this text.
pub(crate) fn told(alloc: Global, text: &str) -> Result<Vec<u8>, AllocError> {
    text.as_bytes().to_vec(alloc)
}

/// An answer that is a number, or `none`.
pub(crate) fn told_number(alloc: Global, number: Option<i128>) -> Result<Vec<u8>, AllocError> {
    let mut answer = Vec::new(alloc);
    match number {
        Some(number) => say_number(&mut answer, alloc, number)?,
        None => say(&mut answer, "none")?,
    }
    Ok(answer)
}
