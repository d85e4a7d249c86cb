//! Dates with times of day and offsets, read as ticks.

use crate::texts::{digit, next_hundredths, push_two_digits};
use std::alloc::{AllocError, Global};
use std::io;
use std::rt::Runtime;
use std::time::Instant;
use time_text::{TimeForm, ticks};

const TEXTS: u64 = 2_000_000;

/// The bytes of each text.
const WIDTH: usize = 29;

/// Prints the picoseconds that `time_text::ticks` takes for an instant, and the sum of the ticks of all texts.
pub fn measure<R: Runtime + AllocGlobal>(rt: &R) -> io::Result<()> {
    let texts = instants(rt.alloc())?;
    let began = Instant::now(rt)?;
    let sum = sum_of(rt.alloc(), texts.as_slice());
    let nanos = began.elapsed(rt)?.as_nanos();
    println!(rt; "{} {sum}", nanos.saturating_mul(1000) / u128::from(TEXTS))
}

/// The sum of the ticks; a text that is refused counts 0.
fn sum_of(alloc: Global, texts: &[u8]) -> i64 {
    let mut sum: i64 = 0;
    for text in texts.chunks_exact(WIDTH) {
        sum = sum.wrapping_add(ticks(alloc, TimeForm::Instant, text).unwrap_or(0));
    }
    sum
}

/// Texts such as `2024-05-17T12:34:56.789+02:00`, one after the other.
fn instants(alloc: Global) -> Result<Vec<u8>, AllocError> {
    let mut bytes = Vec::new(alloc);
    let mut state: u64 = 1;
    for _ in 0..TEXTS {
        let (next, day) = next_hundredths(state);
        let (next, second) = next_hundredths(next);
        let (next, milli) = next_hundredths(next);
        state = next;
        push_date(&mut bytes, day)?;
        bytes.push(b'T')?;
        push_time(&mut bytes, second)?;
        bytes.push(b'.')?;
        bytes.push(digit(milli / 100))?;
        push_two_digits(&mut bytes, milli)?;
        bytes.extend_from_slice(b"+0")?;
        bytes.push(digit(milli / 1_000))?;
        bytes.extend_from_slice(b":00")?;
    }
    Ok(bytes)
}

/// Adds a date from 1900 to 2199.
fn push_date(bytes: &mut Vec<u8>, day: u64) -> Result<(), AllocError> {
    push_two_digits(bytes, 19 + day / 100 % 3)?;
    push_two_digits(bytes, day % 100)?;
    bytes.push(b'-')?;
    push_two_digits(bytes, 1 + day / 300 % 12)?;
    bytes.push(b'-')?;
    push_two_digits(bytes, 1 + day / 3_600 % 28)
}

/// Adds a time of day.
fn push_time(bytes: &mut Vec<u8>, second: u64) -> Result<(), AllocError> {
    push_two_digits(bytes, second % 24)?;
    bytes.push(b':')?;
    push_two_digits(bytes, second / 24 % 60)?;
    bytes.push(b':')?;
    push_two_digits(bytes, second / 1_440 % 60)
}
