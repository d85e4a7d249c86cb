//! Decimal texts, read as whole numbers.

use crate::texts::{next_hundredths, push_hundredths};
use fix_point::{Extra, units};
use std::alloc::{AllocError, Global};
use std::io;
use std::rt::Runtime;
use std::time::Instant;

const TEXTS: u64 = 10_000_000;

/// Prints the picoseconds that `fix_point::units` takes for a short decimal text, and the sum of the values
/// of all texts.
pub fn measure<R: Runtime + AllocGlobal>(rt: &R) -> io::Result<()> {
    let texts = Texts::make(rt.alloc())?;
    let began = Instant::now(rt)?;
    let sum = texts.sum();
    let nanos = began.elapsed(rt)?.as_nanos();
    println!(rt; "{} {sum}", nanos.saturating_mul(1000) / u128::from(TEXTS))
}

/// Texts such as `-123.45`, `123.4` and `123`, one after the other, and where each ends.
#[derive(Drop)]
struct Texts {
    bytes: Vec<u8>,
    ends: Vec<usize>,
}

impl Texts {
    fn make(alloc: Global) -> Result<Texts, AllocError> {
        let mut bytes = Vec::new(alloc);
        let mut ends = Vec::new(alloc);
        let mut state: u64 = 1;
        for _ in 0..TEXTS {
            let (next, number) = next_hundredths(state);
            state = next;
            if state >> 30 == 1 {
                bytes.push(b'-')?;
            }
            push_hundredths(&mut bytes, number)?;
            bytes.truncate(bytes.len().saturating_sub(left_out(state)));
            ends.push(bytes.len())?;
        }
        Ok(Texts { bytes, ends })
    }

    /// The sum of the values with two decimals; a text that is refused counts 0.
    fn sum(&self) -> i64 {
        let mut sum: i64 = 0;
        let mut from = 0;
        for end in &self.ends {
            let text = self.bytes.get(from..*end).unwrap_or(&[]);
            sum = sum.wrapping_add(units(text, 2, Extra::Refuse).unwrap_or(0));
            from = *end;
        }
        sum
    }
}

/// How many bytes of a text with two decimals are left out: a half of the texts have fewer decimals.
fn left_out(state: u64) -> usize {
    match state >> 28 & 3 {
        0 => 3,
        1 => 1,
        _ => 0,
    }
}
