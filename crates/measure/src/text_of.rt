//! Whole numbers of hundredths, added to a text.

use crate::texts::next_hundredths;
use fix_point::push_text_of;
use std::alloc::{AllocError, Global};
use std::io;
use std::rt::Runtime;
use std::time::Instant;

const TEXTS: u64 = 10_000_000;

/// The bytes from which on a text is begun anew.
const ENOUGH: usize = 65_536;

/// Prints the picoseconds that `fix_point::push_text_of` takes for a short number, and the number of bytes that
/// it writes.
pub fn measure<R: Runtime + AllocGlobal>(rt: &R) -> io::Result<()> {
    let began = Instant::now(rt)?;
    let written = written(rt.alloc())?;
    let nanos = began.elapsed(rt)?.as_nanos();
    println!(rt;
        "{} {written}",
        nanos.saturating_mul(1000) / u128::from(TEXTS)
    )
}

/// Writes the numbers, and counts the bytes.
fn written(alloc: Global) -> Result<usize, AllocError> {
    let mut text = Vec::new(alloc);
    let mut count = 0usize;
    let mut state: u64 = 1;
    for _ in 0..TEXTS {
        let (next, number) = next_hundredths(state);
        state = next;
        let value = i128::from(number).wrapping_sub(50_000);
        if value.unsigned_abs() <= 50_000 {
            push_text_of(&mut text, value, 2)?;
        }
        if text.len() >= ENOUGH {
            count = count.wrapping_add(text.len());
            text.clear();
        }
    }
    Ok(count.wrapping_add(text.len()))
}
