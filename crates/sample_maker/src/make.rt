//! The two texts of a sample.
ghost use Rattle.std.specs.Prelude.{◌≡◌, ◌++◌, ◌≤◌, IfOk, OnOk};
ghost use Rattle.sample_maker.specs.Texts.{rules_text, line_text, readings_text};

use crate::parts::{Sample, SampleText};
use crate::walk::{draw, next_level, next_state, reading};
use fix_point::push_text_of;
use itoa::Buffer;
use std::alloc::{AllocError, Global};

/// The most rows of a sample.
pub const MOST_ROWS: u32 = 20_000;

/// The greatest number that a sample is made from.
pub const MOST_SEED: u32 = 999_999_999;

/// The rule file: in times at most 5 seconds apart the sensor changes by at most 0.03 in each second.
const RULES: &[u8] =
    b"[format]\ndecimals = 2\n[[speed]]\nsensor = \"x\"\nmin = \"-0.03\"\nmax = \"0.03\"\nwindow = 5\n";

/// The header of the readings.
const HEADER: &[u8] = b"time,x\n";

/// The most bytes of a line, as of `19999,-395.00`, with its line break.
const LONGEST_LINE: usize = 14;

/// The level before the first row, in hundredths.
const FIRST_LEVEL: i64 = 20_000;

/// The sample of so many rows that is made from a number: a rule file, and readings that obey it but for spikes.
/// Its rows are a second apart.
pub fn sample(alloc: Global, rows: u32, seed: u32) -> Result<Sample, AllocError>
    requires rows_least { 1 ≤ rows }
    requires rows_most { rows ≤ MOST_ROWS }
    requires seed { seed ≤ MOST_SEED }
    ensures rules { IfOk result (λ sample. sample.rules ≡ rules_text) }
    ensures readings { IfOk result (λ sample. sample.readings ≡ readings_text rows seed) }
{
    let rules = SampleText::from_slice(alloc, RULES)?;
    let readings = readings(alloc, rows, seed)?;
    Ok(Sample {
        rules,
        readings: SampleText::from_vec(readings),
    })
}

/// The header and the lines of so many rows, in room that is taken once.
fn readings(alloc: Global, rows: u32, seed: u32) -> Result<Vec<u8>, AllocError>
    requires rows { rows ≤ MOST_ROWS }
    requires seed { seed ≤ MOST_SEED }
    ensures { IfOk result (λ text. text.items ≡ readings_text rows seed) }
{
    let mut text = Vec::with_capacity(alloc, HEADER.len() + rows as usize * LONGEST_LINE)?;
    text.extend_from_slice(HEADER)?;
    let mut state = seed;
    let mut level = FIRST_LEVEL;
    for time in 0..rows {
        state = next_state(state);
        let number = draw(state);
        level = next_level(level, number);
        push_line(&mut text, time, reading(level, number))?;
    }
    Ok(text)
}

/// Adds the line of a reading at a time.
fn push_line(text: &mut Vec<u8>, time: u32, reading: i64) -> Result<(), AllocError>
    ensures { OnOk result (text.new.items ≡ text.old.items ++ line_text time reading) }
{
    let mut digits = Buffer::new();
    text.extend_from_slice(digits.format(time).as_bytes())?;
    text.push(b',')?;
    push_text_of(text, i128::from(reading), 2)?;
    text.push(b'\n')?;
    Ok(())
}
