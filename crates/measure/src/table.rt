//! Readings files of 200,000 rows, read and written by `series_csv`.

use crate::texts::{next_hundredths, push_hundredths};
use fix_point::push_text_of;
use rule_file::{Rules, read_rules};
use series_csv::{Table, read_table, table_text};
use std::alloc::{AllocError, Global};
use std::io;
use std::rt::Runtime;
use std::time::Instant;

const ROWS: u32 = 200_000;

/// The rules of files with two columns.
const RULES: &[u8] =
    b"[format]\ndecimals = 2\n[[speed]]\nsensor = \"a\"\nmin = -1\nmax = 1\nwindow = 10\n";

/// The rules of files with eight columns.
const WIDE_RULES: &[u8] =
    b"[format]\ndecimals = 2\n[[speed]]\nsensor = \"a\"\nmin = -1\nmax = 1\nwindow = 10\n[[range]]\nsensor = \"b\"\nmax = 9\n[[range]]\nsensor = \"c\"\nmax = 9\n";

/// What is measured.
#[derive(Clone, Copy)]
pub enum Way {
    /// The bytes of a file as a table.
    Read,
    /// The text of a table with the values that were read.
    Write,
}

/// Prints the picoseconds for a row of a file with two columns, or with eight and three sensors, of which each misses
/// every third reading; then the sum of the values that were read, or the bytes that were written; and the bytes of the
/// file.
pub fn measure<R: Runtime + AllocGlobal>(rt: &R, way: Way, is_wide: bool) -> io::Result<()> {
    let bytes = file(rt.alloc(), if is_wide { 8 } else { 2 })?;
    let Ok(rules) = read_rules(rt.alloc(), if is_wide { WIDE_RULES } else { RULES }) else {
        return println!(rt; "the rules are refused");
    };
    match way {
        Way::Read => measure_reading(rt, &rules, bytes.as_slice()),
        Way::Write => measure_writing(rt, &rules, bytes.as_slice()),
    }
}

fn measure_reading<R: Runtime + AllocGlobal>(
    rt: &R,
    rules: &Rules,
    bytes: &[u8],
) -> io::Result<()> {
    let began = Instant::now(rt)?;
    let table = read_table(rt.alloc(), rules, bytes);
    let nanos = began.elapsed(rt)?.as_nanos();
    match table {
        Ok(table) => print(rt, nanos, sum_of(&table), bytes),
        Err(_) => println!(rt; "the readings are refused"),
    }
}

fn measure_writing<R: Runtime + AllocGlobal>(
    rt: &R,
    rules: &Rules,
    bytes: &[u8],
) -> io::Result<()> {
    let Ok(table) = read_table(rt.alloc(), rules, bytes) else {
        return println!(rt; "the readings are refused");
    };
    let began = Instant::now(rt)?;
    let text = table_text(rt.alloc(), rules, &table, table.series())?;
    let nanos = began.elapsed(rt)?.as_nanos();
    print(rt, nanos, text.len() as u64, bytes)
}

/// Prints the picoseconds for a row, the sum, and the bytes of the file.
fn print<R: Runtime>(rt: &R, nanos: u128, sum: u64, bytes: &[u8]) -> io::Result<()> {
    let picos = nanos.saturating_mul(1000) / u128::from(ROWS);
    println!(rt; "{picos} {sum} {}", bytes.len())
}

/// The sizes of the values of all readings, added up.
fn sum_of(table: &Table) -> u64 {
    let mut sum = 0u64;
    for value in table.series().as_slice() {
        sum = sum.wrapping_add(value.unsigned_abs());
    }
    sum
}

/// The readings file: a time in seconds, and hundredths in the other columns.
pub fn file(alloc: Global, columns: u32) -> Result<Vec<u8>, AllocError> {
    let mut bytes = Vec::new(alloc);
    bytes.extend_from_slice(if columns == 2 {
        b"time,a\n".as_slice()
    } else {
        b"time,a,n,b,o,p,c,q\n".as_slice()
    })?;
    let mut state: u64 = 1;
    for row in 0..ROWS {
        state = push_row(&mut bytes, row, columns, state)?;
    }
    Ok(bytes)
}

/// Adds a row, and gives the next state of the numbers.
fn push_row(bytes: &mut Vec<u8>, row: u32, columns: u32, state: u64) -> Result<u64, AllocError> {
    push_text_of(bytes, i128::from(row), 0)?;
    let mut state = state;
    for col in 1..columns {
        let (next, number) = next_hundredths(state);
        state = next;
        bytes.push(b',')?;
        if is_there(columns, row, col) {
            push_hundredths(bytes, number)?;
        }
    }
    bytes.push(b'\n')?;
    Ok(state)
}

/// Whether a row has something in a column, counted from 0. Where there are three sensors each misses every third
/// reading.
fn is_there(columns: u32, row: u32, col: u32) -> bool {
    columns == 2 || (row % 3 + col % 3) % 3 != 0 || !matches!(col, 1 | 3 | 6)
}
