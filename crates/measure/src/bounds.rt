//! The bounds of 200,000 readings, made and tested by `bound_maker`.

use crate::table::file;
use bound_maker::{first_broken, make};
use rule_file::{Rules, read_rules};
use screen_model::{Bound, BoundList, Side};
use series_csv::{Table, read_table};
use std::io;
use std::mem::size_of;
use std::rt::Runtime;
use std::time::Instant;

/// A speed rule that the readings keep, on neighbours a second apart.
const SPEED: &[u8] =
    b"[format]\ndecimals = 2\n[[speed]]\nsensor = \"a\"\nmin = -1000\nmax = 1000\nwindow = 10\n";

/// A swing rule that the readings keep, whose window takes the most bounds that there may be.
const SWING: &[u8] =
    b"[format]\ndecimals = 2\n[[swing]]\nsensor = \"a\"\nmost = 1000\nwindow = 9\n";

/// What is measured.
#[derive(Clone, Copy)]
pub enum Task {
    /// The bounds are made.
    Make,
    /// The readings are tested by all bounds.
    Test,
}

/// Prints the picoseconds for a bound of a speed rule or of a swing rule; then a sum that depends on all bounds, or how many
/// are kept; and the bytes of a bound.
pub fn measure<R: Runtime + AllocGlobal>(rt: &R, task: Task, is_swing: bool) -> io::Result<()> {
    let bytes = file(rt.alloc(), 2)?;
    let Ok(rules) = read_rules(rt.alloc(), if is_swing { SWING } else { SPEED }) else {
        return println!(rt; "the rules are refused");
    };
    let Ok(table) = read_table(rt.alloc(), &rules, bytes.as_slice()) else {
        return println!(rt; "the readings are refused");
    };
    match task {
        Task::Make => measure_making(rt, &rules, &table),
        Task::Test => measure_testing(rt, &rules, &table),
    }
}

fn measure_making<R: Runtime + AllocGlobal>(
    rt: &R,
    rules: &Rules,
    table: &Table,
) -> io::Result<()> {
    let began = Instant::now(rt)?;
    let bounds = make(rt.alloc(), table, rules);
    let nanos = began.elapsed(rt)?.as_nanos();
    match bounds {
        Ok(bounds) => print(rt, nanos, bounds.len(), sum_of(&bounds)),
        Err(_) => println!(rt; "there are no bounds"),
    }
}

fn measure_testing<R: Runtime + AllocGlobal>(
    rt: &R,
    rules: &Rules,
    table: &Table,
) -> io::Result<()> {
    let Ok(bounds) = make(rt.alloc(), table, rules) else {
        return println!(rt; "there are no bounds");
    };
    let began = Instant::now(rt)?;
    let broken = first_broken(table, rules, &bounds, table.series());
    let nanos = began.elapsed(rt)?.as_nanos();
    let kept = if broken.is_none() { bounds.len() } else { 0 };
    print(rt, nanos, bounds.len(), kept as u64)
}

/// Prints the picoseconds for each of so many bounds, the sum, and the bytes of a bound.
fn print<R: Runtime>(rt: &R, nanos: u128, count: usize, sum: u64) -> io::Result<()> {
    let picos = nanos.saturating_mul(1000) / count.max(1) as u128;
    println!(rt; "{picos} {sum} {}", size_of::<Bound>())
}

/// Limits, rows and sides, added up.
fn sum_of(bounds: &BoundList) -> u64 {
    let mut sum = 0u64;
    for bound in bounds.as_slice() {
        sum = sum.wrapping_add(weight_of(*bound));
    }
    sum
}

fn weight_of(bound: Bound) -> u64 {
    let rows = u64::from(bound.name.from_row) + 3 * u64::from(bound.name.to_row);
    let side = u64::from(bound.name.side == Side::Up);
    bound
        .limit
        .unsigned_abs()
        .wrapping_add(rows)
        .wrapping_add(side)
}
