//! The repair of files, part by part.

use crate::timed::Timed;
use bound_maker::make;
use cert_format::{LONGEST, read_cert, write_cert};
use global_repair::{Outcome, repair};
use path_flow::PathSolver;
use rule_file::{Rules, read_rules};
use series_csv::{Table, read_table, table_text};
use std::rt::Runtime;
use std::time::Instant;
use std::{fs, io};

/// What each part takes of a repair, in nanoseconds.
#[derive(Clone, Copy)]
struct Parts {
    reading: u128,
    bounds: u128,
    network: u128,
    solving: u128,
    greatest: u128,
}

/// What came of a repair: its cost or the number of bounds of a cycle, and how often flow was changed.
#[derive(Clone, Copy)]
struct Answer {
    number: i128,
    changes: u64,
}

/// Prints the nanoseconds that each part of a repair takes: reading the rules and the readings of a folder, making the
/// bounds, making the network, solving it, and finding the greatest series; then what the repair costs, or the bounds of
/// a cycle, and how often flow was changed.
pub fn measure<R: Runtime + AllocGlobal>(rt: &R, folder: &str) -> io::Result<()> {
    let rules_bytes = bytes_of(rt, folder, "rules.toml")?;
    let bytes = bytes_of(rt, folder, "readings.csv")?;
    let began = Instant::now(rt)?;
    let Ok(rules) = read_rules(rt.alloc(), rules_bytes.as_slice()) else {
        return println!(rt; "the rules are refused");
    };
    let Ok(table) = read_table(rt.alloc(), &rules, bytes.as_slice()) else {
        return println!(rt; "the readings are refused");
    };
    let reading = began.elapsed(rt)?.as_nanos();
    measure_parts(rt, &rules, &table, reading)
}

fn measure_parts<R: Runtime + AllocGlobal>(
    rt: &R,
    rules: &Rules,
    table: &Table,
    reading: u128,
) -> io::Result<()> {
    let bounds = time_of_bounds(rt, rules, table)?;
    let mut timed = Timed {
        rt,
        solver: PathSolver::new(rt.alloc()),
        moment: Instant::now(rt)?,
        began: 0,
        ended: 0,
    };
    let found = repair(rt.alloc(), table, rules, &mut timed);
    let whole = timed.moment.elapsed(rt)?.as_nanos();
    let Ok(outcome) = found else {
        return println!(rt; "there is no answer");
    };
    let parts = Parts {
        reading,
        bounds,
        // The repair makes the bounds once more, before it makes the network.
        network: timed.began.saturating_sub(bounds),
        solving: timed.ended.saturating_sub(timed.began),
        greatest: whole.saturating_sub(timed.ended),
    };
    print(rt, parts, answer_of(&outcome))
}

/// The nanoseconds that it takes to make the bounds.
fn time_of_bounds<R: Runtime + AllocGlobal>(
    rt: &R,
    rules: &Rules,
    table: &Table,
) -> io::Result<u128> {
    let began = Instant::now(rt)?;
    let _bounds = make(rt.alloc(), table, rules);
    Ok(began.elapsed(rt)?.as_nanos())
}

fn answer_of(outcome: &Outcome) -> Answer {
    match outcome {
        Outcome::Repaired { total, changes, .. } => Answer {
            number: *total,
            changes: *changes,
        },
        Outcome::NoSeries { cycle } => Answer {
            number: cycle.len() as i128,
            changes: 0,
        },
    }
}

fn print<R: Runtime>(rt: &R, parts: Parts, answer: Answer) -> io::Result<()> {
    println!(rt;
        "{} {} {} {} {} {} {}",
        parts.reading,
        parts.bounds,
        parts.network,
        parts.solving,
        parts.greatest,
        answer.number,
        answer.changes
    )
}

/// Prints the nanoseconds that it takes to write the repaired file and the certificate of a folder, and their bytes.
pub fn measure_texts<R: Runtime + AllocGlobal>(rt: &R, folder: &str) -> io::Result<()> {
    let (nanos, len) = rows_written(rt, folder)?;
    let (more_nanos, more) = cert_written(rt, folder)?;
    println!(rt;
        "{} {}",
        nanos.saturating_add(more_nanos),
        len.saturating_add(more)
    )
}

/// The nanoseconds that it takes to write the repaired file, and its bytes; none where no series obeys.
fn rows_written<R: Runtime + AllocGlobal>(rt: &R, folder: &str) -> io::Result<(u128, usize)> {
    let bytes = bytes_of(rt, folder, "rules.toml")?;
    let Ok(rules) = read_rules(rt.alloc(), bytes.as_slice()) else {
        return Ok((0, 0));
    };
    let bytes = bytes_of(rt, folder, "out")?;
    let Ok(table) = read_table(rt.alloc(), &rules, bytes.as_slice()) else {
        return Ok((0, 0));
    };
    let began = Instant::now(rt)?;
    let text = table_text(rt.alloc(), &rules, &table, table.series())?;
    let nanos = began.elapsed(rt)?.as_nanos();
    Ok((nanos, text.len()))
}

/// The nanoseconds that it takes to write the certificate, and its bytes.
fn cert_written<R: Runtime + AllocGlobal>(rt: &R, folder: &str) -> io::Result<(u128, usize)> {
    let bytes = bytes_of(rt, folder, "cert")?;
    if bytes.len() > LONGEST {
        return Ok((0, 0));
    }
    let Ok(cert) = read_cert(rt.alloc(), bytes.as_slice()) else {
        return Ok((0, 0));
    };
    let began = Instant::now(rt)?;
    let text = write_cert(rt.alloc(), &cert)?;
    let nanos = began.elapsed(rt)?.as_nanos();
    Ok((nanos, text.len()))
}

/// The bytes of a file in a folder.
fn bytes_of<R: Runtime + AllocGlobal>(rt: &R, folder: &str, name: &str) -> io::Result<Vec<u8>> {
    let path = format!(in rt.alloc(); "{folder}/{name}")?;
    fs::read(rt, path)
}
