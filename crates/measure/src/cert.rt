//! A certificate of 400,000 set lines and 800,000 flow lines, read, written and checked.
ghost use Rattle.std.specs.Prelude.{◌≤◌, length};
ghost use Rattle.cert_format.specs.declared.limits.TheConstants.{LONGEST};

use crate::texts::{next_hundredths, push_hundredths};
use bound_maker::make;
use cert_check::{Accepted, check};
use cert_format::{Cert, LONGEST, read_cert, write_cert};
use fix_point::push_text_of;
use rule_file::{Rules, read_rules};
use screen_model::Place;
use series_csv::{Table, read_table};
use std::alloc::{AllocError, Global};
use std::io;
use std::rt::Runtime;
use std::time::Instant;

const ROWS: u32 = 200_000;

const LINES: u128 = 1_200_000;

/// Two equal rules that hold each sensor below all that was read, and a weight of 2.
const RULES: &[u8] = b"[format]
decimals = 2
[[range]]
sensor = \"a\"
max = -1
[[range]]
sensor = \"a\"
max = -1
[[range]]
sensor = \"b\"
max = -1
[[range]]
sensor = \"b\"
max = -1
[[weight]]
sensor = \"a\"
weight = 2
[[weight]]
sensor = \"b\"
weight = 2
";

/// What is measured.
#[derive(Clone, Copy)]
pub enum Task {
    /// The certificate is read.
    Read,
    /// The certificate is written.
    Write,
    /// The certificate is checked.
    Check,
}

/// Prints the picoseconds for a line of a certificate that is read, written or checked, and a number that depends on
/// what came of it.
pub fn measure<R: Runtime + AllocGlobal>(rt: &R, task: Task) -> io::Result<()> {
    let Ok(rules) = read_rules(rt.alloc(), RULES) else {
        return println!(rt; "the rules are refused");
    };
    let bytes = file(rt.alloc())?;
    let Ok(table) = read_table(rt.alloc(), &rules, bytes.as_slice()) else {
        return println!(rt; "the readings are refused");
    };
    let text = text(rt.alloc(), &table)?;
    if text.len() > LONGEST {
        return println!(rt; "the certificate is too long");
    }
    match task {
        Task::Read => measure_reading(rt, text.as_slice()),
        Task::Write => measure_writing(rt, text.as_slice()),
        Task::Check => measure_checking(rt, &rules, &table, text.as_slice()),
    }
}

fn measure_reading<R: Runtime + AllocGlobal>(rt: &R, text: &[u8]) -> io::Result<()>
    requires { length text.now ≤ LONGEST }
{
    let began = Instant::now(rt)?;
    let cert = read_cert(rt.alloc(), text);
    let nanos = began.elapsed(rt)?.as_nanos();
    match cert {
        Ok(cert) => print(rt, nanos, i128::from(size_of(&cert))),
        Err(_) => println!(rt; "the certificate is refused"),
    }
}

fn measure_writing<R: Runtime + AllocGlobal>(rt: &R, text: &[u8]) -> io::Result<()>
    requires { length text.now ≤ LONGEST }
{
    let Ok(cert) = read_cert(rt.alloc(), text) else {
        return println!(rt; "the certificate is refused");
    };
    let began = Instant::now(rt)?;
    let written = write_cert(rt.alloc(), &cert)?;
    let nanos = began.elapsed(rt)?.as_nanos();
    print(rt, nanos, written.len() as i128)
}

fn measure_checking<R: Runtime + AllocGlobal>(
    rt: &R,
    rules: &Rules,
    table: &Table,
    text: &[u8],
) -> io::Result<()> {
    let Ok(bounds) = make(rt.alloc(), table, rules) else {
        return println!(rt; "there are no bounds");
    };
    let began = Instant::now(rt)?;
    let accepted = check(rt.alloc(), table, rules, &bounds, text);
    let nanos = began.elapsed(rt)?.as_nanos();
    match accepted {
        Ok(accepted) => print(rt, nanos, accepted_size(&accepted)),
        Err(_) => println!(rt; "the certificate is not accepted"),
    }
}

/// Prints the picoseconds for a line, and the number.
fn print<R: Runtime>(rt: &R, nanos: u128, number: i128) -> io::Result<()> {
    println!(rt; "{} {number}", nanos.saturating_mul(1000) / LINES)
}

/// The size of a repair: its lines, and its values and amounts, added up.
fn size_of(cert: &Cert) -> u64 {
    let mut size = 0u64;
    if let Cert::Repair { sets, flow, .. } = cert {
        for set in sets.as_slice() {
            size = size.wrapping_add(set.value.unsigned_abs()).wrapping_add(1);
        }
        for item in flow.as_slice() {
            size = size
                .wrapping_add(item.amount.unsigned_abs())
                .wrapping_add(1);
        }
    }
    size
}

/// The readings and flow items of a repair, with its cost and what of it is paid.
fn accepted_size(accepted: &Accepted) -> i128 {
    match accepted {
        Accepted::Repair {
            series,
            flow,
            total,
            paid,
        } => (series.len() as i128)
            .wrapping_add(flow.len() as i128)
            .wrapping_add(*total)
            .wrapping_add(*paid),
        Accepted::NoSeries { .. } => 0,
    }
}

/// The readings file: a time in seconds, and hundredths of both sensors.
fn file(alloc: Global) -> Result<Vec<u8>, AllocError> {
    let mut bytes = Vec::new(alloc);
    bytes.extend_from_slice(b"time,a,b\n")?;
    let mut state: u64 = 1;
    for row in 0..ROWS {
        push_text_of(&mut bytes, i128::from(row), 0)?;
        for _ in 0..2 {
            let (next, number) = next_hundredths(state);
            state = next;
            bytes.push(b',')?;
            push_hundredths(&mut bytes, number)?;
        }
        bytes.push(b'\n')?;
    }
    Ok(bytes)
}

/// The text of the certificate.
fn text(alloc: Global, table: &Table) -> Result<Vec<u8>, AllocError> {
    let mut text = Vec::new(alloc);
    text.extend_from_slice(b"screen-cert 1\nclaim repair\ntotal ")?;
    push_text_of(&mut text, i128::from(total_of(table)), 0)?;
    text.push(b'\n')?;
    for place in table.places().as_slice() {
        push_set(&mut text, *place)?;
    }
    for rule in 1..5u8 {
        push_flow(&mut text, rule)?;
    }
    text.extend_from_slice(b"end\n")?;
    Ok(text)
}

/// The cost of the repair: each reading falls to -100 units, at a weight of 2.
fn total_of(table: &Table) -> u64 {
    let mut total = 0u64;
    for value in table.series().as_slice() {
        total = total.wrapping_add(value.unsigned_abs().wrapping_add(100));
    }
    total.wrapping_mul(2)
}

fn push_set(text: &mut Vec<u8>, place: Place) -> Result<(), AllocError> {
    text.extend_from_slice(b"set ")?;
    push_text_of(text, i128::from(place.row), 0)?;
    text.push(b' ')?;
    push_text_of(text, i128::from(place.col), 0)?;
    text.extend_from_slice(b" -100\n")
}

/// Adds a flow of 1 on the bounds of a rule, of which each two are of one sensor.
fn push_flow(text: &mut Vec<u8>, rule: u8) -> Result<(), AllocError> {
    let end: &[u8] = if rule < 3 { b" 2 up 1\n" } else { b" 3 up 1\n" };
    for row in 1..ROWS + 1 {
        text.extend_from_slice(b"flow ")?;
        push_text_of(text, i128::from(rule), 0)?;
        text.push(b' ')?;
        push_text_of(text, i128::from(row), 0)?;
        text.push(b' ')?;
        push_text_of(text, i128::from(row), 0)?;
        text.extend_from_slice(end)?;
    }
    Ok(())
}
