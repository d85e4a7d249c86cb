//! Whole runs of the program over sources and sinks in memory.
use path_flow::PathSolver;
use screen_io::{MemSink, MemSource, Source};
use screen_tool::{EndUse, Inputs, Outputs, Status, roles, run};
use std::alloc::{AllocError, Global};
use std::process::Abort;
use std::test::Fail;

/// The sensor x may change by 1 in a second.
pub(super) const BASE: &str =
    "[format]\ndecimals = 0\n[[speed]]\nsensor = \"x\"\nmin = -1\nmax = 1\nper = 1\nwindow = 10\n";

/// By 1 in three seconds: neighbours a second apart may not move.
const SLOW: &str =
    "[format]\ndecimals = 0\n[[speed]]\nsensor = \"x\"\nmin = -1\nmax = 1\nper = 3\nwindow = 10\n";

/// The same in hundredths: 33 of them in a second.
const FINE: &str =
    "[format]\ndecimals = 2\n[[speed]]\nsensor = \"x\"\nmin = -1\nmax = 1\nper = 3\nwindow = 10\n";

/// By exactly a third in a second, which no whole number does.
const EXACT: &str =
    "[format]\ndecimals = 0\n[[speed]]\nsensor = \"x\"\nmin = 1\nmax = 1\nper = 3\nwindow = 10\n";

/// A speed rule whose bounds may be broken for a price.
pub(super) const PRICED: &str =
    "[format]\ndecimals = 0\n[[speed]]\nsensor = \"x\"\nmin = -1\nmax = 1\nwindow = 10\nprice = 1\n[[weight]]\nsensor = \"x\"\nweight = 5\n";

/// A speed rule, and readings that are right.
pub(super) const TRUST: &str =
    "[format]\ndecimals = 0\n[[speed]]\nsensor = \"x\"\nmin = -1\nmax = 1\nwindow = 10\n[[trust]]\nsensor = \"x\"\n";

/// The same, and the first reading counts five times.
const HEAVY: &str =
    "[format]\ndecimals = 0\n[[speed]]\nsensor = \"x\"\nmin = -1\nmax = 1\nwindow = 10\n[[weight]]\nsensor = \"x\"\nweight = 5\nfrom = \"0\"\nto = \"0\"\n";

/// Speed rules with the prices 1 and 2, the latter with readings that are right, and a range rule with the price 1 for such.
const CHEAP: &str =
    "[format]\ndecimals = 0\n[[speed]]\nsensor = \"x\"\nmin = -1\nmax = 1\nwindow = 10\nprice = 1\n";

const DEAR_TRUST: &str =
    "[format]\ndecimals = 0\n[[speed]]\nsensor = \"x\"\nmin = -1\nmax = 1\nwindow = 10\nprice = 2\n[[trust]]\nsensor = \"x\"\n";

const DEAR_RANGE: &str =
    "[format]\ndecimals = 0\n[[range]]\nsensor = \"x\"\nmax = 50\nprice = 1\n[[trust]]\nsensor = \"x\"\n";

/// A range without a price, and readings that are right.
pub(super) const RANGE_TRUST: &str =
    "[format]\ndecimals = 0\n[[range]]\nsensor = \"x\"\nmax = 50\n[[trust]]\nsensor = \"x\"\n";

const RANGE: &str = "[format]\ndecimals = 0\n[[range]]\nsensor = \"x\"\nmax = 50\n";

pub(super) const SWING: &str =
    "[format]\ndecimals = 0\n[[swing]]\nsensor = \"x\"\nmost = 5\nwindow = 10\n";

const DRIFT: &str =
    "[format]\ndecimals = 0\n[[drift]]\nsensor = \"x\"\nmin = -1\nmax = 1\nper = 10\nover = 10\nwindow = 20\n";

pub(super) const BETWEEN: &str =
    "[format]\ndecimals = 0\n[[between]]\nfirst = \"in\"\nsecond = \"out\"\nmin = 0\nmax = 5\n";

const READINGS: &[u8] = b"time,x\n0,10\n1,11\n2,12\n";

const CERT: &[u8] = b"screen-cert 1\nclaim repair\ntotal 0\nend\n";

/// The certificate where some rule has a price.
const PRICED_CERT: &[u8] = b"screen-cert 2\nclaim repair\ntotal 0\npaid 0\nend\n";

/// The words of `global`.
pub(super) const GLOBAL: [&str; 4] = ["global", "r", "d", "c"];

/// A run of `global`: how it ended, and what it wrote.
#[derive(Drop)]
pub(super) struct Ran {
    status: Status,
    out: MemSink,
    pub(super) cert: MemSink,
    note: MemSink,
    read_cert: bool,
}

impl Ran {
    fn assert_is(&self, rt: &impl Abort, status: Status, out: &[u8], cert: &[u8], note: &[u8]) {
        assert_eq!(rt; self.status, status);
        assert_eq!(rt; self.out.held_bytes(), out);
        assert_eq!(rt; self.cert.held_bytes(), cert);
        assert_eq!(rt; self.note.held_bytes(), note);
        assert!(rt; !self.read_cert);
    }
}

pub(super) fn words(alloc: Global, texts: &[&str]) -> Result<Vec<String>, AllocError> {
    let mut words = Vec::new(alloc);
    for text in texts {
        words.push(String::from_str(alloc, text)?)?;
    }
    Ok(words)
}

/// Runs the program on these words, with the solver that it has when it is built.
pub(super) fn run_words(
    alloc: Global,
    texts: &[&str],
    ins: &mut Inputs<MemSource>,
    outs: &mut Outputs<MemSink>,
) -> Result<Status, AllocError> {
    let words = words(alloc, texts)?;
    let mut solver = PathSolver::new(alloc);
    Ok(run(alloc, words.as_slice(), ins, outs, &mut solver))
}

pub(super) fn source(alloc: Global, bytes: &[u8], fails: &[u64]) -> Result<MemSource, AllocError> {
    source_of_pieces(alloc, bytes, fails, 16)
}

/// A source that gives so many bytes in a call, at least one.
pub(super) fn source_of_pieces(
    alloc: Global,
    bytes: &[u8],
    fails: &[u64],
    piece: usize,
) -> Result<MemSource, AllocError> {
    let fails = fails.to_vec(alloc)?;
    Ok(MemSource::new(bytes.to_vec(alloc)?, fails, piece.max(1)))
}

pub(super) fn sink(alloc: Global, fails: &[u64]) -> Result<MemSink, AllocError> {
    MemSink::new(alloc, 100_000, fails.to_vec(alloc)?, 8)
}

fn run_with(
    alloc: Global,
    texts: &[&str],
    rules: &str,
    readings: &[u8],
) -> Result<Ran, AllocError> {
    let mut outs = Outputs {
        out: sink(alloc, &[])?,
        cert: sink(alloc, &[])?,
        note: sink(alloc, &[])?,
    };
    let mut ins = Inputs {
        rules: source(alloc, rules.as_bytes(), &[])?,
        readings: source(alloc, readings, &[])?,
        cert: source(alloc, b"?", &[])?,
    };
    let status = run_words(alloc, texts, &mut ins, &mut outs)?;
    let read_cert = ins.cert.read(&mut [0; 4]) != Ok(1);
    Ok(Ran {
        status,
        out: outs.out,
        cert: outs.cert,
        note: outs.note,
        read_cert,
    })
}

pub(super) fn global(alloc: Global, rules: &str, readings: &[u8]) -> Result<Ran, AllocError> {
    run_with(alloc, &GLOBAL, rules, readings)
}

/// Rules, readings that keep all their bounds, and what is written of these.
const KEPT: [(&str, &str, &str); 17] = [
    (
        BASE,
        "time,x\n0,10\n1,11\n2,12\n",
        "time,x\n0,10\n1,11\n2,12\n",
    ),
    (BASE, "time,x\n", "time,x\n"),
    // The gap is longer than the window, and then as long.
    (BASE, "time,x\n0,0\n11,100\n", "time,x\n0,0\n11,100\n"),
    (BASE, "time,x\n0,0\n10,10\n", "time,x\n0,0\n10,10\n"),
    (BASE, "time,x\n0,0\n1,\n2,2\n", "time,x\n0,0\n1,\n2,2\n"),
    (
        BASE,
        "time,x\n0,0\n1,NaN\n2,2\n",
        "time,x\n0,0\n1,NaN\n2,2\n",
    ),
    // The mark, the line breaks and the spelling of readings go; the rest stays.
    (
        BASE,
        "\u{feff}time,x,note\r\n0,10,\"a, b\"\r\n",
        "time,x,note\n0,10,\"a, b\"\n",
    ),
    (
        BASE,
        "time, x\n\n0.0, +7\n1.0,8e0",
        "time, x\n0.0,7\n1.0,8\n",
    ),
    (
        SLOW,
        "time,x\n0,0\n1,0\n2,0\n5,1\n",
        "time,x\n0,0\n1,0\n2,0\n5,1\n",
    ),
    (FINE, "time,x\n0,0\n1,0.33\n", "time,x\n0,0.00\n1,0.33\n"),
    (EXACT, "time,x\n0,0\n3,1\n", "time,x\n0,0\n3,1\n"),
    (TRUST, "time,x\n0,0\n1,1\n", "time,x\n0,0\n1,1\n"),
    (RANGE, "time,x\n0,50\n", "time,x\n0,50\n"),
    (
        SWING,
        "time,x\n0,0\n5,5\n11,10\n",
        "time,x\n0,0\n5,5\n11,10\n",
    ),
    // Only the first and the last are far enough apart, but not too far.
    (
        DRIFT,
        "time,x\n0,0\n5,5\n10,1\n",
        "time,x\n0,0\n5,5\n10,1\n",
    ),
    (
        BETWEEN,
        "time,out,in\n0,15,10\n1,,10\n2,5,5\n",
        "time,out,in\n0,15,10\n1,,10\n2,5,5\n",
    ),
    (
        PRICED,
        "time,x\n0,10\n1,11\n2,10\n",
        "time,x\n0,10\n1,11\n2,10\n",
    ),
];

fn assert_kept(
    rt: &impl Abort,
    alloc: Global,
    rules: &str,
    readings: &str,
    written: &str,
) -> Result<(), Fail> {
    let cert = if rules == PRICED { PRICED_CERT } else { CERT };
    let ran = global(alloc, rules, readings.as_bytes())?;
    ran.assert_is(rt, Status::Done, written.as_bytes(), cert, b"");
    Ok(())
}

#[test]
fn readings_that_keep_all_bounds_are_written(rt: HostRuntime) -> Result<(), Fail> {
    for (rules, readings, written) in KEPT {
        assert_kept(&rt, rt.alloc(), rules, readings, written)?;
    }
    Ok(())
}

/// Rules, readings that do not keep them, the repaired text, and the lines of the certificate after its claim.
const REPAIRED: [(&str, &str, &str, &str); 15] = [
    (
        BASE,
        "time,x\n0,10\n1,11\n2,20\n3,13\n",
        "time,x\n0,10\n1,11\n2,12\n3,13\n",
        "total 8\nset 3 2 12\nflow 1 2 3 2 up 1\n",
    ),
    // Of the two that change as little the greater.
    (
        BASE,
        "time,x\n0,0\n1,3\n",
        "time,x\n0,2\n1,3\n",
        "total 2\nset 1 2 2\nflow 1 1 2 2 up 1\n",
    ),
    (
        HEAVY,
        "time,x\n0,0\n1,3\n",
        "time,x\n0,0\n1,1\n",
        "total 2\nset 2 2 1\nflow 1 1 2 2 up 1\n",
    ),
    // The gap is the window.
    (
        BASE,
        "time,x\n0,0\n10,100\n",
        "time,x\n0,90\n10,100\n",
        "total 90\nset 1 2 90\nflow 1 1 2 2 up 1\n",
    ),
    (
        FINE,
        "time,x\n0,0.00\n1,1.00\n",
        "time,x\n0,0.67\n1,1.00\n",
        "total 67\nset 1 2 67\nflow 1 1 2 2 up 1\n",
    ),
    (
        SLOW,
        "time,x\n0,0\n1,0\n2,0\n3,1\n",
        "time,x\n0,0\n1,0\n2,0\n3,0\n",
        "total 1\nset 4 2 0\nflow 1 3 4 2 up 1\n",
    ),
    (
        BETWEEN,
        "time,in,out\n0,10,20\n",
        "time,in,out\n0,15,20\n",
        "total 5\nset 1 2 15\nflow 1 1 1 2 up 1\n",
    ),
    (
        RANGE,
        "time,x\n0,70\n",
        "time,x\n0,50\n",
        "total 20\nset 1 2 50\nflow 1 1 1 2 up 1\n",
    ),
    (
        SWING,
        "time,x\n0,0\n5,4\n10,8\n",
        "time,x\n0,3\n5,4\n10,8\n",
        "total 3\nset 1 2 3\nflow 1 1 3 2 up 1\n",
    ),
    (
        DRIFT,
        "time,x\n0,0\n5,5\n10,9\n",
        "time,x\n0,8\n5,5\n10,9\n",
        "total 8\nset 1 2 8\nflow 1 1 3 2 up 1\n",
    ),
    // The missing cell and the text beside it stay.
    (
        BASE,
        "time,note,x\n0,\"a,b\",0\n1,, \n2,c,3\n",
        "time,note,x\n0,\"a,b\",1\n1,, \n2,c,3\n",
        "total 1\nset 1 3 1\nflow 1 1 3 3 up 1\n",
    ),
    // The broken bound has a price: it is paid, or not.
    (
        PRICED,
        "time,x\n0,0\n1,100\n",
        "time,x\n0,0\n1,100\n",
        "total 99\npaid 99\nflow 1 1 2 2 up 1\n",
    ),
    (
        CHEAP,
        "time,x\n0,0\n1,3\n",
        "time,x\n0,2\n1,3\n",
        "total 2\npaid 0\nset 1 2 2\nflow 1 1 2 2 up 1\n",
    ),
    (
        DEAR_TRUST,
        "time,x\n0,0\n1,100\n",
        "time,x\n0,0\n1,100\n",
        "total 198\npaid 198\nflow 1 1 2 2 up 2\nflow 2 1 1 2 up 2\nflow 2 2 2 2 down 2\n",
    ),
    (
        DEAR_RANGE,
        "time,x\n0,70\n",
        "time,x\n0,70\n",
        "total 20\npaid 20\nflow 1 1 1 2 up 1\nflow 2 1 1 2 down 1\n",
    ),
];

/// Whether the certificate of a repair under these rules says what is paid.
fn is_priced(rules: &str) -> bool {
    [PRICED, CHEAP, DEAR_TRUST, DEAR_RANGE].contains(&rules)
}

fn assert_repaired(
    rt: &impl Abort,
    alloc: Global,
    rules: &str,
    readings: &str,
    written: &str,
    lines: &str,
) -> Result<(), Fail> {
    let version = if is_priced(rules) { 2 } else { 1 };
    let cert = format!(in alloc; "screen-cert {version}\nclaim repair\n{lines}end\n")?;
    let ran = global(alloc, rules, readings.as_bytes())?;
    ran.assert_is(rt, Status::Done, written.as_bytes(), cert.as_bytes(), b"");
    Ok(())
}

#[test]
fn readings_are_repaired(rt: HostRuntime) -> Result<(), Fail> {
    for (rules, readings, written, lines) in REPAIRED {
        assert_repaired(&rt, rt.alloc(), rules, readings, written, lines)?;
    }
    Ok(())
}

/// Readings in hundredths with dates as times, which may change by five of them in a second.
const HOUR: &str =
    "[format]\ndecimals = 2\nform = \"instant\"\n[[speed]]\nsensor = \"x\"\nmin = \"-0.05\"\nmax = \"0.05\"\nper = 1\nwindow = 60\n";

/// An hour of readings, one a second, with this value in the place of 20.00 once in every fifth minute.
fn hour(alloc: Global, spike: &str) -> Result<String, Fail> {
    let mut text = String::from_str(alloc, "time,x\n")?;
    for minute in 0..60u32 {
        for second in 0..60u32 {
            let value = if minute % 5 == 2 && second == 29 {
                spike
            } else {
                "20.00"
            };
            let row = format!(in alloc; "2024-05-01T00:{minute:02}:{second:02}Z,{value}\n")?;
            text.push_str(row.as_str())?;
        }
    }
    Ok(text)
}

#[test]
fn spikes_in_an_hour_are_repaired(rt: HostRuntime) -> Result<(), Fail> {
    let alloc = rt.alloc();
    let mut sets = String::new(alloc);
    let mut flows = String::new(alloc);
    for spike in 0..12u32 {
        let row = spike * 300 + 150;
        sets.push_str(format!(in alloc; "set {row} 2 2005\n")?.as_str())?;
        let after = row + 1;
        flows.push_str(format!(in alloc; "flow 1 {row} {after} 2 down 1\n")?.as_str())?;
    }
    let cert = format!(in alloc; "screen-cert 1\nclaim repair\ntotal 17940\n{sets}{flows}end\n")?;
    let readings = hour(alloc, "35.00")?;
    let written = hour(alloc, "20.05")?;
    let ran = global(alloc, HOUR, readings.as_bytes())?;
    ran.assert_is(&rt, Status::Done, written.as_bytes(), cert.as_bytes(), b"");
    Ok(())
}

/// Rules, readings that have no repair under them, and the steps of the cycle that shows it.
const BLOCKED: [(&str, &str, &str); 3] = [
    (
        TRUST,
        "time,x\n0,0\n1,100\n",
        "step 2 1 1 2 up\nstep 1 1 2 2 up\nstep 2 2 2 2 down\n",
    ),
    (
        EXACT,
        "time,x\n0,0\n1,0\n",
        "step 1 1 2 2 up\nstep 1 1 2 2 down\n",
    ),
    (
        RANGE_TRUST,
        "time,x\n0,70\n",
        "step 1 1 1 2 up\nstep 2 1 1 2 down\n",
    ),
];

fn assert_blocked(
    rt: &impl Abort,
    alloc: Global,
    rules: &str,
    readings: &str,
    steps: &str,
) -> Result<(), Fail> {
    let cert = format!(in alloc; "screen-cert 1\nclaim none\n{steps}end\n")?;
    let note = b"screen: no series obeys the rules\n";
    let ran = global(alloc, rules, readings.as_bytes())?;
    ran.assert_is(rt, Status::NoSeries, b"", cert.as_bytes(), note);
    Ok(())
}

#[test]
fn a_cycle_is_written_where_no_series_obeys(rt: HostRuntime) -> Result<(), Fail> {
    for (rules, readings, steps) in BLOCKED {
        assert_blocked(&rt, rt.alloc(), rules, readings, steps)?;
    }
    Ok(())
}

/// The first times of each second, and readings that are all 0.
pub(super) fn still(alloc: Global, rows: u32) -> Result<String, Fail> {
    let mut text = String::from_str(alloc, "time,x\n")?;
    for row in 0..rows {
        text.push_str(format!(in alloc; "{row},0\n")?.as_str())?;
    }
    Ok(text)
}

/// Readings that are refused, and what the note says of them.
const REFUSED: [(&str, &str); 16] = [
    ("", "NoHeader, row 0, column 0"),
    ("time,x,x\n", "NameTwice, row 0, column 3"),
    ("time,y\n", "NoSuchSensor, row 0, column 0"),
    ("time,x\n1,2,3\n", "Width, row 1, column 0"),
    ("time,x\nnoon,1\n", "NotTime, row 1, column 1"),
    ("time,x\n0.0000000001,1\n", "TimeTooFine, row 1, column 1"),
    ("time,x\n9000000001,1\n", "TimeOutOfRange, row 1, column 1"),
    ("time,x\n0,1\n0,1\n", "TimeNotRising, row 2, column 1"),
    ("time,x\n0,1\n1,abc\n", "NotNumber, row 2, column 2"),
    ("time,x\n0,0.5\n", "TooFine, row 1, column 2"),
    (
        "time,x\n0,1000000000000001\n",
        "OutOfRange, row 1, column 2",
    ),
    ("time,x\n0,1\"\n", "BadQuote, row 1, column 0"),
    ("time,x\n0,1\n1,\"2", "OpenQuote, row 2, column 0"),
    ("\"time\"?,x\n", "BadQuote, row 0, column 0"),
    // An earlier record comes first, and so does an earlier check.
    ("time,x\n0,a\n1,\"2", "NotNumber, row 1, column 2"),
    ("time,x\nnoon,a\n", "NotTime, row 1, column 1"),
];

fn assert_readings_refused(
    rt: &impl Abort,
    alloc: Global,
    rules: &str,
    readings: &str,
    fault: &str,
) -> Result<(), Fail> {
    let note = format!(in alloc; "screen: readings refused: {fault}\n")?;
    let ran = global(alloc, rules, readings.as_bytes())?;
    ran.assert_is(rt, Status::ReadingsRefused, b"", b"", note.as_bytes());
    Ok(())
}

#[test]
fn refused_readings_are_named(rt: HostRuntime) -> Result<(), Fail> {
    for (readings, fault) in REFUSED {
        assert_readings_refused(&rt, rt.alloc(), BASE, readings, fault)?;
    }
    Ok(())
}

#[test]
fn too_many_columns_and_too_long_a_record_are_named(rt: HostRuntime) -> Result<(), Fail> {
    let alloc = rt.alloc();
    let wide = repeated(alloc, "time,x", ",", 255)?;
    let fault = "TooManyColumns, row 0, column 0";
    assert_readings_refused(&rt, alloc, BASE, wide.as_str(), fault)?;
    let long = repeated(alloc, "time,x\n0,", "7", 70_000)?;
    let fault = "RecordTooLong, row 1, column 0";
    assert_readings_refused(&rt, alloc, BASE, long.as_str(), fault)
}

#[test]
fn too_many_bounds_are_named(rt: HostRuntime) -> Result<(), Fail> {
    let alloc = rt.alloc();
    // Each two of the readings stand within the window: the fewer have 4,002,000 bounds, and each has two more.
    let swing = changed(alloc, SWING, "window = 10", "window = 5000")?;
    // A speed rule speaks of neighbours alone.
    let speed = changed(alloc, BASE, "window = 10", "window = 5000")?;
    let fault = "TooManyBounds, row 0, column 0";
    for rows in [2_001, 5_000] {
        let readings = still(alloc, rows)?;
        assert_readings_refused(&rt, alloc, swing.as_str(), readings.as_str(), fault)?;
        assert_kept(
            &rt,
            alloc,
            speed.as_str(),
            readings.as_str(),
            readings.as_str(),
        )?;
    }
    Ok(())
}

/// A text, and then another one so many times.
fn repeated(alloc: Global, text: &str, other: &str, times: u32) -> Result<String, AllocError> {
    let mut whole = String::from_str(alloc, text)?;
    for _ in 0..times {
        whole.push_str(other)?;
    }
    Ok(whole)
}

/// The rules with another text in the place of one of their parts.
pub(super) fn changed(
    alloc: Global,
    rules: &str,
    part: &str,
    other: &str,
) -> Result<String, AllocError> {
    match rules.split_once(part) {
        Some((before, after)) => format!(in alloc; "{before}{other}{after}"),
        None => String::from_str(alloc, rules),
    }
}

/// A part of the base rules, what stands in its place, and what the note says of the rules then.
const REFUSED_RULES: [(&str, &str, &str); 8] = [
    ("[[speed]]", "[[speed]", "Syntax, rule 0"),
    (BASE, "", "MissingKey, rule 0"),
    ("max = 1", "max = 0.5", "WrongKind, rule 1"),
    ("min = -1", "min = 2", "Order, rule 1"),
    (
        "window = 10",
        "window = 10\nprice = 0",
        "OutOfLimit, rule 1",
    ),
    (
        "window = 10",
        "window = 10\nprice = \"2\"",
        "WrongKind, rule 1",
    ),
    (
        "window = 10",
        "window = 10\n[[trust]]\nsensor = \"x\"\nprice = 2",
        "UnknownKey, rule 2",
    ),
    (
        "window = 10",
        "window = 10\n[[between]]\nfirst = \"x\"\nsecond = \"x\"\nmin = 0\nmax = 1",
        "SameSensor, rule 2",
    ),
];

fn assert_rules_refused(
    rt: &impl Abort,
    alloc: Global,
    rules: &str,
    fault: &str,
) -> Result<(), Fail> {
    let note = format!(in alloc; "screen: rules refused: {fault}\n")?;
    let ran = global(alloc, rules, READINGS)?;
    ran.assert_is(rt, Status::RulesRefused, b"", b"", note.as_bytes());
    Ok(())
}

#[test]
fn refused_rules_are_named(rt: HostRuntime) -> Result<(), Fail> {
    let alloc = rt.alloc();
    for (part, other, fault) in REFUSED_RULES {
        let rules = changed(alloc, BASE, part, other)?;
        assert_rules_refused(&rt, alloc, rules.as_str(), fault)?;
    }
    Ok(())
}

#[test]
fn too_many_rules_and_too_long_a_file_are_named(rt: HostRuntime) -> Result<(), Fail> {
    let alloc = rt.alloc();
    let trust = "[[trust]]\nsensor = \"x\"\n";
    let rules = repeated(alloc, "[format]\ndecimals = 0\n", trust, 1_001)?;
    assert_rules_refused(&rt, alloc, rules.as_str(), "TooMany, rule 0")?;
    let rules = repeated(alloc, BASE, "\n", 1_048_576)?;
    assert_rules_refused(&rt, alloc, rules.as_str(), "FileTooLong, rule 0")
}

fn gives_the_usage(rt: &impl Abort, alloc: Global, texts: &[&str]) -> Result<(), AllocError> {
    let ran = run_with(alloc, texts, BASE, READINGS)?;
    let usage =
        b"usage: screen global RULES READINGS CERT\n       screen check RULES READINGS CERT\n       screen online RULES\n       screen report RULES READINGS CERT\n       screen sample ROWS SEED\n";
    ran.assert_is(rt, Status::Usage, b"", b"", usage);
    Ok(())
}

#[test]
fn words_that_are_no_command_give_the_usage(rt: HostRuntime) -> Result<(), Fail> {
    let alloc = rt.alloc();
    gives_the_usage(&rt, alloc, &[])?;
    gives_the_usage(&rt, alloc, &["global", "a", "b"])?;
    gives_the_usage(&rt, alloc, &["globe", "a", "b", "c"])?;
    gives_the_usage(&rt, alloc, &["global", "a", "b", "c", "d"])?;
    Ok(())
}

/// The front of a text that a sink holds which takes eight bytes a call and fails at this one.
pub(super) fn front(text: &[u8], call: u64) -> &[u8] {
    let held = call
        .saturating_sub(1)
        .saturating_mul(8)
        .min(text.len() as u64);
    &text[..held as usize]
}

/// How many calls write a text: one for each eight bytes, and one that finishes.
pub(super) fn write_calls(text: &[u8]) -> u64 {
    (text.len() as u64).div_ceil(8) + 1
}

/// Whether the call is made that has this number among those which write the text.
pub(super) fn is_made(text: &[u8], call: u64) -> bool {
    call <= write_calls(text)
}

/// How many calls read a text: one for each sixteen bytes, and one that gets none.
pub(super) fn read_calls(text: &str) -> u64 {
    (text.len() as u64).div_ceil(16).saturating_add(1)
}

#[test]
fn ends_are_those_of_the_command(rt: HostRuntime) -> Result<(), Fail> {
    let alloc = rt.alloc();
    let global = words(alloc, &["global", "r", "d", "c"])?;
    let ends = roles(global.as_slice());
    assert_eq!(rt; ends.rules, EndUse::Word(1));
    assert_eq!(rt; ends.readings, EndUse::Word(2));
    assert_eq!(rt; ends.cert_read, EndUse::Nothing);
    assert_eq!(rt; ends.cert_written, EndUse::Word(3));
    assert_eq!(rt; ends.out, EndUse::Output);
    assert_eq!(rt; roles(&[]).out, EndUse::Nothing);
    Ok(())
}
