//! Whole runs of the command `online`, over sources and sinks in memory.
use crate::run_tests::{front, run_words, sink, source, source_of_pieces, words};
use screen_io::{MemSink, MemSource, Source};
use screen_tool::{EndUse, Inputs, Outputs, Status, roles};
use std::alloc::{AllocError, Global};
use std::process::Abort;
use std::test::Fail;

const RULES: &str = "[format]
decimals = 0
[[speed]]
sensor = \"x\"
min = -1
max = 1
per = 1
window = 2
";

/// They come in three pieces: sixteen bytes, eleven, and none.
const READINGS: &str = "time,x\n0,10\n1,11\n2,20\n3,13\n";

const WRITTEN: &str = "time,x\n0,12\n1,13\n2,14\n3,13\n";

const NOT_READ: &str = "screen: a read failed\n";

const NOT_WRITTEN: &str = "screen: a write failed\n";

/// A run of `online`: how it ended, what it wrote, and whether the certificates were left alone.
#[derive(Drop)]
struct Ran {
    status: Status,
    out: MemSink,
    note: MemSink,
    unused: bool,
}

impl Ran {
    fn assert_is(&self, rt: &impl Abort, status: Status, out: &str, note: &str) {
        assert_eq!(rt; self.status, status);
        assert_eq!(rt; self.out.held_bytes(), out.as_bytes());
        assert_eq!(rt; self.note.held_bytes(), note.as_bytes());
        assert!(rt; self.unused);
    }
}

fn online(
    alloc: Global,
    rules: MemSource,
    readings: MemSource,
    out: MemSink,
) -> Result<Ran, AllocError> {
    online_noted(alloc, rules, readings, out, sink(alloc, &[])?)
}

fn online_noted(
    alloc: Global,
    rules: MemSource,
    readings: MemSource,
    out: MemSink,
    note: MemSink,
) -> Result<Ran, AllocError> {
    let mut ins = Inputs {
        rules,
        readings,
        cert: source(alloc, b"?", &[])?,
    };
    let mut outs = Outputs {
        out,
        cert: sink(alloc, &[])?,
        note,
    };
    let status = run_words(alloc, &["online", "r"], &mut ins, &mut outs)?;
    let unread = ins.cert.read(&mut [0; 4]) == Ok(1);
    Ok(Ran {
        status,
        out: outs.out,
        note: outs.note,
        unused: unread && outs.cert.held_bytes().is_empty(),
    })
}

/// The run on these rules and readings, where nothing fails.
fn online_over(alloc: Global, rules: &str, readings: &str) -> Result<Ran, AllocError> {
    online(
        alloc,
        source(alloc, rules.as_bytes(), &[])?,
        source(alloc, readings.as_bytes(), &[])?,
        sink(alloc, &[])?,
    )
}

#[test]
fn rows_are_repaired_as_they_come(rt: HostRuntime) -> Result<(), Fail> {
    for (readings, written) in [
        (READINGS, WRITTEN),
        ("time,x\n0,10\n1,11\n2,20\n3,13", WRITTEN),
        ("time,x\n", "time,x\n"),
        ("time,x\n0,7\n", "time,x\n0,7\n"),
        ("time,x\n0,0\n3,100\n", "time,x\n0,0\n3,100\n"),
        ("time,x,n\n0,,a\n1,5,\n", "time,x,n\n0,,a\n1,5,\n"),
    ] {
        online_over(rt.alloc(), RULES, readings)?.assert_is(&rt, Status::Done, written, "");
    }
    Ok(())
}

#[test]
fn what_was_ready_before_a_refusal_is_written(rt: HostRuntime) -> Result<(), Fail> {
    for (readings, written, note) in [
        (
            "",
            "",
            "screen: readings refused: NoHeader, row 0, column 0\n",
        ),
        (
            "time,x\n0,10\n1,\"11",
            "time,x\n",
            "screen: readings refused: OpenQuote, row 2, column 0\n",
        ),
        (
            "time,x\n0,10\n1,11\n2,20\n3,13\n3,14\n",
            "time,x\n0,12\n",
            "screen: readings refused: TimeNotRising, row 5, column 1\n",
        ),
    ] {
        let ran = online_over(rt.alloc(), RULES, readings)?;
        ran.assert_is(&rt, Status::ReadingsRefused, written, note);
    }
    Ok(())
}

#[test]
fn rules_that_are_not_for_streams_write_nothing(rt: HostRuntime) -> Result<(), Fail> {
    for (rules, note) in [
        ("[format]\n", "screen: rules refused: MissingKey, rule 0\n"),
        (
            "[format]\ndecimals = 0\n[[trust]]\nsensor = \"x\"\n",
            "screen: rules refused: NotOnline, rule 1\n",
        ),
    ] {
        let ran = online_over(rt.alloc(), rules, READINGS)?;
        ran.assert_is(&rt, Status::RulesRefused, "", note);
    }
    Ok(())
}

#[test]
fn a_read_that_fails_keeps_what_was_ready(rt: HostRuntime) -> Result<(), Fail> {
    let alloc = rt.alloc();
    // The bytes of a piece, the call that fails, and what is written of the pieces before it.
    for (piece, call, written) in [
        (16, 1, ""),
        (16, 2, "time,x\n"),
        (16, 3, "time,x\n0,12\n"),
        (9, 1, ""),
        (9, 2, "time,x\n"),
        (9, 3, "time,x\n"),
        (9, 4, "time,x\n0,12\n"),
        (6, 2, ""),
        (7, 2, "time,x\n"),
        (1, 26, "time,x\n"),
        (1, 27, "time,x\n"),
        (1, 28, "time,x\n0,12\n"),
    ] {
        let ran = online(
            alloc,
            source(alloc, RULES.as_bytes(), &[])?,
            source_of_pieces(alloc, READINGS.as_bytes(), &[call], piece)?,
            sink(alloc, &[])?,
        )?;
        ran.assert_is(&rt, Status::ReadFault, written, NOT_READ);
    }
    Ok(())
}

/// The rules come in six pieces, and none in the seventh call. The eighth is never made.
#[test]
fn rules_that_fail_write_nothing(rt: HostRuntime) -> Result<(), Fail> {
    let alloc = rt.alloc();
    for (call, status, written, note) in [
        (1, Status::ReadFault, "", NOT_READ),
        (2, Status::ReadFault, "", NOT_READ),
        (3, Status::ReadFault, "", NOT_READ),
        (4, Status::ReadFault, "", NOT_READ),
        (5, Status::ReadFault, "", NOT_READ),
        (6, Status::ReadFault, "", NOT_READ),
        (7, Status::ReadFault, "", NOT_READ),
        (8, Status::Done, WRITTEN, ""),
    ] {
        let ran = online(
            alloc,
            source(alloc, RULES.as_bytes(), &[call])?,
            source(alloc, READINGS.as_bytes(), &[])?,
            sink(alloc, &[])?,
        )?;
        ran.assert_is(&rt, status, written, note);
    }
    Ok(())
}

/// The note is written by three calls, and handed on by a fourth.
#[test]
fn a_note_that_fails_changes_no_status(rt: HostRuntime) -> Result<(), Fail> {
    let alloc = rt.alloc();
    for call in [1, 2, 3, 4, 5] {
        let ran = online_noted(
            alloc,
            source(alloc, RULES.as_bytes(), &[])?,
            source(alloc, READINGS.as_bytes(), &[3])?,
            sink(alloc, &[])?,
            sink(alloc, &[call])?,
        )?;
        assert_eq!(rt; ran.status, Status::ReadFault);
        assert_eq!(rt; ran.out.held_bytes(), b"time,x\n0,12\n".as_slice());
        assert_eq!(rt; ran.note.held_bytes(), front(NOT_READ.as_bytes(), call));
    }
    Ok(())
}

/// Each piece is written by eight bytes in a call, and handed on by one more. The eighth call is never made.
#[test]
fn a_write_that_fails_holds_a_front(rt: HostRuntime) -> Result<(), Fail> {
    let alloc = rt.alloc();
    for (call, held) in [
        (1, ""),
        (2, "time,x\n"),
        (3, "time,x\n"),
        (4, "time,x\n0,12\n"),
        (5, "time,x\n0,12\n"),
        (6, "time,x\n0,12\n1,13\n2,1"),
        (7, WRITTEN),
    ] {
        let ran = online(
            alloc,
            source(alloc, RULES.as_bytes(), &[])?,
            source(alloc, READINGS.as_bytes(), &[])?,
            sink(alloc, &[call])?,
        )?;
        ran.assert_is(&rt, Status::WriteFault, held, NOT_WRITTEN);
    }
    let ran = online(
        alloc,
        source(alloc, RULES.as_bytes(), &[])?,
        source(alloc, READINGS.as_bytes(), &[])?,
        sink(alloc, &[8])?,
    )?;
    ran.assert_is(&rt, Status::Done, WRITTEN, "");
    Ok(())
}

#[test]
fn readings_of_a_stream_are_standard_input(rt: HostRuntime) -> Result<(), Fail> {
    let online = words(rt.alloc(), &["online", "r"])?;
    let ends = roles(online.as_slice());
    assert_eq!(rt; ends.rules, EndUse::Word(1));
    assert_eq!(rt; ends.readings, EndUse::Input);
    assert_eq!(rt; ends.cert_read, EndUse::Nothing);
    assert_eq!(rt; ends.cert_written, EndUse::Nothing);
    assert_eq!(rt; ends.out, EndUse::Output);
    Ok(())
}
