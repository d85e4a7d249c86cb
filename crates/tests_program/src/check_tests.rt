//! Whole runs of the commands that check a certificate, over sources and sinks in memory.
use crate::run_tests::{
    BASE, BETWEEN, PRICED, RANGE_TRUST, SWING, changed, front, global, is_made, read_calls,
    run_words, sink, source, still, words,
};
use screen_io::{MemSink, MemSource, Source};
use screen_tool::{EndUse, Inputs, Outputs, Status, roles};
use std::alloc::{AllocError, Global};
use std::process::Abort;
use std::test::Fail;

/// Readings of which one is wrong, and their certificate.
const READINGS: &str = "time,x\n0,10\n1,11\n2,20\n3,13\n";

const CERT: &str = "screen-cert 1\nclaim repair\ntotal 8\nset 3 2 12\nflow 1 2 3 2 up 1\nend\n";

/// What is reported of it.
const REPORTED: &str =
    "claim repair\ntotal 8\ncolumn  readings   changed                    change\n     2         4         1                         8\nchange 3 2 20 12\nflow 1 2 3 2 up 1\n";

/// The commands that check a certificate, and what each writes of this one.
const COMMANDS: [(&str, &str); 2] = [("check", "accepted repair 8\n"), ("report", REPORTED)];

/// A run of such a command: how it ended, what it wrote, and whether there is more of its certificate to read.
#[derive(Drop)]
struct Ran {
    status: Status,
    out: MemSink,
    cert: MemSink,
    note: MemSink,
    unread: bool,
}

impl Ran {
    fn assert_is(&self, rt: &impl Abort, status: Status, out: &[u8], note: &[u8]) {
        assert_eq!(rt; self.status, status);
        assert_eq!(rt; self.out.held_bytes(), out);
        assert!(rt; self.cert.held_bytes().is_empty());
        assert_eq!(rt; self.note.held_bytes(), note);
    }
}

fn run_over(
    alloc: Global,
    command: &str,
    mut ins: Inputs<MemSource>,
    out: MemSink,
    note: MemSink,
) -> Result<Ran, AllocError> {
    let mut outs = Outputs {
        out,
        cert: sink(alloc, &[])?,
        note,
    };
    let status = run_words(alloc, &[command, "r", "d", "c"], &mut ins, &mut outs)?;
    let unread = ins.cert.read(&mut [0; 4]) != Ok(0);
    Ok(Ran {
        status,
        out: outs.out,
        cert: outs.cert,
        note: outs.note,
        unread,
    })
}

fn inputs(
    alloc: Global,
    rules: &str,
    readings: &[u8],
    cert: &[u8],
    fails: (u64, u64, u64),
) -> Result<Inputs<MemSource>, AllocError> {
    Ok(Inputs {
        rules: source(alloc, rules.as_bytes(), &[fails.0])?,
        readings: source(alloc, readings, &[fails.1])?,
        cert: source(alloc, cert, &[fails.2])?,
    })
}

fn check(alloc: Global, rules: &str, readings: &[u8], cert: &[u8]) -> Result<Ran, AllocError> {
    let ins = inputs(alloc, rules, readings, cert, (0, 0, 0))?;
    run_over(alloc, "check", ins, sink(alloc, &[])?, sink(alloc, &[])?)
}

/// Rules and readings, and what is answered to the certificate that `global` writes of them.
const ANSWERED: [(&str, &str, &str); 6] = [
    (BASE, READINGS, "accepted repair 8\n"),
    (BASE, "time,x\n", "accepted repair 0\n"),
    (PRICED, "time,x\n0,0\n1,100\n", "accepted repair 99\n"),
    (SWING, "time,x\n0,0\n5,4\n10,8\n", "accepted repair 3\n"),
    (BETWEEN, "time,in,out\n0,10,20\n", "accepted repair 5\n"),
    (RANGE_TRUST, "time,x\n0,70\n", "accepted none\n"),
];

#[test]
fn what_global_writes_is_accepted(rt: HostRuntime) -> Result<(), Fail> {
    let alloc = rt.alloc();
    for (rules, readings, answer) in ANSWERED {
        let written = global(alloc, rules, readings.as_bytes())?;
        let ran = check(alloc, rules, readings.as_bytes(), written.cert.held_bytes())?;
        ran.assert_is(&rt, Status::Done, answer.as_bytes(), b"");
        assert!(rt; !ran.unread);
    }
    Ok(())
}

/// Certificates of the readings that are refused, and what the note says of them.
const REFUSED: [(&str, &str); 12] = [
    ("", "Syntax 1"),
    ("screen-cert 1\nclaim repair\ntotal 08\n", "Syntax 3"),
    (
        "screen-cert 1\nclaim repair\ntotal 8\nset 3 2 20\nend\n",
        "SetOutside 4",
    ),
    (
        "screen-cert 1\nclaim repair\ntotal 8\nset 3 2 12\nflow 2 2 3 2 up 1\nend\n",
        "UnknownBound 5",
    ),
    (
        "screen-cert 1\nclaim repair\ntotal 7\nset 3 2 13\nend\n",
        "Broken 1 2 3 2 up",
    ),
    (
        "screen-cert 1\nclaim repair\ntotal 7\nset 3 2 12\nend\n",
        "TotalWrong 7 8",
    ),
    (
        "screen-cert 2\nclaim repair\ntotal 8\npaid 1\nset 3 2 12\nend\n",
        "PaidWrong 1 0",
    ),
    (
        "screen-cert 1\nclaim repair\ntotal 8\nset 3 2 12\nflow 1 2 3 2 up 2\nend\n",
        "PullTooGreat 2 2",
    ),
    (
        "screen-cert 1\nclaim repair\ntotal 8\nset 3 2 12\nflow 1 2 3 2 down 1\nend\n",
        "ValueDiffers -10 8",
    ),
    (
        "screen-cert 1\nclaim none\nstep 1 1 2 2 up\nend\n",
        "CycleOpen 3",
    ),
    (
        "screen-cert 1\nclaim none\nstep 1 1 2 2 up\nstep 1 1 2 2 down\nend\n",
        "CycleSum 2",
    ),
    (
        "screen-cert 1\nclaim none\nstep 9 1 2 2 up\nend\n",
        "UnknownBound 3",
    ),
];

fn assert_refused(
    rt: &impl Abort,
    alloc: Global,
    rules: &str,
    readings: &str,
    cert: &str,
    fault: &str,
) -> Result<(), Fail> {
    let note = format!(in alloc; "screen: certificate refused: {fault}\n")?;
    let ran = check(alloc, rules, readings.as_bytes(), cert.as_bytes())?;
    ran.assert_is(rt, Status::CertRefused, b"", note.as_bytes());
    Ok(())
}

#[test]
fn refused_certificates_are_named(rt: HostRuntime) -> Result<(), Fail> {
    let alloc = rt.alloc();
    for (cert, fault) in REFUSED {
        assert_refused(&rt, alloc, BASE, READINGS, cert, fault)?;
    }
    let paid = "screen-cert 2\nclaim repair\ntotal 99\npaid 99\nflow 1 1 2 2 up 2\nend\n";
    let step = "screen-cert 1\nclaim none\nstep 1 1 2 2 up\nend\n";
    let readings = "time,x\n0,0\n1,100\n";
    assert_refused(&rt, alloc, PRICED, readings, paid, "OverPrice 5")?;
    assert_refused(&rt, alloc, PRICED, readings, step, "PricedStep 3")
}

#[test]
fn a_certificate_is_read_last(rt: HostRuntime) -> Result<(), Fail> {
    let alloc = rt.alloc();
    let ran = check(alloc, "[format", READINGS.as_bytes(), CERT.as_bytes())?;
    let note = b"screen: rules refused: Syntax, rule 0\n";
    ran.assert_is(&rt, Status::RulesRefused, b"", note);
    assert!(rt; ran.unread);
    let ran = check(alloc, BASE, b"", CERT.as_bytes())?;
    let note = b"screen: readings refused: NoHeader, row 0, column 0\n";
    ran.assert_is(&rt, Status::ReadingsRefused, b"", note);
    assert!(rt; ran.unread);
    let rules = changed(alloc, SWING, "window = 10", "window = 2000")?;
    let readings = still(alloc, 2_001)?;
    let ran = check(alloc, rules.as_str(), readings.as_bytes(), CERT.as_bytes())?;
    let note = b"screen: readings refused: TooManyBounds, row 0, column 0\n";
    ran.assert_is(&rt, Status::ReadingsRefused, b"", note);
    assert!(rt; ran.unread);
    Ok(())
}

/// Whether a source of this text has a call of this number.
fn is_read(text: &str, call: u64) -> bool {
    call >= 1 && call <= read_calls(text)
}

#[test]
fn a_read_that_fails_writes_nothing(rt: HostRuntime) -> Result<(), Fail> {
    let alloc = rt.alloc();
    for (command, text) in COMMANDS {
        for call in 0..8u64 {
            for fails in [(call, 0, 0), (0, call, 0), (0, 0, call)] {
                let ins = inputs(alloc, BASE, READINGS.as_bytes(), CERT.as_bytes(), fails)?;
                let ran = run_over(alloc, command, ins, sink(alloc, &[])?, sink(alloc, &[])?)?;
                if is_read(BASE, fails.0) || is_read(READINGS, fails.1) || is_read(CERT, fails.2) {
                    ran.assert_is(&rt, Status::ReadFault, b"", b"screen: a read failed\n");
                } else {
                    ran.assert_is(&rt, Status::Done, text.as_bytes(), b"");
                }
            }
        }
    }
    Ok(())
}

#[test]
fn an_output_that_fails_holds_a_front(rt: HostRuntime) -> Result<(), Fail> {
    let alloc = rt.alloc();
    for (command, text) in COMMANDS {
        for call in 1..25u64 {
            let ins = inputs(alloc, BASE, READINGS.as_bytes(), CERT.as_bytes(), (0, 0, 0))?;
            let ran = run_over(
                alloc,
                command,
                ins,
                sink(alloc, &[call])?,
                sink(alloc, &[])?,
            )?;
            if is_made(text.as_bytes(), call) {
                let held = front(text.as_bytes(), call);
                ran.assert_is(&rt, Status::WriteFault, held, b"screen: a write failed\n");
            } else {
                ran.assert_is(&rt, Status::Done, text.as_bytes(), b"");
            }
        }
    }
    Ok(())
}

#[test]
fn a_note_that_fails_changes_no_status(rt: HostRuntime) -> Result<(), Fail> {
    let alloc = rt.alloc();
    let note = b"screen: certificate refused: Syntax 1\n";
    for (command, _) in COMMANDS {
        for call in 1..6u64 {
            let ins = inputs(alloc, BASE, READINGS.as_bytes(), b"", (0, 0, 0))?;
            let ran = run_over(
                alloc,
                command,
                ins,
                sink(alloc, &[])?,
                sink(alloc, &[call])?,
            )?;
            ran.assert_is(&rt, Status::CertRefused, b"", front(note, call));
        }
    }
    Ok(())
}

#[test]
fn ends_of_a_check_are_its_own(rt: HostRuntime) -> Result<(), Fail> {
    let check = words(rt.alloc(), &["check", "r", "d", "c"])?;
    let ends = roles(check.as_slice());
    assert_eq!(rt; ends.rules, EndUse::Word(1));
    assert_eq!(rt; ends.readings, EndUse::Word(2));
    assert_eq!(rt; ends.cert_read, EndUse::Word(3));
    assert_eq!(rt; ends.cert_written, EndUse::Nothing);
    assert_eq!(rt; ends.out, EndUse::Output);
    Ok(())
}
