//! Whole runs of the command `sample`, over sinks in memory.
use crate::run_tests::{front, is_made, run_words, sink, source, words};
use screen_io::{MemSink, Source};
use screen_tool::{EndUse, Inputs, Outputs, Status, roles};
use std::alloc::{AllocError, Global};
use std::test::Fail;

/// A run of `sample`: how it ended, what it wrote, and whether it read nothing.
#[derive(Drop)]
struct Ran {
    status: Status,
    out: MemSink,
    note: MemSink,
    unread: bool,
}

fn sample(alloc: Global, rows: &str, seed: &str, fails: &[u64]) -> Result<Ran, AllocError> {
    sample_noted(alloc, rows, seed, fails, &[])
}

/// The run, where these calls of the output fail, and these of the note.
fn sample_noted(
    alloc: Global,
    rows: &str,
    seed: &str,
    fails: &[u64],
    note_fails: &[u64],
) -> Result<Ran, AllocError> {
    let mut ins = Inputs {
        rules: source(alloc, b"?", &[])?,
        readings: source(alloc, b"?", &[])?,
        cert: source(alloc, b"?", &[])?,
    };
    let mut outs = Outputs {
        out: sink(alloc, fails)?,
        cert: sink(alloc, &[])?,
        note: sink(alloc, note_fails)?,
    };
    let status = run_words(alloc, &["sample", rows, seed], &mut ins, &mut outs)?;
    let left = (
        ins.rules.read(&mut [0; 4]),
        ins.readings.read(&mut [0; 4]),
        ins.cert.read(&mut [0; 4]),
    );
    Ok(Ran {
        status,
        out: outs.out,
        note: outs.note,
        unread: left == (Ok(1), Ok(1), Ok(1)),
    })
}

#[test]
fn a_sample_is_summed_up(rt: HostRuntime) -> Result<(), Fail> {
    let ran = sample(rt.alloc(), "3", "0", &[])?;
    assert_eq!(rt; ran.status, Status::Done);
    assert_eq!(rt;
        ran.out.held_bytes(),
        b"rows 3\nchanged 2\ntotal 494\n".as_slice()
    );
    assert!(rt; ran.note.held_bytes().is_empty());
    assert!(rt; ran.unread);
    Ok(())
}

#[test]
fn samples_of_all_sizes_are_repaired(rt: HostRuntime) -> Result<(), Fail> {
    for (rows, seed) in [
        ("1", "0"),
        ("2", "1"),
        ("50", "000000002"),
        ("51", "999999999"),
        ("2000", "4"),
    ] {
        let ran = sample(rt.alloc(), rows, seed, &[])?;
        assert_eq!(rt; ran.status, Status::Done);
        assert!(rt; ran.out.held_bytes().starts_with(b"rows "));
    }
    Ok(())
}

#[test]
fn other_words_are_no_sample(rt: HostRuntime) -> Result<(), Fail> {
    for (rows, seed) in [
        ("0", "0"),
        ("20001", "0"),
        ("3", "1000000000"),
        ("", "0"),
        ("3", ""),
        ("+3", "0"),
        ("0000000003", "0"),
    ] {
        let ran = sample(rt.alloc(), rows, seed, &[])?;
        assert_eq!(rt; ran.status, Status::Usage);
        assert!(rt; ran.out.held_bytes().is_empty());
        assert!(rt;
            ran.note
                .held_bytes()
                .starts_with(b"usage: screen global RULES")
        );
    }
    Ok(())
}

#[test]
fn an_output_of_a_sample_that_fails_holds_a_front(rt: HostRuntime) -> Result<(), Fail> {
    let text = b"rows 3\nchanged 2\ntotal 494\n";
    for call in 1..7u64 {
        let ran = sample(rt.alloc(), "3", "0", &[call])?;
        let made = is_made(text, call);
        let held = if made {
            front(text, call)
        } else {
            text.as_slice()
        };
        assert_eq!(rt; ran.status == Status::WriteFault, made);
        assert_eq!(rt; ran.out.held_bytes(), held);
    }
    Ok(())
}

#[test]
fn a_note_of_a_sample_that_fails_holds_a_front(rt: HostRuntime) -> Result<(), Fail> {
    let note = b"screen: a write failed\n";
    for call in [1, 2, 3, 4, 5] {
        let ran = sample_noted(rt.alloc(), "3", "0", &[1], &[call])?;
        assert_eq!(rt; ran.status, Status::WriteFault);
        assert!(rt; ran.out.held_bytes().is_empty());
        assert_eq!(rt; ran.note.held_bytes(), front(note, call));
    }
    Ok(())
}

#[test]
fn ends_of_a_sample_are_its_own(rt: HostRuntime) -> Result<(), Fail> {
    let sample = words(rt.alloc(), &["sample", "3", "0"])?;
    let ends = roles(sample.as_slice());
    assert_eq!(rt; ends.rules, EndUse::Nothing);
    assert_eq!(rt; ends.readings, EndUse::Nothing);
    assert_eq!(rt; ends.cert_read, EndUse::Nothing);
    assert_eq!(rt; ends.cert_written, EndUse::Nothing);
    assert_eq!(rt; ends.out, EndUse::Output);
    Ok(())
}
