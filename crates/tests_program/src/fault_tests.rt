//! Whole runs of `global`, of which each end fails at each of its calls in turn.
use crate::run_tests::{
    BASE, GLOBAL, PRICED, TRUST, front, read_calls, run_words, sink, source, write_calls,
};
use screen_io::{MemSink, MemSource, Source};
use screen_tool::{Inputs, Outputs, Status};
use std::alloc::{AllocError, Global};
use std::process::Abort;
use std::test::Fail;

/// Rules and readings, how `global` ends on them where nothing fails, and the texts that it writes then.
#[derive(Clone, Copy)]
struct Case {
    rules: &'static str,
    readings: &'static str,
    status: Status,
    cert: &'static str,
    out: &'static str,
    note: &'static str,
}

const CASES: [Case; 5] = [
    Case {
        rules: BASE,
        readings: "time,x\n0,10\n1,11\n2,12\n",
        status: Status::Done,
        cert: "screen-cert 1\nclaim repair\ntotal 0\nend\n",
        out: "time,x\n0,10\n1,11\n2,12\n",
        note: "",
    },
    Case {
        rules: BASE,
        readings: "time,x\n0,10\n1,11\n2,20\n3,13\n",
        status: Status::Done,
        cert: "screen-cert 1\nclaim repair\ntotal 8\nset 3 2 12\nflow 1 2 3 2 up 1\nend\n",
        out: "time,x\n0,10\n1,11\n2,12\n3,13\n",
        note: "",
    },
    Case {
        rules: PRICED,
        readings: "time,x\n0,0\n1,100\n",
        status: Status::Done,
        cert: "screen-cert 2\nclaim repair\ntotal 99\npaid 99\nflow 1 1 2 2 up 1\nend\n",
        out: "time,x\n0,0\n1,100\n",
        note: "",
    },
    Case {
        rules: TRUST,
        readings: "time,x\n0,0\n1,20\n",
        status: Status::NoSeries,
        cert: "screen-cert 1\nclaim none\nstep 2 1 1 2 up\nstep 1 1 2 2 up\nstep 2 2 2 2 down\nend\n",
        out: "",
        note: "screen: no series obeys the rules\n",
    },
    Case {
        rules: BASE,
        readings: "",
        status: Status::ReadingsRefused,
        cert: "",
        out: "",
        note: "screen: readings refused: NoHeader, row 0, column 0\n",
    },
];

const NOT_READ: &str = "screen: a read failed\n";

const NOT_WRITTEN: &str = "screen: a write failed\n";

/// A number for each end: that of the call which fails, 0 for none; or how many failed.
#[derive(Clone, Copy)]
struct PerEnd {
    rules: u64,
    readings: u64,
    cert: u64,
    out: u64,
    note: u64,
}

const NONE: PerEnd = PerEnd {
    rules: 0,
    readings: 0,
    cert: 0,
    out: 0,
    note: 0,
};

/// A run of `global`: how it ended, and its ends.
#[derive(Drop)]
struct Ran {
    status: Status,
    ins: Inputs<MemSource>,
    outs: Outputs<MemSink>,
}

impl Ran {
    /// How it ended, how many calls of its ends failed, and what its sinks hold.
    fn assert_is(&self, rt: &impl Abort, status: Status, faults: PerEnd, held: [&[u8]; 3]) {
        assert_eq!(rt; self.status, status);
        assert_eq!(rt; self.ins.rules.fault_count(), faults.rules);
        assert_eq!(rt; self.ins.readings.fault_count(), faults.readings);
        assert_eq!(rt; self.outs.cert.fault_count(), faults.cert);
        assert_eq!(rt; self.outs.out.fault_count(), faults.out);
        assert_eq!(rt; self.outs.note.fault_count(), faults.note);
        assert_eq!(rt; self.outs.cert.held_bytes(), held[0]);
        assert_eq!(rt; self.outs.out.held_bytes(), held[1]);
        assert_eq!(rt; self.outs.note.held_bytes(), held[2]);
    }

    /// What is left in its sources. That of a certificate is never read.
    fn assert_left(
        &mut self,
        rt: &impl Abort,
        alloc: Global,
        rules: &[u8],
        readings: &[u8],
    ) -> Result<(), AllocError> {
        let rules_left = left(alloc, &mut self.ins.rules)?;
        let readings_left = left(alloc, &mut self.ins.readings)?;
        let cert_left = left(alloc, &mut self.ins.cert)?;
        assert_eq!(rt; rules_left.as_slice(), rules);
        assert_eq!(rt; readings_left.as_slice(), readings);
        assert_eq!(rt; cert_left.as_slice(), b"?".as_slice());
        Ok(())
    }
}

/// The bytes that are left in a source. It may fail once more.
fn left(alloc: Global, source: &mut MemSource) -> Result<Vec<u8>, AllocError> {
    let mut bytes = Vec::new(alloc);
    for _ in 0..20 {
        let mut piece = [0; 16];
        if let Ok(count) = source.read(&mut piece) {
            bytes.extend_from_slice(&piece[..count])?;
        }
    }
    Ok(bytes)
}

/// What is left of a text where this call fails, and each before it gave sixteen bytes.
fn rest(text: &str, call: u64) -> &[u8] {
    let bytes = text.as_bytes();
    let taken = call
        .saturating_sub(1)
        .saturating_mul(16)
        .min(bytes.len() as u64);
    &bytes[taken as usize..]
}

/// How many calls write a certificate or an output. Where there is none its sink is not called.
fn text_calls(text: &str) -> u64 {
    if text.is_empty() {
        return 0;
    }
    write_calls(text.as_bytes())
}

fn run_case(alloc: Global, case: &Case, fails: PerEnd) -> Result<Ran, AllocError> {
    let mut ins = Inputs {
        rules: source(alloc, case.rules.as_bytes(), &[fails.rules])?,
        readings: source(alloc, case.readings.as_bytes(), &[fails.readings])?,
        cert: source(alloc, b"?", &[])?,
    };
    let mut outs = Outputs {
        out: sink(alloc, &[fails.out])?,
        cert: sink(alloc, &[fails.cert])?,
        note: sink(alloc, &[fails.note])?,
    };
    let status = run_words(alloc, &GLOBAL, &mut ins, &mut outs)?;
    Ok(Ran { status, ins, outs })
}

/// These calls are never made: the run is that of which nothing fails.
fn assert_whole(
    rt: &impl Abort,
    alloc: Global,
    case: &Case,
    fails: PerEnd,
) -> Result<(), AllocError> {
    let mut ran = run_case(alloc, case, fails)?;
    let held = [
        case.cert.as_bytes(),
        case.out.as_bytes(),
        case.note.as_bytes(),
    ];
    ran.assert_is(rt, case.status, NONE, held);
    ran.assert_left(rt, alloc, b"", b"")
}

/// This call on the rules fails. The readings and the sinks would fail at once.
fn assert_rules_fail(
    rt: &impl Abort,
    alloc: Global,
    case: &Case,
    call: u64,
) -> Result<(), AllocError> {
    let fails = PerEnd {
        rules: call,
        readings: 1,
        cert: 1,
        out: 1,
        note: 0,
    };
    let mut ran = run_case(alloc, case, fails)?;
    let faults = PerEnd { rules: 1, ..NONE };
    ran.assert_is(
        rt,
        Status::ReadFault,
        faults,
        [b"", b"", NOT_READ.as_bytes()],
    );
    ran.assert_left(rt, alloc, rest(case.rules, call), case.readings.as_bytes())
}

/// This call on the readings fails. The sinks would fail at once.
fn assert_readings_fail(
    rt: &impl Abort,
    alloc: Global,
    case: &Case,
    call: u64,
) -> Result<(), AllocError> {
    let fails = PerEnd {
        rules: 0,
        readings: call,
        cert: 1,
        out: 1,
        note: 0,
    };
    let mut ran = run_case(alloc, case, fails)?;
    let faults = PerEnd {
        readings: 1,
        ..NONE
    };
    ran.assert_is(
        rt,
        Status::ReadFault,
        faults,
        [b"", b"", NOT_READ.as_bytes()],
    );
    ran.assert_left(rt, alloc, b"", rest(case.readings, call))
}

#[test]
fn a_read_that_fails_writes_nothing(rt: HostRuntime) -> Result<(), Fail> {
    let alloc = rt.alloc();
    for case in CASES {
        let calls = read_calls(case.rules);
        for call in 1..=calls {
            assert_rules_fail(&rt, alloc, &case, call)?;
        }
        let rules = calls.saturating_add(1);
        assert_whole(&rt, alloc, &case, PerEnd { rules, ..NONE })?;
        let calls = read_calls(case.readings);
        for call in 1..=calls {
            assert_readings_fail(&rt, alloc, &case, call)?;
        }
        let readings = calls.saturating_add(1);
        assert_whole(&rt, alloc, &case, PerEnd { readings, ..NONE })?;
    }
    Ok(())
}

/// This call on the certificate's sink fails. The output would fail at once.
fn assert_cert_fails(
    rt: &impl Abort,
    alloc: Global,
    case: &Case,
    call: u64,
) -> Result<(), AllocError> {
    let fails = PerEnd {
        cert: call,
        out: 1,
        ..NONE
    };
    let mut ran = run_case(alloc, case, fails)?;
    let held = [
        front(case.cert.as_bytes(), call),
        b"",
        NOT_WRITTEN.as_bytes(),
    ];
    ran.assert_is(rt, Status::WriteFault, PerEnd { cert: 1, ..NONE }, held);
    ran.assert_left(rt, alloc, b"", b"")
}

/// This call on the output fails.
fn assert_out_fails(
    rt: &impl Abort,
    alloc: Global,
    case: &Case,
    call: u64,
) -> Result<(), AllocError> {
    let mut ran = run_case(alloc, case, PerEnd { out: call, ..NONE })?;
    let cert = case.cert.as_bytes();
    let held = [
        cert,
        front(case.out.as_bytes(), call),
        NOT_WRITTEN.as_bytes(),
    ];
    ran.assert_is(rt, Status::WriteFault, PerEnd { out: 1, ..NONE }, held);
    ran.assert_left(rt, alloc, b"", b"")
}

#[test]
fn a_sink_that_fails_holds_a_front_of_its_text(rt: HostRuntime) -> Result<(), Fail> {
    let alloc = rt.alloc();
    for case in CASES {
        let calls = text_calls(case.cert);
        for call in 1..=calls {
            assert_cert_fails(&rt, alloc, &case, call)?;
        }
        let cert = calls.saturating_add(1);
        assert_whole(&rt, alloc, &case, PerEnd { cert, ..NONE })?;
        let calls = text_calls(case.out);
        for call in 1..=calls {
            assert_out_fails(&rt, alloc, &case, call)?;
        }
        let out = calls.saturating_add(1);
        assert_whole(&rt, alloc, &case, PerEnd { out, ..NONE })?;
    }
    Ok(())
}

/// This call on the note's sink fails.
fn assert_note_fails(
    rt: &impl Abort,
    alloc: Global,
    case: &Case,
    call: u64,
) -> Result<(), AllocError> {
    let mut ran = run_case(alloc, case, PerEnd { note: call, ..NONE })?;
    let note = front(case.note.as_bytes(), call);
    let held = [case.cert.as_bytes(), case.out.as_bytes(), note];
    ran.assert_is(rt, case.status, PerEnd { note: 1, ..NONE }, held);
    ran.assert_left(rt, alloc, b"", b"")
}

/// The readings fail, and then this call on the note's sink.
fn assert_read_unsaid(
    rt: &impl Abort,
    alloc: Global,
    case: &Case,
    call: u64,
) -> Result<(), AllocError> {
    let fails = PerEnd {
        readings: 1,
        note: call,
        ..NONE
    };
    let mut ran = run_case(alloc, case, fails)?;
    let faults = PerEnd {
        readings: 1,
        note: 1,
        ..NONE
    };
    let note = front(NOT_READ.as_bytes(), call);
    ran.assert_is(rt, Status::ReadFault, faults, [b"", b"", note]);
    ran.assert_left(rt, alloc, b"", case.readings.as_bytes())
}

/// The certificate's sink fails, and then this call on the note's.
fn assert_write_unsaid(
    rt: &impl Abort,
    alloc: Global,
    case: &Case,
    call: u64,
) -> Result<(), AllocError> {
    let fails = PerEnd {
        cert: 1,
        note: call,
        ..NONE
    };
    let mut ran = run_case(alloc, case, fails)?;
    let faults = PerEnd {
        cert: 1,
        note: 1,
        ..NONE
    };
    let note = front(NOT_WRITTEN.as_bytes(), call);
    ran.assert_is(rt, Status::WriteFault, faults, [b"", b"", note]);
    ran.assert_left(rt, alloc, b"", b"")
}

#[test]
fn a_note_that_fails_changes_no_status(rt: HostRuntime) -> Result<(), Fail> {
    let alloc = rt.alloc();
    for case in CASES {
        let calls = write_calls(case.note.as_bytes());
        for call in 1..=calls {
            assert_note_fails(&rt, alloc, &case, call)?;
        }
        let note = calls.saturating_add(1);
        assert_whole(&rt, alloc, &case, PerEnd { note, ..NONE })?;
    }
    for call in 1..=write_calls(NOT_READ.as_bytes()) {
        assert_read_unsaid(&rt, alloc, &CASES[0], call)?;
    }
    for call in 1..=write_calls(NOT_WRITTEN.as_bytes()) {
        assert_write_unsaid(&rt, alloc, &CASES[0], call)?;
    }
    Ok(())
}
