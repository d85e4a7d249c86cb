//! Certificates that are read, written and refused.
use cert_format::{
    Cert, CertRead, LONGEST, Line, SetLine, Version, an_answer, one_answer, one_spelling,
    push_line, read_cert, round_trip, short_texts, write_cert,
};
use screen_model::{BoundName, FlowItem, Place, Side};
use std::alloc::{AllocError, Global};
use std::test::Fail;

/// A repair that changes nothing.
const UNCHANGED: &[u8] = b"screen-cert 1\nclaim repair\ntotal 0\nend\n";

/// A repair of one reading.
const ONE_CHANGE: &[u8] =
    b"screen-cert 1\nclaim repair\ntotal 8\nset 3 2 12\nflow 1 2 3 2 up 1\nend\n";

/// A repair that pays for a broken bound.
const PRICED: &[u8] = b"screen-cert 2\nclaim repair\ntotal 99\npaid 99\nflow 1 1 2 2 up 1\nend\n";

/// A cycle of three bounds.
const CYCLE: &[u8] =
    b"screen-cert 1\nclaim none\nstep 2 1 1 2 up\nstep 1 1 2 2 up\nstep 2 2 2 2 down\nend\n";

/// What a text that is not too long is read as.
fn read(alloc: Global, text: &[u8]) -> Result<Cert, CertRead> {
    if text.len() > LONGEST {
        return Err(CertRead::Memory);
    }
    read_cert(alloc, text)
}

/// The text of the certificate that a text is read as.
fn rewritten(alloc: Global, text: &[u8]) -> Result<Vec<u8>, CertRead> {
    if text.len() > LONGEST {
        return Err(CertRead::Memory);
    }
    let cert = read_cert(alloc, text)?;
    Ok(write_cert(alloc, &cert)?)
}

/// The line at which a text is refused, and 0 where it is not.
fn refused_line(alloc: Global, text: &[u8]) -> u32 {
    match read(alloc, text) {
        Ok(_) | Err(CertRead::Memory) => 0,
        Err(CertRead::Syntax { line }) => line,
    }
}

/// Whether each of the lines is refused after this front, and with this number.
fn are_refused(alloc: Global, front: &[u8], lines: &str, number: u32) -> Result<bool, AllocError> {
    for line in lines.lines() {
        let mut text = Vec::from_slice(alloc, front)?;
        text.extend_from_slice(line.as_bytes())?;
        text.extend_from_slice(b"\n")?;
        if refused_line(alloc, &text) != number {
            return Ok(false);
        }
    }
    Ok(true)
}

/// The name of a bound in column 2.
fn name(rule: u32, from_row: u32, to_row: u32, side: Side) -> BoundName {
    BoundName {
        rule,
        from_row,
        to_row,
        col: 2,
        side,
    }
}

#[test]
fn a_repair_has_its_parts(rt: HostRuntime) -> Result<(), Fail> {
    let Cert::Repair { total, sets, flow } = read(rt.alloc(), ONE_CHANGE)? else {
        return Err(Fail::new("no repair"));
    };
    assert_eq!(rt; total, 8);
    let set = SetLine {
        place: Place { row: 3, col: 2 },
        value: 12,
    };
    assert_eq!(rt; sets.as_slice(), [set].as_slice());
    let item = FlowItem {
        name: name(1, 2, 3, Side::Up),
        amount: 1,
    };
    assert_eq!(rt; flow.as_slice(), [item].as_slice());
    Ok(())
}

#[test]
fn a_priced_repair_and_a_cycle_have_their_parts(rt: HostRuntime) -> Result<(), Fail> {
    let Cert::Priced {
        total,
        paid,
        sets,
        ..
    } = read(rt.alloc(), PRICED)?
    else {
        return Err(Fail::new("no priced repair"));
    };
    assert_eq!(rt; (total, paid), (99, 99));
    assert!(rt; sets.is_empty());
    let Cert::NoSeries { steps } = read(rt.alloc(), CYCLE)? else {
        return Err(Fail::new("no cycle"));
    };
    let names = [
        name(2, 1, 1, Side::Up),
        name(1, 1, 2, Side::Up),
        name(2, 2, 2, Side::Down),
    ];
    assert_eq!(rt; steps.as_slice(), names.as_slice());
    Ok(())
}

/// Each form without lists and with them, and the least and the greatest numbers.
#[test]
fn each_form_is_written_as_it_was_read(rt: HostRuntime) -> Result<(), Fail> {
    let texts = [
        UNCHANGED,
        ONE_CHANGE,
        PRICED,
        CYCLE,
        b"screen-cert 1\nclaim repair\ntotal 99\nflow 1 1 2 2 up 1\nend\n",
        b"screen-cert 2\nclaim repair\ntotal 0\npaid 0\nend\n",
        b"screen-cert 1\nclaim repair\ntotal 999999999999999999999999999999\nset 1 1 0\nset 200000 256 -999999999999999999\nend\n",
        b"screen-cert 2\nclaim repair\ntotal 1\npaid 999999999999999999999999999999\nset 1 2 -1\nflow 0 1 1 1 up 1\nflow 1000 200000 200000 256 down 1000000000000000\nend\n",
        b"screen-cert 1\nclaim repair\ntotal 5\nset 1 3 1\nset 1 4 1\nset 2 2 1\nend\n",
        b"screen-cert 1\nclaim repair\ntotal 5\nflow 0 9 9 9 down 9\nflow 1 1 9 9 down 9\nflow 1 2 2 9 down 9\nflow 1 2 3 3 down 9\nflow 1 2 3 4 up 9\nflow 1 2 3 4 down 9\nend\n",
        b"screen-cert 1\nclaim none\nstep 1 1 2 2 up\nend\n",
        b"screen-cert 1\nclaim none\nstep 1 1 2 2 up\nstep 1 1 2 2 down\nend\n",
        b"screen-cert 1\nclaim none\nstep 1000 200000 200000 256 down\nstep 0 1 1 1 up\nstep 0 1 1 1 up\nend\n",
    ];
    for text in texts {
        let written = rewritten(rt.alloc(), text)?;
        assert_eq!(rt; written.as_slice(), text);
    }
    Ok(())
}

/// Long lists of each kind, and the number of a wrong line after them.
#[test]
fn many_lines_are_read_and_written(rt: HostRuntime) -> Result<(), Fail> {
    let mut repair = Vec::from_slice(
        rt.alloc(),
        b"screen-cert 2\nclaim repair\ntotal 1\npaid 1\n",
    )?;
    let mut cycle = Vec::from_slice(rt.alloc(), b"screen-cert 1\nclaim none\n")?;
    for row in 1..30_001u32 {
        let line = format!(in rt.alloc(); "set {row} 2 -{row}\n")?;
        repair.extend_from_slice(line.as_bytes())?;
    }
    for row in 1..30_001u32 {
        let line = format!(in rt.alloc(); "flow 7 {row} {row} 2 down {row}\n")?;
        repair.extend_from_slice(line.as_bytes())?;
        let line = format!(in rt.alloc(); "step 7 {row} {row} 2 down\n")?;
        cycle.extend_from_slice(line.as_bytes())?;
    }
    assert_eq!(rt; refused_line(rt.alloc(), &repair), 60_005);
    assert_eq!(rt; refused_line(rt.alloc(), &cycle), 30_003);
    repair.extend_from_slice(b"end\n")?;
    cycle.extend_from_slice(b"end\n")?;
    let written = rewritten(rt.alloc(), &repair)?;
    assert_eq!(rt; written.as_slice(), repair.as_slice());
    let written = rewritten(rt.alloc(), &cycle)?;
    assert_eq!(rt; written.as_slice(), cycle.as_slice());
    Ok(())
}

/// Texts that end too early, go on too long, or have other line breaks.
#[test]
fn the_ends_of_texts_are_refused_at_their_lines(rt: HostRuntime) {
    let texts = [
        (b"".as_slice(), 1),
        (b"\n", 1),
        (b"screen-cert 1", 1),
        (b"screen-cert 1\r\nclaim none\r\n", 1),
        (b"screen-cert 1\n", 2),
        (b"screen-cert 1\nclaim none\nstep 1 1 2 2 up\n", 4),
        (
            b"screen-cert 1\nclaim repair\ntotal 8\nset 3 2 12\nflow 1 2 3 2 up 1\n",
            6,
        ),
        (
            b"screen-cert 1\nclaim repair\ntotal 8\nset 3 2 12\nflow 1 2 3 2 up 1\nend",
            6,
        ),
        (
            b"screen-cert 1\nclaim repair\ntotal 8\nset 3 2 12\nflow 1 2 3 2 up 1\nend\n ",
            7,
        ),
        (
            b"screen-cert 1\nclaim repair\ntotal 8\nset 3 2 12\nflow 1 2 3 2 up 1\nend\n\n",
            7,
        ),
        (b"screen-cert 1\nclaim repair\ntotal 0\nend\nend\n", 5),
    ];
    for (text, line) in texts {
        assert_eq!(rt; refused_line(rt.alloc(), text), line);
    }
}

/// Lines that may not come next where they stand.
#[test]
fn lines_in_the_wrong_place_are_refused(rt: HostRuntime) -> Result<(), Fail> {
    let alloc = rt.alloc();
    let headers =
        "screen-cert 3\nscreen-cert 01\nscreen-cert  1\n screen-cert 1\nscreen-cert 1 \nScreen-cert 1\nclaim none\nend";
    assert!(rt; are_refused(alloc, b"", headers, 1)?);
    let claims = "claim\nclaim all\nclaim repair \nscreen-cert 1\ntotal 0";
    assert!(rt; are_refused(alloc, b"screen-cert 1\n", claims, 2)?);
    assert!(rt; are_refused(alloc, b"screen-cert 2\n", "claim none", 2)?);
    let no_steps = "end\ntotal 0\nset 1 2 3\nflow 1 1 2 2 up 1";
    assert!(rt; are_refused(alloc, b"screen-cert 1\nclaim none\n", no_steps, 3)?);
    let no_total = "end\npaid 0\nset 1 2 3\nstep 1 1 2 2 up";
    assert!(rt; are_refused(alloc, b"screen-cert 1\nclaim repair\n", no_total, 3)?);
    let no_paid = "end\ntotal 0\nset 1 2 3\npaid 00\npaid 1000000000000000000000000000000";
    assert!(rt; are_refused(alloc, b"screen-cert 2\nclaim repair\ntotal 0\n", no_paid, 4)?);
    let no_list = "paid 0\ntotal 0\nstep 1 1 2 2 up\nclaim repair\n\nend \nends";
    assert!(rt; are_refused(alloc, b"screen-cert 1\nclaim repair\ntotal 0\n", no_list, 4)?);
    assert!(rt; are_refused(alloc, UNCHANGED, "end", 5)?);
    Ok(())
}

/// Numbers with another spelling or beyond their limits.
#[test]
fn wrong_numbers_are_refused(rt: HostRuntime) -> Result<(), Fail> {
    let alloc = rt.alloc();
    let front = b"screen-cert 1\nclaim repair\n";
    let totals =
        "total\ntotal \ntotal 08\ntotal -1\ntotal -0\ntotal +1\ntotal  1\ntotal 1 \ntotal 1 2\ntotal 1.5\ntotal 1000000000000000000000000000000";
    assert!(rt; are_refused(alloc, front, totals, 3)?);
    let front = b"screen-cert 1\nclaim repair\ntotal 0\n";
    let sets =
        "set 0 2 1\nset 200001 2 1\nset 1 0 1\nset 1 257 1\nset 1 2 -0\nset 1 2 -\nset 1 2 --1\nset 1 2 1000000000000000000\nset 1 2 -1000000000000000000\nset 1 2\nset 1 2 3 4\nset 01 2 3\nset 1 2 03\nset 1  2 3\nset +1 2 3\nset 99999999999999999999 2 3\nset\t1 2 3";
    assert!(rt; are_refused(alloc, front, sets, 4)?);
    let flows =
        "flow 1001 1 2 2 up 1\nflow 1 0 2 2 up 1\nflow 1 200001 2 2 up 1\nflow 1 1 0 2 up 1\nflow 1 1 200001 2 up 1\nflow 1 1 2 0 up 1\nflow 1 1 2 257 up 1\nflow 1 1 2 2 Up 1\nflow 1 1 2 2 side 1\nflow 1 1 2 2 up 0\nflow 1 1 2 2 up -1\nflow 1 1 2 2 up 1000000000000001\nflow 1 1 2 2 up\nflow 1 1 2 2 up1\nflow 1 1 2 2  1\nflow 1 1 2 2 up 1 1\nflow 00 1 2 2 up 1";
    assert!(rt; are_refused(alloc, front, flows, 4)?);
    let steps =
        "step 1001 1 2 2 up\nstep 1 0 2 2 up\nstep 1 1 200001 2 up\nstep 1 1 2 257 up\nstep 1 1 2 2\nstep 1 1 2 2 up 1\nstep 1 1 2 2 upp";
    assert!(rt; are_refused(alloc, b"screen-cert 1\nclaim none\n", steps, 3)?);
    let amount = b"screen-cert 1\nclaim repair\ntotal 8\nset 3 2 12\n";
    assert!(rt; are_refused(alloc, amount, "flow 1 2 3 2 up 1000000000000001", 5)?);
    Ok(())
}

/// Lines that are equal to the one before, or come before it in their order.
#[test]
fn lines_that_do_not_rise_are_refused(rt: HostRuntime) -> Result<(), Fail> {
    let alloc = rt.alloc();
    let set = b"screen-cert 1\nclaim repair\ntotal 0\nset 3 3 12\n";
    assert!(rt;
        are_refused(
            alloc,
            set,
            "set 3 3 12\nset 3 3 13\nset 3 2 12\nset 2 9 12",
            5
        )?
    );
    let flow = b"screen-cert 2\nclaim repair\ntotal 0\npaid 0\nflow 3 3 3 3 down 1\n";
    let flows =
        "flow 3 3 3 3 down 1\nflow 3 3 3 3 down 2\nflow 3 3 3 3 up 1\nflow 3 3 3 2 down 1\nflow 3 3 2 9 down 1\nflow 3 2 9 9 down 1\nflow 2 9 9 9 down 1\nset 9 9 9";
    assert!(rt; are_refused(alloc, flow, flows, 6)?);
    Ok(())
}

#[test]
fn lines_are_written_alone(rt: HostRuntime) -> Result<(), Fail> {
    let bound = name(1, 2, 3, Side::Down);
    let mut text = Vec::new(rt.alloc());
    push_line(&mut text, Line::Header(Version::Two))?;
    push_line(&mut text, Line::Step(bound))?;
    let item = FlowItem {
        name: bound,
        amount: -5,
    };
    push_line(&mut text, Line::Flow(item))?;
    push_line(&mut text, Line::Paid(-1))?;
    push_line(&mut text, Line::End)?;
    assert_eq!(rt;
        text.as_slice(),
        b"screen-cert 2step 1 2 3 2 downflow 1 2 3 2 down -5paid -1end".as_slice()
    );
    Ok(())
}

/// Laws can be called from programs as they are from proofs.
#[test]
fn laws_are_called() {
    one_answer();
    an_answer();
    one_spelling();
    round_trip();
    short_texts();
}
