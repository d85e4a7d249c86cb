//! Reports of certificates that are accepted. The texts, lengths and checksums that are wanted come from another program.
ghost use Rattle.std.specs.Prelude.{◌≡◌, ◌≤◌, length, IfOk};
ghost use Rattle.bound_maker.specs.Bounds.{made_bounds};
ghost use Rattle.bound_maker.specs.declared.maker.TheConstants.{MOST_BOUNDS};
ghost use Rattle.cert_check.specs.Laws.{IsTrueClaim};

use bound_maker::make;
use cert_check::{Accepted, CertFault, accepted_is_true, check};
use repair_report::report_text;
use rule_file::{Rules, read_rules};
use screen_model::BoundList;
use series_csv::{Table, read_table};
use std::alloc::{AllocError, Global};
use std::test::Fail;

/// What a certificate is accepted as, which is true.
fn accepted_of(
    alloc: Global,
    table: &Table,
    rules: &Rules,
    bounds: &BoundList,
    cert: &[u8],
) -> Result<Accepted, CertFault>
    requires made { bounds.now ≡ made_bounds rules.now table.now }
    requires few { length bounds.now ≤ MOST_BOUNDS }
    ensures { IfOk result (λ accepted. IsTrueClaim rules.now table.now accepted) }
{
    accepted_is_true(table, rules);
    check(alloc, table, rules, bounds, cert)
}

/// The report of a certificate.
fn reported(alloc: Global, rules: &[u8], readings: &[u8], cert: &[u8]) -> Result<Vec<u8>, Fail> {
    let rules = read_rules(alloc, rules)?;
    let table = read_table(alloc, &rules, readings)?;
    let bounds = make(alloc, &table, &rules)?;
    let accepted = accepted_of(alloc, &table, &rules, &bounds, cert)?;
    let text = report_text(alloc, &table, &rules, &accepted)?;
    Ok(text)
}

const SPEED: &str =
    "[format]\ndecimals = 0\n[[speed]]\nsensor = \"x\"\nmin = -1\nmax = 1\nwindow = 10\n";

const TRUSTED: &str =
    "[format]\ndecimals = 0\n[[speed]]\nsensor = \"x\"\nmin = -1\nmax = 1\nwindow = 10\n[[trust]]\nsensor = \"x\"\n";

const TRUSTED_RANGE: &str =
    "[format]\ndecimals = 2\n[[range]]\nsensor = \"x\"\nmax = 50\n[[trust]]\nsensor = \"x\"\n";

const PRICED: &str =
    "[format]\ndecimals = 0\n[[speed]]\nsensor = \"x\"\nmin = -1\nmax = 1\nwindow = 10\nprice = 1\n[[range]]\nsensor = \"x\"\nmax = 1000\nprice = 3\n[[weight]]\nsensor = \"x\"\nweight = 5\n";

const TWO_RANGES: &str =
    "[format]\ndecimals = 0\n[[range]]\nsensor = \"x\"\nmax = 50\n[[range]]\nsensor = \"y\"\nmax = 50\n";

const MILLIONTHS: &str = "[format]\ndecimals = 6\n[[range]]\nsensor = \"x\"\nmax = 50\n";

const WEIGHED: &str =
    "[format]\ndecimals = 2\n[[range]]\nsensor = \"x\"\nmin = \"-0.05\"\nmax = 50\n[[weight]]\nsensor = \"x\"\nweight = 5\n";

const FAR: &str =
    "[format]\ndecimals = 0\n[[range]]\nsensor = \"x\"\nmax = -1000000000000000\n[[weight]]\nsensor = \"x\"\nweight = 1000\n";

const BETWEEN: &str =
    "[format]\ndecimals = 0\n[[between]]\nfirst = \"in\"\nsecond = \"out\"\nmin = 0\nmax = 5\n";

const RANGE: &str = "[format]\ndecimals = 0\n[[range]]\nsensor = \"x\"\nmax = 50\n";

const JUMP: &str = "time,x\n0,0\n1,100\n";

/// Rules, readings, a certificate and its report.
type Case = (&'static str, &'static str, &'static str, &'static str);

const REPAIRS: [Case; 8] = [
    (
        SPEED,
        "time,x\n0,10\n1,11\n2,20\n3,13\n",
        "screen-cert 1\nclaim repair\ntotal 8\nset 3 2 12\nflow 1 2 3 2 up 1\nend\n",
        "claim repair\ntotal 8\ncolumn  readings   changed                    change\n     2         4         1                         8\nchange 3 2 20 12\nflow 1 2 3 2 up 1\n",
    ),
    (
        SPEED,
        "time,x\n0,10\n1,11\n2,12\n",
        "screen-cert 1\nclaim repair\ntotal 0\nend\n",
        "claim repair\ntotal 0\ncolumn  readings   changed                    change\n     2         3         0                         0\n",
    ),
    (
        PRICED,
        JUMP,
        "screen-cert 2\nclaim repair\ntotal 99\npaid 99\nflow 1 1 2 2 up 1\nend\n",
        "claim repair\ntotal 99\npaid 99\ncolumn  readings   changed                    change\n     2         2         0                         0\nrule 1 99\nrule 2 0\nflow 1 1 2 2 up 1\n",
    ),
    (
        TWO_RANGES,
        "time,x,y\n0,10,\n1,NaN,\n2,12,null\n",
        "screen-cert 1\nclaim repair\ntotal 0\nend\n",
        "claim repair\ntotal 0\ncolumn  readings   changed                    change\n     2         2         0                         0\n     3         0         0                         0\n",
    ),
    (
        MILLIONTHS,
        "time,x\n0,70.5\n",
        "screen-cert 1\nclaim repair\ntotal 20500000\nset 1 2 50000000\nflow 1 1 1 2 up 1\nend\n",
        "claim repair\ntotal 20.500000\ncolumn  readings   changed                    change\n     2         1         1                 20.500000\nchange 1 2 70.500000 50.000000\nflow 1 1 1 2 up 1\n",
    ),
    (
        WEIGHED,
        "time,x\n0,70\n1,-0.06\n",
        "screen-cert 1\nclaim repair\ntotal 10005\nset 1 2 5000\nset 2 2 -5\nflow 1 1 1 2 up 5\nflow 1 2 2 2 down 5\nend\n",
        "claim repair\ntotal 100.05\ncolumn  readings   changed                    change\n     2         2         2                    100.05\nchange 1 2 70.00 50.00\nchange 2 2 -0.06 -0.05\nflow 1 1 1 2 up 5\nflow 1 2 2 2 down 5\n",
    ),
    (
        FAR,
        "time,x\n0,1000000000000000\n",
        "screen-cert 1\nclaim repair\ntotal 2000000000000000000\nset 1 2 -1000000000000000\nflow 1 1 1 2 up 1000\nend\n",
        "claim repair\ntotal 2000000000000000000\ncolumn  readings   changed                    change\n     2         1         1       2000000000000000000\nchange 1 2 1000000000000000 -1000000000000000\nflow 1 1 1 2 up 1000\n",
    ),
    (
        BETWEEN,
        "time,in,note,out\n0,10,a,20\n1,,b,3\n",
        "screen-cert 1\nclaim repair\ntotal 5\nset 1 2 15\nflow 1 1 1 2 up 1\nend\n",
        "claim repair\ntotal 5\ncolumn  readings   changed                    change\n     2         1         1                         5\n     4         2         0                         0\nchange 1 2 10 15\nflow 1 1 1 2 up 1\n",
    ),
];

const CYCLES: [Case; 3] = [
    (
        TRUSTED,
        JUMP,
        "screen-cert 1\nclaim none\nstep 2 1 1 2 up\nstep 1 1 2 2 up\nstep 2 2 2 2 down\nend\n",
        "claim none\nstep 2 1 1 2 up 0\nstep 1 1 2 2 up 1\nstep 2 2 2 2 down -100\nsum -99\n",
    ),
    (
        TRUSTED,
        JUMP,
        "screen-cert 1\nclaim none\nstep 1 1 2 2 up\nstep 2 2 2 2 down\nstep 2 1 1 2 up\nend\n",
        "claim none\nstep 1 1 2 2 up 1\nstep 2 2 2 2 down -100\nstep 2 1 1 2 up 0\nsum -99\n",
    ),
    (
        TRUSTED_RANGE,
        "time,x\n0,70\n",
        "screen-cert 1\nclaim none\nstep 1 1 1 2 up\nstep 2 1 1 2 down\nend\n",
        "claim none\nstep 1 1 1 2 up 50.00\nstep 2 1 1 2 down -70.00\nsum -20.00\n",
    ),
];

#[test]
fn repairs_and_their_reports(rt: HostRuntime) -> Result<(), Fail> {
    for (rules, readings, cert, wanted) in REPAIRS {
        let text = reported(
            rt.alloc(),
            rules.as_bytes(),
            readings.as_bytes(),
            cert.as_bytes(),
        )?;
        assert_eq!(rt; text.as_slice(), wanted.as_bytes());
    }
    Ok(())
}

#[test]
fn cycles_and_their_reports(rt: HostRuntime) -> Result<(), Fail> {
    for (rules, readings, cert, wanted) in CYCLES {
        let text = reported(
            rt.alloc(),
            rules.as_bytes(),
            readings.as_bytes(),
            cert.as_bytes(),
        )?;
        assert_eq!(rt; text.as_slice(), wanted.as_bytes());
    }
    Ok(())
}

/// Readings that are all too great, in so many rows.
fn great_readings(alloc: Global, rows: u32) -> Result<Vec<u8>, AllocError> {
    let mut text = b"time,x\n".to_vec(alloc)?;
    for time in 0..rows {
        let line = format!(in alloc; "{time},70\n")?;
        text.extend_from_slice(line.as_bytes())?;
    }
    Ok(text)
}

/// The certificate of their repair.
fn great_cert(alloc: Global, rows: u32) -> Result<Vec<u8>, AllocError> {
    let mut text = b"screen-cert 1\nclaim repair\ntotal 400000\n".to_vec(alloc)?;
    for before in 0..rows {
        let row = before.wrapping_add(1);
        let line = format!(in alloc; "set {row} 2 50\n")?;
        text.extend_from_slice(line.as_bytes())?;
    }
    for before in 0..rows {
        let row = before.wrapping_add(1);
        let line = format!(in alloc; "flow 1 {row} {row} 2 up 1\n")?;
        text.extend_from_slice(line.as_bytes())?;
    }
    text.extend_from_slice(b"end\n")?;
    Ok(text)
}

#[test]
fn many_changes(rt: HostRuntime) -> Result<(), Fail> {
    let readings = great_readings(rt.alloc(), 20_000)?;
    let cert = great_cert(rt.alloc(), 20_000)?;
    let text = reported(
        rt.alloc(),
        RANGE.as_bytes(),
        readings.as_slice(),
        cert.as_slice(),
    )?;
    assert_eq!(rt; text.len(), 906_814);
    assert_eq!(rt; checksum(text.as_slice()), 2_207_892_654);
    Ok(())
}

/// Rules for the sensors in the columns from 2 to 256.
fn wide_rules(alloc: Global) -> Result<Vec<u8>, AllocError> {
    let mut text = b"[format]\ndecimals = 0\n".to_vec(alloc)?;
    for col in 2..257u32 {
        let table = format!(in alloc; "[[range]]\nsensor = \"c{col}\"\nmin = 0\nmax = 9\n")?;
        text.extend_from_slice(table.as_bytes())?;
    }
    Ok(text)
}

/// A row of readings in these columns, after the header.
fn wide_readings(alloc: Global) -> Result<Vec<u8>, AllocError> {
    let mut text = b"time".to_vec(alloc)?;
    for col in 2..257u32 {
        let name = format!(in alloc; ",c{col}")?;
        text.extend_from_slice(name.as_bytes())?;
    }
    text.extend_from_slice(b"\n0")?;
    for _ in 2..257u32 {
        text.extend_from_slice(b",1")?;
    }
    text.push(b'\n')?;
    Ok(text)
}

#[test]
fn all_columns(rt: HostRuntime) -> Result<(), Fail> {
    let rules = wide_rules(rt.alloc())?;
    let readings = wide_readings(rt.alloc())?;
    let cert = b"screen-cert 1\nclaim repair\ntotal 0\nend\n";
    let text = reported(
        rt.alloc(),
        rules.as_slice(),
        readings.as_slice(),
        cert.as_slice(),
    )?;
    assert_eq!(rt; text.len(), 13_589);
    assert_eq!(rt; checksum(text.as_slice()), 226_434_955);
    Ok(())
}

fn checksum(bytes: &[u8]) -> u32 {
    let mut sum: u32 = 0;
    for byte in bytes {
        sum = sum.wrapping_mul(31).wrapping_add(u32::from(*byte));
    }
    sum
}
