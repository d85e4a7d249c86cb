//! Files with more line feeds than rows, and texts with more digits than the file: the room that is taken by a file's size
//! makes no difference to what is read and written.

ghost use Rattle.std.specs.Prelude.{IfOk};
ghost use Rattle.series_csv.specs.ReadBack.{IsSeriesOf};

use crate::series_csv_tests::{BASE, THREE, accepted, refused, tall};
use rule_file::{Rules, read_rules};
use screen_model::Series;
use series_csv::TableCause::NoHeader;
use series_csv::{Table, read_table, table_text};
use std::alloc::{AllocError, Global};
use std::process::Abort;
use std::test::Fail;

/// Files, and how they are written again.
const FILES: [(&'static str, &'static str); 9] = [
    ("time,x", "time,x\n"),
    ("time,x\n", "time,x\n"),
    ("time,x\r\n", "time,x\n"),
    ("\n\n\n\n\ntime,x\n\n\n0,1\n\n\n\n", "time,x\n0,1\n"),
    ("time,x\n0,1\n1,2", "time,x\n0,1\n1,2\n"),
    ("time,x\r\n0,1\r\n\r\n1,2\r\n", "time,x\n0,1\n1,2\n"),
    ("\"\n\n\",x\n0,1\n", "\"\n\n\",x\n0,1\n"),
    (
        "time,x,\"\n\"\n0,1,\"\n\n\n\n\"\n",
        "time,x,\"\n\"\n0,1,\"\n\n\n\n\"\n",
    ),
    ("time,x,n\n0,1,a\rb", "time,x,n\n0,1,\"a\rb\"\n"),
];

/// These bytes and then so many line feeds.
fn with_lines(alloc: Global, bytes: &[u8], lines: u32) -> Result<Vec<u8>, Fail> {
    let mut file = Vec::from_slice(alloc, bytes)?;
    for _ in 0..lines {
        file.push(b'\n')?;
    }
    Ok(file)
}

#[test]
fn line_feeds_are_not_rows(rt: HostRuntime) -> Result<(), Fail> {
    let alloc = rt.alloc();
    let rules = read_rules(alloc, BASE.as_bytes())?;
    for (file, text) in FILES {
        accepted(&rt, alloc, &rules, file.as_bytes(), text.as_bytes())?;
    }
    // About the size of the pieces in which they are counted, and many of them.
    for lines in [0, 1, 191, 192, 193, 384, 385, 1_000_000] {
        let none = with_lines(alloc, b"", lines)?;
        refused(&rt, alloc, &rules, none.as_slice(), NoHeader, 0, 0);
        let file = with_lines(alloc, b"time,x\n0,1", lines)?;
        accepted(&rt, alloc, &rules, file.as_slice(), b"time,x\n0,1\n")?;
    }
    let three = read_rules(alloc, THREE.as_bytes())?;
    let file = with_lines(alloc, b"t,a,b,c", 1_000_000)?;
    accepted(&rt, alloc, &three, file.as_slice(), b"t,a,b,c\n")?;
    let quoted = tall(alloc, b"t,a,b,c,n\n", 20_000, b",1,,3,\"\n\n\n\"\n")?;
    accepted(&rt, alloc, &three, quoted.as_slice(), quoted.as_slice())
}

/// A series that gives each reading of a table this value.
fn all_of(alloc: Global, table: &Table, value: i32) -> Result<Series, AllocError>
    ensures { IfOk result (IsSeriesOf table.now) }
{
    let mut series = Series::new(alloc);
    for _ in 0..table.len() {
        series.push(i64::from(value))?;
    }
    Ok(series)
}

/// How many decimals there are, and the text of -123456789 units, between the separator and the line feed.
const TEXTS: [(u8, &'static str); 4] = [
    (0, ",-123456789\n"),
    (1, ",-12345678.9\n"),
    (4, ",-12345.6789\n"),
    (6, ",-123.456789\n"),
];

/// Rules with so many decimals.
fn with_decimals(alloc: Global, decimals: u8) -> Result<Rules, Fail> {
    let text = format!(in alloc;
        "[format]\ndecimals = {decimals}\n[[range]]\nsensor = \"x\"\nmin = 0\n"
    )?;
    Ok(read_rules(alloc, text.as_bytes())?)
}

/// The text of the file's table with -123456789 units for each reading.
fn longer(alloc: Global, rules: &Rules, file: &[u8]) -> Result<Vec<u8>, Fail> {
    let table = read_table(alloc, rules, file)?;
    let series = all_of(alloc, &table, -123_456_789)?;
    Ok(table_text(alloc, rules, &table, &series)?)
}

/// So many readings of 0 are written with these bytes for each.
fn check_longer(
    rt: &impl Abort,
    alloc: Global,
    rules: &Rules,
    readings: u32,
    bytes: &[u8],
) -> Result<(), Fail> {
    let file = tall(alloc, b"t,x\n", readings, b",0\n")?;
    let written = longer(alloc, rules, file.as_slice())?;
    let wanted = tall(alloc, b"t,x\n", readings, bytes)?;
    assert_eq!(rt; written.as_slice(), wanted.as_slice());
    Ok(())
}

#[test]
fn readings_may_gain_digits(rt: HostRuntime) -> Result<(), Fail> {
    let alloc = rt.alloc();
    for (decimals, text) in TEXTS {
        let rules = with_decimals(alloc, decimals)?;
        check_longer(&rt, alloc, &rules, 0, text.as_bytes())?;
        check_longer(&rt, alloc, &rules, 1, text.as_bytes())?;
        check_longer(&rt, alloc, &rules, 20_000, text.as_bytes())?;
    }
    Ok(())
}
