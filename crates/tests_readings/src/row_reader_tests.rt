//! Readers that are fed byte by byte and by slices, and files of every class.
ghost use Rattle.series_csv.specs.StandsFor.{HasEnded};

use crate::series_csv_tests::{BASE, THREE, TWO, accepted, refused, tall};
use fix_point::NumFault;
use record_cut::Fields;
use rule_file::{Rules, read_rules};
use series_csv::TableCause::{TimeNotRising, TooManyReadings, Value};
use series_csv::{Event, Header, Limits, Row, RowReader, TableFault, read_table};
use std::alloc::Global;
use std::process::Abort;
use std::test::Fail;

/// Adds a line for the header or the row.
fn show(alloc: Global, seen: &mut Vec<u8>, event: &Event) -> Result<(), Fail> {
    match event {
        Event::Header(header) => show_header(alloc, seen, header),
        Event::Row(row) => show_row(alloc, seen, row),
    }
}

/// Adds a line for the header: its time column and its fields in brackets.
fn show_header(alloc: Global, seen: &mut Vec<u8>, header: &Header) -> Result<(), Fail> {
    seen.extend_from_slice(format!(in alloc; "{}", header.time_col())?.as_bytes())?;
    show_fields(seen, header.fields())
}

/// Adds a line for the row: its time, its readings, and its fields in brackets.
fn show_row(alloc: Global, seen: &mut Vec<u8>, row: &Row) -> Result<(), Fail> {
    let first = format!(in alloc; "{} {:?}", row.ticks(), row.readings())?;
    seen.extend_from_slice(first.as_bytes())?;
    show_fields(seen, row.fields())
}

/// Adds the fields in brackets, and a line feed.
fn show_fields(seen: &mut Vec<u8>, fields: &Fields) -> Result<(), Fail> {
    for i in 0..fields.width() {
        seen.extend_from_slice(b"[")?;
        seen.extend_from_slice(fields.field(i).unwrap_or(b"?"))?;
        seen.extend_from_slice(b"]")?;
    }
    seen.push(b'\n')?;
    Ok(())
}

/// Feeds the bytes one at a time and tells the end; what came out, and the refusal.
fn by_bytes(
    rt: &impl Abort,
    alloc: Global,
    rules: &Rules,
    limits: Limits,
    bytes: &[u8],
) -> Result<(Vec<u8>, Option<TableFault>), Fail> {
    let mut seen = Vec::new(alloc);
    let mut reader = RowReader::new(alloc, rules, limits);
    for byte in bytes {
        match reader.feed(*byte) {
            Ok(None) => {}
            Ok(Some(event)) => show(alloc, &mut seen, &event)?,
            Err(fault) => {
                assert!(rt; reader.feed(b'1').err() == Some(fault));
                assert!(rt; reader.feed_slice(b"1").answer.err() == Some(fault));
                assert!(rt; reader.finish().err() == Some(fault));
                return Ok((seen, Some(fault)));
            }
        }
    }
    let fault = ended(alloc, &mut reader, &mut seen)?;
    Ok((seen, fault))
}

/// Tells the end of the file.
fn ended(
    alloc: Global,
    reader: &mut RowReader,
    seen: &mut Vec<u8>,
) -> Result<Option<TableFault>, Fail>
    requires { ¬ HasEnded reader.old }
{
    match reader.finish() {
        Ok(None) => Ok(None),
        Ok(Some(event)) => {
            show(alloc, seen, &event)?;
            Ok(None)
        }
        Err(fault) => Ok(Some(fault)),
    }
}

/// Feeds a slice, record by record.
fn feed_slice(
    alloc: Global,
    reader: &mut RowReader,
    seen: &mut Vec<u8>,
    piece: &[u8],
) -> Result<Option<TableFault>, Fail>
    requires { ¬ HasEnded reader.old }
    ensures { ¬ HasEnded reader.new }
{
    let mut rest = piece;
    for _ in 0..=piece.len() {
        let taken = reader.feed_slice(rest);
        rest = &rest[taken.count..];
        match taken.answer {
            Ok(None) => return Ok(None),
            Ok(Some(event)) => show(alloc, seen, &event)?,
            Err(fault) => return Ok(Some(fault)),
        }
    }
    Ok(None)
}

/// Feeds two slices and tells the end; what came out, and the refusal.
fn by_slices(
    alloc: Global,
    rules: &Rules,
    first: &[u8],
    second: &[u8],
) -> Result<(Vec<u8>, Option<TableFault>), Fail> {
    let mut seen = Vec::new(alloc);
    let mut reader = RowReader::new(alloc, rules, Limits::Endless);
    if let Some(fault) = feed_slice(alloc, &mut reader, &mut seen, first)? {
        return Ok((seen, Some(fault)));
    }
    if let Some(fault) = feed_slice(alloc, &mut reader, &mut seen, second)? {
        return Ok((seen, Some(fault)));
    }
    let fault = ended(alloc, &mut reader, &mut seen)?;
    Ok((seen, fault))
}

/// Reads the file whole; the same lines, where it is not refused, and the refusal.
fn by_table(
    alloc: Global,
    rules: &Rules,
    bytes: &[u8],
) -> Result<(Vec<u8>, Option<TableFault>), Fail> {
    let mut seen = Vec::new(alloc);
    match read_table(alloc, rules, bytes) {
        Ok(table) => {
            show_header(alloc, &mut seen, table.header())?;
            for row in table.all_rows() {
                show_row(alloc, &mut seen, row)?;
            }
            Ok((seen, None))
        }
        Err(fault) => Ok((seen, Some(fault))),
    }
}

/// One byte at a time the file gives the same lines and the same refusal as whole; these.
fn same_by_bytes(
    rt: &impl Abort,
    alloc: Global,
    rules: &Rules,
    limits: Limits,
    bytes: &[u8],
) -> Result<(Vec<u8>, Option<TableFault>), Fail> {
    let (seen, fault) = by_bytes(rt, alloc, rules, limits, bytes)?;
    let (lines, refusal) = by_table(alloc, rules, bytes)?;
    assert_eq!(rt; fault, refusal);
    assert!(rt; refusal.is_some() || lines.as_slice() == seen.as_slice());
    Ok((seen, fault))
}

/// Whole, one byte at a time, and by slices cut at each place, the file gives the same lines and the same refusal.
fn cut_anywhere(rt: &impl Abort, alloc: Global, rules: &Rules, bytes: &[u8]) -> Result<(), Fail> {
    let (seen, fault) = same_by_bytes(rt, alloc, rules, Limits::Endless, bytes)?;
    for at in 0..=bytes.len() {
        let (first, second) = bytes.split_at(at);
        let (other, found) = by_slices(alloc, rules, first, second)?;
        assert_eq!(rt; seen.as_slice(), other.as_slice());
        assert_eq!(rt; fault, found);
    }
    Ok(())
}

const CUT_OF_ONE_SENSOR: [&str; 5] = [
    "",
    "\u{feff}time,x,note\r\n\r\n0,10,\"a,\n\"\"b\"\r\n1,,\n2,3,",
    "time,x\n0,10\n1,\"11",
    "time,x\n0,10\n0,11\n1,2\n",
    "time,y\n0,10\n",
];

const CUT_OF_TWO_SENSORS: [&str; 1] = ["in;at;out\n1;0;2\n1;1;x\n1;2;2\n"];

fn cut_all(rt: &impl Abort, alloc: Global, rules: &str, files: &[&str]) -> Result<(), Fail> {
    let rules = read_rules(alloc, rules.as_bytes())?;
    for file in files {
        cut_anywhere(rt, alloc, &rules, file.as_bytes())?;
    }
    Ok(())
}

#[test]
fn pieces_do_not_matter(rt: HostRuntime) -> Result<(), Fail> {
    cut_all(&rt, rt.alloc(), BASE, &CUT_OF_ONE_SENSOR)?;
    cut_all(&rt, rt.alloc(), TWO, &CUT_OF_TWO_SENSORS)
}

/// A file, the lines of what comes of it, and the refusal.
type Events = (&'static str, &'static str, Option<TableFault>);

const FROM_BYTES: [Events; 3] = [
    (
        "time,x\n0,1\n2,",
        "1[time][x]\n0 [RowReading { col: 2, value: 1 }][0][1]\n2000000000 [][2][]\n",
        None,
    ),
    (
        "time,x\n0,1\n0,2\n3,4\n",
        "1[time][x]\n0 [RowReading { col: 2, value: 1 }][0][1]\n",
        Some(TableFault {
            cause: TimeNotRising,
            row: 2,
            col: 1,
        }),
    ),
    (
        "time,x\n0,1\n1,a",
        "1[time][x]\n0 [RowReading { col: 2, value: 1 }][0][1]\n",
        Some(TableFault {
            cause: Value(NumFault::NotNumber),
            row: 2,
            col: 2,
        }),
    ),
];

#[test]
fn headers_and_rows_come_in_order(rt: HostRuntime) -> Result<(), Fail> {
    let base = read_rules(rt.alloc(), BASE.as_bytes())?;
    for case in &FROM_BYTES {
        let (file, lines, refusal) = *case;
        let (seen, fault) = by_bytes(&rt, rt.alloc(), &base, Limits::Endless, file.as_bytes())?;
        assert_eq!(rt; seen.as_slice(), lines.as_bytes());
        assert_eq!(rt; fault, refusal);
    }
    Ok(())
}

#[test]
fn a_stream_may_be_longer_than_a_table(rt: HostRuntime) -> Result<(), Fail> {
    let alloc = rt.alloc();
    let three = read_rules(alloc, THREE.as_bytes())?;
    let rows = tall(alloc, b"t,a,b,c\n", 200_001, b",1,2,3\n")?;
    let (seen, fault) = by_slices(alloc, &three, rows.as_slice(), b"")?;
    assert_eq!(rt; fault, None);
    assert!(rt; seen.as_slice().ends_with(b"[200000][1][2][3]\n"));
    refused(
        &rt,
        alloc,
        &three,
        rows.as_slice(),
        TooManyReadings,
        133_334,
        0,
    );
    Ok(())
}

/// The rules of one sensor with these lines of the format.
fn with_format(alloc: Global, lines: &str) -> Result<Rules, Fail> {
    let text = format!(in alloc; "[format]\n{lines}[[range]]\nsensor = \"x\"\nmax = 9\n")?;
    Ok(read_rules(alloc, text.as_bytes())?)
}

/// A separator's word in the rules, and itself.
type Separator = (&'static str, &'static str);

/// A form's word in the rules, and two times of it.
type Form = (&'static str, &'static str, &'static str);

/// A number of decimals, a value with as many, and one that is rounded to it.
type Decimals = (u8, &'static str, &'static str);

const SEPARATORS: [Separator; 4] = [(",", ","), (";", ";"), ("\\t", "\t"), ("|", "|")];

const FORMS: [Form; 6] = [
    ("s", "1.5", "2"),
    ("ms", "1500", "2e3"),
    ("us", "1500000", "2000000.5"),
    ("ns", "1500000000", "+2000000000"),
    ("instant", "2024-05-01T00:00:00Z", "2024-05-01T00:00:01.5Z"),
    ("civil", "2024-05-01 00:00:00", "2024-05-01T00:00:01"),
];

const DECIMALS: [Decimals; 7] = [
    (0, "-2", "-1.5"),
    (1, "2.5", "2.46"),
    (2, "0.05", "0.0549"),
    (3, "-0.005", "-0.00451"),
    (4, "10.0000", "9.99995"),
    (5, "-123.45678", "-123.456775"),
    (6, "0.000001", "0.0000005"),
];

/// A file with this separator, times of this form and a reading that is written with these decimals is read, whole and one
/// byte at a time, and written again.
fn check_class(
    rt: &impl Abort,
    alloc: Global,
    separator: Separator,
    form: Form,
    decimals: Decimals,
    extra: &str,
    read: &str,
) -> Result<(), Fail> {
    let (word, byte) = separator;
    let (name, time, later) = form;
    let (count, value, _finer) = decimals;
    let lines = format!(in alloc;
        "decimals = {count}\nseparator = \"{word}\"\nform = \"{name}\"\nextra = \"{extra}\"\n"
    )?;
    let rules = with_format(alloc, lines.as_str())?;
    let text = format!(in alloc;
        "t{byte}x{byte}n\n{time}{byte}{value}{byte}\"\"\"\"\n{later}{byte}{byte}note\n"
    )?;
    accepted(rt, alloc, &rules, text.as_bytes(), text.as_bytes())?;
    let marked = format!(in alloc;
        "\u{feff}t{byte}x{byte}n\r\n{time}{byte}{read}{byte}\"\"\"\"\r\n{later}{byte}{byte}note\r\n"
    )?;
    accepted(rt, alloc, &rules, marked.as_bytes(), text.as_bytes())?;
    same_by_bytes(rt, alloc, &rules, Limits::Whole, marked.as_bytes())?;
    same_by_bytes(rt, alloc, &rules, Limits::Endless, marked.as_bytes())?;
    Ok(())
}

#[test]
fn every_class_of_file_is_read(rt: HostRuntime) -> Result<(), Fail> {
    for separator in SEPARATORS {
        for form in FORMS {
            for decimals in DECIMALS {
                let (_, value, finer) = decimals;
                check_class(&rt, rt.alloc(), separator, form, decimals, "refuse", value)?;
                check_class(&rt, rt.alloc(), separator, form, decimals, "round", finer)?;
            }
        }
    }
    Ok(())
}
