//! Files that are read whole, the first reason to refuse one, and texts.

use fix_point::NumFault;
use record_cut::CutFault;
use rule_file::{Rules, read_rules};
use screen_model::{Place, Series};
use sequence::Sequence;
use series_csv::TableCause::{
    Cut, NameTwice, NoHeader, NoSuchSensor, Time, TimeNotRising, TooManyColumns, TooManyReadings,
    TooManyRows, Value, Width,
};
use series_csv::{Table, TableCause, TableFault, read_table, table_text};
use std::alloc::Global;
use std::process::Abort;
use std::test::Fail;
use time_text::TimeFault;

/// One speed rule of the sensor `x`; times are seconds.
pub(crate) const BASE: &str = "[format]
decimals = 0
[[speed]]
sensor = \"x\"
min = -1
max = 1
per = 1
window = 10
";

/// A rule between two sensors, and a time column with a name.
pub(crate) const TWO: &str = "[format]
decimals = 1
time = \"at\"
form = \"ms\"
separator = \";\"
extra = \"round\"
[[between]]
first = \"in\"
second = \"out\"
min = 0
max = 5
";

/// Three sensors.
pub(crate) const THREE: &str = "[format]
decimals = 0
[[range]]
sensor = \"a\"
max = 9
[[range]]
sensor = \"b\"
max = 9
[[range]]
sensor = \"c\"
max = 9
";

/// Rules of all kinds; their sensors stand in another order than in the files.
const SEVEN: &str = "[format]
decimals = 6
[[speed]]
sensor = \"c\"
min = -1
max = 1
window = 10
[[swing]]
sensor = \"b\"
most = 5
window = 10
[[drift]]
sensor = \"a\"
min = -1
max = 1
over = 5
window = 10
[[range]]
sensor = \"d\"
min = 0
[[trust]]
sensor = \"c\"
[[weight]]
sensor = \"e\"
weight = 3
[[between]]
first = \"f\"
second = \"a\"
min = 0
max = 5
";

/// No rule at all.
const NONE: &str = "[format]
decimals = 0
";

/// Times that are instants, and hundredths.
const INSTANTS: &str = "[format]
decimals = 2
form = \"instant\"
[[range]]
sensor = \"fuel\"
max = 9000
";

/// The file is read as a table, and the text of that table with its own series is this.
pub(crate) fn accepted(
    rt: &impl Abort,
    alloc: Global,
    rules: &Rules,
    bytes: &[u8],
    text: &[u8],
) -> Result<(), Fail> {
    let table = read_table(alloc, rules, bytes)?;
    let written = table_text(alloc, rules, &table, table.series())?;
    assert_eq!(rt; written.as_slice(), text);
    Ok(())
}

/// A file, and how it is written again.
type Written = (&'static str, &'static str);

const OF_ONE_SENSOR: [Written; 7] = [
    ("time,x\n", "time,x\n"),
    ("time,x\n0,0\n1,\n2,2\n", "time,x\n0,0\n1,\n2,2\n"),
    ("time,x\n0,0\n1,NaN\n2,2\n", "time,x\n0,0\n1,NaN\n2,2\n"),
    (
        "\u{feff}time,x,note\r\n0,10,\"a, b\"\r\n",
        "time,x,note\n0,10,\"a, b\"\n",
    ),
    (
        "time,x\n0,10\n1,11\n2,20\n3,13\n",
        "time,x\n0,10\n1,11\n2,20\n3,13\n",
    ),
    (
        "time,x\n0,10\n1,11\n2,20\n3,13",
        "time,x\n0,10\n1,11\n2,20\n3,13\n",
    ),
    (
        "\n\ntime,x\r\n\n0,1e1\r\n\r\n1,+011.0\n",
        "time,x\n0,10\n1,11\n",
    ),
];

const OF_TWO_SENSORS: [Written; 1] = [(
    "out ; at;in\n1.25;0; 2 \n;1;NA\nnull;2;-0.04\n",
    "out ; at;in\n1.3;0;2.0\n;1;NA\nnull;2;0.0\n",
)];

const OF_SEVEN_RULES: [Written; 2] = [
    (
        "time,f,e,d,c,b,a,note\n0,1,2,3,4,5,6,x\n",
        "time,f,e,d,c,b,a,note\n0,1.000000,2.000000,3.000000,4.000000,5.000000,6.000000,x\n",
    ),
    (
        "time,f,e,d,c,b,a\n0,,NaN, ,nan,NA,null\n",
        "time,f,e,d,c,b,a\n0,,NaN, ,nan,NA,null\n",
    ),
];

const OF_NO_RULE: [Written; 2] = [
    ("time\n0\n1\n", "time\n0\n1\n"),
    ("time,x\r\n0,abc\n1,", "time,x\n0,abc\n1,\n"),
];

fn check_texts(rt: &impl Abort, alloc: Global, rules: &str, cases: &[Written]) -> Result<(), Fail> {
    let rules = read_rules(alloc, rules.as_bytes())?;
    for case in cases {
        let (file, text) = *case;
        accepted(rt, alloc, &rules, file.as_bytes(), text.as_bytes())?;
    }
    Ok(())
}

#[test]
fn files_are_read_and_written_again(rt: HostRuntime) -> Result<(), Fail> {
    check_texts(&rt, rt.alloc(), BASE, &OF_ONE_SENSOR)?;
    check_texts(&rt, rt.alloc(), TWO, &OF_TWO_SENSORS)?;
    check_texts(&rt, rt.alloc(), SEVEN, &OF_SEVEN_RULES)?;
    check_texts(&rt, rt.alloc(), NONE, &OF_NO_RULE)
}

/// The file is refused as a table for this, at this row and column.
pub(crate) fn refused(
    rt: &impl Abort,
    alloc: Global,
    rules: &Rules,
    bytes: &[u8],
    cause: TableCause,
    row: u32,
    col: u32,
) {
    let fault = read_table(alloc, rules, bytes).err();
    assert_eq!(rt; fault, Some(TableFault { cause, row, col }));
}

/// A file, and why it is refused, with the row and the column.
type Refusal = (&'static str, TableCause, u32, u32);

/// Each check once.
const OF_THE_FIRST_COLUMN: [Refusal; 12] = [
    ("", NoHeader, 0, 0),
    ("\n\r\n", NoHeader, 0, 0),
    ("time,y\n", NoSuchSensor { rule: 1 }, 0, 0),
    ("time,x,x\n", NameTwice, 0, 3),
    ("time,x\n1,2,3\n", Width, 1, 0),
    ("time,x\nnoon,1\n", Time(TimeFault::NotTime), 1, 1),
    ("time,x\n0,1\n0,1\n", TimeNotRising, 2, 1),
    ("time,x\n0,abc\n", Value(NumFault::NotNumber), 1, 2),
    ("time,x\n0,0.5\n", Value(NumFault::TooFine), 1, 2),
    ("time,x\n0,1\n1,\"2", Cut(CutFault::OpenQuote), 2, 0),
    ("time,x\n0,1\n1,a\"\n", Cut(CutFault::BadQuote), 2, 0),
    ("ti\"me,x\n", Cut(CutFault::BadQuote), 0, 0),
];

const OF_A_NAMED_COLUMN: [Refusal; 5] = [
    ("time;in;out\n", NoSuchSensor { rule: 0 }, 0, 0),
    ("at;in; at;out\n", NameTwice, 0, 3),
    ("at;in\n", NoSuchSensor { rule: 1 }, 0, 0),
    ("in;at;out\n1;3;1\n1;2;1\n", TimeNotRising, 2, 2),
    ("in;at;out\n1;3;x\n", Value(NumFault::NotNumber), 1, 3),
];

const OF_LATER_RULES: [Refusal; 2] = [
    ("time,f,d,c,b,a\n", NoSuchSensor { rule: 6 }, 0, 0),
    ("time,f,e,d,c,b,a,f\n", NameTwice, 0, 8),
];

/// Files with several faults: a record that cannot be cut counts before all else that is wrong with it, then its width, its
/// time and a reading; and a row before later ones.
const FIRST_OF_ROWS: [Refusal; 10] = [
    ("ti\"me,y\n", Cut(CutFault::BadQuote), 0, 0),
    ("time,x\n0,1\nnoon,a\",3\n", Cut(CutFault::BadQuote), 2, 0),
    ("time,x\nnoon\n", Width, 1, 0),
    ("time,x\n5,1\n5\n", Width, 2, 0),
    ("time,x\n5,abc,1\n", Width, 1, 0),
    ("time,x\nnoon,abc\n", Time(TimeFault::NotTime), 1, 1),
    ("time,x\n5,1\n5,abc\n", TimeNotRising, 2, 1),
    ("time,x\n0,a\n0,1,2\n", Value(NumFault::NotNumber), 1, 2),
    ("time,x\n0,a\n1,\"2", Value(NumFault::NotNumber), 1, 2),
    ("time,y\n0,a\n", NoSuchSensor { rule: 1 }, 0, 0),
];

/// Of the header the time column counts before the sensors, also where it is twice there further to the right, and the
/// first sensor of a rule before the second; of a row the time before a reading to the left of it, and of two readings the
/// left one.
const FIRST_OF_COLUMNS: [Refusal; 7] = [
    ("at;in;at\n", NameTwice, 0, 3),
    ("at;in;in;out;at\n", NameTwice, 0, 5),
    ("time;in;in;out\n", NoSuchSensor { rule: 0 }, 0, 0),
    ("at;in;in\n", NameTwice, 0, 3),
    ("at;out;out\n", NoSuchSensor { rule: 1 }, 0, 0),
    ("in;at;out\nx;noon;1\n", Time(TimeFault::NotTime), 1, 2),
    ("in;at;out\nx;1;y\n", Value(NumFault::NotNumber), 1, 1),
];

fn check_refusals(
    rt: &impl Abort,
    alloc: Global,
    rules: &str,
    cases: &[Refusal],
) -> Result<(), Fail> {
    let rules = read_rules(alloc, rules.as_bytes())?;
    for case in cases {
        let (file, cause, row, col) = *case;
        refused(rt, alloc, &rules, file.as_bytes(), cause, row, col);
    }
    Ok(())
}

#[test]
fn each_check_refuses_at_its_place(rt: HostRuntime) -> Result<(), Fail> {
    check_refusals(&rt, rt.alloc(), BASE, &OF_THE_FIRST_COLUMN)?;
    check_refusals(&rt, rt.alloc(), TWO, &OF_A_NAMED_COLUMN)?;
    check_refusals(&rt, rt.alloc(), SEVEN, &OF_LATER_RULES)
}

#[test]
fn the_first_check_counts(rt: HostRuntime) -> Result<(), Fail> {
    check_refusals(&rt, rt.alloc(), BASE, &FIRST_OF_ROWS)?;
    check_refusals(&rt, rt.alloc(), TWO, &FIRST_OF_COLUMNS)
}

/// A header of the columns `time` and `x` and so many more.
fn wide(alloc: Global, more: u32) -> Result<Vec<u8>, Fail> {
    let mut text = Vec::from_slice(alloc, b"time,x".as_slice())?;
    for _ in 0..more {
        text.push(b',')?;
    }
    text.push(b'\n')?;
    Ok(text)
}

/// A file of the columns `time`, `x` and `note`, with a row whose note has so many bytes.
fn long(alloc: Global, size: u32) -> Result<Vec<u8>, Fail> {
    let mut text = Vec::from_slice(alloc, b"time,x,note\n0,1,".as_slice())?;
    for _ in 0..size {
        text.push(b'n')?;
    }
    text.push(b'\n')?;
    Ok(text)
}

/// A file of a header and so many rows, each of its number as time and then these bytes.
pub(crate) fn tall(alloc: Global, header: &[u8], rows: u32, rest: &[u8]) -> Result<Vec<u8>, Fail> {
    let mut text = Vec::from_slice(alloc, header)?;
    for row in 0..rows {
        text.extend_from_slice(format!(in alloc; "{row}")?.as_bytes())?;
        text.extend_from_slice(rest)?;
    }
    Ok(text)
}

/// The bytes with one more record.
fn joined(alloc: Global, bytes: &[u8], last: &[u8]) -> Result<Vec<u8>, Fail> {
    let mut all = Vec::from_slice(alloc, bytes)?;
    all.extend_from_slice(last)?;
    Ok(all)
}

#[test]
fn columns_and_records_have_limits(rt: HostRuntime) -> Result<(), Fail> {
    let alloc = rt.alloc();
    let base = read_rules(alloc, BASE.as_bytes())?;
    assert!(rt; read_table(alloc, &base, wide(alloc, 254)?.as_slice()).is_ok());
    // Before the sensor that is there twice.
    let many = joined(alloc, b"x,x,", wide(alloc, 255)?.as_slice())?;
    refused(&rt, alloc, &base, many.as_slice(), TooManyColumns, 0, 0);
    // And before a sensor that is not there.
    let three = read_rules(alloc, THREE.as_bytes())?;
    let many = wide(alloc, 255)?;
    refused(&rt, alloc, &three, many.as_slice(), TooManyColumns, 0, 0);
    // A row with its line feed has five bytes beside its note.
    let most = long(alloc, 65_531)?;
    accepted(&rt, alloc, &base, most.as_slice(), most.as_slice())?;
    let over = long(alloc, 65_532)?;
    refused(
        &rt,
        alloc,
        &base,
        over.as_slice(),
        Cut(CutFault::RecordTooLong),
        1,
        0,
    );
    Ok(())
}

/// A last record, and why the file is refused, with the column.
type LastRecord = (&'static str, TableCause, u32);

/// One row too many counts before its width, its time and its reading, and after a record that cannot be cut.
const TOO_MANY_ROWS: [LastRecord; 3] = [
    ("200000,7\n", TooManyRows, 0),
    ("noon,a,b\n", TooManyRows, 0),
    ("200000,\"", Cut(CutFault::OpenQuote), 0),
];

/// And before one reading too many.
const TOO_MANY_OF_BOTH: [LastRecord; 1] = [("200000,1,2,3\n", TooManyRows, 0)];

/// One reading too many counts after the width, the time and a reading of its row.
const TOO_MANY_READINGS: [LastRecord; 5] = [
    ("133333,1,2,3\n", TooManyReadings, 0),
    ("133333,1,2,3,\n", Width, 0),
    ("noon,1,2,3\n", Time(TimeFault::NotTime), 1),
    ("133332,1,2,3\n", TimeNotRising, 1),
    ("133333,1,2,x\n", Value(NumFault::NotNumber), 4),
];

/// A table of so many readings is read, and refused with each last record, which has this number.
fn check_last(
    rt: &impl Abort,
    alloc: Global,
    rules: &str,
    file: &[u8],
    readings: u32,
    row: u32,
    cases: &[LastRecord],
) -> Result<(), Fail> {
    let rules = read_rules(alloc, rules.as_bytes())?;
    assert_eq!(rt; read_table(alloc, &rules, file)?.len(), readings);
    for case in cases {
        let (last, cause, col) = *case;
        let all = joined(alloc, file, last.as_bytes())?;
        refused(rt, alloc, &rules, all.as_slice(), cause, row, col);
    }
    Ok(())
}

#[test]
fn rows_and_readings_have_limits(rt: HostRuntime) -> Result<(), Fail> {
    let alloc = rt.alloc();
    let rows = tall(alloc, b"time,x\n", 200_000, b",7\n")?;
    check_last(
        &rt,
        alloc,
        BASE,
        rows.as_slice(),
        200_000,
        200_001,
        &TOO_MANY_ROWS,
    )?;
    let rows = tall(alloc, b"t,a,b,c\n", 133_333, b",1,2,3\n")?;
    check_last(
        &rt,
        alloc,
        THREE,
        rows.as_slice(),
        399_999,
        133_334,
        &TOO_MANY_READINGS,
    )
}

#[test]
fn rows_count_before_readings(rt: HostRuntime) -> Result<(), Fail> {
    let alloc = rt.alloc();
    let rows = tall(alloc, b"t,a,b,c\n", 200_000, b",1,,3\n")?;
    check_last(
        &rt,
        alloc,
        THREE,
        rows.as_slice(),
        400_000,
        200_001,
        &TOO_MANY_OF_BOTH,
    )
}

/// A file of an hour: a row each second, whose value is the number of the second.
fn an_hour(alloc: Global, decimals: &str) -> Result<Vec<u8>, Fail> {
    let mut text = Vec::from_slice(alloc, b"time,fuel\n".as_slice())?;
    for number in 0..3_600u32 {
        let minute = number / 60;
        let second = number % 60;
        let line = format!(in alloc;
            "2024-05-01T00:{minute:02}:{second:02}Z,{number}{decimals}\n"
        )?;
        text.extend_from_slice(line.as_bytes())?;
    }
    Ok(text)
}

#[test]
fn an_hour_of_instants_is_read(rt: HostRuntime) -> Result<(), Fail> {
    let alloc = rt.alloc();
    let rules = read_rules(alloc, INSTANTS.as_bytes())?;
    let file = an_hour(alloc, "")?;
    let text = an_hour(alloc, ".00")?;
    accepted(&rt, alloc, &rules, file.as_slice(), text.as_slice())?;
    let table = read_table(alloc, &rules, file.as_slice())?;
    assert_eq!(rt; table.len(), 3_600);
    assert_eq!(rt; table.reading(35), Some(3_500));
    assert_eq!(rt; ticks_of(&table, 1), Some(1_714_521_600_000_000_000));
    assert_eq!(rt; ticks_of(&table, 3_600), Some(1_714_525_199_000_000_000));
    Ok(())
}

/// The time of a row.
fn ticks_of(table: &Table, row: u32) -> Option<i64> {
    Some(table.row(row)?.ticks())
}

/// The text of a table of three readings with three other values.
fn text_with_others(alloc: Global, rules: &Rules, table: &Table) -> Result<Vec<u8>, Fail> {
    let series: Series = Sequence::from_slice(
        alloc,
        &[1_000_000_000_000_000, -1_000_000_000_000_000, 7i64],
    )?;
    if table.len() != 3 {
        return Ok(Vec::new(alloc));
    }
    Ok(table_text(alloc, rules, table, &series)?)
}

#[test]
fn a_table_is_written_with_other_values(rt: HostRuntime) -> Result<(), Fail> {
    let alloc = rt.alloc();
    let two = read_rules(alloc, TWO.as_bytes())?;
    let file = b"note;out;at;in\r\n\"a;\"\"\";1;0;2\n;;1;3.04\n";
    let table = read_table(alloc, &two, file.as_slice())?;
    let text = text_with_others(alloc, &two, &table)?;
    let wanted = b"note;out;at;in\n\"a;\"\"\";100000000000000.0;0;-100000000000000.0\n;;1;0.7\n";
    assert_eq!(rt; text.as_slice(), wanted.as_slice());
    Ok(())
}

#[test]
fn large_files_are_read_and_written(rt: HostRuntime) -> Result<(), Fail> {
    let alloc = rt.alloc();
    let three = read_rules(alloc, THREE.as_bytes())?;
    let text = tall(alloc, b"t,a,n,b,c\n", 20_000, b",1,\"a,b\",,-3\n")?;
    accepted(&rt, alloc, &three, text.as_slice(), text.as_slice())?;
    let table = read_table(alloc, &three, text.as_slice())?;
    assert_eq!(rt; table.rows(), 20_000);
    assert_eq!(rt; table.len(), 40_000);
    looked_up(&rt, &table);
    Ok(())
}

/// The readings of a table with two in each row, in the columns 2 and 5.
fn looked_up(rt: &impl Abort, table: &Table) {
    for (i, row, col, value) in [(0, 1, 2, 1), (1, 1, 5, -3), (39_999, 20_000, 5, -3)] {
        let place = Place { row, col };
        assert_eq!(rt; table.place(i), Some(place));
        assert_eq!(rt; table.index(place), Some(i));
        assert_eq!(rt; table.reading(i), Some(value));
    }
    assert_eq!(rt; table.place(40_000), None);
    assert_eq!(rt; table.reading(40_000), None);
    for (row, col) in [(0, 2), (1, 1), (1, 4), (20_001, 2)] {
        assert_eq!(rt; table.index(Place { row, col }), None);
    }
    assert!(rt; table.row(0).is_none());
    assert!(rt; table.row(20_000).is_some());
    assert!(rt; table.row(20_001).is_none());
}
