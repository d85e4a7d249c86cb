//! Tables of each kind, and what is read at their keys.
ghost use Rattle.std.specs.Prelude.{◌≡◌};

use rule_keys::KeyCause::{
    BadNumber, MissingKey, Order, OutOfLimit, ReachTooLarge, SameSensor, UnknownKey, WrongKind,
};
use rule_keys::KeyName::{
    Decimals, First, Form, From, Hold, Max, Min, Most, Over, Per, Price, Second, Sensor, To,
    Weight, Window,
};
use rule_keys::{
    Choice, KeyCause, KeyName, Scale, TableKind, an_answer, key_text, keys_of, read_table, words_of,
};
use std::alloc::Global;
use std::test::Fail;
use time_text::TimeForm;

/// Two decimals, and times in this form.
fn in_form(form: TimeForm) -> Scale
    ensures { result.decimals ≡ 2 }
{
    Scale { decimals: 2, form }
}

/// The number at a key of a table, where the text is TOML.
fn number_in(
    alloc: Global,
    form: TimeForm,
    kind: TableKind,
    text: &str,
    key: KeyName,
) -> Option<Result<i64, KeyCause>> {
    let table = toml::table_from_str(alloc, text).ok()?;
    let entries = read_table(alloc, in_form(form), kind, &table);
    Some(entries.map(|entries| entries.number(key)))
}

/// A format with all words.
const FORMAT: &str = "decimals = 2\nform = \"civil\"\nseparator = \"\\t\"\nextra = \"round\"";

/// A swing rule that has a price.
const SWING: &str = "sensor = \"x\"\nmost = \"0.01\"\nwindow = 1\nprice = 1000";

/// A speed rule of the least window.
const SPEED: &str = "sensor = \"x\"\nmin = \"-0.5\"\nmax = 1\nwindow = \"1e-9\"";

/// A drift rule.
const DRIFT: &str = "sensor = \"x\"\nmin = -1\nmax = 1\nper = 3600\nover = 60\nwindow = 60";

/// A weight up to a time.
const WEIGHT: &str = "sensor = \"x\"\nweight = 1000\nto = \"1.5\"";

/// A range above the least value.
const RANGE: &str = "sensor = \"x\"\nmax = \"1.25\"";

/// A table of each kind, a key of it, and what is read there.
const TABLES: [(TableKind, &str, KeyName, i64); 17] = [
    (TableKind::Format, FORMAT, Decimals, 2),
    (TableKind::Format, FORMAT, Form, 0),
    (TableKind::Format, FORMAT, Hold, 4096),
    (TableKind::Speed, SPEED, Min, -500_000),
    (TableKind::Speed, SPEED, Per, 1),
    (TableKind::Speed, SPEED, Window, 1),
    (TableKind::Speed, SPEED, Most, 0),
    (TableKind::Speed, SPEED, Price, 0),
    (TableKind::Swing, SWING, Most, 1),
    (TableKind::Swing, SWING, Price, 1000),
    (TableKind::Drift, DRIFT, Over, 60_000_000_000),
    (TableKind::Range, RANGE, Min, -1_000_000_000_000_000),
    (TableKind::Range, RANGE, Max, 125),
    (
        TableKind::Trust,
        "sensor = \"x\"\nfrom = 7",
        From,
        7_000_000_000,
    ),
    (TableKind::Weight, WEIGHT, Weight, 1000),
    (TableKind::Weight, WEIGHT, To, 1_500_000_000),
    (
        TableKind::Between,
        "first = \"a\"\nsecond = \"b\"\nmin = -1\nmax = 1",
        Max,
        100,
    ),
];

/// Every kind of table is read.
#[test]
fn tables_of_each_kind(rt: HostRuntime) {
    for (kind, text, key, want) in TABLES {
        let found = number_in(rt.alloc(), TimeForm::Sec, kind, text, key);
        assert_eq!(rt; found, Some(Ok(want)), "{text}");
    }
}

/// Times in each form.
#[test]
fn times_in_each_form(rt: HostRuntime) -> Result<(), Fail> {
    let rows = [
        (TimeForm::Sec, "from = 7", 7_000_000_000),
        (TimeForm::Milli, "from = 7", 7_000_000),
        (TimeForm::Micro, "from = 7", 7_000),
        (TimeForm::Nano, "from = 7", 7),
        (
            TimeForm::Instant,
            "from = \"1970-01-01T01:00:07+01:00\"",
            7_000_000_000,
        ),
        (
            TimeForm::Civil,
            "from = \"1970-01-01 00:00:07\"",
            7_000_000_000,
        ),
    ];
    for (form, line, want) in rows {
        let text = format!(in rt.alloc(); "sensor = \"x\"\n{line}")?;
        let found = number_in(rt.alloc(), form, TableKind::Trust, text.as_str(), From);
        assert_eq!(rt; found, Some(Ok(want)), "{line}");
    }
    Ok(())
}

/// A table for each cause: no refusal is told as want of memory.
#[test]
fn a_table_for_each_cause(rt: HostRuntime) {
    let far = "sensor = \"x\"\nmin = 0\nmax = 1000000000\nwindow = 100000000";
    let alike = "first = \"a\"\nsecond = \" a\"\nmin = -1\nmax = 1";
    let rows = [
        (TableKind::Trust, "sensor = \"x\"\nleast = 2", UnknownKey),
        (TableKind::Trust, "", MissingKey),
        (TableKind::Trust, "sensor = 1", WrongKind),
        (TableKind::Trust, "sensor = \"x\"\nfrom = \"\"", BadNumber),
        (
            TableKind::Range,
            "sensor = \"x\"\nmax = \"1.255\"",
            BadNumber,
        ),
        (TableKind::Format, "decimals = 7", OutOfLimit),
        (TableKind::Format, "decimals = 2\nform = \"\"", OutOfLimit),
        (TableKind::Format, "decimals = 2\nform = 1", WrongKind),
        (TableKind::Between, "price = 0", MissingKey),
        (TableKind::Weight, "price = 1", UnknownKey),
        (TableKind::Trust, "sensor = \"x\"\nfrom = 2\nto = 1", Order),
        (TableKind::Speed, far, ReachTooLarge),
        (TableKind::Between, alike, SameSensor),
    ];
    for (kind, text, cause) in rows {
        let found = number_in(rt.alloc(), TimeForm::Sec, kind, text, Min);
        assert_eq!(rt; found, Some(Err(cause)), "{text}");
    }
}

/// The names of a table, and the words of its description.
#[test]
fn names_and_words(rt: HostRuntime) -> Result<(), Fail> {
    let text = "first = \"a\"\nsecond = \" \\tb c \"\nmin = -1\nmax = 1";
    let table = toml::table_from_str(rt.alloc(), text)?;
    let entries = read_table(
        rt.alloc(),
        in_form(TimeForm::Sec),
        TableKind::Between,
        &table,
    )
    .ok();
    let name = |key| entries.as_ref().and_then(|entries| entries.name(key));
    assert_eq!(rt; name(First), Some(b"a".as_slice()));
    assert_eq!(rt; name(Second), Some(b"b c".as_slice()));
    assert_eq!(rt; name(Sensor), None);

    assert_eq!(rt; keys_of(TableKind::Between).len(), 5);
    assert_eq!(rt; key_text(First), "first");
    let words = words_of(Choice::Extra);
    assert_eq!(rt; words.len(), 2);
    assert_eq!(rt; words.first().map(|word| word.text), Some("refuse"));
    an_answer(rt.alloc(), in_form(TimeForm::Sec), TableKind::Trust, &table);
    Ok(())
}
