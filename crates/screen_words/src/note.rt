//! What the program says on standard error.
ghost use Rattle.std.specs.Prelude.{◌≡◌, ◌+◌, ◌++◌, ◌≤◌, length, decimal};
ghost use Rattle.arrayvec.specs.ArrayString.{array_string_len};
ghost use Rattle.screen_words.specs.Note.{note_text, outcome_text, readings_text, rules_text, rule_cause_name, table_cause_name, time_fault_name, number_fault_name, cut_fault_name};

use crate::cert_note::cert_note;
use crate::status::{Ending, Outcome};
use arrayvec::ArrayString;
use fix_point::NumFault;
use itoa::Buffer;
use record_cut::CutFault;
use rule_file::RuleCause;
use series_csv::{TableCause, TableFault};
use time_text::TimeFault;

/// The room for a note, in bytes.
pub(crate) const ROOM: usize = 192;

/// A note of one line, in place: it takes no memory.
pub type Note = ArrayString<ROOM>;

const USAGE: &str =
    "usage: screen global RULES READINGS CERT\n       screen check RULES READINGS CERT\n       screen online RULES\n       screen report RULES READINGS CERT\n       screen sample ROWS SEED\n";

/// What the program says of an ending.
pub fn note_of(ending: &Ending) -> Note
    ensures { result.bytes ≡ note_text ending.now }
{
    let mut note = Note::new();
    match ending {
        Ending::Ended(outcome) => return outcome_note(outcome),
        Ending::ReadFault => note.push_str("screen: a read failed\n"),
        Ending::WriteFault => note.push_str("screen: a write failed\n"),
        Ending::Memory => note.push_str("screen: out of memory\n"),
    }
    note
}

/// What the program says of what a command comes to.
fn outcome_note(outcome: &Outcome) -> Note
    ensures { result.bytes ≡ outcome_text outcome.now }
{
    let mut note = Note::new();
    match outcome {
        Outcome::Done => {}
        Outcome::NoSeries => note.push_str("screen: no series obeys the rules\n"),
        Outcome::Usage => note.push_str(USAGE),
        Outcome::RulesRefused(fault) => return rules_note(rule_cause_name(fault.cause), fault.rule),
        Outcome::NotOnline { rule } => return rules_note("NotOnline", *rule),
        Outcome::ReadingsRefused(fault) => return table_note(fault),
        Outcome::TooManyBounds => return readings_note("TooManyBounds", 0, 0),
        Outcome::WindowFull { row } => return readings_note("WindowFull", *row, 0),
        Outcome::NoWholeStep { row, col } => return readings_note("NoWholeStep", *row, *col),
        Outcome::LeavesRange { row, col } => return readings_note("LeavesRange", *row, *col),
        Outcome::CertRefused(fault) => return cert_note(fault),
    }
    note
}

/// Why the rules are refused, by a name of at most 20 bytes.
fn rules_note(name: &str, rule: u32) -> Note
    requires { length name.now ≤ 20 }
    ensures { result.bytes ≡ rules_text name.now rule }
{
    let mut note = Note::new();
    note.push_str("screen: rules refused: ");
    note.push_str(name);
    note.push_str(", rule ");
    push_number(&mut note, rule);
    note.push_str("\n");
    note
}

fn table_note(fault: &TableFault) -> Note
    ensures { result.bytes ≡ outcome_text (Outcome.ReadingsRefused fault.now) }
{
    readings_note(table_cause_name(fault.cause), fault.row, fault.col)
}

/// Why the readings are refused, by a name of at most 20 bytes.
fn readings_note(name: &str, row: u32, col: u32) -> Note
    requires { length name.now ≤ 20 }
    ensures { result.bytes ≡ readings_text name.now row col }
{
    let mut note = Note::new();
    note.push_str("screen: readings refused: ");
    note.push_str(name);
    note.push_str(", row ");
    push_number(&mut note, row);
    note.push_str(", column ");
    push_number(&mut note, col);
    note.push_str("\n");
    note
}

/// Adds a number of at most ten digits.
pub(crate) fn push_number(note: &mut Note, number: u32)
    requires { array_string_len note.old + 10 ≤ ROOM }
    ensures bytes { note.new.bytes ≡ note.old.bytes ++ decimal number }
    ensures len { array_string_len note.new ≤ array_string_len note.old + 10 }
{
    let mut buffer = Buffer::new();
    note.push_str(buffer.format(number));
}

fn rule_cause_name(cause: RuleCause) -> &'static str
    ensures name { result.now ≡ rule_cause_name cause }
    ensures short { length result.now ≤ 20 }
{
    match cause {
        RuleCause::Syntax => "Syntax",
        RuleCause::UnknownKey => "UnknownKey",
        RuleCause::MissingKey => "MissingKey",
        RuleCause::WrongKind => "WrongKind",
        RuleCause::BadNumber => "BadNumber",
        RuleCause::Order => "Order",
        RuleCause::ReachTooLarge => "ReachTooLarge",
        RuleCause::OutOfLimit => "OutOfLimit",
        RuleCause::TooMany => "TooMany",
        RuleCause::SameSensor => "SameSensor",
        RuleCause::FileTooLong => "FileTooLong",
        RuleCause::Memory => "Memory",
    }
}

/// The name of the cause, or of what is wrong with a time, a value or a record.
fn table_cause_name(cause: TableCause) -> &'static str
    ensures name { result.now ≡ table_cause_name cause }
    ensures short { length result.now ≤ 20 }
{
    match cause {
        TableCause::NoHeader => "NoHeader",
        TableCause::TooManyColumns => "TooManyColumns",
        TableCause::NameTwice => "NameTwice",
        TableCause::NoSuchSensor { rule: _ } => "NoSuchSensor",
        TableCause::Width => "Width",
        TableCause::Time(fault) => time_fault_name(fault),
        TableCause::TimeNotRising => "TimeNotRising",
        TableCause::Value(fault) => number_fault_name(fault),
        TableCause::TooManyRows => "TooManyRows",
        TableCause::TooManyReadings => "TooManyReadings",
        TableCause::Cut(fault) => cut_fault_name(fault),
        TableCause::FileTooLong => "FileTooLong",
        TableCause::Memory => "Memory",
    }
}

fn time_fault_name(fault: TimeFault) -> &'static str
    ensures name { result.now ≡ time_fault_name fault }
    ensures short { length result.now ≤ 20 }
{
    match fault {
        TimeFault::NotTime => "NotTime",
        TimeFault::TimeTooFine => "TimeTooFine",
        TimeFault::TimeOutOfRange => "TimeOutOfRange",
        TimeFault::Memory => "Memory",
    }
}

fn number_fault_name(fault: NumFault) -> &'static str
    ensures name { result.now ≡ number_fault_name fault }
    ensures short { length result.now ≤ 20 }
{
    match fault {
        NumFault::NotNumber => "NotNumber",
        NumFault::TooFine => "TooFine",
        NumFault::OutOfRange => "OutOfRange",
    }
}

fn cut_fault_name(fault: CutFault) -> &'static str
    ensures name { result.now ≡ cut_fault_name fault }
    ensures short { length result.now ≤ 20 }
{
    match fault {
        CutFault::BadQuote => "BadQuote",
        CutFault::RecordTooLong => "RecordTooLong",
        CutFault::OpenQuote => "OpenQuote",
        CutFault::Memory => "Memory",
    }
}
