//! What the program says of a certificate that is refused.
ghost use Rattle.std.specs.Prelude.{◌≡◌, ◌+◌, ◌++◌, ◌∷◌, [], ◌≤◌, codes, length, decimal};
ghost use Rattle.std.specs.Fmt.{signed_decimal};
ghost use Rattle.arrayvec.specs.ArrayString.{array_string_len};
ghost use Rattle.cert_format.specs.Line.{name_words, side_word};
ghost use Rattle.cert_format.specs.Words.{line_of_words};
ghost use Rattle.screen_words.specs.declared.note.TheConstants.{ROOM};
ghost use Rattle.screen_words.specs.Note.{cert_fault_words, outcome_text};
ghost use Rattle.screen_words.specs.declared.status.Outcome.{Outcome};

use crate::note::{Note, push_number};
use cert_check::CertFault;
use itoa::Buffer;
use screen_model::{BoundName, Side};

/// Why a certificate is refused.
pub(crate) fn cert_note(fault: &CertFault) -> Note
    ensures { result.bytes ≡ outcome_text (Outcome.CertRefused fault.now) }
{
    let mut note = Note::new();
    note.push_str("screen: certificate refused: ");
    push_fault(&mut note, fault);
    note.push_str("\n");
    note
}

/// Adds the name of the cause, and what it is about.
fn push_fault(note: &mut Note, fault: &CertFault)
    requires { array_string_len note.old + 100 ≤ ROOM }
    ensures bytes { note.new.bytes ≡ note.old.bytes ++ line_of_words (cert_fault_words fault.now) }
    ensures len { array_string_len note.new ≤ array_string_len note.old + 100 }
{
    match fault {
        CertFault::Syntax { line } => push_line(note, "Syntax", *line),
        CertFault::SetOutside { line } => push_line(note, "SetOutside", *line),
        CertFault::UnknownBound { line } => push_line(note, "UnknownBound", *line),
        CertFault::Broken { name } => push_broken(note, name),
        CertFault::TotalWrong { given, truth } => push_sums(note, "TotalWrong", *given, *truth),
        CertFault::PullTooGreat { place } => push_place(note, place.row, place.col),
        CertFault::ValueDiffers { value, total } => push_sums(note, "ValueDiffers", *value, *total),
        CertFault::CycleOpen { line } => push_line(note, "CycleOpen", *line),
        CertFault::CycleSum { sum } => push_sum(note, "CycleSum", *sum),
        CertFault::FileTooLong => note.push_str("FileTooLong"),
        CertFault::OverPrice { line } => push_line(note, "OverPrice", *line),
        CertFault::PricedStep { line } => push_line(note, "PricedStep", *line),
        CertFault::PaidWrong { given, truth } => push_sums(note, "PaidWrong", *given, *truth),
        CertFault::Memory => note.push_str("Memory"),
    }
}

/// Adds a name and a line of the certificate.
fn push_line(note: &mut Note, name: &str, line: u32)
    requires room { array_string_len note.old + 100 ≤ ROOM }
    requires name { length name.now ≤ 12 }
    ensures bytes { note.new.bytes ≡ note.old.bytes ++ line_of_words (name.now ∷ decimal line ∷ []) }
    ensures len { array_string_len note.new ≤ array_string_len note.old + 100 }
{
    note.push_str(name);
    push_word(note, line);
}

/// Adds the place of the reading that is pulled.
fn push_place(note: &mut Note, row: u32, col: u32)
    requires { array_string_len note.old + 100 ≤ ROOM }
    ensures bytes { note.new.bytes ≡ note.old.bytes ++ line_of_words (codes "PullTooGreat" ∷ decimal row ∷ decimal col ∷ []) }
    ensures len { array_string_len note.new ≤ array_string_len note.old + 100 }
{
    note.push_str("PullTooGreat");
    push_word(note, row);
    push_word(note, col);
}

/// Adds the bound that is broken.
fn push_broken(note: &mut Note, name: &BoundName)
    requires { array_string_len note.old + 100 ≤ ROOM }
    ensures bytes { note.new.bytes ≡ note.old.bytes ++ line_of_words (codes "Broken" ∷ name_words name.now) }
    ensures len { array_string_len note.new ≤ array_string_len note.old + 100 }
{
    note.push_str("Broken");
    push_word(note, name.rule);
    push_word(note, name.from_row);
    push_word(note, name.to_row);
    push_word(note, name.col);
    note.push_str(" ");
    note.push_str(side_word(name.side));
}

/// Adds a name and two sums.
fn push_sums(note: &mut Note, name: &str, one: i128, other: i128)
    requires room { array_string_len note.old + 100 ≤ ROOM }
    requires name { length name.now ≤ 12 }
    ensures bytes { note.new.bytes ≡ note.old.bytes ++ line_of_words (name.now ∷ signed_decimal one ∷ signed_decimal other ∷ []) }
    ensures len { array_string_len note.new ≤ array_string_len note.old + 100 }
{
    push_sum(note, name, one);
    let mut digits = Buffer::new();
    note.push_str(" ");
    note.push_str(digits.format(other));
}

/// Adds a name and a sum.
fn push_sum(note: &mut Note, name: &str, sum: i128)
    requires room { array_string_len note.old + 100 ≤ ROOM }
    requires name { length name.now ≤ 12 }
    ensures bytes { note.new.bytes ≡ note.old.bytes ++ line_of_words (name.now ∷ signed_decimal sum ∷ []) }
    ensures len { array_string_len note.new ≤ array_string_len note.old + 53 }
{
    let mut digits = Buffer::new();
    note.push_str(name);
    note.push_str(" ");
    note.push_str(digits.format(sum));
}

/// Adds a space and a number.
fn push_word(note: &mut Note, number: u32)
    requires { array_string_len note.old + 11 ≤ ROOM }
    ensures bytes { note.new.bytes ≡ note.old.bytes ++ (codes " " ++ decimal number) }
    ensures len { array_string_len note.new ≤ array_string_len note.old + 11 }
{
    note.push_str(" ");
    push_number(note, number);
}

fn side_word(side: Side) -> &'static str
    ensures word { result.now ≡ side_word side }
    ensures short { length result.now ≤ 4 }
{
    match side {
        Side::Up => "up",
        Side::Down => "down",
    }
}
