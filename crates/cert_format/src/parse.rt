//! The line that some bytes are, without its line feed.
ghost use Rattle.std.specs.Prelude.{◌≡◌, ◌↔◌, List, ℕ, ◌++◌, IfSome, IsSomeAnd, IsTrue};
ghost use Rattle.screen_model.specs.declared.bound.BoundName.{BoundName};
ghost use Rattle.screen_model.specs.declared.bound.FlowItem.{FlowItem};
ghost use Rattle.screen_model.specs.declared.bound.Side.{Side};
ghost use Rattle.cert_format.specs.declared.cert.SetLine.{SetLine};
ghost use Rattle.cert_format.specs.declared.line.Line.{Line};
ghost use Rattle.cert_format.specs.Line.{IsName, IsItem, IsSet, IsLine, side_word, text_of_line};
ghost use Rattle.cert_format.specs.Fields.{HasNoNumber, item_fields, name_fields, set_fields};

use crate::cert::SetLine;
use crate::limits::MOST_RULE;
use crate::line::{Line, Version};
use crate::number::{amount_of, number_then, total_of, value_spelled};
use screen_model::{BoundName, FlowItem, MOST_COLUMNS, MOST_ROWS, Place, Side};

/// The line that the bytes are.
pub(crate) fn line_of(bytes: &[u8]) -> Option<Line>
    ensures found { IfSome result (λ line. IsLine line × (bytes.now ≡ text_of_line line)) }
    ensures only { (line : Line) → IsLine line → bytes.now ≡ text_of_line line → IsSomeAnd result (λ found. found ≡ line) }
{
    if let Some(fields) = bytes.strip_prefix(b"flow ") {
        return Some(Line::Flow(item_of(fields)?));
    }
    if let Some(fields) = bytes.strip_prefix(b"set ") {
        return Some(Line::Set(set_of(fields)?));
    }
    if let Some(fields) = bytes.strip_prefix(b"step ") {
        return Some(Line::Step(name_of(fields)?));
    }
    if let Some(word) = bytes.strip_prefix(b"total ") {
        return Some(Line::Total(total_of(word)?));
    }
    if let Some(word) = bytes.strip_prefix(b"paid ") {
        return Some(Line::Paid(total_of(word)?));
    }
    plain_line(bytes)
}

/// The line without a number in its words that the bytes are.
fn plain_line(bytes: &[u8]) -> Option<Line>
    ensures found { IfSome result (λ line. IsLine line × (bytes.now ≡ text_of_line line)) }
    ensures only { (line : Line) → HasNoNumber line → bytes.now ≡ text_of_line line → IsSomeAnd result (λ found. found ≡ line) }
{
    if is_text(bytes, b"screen-cert 1") {
        Some(Line::Header(Version::One))
    } else if is_text(bytes, b"screen-cert 2") {
        Some(Line::Header(Version::Two))
    } else if is_text(bytes, b"claim repair") {
        Some(Line::ClaimRepair)
    } else if is_text(bytes, b"claim none") {
        Some(Line::ClaimNone)
    } else if is_text(bytes, b"end") {
        Some(Line::End)
    } else {
        None
    }
}

/// Whether the bytes are this text.
fn is_text(bytes: &[u8], text: &[u8]) -> bool
    ensures { IsTrue result ↔ (bytes.now ≡ text.now) }
{
    bytes == text
}

/// The set line that has these words after the first.
fn set_of(fields: &[u8]) -> Option<SetLine>
    ensures found { IfSome result (λ line. IsSet line × (fields.now ≡ set_fields line)) }
    ensures only { (line : SetLine) → IsSet line → fields.now ≡ set_fields line → IsSomeAnd result (λ found. found ≡ line) }
{
    let (row, rest) = number_then(fields, 1, MOST_ROWS)?;
    let (col, rest) = number_then(rest, 1, MOST_COLUMNS)?;
    let value = value_spelled(rest)?;
    Some(SetLine {
        place: Place { row, col },
        value,
    })
}

/// The flow item that has these words after the first.
fn item_of(fields: &[u8]) -> Option<FlowItem>
    ensures found { IfSome result (λ item. IsItem item × (fields.now ≡ item_fields item)) }
    ensures only { (item : FlowItem) → IsItem item → fields.now ≡ item_fields item → IsSomeAnd result (λ found. found ≡ item) }
{
    let (name, rest) = name_at(fields)?;
    let amount = amount_of(rest.strip_prefix(b" ")?)?;
    Some(FlowItem { name, amount })
}

/// The name that has these words.
fn name_of(fields: &[u8]) -> Option<BoundName>
    ensures found { IfSome result (λ name. IsName name × (fields.now ≡ name_fields name)) }
    ensures only { (name : BoundName) → IsName name → fields.now ≡ name_fields name → IsSomeAnd result (λ found. found ≡ name) }
{
    let (name, rest) = name_at(fields)?;
    if rest.is_empty() { Some(name) } else { None }
}

/// The name whose words the bytes begin with, and the bytes after them.
fn name_at(bytes: &[u8]) -> Option<(BoundName, &[u8])>
    ensures found { IfSome result (λ field. IsName field.0 × (bytes.now ≡ name_fields field.0 ++ field.1.now)) }
    ensures only { (name : BoundName) (rest : List ℕ) → IsName name → bytes.now ≡ name_fields name ++ rest →
        IsSomeAnd result (λ field. (field.0 ≡ name) × (field.1.now ≡ rest)) }
{
    let (rule, rest) = number_then(bytes, 0, MOST_RULE)?;
    let (from_row, rest) = number_then(rest, 1, MOST_ROWS)?;
    let (to_row, rest) = number_then(rest, 1, MOST_ROWS)?;
    let (col, rest) = number_then(rest, 1, MOST_COLUMNS)?;
    let (side, rest) = side_at(rest)?;
    let name = BoundName {
        rule,
        from_row,
        to_row,
        col,
        side,
    };
    Some((name, rest))
}

/// The side whose word the bytes begin with, and the bytes after it.
fn side_at(bytes: &[u8]) -> Option<(Side, &[u8])>
    ensures found { IfSome result (λ field. bytes.now ≡ side_word field.0 ++ field.1.now) }
    ensures only { (side : Side) (rest : List ℕ) → bytes.now ≡ side_word side ++ rest →
        IsSomeAnd result (λ field. (field.0 ≡ side) × (field.1.now ≡ rest)) }
{
    if let Some(rest) = bytes.strip_prefix(b"up") {
        return Some((Side::Up, rest));
    }
    let rest = bytes.strip_prefix(b"down")?;
    Some((Side::Down, rest))
}
