//! What a byte does at each place of a record.

ghost use Rattle.std.specs.Prelude.{◌≡◌, ◌+◌, ◌<◌, ◌≤◌, ◌^◌, ℕ, IsTrue};
ghost use Rattle.words.specs.Separators.{is_separator};
ghost use Rattle.record_cut.specs.Drafted.{Drafted, size_of};
ghost use Rattle.record_cut.specs.Resumed.{FitsPlace, Fits};
ghost use Rattle.record_cut.specs.Moves.{in_unquoted, AddsByte, EndsField, Moves, Opens, Leaves};

use crate::bytes::{CARRIAGE_RETURN, LINE_FEED, MARK, QUOTE};
use crate::draft::Draft;
use crate::fault::CutFault;
use crate::phase::{Ending, Move, Opening, Phase, Place};

/// Whether the next byte stands in an unquoted field or at the beginning of a field.
#[inline]
pub(crate) fn in_unquoted(phase: Phase) -> bool
    ensures { result ≡ in_unquoted phase }
{
    match phase {
        Phase::Inside(Place::Field) => true,
        Phase::Inside(Place::Plain) => true,
        _ => false,
    }
}

/// What the byte is to be taken for after what has been read of the record.
pub(crate) fn opening(phase: Phase, byte: u8) -> Opening
    ensures { (sep : ℕ) (draft : Drafted) (count : ℕ)
        → IsTrue (is_separator sep) → Fits phase draft count → Opens sep phase draft count byte result }
{
    match phase {
        Phase::Inside(place) => Opening::Read(place),
        Phase::Record => at_record(byte),
        Phase::RecordCr if byte == LINE_FEED => Opening::Skip,
        Phase::RecordCr => Opening::Read(Place::Plain),
        Phase::Input if byte == MARK[0] => Opening::Keep(Phase::MarkOne),
        Phase::Input => at_record(byte),
        Phase::MarkOne if byte == MARK[1] => Opening::Keep(Phase::MarkTwo),
        Phase::MarkOne => Opening::Read(Place::Plain),
        Phase::MarkTwo if byte == MARK[2] => Opening::Skip,
        Phase::MarkTwo => Opening::Read(Place::Plain),
        Phase::Refused(fault) => Opening::Refuse(fault),
    }
}

/// The same where nothing has been read of the record.
fn at_record(byte: u8) -> Opening
    ensures { (sep : ℕ) (draft : Drafted) (count : ℕ)
        → IsTrue (is_separator sep) → Fits Phase.Record draft count → Opens sep Phase.Record draft count byte result }
{
    match byte {
        LINE_FEED => Opening::Skip,
        CARRIAGE_RETURN => Opening::Keep(Phase::RecordCr),
        _ => Opening::Read(Place::Field),
    }
}

/// What the end of the text leaves of what has been read of the record.
pub(crate) fn ending(phase: Phase) -> Ending
    ensures { (sep : ℕ) (draft : Drafted) (count : ℕ)
        → IsTrue (is_separator sep) → count ≤ 65536 → Fits phase draft count → Leaves sep phase draft count result }
{
    match phase {
        Phase::Input | Phase::Record => Ending::Nothing,
        Phase::MarkOne | Phase::MarkTwo | Phase::RecordCr => Ending::Field,
        Phase::Inside(place) => ending_at(place),
        Phase::Refused(fault) => Ending::Refuse(fault),
    }
}

/// The same at a place of a record.
fn ending_at(place: Place) -> Ending
    ensures { (sep : ℕ) (draft : Drafted) (count : ℕ)
        → IsTrue (is_separator sep) → count ≤ 65536 → FitsPlace place draft
        → Leaves sep (Phase.Inside place) draft count result }
{
    match place {
        Place::Field | Place::Plain | Place::QuoteInQuoted => Ending::Field,
        Place::PlainCr => Ending::FieldAndCr,
        Place::Quoted => Ending::Refuse(CutFault::OpenQuote),
        Place::ClosedCr => Ending::Refuse(CutFault::BadQuote),
    }
}

/// Reads the byte of a record at this place.
pub(crate) fn read(draft: &mut Draft, sep: u8, place: Place, byte: u8) -> Result<Move, CutFault>
    requires sep { IsTrue (is_separator sep) }
    requires small { size_of draft.old < 2 ^ 31 }
    ensures moves { FitsPlace place draft.old → Moves sep place draft.old byte result draft.new }
    ensures size { size_of draft.new ≤ size_of draft.old + 2 }
{
    match place {
        Place::Plain => in_plain(draft, sep, byte),
        Place::Field => at_field(draft, sep, byte),
        Place::Quoted => in_quotes(draft, byte),
        Place::QuoteInQuoted => after_quote(draft, sep, byte),
        Place::PlainCr => after_plain_cr(draft, sep, byte),
        Place::ClosedCr if byte == LINE_FEED => Ok(Move::EndRecord),
        Place::ClosedCr => Err(CutFault::BadQuote),
    }
}

/// At the beginning of a field.
fn at_field(draft: &mut Draft, sep: u8, byte: u8) -> Result<Move, CutFault>
    requires sep { IsTrue (is_separator sep) }
    requires small { size_of draft.old < 2 ^ 32 }
    ensures moves { FitsPlace Place.Field draft.old → Moves sep Place.Field draft.old byte result draft.new }
    ensures size { size_of draft.new ≤ size_of draft.old + 1 }
{
    if byte == QUOTE {
        Ok(Move::To(Place::Quoted))
    } else {
        in_plain(draft, sep, byte)
    }
}

/// In an unquoted field.
fn in_plain(draft: &mut Draft, sep: u8, byte: u8) -> Result<Move, CutFault>
    requires sep { IsTrue (is_separator sep) }
    requires small { size_of draft.old < 2 ^ 32 }
    ensures moves { Moves sep Place.Plain draft.old byte result draft.new }
    ensures size { size_of draft.new ≤ size_of draft.old + 1 }
{
    if byte == sep {
        return end_field(draft);
    }
    match byte {
        QUOTE => Err(CutFault::BadQuote),
        LINE_FEED => Ok(Move::EndRecord),
        CARRIAGE_RETURN => Ok(Move::To(Place::PlainCr)),
        _ => keep(draft, byte, Place::Plain),
    }
}

/// In an unquoted field, after a carriage return.
fn after_plain_cr(draft: &mut Draft, sep: u8, byte: u8) -> Result<Move, CutFault>
    requires sep { IsTrue (is_separator sep) }
    requires small { size_of draft.old < 2 ^ 31 }
    ensures moves { Moves sep Place.PlainCr draft.old byte result draft.new }
    ensures size { size_of draft.new ≤ size_of draft.old + 2 }
{
    if byte == LINE_FEED {
        return Ok(Move::EndRecord);
    }
    draft.add(CARRIAGE_RETURN)?;
    in_plain(draft, sep, byte)
}

/// In a quoted field.
fn in_quotes(draft: &mut Draft, byte: u8) -> Result<Move, CutFault>
    ensures moves { (sep : ℕ) → Moves sep Place.Quoted draft.old byte result draft.new }
    ensures size { size_of draft.new ≤ size_of draft.old + 1 }
{
    if byte == QUOTE {
        Ok(Move::To(Place::QuoteInQuoted))
    } else {
        keep(draft, byte, Place::Quoted)
    }
}

/// In a quoted field, after a quote.
fn after_quote(draft: &mut Draft, sep: u8, byte: u8) -> Result<Move, CutFault>
    requires sep { IsTrue (is_separator sep) }
    requires small { size_of draft.old < 2 ^ 32 }
    ensures moves { Moves sep Place.QuoteInQuoted draft.old byte result draft.new }
    ensures size { size_of draft.new ≤ size_of draft.old + 1 }
{
    if byte == sep {
        return end_field(draft);
    }
    match byte {
        QUOTE => keep(draft, byte, Place::Quoted),
        LINE_FEED => Ok(Move::EndRecord),
        CARRIAGE_RETURN => Ok(Move::To(Place::ClosedCr)),
        _ => Err(CutFault::BadQuote),
    }
}

/// Adds the byte to the field, after which the next stands at the place.
fn keep(draft: &mut Draft, byte: u8, place: Place) -> Result<Move, CutFault>
    ensures kept { AddsByte place draft.old byte result draft.new }
    ensures size { size_of draft.new ≤ size_of draft.old + 1 }
{
    draft.add(byte)?;
    Ok(Move::To(place))
}

/// Ends the field.
fn end_field(draft: &mut Draft) -> Result<Move, CutFault>
    requires { size_of draft.old < 2 ^ 32 }
    ensures ended { EndsField draft.old result draft.new }
    ensures size { size_of draft.new ≤ size_of draft.old + 1 }
{
    draft.end_field()?;
    Ok(Move::To(Place::Field))
}
