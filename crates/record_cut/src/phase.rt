//! Where in a text a cutter stands, and what a byte does there.

use crate::fault::CutFault;

/// Where in a record the next byte stands.
#[derive(Clone, Copy)]
pub(crate) enum Place {
    /// At the beginning of a field.
    Field,
    /// In an unquoted field.
    Plain,
    /// In an unquoted field, after a carriage return that may belong to a line break.
    PlainCr,
    /// In a quoted field.
    Quoted,
    /// In a quoted field, after a quote that closes it or is one of two.
    QuoteInQuoted,
    /// After a carriage return that follows a closing quote.
    ClosedCr,
}

/// What has been read of the record.
#[derive(Clone, Copy)]
pub(crate) enum Phase {
    /// Nothing, and nothing of the text.
    Input,
    /// The first byte of the text, which begins a mark.
    MarkOne,
    /// The first two bytes of the text, which begin a mark.
    MarkTwo,
    /// Nothing.
    Record,
    /// A carriage return, which may belong to an empty line.
    RecordCr,
    /// A part, after which the next byte stands at this place.
    Inside(Place),
    /// The text was refused.
    Refused(CutFault),
}

/// What a byte of a record leads to.
#[derive(Clone, Copy)]
pub(crate) enum Move {
    /// To this place.
    To(Place),
    /// To the end of the record.
    EndRecord,
}

/// What the end of a text leaves.
#[derive(Clone, Copy)]
pub(crate) enum Ending {
    /// No record.
    Nothing,
    /// A record whose last field is as it is.
    Field,
    /// A record whose last field ends with a carriage return that waited.
    FieldAndCr,
    /// What is refused.
    Refuse(CutFault),
}

/// What a byte is to be taken for.
#[derive(Clone, Copy)]
pub(crate) enum Opening {
    /// The byte of a record at this place.
    Read(Place),
    /// A byte that belongs to no field or to a first one, as the next will show.
    Keep(Phase),
    /// The end of an empty line, or of the mark.
    Skip,
    /// A byte after a refusal.
    Refuse(CutFault),
}
