//! Laws of what a text is cut into. The contract of a function is the law; the call does nothing.

ghost use Rattle.record_cut.specs.Ended.{FaultsStay, RecordsStay};
ghost use Rattle.record_cut.specs.RoundTrip.{RoundTrip};
ghost use Rattle.record_cut.specs.Sizes.{ByFields, ByLines, OfNone, RecordsAreSmall};

/// What `row_text` writes for records, one after the other, is cut back into exactly these records, for
/// each separator.
pub fn row_texts_are_cut_back()
    ensures { RoundTrip }
{}

/// After a fault at a byte of a text, the records and the fault are the same whatever follows, and wherever
/// the text ends.
pub fn faults_stay()
    ensures { FaultsStay }
{}

/// The records of a text that may go on come first in each longer text.
pub fn records_stay()
    ensures { RecordsStay }
{}

/// A record that is cut has a field at least, and its fields with the separators between them have at most
/// `LONGEST` bytes.
pub fn records_are_small()
    ensures { RecordsAreSmall }
{}

/// A record is its fields, one after the other, and the records of some bytes are those of its lines: that the
/// definitions go over no more fields and lines than there are bytes leaves none out.
pub fn records_are_cut_by_lines()
    ensures fields { ByFields }
    ensures none { OfNone }
    ensures lines { ByLines }
{}
