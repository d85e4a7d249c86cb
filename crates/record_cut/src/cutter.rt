//! A cutter of CSV records, which is fed the bytes of a text one at a time or by slices.

ghost use Rattle.std.specs.Prelude.{◌≤◌, ◌*◌, IsTrue};
ghost use Rattle.words.specs.Separators.{is_separator};
ghost use Rattle.record_cut.specs.Drafted.{size_of};
ghost use Rattle.record_cut.specs.declared.cutter.TheConstants.{LONGEST};

use crate::bytes::{LINE_FEED, before_quote, before_special};
use crate::draft::Draft;
use crate::fault::CutFault;
use crate::fields::Fields;
use crate::phase::{Ending, Move, Opening, Phase, Place};
use crate::place::{ending, in_unquoted, opening, read};
use crate::taken::Taken;
use std::alloc::Global;

/// The most bytes of a record, its line break counted.
pub const LONGEST: u32 = 65_536;

/// A cutter of CSV records. It keeps no more of the text than the record that it is in. After a refusal it
/// refuses each byte that follows, and the end of the text.
#[derive(Drop)]
pub struct Cutter {
    alloc: Global,
    sep: u8,
    phase: Phase,
    count: u32,
    draft: Draft,
    ghost separates: { IsTrue (is_separator sep) },
    ghost short: { count ≤ LONGEST },
    ghost small: { size_of draft ≤ 2 * count },
}

impl Cutter {
    ghost use Rattle.std.specs.Prelude.{◌≡◌, ℕ, ◌+◌, ◌<◌, ◌≤◌, true, false, List, [], ◌∷◌, ◌++◌, take, length, Option, Some, None, Result, Ok, Err, IsTrue, IfOk, OnOk, IfErr};
    ghost use Rattle.words.specs.Separators.{is_separator};
    ghost use Rattle.record_cut.specs.StandsFor.{StandsFor, HasRefused, HasBegun};
    ghost use Rattle.record_cut.specs.Feeds.{GoesOn, Feeds, Ends, taken_after};
    ghost use Rattle.record_cut.specs.Row.{holds_special};
    ghost use Rattle.record_cut.specs.Moves.{is_unquoted};
    ghost use Rattle.record_cut.specs.declared.phase.Place.TheVariants.{Quoted};
    ghost use Rattle.record_cut.specs.declared.phase.Phase.TheVariants.{Inside};
    ghost use Rattle.record_cut.specs.declared.fault.CutFault.{CutFault};

    /// A cutter that has read nothing, of a text whose fields `sep` separates: a comma, a semicolon, a tab
    /// or a vertical bar. It takes no memory.
    pub fn new(alloc: Global, sep: u8) -> Cutter
        requires { IsTrue (is_separator sep) }
        ensures { StandsFor result sep [] }
    {
        Cutter {
            alloc,
            sep,
            phase: Phase::Input,
            count: 0,
            draft: Draft::new(alloc),
        }
    }

    /// Reads the next byte of the text. At the line feed that ends a record it answers that record's
    /// fields; an empty line is no record.
    ///
    /// `BadQuote` and `RecordTooLong` come at the byte that is wrong, `Memory` at any byte, and each for
    /// ever after.
    pub fn feed(&mut self, byte: u8) -> Result<Option<Fields>, CutFault>
        ensures feeds { (sep : ℕ) (before : List ℕ)
            → StandsFor self.old sep before → Feeds sep before (byte ∷ []) result self.new }
        ensures refuses { IfErr result (HasRefused self.new) }
        ensures refused { (fault : CutFault) → HasRefused self.old fault → result ≡ Err fault }
    {
        if let Phase::Refused(fault) = self.phase {
            return Err(fault);
        }
        let answer = self.step(byte);
        if let Err(fault) = &answer {
            self.phase = Phase::Refused(*fault);
        }
        answer
    }

    /// Reads bytes of the text as `feed` would, one after the other, up to the first that ends a record or is
    /// refused, or all of them. The next call goes on after those that were taken.
    ///
    /// Of no bytes it takes none, and refuses none. The faults are those of `feed`.
    pub fn feed_slice(&mut self, bytes: &[u8]) -> Taken
        ensures feeds { (sep : ℕ) (before : List ℕ)
            → StandsFor self.old sep before
            → Feeds sep before (take result.count bytes.now) result.answer self.new }
        ensures within { result.count ≤ length bytes.now }
        ensures all { result.answer ≡ Ok None → result.count ≡ length bytes.now }
        ensures some { 0 < length bytes.now → 0 < result.count }
        ensures none { length bytes.now ≡ 0 → result.answer ≡ Ok None }

        ensures refuses { IfErr result.answer (HasRefused self.new) }
        ensures refused { (fault : CutFault) → HasRefused self.old fault
            → HasRefused self.new fault × (result ≡ taken_after fault bytes.now) }
    {
        let mut count = 0;
        while count < bytes.len() {
            let next = self.feed_run(&bytes[count..]);
            count += next.count;
            if !next.goes_on() {
                return Taken {
                    count,
                    answer: next.answer,
                };
            }
        }
        Taken {
            count,
            answer: Ok(None),
        }
    }

    /// The text has ended. Where bytes of a record stand after the last line break, it answers that
    /// record's fields. After an answer without a refusal the cutter is as new.
    ///
    /// `OpenQuote` comes where a quoted field is not closed, `BadQuote` where the last byte is a carriage
    /// return after a closing quote.
    pub fn finish(&mut self) -> Result<Option<Fields>, CutFault>
        ensures ends { (sep : ℕ) (bytes : List ℕ)
            → StandsFor self.old sep bytes → Ends sep bytes result self.new }
        ensures refuses { IfErr result (HasRefused self.new) }
        ensures refused { (fault : CutFault) → HasRefused self.old fault → result ≡ Err fault }
    {
        if let Phase::Refused(fault) = self.phase {
            return Err(fault);
        }
        let answer = self.end_text();
        if let Err(fault) = &answer {
            self.phase = Phase::Refused(*fault);
        }
        answer
    }

    /// Reads the bytes that come first and only go on with the record, and the byte after them.
    fn feed_run(&mut self, bytes: &[u8]) -> Taken
        requires { 0 < length bytes.now }
        ensures feeds { (sep : ℕ) (before : List ℕ)
            → StandsFor self.old sep before
            → Feeds sep before (take result.count bytes.now) result.answer self.new }
        ensures within { result.count ≤ length bytes.now }
        ensures some { 0 < result.count }

        ensures refuses { IfErr result.answer (HasRefused self.new) }
        ensures refused { (fault : CutFault) → HasRefused self.old fault
            → result ≡ record { count = 1; answer = Err fault } }
    {
        let run = match self.take_run(bytes) {
            Ok(run) => run,
            Err(fault) => {
                self.phase = Phase::Refused(fault);
                return Taken {
                    count: 1,
                    answer: Err(fault),
                };
            }
        };
        if run == bytes.len() {
            return Taken {
                count: run,
                answer: Ok(None),
            };
        }
        Taken {
            count: run + 1,
            answer: self.feed_after(bytes[run]),
        }
    }

    /// Reads the byte after a run, as `feed` does. Mostly it is the line feed after an unquoted field.
    fn feed_after(&mut self, byte: u8) -> Result<Option<Fields>, CutFault>
        ensures feeds { (sep : ℕ) (before : List ℕ)
            → StandsFor self.old sep before → Feeds sep before (byte ∷ []) result self.new }
        ensures refuses { IfErr result (HasRefused self.new) }
        ensures refused { (fault : CutFault) → HasRefused self.old fault → result ≡ Err fault }
    {
        if byte != LINE_FEED || !in_unquoted(self.phase) || self.count >= LONGEST {
            return self.feed(byte);
        }
        match self.end_record(Phase::Record, b"") {
            Ok(fields) => Ok(Some(fields)),
            Err(fault) => {
                self.phase = Phase::Refused(fault);
                Err(fault)
            }
        }
    }

    /// Takes the bytes that come first and only go on with the record, as many as the record may have, and says
    /// how many.
    fn take_run(&mut self, bytes: &[u8]) -> Result<usize, CutFault>
        ensures within { IfOk result (λ run. run ≤ length bytes.now) }
        ensures goes_on { (sep : ℕ) (before : List ℕ)
            → StandsFor self.old sep before
            → IfOk result (λ run. GoesOn sep before (take run bytes.now) [] self.new) }
        ensures err { IfErr result (λ fault. fault ≡ CutFault.Memory) }
        ensures refused { (fault : CutFault) → HasRefused self.old fault
            → HasRefused self.new fault × (result ≡ Ok 0) }
    {
        let room = (LONGEST - self.count) as usize;
        let bytes = &bytes[..bytes.len().min(room)];
        match self.phase {
            Phase::Record | Phase::Inside(Place::Field) | Phase::Inside(Place::Plain) => {
                self.take_unquoted(bytes)
            }
            Phase::Inside(Place::Quoted) => self.take_quoted(bytes),
            _ => Ok(0),
        }
    }

    /// Takes the ordinary bytes and the separators that come first, where the next byte is of an unquoted
    /// field, and says how many.
    fn take_unquoted(&mut self, bytes: &[u8]) -> Result<usize, CutFault>
        requires unquoted { is_unquoted self.old.phase ≡ true }
        requires room { self.old.count + length bytes.now ≤ LONGEST }
        ensures within { IfOk result (λ run. run ≤ length bytes.now) }
        ensures goes_on { (sep : ℕ) (before : List ℕ)
            → StandsFor self.old sep before
            → IfOk result (λ run. GoesOn sep before (take run bytes.now) [] self.new) }
        ensures err { IfErr result (λ fault. fault ≡ CutFault.Memory) }
    {
        let mut count = 0;
        while count < bytes.len() {
            let run = before_special(&bytes[count..], self.sep);
            if run > 0 {
                self.take_ordinary(&bytes[count..count + run])?;
                count += run;
            } else if bytes[count] == self.sep {
                self.take_separator(bytes[count])?;
                count += 1;
            } else {
                return Ok(count);
            }
        }
        Ok(count)
    }

    /// Takes ordinary bytes of an unquoted field.
    fn take_ordinary(&mut self, bytes: &[u8]) -> Result<(), CutFault>
        requires unquoted { is_unquoted self.old.phase ≡ true }
        requires some { 0 < length bytes.now }
        requires room { self.old.count + length bytes.now ≤ LONGEST }
        requires ordinary { holds_special self.old.sep bytes.now ≡ false }
        ensures goes_on { (sep : ℕ) (before : List ℕ)
            → StandsFor self.old sep before
            → OnOk result (GoesOn sep before bytes.now [] self.new) }
        ensures unquoted { OnOk result (is_unquoted self.new.phase ≡ true) }
        ensures count { OnOk result (self.new.count ≡ self.old.count + length bytes.now) }
        ensures err { IfErr result (λ fault. fault ≡ CutFault.Memory) }
    {
        self.draft.extend(bytes)?;
        self.count += bytes.len() as u32;
        self.phase = Phase::Inside(Place::Plain);
        Ok(())
    }

    /// Takes the separator that ends an unquoted field.
    fn take_separator(&mut self, byte: u8) -> Result<(), CutFault>
        requires unquoted { is_unquoted self.old.phase ≡ true }
        requires room { self.old.count < LONGEST }
        requires separator { byte ≡ self.old.sep }
        ensures goes_on { (sep : ℕ) (before : List ℕ)
            → StandsFor self.old sep before
            → OnOk result (GoesOn sep before (byte ∷ []) [] self.new) }
        ensures unquoted { OnOk result (is_unquoted self.new.phase ≡ true) }
        ensures count { OnOk result (self.new.count ≡ self.old.count + 1) }
        ensures err { IfErr result (λ fault. fault ≡ CutFault.Memory) }
    {
        self.count += 1;
        self.draft.end_field()?;
        self.phase = Phase::Inside(Place::Field);
        Ok(())
    }

    /// Takes the bytes that come before the first quote, where the next byte is of a quoted field, and says how
    /// many.
    fn take_quoted(&mut self, bytes: &[u8]) -> Result<usize, CutFault>
        requires quoted { self.old.phase ≡ Inside Quoted }
        requires room { self.old.count + length bytes.now ≤ LONGEST }
        ensures within { IfOk result (λ run. run ≤ length bytes.now) }
        ensures goes_on { (sep : ℕ) (before : List ℕ)
            → StandsFor self.old sep before
            → IfOk result (λ run. GoesOn sep before (take run bytes.now) [] self.new) }
        ensures err { IfErr result (λ fault. fault ≡ CutFault.Memory) }
    {
        let run = before_quote(bytes);
        self.draft.extend(&bytes[..run])?;
        self.count += run as u32;
        Ok(run)
    }

    /// The next byte, where nothing has been refused.
    fn step(&mut self, byte: u8) -> Result<Option<Fields>, CutFault>
        ensures { (sep : ℕ) (before : List ℕ)
            → StandsFor self.old sep before → Feeds sep before (byte ∷ []) result self.new }
    {
        if self.count >= LONGEST {
            return Err(CutFault::RecordTooLong);
        }
        self.count += 1;
        match opening(self.phase, byte) {
            Opening::Read(place) => match read(&mut self.draft, self.sep, place, byte)? {
                Move::To(next) => {
                    self.phase = Phase::Inside(next);
                    Ok(None)
                }
                Move::EndRecord => Ok(Some(self.end_record(Phase::Record, b"")?)),
            },
            Opening::Keep(phase) => {
                self.draft.add(byte)?;
                self.phase = phase;
                Ok(None)
            }
            Opening::Skip => {
                self.begin(Phase::Record);
                Ok(None)
            }
            Opening::Refuse(fault) => Err(fault),
        }
    }

    /// The end of the text, where nothing has been refused.
    fn end_text(&mut self) -> Result<Option<Fields>, CutFault>
        ensures { (sep : ℕ) (bytes : List ℕ)
            → StandsFor self.old sep bytes → Ends sep bytes result self.new }
    {
        match ending(self.phase) {
            Ending::Nothing => {
                self.begin(Phase::Input);
                Ok(None)
            }
            Ending::Field => Ok(Some(self.end_record(Phase::Input, b"")?)),
            Ending::FieldAndCr => Ok(Some(self.end_record(Phase::Input, b"\r")?)),
            Ending::Refuse(fault) => Err(fault),
        }
    }

    /// Hands out the fields of the record, of which the last ends with the byte that waited, if one did, and
    /// begins the next record in this phase.
    fn end_record(&mut self, phase: Phase, waiting: &[u8]) -> Result<Fields, CutFault>
        requires { length waiting.now ≤ 1 }
        ensures fields { IfOk result
            (λ fields. fields ≡ self.old.draft.fields ++ (self.old.draft.field ++ waiting.now) ∷ []) }
        ensures begun { OnOk result (HasBegun phase self.new) }
        ensures sep { self.new.sep ≡ self.old.sep }
        ensures err { IfErr result (λ fault. fault ≡ CutFault.Memory) }
    {
        let fields = self.draft.take_fields(self.alloc, waiting);
        self.phase = phase;
        self.count = 0;
        Ok(fields?)
    }

    /// Begins the next record, of which nothing has been read, in this phase.
    fn begin(&mut self, phase: Phase)
        ensures begun { HasBegun phase self.new }
        ensures sep { self.new.sep ≡ self.old.sep }
    {
        self.draft.clear();
        self.phase = phase;
        self.count = 0;
    }
}
