//! A reader of readings files, which is fed the bytes of a file one at a time or by slices.

ghost use Rattle.std.specs.Prelude.{◌≡◌};
ghost use Rattle.series_csv.specs.StandsFor.{stage_after};

use crate::event::{Event, Taken};
use crate::laws::one_answer;
use crate::progress::Progress;
use record_cut::Cutter;
use rule_file::Rules;
use series_rows::{Limits, TableFault};
use std::alloc::Global;

/// Where a reader is.
#[derive(Clone, Copy)]
enum Stage {
    /// The file goes on.
    Open,
    /// It has been refused.
    Refused(TableFault),
    /// It has ended, and was not refused.
    Ended,
}

/// A reader of readings files, which hands out the header and the rows as their bytes come. After a refusal it refuses for
/// ever.
#[derive(Drop)]
pub struct RowReader<'a> {
    alloc: Global,
    rules: &'a Rules,
    limits: Limits,
    cutter: Cutter,
    stage: Stage,
    progress: Progress,
}

impl<'a> RowReader<'a> {
    ghost use Rattle.std.specs.Prelude.{◌≡◌, ℕ, ◌<◌, ◌≤◌, List, [], ◌∷◌, ◌++◌, take, length, Option, Some, None, Result, Ok, Err, OnOk, IfErr, IsOk};
    ghost use Rattle.rule_file.specs.declared.rules.Rules.{Rules};
    ghost use Rattle.series_rows.specs.declared.limits.Limits.{Limits};
    ghost use Rattle.series_rows.specs.declared.fault.TableFault.{TableFault};
    ghost use Rattle.series_csv.specs.StandsFor.{StandsFor, HasRefused, HasEnded};
    ghost use Rattle.series_csv.specs.Feeds.{Feeds, Ends};

    /// A reader that has read nothing, of a file with these rules and within these limits.
    pub fn new(alloc: Global, rules: &'a Rules, limits: Limits) -> RowReader<'a>
        ensures stands { StandsFor result rules.now limits [] }
        ensures is_open { ¬ HasEnded result }
    {
        RowReader {
            alloc,
            rules,
            limits,
            cutter: Cutter::new(alloc, rules.format.separator),
            stage: Stage::Open,
            progress: Progress::new(),
        }
    }

    /// Reads the next byte of the file. At the line feed that ends a record it answers the header or the row; an empty
    /// line is no record. No `finish` may have been accepted before.
    ///
    /// # Errors
    ///
    /// The first refusal of the file, at the byte where it stands, with its row and column; and for ever after.
    /// `Memory`, of row 0 and column 0, may come at any byte.
    pub fn feed(&mut self, byte: u8) -> Result<Option<Event>, TableFault>
        requires { ¬ HasEnded self.old }
        ensures feeds { (rules : Rules) (limits : Limits) (before : List ℕ)
            → StandsFor self.old rules limits before → Feeds rules limits before (byte ∷ []) result self.new }
        ensures stays_open { ¬ HasEnded self.new }

        ensures refuses { IfErr result (HasRefused self.new) }
        ensures refused { (fault : TableFault) → HasRefused self.old fault → result ≡ Err fault }
    {
        if let Stage::Refused(fault) = self.stage {
            return Err(fault);
        }
        // The law of the clauses; it does nothing.
        one_answer();
        let cut = self.cutter.feed(byte);
        let answer = self.progress.take(self.alloc, self.rules, self.limits, cut);
        self.stage = stage_after(&answer, Stage::Open);
        answer
    }

    /// Reads bytes of the file as `feed` would, one after the other, up to the first that ends a record or is refused, or
    /// all of them. The next call goes on after those that were taken. No `finish` may have been accepted before.
    ///
    /// Of no bytes it takes none. The errors are those of `feed`; after one it takes nothing.
    pub fn feed_slice(&mut self, bytes: &[u8]) -> Taken
        requires { ¬ HasEnded self.old }
        ensures feeds { (rules : Rules) (limits : Limits) (before : List ℕ)
            → StandsFor self.old rules limits before → Feeds rules limits before (take result.count bytes.now) result.answer self.new }
        ensures within { result.count ≤ length bytes.now }
        ensures some { 0 < length bytes.now → IsOk result.answer → 0 < result.count }
        ensures all { result.answer ≡ Ok None → result.count ≡ length bytes.now }
        ensures stays_open { ¬ HasEnded self.new }

        ensures refuses { IfErr result.answer (HasRefused self.new) }
        ensures refused { (fault : TableFault) → HasRefused self.old fault
            → result ≡ record { count = 0; answer = Err fault } }
    {
        if let Stage::Refused(fault) = self.stage {
            return Taken {
                count: 0,
                answer: Err(fault),
            };
        }
        // The law of the clauses; it does nothing.
        one_answer();
        let taken = self.cutter.feed_slice(bytes);
        let count = taken.count;
        let answer = self
            .progress
            .take(self.alloc, self.rules, self.limits, taken.answer);
        self.stage = stage_after(&answer, Stage::Open);
        Taken { count, answer }
    }

    /// The file has ended. Where bytes of a record stand after the last line break, it answers that header or row. No
    /// `finish` may have been accepted before, and after an answer without a refusal the reader is done.
    ///
    /// # Errors
    ///
    /// The first refusal of the file, where it stands at its end, with its row and column: `NoHeader`, of row 0 and
    /// column 0, where there is no record; and what the last record is refused for. `Memory`, as in `feed`.
    pub fn finish(&mut self) -> Result<Option<Event>, TableFault>
        requires { ¬ HasEnded self.old }
        ensures ends { (rules : Rules) (limits : Limits) (bytes : List ℕ)
            → StandsFor self.old rules limits bytes → Ends rules limits bytes result }
        ensures ended { OnOk result (HasEnded self.new) }

        ensures refuses { IfErr result (HasRefused self.new) }
        ensures refused { (fault : TableFault) → HasRefused self.old fault → result ≡ Err fault }
    {
        if let Stage::Refused(fault) = self.stage {
            return Err(fault);
        }
        // The law of the clauses; it does nothing.
        one_answer();
        let cut = self.cutter.finish();
        let answer = self
            .progress
            .take_last(self.alloc, self.rules, self.limits, cut);
        self.stage = stage_after(&answer, Stage::Ended);
        answer
    }
}

/// Where a reader is after this answer: at that stage, or refused.
fn stage_after(answer: &Result<Option<Event>, TableFault>, stage: Stage) -> Stage
    ensures { result ≡ stage_after answer.now stage }
{
    match answer {
        Ok(_) => stage,
        Err(fault) => Stage::Refused(*fault),
    }
}
