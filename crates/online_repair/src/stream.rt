//! A readings file as its bytes come: what is read of it, and the engine that repairs its rows.
ghost use Rattle.std.specs.Prelude.{◌≡◌, [], ◌++◌, IfErr, IfOk};
ghost use Rattle.series_rows.specs.Texts.{header_text};
ghost use Rattle.series_csv.specs.Read.{Read};
ghost use Rattle.online_repair.specs.Keeping.{KeepsRows};
ghost use Rattle.online_repair.specs.Streams.{CanTake, MayTake, TakesEvent};
ghost use Rattle.online_repair.specs.declared.fault.OnlineFault.{OnlineFault};

use crate::engine::{Engine, accept, close};
use crate::fault::{OnlineFault, fault_of};
use rule_file::Rules;
use series_csv::{Event, Header, Limits, RowReader, one_answer, push_header, read_stays};
use std::alloc::Global;

/// A readings file that comes in pieces, and is repaired by rules.
#[derive(Drop)]
pub(crate) struct Stream<'a> {
    alloc: Global,
    rules: &'a Rules,
    reader: RowReader<'a>,
    /// What is kept after the header, once it was read.
    pub(crate) engine: Option<Engine>,
}

impl<'a> Stream<'a> {
    ghost use Rattle.std.specs.Prelude.{◌≡◌, ℕ, ◌<◌, ◌≤◌, List, [], length, IfOk};
    ghost use Rattle.rule_file.specs.declared.rules.Rules.{Rules};
    ghost use Rattle.online_repair.specs.Held.{held_by};
    ghost use Rattle.online_repair.specs.StandsFor.{CanGoOn, GoesOn};
    ghost use Rattle.online_repair.specs.Streams.{Feeds, FeedsSome, Finishes, ReadsLast};

    /// Nothing was read.
    pub(crate) fn new(alloc: Global, rules: &'a Rules) -> Stream<'a>
        ensures { GoesOn result rules.now [] }
    {
        Stream {
            alloc,
            rules,
            reader: RowReader::new(alloc, rules, Limits::Endless),
            engine: None,
        }
    }

    /// How many rows are held.
    pub(crate) fn held(&self) -> usize
        ensures { result ≡ length (held_by self.now.engine) }
    {
        match &self.engine {
            Some(engine) => engine.held.len(),
            None => 0,
        }
    }

    /// Takes a piece of the file.
    pub(crate) fn feed(&mut self, bytes: &[u8], out: &mut Vec<u8>) -> Result<(), OnlineFault>
        requires { CanGoOn self.old }
        ensures { (rules : Rules) (before : List ℕ) → GoesOn self.old rules before → Feeds rules before bytes.now result self.new out.old.items out.new.items }
    {
        // The law that what was read is one thing only; it does nothing.
        one_answer();
        let mut rest = bytes;
        while !rest.is_empty() {
            let count = self.feed_some(rest, out)?;
            rest = rest.split_at(count).1;
        }
        Ok(())
    }

    /// Takes bytes from the rest of a piece, up to the end of a record, and says how many.
    #[tactic(none)]
    fn feed_some(&mut self, rest: &[u8], out: &mut Vec<u8>) -> Result<usize, OnlineFault>
        requires { CanGoOn self.old }
        ensures fed { (rules : Rules) (before : List ℕ) → GoesOn self.old rules before → FeedsSome rules before rest.now result self.new out.old.items out.new.items }
        ensures within { IfOk result (λ count. count ≤ length rest.now) }
        ensures some { 0 < length rest.now → IfOk result (λ count. 0 < count) }
    {
        // The laws that what was read stays, and is one thing only; they do nothing.
        read_stays();
        one_answer();
        let taken = self.reader.feed_slice(rest);
        let count = taken.count;
        match taken.answer? {
            None => Ok(count),
            Some(event) => {
                take(self.alloc, self.rules, &mut self.engine, event, out)?;
                Ok(count)
            }
        }
    }

    /// The file ends: all rows are written.
    #[tactic(none)]
    pub(crate) fn finish(&mut self, out: &mut Vec<u8>) -> Result<(), OnlineFault>
        requires { CanGoOn self.old }
        ensures { (rules : Rules) (bytes : List ℕ) → GoesOn self.old rules bytes → Finishes rules bytes result self.new out.old.items out.new.items }
    {
        // The law that what was read is one thing only; it does nothing.
        one_answer();
        self.read_last(out)?;
        match &mut self.engine {
            Some(engine) => close(engine, self.rules, out),
            None => Ok(()),
        }
    }

    /// The file ends: the reader is told, and what it answers is taken.
    #[tactic(none)]
    fn read_last(&mut self, out: &mut Vec<u8>) -> Result<(), OnlineFault>
        requires { CanGoOn self.old }
        ensures { (rules : Rules) (bytes : List ℕ) → GoesOn self.old rules bytes → ReadsLast rules bytes result self.new out.old.items out.new.items }
    {
        // The laws that what was read stays, and is one thing only; they do nothing.
        read_stays();
        one_answer();
        match self.reader.finish() {
            Ok(None) => Ok(()),
            Ok(Some(event)) => take(self.alloc, self.rules, &mut self.engine, event, out),
            Err(fault) => Err(fault_of(fault)),
        }
    }
}

/// Takes the header or a row.
#[tactic(none)]
fn take(
    alloc: Global,
    rules: &Rules,
    engine: &mut Option<Engine>,
    event: Event,
    out: &mut Vec<u8>,
) -> Result<(), OnlineFault>
    requires { CanTake rules.now event engine.old }
    ensures { (read : Read) → MayTake rules.now read event engine.old → TakesEvent rules.now read event result engine.new out.old.items out.new.items }
{
    match event {
        Event::Header(header) => {
            *engine = Some(begin(alloc, rules, &header, out)?);
            Ok(())
        }
        Event::Row(row) => match engine {
            Some(engine) => accept(engine, rules, row, out),
            None => Ok(()),
        },
    }
}

/// The engine after the header, whose text is added.
fn begin(
    alloc: Global,
    rules: &Rules,
    header: &Header,
    out: &mut Vec<u8>,
) -> Result<Engine, OnlineFault>
    ensures begun { IfOk result (λ engine. KeepsRows rules.now header.now [] engine × (out.new.items ≡ out.old.items ++ header_text rules.now header.now)) }
    ensures memory { IfErr result (λ fault. (fault ≡ OnlineFault.Memory) × (out.new.items ≡ out.old.items)) }
{
    let engine = Engine::new(alloc, rules, header)?;
    push_header(out, rules, header)?;
    Ok(engine)
}
