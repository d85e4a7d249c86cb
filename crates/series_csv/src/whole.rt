//! The reading of a whole table.
ghost use Rattle.std.specs.Prelude.{◌≡◌, ◌≢◌, ◌<◌, length, Result, Err, IfOk, IfErr};
ghost use Rattle.words.specs.Answers.{UnlessMemory};
ghost use Rattle.series_rows.specs.Faults.{of_the_file, of_memory};
ghost use Rattle.series_rows.specs.declared.fault.TableFault.{TableFault};
ghost use Rattle.series_csv.specs.File.{TableView, ReadsShort, ReadsTable, Spells, Refuses};

use crate::event::Event;
use crate::file_size::FileSize;
use crate::laws::{one_answer, read_stays};
use crate::reader::RowReader;
use crate::rows::Rows;
use crate::table::{LONGEST, Table};
use rule_file::Rules;
use series_rows::{Header, Limits, TableCause, TableFault};
use std::alloc::{AllocError, Global};

/// The table of a readings file, or the first reason to refuse it.
///
/// # Errors
///
/// `FileTooLong`, of row 0 and column 0, for more than 268,435,456 bytes; else the first refusal of the file, with its row
/// and column. `Memory`, of row 0 and column 0, may come at any time, but not for a file that is too long.
pub fn read_table(alloc: Global, rules: &Rules, bytes: &[u8]) -> Result<Table, TableFault>
    ensures accepted { IfOk result (Spells rules.now bytes.now) }
    ensures refused { IfErr result (λ fault. fault ≢ of_memory → Refuses rules.now bytes.now fault) }
    ensures only { (answer : Result TableView TableFault) → ReadsTable rules.now bytes.now answer →
        UnlessMemory of_memory (λ given. given ≡ answer) result }
    ensures too_long { LONGEST < length bytes.now → result ≡ Err (of_the_file TableCause.FileTooLong) }
{
    // The law of the clause `only`; it does nothing.
    one_answer();
    if bytes.len() > LONGEST {
        return Err(TableFault::too_long());
    }
    read_short(alloc, rules, bytes)
}

/// The table of a file that is not too long.
fn read_short(alloc: Global, rules: &Rules, bytes: &[u8]) -> Result<Table, TableFault>
    ensures { UnlessMemory of_memory (ReadsShort rules.now bytes.now) result }
{
    let mut reading = TableReader::new(alloc, rules, FileSize::of(bytes));
    let mut rest = bytes;
    while !rest.is_empty() {
        let count = reading.feed(rest)?;
        rest = rest.split_at(count).1;
    }
    reading.finish()
}

/// The header and the rows of a table that is being read.
#[derive(Drop)]
struct Draft {
    alloc: Global,
    /// The size of the file.
    size: FileSize,
    header: Option<Header>,
    rows: Rows,
}

impl Draft {
    ghost use Rattle.std.specs.Prelude.{◌≡◌, OnOk, IfErr, IsSome, Some};
    ghost use Rattle.series_rows.specs.Faults.{of_memory};
    ghost use Rattle.series_csv.specs.Feeds.{with_event};
    ghost use Rattle.series_csv.specs.Indexed.{AreIndexed};
    ghost use Rattle.series_csv.specs.Whole.{read_of, AreWithin};

    /// Adds the header or a row.
    fn add(&mut self, event: Event) -> Result<(), TableFault>
        requires indexed { AreIndexed self.old.rows }
        requires within { AreWithin (with_event (read_of self.old) event) }
        ensures added { OnOk result (read_of self.new ≡ with_event (read_of self.old) event) }
        ensures indexed { OnOk result (AreIndexed self.new.rows) }
        ensures err { IfErr result (λ fault. fault ≡ of_memory) }
    {
        match event {
            Event::Header(header) => match self.take_header(header) {
                Ok(()) => Ok(()),
                Err(_) => Err(TableFault::of_the_file(TableCause::Memory)),
            },
            Event::Row(row) => match self.rows.push(row) {
                Ok(()) => Ok(()),
                Err(_) => Err(TableFault::of_the_file(TableCause::Memory)),
            },
        }
    }

    /// Adds the header, and takes room for as many rows and readings as the file may have.
    fn take_header(&mut self, header: Header) -> Result<(), AllocError>
        requires { AreIndexed self.old.rows }
        ensures header { OnOk result (self.new.header ≡ Some header) }
        ensures rows { OnOk result (self.new.rows.rows ≡ self.old.rows.rows) }
        ensures indexed { OnOk result (AreIndexed self.new.rows) }
    {
        let columns = header.sensor_columns().len();
        let rows = self.size.row_room();
        let readings = self.size.reading_room(columns);
        self.rows.take_room(self.alloc, rows, readings)?;
        self.header = Some(header);
        Ok(())
    }

    /// The table, of which the header was read.
    fn into_table(self) -> Table
        requires indexed { AreIndexed self.rows }
        requires header { IsSome self.header }
        ensures rows { result.rows ≡ self.rows.rows }
        ensures header { self.header ≡ Some result.header }
    {
        Table::new(self.header.unwrap(), self.rows, self.size)
    }
}

/// A table that is being read.
#[derive(Drop)]
struct TableReader<'a> {
    reader: RowReader<'a>,
    draft: Draft,
}

impl<'a> TableReader<'a> {
    ghost use Rattle.std.specs.Prelude.{◌≡◌, ℕ, ◌<◌, ◌≤◌, List, [], length, IfOk};
    ghost use Rattle.words.specs.Answers.{UnlessMemory};
    ghost use Rattle.rule_file.specs.declared.rules.Rules.{Rules};
    ghost use Rattle.series_rows.specs.Faults.{of_memory};
    ghost use Rattle.series_csv.specs.File.{ReadsShort};
    ghost use Rattle.series_csv.specs.Whole.{IsReading, IsReadingSome, IsFed};

    /// Nothing was read of a file of that size.
    fn new(alloc: Global, rules: &'a Rules, size: FileSize) -> TableReader<'a>
        ensures { IsReading result rules.now [] }
    {
        TableReader {
            reader: RowReader::new(alloc, rules, Limits::Whole),
            draft: Draft {
                alloc,
                size,
                header: None,
                rows: Rows::new(alloc),
            },
        }
    }

    /// Reads bytes from the rest of the file, up to the end of a record, and says how many.
    fn feed(&mut self, rest: &[u8]) -> Result<usize, TableFault>
        requires { IsReadingSome self.old }
        ensures fed { (rules : Rules) (bytes : List ℕ) → IsReading self.old rules bytes → IsFed rules bytes rest.now result self.new }
        ensures within { IfOk result (λ count. count ≤ length rest.now) }
        ensures some { 0 < length rest.now → IfOk result (λ count. 0 < count) }
    {
        // The law that a refusal stays, whatever follows; it does nothing.
        read_stays();
        let taken = self.reader.feed_slice(rest);
        let count = taken.count;
        match taken.answer? {
            None => Ok(count),
            Some(event) => {
                self.draft.add(event)?;
                Ok(count)
            }
        }
    }

    /// The file has ended.
    fn finish(self) -> Result<Table, TableFault>
        requires { IsReadingSome self }
        ensures { (rules : Rules) (bytes : List ℕ) → IsReading self.entry rules bytes → UnlessMemory of_memory (ReadsShort rules bytes) result }
    {
        let TableReader {
            mut reader,
            mut draft,
        } = self;
        match reader.finish()? {
            None => Ok(draft.into_table()),
            Some(event) => {
                draft.add(event)?;
                Ok(draft.into_table())
            }
        }
    }
}
