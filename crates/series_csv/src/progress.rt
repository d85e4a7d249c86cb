//! What was read of a file, as far as the next record needs it.

use crate::event::Event;
use record_cut::{CutFault, Fields};
use rule_file::Rules;
use series_rows::{Header, Limits, RowsBefore, TableCause, TableFault, read_header, read_row};
use std::alloc::Global;

/// The header and what stands before the next row.
#[derive(Drop)]
pub(crate) struct Progress {
    /// A copy of the header that was handed out, if one was.
    pub(crate) header: Option<Header>,
    /// What stands before the next row.
    pub(crate) before: RowsBefore,
}

impl Progress {
    ghost use Rattle.std.specs.Prelude.{◌≡◌, None};
    ghost use Rattle.series_rows.specs.Before.{nothing_before};
    ghost use Rattle.series_csv.specs.Progress.{Reads, Takes, TakesLast, number_of_next, uncut};

    /// Nothing was read.
    pub(crate) fn new() -> Progress
        ensures header { result.header ≡ None }
        ensures before { result.before ≡ nothing_before }
    {
        Progress {
            header: None,
            before: RowsBefore::none(),
        }
    }

    /// Goes on with what was cut off: the record with these fields, no record, or a fault.
    pub(crate) fn take(
        &mut self,
        alloc: Global,
        rules: &Rules,
        limits: Limits,
        cut: Result<Option<Fields>, CutFault>,
    ) -> Result<Option<Event>, TableFault>
        ensures { Takes rules.now limits self.old cut result self.new }
    {
        match cut {
            Ok(None) => Ok(None),
            Ok(Some(fields)) => match self.read(alloc, rules, limits, fields) {
                Ok(event) => Ok(Some(event)),
                Err(fault) => Err(fault),
            },
            Err(fault) => Err(self.uncut(fault)),
        }
    }

    /// The same at the end of the file.
    pub(crate) fn take_last(
        &mut self,
        alloc: Global,
        rules: &Rules,
        limits: Limits,
        cut: Result<Option<Fields>, CutFault>,
    ) -> Result<Option<Event>, TableFault>
        ensures { TakesLast rules.now limits self.old cut result }
    {
        match cut {
            Ok(None) if self.header.is_none() => {
                Err(TableFault::of_the_file(TableCause::NoHeader))
            }
            cut => self.take(alloc, rules, limits, cut),
        }
    }

    /// Reads the fields of the next record.
    fn read(
        &mut self,
        alloc: Global,
        rules: &Rules,
        limits: Limits,
        fields: Fields,
    ) -> Result<Event, TableFault>
        ensures { Reads rules.now limits self.old fields result self.new }
    {
        match &self.header {
            None => {
                let header = read_header(alloc, rules, fields)?;
                let Ok(copy) = header.copy(alloc) else {
                    return Err(TableFault::of_the_file(TableCause::Memory));
                };
                self.header = Some(copy);
                Ok(Event::Header(header))
            }
            Some(header) => {
                let row = read_row(alloc, rules, header, limits, self.before, fields)?;
                self.before = self.before.after(&row);
                Ok(Event::Row(row))
            }
        }
    }

    /// The refusal of a record that is not cut off.
    fn uncut(&self, fault: CutFault) -> TableFault
        ensures { result ≡ uncut self.now fault }
    {
        match fault {
            CutFault::Memory => TableFault::of_the_file(TableCause::Memory),
            fault => TableFault::at(self.number_of_next(), 0, TableCause::Cut(fault)),
        }
    }

    /// The number of the next record, which is 0 for the header.
    fn number_of_next(&self) -> u32
        ensures { result ≡ number_of_next self.now.header self.now.before }
    {
        match &self.header {
            None => 0,
            Some(_) => self.before.rows() + 1,
        }
    }
}
