//! A readings file as a whole table.

use crate::file_size::FileSize;
use crate::rows::Rows;
use screen_model::{Place, Places, Series};
use series_rows::{Header, Row};
use std::marker::Model;

/// The most bytes of a table's file.
pub const LONGEST: usize = 268_435_456;

/// A readings file that was read whole: its header and its rows. The readings have an order, by row and then by column.
#[derive(Drop)]
pub struct Table {
    header: Header,
    rows: Rows,
    /// The size of the file.
    size: FileSize,
}

impl Model for Table {
    ghost use Rattle.series_csv.specs.File.{TableView};
    ghost use Rattle.series_csv.specs.Indexed.{AreIndexed};

    ghost Value = { TableView };

    ghost view = { λ t. record { header = t.header; rows = t.rows.rows } };

    ghost invariant = { λ t. AreIndexed t.rows };
}

impl Table {
    ghost use Rattle.std.specs.Prelude.{◌≡◌, ◌==◌, ◌≤◌, length, slice_get, option_copied, MatchOption, Contains, Some};
    ghost use Rattle.std.specs.List.{AllByRecursion};
    ghost use Rattle.words.specs.Lists.{Distinct};
    ghost use Rattle.screen_model.specs.declared.limits.TheConstants.{MOST_ROWS, MOST_READINGS};
    ghost use Rattle.series_csv.specs.File.{TableView};
    ghost use Rattle.series_csv.specs.Indexed.{AreIndexed};
    ghost use Rattle.series_csv.specs.Readings.{row_at, places, values, IsSmall, AreInOrder, TimesRise};

    /// The table of a header and rows, which were read of a file of that size.
    pub(crate) fn new(header: Header, rows: Rows, size: FileSize) -> Table
        requires { AreIndexed rows }
        ensures { result ≡ record { header = header; rows = rows.rows } }
    {
        Table { header, rows, size }
    }

    /// Room for its text with any values.
    pub(crate) fn text_room(&self) -> usize {
        self.size.text_room(self.rows.values.len())
    }

    /// The header.
    pub fn header(&self) -> &Header
        ensures { result.now ≡ self.now.header }
    {
        &self.header
    }

    /// How many rows there are, at most 200,000.
    pub fn rows(&self) -> u32
        ensures rows { result ≡ length self.now.rows }
        ensures most { result ≤ MOST_ROWS }
    {
        self.rows.rows.len() as u32
    }

    /// The row of a number, counted from 1. `None` exactly where there is none.
    pub fn row(&self, r: u32) -> Option<&Row>
        ensures { option_copied result ≡ row_at self.now r }
    {
        let place = (r as usize).checked_sub(1)?;
        self.rows.rows.get(place)
    }

    /// All rows in order: each has a later time than those before it.
    pub fn all_rows(&self) -> &[Row]
        ensures rows { result.now ≡ self.now.rows }
        ensures times { TimesRise self.now.rows }
    {
        self.rows.rows.as_slice()
    }

    /// How many readings there are, at most 400,000.
    pub fn len(&self) -> u32
        ensures len { result ≡ length (values self.now) }
        ensures most { result ≤ MOST_READINGS }
    {
        self.rows.values.len() as u32
    }

    /// Whether there is no reading.
    pub fn is_empty(&self) -> bool
        ensures { result ≡ (length (values self.now) == 0) }
    {
        self.rows.values.is_empty()
    }

    /// The place of the reading with this number, counted from 0. `None` exactly where there is none.
    pub fn place(&self, i: u32) -> Option<Place>
        ensures { result ≡ slice_get (places self.now) i }
    {
        self.rows.places.get(i as usize).copied()
    }

    /// The number of the reading at a place, counted from 0. `None` exactly where no reading is there.
    pub fn index(&self, place: Place) -> Option<u32>
        ensures { MatchOption result (¬ Contains (places self.now) place) (λ i. slice_get (places self.now) i ≡ Some place) }
    {
        self.rows.index(place)
    }

    /// The value of the reading with this number, counted from 0. `None` exactly where there is none.
    pub fn reading(&self, i: u32) -> Option<i64>
        ensures { result ≡ slice_get (values self.now) i }
    {
        self.rows.values.get(i as usize).copied()
    }

    /// The places of all readings: by row, and then by column. None stands twice.
    pub fn places(&self) -> &Places
        ensures places { result.now ≡ places self.now }
        ensures order { AreInOrder (places self.now) }
        ensures distinct { Distinct (places self.now) }
        ensures len { length (places self.now) ≡ length (values self.now) }
    {
        &self.rows.places
    }

    /// The series that was read: the value of each reading, in the order of their places, in units and at most 10^15 in
    /// size.
    pub fn series(&self) -> &Series
        ensures values { result.now ≡ values self.now }
        ensures small { AllByRecursion IsSmall (values self.now) }
    {
        &self.rows.values
    }
}
