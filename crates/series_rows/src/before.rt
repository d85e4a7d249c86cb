//! What stands before a row.

use crate::limits::MOST_ENDLESS_ROWS;
use crate::row::Row;
use screen_model::MOST_COLUMNS;
use std::marker::Model;

/// What stands before a record that is read as a row: how many rows, with how many readings, and the time of the last.
#[derive(Clone, Copy, PartialEq, Eq)]
pub struct RowsBefore {
    rows: u32,
    ticks: Option<i64>,
    readings: u64,
}

impl Model for RowsBefore {
    ghost use Rattle.series_rows.specs.Before.{BeforeView, rows_before};
    ghost use Rattle.series_rows.specs.Kept.{KeepsBefore};

    ghost Value = { BeforeView };

    ghost view = { λ b. rows_before b.rows b.ticks b.readings };

    ghost invariant = { λ b. KeepsBefore (rows_before b.rows b.ticks b.readings) };

    ghost inverse = { λ b. record { rows = b.rows; ticks = b.ticks; readings = b.readings } };
}

impl RowsBefore {
    ghost use Rattle.std.specs.Prelude.{◌≡◌, ◌*◌, ◌<◌, ◌≤◌};
    ghost use Rattle.series_rows.specs.Before.{BeforeView, rows_before, nothing_before, after_row};

    /// So many rows, the last of them with these ticks, and so many readings in them.
    pub fn new(rows: u32, ticks: Option<i64>, readings: u64) -> RowsBefore
        requires few { rows ≤ MOST_ENDLESS_ROWS }
        requires within { readings ≤ MOST_COLUMNS * rows }
        ensures { result ≡ rows_before rows ticks readings }
    {
        RowsBefore {
            rows,
            ticks,
            readings,
        }
    }

    /// Before the first row.
    pub fn none() -> RowsBefore
        ensures { result ≡ nothing_before }
    {
        RowsBefore::new(0, None, 0)
    }

    /// After one more row.
    pub fn after(self, row: &Row) -> RowsBefore
        requires { self.rows < MOST_ENDLESS_ROWS }
        ensures { result ≡ after_row self row.now }
    {
        RowsBefore {
            rows: self.rows + 1,
            ticks: Some(row.ticks()),
            readings: self.readings + row.readings().len() as u64,
        }
    }

    /// How many rows there are, at most 4,000,000,000.
    pub fn rows(self) -> u32
        ensures rows { result ≡ self.rows }
        ensures most { result ≤ MOST_ENDLESS_ROWS }
    {
        self.rows
    }

    /// The ticks of the last row; none before the first.
    pub fn ticks(self) -> Option<i64>
        ensures { result ≡ self.ticks }
    {
        self.ticks
    }

    /// How many readings the rows have.
    pub fn readings(self) -> u64
        ensures { result ≡ self.readings }
    {
        self.readings
    }
}
