//! A row of a readings file.
ghost use Rattle.std.specs.Prelude.{◌≡◌};
ghost use Rattle.series_rows.specs.Row.{sensor_cell};

use crate::cell::{Cell, RowReading};
use crate::cells::SensorCells;
use record_cut::Fields;
use screen_model::MOST_COLUMNS;
use std::marker::Model;

/// A row of a readings file. It keeps its fields as they were read, and what the rules need of them.
#[derive(Drop)]
pub struct Row {
    fields: Fields,
    ticks: i64,
    time_col: u32,
    cells: SensorCells,
}

impl Model for Row {
    ghost use Rattle.series_rows.specs.Row.{RowView};
    ghost use Rattle.series_rows.specs.Kept.{row_view, seen_cells, KeepsRow};

    ghost Value = { RowView };

    ghost view = { λ r. row_view r.fields r.ticks r.time_col (seen_cells r.cells) };

    ghost invariant = { λ r. KeepsRow (row_view r.fields r.ticks r.time_col (seen_cells r.cells)) };
}

impl Row {
    ghost use Rattle.std.specs.Prelude.{◌≡◌, ◌≤◌, length};
    ghost use Rattle.series_rows.specs.Row.{RowView, cell_at, columns, Rise};
    ghost use Rattle.series_rows.specs.Kept.{row_view, seen_cells, KeepsRow};

    /// The row of these parts.
    pub(crate) fn new(fields: Fields, ticks: i64, time_col: u32, cells: SensorCells) -> Row
        requires { KeepsRow (row_view fields ticks time_col (seen_cells cells)) }
        ensures { result ≡ row_view fields ticks time_col (seen_cells cells) }
    {
        Row {
            fields,
            ticks,
            time_col,
            cells,
        }
    }

    /// The time, in ticks: nanoseconds.
    pub fn ticks(&self) -> i64
        ensures { result ≡ self.now.ticks }
    {
        self.ticks
    }

    /// The cell in a column, counted from 1. `None` exactly where the row has no such column.
    pub fn cell(&self, col: u32) -> Option<Cell>
        ensures { result ≡ cell_at self.now col }
    {
        if col == 0 || col > self.fields.width() {
            return None;
        }
        if col == self.time_col {
            return Some(Cell::Time);
        }
        Some(sensor_cell(
            self.cells.readings.as_slice(),
            self.cells.missing.as_slice(),
            col,
        ))
    }

    /// The fields as they were read.
    pub fn fields(&self) -> &Fields
        ensures fields { result.now ≡ self.now.fields }
        ensures least { 1 ≤ length result.now }
        ensures most { length result.now ≤ MOST_COLUMNS }
    {
        &self.fields
    }

    /// The readings, from the left: their columns go up.
    pub fn readings(&self) -> &[RowReading]
        ensures readings { result.now ≡ self.now.readings }
        ensures rise { Rise 0 (columns result.now) (length self.now.fields) }
        ensures most { length result.now ≤ MOST_COLUMNS }
    {
        self.cells.readings.as_slice()
    }
}

/// The cell of a sensor column, of which these are the readings and those without one; text in any other column.
fn sensor_cell(readings: &[RowReading], missing: &[u32], col: u32) -> Cell
    ensures { result ≡ sensor_cell readings.now missing.now col }
{
    for reading in readings {
        if reading.col == col {
            return Cell::Reading(reading.value);
        }
    }
    if missing.contains(&col) {
        Cell::Missing
    } else {
        Cell::Text
    }
}
