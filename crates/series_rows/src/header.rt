//! The header of a readings file.

use crate::column::{bears, field_in};
use record_cut::Fields;
use screen_model::MOST_COLUMNS;
use sequence::Sequence;
use std::alloc::{AllocError, Global};
use std::marker::Model;

/// The header of a readings file: the names of its columns, and which of them the rules need.
#[derive(Drop)]
pub struct Header {
    fields: Fields,
    time_col: u32,
    /// The column of each sensor, in the order of the rules' numbers.
    sensor_cols: Sequence<u32>,
    /// The sensor columns from the left, each once.
    from_left: Sequence<u32>,
}

impl Model for Header {
    ghost use Rattle.series_rows.specs.Header.{HeaderView};
    ghost use Rattle.series_rows.specs.Kept.{header_view, KeepsHeader};

    ghost Value = { HeaderView };

    ghost view = { λ h. header_view h.fields h.time_col h.sensor_cols };

    ghost invariant = { λ h. KeepsHeader (header_view h.fields h.time_col h.sensor_cols) h.from_left };
}

impl Header {
    ghost use Rattle.std.specs.Prelude.{◌≡◌, ◌≤◌, length, slice_get, IfOk};
    ghost use Rattle.series_rows.specs.Header.{HeaderView, column_of, sensor_columns};
    ghost use Rattle.series_rows.specs.Kept.{header_view, KeepsHeader};

    /// The header of these parts.
    pub(crate) fn new(
        fields: Fields,
        time_col: u32,
        sensor_cols: Sequence<u32>,
        from_left: Sequence<u32>,
    ) -> Header
        requires { KeepsHeader (header_view fields time_col sensor_cols) from_left }
        ensures { result ≡ header_view fields time_col sensor_cols }
    {
        Header {
            fields,
            time_col,
            sensor_cols,
            from_left,
        }
    }

    /// The same header once more, in memory of its own.
    pub fn copy(&self, alloc: Global) -> Result<Header, AllocError>
        ensures { IfOk result (λ copy. copy ≡ self.now) }
    {
        Ok(Header {
            fields: self.fields.clone()?,
            time_col: self.time_col,
            sensor_cols: Sequence::from_slice(alloc, self.sensor_cols.as_slice())?,
            from_left: Sequence::from_slice(alloc, self.from_left.as_slice())?,
        })
    }

    /// How many columns there are, 1 to 256.
    pub fn width(&self) -> u32
        ensures width { result ≡ length self.now.fields }
        ensures least { 1 ≤ result }
        ensures most { result ≤ MOST_COLUMNS }
    {
        self.fields.width()
    }

    /// The time column, counted from 1.
    pub fn time_col(&self) -> u32
        ensures column { result ≡ self.now.time_col }
        ensures least { 1 ≤ result }
        ensures most { result ≤ length self.now.fields }
    {
        self.time_col
    }

    /// The first sensor column from the left that bears this name, counted from 1. Blanks at the ends of the header's
    /// field are ignored; the name is taken as it is. `None` exactly where no sensor column bears it, as for the name of
    /// a column that no rule names.
    pub fn col_of(&self, name: &[u8]) -> Option<u32>
        ensures { result ≡ column_of self.now name.now }
    {
        for col in self.from_left.as_slice() {
            if bears(name, field_in(&self.fields, *col)) {
                return Some(*col);
            }
        }
        None
    }

    /// The fields as they were read.
    pub fn fields(&self) -> &Fields
        ensures fields { result.now ≡ self.now.fields }
        ensures least { 1 ≤ length result.now }
        ensures most { length result.now ≤ MOST_COLUMNS }
    {
        &self.fields
    }

    /// The column of the sensor at a place, counted from 0, in the list of the rules' sensors. `None` exactly where there
    /// is no such place.
    pub fn sensor_col(&self, i: u32) -> Option<u32>
        ensures { result ≡ slice_get self.now.sensor_cols i }
    {
        self.sensor_cols.get(i as usize).copied()
    }

    /// The sensor columns from the left, each once, though several rules may name one.
    pub fn sensor_columns(&self) -> &[u32]
        ensures { result.now ≡ sensor_columns self.now }
    {
        self.from_left.as_slice()
    }
}
