//! The cells of a row.

/// What a field of a row is read as.
#[derive(Clone, Copy, Debug, PartialEq, Eq)]
pub enum Cell {
    /// A sensor's field that holds no reading.
    Missing,
    /// A sensor's reading, in units.
    Reading(i64),
    /// The field of the time column.
    Time,
    /// A field that no rule speaks of.
    Text,
}

/// A reading of a row.
#[derive(Clone, Copy, Debug, Default, PartialEq, Eq)]
pub struct RowReading {
    /// The column, counted from 1.
    pub col: u32,
    /// The reading, in units.
    pub value: i64,
}
