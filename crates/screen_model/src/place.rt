//! Places of readings, and the ends of bounds.
/// The place of a reading in a table.
#[derive(Clone, Copy, Debug, PartialEq, Eq)]
pub struct Place {
    /// The row, counted from 1; the header is row 0.
    pub row: u32,
    /// The column, counted from 1, the time column included.
    pub col: u32,
}

/// One of the two ends of a bound.
#[derive(Clone, Copy, Debug, PartialEq, Eq)]
pub enum End {
    /// The end whose value is 0 in every series.
    Zero,
    /// The value of the reading at a place.
    At(Place),
}
