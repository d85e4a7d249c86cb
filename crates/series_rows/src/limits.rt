//! How much a readings file may hold.
ghost use Rattle.std.specs.Prelude.{◌≡◌};
ghost use Rattle.series_rows.specs.ReadsRow.{most_rows};

use screen_model::MOST_ROWS;

/// The most rows of a stream.
pub const MOST_ENDLESS_ROWS: u32 = 4_000_000_000;

/// How much a readings file may hold.
#[derive(Clone, Copy, Debug, PartialEq, Eq)]
pub enum Limits {
    /// A table that is kept whole: 200,000 rows with 400,000 readings.
    Whole,
    /// A stream: 4,000,000,000 rows, and any number of readings.
    Endless,
}

impl Limits {
    /// The most rows.
    pub fn most_rows(self) -> u32
        ensures { result ≡ most_rows self }
    {
        match self {
            Limits::Whole => MOST_ROWS,
            Limits::Endless => MOST_ENDLESS_ROWS,
        }
    }
}
