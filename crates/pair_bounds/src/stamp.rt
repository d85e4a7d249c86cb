//! Rows with their times.
ghost use Rattle.std.specs.Prelude.{◌≡◌};
ghost use Rattle.pair_bounds.specs.Pairs.{elapsed, place_in};

use screen_model::Place;

/// A row and its time.
#[derive(Clone, Copy, Debug, PartialEq, Eq)]
pub struct Stamp {
    /// The row, counted from 1.
    pub row: u32,
    /// The time, in ticks of 10^-9 seconds.
    pub ticks: i64,
}

/// The place of a column in the row.
pub(crate) fn place_in(col: u32, stamp: Stamp) -> Place
    ensures { result ≡ place_in col stamp }
{
    Place {
        row: stamp.row,
        col,
    }
}

/// The ticks from one row to another.
pub(crate) fn elapsed(from: Stamp, to: Stamp) -> i128
    ensures { result ≡ elapsed from to }
{
    i128::from(to.ticks) - i128::from(from.ticks)
}
