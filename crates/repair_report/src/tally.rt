//! What a report tells of the readings of each column.
ghost use Rattle.std.specs.Prelude.{◌≡◌, ◌*◌, ◌^◌, ◌<◌, ◌≤◌, List, [], ◌∷◌, ◌++◌, IfOk};
ghost use Rattle.screen_model.specs.declared.limits.TheConstants.{MOST_COLUMNS, MOST_READINGS};
ghost use Rattle.repair_report.specs.declared.reading.Repaired.{Repaired};
ghost use Rattle.repair_report.specs.Readings.{weighted};
ghost use Rattle.repair_report.specs.Tallies.{AreTallies, MayCount, with_reading};

use crate::reading::{Repaired, is_changed, weighted};
use screen_model::MOST_COLUMNS;
use std::alloc::{AllocError, Global};

/// What a report tells of readings.
#[derive(Clone, Copy)]
pub(crate) struct Tally {
    /// How many there are.
    pub(crate) readings: u32,
    /// How many of them changed.
    pub(crate) changed: u32,
    /// The sum of the weighted distances, in units.
    pub(crate) change: u128,
}

/// The tally of no readings.
const NONE: Tally = Tally {
    readings: 0,
    changed: 0,
    change: 0,
};

/// The tally of some readings and of one more.
fn with_reading(tally: Tally, reading: Repaired) -> Tally
    requires few { tally.readings < MOST_READINGS }
    requires changed { tally.changed ≤ tally.readings }
    requires small { tally.change ≤ tally.readings * 2 ^ 74 }
    requires light { weighted reading ≤ 2 ^ 74 }
    ensures { result ≡ with_reading tally reading }
{
    Tally {
        readings: tally.readings + 1,
        changed: tally.changed + u32::from(is_changed(reading)),
        change: tally.change + weighted(reading),
    }
}

/// A tally for each column, of no readings so far.
pub(crate) fn no_tallies(alloc: Global) -> Result<Vec<Tally>, AllocError>
    ensures { IfOk result (λ tallies. AreTallies [] tallies.items) }
{
    vec![in alloc; NONE; MOST_COLUMNS as usize + 1]
}

/// Counts a reading in its column.
pub(crate) fn count(tallies: &mut Vec<Tally>, reading: Repaired)
    requires column { reading.place.col ≤ MOST_COLUMNS }
    requires light { weighted reading ≤ 2 ^ 74 }
    requires more { MayCount tallies.old.items }
    ensures { (readings : List Repaired) → AreTallies readings tallies.old.items → AreTallies (readings ++ reading ∷ []) tallies.new.items }
{
    let col = reading.place.col as usize;
    tallies[col] = with_reading(tallies[col], reading);
}
