//! Readings, and what a series makes of them.
ghost use Rattle.std.specs.Prelude.{◌≡◌, ◌≤◌, ◌^◌};
ghost use Rattle.repair_report.specs.Readings.{is_changed, weighted};

use screen_model::Place;

/// A reading, and what a series makes of it.
#[derive(Clone, Copy)]
pub(crate) struct Repaired {
    /// Its place.
    pub(crate) place: Place,
    /// What a unit of its change counts.
    pub(crate) weight: u32,
    /// The value that was read, in units.
    pub(crate) from: i64,
    /// The value of the series, in units.
    pub(crate) to: i64,
}

/// Whether the series gives the reading another value.
pub(crate) fn is_changed(reading: Repaired) -> bool
    ensures { result ≡ is_changed reading }
{
    reading.to != reading.from
}

/// How far the value of the series lies from the reading, times the weight.
pub(crate) fn weighted(reading: Repaired) -> u128
    ensures { result ≡ weighted reading }
{
    u128::from(reading.weight) * u128::from(reading.to.abs_diff(reading.from))
}
