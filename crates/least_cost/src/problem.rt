//! A problem, by the lists that tell it.

use screen_model::{BoundList, Places, Series};

/// Readings and bounds: what is to be repaired.
#[derive(Drop)]
pub struct Problem<'a> {
    /// The places of the readings.
    pub places: &'a Places,
    /// The value of each reading, in units.
    pub values: &'a Series,
    /// The weight of each reading: what it costs to change it by a unit.
    pub weights: &'a [u32],
    /// The bounds.
    pub bounds: &'a BoundList,
    /// The price of each bound: what it costs to break it by a unit; 0 for a bound that may not be broken.
    pub prices: &'a [u32],
}
