//! Bounds, their names, and flow on them.
use crate::place::End;

/// Whether a bound limits a rise or a fall.
#[derive(Clone, Copy, Debug, PartialEq, Eq)]
pub enum Side {
    /// The later value, or the value itself, is limited from above.
    Up,
    /// The later value, or the value itself, is limited from below.
    Down,
}

/// By what a bound is told: its rule, its rows, its column and its side. Where a clause needs that
/// no two bounds of a list share a name, it says so.
#[derive(Clone, Copy, Debug, PartialEq, Eq)]
pub struct BoundName {
    /// The number of the rule that makes the bound; 0 is the range that holds of every reading.
    pub rule: u32,
    /// The row of the earlier reading, or of the only one.
    pub from_row: u32,
    /// The row of the later reading, or of the only one.
    pub to_row: u32,
    /// The column of the sensor.
    pub col: u32,
    /// Whether it limits from above or from below.
    pub side: Side,
}

/// A bound: the value at `second` is at most `limit` units above the value at `first`.
#[derive(Clone, Copy, Debug, PartialEq, Eq)]
pub struct Bound {
    /// Which bound it is.
    pub name: BoundName,
    /// The end that is subtracted.
    pub first: End,
    /// The end that may lie at most `limit` above the first.
    pub second: End,
    /// The limit, in units.
    pub limit: i64,
}

/// A flow of `amount` along the bound of this name.
#[derive(Clone, Copy, Debug, PartialEq, Eq)]
pub struct FlowItem {
    /// The bound.
    pub name: BoundName,
    /// How much flows, at least 1 in a list of items that is a flow.
    pub amount: i64,
}
