//! Places, bounds and series: what it means that a series obeys bounds, what it costs, and when no
//! other costs less.
//!
//! A series is a list of whole numbers of a unit, one for each reading. A bound limits how far the
//! value at one end may lie above the value at another, after the speed constraint of Song, Zhang,
//! Wang and Yu (SCREEN, SIGMOD 2015).
#![tactic(auto)]

mod bound;
mod laws;
mod limits;
mod place;

pub use bound::{Bound, BoundName, FlowItem, Side};
pub use laws::{
    best_costs_least, best_over_parts, blocked_forbids, costs_over_parts, cycles_over_parts,
    flows_extend, flows_over_parts, items_over_parts, items_tell_flows, items_within_prices,
    names_over_parts, names_tell_bounds, prices_by_bound, prices_keep_bounds, sums_over_items,
    weak_duality, zero_prices,
};
pub use limits::{MOST_COLUMNS, MOST_READINGS, MOST_ROWS};
pub use place::{End, Place};
use sequence::Sequence;

/// Places of readings.
pub type Places = Sequence<Place>;
/// A value for each reading, in units.
pub type Series = Sequence<i64>;
/// Bounds in their order.
pub type BoundList = Sequence<Bound>;
/// Flow on bounds.
pub type FlowList = Sequence<FlowItem>;
/// Names of bounds.
pub type NameList = Sequence<BoundName>;
