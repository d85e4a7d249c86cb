//! Bounds as the arcs of a directed graph, in forward-star order.
#![tactic(auto)]

mod arc;
mod graph;
mod index;
mod laws;
mod numbered;
mod star;
mod table;

pub use arc::{Arc, ArcList, ArcTable};
pub use graph::Graph;
pub use laws::{
    arcs_of_bounds_are_arcs, arcs_without_prices, distances_give_series, leaving_exactly,
    negative_cycle_among, negative_cycle_blocks, negative_cycle_forbids, obeying_is_respecting,
    relative_to_first_respects, respects_those_among, values_at_ends,
};
pub use table::arcs_of_bounds;
