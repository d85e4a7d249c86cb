//! The tests of the solvers: graphs, negative cycles, networks, the heap, both solvers and the repair of a table.
#![tactic(auto)]

#[cfg(test)]
mod both_ways_tests;
#[cfg(test)]
mod bound_graph_tests;
#[cfg(test)]
mod cancel_flow_tests;
#[cfg(test)]
mod flow_core_tests;
#[cfg(test)]
mod global_repair_tests;
#[cfg(test)]
mod neg_cycle_tests;
#[cfg(test)]
mod networks;
#[cfg(test)]
mod node_heap_tests;
#[cfg(test)]
mod path_flow_tests;
#[cfg(test)]
mod solvers_tests;
