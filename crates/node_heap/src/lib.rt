//! A priority queue of nodes with keys, in which a key can be lowered.
//!
//! The method is the binary heap of Williams (Algorithm 232: Heapsort, 1964) with each node's place beside it, as
//! Dijkstra's shortest paths use it.
#![tactic(auto)]

mod heap;
mod tree;

pub use heap::NodeHeap;
