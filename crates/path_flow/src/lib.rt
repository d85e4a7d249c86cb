//! The fast solver of flow networks: successive shortest augmenting paths with potentials.
//!
//! The method is that of Jewell, Iri, and Busacker and Gowen, with the potentials of Edmonds and Karp (Theoretical
//! improvements in algorithmic efficiency for network flow problems, 1972). Each search starts at a reading and ends
//! at the first end that comes out of the heap, so that it visits what lies near and no more. Before the first search
//! potentials are found chain by chain, and excess is carried over tight arcs.
#![tactic(auto)]

mod augment;
mod carry;
mod chains;
mod discharge;
mod keys;
mod links;
mod potentials;
mod saturate;
mod search;
mod slope;
mod solver;
mod starts;
mod ties;
mod units;

pub use solver::PathSolver;
