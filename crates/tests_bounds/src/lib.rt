//! The tests of bounds: those of two readings, and those of a whole table.
#![tactic(auto)]

#[cfg(test)]
mod bound_maker_tests;
#[cfg(test)]
mod pair_bounds_tests;
