//! The tests of the program: each command over sources and sinks that may fail.
#![tactic(auto)]

#[cfg(test)]
mod check_tests;
#[cfg(test)]
mod fault_tests;
#[cfg(test)]
mod online_tests;
#[cfg(test)]
mod run_tests;
#[cfg(test)]
mod sample_tests;
