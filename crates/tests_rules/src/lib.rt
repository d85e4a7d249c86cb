//! The tests of rule files: the keys of a table, whole files, and the numbers of rules.
#![tactic(auto)]

#[cfg(test)]
mod rule_file_number_tests;
#[cfg(test)]
mod rule_file_tests;
#[cfg(test)]
mod rule_keys_tests;
