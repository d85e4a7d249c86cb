//! The tests of certificates: their texts, what is accepted, and the report of one.
#![tactic(auto)]

#[cfg(test)]
mod cert_check_tests;
#[cfg(test)]
mod cert_format_tests;
#[cfg(test)]
mod repair_report_tests;
