//! The tests of readings files: whole tables, streams, pieces, and what is written of them.
#![tactic(auto)]

#[cfg(test)]
mod room_tests;
#[cfg(test)]
mod row_reader_tests;
#[cfg(test)]
mod series_csv_tests;
