//! Records of a readings file, one at a time: the fields of the first as the header, those of each later one as a row, or
//! the first reason why they are none; and the texts of the header and of a row with other values.
//!
//! It keeps no table and sees no bytes of a file: it is told what stands before a record.
#![tactic(auto)]

mod before;
mod cell;
mod cells;
mod column;
mod fault;
mod first_record;
mod header;
mod later_record;
mod laws;
mod limits;
mod row;
mod text;

pub use before::RowsBefore;
pub use cell::{Cell, RowReading};
pub use fault::{TableCause, TableFault};
pub use first_record::read_header;
pub use header::Header;
pub use later_record::read_row;
pub use laws::{a_header, a_row, one_header, one_row, rows_are_read_back};
pub use limits::{Limits, MOST_ENDLESS_ROWS};
pub use row::Row;
pub use text::{header_text, push_header, push_row_with, row_with};
