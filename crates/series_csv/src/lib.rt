//! Readings files: the bytes as a table, or the first reason to refuse them; the header and the rows as the bytes are
//! pushed; and the text of a table with a series of values.
#![tactic(auto)]

mod event;
mod file_size;
mod laws;
mod progress;
mod reader;
mod rows;
mod table;
mod whole;
mod write;

pub use event::{Event, Taken};
pub use laws::{files_have_answers, one_answer, read_stays, tables_are_read_back};
pub use reader::RowReader;
pub use screen_model::{MOST_COLUMNS, MOST_READINGS, MOST_ROWS};
pub use series_rows::{
    Cell, Header, Limits, MOST_ENDLESS_ROWS, Row, RowReading, RowsBefore, TableCause, TableFault,
    header_text, push_header, push_row_with, row_with,
};
pub use table::{LONGEST, Table};
pub use whole::read_table;
pub use write::table_text;
