//! What a reader of rows hands out.

use series_rows::{Header, Row, TableFault};

/// The header or a row of a readings file.
#[derive(Drop)]
pub enum Event {
    /// The header, which comes first and once.
    Header(Header),
    /// The next row.
    Row(Row),
}

/// How many bytes of a slice were taken, and the answer to the last of them. The byte that ended a record or was refused
/// is among them; a reader that had refused before takes none.
#[derive(Drop)]
pub struct Taken {
    /// How many bytes, from the first on.
    pub count: usize,
    /// What the last byte ended; nothing where no byte ended a record; or why the file is refused.
    pub answer: Result<Option<Event>, TableFault>,
}
