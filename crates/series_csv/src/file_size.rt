//! The size of a readings file, by which room for its table and its text is taken at once.
ghost use Rattle.std.specs.Prelude.{◌≡◌, ◌==◌, ◌≤◌, count_by, length};
ghost use Rattle.record_cut.specs.Bytes.{line_feed};
ghost use Rattle.series_csv.specs.declared.file_size.TheConstants.{PIECE};

use screen_model::{MOST_READINGS, MOST_ROWS};

/// How many bytes are counted at a time: a byte has room for the count, and they fill registers of any width.
const PIECE: usize = 192;

/// The most bytes of a value's text: a sign, sixteen digits and a point.
const LONGEST_VALUE: usize = 18;

/// The size of a readings file.
#[derive(Clone, Copy)]
pub(crate) struct FileSize {
    /// How many bytes it has.
    bytes: usize,
    /// How many of them are line feeds.
    line_feeds: usize,
}

impl FileSize {
    ghost use Rattle.std.specs.Prelude.{◌≡◌, ◌==◌, ◌*◌, ◌≤◌, count_by, length};
    ghost use Rattle.record_cut.specs.Bytes.{line_feed};

    /// The size of the file with these bytes.
    pub(crate) fn of(bytes: &[u8]) -> FileSize
        ensures bytes { result.bytes ≡ length bytes.now }
        ensures line_feeds { result.line_feeds ≡ count_by (λ byte. byte == line_feed) bytes.now }
    {
        FileSize {
            bytes: bytes.len(),
            line_feeds: line_feeds(bytes),
        }
    }

    /// Room for its rows. No row but the last lacks a line feed, and the header has another; with it a row has two bytes at
    /// least.
    pub(crate) fn row_room(self) -> usize
        ensures { 2 * result ≤ self.bytes }
    {
        self.line_feeds.min(self.bytes / 2).min(MOST_ROWS as usize)
    }

    /// Room for its readings, where it has so many sensor columns. With its separator a reading has two bytes at least.
    pub(crate) fn reading_room(self, columns: usize) -> usize
        ensures { 2 * result ≤ self.bytes }
    {
        self.row_room()
            .saturating_mul(columns)
            .min(self.bytes / 2)
            .min(MOST_READINGS as usize)
    }

    /// Room for the text of its table, with so many readings of whatever values. The last row may get a line feed that it
    /// lacks.
    pub(crate) fn text_room(self, readings: usize) -> usize {
        readings
            .saturating_mul(LONGEST_VALUE)
            .saturating_add(self.bytes)
            .saturating_add(1)
    }
}

/// How many of the bytes are line feeds.
fn line_feeds(bytes: &[u8]) -> usize
    ensures { result ≡ count_by (λ byte. byte == line_feed) bytes.now }
{
    let mut count = 0;
    let mut rest = bytes;
    while !rest.is_empty() {
        let (piece, later) = rest.split_at(rest.len().min(PIECE));
        count += usize::from(line_feeds_in(piece));
        rest = later;
    }
    count
}

/// The same of a few bytes. The count has the width of a byte, so that one instruction looks at many.
fn line_feeds_in(piece: &[u8]) -> u8
    requires { length piece.now ≤ PIECE }
    ensures { result ≡ count_by (λ byte. byte == line_feed) piece.now }
{
    let mut count = 0;
    for byte in piece {
        count += u8::from(*byte == b'\n');
    }
    count
}
