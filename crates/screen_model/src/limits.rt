//! How much a table may hold.

/// The most rows of a table.
pub const MOST_ROWS: u32 = 200_000;

/// The most columns of a table.
pub const MOST_COLUMNS: u32 = 256;

/// The most readings of a table.
pub const MOST_READINGS: u32 = 400_000;
