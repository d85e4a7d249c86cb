//! How great the numbers of a certificate and its text may be.

/// The greatest number of a rule; the least is 0.
pub const MOST_RULE: u32 = 1_000;

/// The greatest amount of a flow line; the least is 1.
pub const MOST_AMOUNT: i64 = 1_000_000_000_000_000;

/// The most digits of a value, its sign not counted.
pub const VALUE_DIGITS: usize = 18;

/// The most digits of a total, and of what is paid.
pub const TOTAL_DIGITS: usize = 30;

/// The most bytes of a text that is read.
pub const LONGEST: usize = 268_435_456;
