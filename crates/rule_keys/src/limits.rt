//! The limits of what may stand at the keys.

/// The greatest number of decimals of a value.
pub const MOST_DECIMALS: u32 = 6;

/// The greatest number of rows that a repair of a stream may hold back.
pub const MOST_HOLD: u32 = 20_000;

/// The greatest weight.
pub const MOST_WEIGHT: u32 = 1_000;

/// The greatest price.
pub const MOST_PRICE: u32 = 1_000;
