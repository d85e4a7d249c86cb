//! How great a network may be, and what stands in it.

/// The most bounds.
pub const MOST_BOUNDS: u32 = 4_000_000;

/// The greatest price of a bound.
pub const MOST_PRICE: u32 = 1_000;

/// The greatest weight of a reading.
pub const MOST_WEIGHT: u32 = 1_000;

/// The greatest size of a value that was read, and of a potential, in units.
pub const MOST_VALUE: u64 = 1_000_000_000_000_000;
