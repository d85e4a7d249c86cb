//! The readings in a window.

/// A reading: its value and its time.
#[derive(Clone, Copy, Debug, PartialEq, Eq)]
pub struct Key {
    /// The value, in units; at most 10^15 in size in a window.
    pub value: i64,
    /// The time, in ticks.
    pub ticks: i64,
}
