//! How times are written, and why a text is refused as one.

use thiserror::Error;

/// The greatest size of a time in ticks, 9·10^18.
pub const MOST_TICKS: i64 = 9_000_000_000_000_000_000;

/// How a time is written.
#[derive(Clone, Copy, Debug, PartialEq, Eq)]
pub enum TimeForm {
    /// A decimal number of seconds.
    Sec,
    /// A decimal number of milliseconds.
    Milli,
    /// A decimal number of microseconds.
    Micro,
    /// A decimal number of nanoseconds.
    Nano,
    /// A date and a time with its offset from UTC, as `2024-05-01T12:00:00+02:00`.
    Instant,
    /// A date, or a date and a time, as a clock in UTC shows them, as `2024-05-01 10:00:00`.
    Civil,
}

/// Why a text is refused as a time.
#[derive(Clone, Copy, Debug, PartialEq, Eq, Error)]
pub enum TimeFault {
    /// It is no time in the form.
    #[error("not a time")]
    NotTime,
    /// It is a number with a part of a nanosecond.
    #[error("finer than a nanosecond")]
    TimeTooFine,
    /// It is more than 9 * 10^18 nanoseconds in size.
    #[error("time out of range")]
    TimeOutOfRange,
    /// Memory ran out. No text is refused for this now.
    #[error("out of memory")]
    Memory,
}
