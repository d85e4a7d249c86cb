//! Why a table of a rule file is refused.

/// Why a table of a rule file is refused.
#[derive(Clone, Copy, Debug, PartialEq, Eq)]
pub enum KeyCause {
    /// The table has a key that it may not have.
    UnknownKey,
    /// The table lacks a key that it must have.
    MissingKey,
    /// What stands at a key is of another kind than it must be.
    WrongKind,
    /// What stands at a key is no number or time in range, or a finer one than is kept.
    BadNumber,
    /// A number is beyond its limits, or a word is not in its list.
    OutOfLimit,
    /// What should be the less of two is the greater.
    Order,
    /// A rate allows more than 4·10^15 units within the window.
    ReachTooLarge,
    /// Two sensors that must differ have the same name.
    SameSensor,
}
