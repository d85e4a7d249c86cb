//! What may go wrong in a step of a command that reads a file.

/// Why a step that reads a file has no value.
#[derive(Clone, Copy, Debug, PartialEq, Eq)]
pub enum StepFault<F> {
    /// The file is longer than it may be.
    TooLong,
    /// What the file says is refused.
    Refused(F),
    /// A read failed.
    Failed,
    /// Memory ran out.
    Memory,
}
