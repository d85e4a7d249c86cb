//! Why a text is refused.

use std::alloc::AllocError;
use thiserror::Error;

/// Why a cutter refuses a text.
#[derive(Clone, Copy, Debug, PartialEq, Eq, Error)]
pub enum CutFault {
    /// A quote, or a byte after a closing quote, stands where it may not.
    #[error("a quote stands where it may not")]
    BadQuote,
    /// A record has more than 65,536 bytes, its line break counted.
    #[error("a record has more than 65,536 bytes")]
    RecordTooLong,
    /// The text ends within a quoted field.
    #[error("the text ends within a quoted field")]
    OpenQuote,
    /// There is no memory left.
    #[error("out of memory")]
    Memory,
}

impl From<AllocError> for CutFault {
    ghost use Rattle.std.specs.Prelude.{◌≡◌};
    ghost use Rattle.record_cut.specs.declared.fault.CutFault.TheVariants.{Memory};

    ghost from_gives = { λ _ fault. fault ≡ Memory };

    fn from(_: AllocError) -> CutFault {
        CutFault::Memory
    }
}
