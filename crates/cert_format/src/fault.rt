//! Why a text is no certificate.
ghost use Rattle.std.specs.Prelude.{◌≡◌};
ghost use Rattle.cert_format.specs.declared.fault.CertRead.TheVariants.{Memory};

use std::alloc::AllocError;
use thiserror::Error;

/// Why a text is not read as a certificate.
#[derive(Clone, Copy, Debug, PartialEq, Eq, Error)]
pub enum CertRead {
    /// A line is not as the form of certificates wants it after the lines before it.
    #[error("line {line} is not as a certificate has it")]
    Syntax {
        /// The first such line, counted from 1. What stands after the last line feed counts as a line.
        line: u32,
    },
    /// Memory ran out.
    #[error("memory ran out")]
    Memory,
}

impl From<AllocError> for CertRead {
    ghost from_gives = { λ _ e. e ≡ Memory };

    fn from(_: AllocError) -> Self {
        CertRead::Memory
    }
}
