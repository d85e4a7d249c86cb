//! Why a certificate is refused.
ghost use Rattle.std.specs.Prelude.{◌≡◌};
ghost use Rattle.cert_check.specs.declared.fault.CertFault.TheVariants.{Memory};

use screen_model::{BoundName, Place};
use std::alloc::AllocError;
use thiserror::Error;

/// Why a certificate is refused. Lines are counted from 1.
#[derive(Clone, Copy, Debug, PartialEq, Eq, Error)]
pub enum CertFault {
    /// The text is no certificate.
    #[error("line {line} is not as a certificate has it")]
    Syntax {
        /// The first line that is not as the form wants it after the lines before it.
        line: u32,
    },
    /// The place of a set line is no reading, or its value is the reading's own.
    #[error("line {line} changes no reading")]
    SetOutside {
        /// The line.
        line: u32,
    },
    /// A flow line or a step line names no bound.
    #[error("line {line} names no bound")]
    UnknownBound {
        /// The line.
        line: u32,
    },
    /// The series does not obey a bound that has no price.
    #[error("the bound {name:?} is broken")]
    Broken {
        /// The first such bound of those that are made.
        name: BoundName,
    },
    /// The total is not what the series costs.
    #[error("the total is {given} in place of {truth}")]
    TotalWrong {
        /// The total of the certificate, in units.
        given: i128,
        /// What the series costs, in units.
        truth: i128,
    },
    /// The flow pulls at a reading by more than its weight.
    #[error("the reading in row {} and column {} is pulled by more than its weight", place.row, place.col)]
    PullTooGreat {
        /// The place of the first such reading.
        place: Place,
    },
    /// The dual value of the flow is not the total.
    #[error("the dual value is {value} and the total is {total}")]
    ValueDiffers {
        /// The dual value of the flow, in units.
        value: i128,
        /// The total of the certificate, in units.
        total: i128,
    },
    /// A step does not begin where the one before it ends, or begins where an earlier one begins.
    #[error("the step in line {line} does not go on in the cycle")]
    CycleOpen {
        /// The line of the first such step.
        line: u32,
    },
    /// The limits of the cycle do not add up to less than 0.
    #[error("the limits of the cycle add up to {sum}")]
    CycleSum {
        /// Their sum, in units.
        sum: i128,
    },
    /// The text has more than 268,435,456 bytes.
    #[error("the text is too long")]
    FileTooLong,
    /// The amount of a flow line is above the price of its bound.
    #[error("the amount in line {line} is above the price")]
    OverPrice {
        /// The line.
        line: u32,
    },
    /// A step line names a bound that has a price.
    #[error("the bound of the step in line {line} has a price")]
    PricedStep {
        /// The line.
        line: u32,
    },
    /// What is paid is not what the series pays.
    #[error("{given} is paid in place of {truth}")]
    PaidWrong {
        /// What the certificate says is paid, in units.
        given: i128,
        /// What the series pays, in units.
        truth: i128,
    },
    /// Memory ran out.
    #[error("memory ran out")]
    Memory,
}

impl From<AllocError> for CertFault {
    ghost from_gives = { λ _ e. e ≡ Memory };

    fn from(_: AllocError) -> Self {
        CertFault::Memory
    }
}
