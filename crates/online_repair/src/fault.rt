//! Why the online repair refuses.
ghost use Rattle.std.specs.Prelude.{◌≡◌};
ghost use Rattle.online_repair.specs.Faults.{fault_of};

use series_csv::{TableCause, TableFault};
use std::alloc::AllocError;
use thiserror::Error;

/// Why the online repair refuses the rules or the readings.
#[derive(Clone, Copy, Debug, PartialEq, Eq, Error)]
pub enum OnlineFault {
    /// A rule is no speed rule, or it names the sensor of a rule of a lower number.
    #[error("rule {rule} is no speed rule of a sensor of its own")]
    NotOnline {
        /// The number of the first such rule.
        rule: u32,
    },
    /// The readings file is refused; never for want of memory.
    #[error("{0}")]
    Table(TableFault),
    /// As many rows are held as may be, and this one makes none of them ready.
    #[error("row {row}: too many rows lie within the greatest window")]
    WindowFull {
        /// The row, counted from 1.
        row: u32,
    },
    /// No whole step leads to a reading from the one before.
    #[error("row {row}, column {col}: no whole step lies between the rates")]
    NoWholeStep {
        /// The row, counted from 1.
        row: u32,
        /// The column, counted from 1.
        col: u32,
    },
    /// A repaired value is more than 10^15 units in size.
    #[error("row {row}, column {col}: the repaired value is too large")]
    LeavesRange {
        /// The row, counted from 1.
        row: u32,
        /// The column, counted from 1.
        col: u32,
    },
    /// Memory ran out.
    #[error("memory ran out")]
    Memory,
}

impl From<AllocError> for OnlineFault {
    ghost use Rattle.std.specs.Prelude.{◌≡◌};
    ghost use Rattle.online_repair.specs.declared.fault.OnlineFault.TheVariants.{Memory};

    ghost from_gives = { λ _ fault. fault ≡ Memory };

    fn from(_: AllocError) -> OnlineFault {
        OnlineFault::Memory
    }
}

impl From<TableFault> for OnlineFault {
    ghost use Rattle.std.specs.Prelude.{◌≡◌};
    ghost use Rattle.online_repair.specs.Faults.{fault_of};

    ghost from_gives = { λ fault given. given ≡ fault_of fault };

    fn from(fault: TableFault) -> OnlineFault {
        fault_of(fault)
    }
}

/// The refusal of a readings file; want of memory stands by itself.
pub(crate) fn fault_of(fault: TableFault) -> OnlineFault
    ensures { result ≡ fault_of fault }
{
    match fault.cause {
        TableCause::Memory => OnlineFault::Memory,
        _ => OnlineFault::Table(fault),
    }
}
