//! Why a readings file is refused.
ghost use Rattle.std.specs.Prelude.{◌≡◌};
ghost use Rattle.series_rows.specs.Faults.{fault_at, of_the_file};

use fix_point::NumFault;
use record_cut::CutFault;
use std::alloc::AllocError;
use thiserror::Error;
use time_text::TimeFault;

/// Why a readings file is refused.
#[derive(Clone, Copy, Debug, PartialEq, Eq, Error)]
pub enum TableCause {
    /// The file has no record.
    #[error("there is no header")]
    NoHeader,
    /// The header has more than 256 fields.
    #[error("there are more than 256 columns")]
    TooManyColumns,
    /// Two columns bear the name of the time column or of a sensor.
    #[error("two columns bear the same name")]
    NameTwice,
    /// No column bears the name of a sensor.
    #[error("no column bears a name that rule {rule} needs")]
    NoSuchSensor {
        /// The number of the rule that names it, and 0 for the time column.
        rule: u32,
    },
    /// A row has another number of fields than the header.
    #[error("the row is not as wide as the header")]
    Width,
    /// A time is refused.
    #[error("{0}")]
    Time(TimeFault),
    /// A time is not above that of the row before.
    #[error("the time is not above that of the row before")]
    TimeNotRising,
    /// A reading is refused.
    #[error("{0}")]
    Value(NumFault),
    /// There are more rows than there may be.
    #[error("there are too many rows")]
    TooManyRows,
    /// There are more readings than there may be.
    #[error("there are more than 400,000 readings")]
    TooManyReadings,
    /// The bytes are no records.
    #[error("{0}")]
    Cut(CutFault),
    /// There are more than 268,435,456 bytes.
    #[error("the readings file is longer than 268,435,456 bytes")]
    FileTooLong,
    /// Memory ran out, wherever it did.
    #[error("memory ran out")]
    Memory,
}

/// A readings file that is refused.
#[derive(Clone, Copy, Debug, PartialEq, Eq, Error)]
#[error("row {row}, column {col}: {cause}")]
pub struct TableFault {
    /// Why.
    pub cause: TableCause,
    /// The row, counted from 1; 0 for the header, and where no row is concerned.
    pub row: u32,
    /// The column, counted from 1, the time column included; 0 where none is concerned.
    pub col: u32,
}

impl TableFault {
    /// A fault at a row and a column.
    pub fn at(row: u32, col: u32, cause: TableCause) -> TableFault
        ensures { result ≡ fault_at row col cause }
    {
        TableFault { cause, row, col }
    }

    /// A fault of no row and no column.
    pub fn of_the_file(cause: TableCause) -> TableFault
        ensures { result ≡ of_the_file cause }
    {
        TableFault::at(0, 0, cause)
    }

    /// The fault of a file with more bytes than a readings file may have.
    pub fn too_long() -> TableFault
        ensures { result ≡ of_the_file TableCause.FileTooLong }
    {
        TableFault::of_the_file(TableCause::FileTooLong)
    }
}

impl From<AllocError> for TableFault {
    ghost use Rattle.std.specs.Prelude.{◌≡◌};
    ghost use Rattle.series_rows.specs.Faults.{of_memory};

    ghost from_gives = { λ _ fault. fault ≡ of_memory };

    fn from(_: AllocError) -> TableFault {
        TableFault::of_the_file(TableCause::Memory)
    }
}
