//! The fields of sensor columns as readings.
ghost use Rattle.std.specs.Prelude.{◌≡◌, ◌≢◌, ◌≤◌, IfOk, IfErr, length};
ghost use Rattle.std.specs.List.{AllByRecursion};
ghost use Rattle.series_rows.specs.Cells.{is_missing, ReadsCell};
ghost use Rattle.series_rows.specs.Faults.{of_memory};
ghost use Rattle.series_rows.specs.Kept.{seen_cells};
ghost use Rattle.series_rows.specs.Parts.{IsWithin, IsFirstRefused};
ghost use Rattle.series_rows.specs.ReadsRow.{AreCells};

use crate::cell::RowReading;
use crate::column::field_in;
use crate::fault::{TableCause, TableFault};
use fix_point::{NumFault, units};
use record_cut::Fields;
use rule_file::Format;
use smallvec::SmallVec;
use std::alloc::{AllocError, Global};
use time_text::trimmed_text;

/// How many readings a row keeps in itself, and how many columns without one. More of them take an allocation.
const INLINE: usize = 4;

/// The cells of the sensor columns of a row.
#[derive(Drop)]
pub(crate) struct SensorCells {
    /// The readings, from the left.
    pub(crate) readings: SmallVec<RowReading, INLINE>,
    /// The columns without a reading, from the left.
    pub(crate) missing: SmallVec<u32, INLINE>,
}

impl SensorCells {
    ghost use Rattle.std.specs.Prelude.{◌≡◌, OnOk};
    ghost use Rattle.series_rows.specs.Kept.{seen_cells};
    ghost use Rattle.series_rows.specs.Parts.{no_cells, with_last};

    /// No cell. It takes no memory.
    fn new(alloc: Global) -> SensorCells
        ensures { seen_cells result ≡ no_cells }
    {
        SensorCells {
            readings: SmallVec::new(alloc),
            missing: SmallVec::new(alloc),
        }
    }

    /// Adds the cell of a column to the right of the others.
    fn push(&mut self, col: u32, reading: Option<i64>) -> Result<(), AllocError>
        ensures { OnOk result (seen_cells self.new ≡ with_last (seen_cells self.old) col reading) }
    {
        match reading {
            Some(value) => self.readings.push(RowReading { col, value })?,
            None => self.missing.push(col)?,
        }
        Ok(())
    }
}

/// Whether the field of a sensor holds no reading.
fn is_missing(field: &[u8]) -> bool
    ensures { result ≡ is_missing field.now }
{
    matches!(trimmed_text(field), b"" | b"NaN" | b"nan" | b"NA" | b"null")
}

/// The reading that the field of a sensor holds, if it is not missing.
fn read_cell(format: &Format, field: &[u8]) -> Result<Option<i64>, NumFault>
    ensures { ReadsCell format.now field.now result }
{
    if is_missing(field) {
        return Ok(None);
    }
    match units(field, format.decimals, format.extra) {
        Ok(value) => Ok(Some(value)),
        Err(fault) => Err(fault),
    }
}

/// The cells of these columns, which go up from the left, or the first that is refused. The row has the number given.
pub(crate) fn read_cells(
    alloc: Global,
    format: &Format,
    fields: &Fields,
    columns: &[u32],
    row: u32,
) -> Result<SensorCells, TableFault>
    requires { AllByRecursion (IsWithin (length fields.now)) columns.now }
    ensures accepted { IfOk result (λ cells. AreCells format.now fields.now columns.now (seen_cells cells)) }
    ensures refused { IfErr result (λ fault. fault ≢ of_memory → IsFirstRefused row format.now fields.now columns.now fault) }
{
    let mut cells = SensorCells::new(alloc);
    for col in columns {
        match read_cell(format, field_in(fields, *col)) {
            Ok(reading) => cells.push(*col, reading)?,
            Err(fault) => return Err(TableFault::at(row, *col, TableCause::Value(fault))),
        }
    }
    Ok(cells)
}
