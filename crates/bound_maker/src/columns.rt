//! The readings of all sensor columns, each column gathered once.
ghost use Rattle.std.specs.Prelude.{◌≡◌, IfOk, IfSome};
ghost use Rattle.std.specs.List.{AllByRecursion};
ghost use Rattle.bound_maker.specs.Columns.{IsColumn};
ghost use Rattle.bound_maker.specs.Readings.{readings_of};

use crate::reading::{Reading, gather, rows_of};
use sequence::Sequence;
use series_csv::{Row, Table};
use std::alloc::{AllocError, Global};

/// The readings of a column.
#[derive(Drop)]
pub(crate) struct Column {
    /// The column, counted from 1.
    pub(crate) col: u32,
    /// Its readings, in the order of their rows.
    pub(crate) readings: Sequence<Reading>,
}

/// The readings of each sensor column of a table.
pub(crate) fn columns_of(alloc: Global, table: &Table) -> Result<Vec<Column>, AllocError>
    ensures { IfOk result (λ columns. AllByRecursion (IsColumn table.now.rows) columns.items) }
{
    let rows = rows_of(table);
    let mut columns = Vec::new(alloc);
    for col in table.header().sensor_columns() {
        let readings = gather(alloc, rows, *col)?;
        columns.push(Column {
            col: *col,
            readings,
        })?;
    }
    Ok(columns)
}

/// The readings in a column of these rows, if the column is among those gathered.
pub(crate) fn column_at<'a>(columns: &'a [Column], rows: &[Row], col: u32) -> Option<&'a [Reading]>
    requires { AllByRecursion (IsColumn rows.now) columns.now }
    ensures { IfSome result (λ readings. readings.now ≡ readings_of col rows.now) }
{
    let _rows = rows;
    for column in columns {
        if column.col == col {
            return Some(column.readings.as_slice());
        }
    }
    None
}
