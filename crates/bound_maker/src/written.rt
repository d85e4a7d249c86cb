//! Names and places as they are written.
ghost use Rattle.std.specs.Prelude.{◌≤◌, length};
ghost use Rattle.std.specs.List.{AllByRecursion};
ghost use Rattle.bound_maker.specs.Written.{CanBeWritten, HasWritableColumns};

use crate::reading::rows_of;
use rule_file::Rules;
use series_csv::{Row, Table};

/// The names of all bounds rise, and they and the places of readings are within the limits of what is written.
pub fn names_can_be_written(table: &Table, rules: &Rules)
    ensures { CanBeWritten rules.now table.now }
{
    let _rules = rules;
    let _places = table.places();
    let rows = rows_of(table);
    columns_are_few(rows);
}

/// The readings of rows stand in columns from 1 to 256.
fn columns_are_few(rows: &[Row])
    ensures { AllByRecursion HasWritableColumns rows.now }
{
    for row in rows {
        has_few_columns(row);
    }
}

/// The readings of a row stand in columns from 1 to 256.
fn has_few_columns(row: &Row)
    ensures { HasWritableColumns row.now }
{
    let _readings = row.readings();
    let _fields = row.fields();
}
