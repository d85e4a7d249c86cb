//! The table of columns.
ghost use Rattle.std.specs.Prelude.{◌≡◌, ◌++◌, ◌≤◌, ◌∷◌, [], length, map, OnOk};
ghost use Rattle.std.specs.List.{AllByRecursion};
ghost use Rattle.screen_model.specs.declared.limits.TheConstants.{MOST_COLUMNS};
ghost use Rattle.cert_format.specs.Words.{line_feed, text_of_lines};
ghost use Rattle.series_rows.specs.Header.{sensor_columns};
ghost use Rattle.series_csv.specs.Readings.{values};
ghost use Rattle.repair_report.specs.Lines.{column_line};
ghost use Rattle.repair_report.specs.Repairs.{repaired};
ghost use Rattle.repair_report.specs.RepairLines.{column_lines};
ghost use Rattle.repair_report.specs.Tallies.{AreTallies};

use crate::lines::{push_column, push_heading};
use crate::tally::Tally;
use rule_file::Rules;
use screen_model::Series;
use series_csv::{Header, Table};
use std::alloc::{AllocError, Global};

/// The sensor columns of a header, of which none is beyond the last that a table may have.
fn columns_of(header: &Header) -> &[u32]
    ensures columns { result.now ≡ sensor_columns header.now }
    ensures within { AllByRecursion (λ col. col ≤ MOST_COLUMNS) result.now }
{
    let _width = header.width();
    header.sensor_columns()
}

/// Adds the line of a column.
fn push_counted(
    alloc: Global,
    text: &mut Vec<u8>,
    table: &Table,
    rules: &Rules,
    series: &Series,
    tallies: &[Tally],
    col: u32,
) -> Result<(), AllocError>
    requires counted { AreTallies (repaired rules.now table.now series.now) tallies.now }
    requires column { col ≤ MOST_COLUMNS }
    ensures { OnOk result (text.new.items ≡ text.old.items ++ (column_line rules.now.format.decimals (repaired rules.now table.now series.now) col ++ line_feed ∷ [])) }
{
    // There are few readings, so that no sum is too great.
    let _count = table.len();
    let _series = series;
    push_column(
        alloc,
        text,
        rules.format.decimals,
        col,
        tallies[col as usize],
    )
}

/// Adds the line of each sensor column, from the left.
fn push_each(
    alloc: Global,
    text: &mut Vec<u8>,
    table: &Table,
    rules: &Rules,
    series: &Series,
    tallies: &[Tally],
) -> Result<(), AllocError>
    requires { AreTallies (repaired rules.now table.now series.now) tallies.now }
    ensures { OnOk result (text.new.items ≡ text.old.items ++ text_of_lines (map (column_line rules.now.format.decimals (repaired rules.now table.now series.now)) (sensor_columns table.now.header))) }
{
    let columns = columns_of(table.header());
    for col in columns {
        push_counted(alloc, text, table, rules, series, tallies, *col)?;
    }
    Ok(())
}

/// Adds the heading of the table, and the line of each sensor column.
pub(crate) fn push_columns(
    alloc: Global,
    text: &mut Vec<u8>,
    table: &Table,
    rules: &Rules,
    series: &Series,
    tallies: &[Tally],
) -> Result<(), AllocError>
    requires { AreTallies (repaired rules.now table.now series.now) tallies.now }
    ensures { OnOk result (text.new.items ≡ text.old.items ++ text_of_lines (column_lines rules.now table.now series.now)) }
{
    push_heading(text)?;
    push_each(alloc, text, table, rules, series, tallies)
}
