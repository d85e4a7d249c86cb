//! The text of a table.
ghost use Rattle.std.specs.Prelude.{◌≡◌, ◌++◌, length, IfOk, OnOk};
ghost use Rattle.std.specs.List.{AllByRecursion};
ghost use Rattle.series_csv.specs.ReadBack.{IsSeriesOf};
ghost use Rattle.series_csv.specs.Readings.{values_of, IsSmall};
ghost use Rattle.series_csv.specs.Text.{rows_text, table_text};

use crate::table::Table;
use rule_file::Rules;
use screen_model::Series;
use series_rows::{Row, push_header, push_row_with};
use std::alloc::{AllocError, Global};

/// The text of a table with one value for each of its readings, in units and at most 10^15 in size: the header and the
/// rows as they were read, each reading replaced by its value.
pub fn table_text(
    alloc: Global,
    rules: &Rules,
    table: &Table,
    series: &Series,
) -> Result<Vec<u8>, AllocError>
    requires { IsSeriesOf table.now series.now }
    ensures { IfOk result (λ text. text.items ≡ table_text rules.now table.now series.now) }
{
    let mut text = Vec::with_capacity(alloc, table.text_room())?;
    push_header(&mut text, rules, table.header())?;
    push_rows(&mut text, rules, table.all_rows(), series.as_slice())?;
    Ok(text)
}

/// Adds the texts of rows, each with the next values, one for each of its readings.
fn push_rows(
    text: &mut Vec<u8>,
    rules: &Rules,
    rows: &[Row],
    values: &[i64],
) -> Result<(), AllocError>
    requires count { length values.now ≡ length (values_of rows.now) }
    requires small { AllByRecursion IsSmall values.now }
    ensures { OnOk result (text.new.items ≡ text.old.items ++ rows_text rules.now rows.now values.now) }
{
    let mut rest = values;
    for row in rows {
        let (first, later) = rest.split_at(row.readings().len());
        push_row_with(text, rules, row, first)?;
        rest = later;
    }
    Ok(())
}
