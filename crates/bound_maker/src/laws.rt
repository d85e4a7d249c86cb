//! Laws of the bounds that are made and of all bounds.
ghost use Rattle.rule_file.specs.declared.rules.Rules.{Rules};
ghost use Rattle.series_csv.specs.File.{TableView};
ghost use Rattle.bound_maker.specs.Laws.{AreAPart, BestOverMade, MadeBindAll, NamesAreDistinct};

use rule_file::Rules;
use screen_model::{best_over_parts, costs_over_parts};
use series_csv::Table;

/// The bounds that are made are a part of all bounds, and have all that bear a price.
pub fn made_is_a_part()
    ensures { (rules : Rules) (table : TableView) → AreAPart rules table }
{}

/// No two of all bounds share a name.
pub fn names_are_distinct(table: &Table, rules: &Rules)
    ensures { NamesAreDistinct rules.now table.now }
{
    let _rules = rules;
    let _places = table.places();
}

/// A series that obeys the bounds that are made obeys all bounds: the steps of a rate for some ticks and for some more are
/// together within its steps for all those ticks.
pub fn made_bind_all(table: &Table, rules: &Rules)
    ensures { MadeBindAll rules.now table.now }
{
    let _rules = rules;
    let _rows = table.all_rows();
}

/// Over the bounds that are made a series costs and pays what it does over all, and what is best over those is best over all.
pub fn best_over_made(table: &Table, rules: &Rules)
    ensures { BestOverMade rules.now table.now }
{
    made_is_a_part();
    made_bind_all(table, rules);
    costs_over_parts();
    best_over_parts();
}
