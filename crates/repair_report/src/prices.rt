//! What a series pays for the bounds of the rules that have a price.
ghost use Rattle.std.specs.Prelude.{◌≡◌, ◌≢◌, ◌==◌, ◌++◌, ◌^◌, ◌≤◌, ◌∷◌, [], pos, not, drop, filter, length, unsigned_abs, IfOk, OnOk};
ghost use Rattle.std.specs.List.Sorted.{IsNonDecreasingBy};
ghost use Rattle.cert_format.specs.Words.{line_feed, text_of_lines};
ghost use Rattle.screen_model.specs.declared.bound.Bound.{Bound};
ghost use Rattle.screen_model.specs.Obeys.{Obeys};
ghost use Rattle.series_csv.specs.Readings.{places};
ghost use Rattle.bound_maker.specs.Bounds.{made_bounds, price_of_number};
ghost use Rattle.bound_maker.specs.Costs.{whole_problem};
ghost use Rattle.bound_maker.specs.declared.maker.TheConstants.{MOST_BOUNDS};
ghost use Rattle.repair_report.specs.Lines.{rule_line};
ghost use Rattle.repair_report.specs.Repairs.{bounds_of, paid_for, priced_rules};
ghost use Rattle.repair_report.specs.RepairLines.{rule_lines};

use crate::lines::push_rule;
use bound_maker::{
    made_is_a_part, make, names_can_be_written, paid_for, price_of, problem_is_sound,
};
use rule_file::Rules;
use screen_model::{Bound, BoundList, Series};
use sequence::Sequence;
use series_csv::Table;
use std::alloc::{AllocError, Global};

/// The numbers of rules, in their order.
pub(crate) type Numbers = Sequence<u32>;

/// Adds the number of a rule, if it has a price.
fn push_if_priced(numbers: &mut Numbers, rules: &Rules, number: u32) -> Result<(), AllocError>
    ensures { OnOk result (numbers.new ≡ numbers.old ++ filter (λ number. not (price_of_number rules.now number == 0)) (number ∷ [])) }
{
    if price_of(rules, number) == 0 {
        Ok(())
    } else {
        numbers.push(number)
    }
}

/// The numbers of the rules that have a price.
pub(crate) fn priced_rules(alloc: Global, rules: &Rules) -> Result<Numbers, AllocError>
    ensures { IfOk result (λ numbers. numbers ≡ priced_rules rules.now) }
{
    let mut numbers = Numbers::new(alloc);
    for before in 0..rules.count() {
        push_if_priced(&mut numbers, rules, before + 1)?;
    }
    Ok(numbers)
}

/// The bounds after so many.
fn after(bounds: &[Bound], before: usize) -> &[Bound]
    requires { before ≤ length bounds.now }
    ensures { result.now ≡ drop before bounds.now }
{
    &bounds[before..]
}

/// The bounds of a rule, among bounds in the order of the rules.
fn bounds_of(bounds: &[Bound], number: u32) -> &[Bound]
    requires { IsNonDecreasingBy (λ (bound : Bound). bound.name.rule) bounds.now }
    ensures { result.now ≡ bounds_of number bounds.now }
{
    let before = bounds.partition_point(|bound| bound.name.rule < number);
    let later = after(bounds, before);
    let count = later.partition_point(|bound| bound.name.rule <= number);
    &later[..count]
}

/// What a series pays for the bounds of a rule that has a price.
fn paid_of_rule(
    table: &Table,
    rules: &Rules,
    series: &Series,
    bounds: &BoundList,
    number: u32,
) -> i128
    requires made { bounds.now ≡ made_bounds rules.now table.now }
    requires few { length bounds.now ≤ MOST_BOUNDS }
    requires price { price_of_number rules.now number ≢ 0 }
    requires obeys { Obeys (places table.now) series.now (whole_problem rules.now table.now).bounds }
    ensures value { result ≡ pos (paid_for rules.now table.now series.now number) }
    ensures small { unsigned_abs result ≤ 10 ^ 30 }
{
    // The names of the bounds rise, and those that are made have all that bear a price; no limit and no price is too great.
    names_can_be_written(table, rules);
    made_is_a_part();
    problem_is_sound(table, rules);
    paid_for(table, rules, bounds_of(bounds.as_slice(), number), series)
}

/// Adds the line of a rule that has a price.
fn push_paid(
    text: &mut Vec<u8>,
    table: &Table,
    rules: &Rules,
    series: &Series,
    bounds: &BoundList,
    number: u32,
) -> Result<(), AllocError>
    requires made { bounds.now ≡ made_bounds rules.now table.now }
    requires few { length bounds.now ≤ MOST_BOUNDS }
    requires price { price_of_number rules.now number ≢ 0 }
    requires obeys { Obeys (places table.now) series.now (whole_problem rules.now table.now).bounds }
    ensures { OnOk result (text.new.items ≡ text.old.items ++ (rule_line rules.now.format.decimals number (pos (paid_for rules.now table.now series.now number)) ++ line_feed ∷ [])) }
{
    let paid = paid_of_rule(table, rules, series, bounds, number);
    push_rule(text, rules.format.decimals, number, paid)
}

/// Adds the line of each rule that has a price. Where none has, no bound is made.
pub(crate) fn push_rules(
    alloc: Global,
    text: &mut Vec<u8>,
    table: &Table,
    rules: &Rules,
    series: &Series,
    priced: &[u32],
) -> Result<(), AllocError>
    requires priced { priced.now ≡ priced_rules rules.now }
    requires few { length (made_bounds rules.now table.now) ≤ MOST_BOUNDS }
    requires obeys { Obeys (places table.now) series.now (whole_problem rules.now table.now).bounds }
    ensures { OnOk result (text.new.items ≡ text.old.items ++ text_of_lines (rule_lines rules.now table.now series.now)) }
{
    if priced.is_empty() {
        return Ok(());
    }
    // There are not too many bounds, so that only memory can be wanting.
    let Ok(bounds) = make(alloc, table, rules) else {
        return Err(AllocError);
    };
    push_each(text, table, rules, series, &bounds, priced)
}

/// Adds the line of each of these rules, which have a price.
fn push_each(
    text: &mut Vec<u8>,
    table: &Table,
    rules: &Rules,
    series: &Series,
    bounds: &BoundList,
    priced: &[u32],
) -> Result<(), AllocError>
    requires priced { priced.now ≡ priced_rules rules.now }
    requires made { bounds.now ≡ made_bounds rules.now table.now }
    requires few { length bounds.now ≤ MOST_BOUNDS }
    requires obeys { Obeys (places table.now) series.now (whole_problem rules.now table.now).bounds }
    ensures { OnOk result (text.new.items ≡ text.old.items ++ text_of_lines (rule_lines rules.now table.now series.now)) }
{
    for number in priced {
        push_paid(text, table, rules, series, bounds, *number)?;
    }
    Ok(())
}
