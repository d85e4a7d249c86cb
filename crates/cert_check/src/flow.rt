//! What the lines of a flow add up to.
ghost use Rattle.std.specs.Prelude.{◌≡◌, ◌≢◌, ◌+◌, ◌*◌, ◌^◌, ◌<◌, ◌≤◌, ℤ, pos, neg_ℤ, ◌+ℤ◌, ◌*ℤ◌, ◌-ℤ◌, List, [], map, length, not, nat_lt, get_or, replicate, slice_get, slice_set, unsigned_abs, Option, Some, None, option_map, IfOk, IfErr};
ghost use Rattle.std.specs.List.{AllByRecursion};
ghost use Rattle.words.specs.Lists.{inner_product};
ghost use Rattle.screen_model.specs.declared.bound.FlowItem.{FlowItem};
ghost use Rattle.screen_model.specs.declared.place.End.TheVariants.{At};
ghost use Rattle.cert_format.specs.Line.{IsItem};
ghost use Rattle.series_csv.specs.Readings.{places, values};
ghost use Rattle.bound_maker.specs.Costs.{weights, whole_problem};
ghost use Rattle.cert_check.specs.declared.fault.CertFault.TheVariants.{Memory, UnknownBound};
ghost use Rattle.cert_check.specs.Repair.{first_line, first_pulled, is_known};
ghost use Rattle.screen_model.specs.declared.limits.TheConstants.{MOST_READINGS};
ghost use Rattle.cert_check.specs.Tally.{AreWithin, IsTally, added_at, added_by};

use crate::fault::CertFault;
use crate::sums::{difference, opposite, product, sum_of, wide};
use bound_maker::{bound_of, names_are_distinct, problem_is_sound};
use cert_format::LONGEST;
use rule_file::Rules;
use screen_model::{Bound, End, FlowItem, Place, sums_over_items};
use sequence::Sequence;
use series_csv::Table;
use std::alloc::{AllocError, Global};

/// What flow lines add up to. All sums are exact: a text that is not too long has few enough lines.
#[derive(Drop)]
pub(crate) struct Tally {
    /// How the flow pulls at each reading.
    pub(crate) pulls: Sequence<i128>,
    /// The sum of the amounts, each times the limit of its bound, in units.
    pub(crate) limits: i128,
}

/// The tally of no line, over so many readings.
fn no_tally(alloc: Global, count: u32) -> Result<Tally, AllocError>
    ensures { IfOk result (λ tally. (tally.pulls ≡ replicate count (pos 0)) × (tally.limits ≡ pos 0)) }
{
    let pulls = Sequence::from_vec(vec![in alloc; 0i128; count as usize]?);
    Ok(Tally { pulls, limits: 0 })
}

/// The pull of a reading, counted from 0, and 0 where there is none.
fn pull_at(pulls: &Sequence<i128>, i: usize) -> i128
    ensures { result ≡ get_or pulls.now i (pos 0) }
{
    pulls.get(i).copied().unwrap_or(0)
}

/// Adds to how the flow pulls at an end.
fn add_at(table: &Table, pulls: &mut Sequence<i128>, end: End, amount: i128)
    requires long { length pulls.old ≡ length (places table.now) }
    requires small { AreWithin (2 * 10 ^ 30) pulls.old }
    requires amount { unsigned_abs amount ≤ 10 ^ 15 }
    ensures { pulls.new ≡ added_at (places table.now) pulls.old end amount }
{
    match end {
        End::Zero => {}
        End::At(place) => add_at_place(table, pulls, place, amount),
    }
}

/// Adds to how the flow pulls at a place.
fn add_at_place(table: &Table, pulls: &mut Sequence<i128>, place: Place, amount: i128)
    requires long { length pulls.old ≡ length (places table.now) }
    requires small { AreWithin (2 * 10 ^ 30) pulls.old }
    requires amount { unsigned_abs amount ≤ 10 ^ 15 }
    ensures { pulls.new ≡ added_at (places table.now) pulls.old (At place) amount }
{
    // No two readings share a place, so that the index is the only one.
    let _places = table.places();
    match table.index(place) {
        Some(i) => add_to(pulls, i as usize, amount),
        None => {}
    }
}

/// Adds to the pull of a reading.
fn add_to(pulls: &mut Sequence<i128>, i: usize, amount: i128)
    requires within { i < length pulls.old }
    requires small { AreWithin (2 * 10 ^ 30) pulls.old }
    requires amount { unsigned_abs amount ≤ 10 ^ 15 }
    ensures { pulls.new ≡ slice_set pulls.old i (get_or pulls.old i (pos 0) +ℤ amount) }
{
    let sum = sum_of(pull_at(pulls, i), amount);
    pulls.set(i, sum);
}

/// Adds to how the flow pulls at both ends of a bound.
fn add_pulls(table: &Table, pulls: &mut Sequence<i128>, bound: &Bound, amount: i64)
    requires long { length pulls.old ≡ length (places table.now) }
    requires small { AreWithin (10 ^ 30) pulls.old }
    requires amount { unsigned_abs amount ≤ 10 ^ 15 }
    ensures { pulls.new ≡ added_by (places table.now) pulls.old bound.now amount }
{
    add_at(table, pulls, bound.first, wide(amount));
    add_at(table, pulls, bound.second, opposite(amount));
}

/// A sum, with an amount times a limit more.
fn limits_with(sum: i128, amount: i64, limit: i64) -> i128
    requires sum { unsigned_abs sum ≤ 10 ^ 38 }
    requires amount { unsigned_abs amount ≤ 10 ^ 15 }
    requires limit { unsigned_abs limit ≤ 4 * 10 ^ 15 }
    ensures { result ≡ sum +ℤ (amount *ℤ limit) }
{
    sum_of(sum, product(amount, limit))
}

/// What the flow lines add up to, where so many lines stand before them.
///
/// # Errors
///
/// `UnknownBound` where a line names no bound. `Memory` may come at any time.
pub(crate) fn tally_flow(
    alloc: Global,
    table: &Table,
    rules: &Rules,
    flow: &[FlowItem],
    before: u32,
) -> Result<Tally, CertFault>
    requires each { AllByRecursion IsItem flow.now }
    requires few { 11 * length flow.now ≤ LONGEST }
    requires lines { before + length flow.now < 2 ^ 32 }
    ensures known { IfOk result (λ tally. first_line (λ (item : FlowItem). not (is_known (whole_problem rules.now table.now).bounds item.name)) before flow.now ≡ None) }
    ensures tally { IfOk result (λ tally. IsTally rules.now table.now flow.now tally) }
    ensures unknown { IfErr result (λ fault. fault ≢ Memory → option_map UnknownBound (first_line (λ (item : FlowItem). not (is_known (whole_problem rules.now table.now).bounds item.name)) before flow.now) ≡ Some fault) }
{
    // No two bounds share a name, and no limit is too great.
    names_are_distinct(table, rules);
    problem_is_sound(table, rules);
    sums_over_items();
    let _places = table.places();
    let mut tally = no_tally(alloc, table.len())?;
    let mut number = before;
    for item in flow {
        number += 1;
        match bound_of(table, rules, item.name) {
            Some(bound) => {
                add_pulls(table, &mut tally.pulls, &bound, item.amount);
                tally.limits = limits_with(tally.limits, item.amount, bound.limit);
            }
            None => return Err(CertFault::UnknownBound { line: number }),
        }
    }
    Ok(tally)
}

/// Whether a pull is greater in size than a weight.
fn is_pulled(pull: i128, weight: u32) -> bool
    ensures { result ≡ nat_lt weight (unsigned_abs pull) }
{
    u128::from(weight) < pull.unsigned_abs()
}

/// The number at a place of a list, counted from 0.
fn number_at(numbers: &[u32], i: u32) -> u32
    requires { i < length numbers.now }
    ensures { slice_get numbers.now i ≡ Some result }
{
    numbers[i as usize]
}

/// The place of the first reading that is pulled by more than its weight. The list tells by how much each may be pulled: the
/// weights of all readings.
pub(crate) fn first_pulled(
    table: &Table,
    rules: &Rules,
    allowed: &[u32],
    pulls: &[i128],
) -> Option<Place>
    requires allowed { allowed.now ≡ weights rules.now table.now }
    requires long { length pulls.now ≡ length (places table.now) }
    ensures first { result ≡ first_pulled pulls.now (weights rules.now table.now) (places table.now) }
    ensures within { result ≡ None → AreWithin (2 ^ 32) pulls.now }
{
    // There are as many places as readings, and as weights.
    let _places = table.places();
    problem_is_sound(table, rules);
    let _count = table.len();
    let mut i = 0;
    for pull in pulls {
        if is_pulled(*pull, number_at(allowed, i)) {
            return table.place(i);
        }
        i += 1;
    }
    None
}

/// The sum of the pulls, each times the value of its reading.
fn pulled_values(pulls: &[i128], values: &[i64]) -> i128
    requires long { length pulls.now ≡ length values.now }
    requires few { length pulls.now ≤ MOST_READINGS }
    requires within { AreWithin (2 ^ 32) pulls.now }
    ensures value { result ≡ inner_product values.now pulls.now }
    ensures small { unsigned_abs result ≤ 2 ^ 120 }
{
    let mut sum = 0;
    for i in 0..pulls.len() {
        sum = sum_of(sum, pulled_value(pulls[i], values[i]));
    }
    sum
}

/// A pull times a value.
fn pulled_value(pull: i128, value: i64) -> i128
    requires { unsigned_abs pull ≤ 2 ^ 32 }
    ensures value { result ≡ value *ℤ pull }
    ensures small { unsigned_abs result ≤ 2 ^ 96 }
{
    i128::from(value) * pull
}

/// The dual value of a flow by what its limits and what its pulls add up to.
fn value_by(limits: i128, pulled: i128) -> i128
    requires limits { unsigned_abs limits ≤ 10 ^ 38 }
    requires pulled { unsigned_abs pulled ≤ 2 ^ 120 }
    ensures { result ≡ neg_ℤ limits -ℤ pulled }
{
    difference(difference(0, limits), pulled)
}

/// The dual value of the flow of a tally.
pub(crate) fn dual_value(table: &Table, tally: &Tally) -> i128
    requires long { length tally.now.pulls ≡ length (places table.now) }
    requires within { AreWithin (2 ^ 32) tally.now.pulls }
    requires limits { unsigned_abs tally.now.limits ≤ 10 ^ 38 }
    ensures { result ≡ neg_ℤ tally.now.limits -ℤ inner_product (values table.now) tally.now.pulls }
{
    // There are as many places as readings.
    let _places = table.places();
    let _count = table.len();
    let pulled = pulled_values(tally.pulls.as_slice(), table.series().as_slice());
    value_by(tally.limits, pulled)
}
