//! The claim that no series obeys.
ghost use Rattle.std.specs.Prelude.{◌≡◌, ◌≢◌, ◌≤◌, ◌^◌, ◌==◌, ◌&&◌, pos, int_le, unsigned_abs, if◌then◌else◌, [], map, length, not, Some, None, option_map, IfOk, IfErr};
ghost use Rattle.std.specs.List.{AllByRecursion};
ghost use Rattle.words.specs.Answers.{UnlessMemory};
ghost use Rattle.words.specs.Lists.{total};
ghost use Rattle.screen_model.specs.declared.bound.BoundName.{BoundName};
ghost use Rattle.screen_model.specs.Obeys.{HasEnds};
ghost use Rattle.series_csv.specs.Readings.{places};
ghost use Rattle.bound_maker.specs.Bounds.{price_of_number};
ghost use Rattle.bound_maker.specs.Costs.{whole_problem};
ghost use Rattle.cert_check.specs.declared.accepted.Accepted.TheVariants.{NoSeries};
ghost use Rattle.cert_check.specs.declared.fault.CertFault.TheVariants.{CycleSum, Memory, UnknownBound};
ghost use Rattle.cert_check.specs.Claims.{first_fault};
ghost use Rattle.cert_check.specs.Cycle.{cycle_faults, cycle_of, first_open, is_same_end, last_second};
ghost use Rattle.cert_check.specs.Judges.{answer_by};
ghost use Rattle.cert_check.specs.Repair.{first_line, is_known};

use crate::accepted::Accepted;
use crate::fault::CertFault;
use crate::marks::{end_index, is_marked, no_marks};
use crate::sums::sum_of;
use bound_maker::{bound_of, names_are_distinct, price_of, problem_is_sound};
use cert_format::LONGEST;
use rule_file::Rules;
use screen_model::{Bound, BoundList, BoundName, End, NameList};
use series_csv::Table;
use std::alloc::{AllocError, Global};

/// How many lines stand before the first step.
const BEFORE_STEPS: u32 = 2;

/// The bounds of the steps.
///
/// # Errors
///
/// `UnknownBound` where a step names no bound. `Memory` may come at any time.
fn bounds_of_steps(
    alloc: Global,
    table: &Table,
    rules: &Rules,
    steps: &[BoundName],
) -> Result<BoundList, CertFault>
    requires { length steps.now ≤ LONGEST }
    ensures known { IfOk result (λ cycle. first_line (λ name. not (is_known (whole_problem rules.now table.now).bounds name)) BEFORE_STEPS steps.now ≡ None) }
    ensures cycle { IfOk result (λ cycle. cycle ≡ cycle_of rules.now table.now steps.now) }
    ensures ends { IfOk result (λ cycle. AllByRecursion (HasEnds (places table.now)) cycle) }
    ensures long { IfOk result (λ cycle. length cycle ≡ length steps.now) }
    ensures unknown { IfErr result (λ fault. fault ≢ Memory → option_map UnknownBound (first_line (λ name. not (is_known (whole_problem rules.now table.now).bounds name)) BEFORE_STEPS steps.now) ≡ Some fault) }
{
    // No two bounds share a name, and their ends are Zero or readings.
    names_are_distinct(table, rules);
    problem_is_sound(table, rules);
    let mut cycle = BoundList::with_capacity(alloc, steps.len())?;
    let mut number = BEFORE_STEPS;
    for name in steps {
        number += 1;
        match bound_of(table, rules, *name) {
            Some(bound) => cycle.push(bound)?,
            None => return Err(CertFault::UnknownBound { line: number }),
        }
    }
    Ok(cycle)
}

/// The number of the first step line whose bound has a price.
fn first_priced(rules: &Rules, steps: &[BoundName]) -> Option<u32>
    requires { length steps.now ≤ LONGEST }
    ensures { result ≡ first_line (λ (name : BoundName). not (price_of_number rules.now name.rule == 0)) BEFORE_STEPS steps.now }
{
    let mut number = BEFORE_STEPS;
    for name in steps {
        number += 1;
        if price_of(rules, name.rule) != 0 {
            return Some(number);
        }
    }
    None
}

/// Where the last bound ends.
fn last_second(cycle: &[Bound]) -> End
    ensures { result ≡ last_second cycle.now }
{
    match cycle.last() {
        Some(bound) => bound.second,
        None => End::Zero,
    }
}

/// Whether two ends are the same.
fn is_same_end(one: End, other: End) -> bool
    ensures { result ≡ is_same_end one other }
{
    match one {
        End::Zero => match other {
            End::Zero => true,
            End::At(_) => false,
        },
        End::At(p) => match other {
            End::Zero => false,
            End::At(q) => p.row == q.row && p.col == q.col,
        },
    }
}

/// Whether a bound that begins at this end goes on in a cycle: where the one before it ends, and where no earlier one does.
fn goes_on(first: End, last: End, is_marked: bool) -> bool
    ensures { result ≡ (is_same_end first last && not is_marked) }
{
    is_same_end(first, last) && !is_marked
}

/// The number of the first line whose bound does not begin where the one before it ends, or begins where an earlier one
/// does.
fn first_open(alloc: Global, table: &Table, cycle: &[Bound]) -> Result<Option<u32>, AllocError>
    requires few { length cycle.now ≤ LONGEST }
    requires ends { AllByRecursion (HasEnds (places table.now)) cycle.now }
    ensures { IfOk result (λ line. line ≡ first_open [] (last_second cycle.now) BEFORE_STEPS cycle.now) }
{
    // No two readings share a place.
    let _places = table.places();
    let mut marks = no_marks(alloc, table)?;
    let mut last = last_second(cycle);
    let mut number = BEFORE_STEPS;
    for bound in cycle {
        number += 1;
        let first = end_index(table, bound.first);
        if !goes_on(bound.first, last, is_marked(&marks, first)) {
            return Ok(Some(number));
        }
        marks.set(first, true);
        last = bound.second;
    }
    Ok(None)
}

/// The limit of a bound.
fn limit_of(bound: &Bound) -> i128
    ensures value { result ≡ bound.now.limit }
    ensures small { unsigned_abs result ≤ 2 ^ 63 }
{
    i128::from(bound.limit)
}

/// The sum of the limits.
fn sum_of_limits(cycle: &[Bound]) -> i128
    requires { length cycle.now ≤ LONGEST }
    ensures { result ≡ total (map (λ bound. bound.limit) cycle.now) }
{
    let mut sum = 0;
    for bound in cycle {
        sum = sum_of(sum, limit_of(bound));
    }
    sum
}

/// The fault of a cycle whose limits do not add up to less than 0.
fn cycle_sum(cycle: &[Bound]) -> Option<CertFault>
    requires { length cycle.now ≤ LONGEST }
    ensures { result ≡ (let sum = total (map (λ bound. bound.limit) cycle.now) in if int_le (pos 0) sum then Some (CycleSum sum) else None) }
{
    let sum = sum_of_limits(cycle);
    if sum >= 0 {
        Some(CertFault::CycleSum { sum })
    } else {
        None
    }
}

/// Looks at the steps: the bound of each, and the cycle as a whole.
fn check_steps(
    alloc: Global,
    table: &Table,
    rules: &Rules,
    steps: &[BoundName],
) -> Result<(), CertFault>
    requires { length steps.now ≤ LONGEST }
    ensures passed { IfOk result (λ _. first_fault (cycle_faults rules.now table.now steps.now) ≡ None) }
    ensures refused { IfErr result (λ fault. fault ≢ Memory → first_fault (cycle_faults rules.now table.now steps.now) ≡ Some fault) }
{
    let cycle = bounds_of_steps(alloc, table, rules, steps)?;
    if let Some(line) = first_priced(rules, steps) {
        return Err(CertFault::PricedStep { line });
    }
    if let Some(line) = first_open(alloc, table, cycle.as_slice())? {
        return Err(CertFault::CycleOpen { line });
    }
    match cycle_sum(cycle.as_slice()) {
        Some(fault) => Err(fault),
        None => Ok(()),
    }
}

/// What the claim that no series obeys is accepted as.
pub(crate) fn judge_cycle(
    alloc: Global,
    table: &Table,
    rules: &Rules,
    steps: NameList,
) -> Result<Accepted, CertFault>
    requires { length steps ≤ LONGEST }
    ensures { UnlessMemory Memory (λ given. given ≡ answer_by (cycle_faults rules.now table.now steps) (NoSeries steps)) result }
{
    match check_steps(alloc, table, rules, steps.as_slice()) {
        Ok(()) => Ok(Accepted::NoSeries { cycle: steps }),
        Err(fault) => Err(fault),
    }
}
