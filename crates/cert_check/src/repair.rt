//! The claim of a repair.
ghost use Rattle.std.specs.Prelude.{◌≡◌, ◌≢◌, ◌+◌, ◌^◌, ◌<◌, ◌≤◌, pos, length, not, option_map, Some, None, IfOk, IfErr};
ghost use Rattle.words.specs.Answers.{UnlessMemory};
ghost use Rattle.screen_model.specs.declared.bound.FlowItem.{FlowItem};
ghost use Rattle.screen_model.specs.Cost.{cost, paid};
ghost use Rattle.series_csv.specs.Readings.{places, values};
ghost use Rattle.bound_maker.specs.Bounds.{made_bounds, price_of_number};
ghost use Rattle.bound_maker.specs.Costs.{whole_problem};
ghost use Rattle.bound_maker.specs.declared.maker.TheConstants.{MOST_BOUNDS};
ghost use Rattle.cert_check.specs.declared.fault.CertFault.TheVariants.{Memory, OverPrice, SetOutside, TotalWrong, ValueDiffers};
ghost use Rattle.cert_check.specs.Claims.{IsFit, IsSeriesAndPaid, first_fault, flow_faults, line_faults, number_faults, series_faults};
ghost use Rattle.cert_check.specs.Judges.{answer_to_repair};
ghost use Rattle.cert_check.specs.Repair.{first_line, repair_faults, is_above, is_change, series_of, unknown_item, unless_same, unless_same_paid};
ghost use Rattle.cert_check.specs.Tally.{IsTally};

use crate::accepted::Accepted;
use crate::fault::CertFault;
use crate::flow::{Tally, dual_value, first_pulled, tally_flow};
use crate::sets::{first_outside, series_with};
use crate::sums::sum_of;
use bound_maker::{best_over_made, change_of, first_broken, paid_of, price_of, weights_of};
use cert_format::SetList;
use rule_file::Rules;
use screen_model::{BoundList, FlowItem, FlowList, Series};
use series_csv::Table;
use std::alloc::Global;

/// What a certificate claims of a repair.
#[derive(Drop)]
pub(crate) struct Claim {
    /// How many lines stand before the set lines.
    pub(crate) before: u32,
    /// What the series costs, in units.
    pub(crate) total: i128,
    /// What it pays, if the certificate tells it, in units.
    pub(crate) paid: Option<i128>,
    /// The set lines.
    pub(crate) sets: SetList,
    /// The flow lines.
    pub(crate) flow: FlowList,
}

/// Whether the amount of a flow line is above the price of its bound.
fn is_above(rules: &Rules, item: &FlowItem) -> bool
    ensures { result ≡ is_above (price_of_number rules.now item.now.name.rule) item.now.amount }
{
    let price = price_of(rules, item.name.rule);
    price > 0 && item.amount > i64::from(price)
}

/// The number of the first flow line whose amount is above the price of its bound.
fn first_above(rules: &Rules, flow: &[FlowItem], before: u32) -> Option<u32>
    requires { before + length flow.now < 2 ^ 32 }
    ensures { result ≡ first_line (λ (item : FlowItem). is_above (price_of_number rules.now item.name.rule) item.amount) before flow.now }
{
    let mut number = before;
    for item in flow {
        number += 1;
        if is_above(rules, item) {
            return Some(number);
        }
    }
    None
}

/// The fault of a set line that changes no reading.
fn set_outside(table: &Table, claim: &Claim) -> Option<CertFault>
    requires { IsFit claim.now }
    ensures { result ≡ option_map SetOutside (first_line (λ line. not (is_change (places table.now) (values table.now) line)) claim.now.before claim.now.sets) }
{
    match first_outside(table, claim.sets.as_slice(), claim.before) {
        Some(line) => Some(CertFault::SetOutside { line }),
        None => None,
    }
}

/// How many lines stand before the flow lines.
fn before_flow(claim: &Claim) -> u32
    requires { IsFit claim.now }
    ensures { result ≡ claim.now.before + length claim.now.sets }
{
    claim.before + claim.sets.len() as u32
}

/// What the flow lines add up to.
fn tally_of(alloc: Global, table: &Table, rules: &Rules, claim: &Claim) -> Result<Tally, CertFault>
    requires { IsFit claim.now }
    ensures known { IfOk result (λ tally. unknown_item rules.now table.now claim.now ≡ None) }
    ensures tally { IfOk result (λ tally. IsTally rules.now table.now claim.now.flow tally) }
    ensures unknown { IfErr result (λ fault. fault ≢ Memory → unknown_item rules.now table.now claim.now ≡ Some fault) }
{
    tally_flow(
        alloc,
        table,
        rules,
        claim.flow.as_slice(),
        before_flow(claim),
    )
}

/// The fault of a flow line whose amount is above the price of its bound.
fn over_price(rules: &Rules, claim: &Claim) -> Option<CertFault>
    requires { IsFit claim.now }
    ensures { result ≡ option_map OverPrice (first_line (λ (item : FlowItem). is_above (price_of_number rules.now item.name.rule) item.amount) (claim.now.before + length claim.now.sets) claim.now.flow) }
{
    match first_above(rules, claim.flow.as_slice(), before_flow(claim)) {
        Some(line) => Some(CertFault::OverPrice { line }),
        None => None,
    }
}

/// Looks at the set lines and the flow lines, each by itself.
fn check_lines(
    alloc: Global,
    table: &Table,
    rules: &Rules,
    claim: &Claim,
) -> Result<Tally, CertFault>
    requires { IsFit claim.now }
    ensures passed { IfOk result (λ tally. first_fault (line_faults rules.now table.now claim.now) ≡ None) }
    ensures tally { IfOk result (λ tally. IsTally rules.now table.now claim.now.flow tally) }
    ensures refused { IfErr result (λ fault. fault ≢ Memory → first_fault (line_faults rules.now table.now claim.now) ≡ Some fault) }
{
    if let Some(fault) = set_outside(table, claim) {
        return Err(fault);
    }
    match tally_of(alloc, table, rules, claim) {
        Ok(tally) => match over_price(rules, claim) {
            Some(fault) => Err(fault),
            None => Ok(tally),
        },
        Err(fault) => Err(fault),
    }
}

/// What a series costs, and the part of it that is paid.
fn costs_of(table: &Table, rules: &Rules, bounds: &BoundList, series: &Series) -> (i128, i128)
    requires made { bounds.now ≡ made_bounds rules.now table.now }
    requires few { length bounds.now ≤ MOST_BOUNDS }
    requires whole { length series.now ≡ length (values table.now) }
    ensures cost { result.0 ≡ pos (cost (whole_problem rules.now table.now) series.now) }
    ensures paid { result.1 ≡ pos (paid (whole_problem rules.now table.now) series.now) }
{
    // Over the bounds that are made a series costs and pays what it costs and pays over all.
    best_over_made(table, rules);
    let change = change_of(table, rules, series);
    let paid = paid_of(table, rules, bounds, series);
    (sum_of(change, paid), paid)
}

/// The fault of a number that is not the true one.
fn unless_same(given: i128, truth: i128, fault: CertFault) -> Option<CertFault>
    ensures { result ≡ unless_same given truth fault }
{
    if given == truth { None } else { Some(fault) }
}

/// The fault of a total that is not what the series costs.
fn total_wrong(given: i128, truth: i128) -> Option<CertFault>
    ensures { result ≡ unless_same given truth (TotalWrong given truth) }
{
    unless_same(given, truth, CertFault::TotalWrong { given, truth })
}

/// The fault of a payment that is told and is not what the series pays.
fn paid_wrong(paid: Option<i128>, truth: i128) -> Option<CertFault>
    ensures { result ≡ unless_same_paid paid truth }
{
    match paid {
        Some(given) => unless_same(given, truth, CertFault::PaidWrong { given, truth }),
        None => None,
    }
}

/// Looks at the series: whether it obeys, what it costs and what it pays, which is the answer.
fn check_series(
    table: &Table,
    rules: &Rules,
    bounds: &BoundList,
    claim: &Claim,
    series: &Series,
) -> Result<i128, CertFault>
    requires made { bounds.now ≡ made_bounds rules.now table.now }
    requires few { length bounds.now ≤ MOST_BOUNDS }
    requires series { series.now ≡ series_of table.now claim.now }
    ensures passed { IfOk result (λ part. first_fault (series_faults rules.now table.now claim.now) ≡ None) }
    ensures paid { IfOk result (λ part. part ≡ pos (paid (whole_problem rules.now table.now) series.now)) }
    ensures refused { IfErr result (λ fault. first_fault (series_faults rules.now table.now claim.now) ≡ Some fault) }
{
    // There are as many places as readings.
    let _places = table.places();
    if let Some(name) = first_broken(table, rules, bounds, series) {
        return Err(CertFault::Broken { name });
    }
    let (cost, paid) = costs_of(table, rules, bounds, series);
    if let Some(fault) = total_wrong(claim.total, cost) {
        return Err(fault);
    }
    match paid_wrong(claim.paid, paid) {
        Some(fault) => Err(fault),
        None => Ok(paid),
    }
}

/// Looks at the flow as a whole: how it pulls at the readings, and its dual value.
fn check_flow(
    alloc: Global,
    table: &Table,
    rules: &Rules,
    claim: &Claim,
    tally: &Tally,
) -> Result<(), CertFault>
    requires { IsTally rules.now table.now claim.now.flow tally.now }
    ensures passed { IfOk result (λ _. first_fault (flow_faults rules.now table.now claim.now) ≡ None) }
    ensures refused { IfErr result (λ fault. fault ≢ Memory → first_fault (flow_faults rules.now table.now claim.now) ≡ Some fault) }
{
    let weights = weights_of(alloc, table, rules)?;
    if let Some(place) = first_pulled(table, rules, &weights, tally.pulls.as_slice()) {
        return Err(CertFault::PullTooGreat { place });
    }
    match value_differs(dual_value(table, tally), claim.total) {
        Some(fault) => Err(fault),
        None => Ok(()),
    }
}

/// The fault of a flow whose dual value is not the total.
fn value_differs(value: i128, total: i128) -> Option<CertFault>
    ensures { result ≡ unless_same value total (ValueDiffers value total) }
{
    unless_same(value, total, CertFault::ValueDiffers { value, total })
}

/// Looks at the numbers of a repair: those of its series, and those of its flow. The answer is the series, and what it pays.
#[tactic(none)]
fn check_numbers(
    alloc: Global,
    table: &Table,
    rules: &Rules,
    bounds: &BoundList,
    claim: &Claim,
    tally: &Tally,
) -> Result<(Series, i128), CertFault>
    requires made { bounds.now ≡ made_bounds rules.now table.now }
    requires few { length bounds.now ≤ MOST_BOUNDS }
    requires tally { IsTally rules.now table.now claim.now.flow tally.now }
    ensures passed { IfOk result (λ part. first_fault (number_faults rules.now table.now claim.now) ≡ None) }
    ensures numbers { IfOk result (λ part. IsSeriesAndPaid rules.now table.now claim.now part.0 part.1) }
    ensures refused { IfErr result (λ fault. fault ≢ Memory → first_fault (number_faults rules.now table.now claim.now) ≡ Some fault) }
{
    match series_with(alloc, table, claim.sets.as_slice()) {
        Ok(series) => match check_series(table, rules, bounds, claim, &series) {
            Ok(paid) => match check_flow(alloc, table, rules, claim, tally) {
                Ok(()) => Ok((series, paid)),
                Err(fault) => Err(fault),
            },
            Err(fault) => Err(fault),
        },
        Err(_) => Err(CertFault::Memory),
    }
}

/// Looks at all of a repair. The answer is the series, and what it pays.
#[tactic(none)]
fn check_repair(
    alloc: Global,
    table: &Table,
    rules: &Rules,
    bounds: &BoundList,
    claim: &Claim,
) -> Result<(Series, i128), CertFault>
    requires made { bounds.now ≡ made_bounds rules.now table.now }
    requires few { length bounds.now ≤ MOST_BOUNDS }
    requires fit { IsFit claim.now }
    ensures passed { IfOk result (λ part. first_fault (repair_faults rules.now table.now claim.now) ≡ None) }
    ensures numbers { IfOk result (λ part. IsSeriesAndPaid rules.now table.now claim.now part.0 part.1) }
    ensures refused { IfErr result (λ fault. fault ≢ Memory → first_fault (repair_faults rules.now table.now claim.now) ≡ Some fault) }
{
    match check_lines(alloc, table, rules, claim) {
        Ok(tally) => check_numbers(alloc, table, rules, bounds, claim, &tally),
        Err(fault) => Err(fault),
    }
}

/// What the claim of a repair is accepted as.
#[tactic(none)]
pub(crate) fn judge_repair(
    alloc: Global,
    table: &Table,
    rules: &Rules,
    bounds: &BoundList,
    claim: Claim,
) -> Result<Accepted, CertFault>
    requires made { bounds.now ≡ made_bounds rules.now table.now }
    requires few { length bounds.now ≤ MOST_BOUNDS }
    requires fit { IsFit claim }
    ensures { UnlessMemory Memory (λ given. given ≡ answer_to_repair rules.now table.now claim) result }
{
    match check_repair(alloc, table, rules, bounds, &claim) {
        Ok((series, paid)) => Ok(Accepted::Repair {
            series,
            flow: claim.flow,
            total: claim.total,
            paid,
        }),
        Err(fault) => Err(fault),
    }
}
