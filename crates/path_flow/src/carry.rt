//! Excess carried over tight arcs, before the searches.
//!
//! Where a long stretch of readings moves as one, a search for each unit goes over the whole stretch each time. Here each
//! reading passes on what it has to the next one, so that a sweep over the nodes moves most of it.
ghost use Rattle.std.specs.Prelude.{◌≡◌, ◌≢◌, ◌≤◌, ◌<◌, ◌+◌, ◌*◌, ◌/◌, ◌^◌, ◌↔◌, ℕ, ℤ, pos, ◌+ℤ◌, ◌-ℤ◌, ◌≤ℤ◌, false, true, get_or, length, unsigned_abs, IsTrue};
ghost use Rattle.words.specs.Lists.{total};
ghost use Rattle.bound_graph.specs.Values.{value_of};
ghost use Rattle.flow_core.specs.Layout.{arcs_of, nodes_of};
ghost use Rattle.flow_core.specs.State.{IsNetwork, flow_on, residual_of};
ghost use Rattle.flow_core.specs.Views.{arc_both_ways};
ghost use Rattle.path_flow.specs.Flow.{IsCarried, IsCovered, IsLeft, excess_units, most_units, units_left};
ghost use Rattle.path_flow.specs.Steps.{HasNoNegatives, reduced_cost};

use crate::discharge::{direction_of, is_unbalanced};
use crate::saturate::reduced_cost;
use crate::search::{node_after, takes_from};
use crate::units::{excess_units, most_units, size, units_at_readings};
use flow_core::Network;

/// The most rounds of sweeps.
const MOST_ROUNDS: u32 = 20;

/// What may be spent on pushes, so that the searches after them keep what they need.
#[derive(Clone, Copy)]
pub(crate) struct Purse {
    /// No less than the excesses of all nodes together.
    need: u64,
    /// How much may flow on a bound without a price: with the need it makes up the weights and the prices.
    limit: u64,
    /// No less than what flows on any bound without a price.
    top: u64,
    /// The pushes that may still be made.
    pool: u64,
}

/// To or from which nodes excess is carried.
#[derive(Clone, Copy)]
enum Side {
    Zero,
    Later,
    Earlier,
}

/// Carries excess over tight arcs to where there is a deficit, or nearer to it. Answers how many units the searches may move
/// afterwards.
pub(crate) fn carry(net: &mut Network) -> u64
    requires network { IsNetwork net.old }
    requires optimal { HasNoNegatives net.old }
    requires free { (arc : ℕ) → get_or net.old.network.prices arc 1 ≡ 0 → flow_on net.old arc ≡ pos 0 }
    requires units { excess_units net.old ≤ most_units net.old.network }
    requires whole { total net.old.excesses ≡ pos 0 }
    ensures network_stays { net.new.network ≡ net.old.network }
    ensures network { IsNetwork net.new }
    ensures optimal { HasNoNegatives net.new }
    ensures most { result ≤ most_units net.new.network }
    ensures few { units_left net.new ≤ 2 * most_units net.new.network }
    ensures left { (spare : ℤ) → spare ≡ pos result -ℤ pos (units_left net.new)
        → IsLeft net.old.network (net.old.changes + length net.old.network.values * most_units net.old.network) net.new spare 1 }
{
    let mut purse = first_purse(net);
    carry_in_rounds(net, &mut purse);
    budget(net, purse)
}

/// Sweeps up and down the nodes until nothing is left, or nothing moves.
fn carry_in_rounds(net: &mut Network, purse: &mut Purse)
    requires network { IsNetwork net.old }
    requires covered { IsCovered purse.old net.old }
    ensures network { IsNetwork net.new }
    ensures covered { IsCovered purse.new net.new }
    ensures carried { IsCarried purse.old purse.new net.old net.new }
{
    let mut left = units_at_readings(net);
    for _round in 0..MOST_ROUNDS {
        let before = left;
        carry_both_ways(net, purse);
        left = units_at_readings(net);
        if left == 0 || left >= before {
            return;
        }
    }
}

/// The purse before the first push: for each unit that no excess needs, a path over all readings.
fn first_purse(net: &Network) -> Purse
    requires network { IsNetwork net.now }
    requires optimal { HasNoNegatives net.now }
    requires free { (arc : ℕ) → get_or net.now.network.prices arc 1 ≡ 0 → flow_on net.now arc ≡ pos 0 }
    requires units { excess_units net.now ≤ most_units net.now.network }
    requires whole { total net.now.excesses ≡ pos 0 }
    ensures covered { IsCovered result net.now }
    ensures pool { result.pool + length net.now.network.values * result.need ≡ length net.now.network.values * most_units net.now.network }
{
    let need = excess_units(net);
    let limit = most_units(net) - need;
    Purse {
        need,
        limit,
        top: 0,
        pool: limit * u64::from(net.nodes() - 1),
    }
}

/// The units that the searches may move: as many as the flows on bounds without a price and the pushes that are left allow.
fn budget(net: &Network, purse: Purse) -> u64
    requires network { IsNetwork net.now }
    requires covered { IsCovered purse net.now }
    ensures most { result + purse.top ≤ most_units net.now.network }
    ensures need { purse.need ≤ result }
    ensures pool { length net.now.network.values * result ≤ purse.pool + length net.now.network.values * purse.need }
{
    let readings = u64::from(net.nodes() - 1).max(1);
    let by_pushes = purse.need.saturating_add(purse.pool / readings);
    (purse.limit + purse.need - purse.top).min(by_pushes)
}

/// Sweeps up the nodes, and down again.
fn carry_both_ways(net: &mut Network, purse: &mut Purse)
    requires network { IsNetwork net.old }
    requires covered { IsCovered purse.old net.old }
    ensures network { IsNetwork net.new }
    ensures covered { IsCovered purse.new net.new }
    ensures carried { IsCarried purse.old purse.new net.old net.new }
{
    carry_up(net, purse);
    carry_down(net, purse);
}

/// Carries excess to and from later nodes, from the first reading on.
fn carry_up(net: &mut Network, purse: &mut Purse)
    requires network { IsNetwork net.old }
    requires covered { IsCovered purse.old net.old }
    ensures network { IsNetwork net.new }
    ensures covered { IsCovered purse.new net.new }
    ensures carried { IsCarried purse.old purse.new net.old net.new }
{
    for reading in 0..net.nodes() - 1 {
        relieve(net, reading + 1, Side::Later, purse);
    }
}

/// Carries excess to and from earlier nodes, from the last reading on.
fn carry_down(net: &mut Network, purse: &mut Purse)
    requires network { IsNetwork net.old }
    requires covered { IsCovered purse.old net.old }
    ensures network { IsNetwork net.new }
    ensures covered { IsCovered purse.new net.new }
    ensures carried { IsCarried purse.old purse.new net.old net.new }
{
    let last = net.nodes() - 1;
    for done in 0..last {
        relieve(net, last - done, Side::Earlier, purse);
    }
}

/// Carries the excess or the deficit of a reading first to node 0, and what is left to the nodes on one side.
fn relieve(net: &mut Network, node: u32, side: Side, purse: &mut Purse)
    requires network { IsNetwork net.old }
    requires covered { IsCovered purse.old net.old }
    requires reading { 1 ≤ node }
    requires node { node < nodes_of net.old.network }
    ensures network { IsNetwork net.new }
    ensures covered { IsCovered purse.new net.new }
    ensures carried { IsCarried purse.old purse.new net.old net.new }
{
    if is_unbalanced(net, node) {
        carry_to(net, node, Side::Zero, purse);
        carry_to(net, node, side, purse);
    }
}

/// Carries the excess or the deficit of a reading to nodes on one side, as far as tight arcs have room for it.
fn carry_to(net: &mut Network, node: u32, side: Side, purse: &mut Purse)
    requires network { IsNetwork net.old }
    requires covered { IsCovered purse.old net.old }
    requires reading { 1 ≤ node }
    requires node { node < nodes_of net.old.network }
    ensures network { IsNetwork net.new }
    ensures covered { IsCovered purse.new net.new }
    ensures carried { IsCarried purse.old purse.new net.old net.new }
{
    for place in 0..net.out_arcs(node).len() {
        let number = net.out_arcs(node)[place];
        if purse.pool > 0 && leads_on(net, node, number, side) {
            carry_over(net, node, number, purse);
        }
    }
}

/// Whether a node has something to carry, and an arc or reverse is tight that leads from it to a side.
fn leads_on(net: &Network, node: u32, number: u32, side: Side) -> bool
    requires network { IsNetwork net.now }
    requires reading { 1 ≤ node }
    requires node { node < nodes_of net.now.network }
    requires number { number / 2 < length (arcs_of net.now.network) }
    ensures some { result ≡ true → value_of net.now.excesses node ≢ pos 0 }
    ensures tight { result ≡ true → reduced_cost net.now (number / 2) ≡ pos 0 }
    ensures apart { result ≡ true → (arc_both_ways net.now.network number).head ≢ node }
{
    is_unbalanced(net, node)
        && is_on(side, node, node_after(net, number))
        && is_tight(net, number / 2)
}

/// Whether another node lies on a side of a reading.
fn is_on(side: Side, node: u32, other: u32) -> bool
    requires { 1 ≤ node }
    ensures { result ≡ true → other ≢ node }
{
    match side {
        Side::Zero => other == 0,
        Side::Later => other > node,
        Side::Earlier => 0 < other && other < node,
    }
}

/// Whether the reduced cost of an arc is 0.
fn is_tight(net: &Network, arc: u32) -> bool
    requires network { IsNetwork net.now }
    requires arc { arc < length (arcs_of net.now.network) }
    ensures { IsTrue result ↔ (reduced_cost net.now arc ≡ pos 0) }
{
    reduced_cost(net, arc) == 0
}

/// Pushes over a tight arc or its reverse what a node has in excess, or what it lacks the other way, as far as there is room.
fn carry_over(net: &mut Network, node: u32, number: u32, purse: &mut Purse)
    requires network { IsNetwork net.old }
    requires covered { IsCovered purse.old net.old }
    requires node { node < nodes_of net.old.network }
    requires number { number / 2 < length (arcs_of net.old.network) }
    requires tail { (arc_both_ways net.old.network number).tail ≡ node }
    requires some { value_of net.old.excesses node ≢ pos 0 }
    requires tight { reduced_cost net.old (number / 2) ≡ pos 0 }
    requires apart { (arc_both_ways net.old.network number).head ≢ node }
    requires pool { 1 ≤ purse.old.pool }
    ensures network { IsNetwork net.new }
    ensures covered { IsCovered purse.new net.new }
    ensures carried { IsCarried purse.old purse.new net.old net.new }
{
    let back = takes_from(number, direction_of(net.excess(node)));
    let amount = amount_over(net, node, number / 2, back, purse.limit);
    if amount > 0 {
        net.push(number / 2, back, amount);
        purse.pool -= 1;
        purse.top = purse.top.max(free_flow(net, number / 2));
    }
}

/// How much can be pushed over an arc or, with `back`, over its reverse: no more than a node has or lacks, nor than leaves a
/// bound without a price within a limit.
fn amount_over(net: &Network, node: u32, arc: u32, back: bool, limit: u64) -> i64
    requires network { IsNetwork net.now }
    requires node { node < nodes_of net.now.network }
    requires arc { arc < length (arcs_of net.now.network) }
    requires limit { limit ≤ 2 ^ 40 }
    ensures room { result ≤ℤ residual_of net.now arc back }
    ensures excess { result ≤ℤ pos (unsigned_abs (value_of net.now.excesses node)) }
    ensures limit { back ≡ false → get_or net.now.network.prices arc 1 ≡ 0 → (flow_on net.now arc +ℤ result) ≤ℤ pos limit }
{
    let most = net.residual(arc, back).min(size(net.excess(node)));
    if !back && net.is_unpriced(arc) {
        most.min(less(limit, net.flow(arc)))
    } else {
        most
    }
}

/// The difference of a limit and a flow.
fn less(limit: u64, flow: i64) -> i64
    requires limit { limit ≤ 2 ^ 40 }
    requires flow { unsigned_abs flow ≤ 2 ^ 40 }
    ensures { result ≡ pos limit -ℤ flow }
{
    limit as i64 - flow
}

/// What flows on an arc if it is a bound without a price, and else 0.
fn free_flow(net: &Network, arc: u32) -> u64
    requires network { IsNetwork net.now }
    requires arc { arc < length (arcs_of net.now.network) }
    ensures free { get_or net.now.network.prices arc 1 ≡ 0 → pos result ≡ flow_on net.now arc }
    ensures priced { get_or net.now.network.prices arc 1 ≢ 0 → result ≡ 0 }
{
    if net.is_unpriced(arc) {
        net.flow(arc).unsigned_abs()
    } else {
        0
    }
}
