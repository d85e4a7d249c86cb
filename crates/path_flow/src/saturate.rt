//! The arcs of negative reduced cost, saturated.
ghost use Rattle.std.specs.Prelude.{◌≡◌, ◌≤◌, ◌<◌, ◌+◌, ◌*◌, ◌^◌, ◌↔◌, ℕ, pos, ◌+ℤ◌, ◌-ℤ◌, ◌≤ℤ◌, ◌<ℤ◌, get_or, length, sum, unsigned_abs, IsTrue};
ghost use Rattle.words.specs.Lists.{total};
ghost use Rattle.bound_graph.specs.Values.{RespectsArcs};
ghost use Rattle.flow_core.specs.Layout.{arcs_of, priced_count};
ghost use Rattle.flow_core.specs.State.{IsNetwork, flow_on};
ghost use Rattle.flow_core.specs.Views.{bare_arcs};
ghost use Rattle.path_flow.specs.Flow.{excess_units, most_units};
ghost use Rattle.path_flow.specs.Steps.{ChangesFlows, HasNoNegatives, reduced_cost};
ghost use Rattle.path_flow.specs.Saturation.{IsSaturated, Saturates};

use bound_graph::ArcList;
use flow_core::Network;

/// Saturates every arc of negative reduced cost in a network in which nothing flows.
pub(crate) fn saturate(net: &mut Network)
    requires network { IsNetwork net.old }
    requires empty { (arc : ℕ) → flow_on net.old arc ≡ pos 0 }
    requires obeys { RespectsArcs net.old.potentials (bare_arcs net.old) }
    requires unchanged { net.old.changes ≡ 0 }
    requires balanced { excess_units net.old ≡ 0 }
    ensures stays { ChangesFlows net.old net.new }
    ensures network { IsNetwork net.new }
    ensures optimal { HasNoNegatives net.new }
    ensures free { (arc : ℕ) → get_or net.new.network.prices arc 1 ≡ 0 → flow_on net.new arc ≡ pos 0 }
    ensures units { excess_units net.new ≤ most_units net.new.network }
    ensures whole { total net.new.excesses ≡ total net.old.excesses }
    ensures changes { net.new.changes ≤ length net.old.network.values + priced_count net.old.network }
{
    saturate_bounds(net);
    saturate_readings(net);
}

/// Saturates the bounds of negative reduced cost. Each of them has a price.
fn saturate_bounds(net: &mut Network)
    requires network { IsNetwork net.old }
    requires empty { (arc : ℕ) → flow_on net.old arc ≡ pos 0 }
    requires obeys { RespectsArcs net.old.potentials (bare_arcs net.old) }
    requires unchanged { net.old.changes ≡ 0 }
    requires balanced { excess_units net.old ≡ 0 }
    ensures saturated { IsSaturated (length net.old.network.bounds) net.old net.new }
    ensures network { IsNetwork net.new }
    ensures units { excess_units net.new ≤ sum net.old.network.prices }
    ensures whole { total net.new.excesses ≡ total net.old.excesses }
    ensures changes { net.new.changes ≤ priced_count net.old.network }
{
    for bound in 0..net.bounds() {
        saturate_bound(net, bound);
    }
}

/// Saturates a bound on which nothing flows if its reduced cost is negative. That of a bound without a price is not, so its
/// arc is not even read.
fn saturate_bound(net: &mut Network, bound: u32)
    requires network { IsNetwork net.old }
    requires bound { bound < length net.old.network.bounds }
    requires empty { flow_on net.old bound ≡ pos 0 }
    requires obeys { get_or net.old.network.prices bound 1 ≡ 0 → pos 0 ≤ℤ reduced_cost net.old bound }
    ensures saturated { Saturates bound net.old net.new }
    ensures network { IsNetwork net.new }
{
    if !net.is_unpriced(bound) {
        saturate_if_negative(net, bound);
    }
}

/// Saturates the arcs of readings of negative reduced cost, after the bounds. There is at most one for each reading.
fn saturate_readings(net: &mut Network)
    requires network { IsNetwork net.old }
    requires saturated { IsSaturated (length net.old.network.bounds) net.old net.old }
    ensures saturated { IsSaturated (length (arcs_of net.old.network)) net.old net.new }
    ensures network { IsNetwork net.new }
    ensures units { excess_units net.new ≤ excess_units net.old + sum net.old.network.weights }
    ensures whole { total net.new.excesses ≡ total net.old.excesses }
    ensures changes { net.new.changes ≤ net.old.changes + length net.old.network.values }
{
    for reading in 0..net.nodes() - 1 {
        saturate_one_of_two(net, reading);
    }
}

/// Saturates that of the two arcs of a reading whose reduced cost is negative.
fn saturate_one_of_two(net: &mut Network, reading: u32)
    requires network { IsNetwork net.old }
    requires reading { reading < length net.old.network.values }
    requires saturated { IsSaturated (length net.old.network.bounds + 2 * reading) net.old net.old }
    ensures saturated { IsSaturated (length net.old.network.bounds + 2 * reading + 2) net.old net.new }
    ensures network { IsNetwork net.new }
    ensures changes { net.new.changes ≤ net.old.changes + 1 }
    ensures units { excess_units net.new ≤ excess_units net.old + get_or net.old.network.weights reading 0 }
    ensures whole { total net.new.excesses ≡ total net.old.excesses }
{
    let first = net.bounds() + 2 * reading;
    if is_negative(net, first) {
        saturate_if_negative(net, first);
    } else {
        saturate_if_negative(net, first + 1);
    }
}

/// Saturates an arc on which nothing flows if its reduced cost is negative.
fn saturate_if_negative(net: &mut Network, arc: u32)
    requires network { IsNetwork net.old }
    requires arc { arc < length (arcs_of net.old.network) }
    requires empty { flow_on net.old arc ≡ pos 0 }
    ensures saturated { Saturates arc net.old net.new }
    ensures network { IsNetwork net.new }
{
    if is_negative(net, arc) {
        let residual = net.residual(arc, false);
        if residual > 0 {
            net.push(arc, false, residual);
        }
    }
}

/// Whether the reduced cost of an arc is below 0.
fn is_negative(net: &Network, arc: u32) -> bool
    requires network { IsNetwork net.now }
    requires arc { arc < length (arcs_of net.now.network) }
    ensures { IsTrue result ↔ (reduced_cost net.now arc <ℤ pos 0) }
{
    reduced_cost(net, arc) < 0
}

/// The reduced cost of an arc.
pub(crate) fn reduced_cost(net: &Network, arc: u32) -> i128
    requires network { IsNetwork net.now }
    requires arc { arc < length (arcs_of net.now.network) }
    ensures { result ≡ reduced_cost net.now arc }
{
    let ends = net.arc(arc);
    plus(
        ends.cost,
        difference(net.potential(ends.tail), net.potential(ends.head)),
    )
}

/// The difference of two potentials.
fn difference(first: i64, second: i64) -> i128
    ensures difference { result ≡ first -ℤ second }
    ensures size { unsigned_abs result < 2 ^ 64 }
{
    i128::from(first) - i128::from(second)
}

/// A cost and a difference together.
fn plus(cost: i64, difference: i128) -> i128
    requires { unsigned_abs difference < 2 ^ 64 }
    ensures { result ≡ cost +ℤ difference }
{
    i128::from(cost) + difference
}
