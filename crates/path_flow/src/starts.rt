//! The first potentials: near the values of the readings, and obeying all bounds without a price.
ghost use Rattle.std.specs.Prelude.{◌≡◌, ◌≤◌, ◌<◌, ◌/◌, ◌-ℤ◌, length, unsigned_abs};
ghost use Rattle.bound_graph.specs.Values.{RespectsArcs};
ghost use Rattle.bound_graph.specs.Cycle.{IsNegativeCycle};
ghost use Rattle.flow_core.specs.Layout.{nodes_of};
ghost use Rattle.flow_core.specs.State.{IsNetwork};
ghost use Rattle.flow_core.specs.Views.{bare_arcs};
ghost use Rattle.flow_core.specs.declared.limits.TheConstants.{MOST_VALUE};
ghost use Rattle.path_flow.specs.Steps.{ChangesPotentials};

use crate::chains::{Chains, place_chains};
use flow_core::{MOST_VALUE, Network};
use neg_cycle::{Room, Settled, Transposed, settle};

/// Sets first potentials, or finds in the room a cycle of bounds without a price.
///
/// The closer the starts by chains are to a series that obeys, the less is left to be settled; whatever they are, they can be
/// settled.
pub(crate) fn first_potentials(
    net: &mut Network,
    room: &mut Room,
    chains: &mut Option<Chains>,
) -> Settled
    requires room { length room.old.distances ≡ nodes_of net.old.network }
    ensures stays { ChangesPotentials net.old net.new }
    ensures network { result ≡ Settled.Greatest → IsNetwork net.new }
    ensures obeys { result ≡ Settled.Greatest → RespectsArcs net.new.potentials (bare_arcs net.new) }
    ensures cycle { result ≡ Settled.Cycle → IsNegativeCycle (bare_arcs net.new) room.new.cycle }
    ensures size { length room.new.distances ≡ length room.old.distances }
{
    if let Some(chains) = chains {
        place_chains(net, chains);
    }
    if settle_from_potentials(net, room) == Settled::Cycle {
        return Settled::Cycle;
    }
    if room.distance(0) < 0 {
        raise_to_least(net, room);
        if settle_from_potentials(net, room) == Settled::Cycle {
            return Settled::Cycle;
        }
    }
    take_distances(net, room);
    Settled::Greatest
}

/// Lets the potential of a reading be at least this.
fn raise_to(net: &mut Network, node: u32, least: i128)
    requires node { node < nodes_of net.old.network }
    requires reading { 0 < node }
    ensures { ChangesPotentials net.old net.new }
{
    if i128::from(net.potential(node)) < least {
        net.set_potential(node, within_values(least));
    }
}

/// The number, or the nearest one that a potential may be.
pub(crate) fn within_values(number: i128) -> i64
    ensures size { unsigned_abs result ≤ MOST_VALUE }
    ensures same { unsigned_abs number ≤ MOST_VALUE → result ≡ number }
{
    const MOST: i64 = MOST_VALUE as i64;
    if number > i128::from(MOST) {
        MOST
    } else if number < i128::from(0 - MOST) {
        0 - MOST
    } else {
        number as i64
    }
}

/// Settles the bounds without a price from the potentials.
fn settle_from_potentials(net: &Network, room: &mut Room) -> Settled
    requires room { length room.old.distances ≡ nodes_of net.now.network }
    ensures obeys { result ≡ Settled.Greatest → RespectsArcs room.new.distances (bare_arcs net.now) }
    ensures cycle { result ≡ Settled.Cycle → IsNegativeCycle (bare_arcs net.now) room.new.cycle }
    ensures size { length room.new.distances ≡ length room.old.distances }
{
    start_all(net, room);
    settle(&net.bound_arcs(), room)
}

/// Lets the distances start at the potentials.
fn start_all(net: &Network, room: &mut Room)
    requires room { length room.old.distances ≡ nodes_of net.now.network }
    ensures starts { room.new.distances ≡ net.now.potentials }
    ensures network { IsNetwork net.now }
{
    for node in 0..net.nodes() {
        room.start(node, net.potential(node));
    }
}

/// Raises each potential to at least the least value that its reading may have.
///
/// From potentials below it, node 0 would be lowered, and with it every reading would be off its value.
fn raise_to_least(net: &mut Network, room: &mut Room)
    requires room { length room.old.distances ≡ nodes_of net.old.network }
    ensures stays { ChangesPotentials net.old net.new }
    ensures size { length room.new.distances ≡ length room.old.distances }
{
    room.start_all(MOST_VALUE as i64);
    room.start(0, 0);
    let _settled = settle(
        &Transposed {
            arcs: &net.bound_arcs(),
        },
        room,
    );
    for node in 1..net.nodes() {
        let least = 0 - within_values(room.distance(node));
        raise_to(net, node, i128::from(least));
    }
}

/// Lets the potentials be the distances, each less that of node 0.
fn take_distances(net: &mut Network, room: &Room)
    requires room { length room.now.distances ≡ nodes_of net.old.network }
    requires obeys { RespectsArcs room.now.distances (bare_arcs net.old) }
    ensures stays { ChangesPotentials net.old net.new }
    ensures network { IsNetwork net.new }
    ensures obeys { RespectsArcs net.new.potentials (bare_arcs net.new) }
{
    for node in 1..net.nodes() {
        net.set_potential(node, less(room.distance(node), room.distance(0)));
    }
}

/// The difference of two numbers, which is within the greatest size of values.
fn less(number: i128, other: i128) -> i64
    requires { unsigned_abs (number -ℤ other) ≤ MOST_VALUE }
    ensures less { result ≡ number -ℤ other }
    ensures size { unsigned_abs result ≤ MOST_VALUE }
{
    (number - other) as i64
}
