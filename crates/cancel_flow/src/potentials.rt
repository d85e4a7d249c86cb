//! Distances as potentials.
ghost use Rattle.std.specs.Prelude.{◌≡◌, ◌≤◌, ◌-ℤ◌, length, unsigned_abs};
ghost use Rattle.bound_graph.specs.Values.{RespectsArcs};
ghost use Rattle.flow_core.specs.Layout.{nodes_of};
ghost use Rattle.flow_core.specs.State.{IsNetwork};
ghost use Rattle.flow_core.specs.Views.{tight_arcs};
ghost use Rattle.flow_core.specs.declared.limits.TheConstants.{MOST_VALUE};
ghost use Rattle.cancel_flow.specs.Cycles.{ChangesPotentials};

use flow_core::{MOST_VALUE, Network};
use neg_cycle::Room;

/// Lets the potentials be the distances, each less that of node 0.
pub(crate) fn take_distances(net: &mut Network, room: &Room)
    requires room { length room.now.distances ≡ nodes_of net.old.network }
    requires respects { RespectsArcs room.now.distances (tight_arcs net.old) }
    ensures stays { ChangesPotentials net.old net.new }
    ensures network { IsNetwork net.new }
    ensures respects { RespectsArcs net.new.potentials (tight_arcs net.new) }
{
    for node in 1..net.nodes() {
        net.set_potential(node, less(room.distance(node), room.distance(0)));
    }
}

/// The difference of two numbers, which is within the greatest size of values.
fn less(number: i128, other: i128) -> i64
    requires { unsigned_abs (number -ℤ other) ≤ MOST_VALUE }
    ensures less { result ≡ number -ℤ other }
    ensures size { unsigned_abs result ≤ MOST_VALUE }
{
    (number - other) as i64
}
