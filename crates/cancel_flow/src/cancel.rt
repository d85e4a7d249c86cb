//! Negative cycles of residual arcs, cancelled.
ghost use Rattle.std.specs.Prelude.{◌≡◌, ◌≤◌, ◌<◌, ℕ, true, false, pos, ◌≤ℤ◌, ◌<ℤ◌, length};
ghost use Rattle.bound_graph.specs.Values.{value_of, RespectsArcs};
ghost use Rattle.bound_graph.specs.Cycle.{IsNegativeCycle};
ghost use Rattle.flow_core.specs.Layout.{nodes_of};
ghost use Rattle.flow_core.specs.State.{IsNetwork, value};
ghost use Rattle.flow_core.specs.Views.{residual_arcs};
ghost use Rattle.cancel_flow.specs.Cycles.{HaveRoom, IsBalanced};

use bound_graph::ArcList;
use flow_core::Network;
use neg_cycle::{Room, Settled, settle};

/// Settles arcs, with all distances 0 at first.
pub(crate) fn settle_from_zero<A: ArcList>(arcs: &A, room: &mut Room) -> Settled
    requires { length room.old.distances ≡ A.node_count arcs.now }
    ensures respects { result ≡ Settled.Greatest → RespectsArcs room.new.distances (A.listed arcs.now) }
    ensures cycle { result ≡ Settled.Cycle → IsNegativeCycle (A.listed arcs.now) room.new.cycle }
    ensures size { length room.new.distances ≡ length room.old.distances }
{
    room.start_all(0);
    settle(arcs, room)
}

/// Pushes flow around cycles of residual arcs with a negative sum until there is none.
///
/// Each cycle raises the value of the network, which is at most what all capacities can carry.
pub(crate) fn cancel_all(net: &mut Network, room: &mut Room)
    requires network { IsNetwork net.old }
    requires balanced { IsBalanced net.old }
    requires room { length room.old.distances ≡ nodes_of net.old.network }
    ensures network_stays { net.new.network ≡ net.old.network }
    ensures network { IsNetwork net.new }
    ensures balanced { IsBalanced net.new }
    ensures respects { RespectsArcs room.new.distances (residual_arcs net.new) }
    ensures size { length room.new.distances ≡ length room.old.distances }
{
    'cycles: while has_cycle(net, room) {
        push_around(net, room);
    }
}

/// Whether residual arcs have a cycle of a negative sum, which the room then holds.
fn has_cycle(net: &Network, room: &mut Room) -> bool
    requires { length room.old.distances ≡ nodes_of net.now.network }
    ensures cycle { result ≡ true → IsNegativeCycle (residual_arcs net.now) room.new.cycle }
    ensures respects { result ≡ false → RespectsArcs room.new.distances (residual_arcs net.now) }
    ensures size { length room.new.distances ≡ length room.old.distances }
{
    match settle_from_zero(&net.residual_arcs(), room) {
        Settled::Cycle => true,
        Settled::Greatest => false,
    }
}

/// Pushes the least residual along each arc of the cycle.
fn push_around(net: &mut Network, room: &Room)
    requires network { IsNetwork net.old }
    requires cycle { IsNegativeCycle (residual_arcs net.old) room.now.cycle }
    ensures network_stays { net.new.network ≡ net.old.network }
    ensures network { IsNetwork net.new }
    ensures excesses { (node : ℕ) → value_of net.new.excesses node ≡ value_of net.old.excesses node }
    ensures value { value net.old <ℤ value net.new }
{
    let amount = least_residual(net, room);
    for i in 0..room.cycle_len() {
        if let Some(number) = room.cycle_arc(i) {
            net.push(number / 2, number % 2 == 1, amount);
        }
    }
}

/// The least that each arc of the cycle has room for.
fn least_residual(net: &Network, room: &Room) -> i64
    requires { HaveRoom net.now (pos 1) room.now.cycle }
    ensures some { pos 1 ≤ℤ result }
    ensures room { HaveRoom net.now result room.now.cycle }
{
    let mut least = i64::MAX;
    for i in 0..room.cycle_len() {
        if let Some(number) = room.cycle_arc(i) {
            least = least.min(net.residual(number / 2, number % 2 == 1));
        }
    }
    least
}
