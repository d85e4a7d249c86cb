//! What a solver of a flow network promises.
ghost use Rattle.std.specs.Prelude.{◌≡◌, ℕ, List, Option, length, OnOk};
ghost use Rattle.bound_graph.specs.Cycle.{IsNegativeCycle};
ghost use Rattle.flow_core.specs.Layout.{nodes_of, arcs_of};
ghost use Rattle.flow_core.specs.State.{IsNew};
ghost use Rattle.flow_core.specs.Views.{bare_arcs};
ghost use Rattle.flow_core.specs.Solving.{IsSolved, AreAtMost};

use crate::network::Network;
use neg_cycle::Room;
use std::alloc::{AllocError, Global};

/// What `solve` came to.
#[derive(Clone, Copy, Debug, PartialEq, Eq)]
#[must_use]
pub enum Solved {
    /// The network is solved: its potentials are a series that costs least.
    Best,
    /// The bounds without a price have a cycle of a negative sum, so no series obeys them.
    Blocked,
}

/// A way to find a flow that is best, and potentials that show it.
///
/// A solver takes its memory in `prepare`; `solve` takes none.
pub trait Solver {
    /// The changes of flow in the network that was solved last, 0 in a new solver.
    ghost last: { Self → ℕ };

    /// How many changes of flow there are at most, where it is told, by the number of readings, the sum of their weights,
    /// the number of bounds with a price, and the sum of the prices.
    ghost most: { Self → ℕ → ℕ → ℕ → ℕ → Option ℕ };

    /// For how many nodes it is prepared.
    ghost prepared_nodes: { Self → ℕ };

    /// For how many arcs it is prepared.
    ghost prepared_arcs: { Self → ℕ };

    /// Takes the memory to solve a network of so many nodes and arcs. The error is that memory ran out.
    fn prepare(&mut self, alloc: Global, nodes: u32, arcs: u32) -> Result<(), AllocError>
        ensures for_nodes { OnOk result (prepared_nodes self.new ≡ nodes) }
        ensures for_arcs { OnOk result (prepared_arcs self.new ≡ arcs) }
        ensures last_stays { last self.new ≡ last self.old }
        ensures most_stays { most self.new ≡ most self.old };

    /// Solves a new network, or finds in the room a cycle of bounds without a price. The arcs of the cycle have the
    /// numbers that `Network::bound_arcs` gives them. Takes no memory.
    fn solve(&mut self, net: &mut Network, room: &mut Room) -> Solved
        requires new { IsNew net.old }
        requires for_nodes { prepared_nodes self.old ≡ nodes_of net.old.network }
        requires for_arcs { prepared_arcs self.old ≡ length (arcs_of net.old.network) }
        requires room { length room.old.distances ≡ nodes_of net.old.network }

        ensures best { result ≡ Solved.Best → IsSolved net.new }
        ensures blocked { result ≡ Solved.Blocked → IsNegativeCycle (bare_arcs net.new) room.new.cycle }
        ensures where_blocked { (numbers : List ℕ) → IsNegativeCycle (bare_arcs net.new) numbers → result ≡ Solved.Blocked }

        // Nothing but flows, excesses, potentials and changes is another one.
        ensures network_stays { net.new.network ≡ net.old.network }
        ensures room_stays { length room.new.distances ≡ length room.old.distances }

        ensures last { last self.new ≡ net.new.changes }
        ensures most { AreAtMost (most self.new) net.new }
        ensures most_stays { most self.new ≡ most self.old };
}
