//! The solver.
ghost use Rattle.std.specs.Prelude.{◌≡◌, ◌≤◌, ◌+◌, ◌*◌, ℕ, List, pos, length};
ghost use Rattle.words.specs.Lists.{total};
ghost use Rattle.bound_graph.specs.Cycle.{IsNegativeCycle};
ghost use Rattle.bound_graph.specs.Values.{RespectsArcs};
ghost use Rattle.flow_core.specs.Laws.{IsBalancedAtReadings};
ghost use Rattle.flow_core.specs.Layout.{nodes_of, priced_count};
ghost use Rattle.flow_core.specs.Solving.{IsSolved};
ghost use Rattle.flow_core.specs.State.{IsNetwork, IsNew, flow_on};
ghost use Rattle.flow_core.specs.Views.{bare_arcs};
ghost use Rattle.path_flow.specs.Flow.{excess_units, most_units};
ghost use Rattle.path_flow.specs.Steps.{HasNoNegatives};
ghost use Rattle.path_flow.specs.Searching.{AreFree};
ghost use Rattle.path_flow.specs.Solver.{last_of, nodes_in};

use crate::carry::carry;
use crate::chains::Chains;
use crate::discharge::discharge;
use crate::saturate::saturate;
use crate::search::Labels;
use crate::starts::first_potentials;
use crate::units::spare_units;
use flow_core::{Network, Solved, Solver};
use neg_cycle::{Room, Settled};
use std::alloc::{AllocError, Global};

/// A solver by successive shortest augmenting paths.
///
/// Of R readings with weights that add up to W, and Q bounds with prices that add up to P, it changes flow at most
/// R + Q + (W + P) * R times, whatever the values are. It takes about 210 bytes for each node when it is prepared.
#[derive(Drop)]
pub struct PathSolver {
    labels: Option<Labels>,
    chains: Option<Chains>,
    arcs: u32,
    last: u64,
}

impl PathSolver {
    /// A solver that is prepared for no network yet. Takes no memory.
    pub fn new(_alloc: Global) -> PathSolver
        ensures { last_of result ≡ 0 }
    {
        PathSolver {
            labels: None,
            chains: None,
            arcs: 0,
            last: 0,
        }
    }
}

impl Solver for PathSolver {
    ghost use Rattle.path_flow.specs.Solver.{arcs_prepared, last_of, most_changes, nodes_prepared};

    ghost last = { last_of };

    ghost most = { most_changes };

    ghost prepared_nodes = { nodes_prepared };

    ghost prepared_arcs = { arcs_prepared };

    fn prepare(&mut self, alloc: Global, nodes: u32, arcs: u32) -> Result<(), AllocError> {
        self.labels = Some(Labels::for_nodes(alloc, nodes)?);
        self.chains = Some(Chains::for_nodes(alloc, nodes)?);
        self.arcs = arcs;
        Ok(())
    }

    fn solve(&mut self, net: &mut Network, room: &mut Room) -> Solved {
        let solved = solve_with(net, room, &mut self.labels, &mut self.chains);
        self.last = net.changes();
        solved
    }
}

/// Solves a new network, or finds in the room a cycle of bounds without a price, with labels for the network's nodes.
fn solve_with(
    net: &mut Network,
    room: &mut Room,
    labels: &mut Option<Labels>,
    chains: &mut Option<Chains>,
) -> Solved
    requires new { IsNew net.old }
    requires room { length room.old.distances ≡ nodes_of net.old.network }
    requires labels { nodes_in labels.old ≡ nodes_of net.old.network }
    ensures best { result ≡ Solved.Best → IsSolved net.new }
    ensures blocked { result ≡ Solved.Blocked → IsNegativeCycle (bare_arcs net.new) room.new.cycle }
    ensures where_blocked { (numbers : List ℕ) → IsNegativeCycle (bare_arcs net.new) numbers → result ≡ Solved.Blocked }
    ensures network_stays { net.new.network ≡ net.old.network }
    ensures room_stays { length room.new.distances ≡ length room.old.distances }
    ensures changes { net.new.changes ≤ length net.old.network.values + priced_count net.old.network + most_units net.old.network * length net.old.network.values }
{
    match first_potentials(net, room, chains) {
        Settled::Cycle => Solved::Blocked,
        Settled::Greatest => {
            balance(net, labels);
            Solved::Best
        }
    }
}

/// Saturates arcs, and moves the excess that this leaves to where there is a deficit: over tight arcs as far as they lead, and
/// then along shortest paths.
fn balance(net: &mut Network, labels: &mut Option<Labels>)
    requires network { IsNetwork net.old }
    requires empty { (arc : ℕ) → flow_on net.old arc ≡ pos 0 }
    requires obeys { RespectsArcs net.old.potentials (bare_arcs net.old) }
    requires unchanged { net.old.changes ≡ 0 }
    requires balanced { excess_units net.old ≡ 0 }
    requires whole { total net.old.excesses ≡ pos 0 }
    requires labels { nodes_in labels.old ≡ nodes_of net.old.network }
    ensures network_stays { net.new.network ≡ net.old.network }
    ensures network { IsNetwork net.new }
    ensures optimal { HasNoNegatives net.new }
    ensures free { AreFree net.new }
    ensures balanced { IsBalancedAtReadings net.new }
    ensures changes { net.new.changes ≤ length net.old.network.values + priced_count net.old.network + most_units net.old.network * length net.old.network.values }
{
    saturate(net);
    let budget = carry(net);
    if let Some(labels) = labels {
        labels.forget();
        let spare = spare_units(net, budget);
        discharge(net, labels, spare);
    }
}
