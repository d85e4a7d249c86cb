//! The solver.
ghost use Rattle.std.specs.Prelude.{◌≡◌};
ghost use Rattle.cancel_flow.specs.Solver.{last_of};

use crate::cancel::{cancel_all, settle_from_zero};
use crate::potentials::take_distances;
use flow_core::{Network, Solved, Solver};
use neg_cycle::{Room, Settled};
use std::alloc::{AllocError, Global};

/// A solver by negative cycles of residual arcs, which it cancels one after the other.
///
/// It takes no memory. How often it changes flow depends on the values, so it does not tell the most.
#[derive(Drop)]
pub struct CancelSolver {
    nodes: u32,
    arcs: u32,
    last: u64,
}

impl CancelSolver {
    /// A solver that is prepared for no network yet.
    pub fn new(_alloc: Global) -> CancelSolver
        ensures { last_of result ≡ 0 }
    {
        CancelSolver {
            nodes: 0,
            arcs: 0,
            last: 0,
        }
    }
}

impl Solver for CancelSolver {
    ghost use Rattle.cancel_flow.specs.Solver.{arcs_prepared, last_of, most_changes, nodes_prepared};

    ghost last = { last_of };

    ghost most = { most_changes };

    ghost prepared_nodes = { nodes_prepared };

    ghost prepared_arcs = { arcs_prepared };

    fn prepare(&mut self, _alloc: Global, nodes: u32, arcs: u32) -> Result<(), AllocError> {
        self.nodes = nodes;
        self.arcs = arcs;
        Ok(())
    }

    fn solve(&mut self, net: &mut Network, room: &mut Room) -> Solved {
        prove_eq!(self.nodes, net.nodes());
        let solved = match settle_from_zero(&net.bound_arcs(), room) {
            Settled::Cycle => Solved::Blocked,
            Settled::Greatest => {
                cancel_all(net, room);
                take_distances(net, room);
                Solved::Best
            }
        };
        self.last = net.changes();
        solved
    }
}
