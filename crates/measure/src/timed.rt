//! A solver that tells when it was called.

use flow_core::{Network, Solved, Solver};
use neg_cycle::Room;
use path_flow::PathSolver;
use std::alloc::{AllocError, Global};
use std::io;
use std::rt::Runtime;
use std::time::Instant;

/// The solver of `path_flow`, with the nanoseconds from a moment to where it begins to solve and to where it ends.
#[derive(Drop)]
pub struct Timed<'a, R> {
    pub rt: &'a R,
    pub solver: PathSolver,
    pub moment: Instant,
    pub began: u128,
    pub ended: u128,
}

impl<'a, R: Runtime> Solver for Timed<'a, R> {
    ghost use Rattle.path_flow.specs.Solver.{arcs_prepared, last_of, most_changes, nodes_prepared};

    ghost last = { λ timed. last_of timed.solver };

    ghost most = { λ timed. most_changes timed.solver };

    ghost prepared_nodes = { λ timed. nodes_prepared timed.solver };

    ghost prepared_arcs = { λ timed. arcs_prepared timed.solver };

    fn prepare(&mut self, alloc: Global, nodes: u32, arcs: u32) -> Result<(), AllocError> {
        self.solver.prepare(alloc, nodes, arcs)
    }

    fn solve(&mut self, net: &mut Network, room: &mut Room) -> Solved {
        self.began = nanos_since(self.rt, self.moment);
        let solved = self.solver.solve(net, room);
        self.ended = nanos_since(self.rt, self.moment);
        solved
    }
}

/// The nanoseconds since a moment, and 0 where there is no clock.
fn nanos_since<R: Runtime>(rt: &R, moment: Instant) -> u128 {
    match moment.elapsed(rt) {
        Ok(time) => time.as_nanos(),
        Err(_) => 0,
    }
}
