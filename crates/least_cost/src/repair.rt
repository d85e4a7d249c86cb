//! The repair of a problem, by a solver that is lent.
ghost use Rattle.std.specs.Prelude.{◌≡◌, ℕ, [], length, Option, IfOk};
ghost use Rattle.bound_graph.specs.Cycle.{IsNegativeCycle};
ghost use Rattle.flow_core.specs.Laws.{IsNetworkOf};
ghost use Rattle.flow_core.specs.Layout.{nodes_of};
ghost use Rattle.flow_core.specs.Solving.{IsSolved, AreAtMost};
ghost use Rattle.flow_core.specs.Views.{bare_arcs};
ghost use Rattle.least_cost.specs.Answer.{Answers, CountsChanges};
ghost use Rattle.least_cost.specs.Problems.{IsSolvable, stated};

use crate::answer::AnswerLists;
use crate::cycle::cycle_in;
use crate::flow::flow_in;
use crate::outcome::Outcome;
use crate::problem::Problem;
use crate::series::{change, series_in, settle_tight};
use flow_core::{Network, Solved, Solver};
use neg_cycle::Room;
use std::alloc::{AllocError, Global};

/// The repair of a problem, or a cycle of bounds that shows that no series obeys.
///
/// All memory is taken before the solver begins. The lists of the answer take 28 bytes for each node and 32 for each bound,
/// beside what the network, the room and the solver take. The error is that memory ran out.
pub fn least_cost<V: Solver>(
    alloc: Global,
    problem: &Problem<'_>,
    solver: &mut V,
) -> Result<Outcome, AllocError>
    requires { IsSolvable problem.now }
    ensures answer { IfOk result (Answers (stated problem.now)) }
    ensures changes { IfOk result (CountsChanges (stated problem.now) (V.most solver.new) (V.last solver.new)) }
    ensures most_stays { V.most solver.new ≡ V.most solver.old }
{
    let mut net = Network::new(
        alloc,
        problem.values,
        problem.weights,
        problem.prices,
        problem.bounds,
        problem.places,
    )?;
    let mut room = Room::for_nodes(alloc, net.nodes())?;
    let lists = AnswerLists::with_room(alloc, net.nodes(), net.bounds())?;
    solver.prepare(alloc, net.nodes(), net.arcs())?;
    match solver.solve(&mut net, &mut room) {
        Solved::Best => repaired(lists, problem, &net, &mut room),
        Solved::Blocked => no_series(lists, problem, &net, &room),
    }
}

/// The repair, of a network that is solved.
fn repaired(
    lists: AnswerLists,
    problem: &Problem<'_>,
    net: &Network,
    room: &mut Room,
) -> Result<Outcome, AllocError>
    requires series { lists.series ≡ [] }
    requires flow { lists.flow ≡ [] }
    requires solvable { IsSolvable problem.now }
    requires network { IsNetworkOf (stated problem.now) net.now }
    requires solved { IsSolved net.now }
    requires nodes { length room.old.distances ≡ nodes_of net.now.network }
    ensures answer { IfOk result (Answers (stated problem.now)) }
    ensures changes { (most : ℕ → ℕ → ℕ → ℕ → Option ℕ) → AreAtMost most net.now → IfOk result (CountsChanges (stated problem.now) most net.now.changes) }
{
    settle_tight(net, room);
    let series = series_in(lists.series, net.nodes(), room)?;
    let flow = flow_in(lists.flow, problem.bounds, problem.prices, net)?;
    let total = net.value();
    let paid = total
        - change(
            problem.values.as_slice(),
            problem.weights,
            series.as_slice(),
        );
    let changes = net.changes();
    Ok(Outcome::Repaired {
        series,
        flow,
        total,
        paid,
        changes,
    })
}

/// The names of the cycle that the solver found.
fn no_series(
    lists: AnswerLists,
    problem: &Problem<'_>,
    net: &Network,
    room: &Room,
) -> Result<Outcome, AllocError>
    requires empty { lists.cycle ≡ [] }
    requires solvable { IsSolvable problem.now }
    requires network { IsNetworkOf (stated problem.now) net.now }
    requires cycle { IsNegativeCycle (bare_arcs net.now) room.now.cycle }
    ensures answer { IfOk result (Answers (stated problem.now)) }
    ensures changes { (most : ℕ → ℕ → ℕ → ℕ → Option ℕ) (last : ℕ) → IfOk result (CountsChanges (stated problem.now) most last) }
{
    let cycle = cycle_in(lists.cycle, problem.bounds, room)?;
    Ok(Outcome::NoSeries { cycle })
}
