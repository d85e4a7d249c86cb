//! Chains of readings as graphs, the same in every run.
ghost use Rattle.std.specs.Prelude.{◌≡◌, ◌*◌, ◌^◌, ◌≤◌, length, OnOk, IfOk, All, unsigned_abs};
ghost use Rattle.std.specs.List.{AllByRecursion};
ghost use Rattle.bound_graph.specs.Arcs.{IsArc};

use crate::texts::next_hundredths;
use bound_graph::{Arc, ArcTable};
use neg_cycle::Room;
use std::alloc::{AllocError, Global};

/// Arcs from each node to the next two and back, whose costs have no negative sum round any cycle; but where
/// the chain is to be blocked, its last two nodes have a cycle of the sum -1.
pub fn chain(alloc: Global, nodes: u32, blocked: bool) -> Result<ArcTable, AllocError>
    ensures { IfOk result (AllByRecursion (IsArc nodes)) }
{
    let mut arcs = ArcTable::new(alloc);
    let mut state = 1;
    for node in 0..nodes {
        for step in 1..3 {
            let (next, number) = next_hundredths(state);
            state = next;
            let other = node.saturating_add(step);
            push_arc(&mut arcs, nodes, node, other, (number % 500) as i64)?;
            push_arc(&mut arcs, nodes, other, node, (number / 500) as i64)?;
        }
    }
    if blocked && nodes > 1 {
        push_arc(&mut arcs, nodes, nodes - 2, nodes - 1, -1)?;
        push_arc(&mut arcs, nodes, nodes - 1, nodes - 2, 0)?;
    }
    Ok(arcs)
}

/// Adds an arc, if both ends are among the nodes and its cost is not too great.
fn push_arc(
    arcs: &mut ArcTable,
    nodes: u32,
    tail: u32,
    head: u32,
    cost: i64,
) -> Result<(), AllocError>
    requires { AllByRecursion (IsArc nodes) arcs.old }
    ensures { OnOk result (AllByRecursion (IsArc nodes) arcs.new) }
{
    if tail < nodes && head < nodes && cost.unsigned_abs() <= 4_000_000_000_000_000 {
        arcs.push(Arc { tail, head, cost })?;
    }
    Ok(())
}

/// Starts every node at a number of its own.
pub fn start_all(room: &mut Room, nodes: u32)
    requires nodes { length room.old.distances ≡ nodes }
    requires small { All (λ start. unsigned_abs start ≤ 4 * 10 ^ 15) room.old.distances }
    ensures nodes { length room.new.distances ≡ nodes }
    ensures small { All (λ start. unsigned_abs start ≤ 4 * 10 ^ 15) room.new.distances }
{
    let mut state = 1;
    for node in 0..nodes {
        let (next, number) = next_hundredths(state);
        state = next;
        room.start(node, (number % 100_000) as i64);
    }
}
