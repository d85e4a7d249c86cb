//! Graphs of many nodes, and how often their arcs are looked at.
ghost use Rattle.std.specs.Prelude.{◌≡◌, length, IfOk};

use super::Table;
use bound_graph::{Arc, ArcList};
use neg_cycle::{Room, Settled, settle};
use std::alloc::{AllocError, Global};
use std::cell::Cell;
use std::process::Abort;
use std::test::Fail;

const NODES: u32 = 100_000;

const FAR: i64 = 1_000_000_000;

/// A table that counts how often an arc is looked at.
#[derive(Drop)]
struct Counted<'a> {
    table: &'a Table,
    looked: Cell<u64>,
}

impl<'a> ArcList for Counted<'a> {
    ghost node_count = { λ c. c.table.now.nodes };

    ghost listed = { λ c. c.table.now.arcs.items };

    fn nodes(&self) -> u32 {
        self.table.nodes()
    }

    fn arcs(&self) -> u32 {
        self.table.arcs()
    }

    fn arc(&self, i: u32) -> Option<Arc> {
        self.looked.set(self.looked.get().wrapping_add(1));
        self.table.arc(i)
    }
}

/// An arc of the cost `up` from each node to the next, and one of the cost `down` back.
fn chain(alloc: Global, up: i32, down: i32) -> Result<Vec<(u32, u32, i32)>, AllocError> {
    let mut rows = Vec::new(alloc);
    for node in 1..NODES {
        rows.push((node - 1, node, up))?;
        rows.push((node, node - 1, down))?;
    }
    Ok(rows)
}

/// Settles a graph of these arcs in which one node starts at 0 and all others far away, in at most three sweeps.
fn settled_from(
    rt: &impl Abort,
    alloc: Global,
    nodes: u32,
    rows: &[(u32, u32, i32)],
    near: u32,
) -> Result<(Settled, Room), AllocError>
    ensures { IfOk result (λ settled. length settled.1.distances ≡ nodes) }
{
    assert!(rt; rows.len() < 1_000_000 && near < nodes);
    let table = Table::of(alloc, nodes, rows)?;
    let mut room = Room::for_nodes(alloc, nodes)?;
    room.start_all(FAR);
    room.start(near, 0);
    let counted = Counted {
        table: &table,
        looked: Cell::new(0),
    };
    let outcome = settle(&counted, &mut room);
    let looked = counted.looked.get();
    assert!(rt;
        looked <= 3 * rows.len() as u64,
        "{looked} looks at {} arcs",
        rows.len()
    );
    Ok((outcome, room))
}

/// The distance of each node of a chain of the costs is its number of steps from the node at 0.
fn settles_by_steps(
    rt: &impl Abort,
    alloc: Global,
    up: i32,
    down: i32,
    near: u32,
) -> Result<(), AllocError> {
    let rows = chain(alloc, up, down)?;
    let (outcome, room) = settled_from(rt, alloc, NODES, rows.as_slice(), near)?;
    assert_eq!(rt; outcome, Settled::Greatest);
    for node in 0..NODES {
        let steps = i128::from(node.abs_diff(near));
        let cost = if node < near { down } else { up };
        assert_eq!(rt; room.distance(node), steps * i128::from(cost));
    }
    Ok(())
}

#[test]
fn a_chain_settles_in_a_few_sweeps_whichever_way_it_pulls(rt: HostRuntime) -> Result<(), Fail> {
    settles_by_steps(&rt, rt.alloc(), 1, 1_000, 0)?;
    settles_by_steps(&rt, rt.alloc(), 1_000, 1, NODES - 1)?;
    settles_by_steps(&rt, rt.alloc(), 3, 5, NODES / 2)?;
    // Round each pair of arcs the sum is 0.
    settles_by_steps(&rt, rt.alloc(), 7, -7, 0)?;
    Ok(())
}

#[test]
fn a_cycle_at_the_far_end_is_found_early(rt: HostRuntime) -> Result<(), Fail> {
    let mut rows = chain(rt.alloc(), 1, 1)?;
    rows.push((NODES - 2, NODES - 1, -3))?;
    rows.push((NODES - 1, NODES - 2, 2))?;
    let (outcome, room) = settled_from(&rt, rt.alloc(), NODES, rows.as_slice(), 0)?;
    assert_eq!(rt; outcome, Settled::Cycle);
    assert_eq!(rt; room.cycle_len(), 2);
    Ok(())
}

#[test]
fn a_cycle_through_all_nodes_is_found(rt: HostRuntime) -> Result<(), Fail> {
    let nodes = 20_000;
    let mut rows = Vec::new(rt.alloc());
    for node in 0..nodes {
        rows.push((node, (node + 1) % nodes, if node == 9 { -1 } else { 0 }))?;
    }
    let (outcome, room) = settled_from(&rt, rt.alloc(), nodes, rows.as_slice(), 0)?;
    assert_eq!(rt; outcome, Settled::Cycle);
    assert_eq!(rt; room.cycle_len(), nodes);
    Ok(())
}
