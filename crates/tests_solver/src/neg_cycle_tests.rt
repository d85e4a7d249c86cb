//! Small graphs with known distances and cycles, and both kinds of graphs.
ghost use Rattle.std.specs.Prelude.{◌≡◌, ◌<◌, ◌^◌, length, All, IfOk, IfSome};
ghost use Rattle.std.proofs.Props.{props};
ghost use Rattle.bound_graph.specs.Arcs.{IsArc};

mod large;

use bound_graph::{Arc, ArcList, ArcTable, Graph};
use neg_cycle::{
    Room, Settled, Transposed, greatest_is_one, least_by_transposing, least_is_one, settle,
    transposed_is_negated,
};
use screen_model::{Bound, BoundList, BoundName, End, Place, Places, Side};
use std::alloc::{AllocError, Global};
use std::test::Fail;

/// Arcs between nodes, of which some may not be there.
#[derive(Drop)]
struct Table {
    nodes: u32,
    arcs: Vec<Option<Arc>>,
    ghost few: { length arcs.items < 2 ^ 32 },
    ghost valid: { All (λ arc. IfSome arc (IsArc nodes)) arcs.items } by { Prim.hlevel props },
}

impl Table {
    /// The arcs with these tails, heads and costs. Where an end is no node, the arc is not there.
    fn of(alloc: Global, nodes: u32, rows: &[(u32, u32, i32)]) -> Result<Table, AllocError>
        requires { length rows.now < 2 ^ 32 }
        ensures { IfOk result (λ table. table.nodes ≡ nodes) }
    {
        let mut arcs = Vec::new(alloc);
        for row in rows {
            arcs.push(arc_between(nodes, *row))?;
        }
        Ok(Table { nodes, arcs })
    }
}

fn arc_between(nodes: u32, row: (u32, u32, i32)) -> Option<Arc>
    ensures { IfSome result (IsArc nodes) }
{
    let (tail, head, cost) = row;
    let is_there = tail < nodes && head < nodes;
    is_there.then_some(Arc {
        tail,
        head,
        cost: i64::from(cost),
    })
}

impl ArcList for Table {
    ghost node_count = { λ table. table.nodes };

    ghost listed = { λ table. table.arcs.items };

    fn nodes(&self) -> u32 {
        self.nodes
    }

    fn arcs(&self) -> u32 {
        self.arcs.len() as u32
    }

    fn arc(&self, i: u32) -> Option<Arc> {
        self.arcs.get(i as usize).copied().flatten()
    }
}

/// What settling from these starts comes to, with the distances and the numbers of a cycle's arcs.
fn settled<A: ArcList>(
    alloc: Global,
    arcs: &A,
    starts: &[i32],
) -> Result<(Settled, Vec<i128>, Vec<u32>), AllocError>
    requires { length starts.now ≡ A.node_count arcs.now }
{
    let nodes = arcs.nodes();
    let mut room = Room::for_nodes(alloc, nodes)?;
    for (node, start) in starts.iter().enumerate() {
        room.start(node as u32, i64::from(*start));
    }
    let settled = settle(arcs, &mut room);
    let mut distances = Vec::new(alloc);
    for node in 0..nodes {
        distances.push(room.distance(node))?;
    }
    let mut cycle = Vec::new(alloc);
    for i in 0..room.cycle_len() {
        cycle.extend(room.cycle_arc(i))?;
    }
    Ok((settled, distances, cycle))
}

#[test]
fn the_greatest_distances_are_found(rt: HostRuntime) -> Result<(), Fail> {
    // A textbook's example of this method, with the distances that it gives.
    let table = Table::of(
        rt.alloc(),
        5,
        &[
            (0, 1, 6),
            (0, 3, 7),
            (1, 2, 5),
            (1, 3, 8),
            (1, 4, -4),
            (2, 1, -2),
            (3, 2, -3),
            (3, 4, 9),
            (4, 2, 7),
            (4, 0, 2),
        ],
    )?;
    let (outcome, distances, cycle) = settled(rt.alloc(), &table, &[0, 99, 99, 99, 99])?;
    assert_eq!(rt; outcome, Settled::Greatest);
    assert_eq!(rt; distances.as_slice(), [0, 2, 4, 7, -2].as_slice());
    assert_eq!(rt; cycle.len(), 0);
    Ok(())
}

#[test]
fn a_cycle_with_a_negative_sum_is_found(rt: HostRuntime) -> Result<(), Fail> {
    let table = Table::of(rt.alloc(), 2, &[(0, 1, 1), (1, 0, -2)])?;
    let (outcome, _, cycle) = settled(rt.alloc(), &table, &[0, 0])?;
    assert_eq!(rt; outcome, Settled::Cycle);
    assert_eq!(rt;
        (cycle.len(), cycle.contains(&0), cycle.contains(&1)),
        (2, true, true)
    );
    Ok(())
}

#[test]
fn a_cycle_with_the_sum_0_and_an_arc_that_is_not_there_are_obeyed(
    rt: HostRuntime,
) -> Result<(), Fail> {
    let table = Table::of(rt.alloc(), 2, &[(0, 1, 1), (1, 2, -9), (1, 0, -1)])?;
    let (outcome, distances, cycle) = settled(rt.alloc(), &table, &[0, 10])?;
    assert_eq!(rt; outcome, Settled::Greatest);
    assert_eq!(rt; distances.as_slice(), [0, 1].as_slice());
    assert_eq!(rt; cycle.len(), 0);
    let table = Table::of(rt.alloc(), 2, &[(0, 1, 1), (1, 0, -1)])?;
    let (outcome, distances, _) = settled(rt.alloc(), &table, &[0, 10])?;
    assert_eq!(rt; outcome, Settled::Greatest);
    assert_eq!(rt; distances.as_slice(), [0, 1].as_slice());
    Ok(())
}

/// A reading that is at least 3 and at most 5.
fn range(rt: &impl AllocGlobal) -> Result<Graph, AllocError>
    ensures { IfOk result (λ graph. graph.nodes ≡ 2) }
{
    let place = Place { row: 1, col: 2 };
    let name = BoundName {
        rule: 1,
        from_row: 1,
        to_row: 1,
        col: 2,
        side: Side::Up,
    };
    let mut places = Places::new(rt.alloc());
    places.push(place)?;
    let mut bounds = BoundList::new(rt.alloc());
    bounds.push(Bound {
        name,
        first: End::Zero,
        second: End::At(place),
        limit: 5,
    })?;
    bounds.push(Bound {
        name: BoundName {
            side: Side::Down,
            ..name
        },
        first: End::At(place),
        second: End::Zero,
        limit: -3,
    })?;
    Graph::from_bounds(rt.alloc(), &places, &bounds)
}

#[test]
fn graphs_settle_and_give_the_least_transposed(rt: HostRuntime) -> Result<(), Fail> {
    let graph = range(&rt)?;
    let (outcome, distances, _) = settled(rt.alloc(), &graph, &[0, 9])?;
    assert_eq!(rt; outcome, Settled::Greatest);
    assert_eq!(rt; distances.as_slice(), [0, 5].as_slice());
    // The least are the negated distances of the transposed arcs, so the reading is 3.
    let (outcome, distances, _) = settled(rt.alloc(), &Transposed { arcs: &graph }, &[0, 0])?;
    assert_eq!(rt; outcome, Settled::Greatest);
    assert_eq!(rt; distances.as_slice(), [0, -3].as_slice());
    let mut arcs = ArcTable::new(rt.alloc());
    arcs.push(Arc {
        tail: 0,
        head: 1,
        cost: 5,
    })?;
    arcs.push(Arc {
        tail: 1,
        head: 0,
        cost: -6,
    })?;
    let graph = Graph::from_arcs(rt.alloc(), 2, arcs)?;
    let (outcome, _, cycle) = settled(rt.alloc(), &graph, &[0, 0])?;
    assert_eq!(rt; (outcome, cycle.len()), (Settled::Cycle, 2));
    transposed_is_negated();
    least_by_transposing();
    greatest_is_one();
    least_is_one();
    Ok(())
}
