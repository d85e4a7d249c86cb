//! Graphs of arcs both ways, beside graphs of the same arcs and reverses written out.
ghost use Rattle.std.specs.Prelude.{◌≡◌, ◌<◌, IfOk};
ghost use Rattle.std.specs.List.{AllByRecursion};
ghost use Rattle.bound_graph.specs.Arcs.{IsArc};

use bound_graph::{Arc, ArcList, ArcTable, Graph};
use std::alloc::{AllocError, Global};
use std::process::Abort;
use std::test::Fail;

/// 4·10^15, the greatest size of a cost.
const MOST_COST: i64 = 4_000_000_000_000_000;

/// The tail, the head and the cost of an arc.
type Row = (u32, u32, i64);

/// Adds the arc of a row, if it is one between the nodes.
fn push_valid(arcs: &mut ArcTable, nodes: u32, row: Row) -> Result<(), AllocError>
    requires { AllByRecursion (IsArc nodes) arcs.old }
    ensures { AllByRecursion (IsArc nodes) arcs.new }
{
    let (tail, head, cost) = row;
    if tail < nodes && head < nodes && cost.unsigned_abs() <= 4_000_000_000_000_000 {
        arcs.push(Arc { tail, head, cost })?;
    }
    Ok(())
}

/// The arcs of rows.
fn table(alloc: Global, nodes: u32, rows: &[Row]) -> Result<ArcTable, AllocError>
    ensures { IfOk result (AllByRecursion (IsArc nodes)) }
{
    let mut arcs = ArcTable::new(alloc);
    for row in rows {
        push_valid(&mut arcs, nodes, *row)?;
    }
    Ok(arcs)
}

/// The arcs of rows, each followed by its reverse.
fn table_both_ways(alloc: Global, nodes: u32, rows: &[Row]) -> Result<ArcTable, AllocError>
    ensures { IfOk result (AllByRecursion (IsArc nodes)) }
{
    let mut arcs = ArcTable::new(alloc);
    for row in rows {
        let (tail, head, cost) = *row;
        push_valid(&mut arcs, nodes, (tail, head, cost))?;
        push_valid(&mut arcs, nodes, (head, tail, cost.wrapping_neg()))?;
    }
    Ok(arcs)
}

/// The graph of the rows both ways, which has all arcs of the one that is written out, under the same numbers.
fn graph_both_ways(
    rt: &impl Abort,
    alloc: Global,
    nodes: u32,
    rows: &[Row],
) -> Result<Graph, AllocError>
    ensures { IfOk result (λ graph. graph.nodes ≡ nodes) }
{
    let arcs = table(alloc, nodes, rows)?;
    let written = table_both_ways(alloc, nodes, rows)?;
    assert!(rt; rows.len() < 1_000_000);
    assert_eq!(rt; arcs.len(), rows.len());
    assert_eq!(rt; written.len(), 2 * rows.len());
    let graph = Graph::from_arcs_both_ways(alloc, nodes, arcs)?;
    let other = Graph::from_arcs(alloc, nodes, written)?;
    assert_eq!(rt; graph.nodes(), nodes);
    assert_eq!(rt; graph.arcs(), 2 * rows.len() as u32);
    // The number behind the last one has no arc in either.
    for number in 0..2 * rows.len() as u32 + 1 {
        assert_eq!(rt; graph.arc(number), other.arc(number), "arc {number}");
    }
    for node in 0..nodes {
        assert_eq!(rt; graph.out_arcs(node), other.out_arcs(node), "node {node}");
    }
    Ok(graph)
}

#[test]
fn arcs_both_ways_are_those_that_are_written_out(rt: HostRuntime) -> Result<(), Fail> {
    let none: &[Row] = &[];
    let loops: &[Row] = &[(0, 0, 0), (0, 0, 5), (0, 0, -5)];
    let parallel: &[Row] = &[(0, 1, 7), (0, 1, 7), (1, 0, -7), (0, 1, -7), (1, 0, 7)];
    let great: &[Row] = &[
        (2, 0, MOST_COST),
        (0, 2, -MOST_COST),
        (1, 1, MOST_COST),
        (1, 2, 0),
    ];
    let at_the_last: &[Row] = &[(8, 8, 1), (8, 0, -1), (0, 8, 0)];
    for (nodes, rows) in [
        (0, none),
        (1, none),
        (3, none),
        (1, loops),
        (2, parallel),
        (3, great),
        (9, at_the_last),
    ] {
        graph_both_ways(&rt, rt.alloc(), nodes, rows)?;
    }
    Ok(())
}

/// So many rows, which lead from each node to near and far ones at costs of both signs.
fn many_rows(alloc: Global, nodes: u32, count: u32) -> Result<Vec<Row>, AllocError>
    requires some { 0 < nodes }
{
    let mut rows = Vec::new(alloc);
    for i in 0..count {
        rows.push((i % nodes, i / 3 % nodes, 250_000 - i64::from(i)))?;
    }
    Ok(rows)
}

#[test]
fn many_arcs_both_ways(rt: HostRuntime) -> Result<(), Fail> {
    let rows = many_rows(rt.alloc(), 100_000, 500_000)?;
    graph_both_ways(&rt, rt.alloc(), 100_000, rows.as_slice())?;
    let rows = many_rows(rt.alloc(), 3, 100_000)?;
    graph_both_ways(&rt, rt.alloc(), 3, rows.as_slice())?;
    Ok(())
}

#[test]
fn a_reverse_goes_the_other_way_at_the_cost_negated(rt: HostRuntime) -> Result<(), Fail> {
    let rows: &[Row] = &[(0, 2, 5), (2, 1, -8)];
    let graph = graph_both_ways(&rt, rt.alloc(), 3, rows)?;
    let reverse = Arc {
        tail: 2,
        head: 0,
        cost: -5,
    };
    assert_eq!(rt; graph.arc(1), Some(reverse));
    let second = Arc {
        tail: 2,
        head: 1,
        cost: -8,
    };
    assert_eq!(rt; graph.arc(2), Some(second));
    assert_eq!(rt; graph.arc(4), None);
    assert_eq!(rt; graph.out_arcs(0), [0].as_slice());
    assert_eq!(rt; graph.out_arcs(1), [3].as_slice());
    assert_eq!(rt; graph.out_arcs(2), [1, 2].as_slice());
    Ok(())
}
