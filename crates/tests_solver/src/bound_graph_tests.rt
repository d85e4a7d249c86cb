//! Arcs of bounds however places are found, graphs of few and of many arcs, and the laws.
ghost use Rattle.std.specs.Prelude.{◌≡◌, ◌≢◌, ◌<◌, ◌≤◌, ◌*◌, ◌^◌, length, unsigned_abs, IfOk, true};
ghost use Rattle.std.specs.List.{AllByRecursion};
ghost use Rattle.words.specs.Lists.{Distinct};
ghost use Rattle.screen_model.specs.Obeys.{HasEnds};

use bound_graph::{
    Arc, ArcList, ArcTable, Graph, arcs_of_bounds, arcs_of_bounds_are_arcs, arcs_without_prices,
    distances_give_series, leaving_exactly, negative_cycle_among, negative_cycle_blocks,
    negative_cycle_forbids, obeying_is_respecting, relative_to_first_respects,
    respects_those_among, values_at_ends,
};
use screen_model::{Bound, BoundList, BoundName, End, Place, Places, Side};
use std::alloc::{AllocError, Global};
use std::test::Fail;

const PLACE: Place = Place { row: 1, col: 2 };

/// 10^15, the range of every reading.
const RANGE: i64 = 1_000_000_000_000_000;

fn range_bound(side: Side, first: End, second: End) -> Bound
    ensures { result ≡ record { name = record { rule = 0; from_row = 1; to_row = 1; col = 2; side = side }; first = first; second = second; limit = RANGE } }
{
    Bound {
        name: BoundName {
            rule: 0,
            from_row: PLACE.row,
            to_row: PLACE.row,
            col: PLACE.col,
            side,
        },
        first,
        second,
        limit: RANGE,
    }
}

#[test]
fn range_of_one_reading(rt: HostRuntime) -> Result<(), Fail> {
    let mut places = Places::new(rt.alloc());
    places.push(PLACE)?;
    let mut bounds = BoundList::new(rt.alloc());
    bounds.push(range_bound(Side::Up, End::Zero, End::At(PLACE)))?;
    bounds.push(range_bound(Side::Down, End::At(PLACE), End::Zero))?;
    let graph = Graph::from_bounds(rt.alloc(), &places, &bounds)?;
    assert_eq!(rt; graph.nodes(), 2);
    assert_eq!(rt; graph.arcs(), 2);
    assert_eq!(rt;
        graph.arc(0),
        Some(Arc {
            tail: 0,
            head: 1,
            cost: RANGE
        })
    );
    assert_eq!(rt;
        graph.arc(1),
        Some(Arc {
            tail: 1,
            head: 0,
            cost: RANGE
        })
    );
    assert_eq!(rt; graph.arc(2), None);
    assert_eq!(rt; graph.out_arcs(0), [0].as_slice());
    assert_eq!(rt; graph.out_arcs(1), [1].as_slice());
    Ok(())
}

/// The arcs of two bounds, from one reading to another and from that to Zero, where the readings have these rows.
fn arcs_between(alloc: Global, first_row: u32, second_row: u32) -> Result<ArcTable, AllocError>
    requires { first_row ≢ second_row }
{
    let first = Place {
        row: first_row,
        col: 2,
    };
    let second = Place {
        row: second_row,
        col: 2,
    };
    let mut places = Places::new(alloc);
    places.push(first)?;
    places.push(second)?;
    let mut bounds = BoundList::new(alloc);
    bounds.push(range_bound(Side::Up, End::At(first), End::At(second)))?;
    bounds.push(range_bound(Side::Down, End::At(second), End::Zero))?;
    arcs_of_bounds(alloc, &places, &bounds, 3)
}

#[test]
fn arcs_do_not_depend_on_how_places_are_found(rt: HostRuntime) -> Result<(), Fail> {
    let arcs = [
        Arc {
            tail: 1,
            head: 2,
            cost: RANGE,
        },
        Arc {
            tail: 2,
            head: 0,
            cost: RANGE,
        },
    ];
    let rising = arcs_between(rt.alloc(), 7, 9)?;
    assert_eq!(rt; rising.as_slice(), arcs.as_slice());
    let falling = arcs_between(rt.alloc(), 9, 7)?;
    assert_eq!(rt; falling.as_slice(), arcs.as_slice());
    let far = arcs_between(rt.alloc(), 7, 4_000_000_000)?;
    assert_eq!(rt; far.as_slice(), arcs.as_slice());
    Ok(())
}

/// Whether the place stands nowhere among these.
fn is_new(places: &[Place], place: Place) -> bool
    ensures { result ≡ true → AllByRecursion (λ other. place ≢ other) places.now }
{
    for other in places {
        if *other == place {
            return false;
        }
    }
    true
}

/// Adds a place at the end, if it is new.
fn push_new(places: &mut Places, place: Place) -> Result<(), AllocError>
    requires { Distinct places.old }
    ensures { Distinct places.new }
{
    if is_new(places.as_slice(), place) {
        places.push(place)?;
    }
    Ok(())
}

/// The places with these rows and columns.
fn places_of(alloc: Global, cells: &[(u32, u32)]) -> Result<Places, AllocError>
    ensures { IfOk result Distinct }
{
    let mut places = Places::new(alloc);
    for cell in cells {
        push_new(
            &mut places,
            Place {
                row: cell.0,
                col: cell.1,
            },
        )?;
    }
    Ok(places)
}

/// The range of each reading: a bound from Zero to it, and one back.
fn ranges(alloc: Global, places: &[Place]) -> Result<BoundList, AllocError>
    ensures ends { IfOk result (AllByRecursion (HasEnds places.now)) }
{
    let mut bounds = BoundList::new(alloc);
    for place in places {
        bounds.push(range_bound(Side::Up, End::Zero, End::At(*place)))?;
        bounds.push(range_bound(Side::Down, End::At(*place), End::Zero))?;
    }
    Ok(bounds)
}

#[test]
fn each_place_has_its_node_wherever_it_stands(rt: HostRuntime) -> Result<(), Fail> {
    let none: &[(u32, u32)] = &[];
    let several_in_a_row: &[(u32, u32)] = &[(0, 1), (0, 3), (2, 1), (2, 2), (2, 256), (3, 2)];
    let falling_rows: &[(u32, u32)] = &[(3, 2), (2, 7), (2, 1), (0, 3)];
    let falling_columns: &[(u32, u32)] = &[(1, 3), (1, 2), (4, 2)];
    let far_apart: &[(u32, u32)] = &[(5, 1), (5, 2), (4_294_967_295, 1)];
    for cells in [
        none,
        several_in_a_row,
        falling_rows,
        falling_columns,
        far_apart,
    ] {
        let places = places_of(rt.alloc(), cells)?;
        assert_eq!(rt; places.len(), cells.len());
        let bounds = ranges(rt.alloc(), places.as_slice())?;
        assert!(rt; places.len() < 100 && bounds.len() < 100);
        let arcs = arcs_of_bounds(rt.alloc(), &places, &bounds, 7)?.into_vec();
        assert_eq!(rt; arcs.len(), 2 * cells.len());
        assert!(rt; arcs.capacity() >= 2 * cells.len() + 7);
        for (i, arc) in arcs.iter().enumerate() {
            let node = i as u32 / 2 + 1;
            let ends = if i % 2 == 0 { (0, node) } else { (node, 0) };
            assert_eq!(rt; (arc.tail, arc.head), ends, "arc {i}");
            assert_eq!(rt; arc.cost, RANGE);
        }
    }
    Ok(())
}

/// How many arcs that are there enter a node.
fn in_degree<A: ArcList>(list: &A, node: u32) -> u32 {
    let mut count = 0;
    for i in 0..list.arcs() {
        if let Some(arc) = list.arc(i) {
            if arc.head == node {
                count += 1;
            }
        }
    }
    count
}

#[test]
fn arcs_of_each_node(rt: HostRuntime) -> Result<(), Fail> {
    let mut arcs = ArcTable::new(rt.alloc());
    arcs.push(Arc {
        tail: 3,
        head: 0,
        cost: -7,
    })?;
    arcs.push(Arc {
        tail: 0,
        head: 3,
        cost: 5,
    })?;
    arcs.push(Arc {
        tail: 3,
        head: 3,
        cost: 0,
    })?;
    arcs.push(Arc {
        tail: 1,
        head: 3,
        cost: 2,
    })?;
    arcs.push(Arc {
        tail: 3,
        head: 0,
        cost: -8,
    })?;
    let graph = Graph::from_arcs(rt.alloc(), 4, arcs)?;
    assert_eq!(rt; graph.nodes(), 4);
    assert_eq!(rt;
        graph.arc(4),
        Some(Arc {
            tail: 3,
            head: 0,
            cost: -8
        })
    );
    assert_eq!(rt; graph.out_arcs(0), [1].as_slice());
    assert_eq!(rt; graph.out_arcs(1), [3].as_slice());
    assert_eq!(rt; graph.out_arcs(2), [].as_slice());
    assert_eq!(rt; graph.out_arcs(3), [0, 2, 4].as_slice());
    assert_eq!(rt; in_degree(&graph, 0), 2);
    assert_eq!(rt; in_degree(&graph, 3), 3);
    assert_eq!(rt; in_degree(&graph, 2), 0);
    Ok(())
}

/// The places of readings in one column, from row 1 on.
fn column(alloc: Global, rows: u32) -> Result<Places, AllocError>
    requires { rows < 2 ^ 20 }
    ensures distinct { IfOk result Distinct }
    ensures size { IfOk result (λ places. length places ≡ rows) }
{
    let mut places = Places::new(alloc);
    for i in 0..rows {
        places.push(Place { row: i + 1, col: 2 })?;
    }
    Ok(places)
}

/// From each reading four bounds, to the next four round a ring.
fn ring(alloc: Global, places: &[Place]) -> Result<BoundList, AllocError>
    requires some { 0 < length places.now }
    requires small { length places.now < 2 ^ 20 }
    ensures ends { IfOk result (AllByRecursion (HasEnds places.now)) }
    ensures limits { IfOk result (AllByRecursion (λ bound. unsigned_abs bound.limit ≤ 4 * 10 ^ 15)) }
    ensures size { IfOk result (λ bounds. length bounds ≡ 4 * length places.now) }
{
    let mut bounds = BoundList::new(alloc);
    for i in 0..4 * places.len() {
        let first = places[i % places.len()];
        let second = places[(i + i / places.len() + 1) % places.len()];
        bounds.push(range_bound(Side::Up, End::At(first), End::At(second)))?;
    }
    Ok(bounds)
}

#[test]
fn many_bounds(rt: HostRuntime) -> Result<(), Fail> {
    let places = column(rt.alloc(), 100_000)?;
    let bounds = ring(rt.alloc(), places.as_slice())?;
    let graph = Graph::from_bounds(rt.alloc(), &places, &bounds)?;
    assert_eq!(rt; graph.arcs(), 400_000);
    assert_eq!(rt; graph.out_arcs(0), [].as_slice());
    assert_eq!(rt;
        graph.out_arcs(1),
        [0, 100_000, 200_000, 300_000].as_slice()
    );
    assert_eq!(rt;
        graph.out_arcs(100_000),
        [99_999, 199_999, 299_999, 399_999].as_slice()
    );
    arcs_of_bounds_are_arcs();
    arcs_without_prices();
    values_at_ends();
    obeying_is_respecting();
    relative_to_first_respects();
    distances_give_series();
    negative_cycle_among();
    respects_those_among();
    negative_cycle_blocks();
    negative_cycle_forbids();
    leaving_exactly();
    Ok(())
}
