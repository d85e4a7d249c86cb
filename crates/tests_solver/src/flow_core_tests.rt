//! Networks of no reading, of one and of four: their arcs, pushes on them, and what then is there in each view.
ghost use Rattle.std.specs.Prelude.{◌≡◌, ◌≤◌};

use bound_graph::{Arc, ArcList};
use flow_core::{
    Network, balanced_everywhere, balanced_is_admissible, flow_is_tight, negative_cycle_is_blocked,
    pull_is_balance, solved_is_best,
};
use screen_model::{Bound, BoundList, BoundName, End, Place, Places, Series, Side};
use std::alloc::{AllocError, Global};
use std::process::Abort;
use std::test::Fail;

/// 10^15, the range of every reading.
const RANGE: i64 = 1_000_000_000_000_000;

const FIRST: Place = Place { row: 1, col: 2 };

const SECOND: Place = Place { row: 2, col: 2 };

const THIRD: Place = Place { row: 3, col: 2 };

const FOURTH: Place = Place { row: 4, col: 2 };

/// A bound between these ends.
fn bound(first: End, second: End, limit: i64) -> Bound
    ensures { result ≡ record { name = record { rule = 1; from_row = 1; to_row = 1; col = 2; side = Side.Up }; first = first; second = second; limit = limit } }
{
    Bound {
        name: BoundName {
            rule: 1,
            from_row: 1,
            to_row: 1,
            col: 2,
            side: Side::Up,
        },
        first,
        second,
        limit,
    }
}

/// The reading 70 with this weight, its range, and the bound that it is at most 50, at this price.
fn one_reading(alloc: Global, weight: u32, price: u32) -> Result<Network, AllocError>
    requires weight { weight ≤ 1000 }
    requires price { price ≤ 1000 }
{
    let places = Places::from_slice(alloc, &[FIRST])?;
    let values = Series::from_slice(alloc, &[70])?;
    let bounds = BoundList::from_slice(
        alloc,
        &[
            bound(End::Zero, End::At(FIRST), RANGE),
            bound(End::At(FIRST), End::Zero, RANGE),
            bound(End::Zero, End::At(FIRST), 50),
        ],
    )?;
    Network::new(alloc, &values, &[weight], &[0, 0, price], &bounds, &places)
}

/// The readings 10, 11, 20 and 13 with equal weights, their ranges, and the bounds that the third one lies at most 1
/// above the second and at most 1 below it, both at this price.
fn four_readings(alloc: Global, weight: u32, price: u32) -> Result<Network, AllocError>
    requires weight { weight ≤ 1000 }
    requires price { price ≤ 1000 }
{
    let places = Places::from_slice(alloc, &[FIRST, SECOND, THIRD, FOURTH])?;
    let values = Series::from_slice(alloc, &[10, 11, 20, 13])?;
    let bounds = BoundList::from_slice(
        alloc,
        &[
            bound(End::Zero, End::At(FIRST), RANGE),
            bound(End::At(FIRST), End::Zero, RANGE),
            bound(End::Zero, End::At(SECOND), RANGE),
            bound(End::At(SECOND), End::Zero, RANGE),
            bound(End::Zero, End::At(THIRD), RANGE),
            bound(End::At(THIRD), End::Zero, RANGE),
            bound(End::Zero, End::At(FOURTH), RANGE),
            bound(End::At(FOURTH), End::Zero, RANGE),
            bound(End::At(SECOND), End::At(THIRD), 1),
            bound(End::At(THIRD), End::At(SECOND), 1),
        ],
    )?;
    let weights = [weight; 4];
    let prices = [0, 0, 0, 0, 0, 0, 0, 0, price, price];
    Network::new(alloc, &values, &weights, &prices, &bounds, &places)
}

/// A network has as many nodes, arcs and bounds.
fn sizes_are(rt: &impl Abort, net: &Network, nodes: u32, arcs: u32, bounds: u32) {
    assert_eq!(rt; net.nodes(), nodes);
    assert_eq!(rt; net.arcs(), arcs);
    assert_eq!(rt; net.bounds(), bounds);
}

fn arc(tail: u32, head: u32, cost: i64) -> Arc {
    Arc { tail, head, cost }
}

/// The arcs of these numbers are these.
fn arcs_are(rt: &impl Abort, net: &Network, arcs: &[(u32, Arc)]) {
    for (number, arc) in arcs {
        assert!(rt; *number < net.arcs());
        assert_eq!(rt; net.arc(*number), *arc);
    }
}

/// The numbers of the arcs and reverses that leave a node are these.
fn leaving_are(rt: &impl Abort, net: &Network, node: u32, numbers: &[u32]) {
    assert!(rt; node < net.nodes());
    assert_eq!(rt; net.out_arcs(node), numbers);
}

/// What flows on the arcs of these numbers, and how much more can.
fn flows_are(rt: &impl Abort, net: &Network, flows: &[(u32, i64, i64)]) {
    for (arc, flow, residual) in flows {
        assert!(rt; *arc < net.arcs());
        assert_eq!(rt; net.flow(*arc), *flow);
        assert_eq!(rt; net.residual(*arc, true), *flow);
        assert_eq!(rt; net.residual(*arc, false), *residual);
    }
}

/// Pushes an amount, if there is an arc of this number with room for it.
fn push(rt: &impl Abort, net: &mut Network, arc: u32, back: bool, amount: i64) {
    assert!(rt; arc < net.arcs());
    let room = net.residual(arc, back);
    assert!(rt; 1 <= amount && amount <= room);
    net.push(arc, back, amount);
}

/// The excesses of all nodes are these.
fn excesses_are(rt: &impl Abort, net: &Network, excesses: &[i64]) {
    assert_eq!(rt; net.nodes() as usize, excesses.len());
    for node in 0..net.nodes() {
        assert_eq!(rt; net.excess(node), excesses[node as usize]);
    }
}

/// The arcs and reverses of these numbers are residual, tight and bare, or are not.
fn views_are(rt: &impl Abort, net: &Network, views: &[(u32, bool, bool, bool)]) {
    for (number, residual, tight, bare) in views {
        assert_eq!(rt; net.residual_arcs().arc(*number).is_some(), *residual);
        assert_eq!(rt; net.tight_arcs().arc(*number).is_some(), *tight);
        assert_eq!(rt; net.bound_arcs().arc(*number).is_some(), *bare);
    }
}

/// The arcs of these numbers are bounds without a price, or are not.
fn unpriced_are(rt: &impl Abort, net: &Network, arcs: &[(u32, bool)]) {
    for (arc, is_unpriced) in arcs {
        assert_eq!(rt; net.is_unpriced(*arc), *is_unpriced);
    }
}

/// A potential is 0, and another one after it was set.
fn potential_moves(rt: &impl Abort, net: &mut Network, node: u32, value: i64) {
    assert!(rt; 0 < node && node < net.nodes());
    assert!(rt; -100 <= value && value <= 100);
    assert_eq!(rt; net.potential(node), 0);
    net.set_potential(node, value);
    assert_eq!(rt; net.potential(node), value);
}

#[test]
fn a_network_of_nothing(rt: HostRuntime) -> Result<(), Fail> {
    let values = Series::new(rt.alloc());
    let bounds = BoundList::new(rt.alloc());
    let places = Places::new(rt.alloc());
    let net = Network::new(rt.alloc(), &values, &[], &[], &bounds, &places)?;
    sizes_are(&rt, &net, 1, 0, 0);
    leaving_are(&rt, &net, 0, &[]);
    views_are(&rt, &net, &[(0, false, false, false)]);
    unpriced_are(&rt, &net, &[(0, false)]);
    assert_eq!(rt; net.value(), 0);
    pull_is_balance();
    balanced_everywhere();
    balanced_is_admissible();
    solved_is_best();
    flow_is_tight();
    negative_cycle_is_blocked();
    Ok(())
}

#[test]
fn one_reading_pays_a_price(rt: HostRuntime) -> Result<(), Fail> {
    let mut net = one_reading(rt.alloc(), 5, 3)?;
    sizes_are(&rt, &net, 2, 5, 3);
    leaving_are(&rt, &net, 1, &[1, 2, 5, 7, 8]);
    // The most that is paid for the 20 above the limit, since moving the reading costs 5 for each.
    push(&rt, &mut net, 2, false, 3);
    push(&rt, &mut net, 4, false, 3);
    excesses_are(&rt, &net, &[0, 0]);
    flows_are(&rt, &net, &[(0, 0, 9), (2, 3, 0), (3, 0, 5), (4, 3, 2)]);
    assert_eq!(rt; net.value(), 60);
    views_are(
        &rt,
        &net,
        &[
            (0, true, true, true),
            (4, false, false, false),
            (5, true, true, false),
        ],
    );
    Ok(())
}

#[test]
fn a_flow_pushed_by_hand(rt: HostRuntime) -> Result<(), Fail> {
    let mut net = four_readings(rt.alloc(), 1, 0)?;
    sizes_are(&rt, &net, 5, 18, 10);
    arcs_are(
        &rt,
        &net,
        &[(8, arc(2, 3, 1)), (12, arc(0, 2, 11)), (15, arc(3, 0, -20))],
    );
    leaving_are(&rt, &net, 3, &[9, 10, 17, 18, 29, 30]);
    unpriced_are(&rt, &net, &[(0, true), (9, true), (10, false), (18, false)]);
    push(&rt, &mut net, 12, false, 1);
    excesses_are(&rt, &net, &[-1, 0, 1, 0, 0]);
    push(&rt, &mut net, 8, false, 1);
    push(&rt, &mut net, 15, false, 1);
    excesses_are(&rt, &net, &[0, 0, 0, 0, 0]);
    assert_eq!(rt; net.value(), 8);
    assert_eq!(rt; net.changes(), 3);
    // The bound from the second reading to the third one has room left, and the reading's own arc has none.
    views_are(
        &rt,
        &net,
        &[
            (16, true, true, true),
            (17, true, true, false),
            (24, false, false, false),
            (25, true, true, false),
            (36, false, false, false),
        ],
    );
    assert_eq!(rt; net.residual_arcs().arc(25), Some(arc(2, 0, -11)));
    assert_eq!(rt; net.tight_arcs().arc(16), Some(arc(2, 3, 1)));
    assert_eq!(rt; net.bound_arcs().arc(16), Some(arc(2, 3, 1)));
    push(&rt, &mut net, 15, true, 1);
    excesses_are(&rt, &net, &[-1, 0, 0, 1, 0]);
    assert_eq!(rt; net.value(), -12);
    Ok(())
}

#[test]
fn prices_between_readings(rt: HostRuntime) -> Result<(), Fail> {
    let mut net = four_readings(rt.alloc(), 1_000, 7)?;
    // No price: all weights, all prices and 1 more.
    flows_are(&rt, &net, &[(0, 0, 4_015), (8, 0, 7), (10, 0, 1_000)]);
    unpriced_are(
        &rt,
        &net,
        &[(7, true), (8, false), (10, false), (18, false)],
    );
    views_are(
        &rt,
        &net,
        &[(16, true, true, false), (17, false, false, false)],
    );
    push(&rt, &mut net, 12, false, 7);
    push(&rt, &mut net, 8, false, 7);
    push(&rt, &mut net, 15, false, 7);
    excesses_are(&rt, &net, &[0, 0, 0, 0, 0]);
    assert_eq!(rt; net.value(), 56);
    views_are(
        &rt,
        &net,
        &[(16, false, false, false), (17, true, true, false)],
    );
    push(&rt, &mut net, 0, false, 4_015);
    views_are(&rt, &net, &[(0, false, true, true), (1, true, true, false)]);
    potential_moves(&rt, &mut net, 4, -5);
    Ok(())
}
