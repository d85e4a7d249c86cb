//! Networks of readings that are given by lists: made, solved by either solver, and looked at series by series.
ghost use Rattle.std.specs.Prelude.{◌≡◌, ◌≤◌, ◌<◌, ◌^◌, ◌==◌, IfOk, if◌then◌else◌, unsigned_abs};
ghost use Rattle.screen_model.specs.declared.place.End.TheVariants.{At, Zero};
ghost use Rattle.flow_core.specs.State.{IsNew};

use bound_graph::{Arc, ArcList};
use cancel_flow::CancelSolver;
use flow_core::{Network, Solved, Solver};
use neg_cycle::Room;
use path_flow::PathSolver;
use screen_model::{Bound, BoundList, BoundName, End, Place, Places, Series, Side};
use sequence::Sequence;
use std::alloc::{AllocError, Global};
use std::process::Abort;

/// 10^15, the range of every reading.
pub(crate) const RANGE: i64 = 1_000_000_000_000_000;

/// A bound by the nodes of its ends, its limit and its price.
#[derive(Clone, Copy)]
pub(crate) struct PricedBound {
    pub(crate) tail: u32,
    pub(crate) head: u32,
    pub(crate) limit: i64,
    pub(crate) price: u32,
}

/// A bound from a node to another one, where node 0 is Zero.
pub(crate) fn line(tail: u32, head: u32, limit: i64, price: u32) -> PricedBound {
    PricedBound {
        tail,
        head,
        limit,
        price,
    }
}

/// The end that is this node.
fn end(node: u32) -> End
    ensures { result ≡ (if node == 0 then Zero else At (record { row = node; col = 2 })) }
{
    if node == 0 {
        End::Zero
    } else {
        End::At(Place { row: node, col: 2 })
    }
}

/// A bound of a name that all bounds here share.
fn bound(first: End, second: End, limit: i64) -> Bound
    ensures { result ≡ record { name = record { rule = 1; from_row = 1; to_row = 1; col = 2; side = Side.Up }; first = first; second = second; limit = limit } }
{
    Bound {
        name: BoundName {
            rule: 1,
            from_row: 1,
            to_row: 1,
            col: 2,
            side: Side::Up,
        },
        first,
        second,
        limit,
    }
}

/// The value, or the nearest one that a reading or a limit may have here.
fn within_range(value: i64) -> i64
    ensures { unsigned_abs result ≤ 10 ^ 15 }
{
    value.clamp(-RANGE, RANGE)
}

/// The number, or the greatest one that it may be.
fn at_most(number: u32, most: u32) -> u32
    ensures { result ≤ most }
{
    number.min(most)
}

/// A network of readings, each of a value and a weight, with their ranges and with these bounds.
pub(crate) fn network(
    alloc: Global,
    readings: &[(i64, u32)],
    lines: &[PricedBound],
) -> Result<Network, AllocError>
    ensures { IfOk result IsNew }
{
    let count = readings.len().min(2_000) as u32;
    let mut places = Places::new(alloc);
    let mut series = Series::new(alloc);
    let mut kept = Sequence::new(alloc);
    let mut bounds = BoundList::new(alloc);
    let mut prices = Sequence::new(alloc);
    for i in 0..count {
        let place = Place { row: i + 1, col: 2 };
        let (value, weight) = readings.get(i as usize).copied().unwrap_or((0, 0));
        places.push(place)?;
        series.push(within_range(value))?;
        kept.push(at_most(weight, 1_000))?;
        bounds.push(bound(End::Zero, End::At(place), RANGE))?;
        bounds.push(bound(End::At(place), End::Zero, RANGE))?;
        prices.push(0)?;
        prices.push(0)?;
    }
    for line in &lines[..lines.len().min(20_000)] {
        let first = end(at_most(line.tail, count));
        let second = end(at_most(line.head, count));
        bounds.push(bound(first, second, within_range(line.limit)))?;
        prices.push(at_most(line.price, 1_000))?;
    }
    let weights = kept.as_slice();
    Network::new(alloc, &series, weights, prices.as_slice(), &bounds, &places)
}

/// What both solvers came to.
#[derive(Clone, Copy)]
pub(crate) struct Agreement {
    /// The value, or none where no series obeys.
    pub(crate) cost: Option<i128>,
    /// How often the solver of paths changed flow.
    pub(crate) by_paths: u64,
    /// How often the solver of cycles did.
    pub(crate) by_cycles: u64,
}

/// Solves the network of these lists with each solver. They come to the same value, or both find that no series obeys.
pub(crate) fn agreed(
    rt: &impl Abort,
    alloc: Global,
    readings: &[(i64, u32)],
    lines: &[PricedBound],
) -> Result<Agreement, AllocError> {
    let mut one = network(alloc, readings, lines)?;
    let mut other = network(alloc, readings, lines)?;
    let cost = solved(rt, alloc, &mut one, &mut PathSolver::new(alloc))?;
    let again = solved(rt, alloc, &mut other, &mut CancelSolver::new(alloc))?;
    assert_eq!(rt; cost, again);
    Ok(Agreement {
        cost,
        by_paths: one.changes(),
        by_cycles: other.changes(),
    })
}

/// Solves a network, and looks at what is promised of it. Answers its value, or none where no series obeys.
pub(crate) fn solved<V: Solver>(
    rt: &impl Abort,
    alloc: Global,
    net: &mut Network,
    solver: &mut V,
) -> Result<Option<i128>, AllocError>
    requires { IsNew net.old }
{
    let mut room = Room::for_nodes(alloc, net.nodes())?;
    solver.prepare(alloc, net.nodes(), net.arcs())?;
    match solver.solve(net, &mut room) {
        Solved::Best => {
            look_at_best(rt, net);
            Ok(Some(net.value()))
        }
        Solved::Blocked => {
            look_at_cycle(rt, net, &room);
            Ok(None)
        }
    }
}

/// No node has an excess, and the potentials respect every tight arc.
fn look_at_best(rt: &impl Abort, net: &Network) {
    for node in 0..net.nodes() {
        assert_eq!(rt; net.excess(node), 0);
    }
    for number in 0..net.tight_arcs().arcs() {
        if let Some(arc) = net.tight_arcs().arc(number) {
            let rise = i128::from(net.potential(arc.head)) - i128::from(net.potential(arc.tail));
            assert!(rt; rise <= i128::from(arc.cost));
        }
    }
}

/// The room has a cycle of bounds without a price, whose costs add up to less than 0.
fn look_at_cycle(rt: &impl Abort, net: &Network, room: &Room) {
    let mut sum = 0i128;
    let mut at = cycle_arc(rt, net, room, 0).tail;
    for i in 0..room.cycle_len() {
        let arc = cycle_arc(rt, net, room, i);
        assert_eq!(rt; arc.tail, at);
        at = arc.head;
        sum = sum.wrapping_add(i128::from(arc.cost));
    }
    assert_eq!(rt; at, cycle_arc(rt, net, room, 0).tail);
    assert!(rt; sum < 0);
}

fn cycle_arc(rt: &impl Abort, net: &Network, room: &Room, i: u32) -> Arc {
    let number = room.cycle_arc(i).expect(rt, "an arc of the cycle");
    net.bound_arcs()
        .arc(number)
        .expect(rt, "a bound without a price")
}

/// The most changes that the solver of paths promises.
pub(crate) fn promised(readings: &[(i64, u32)], lines: &[PricedBound]) -> u64 {
    let count = readings.len() as u64;
    let mut units = 0u64;
    let mut priced = 0u64;
    for (_, weight) in readings {
        units = units.saturating_add(u64::from(*weight));
    }
    for line in lines {
        units = units.saturating_add(u64::from(line.price));
        priced = priced.saturating_add(u64::from(line.price.min(1)));
    }
    units
        .saturating_mul(count)
        .saturating_add(priced)
        .saturating_add(count)
}

/// A number below a bound, from a linear congruence.
pub(crate) fn draw(state: &mut u64, bound: u64) -> u64
    requires { 0 < bound }
    ensures { result < bound }
{
    *state = state
        .wrapping_mul(6_364_136_223_846_793_005)
        .wrapping_add(1_442_695_040_888_963_407);
    (*state >> 33) % bound
}

/// The least cost of a series of values from -7 to 7 that obeys, by a look at each; none where there is none.
pub(crate) fn least_cost(readings: &[(i64, u32)], lines: &[PricedBound]) -> Option<i128> {
    let mut all = 1u64;
    for _ in readings {
        all = all.wrapping_mul(15);
    }
    let mut least = None;
    for code in 0..all {
        if let Some(cost) = cost_of(code, readings, lines) {
            least = match least {
                Some(before) if before <= cost => Some(before),
                _ => Some(cost),
            };
        }
    }
    least
}

/// What a series costs, or none where it does not obey.
fn cost_of(code: u64, readings: &[(i64, u32)], lines: &[PricedBound]) -> Option<i128> {
    let mut cost = 0i64;
    for (i, (value, weight)) in readings.iter().enumerate() {
        let change = value_at(code, i + 1).wrapping_sub(*value).wrapping_abs();
        cost = cost.wrapping_add(change.wrapping_mul(i64::from(*weight)));
    }
    for line in lines {
        let over = value_at(code, line.head as usize)
            .wrapping_sub(value_at(code, line.tail as usize))
            .wrapping_sub(line.limit);
        if over > 0 {
            if line.price == 0 {
                return None;
            }
            cost = cost.wrapping_add(over.wrapping_mul(i64::from(line.price)));
        }
    }
    Some(i128::from(cost))
}

/// The value of a node in the series of a number, whose digits to the base 15 are the values.
fn value_at(code: u64, node: usize) -> i64 {
    if node == 0 {
        return 0;
    }
    let mut rest = code;
    for _ in 1..node {
        rest /= 15;
    }
    (rest % 15) as i64 - 7
}
