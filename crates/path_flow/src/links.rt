//! Readings linked into chains by the bounds without a price.
ghost use Rattle.std.specs.Prelude.{◌≡◌, ◌≤◌, ◌<◌, IfSome};

use bound_graph::{Arc, ArcList};
use flow_core::{MOST_VALUE, Network};

/// No two values lie farther apart, as far as chains go.
pub(crate) const FAR: i64 = 4 * MOST_VALUE as i64;

/// What binds a reading to the next one of its chain, and to node 0.
#[derive(Clone, Copy)]
pub(crate) struct Link {
    /// The next reading of the chain, and the one before; 0 for none.
    pub(crate) next: u32,
    pub(crate) before: u32,
    /// The first reading of the chain.
    pub(crate) first: u32,
    /// Whether a bound ties the reading to another one that is not next to it.
    pub(crate) is_tied: bool,
    /// Whether the reading has its first potential.
    pub(crate) is_placed: bool,
    /// By how much the next value lies above this one, at least and at most.
    pub(crate) low: i64,
    pub(crate) high: i64,
    /// The least and the most value.
    pub(crate) least: i64,
    pub(crate) most: i64,
}

impl Link {
    /// Of a reading that nothing binds.
    pub(crate) fn unbound() -> Link {
        const MOST: i64 = MOST_VALUE as i64;
        Link {
            next: 0,
            before: 0,
            first: 0,
            is_tied: false,
            is_placed: false,
            low: 0 - FAR,
            high: FAR,
            least: 0 - MOST,
            most: MOST,
        }
    }

    /// How much room the link leaves the next value.
    pub(crate) fn width(&self) -> i64 {
        if self.next == 0 {
            i64::MAX
        } else {
            self.high.saturating_sub(self.low)
        }
    }
}

/// The link of a reading.
pub(crate) fn link_of(links: &[Link], node: u32) -> Link {
    match links.get(node as usize) {
        Some(link) => *link,
        None => Link::unbound(),
    }
}

/// The next reading of a chain.
pub(crate) fn later(links: &[Link], node: u32, nodes: u32) -> Option<u32>
    ensures later { IfSome result (λ next. node < next) }
    ensures inside { IfSome result (λ next. next < nodes) }
{
    let next = link_of(links, node).next;
    if node < next && next < nodes {
        Some(next)
    } else {
        None
    }
}

/// The reading before in a chain.
pub(crate) fn earlier(links: &[Link], node: u32) -> Option<u32>
    ensures earlier { IfSome result (λ before. before < node) }
    ensures reading { IfSome result (λ before. 0 < before) }
{
    let before = link_of(links, node).before;
    if 0 < before && before < node {
        Some(before)
    } else {
        None
    }
}

/// Links the readings of a network into chains, each to the first later one that a bound without a price binds it to. Answers
/// whether bounds tie other readings.
pub(crate) fn link_readings(net: &Network, links: &mut Vec<Link>) -> bool {
    let nodes = net.nodes();
    links.as_mut_slice().fill(Link::unbound());
    let mut is_tied = false;
    for bound in 0..net.bounds() {
        if let Some(arc) = net.bound_arcs().arc(2 * bound) {
            if !note(links, arc) {
                is_tied = true;
            }
        }
    }
    for node in 1..nodes {
        name_chain(links, node);
    }
    is_tied
}

/// Notes a bound, unless it ties readings that are not linked. Answers whether it was noted.
fn note(links: &mut Vec<Link>, arc: Arc) -> bool {
    if arc.tail == 0 {
        if let Some(link) = links.get_mut(arc.head as usize) {
            link.most = link.most.min(arc.cost);
        }
        return true;
    }
    if arc.head == 0 {
        if let Some(link) = links.get_mut(arc.tail as usize) {
            link.least = link.least.max(0i64.saturating_sub(arc.cost));
        }
        return true;
    }
    let first = arc.tail.min(arc.head);
    let second = arc.tail.max(arc.head);
    if !link_two(links, first, second) {
        tie(links, first);
        tie(links, second);
        return false;
    }
    note_step(links, arc);
    true
}

/// Notes a bound between a reading and the next one.
fn note_step(links: &mut Vec<Link>, arc: Arc) {
    if arc.tail < arc.head {
        if let Some(link) = links.get_mut(arc.tail as usize) {
            link.high = link.high.min(arc.cost);
        }
    } else if let Some(link) = links.get_mut(arc.head as usize) {
        link.low = link.low.max(0i64.saturating_sub(arc.cost));
    }
}

/// Links a reading to a later one, unless one of them is linked to another. Answers whether they are linked.
fn link_two(links: &mut Vec<Link>, first: u32, second: u32) -> bool {
    let next = link_of(links, first).next;
    if next == second {
        return true;
    }
    if next != 0 || link_of(links, second).before != 0 || first == second {
        return false;
    }
    if let Some(link) = links.get_mut(first as usize) {
        link.next = second;
    }
    if let Some(link) = links.get_mut(second as usize) {
        link.before = first;
    }
    true
}

/// Notes that a reading is tied.
fn tie(links: &mut Vec<Link>, node: u32) {
    if let Some(link) = links.get_mut(node as usize) {
        link.is_tied = true;
    }
}

/// Tells a reading the first one of its chain, which those before it know.
fn name_chain(links: &mut Vec<Link>, node: u32) {
    let before = link_of(links, node).before;
    let first = if before == 0 {
        node
    } else {
        link_of(links, before).first
    };
    if let Some(link) = links.get_mut(node as usize) {
        link.first = first;
    }
}
