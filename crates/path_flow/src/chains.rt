//! First potentials by chains of readings.
//!
//! The bounds without a price mostly bind each reading to the next one of its sensor. For such a chain alone a series of least
//! cost is found at once; where bounds tie chains, each takes those before it as they are.
ghost use Rattle.std.specs.Prelude.{◌≡◌, ◌≤◌, ◌<◌, length, unsigned_abs};
ghost use Rattle.flow_core.specs.Layout.{arcs_of, nodes_of};
ghost use Rattle.path_flow.specs.Steps.{ChangesPotentials};

use crate::links::{Link, earlier, later, link_of, link_readings};
use crate::slope::Slope;
use crate::starts::within_values;
use crate::ties::{Tied, Ties};
use flow_core::Network;
use std::alloc::{AllocError, Global};

/// The first reading of a chain. Those with the narrowest link come first.
#[derive(Clone, Copy, PartialEq, Eq, PartialOrd, Ord)]
struct Head {
    width: i64,
    node: u32,
}

/// Room for chains.
#[derive(Drop)]
pub(crate) struct Chains {
    /// The link of each node.
    links: Vec<Link>,
    /// The first reading of each chain.
    heads: Vec<Head>,
    ties: Ties,
    slope: Slope,
}

impl Chains {
    /// Room for the chains of a network of so many nodes. Fails only where memory runs out.
    pub(crate) fn for_nodes(alloc: Global, nodes: u32) -> Result<Chains, AllocError> {
        Ok(Chains {
            links: vec![in alloc; Link::unbound(); nodes as usize]?,
            heads: Vec::with_capacity(alloc, nodes as usize)?,
            ties: Ties::new(alloc)?,
            slope: Slope::for_readings(alloc, nodes)?,
        })
    }
}

/// Sets potentials chain by chain, the narrowest first where bounds tie some.
pub(crate) fn place_chains(net: &mut Network, chains: &mut Chains)
    ensures { ChangesPotentials net.old net.new }
{
    let is_tied = link_readings(net, &mut chains.links);
    list_heads(net, &chains.links, &mut chains.heads);
    if is_tied {
        chains.heads.as_mut_slice().sort_unstable();
    }
    for place in 0..chains.heads.len() {
        if let Some(head) = chains.heads.get(place).copied() {
            place_chain(net, chains, head.node);
        }
    }
}

/// Lists the first readings of all chains.
fn list_heads(net: &Network, links: &[Link], heads: &mut Vec<Head>) {
    heads.clear();
    for node in 1..net.nodes() {
        let link = link_of(links, node);
        if link.before == 0 && heads.len() < heads.capacity() {
            let _full = heads.push(Head {
                width: link.width(),
                node,
            });
        }
    }
}

/// Sets the potentials of the chain that begins with a reading.
fn place_chain(net: &mut Network, chains: &mut Chains, first: u32)
    ensures { ChangesPotentials net.old net.new }
{
    if 0 < first && first < net.nodes() {
        let last = place_forwards(net, chains, first);
        place_backwards(net, &mut chains.links, last);
    }
}

/// Lets the potential of each reading of a chain be the greatest value at which it and those before it cost least. Answers the
/// last reading.
fn place_forwards(net: &mut Network, chains: &mut Chains, first: u32) -> u32
    requires reading { 0 < first }
    requires node { first < nodes_of net.old.network }
    ensures stays { ChangesPotentials net.old net.new }
    ensures reading { 0 < result }
    ensures node { result < nodes_of net.old.network }
{
    chains.slope.clear();
    place_reading(net, chains, first);
    let mut node = first;
    while let Some(next) = later(&chains.links, node, net.nodes()) {
        let link = link_of(&chains.links, node);
        chains.slope.step(link.low, link.high);
        place_reading(net, chains, next);
        node = next;
    }
    node
}

/// Clamps the potential of each reading of a chain to what the next one leaves it, from the last one back.
fn place_backwards(net: &mut Network, links: &mut Vec<Link>, last: u32)
    requires reading { 0 < last }
    requires node { last < nodes_of net.old.network }
    ensures { ChangesPotentials net.old net.new }
{
    mark_placed(links, last);
    let mut node = last;
    while let Some(before) = earlier(links, node) {
        let link = link_of(links, before);
        let next = net.potential(node);
        let least = next.saturating_sub(link.high);
        let most = next.saturating_sub(link.low);
        set(net, before, net.potential(before).max(least).min(most));
        mark_placed(links, before);
        node = before;
    }
}

/// Notes that a reading has its potential.
fn mark_placed(links: &mut Vec<Link>, node: u32) {
    if let Some(link) = links.get_mut(node as usize) {
        link.is_placed = true;
    }
}

/// Adds a reading to the cost of its chain, and lets its potential be the greatest value of least cost.
fn place_reading(net: &mut Network, chains: &mut Chains, node: u32)
    requires reading { 0 < node }
    requires node { node < nodes_of net.old.network }
    ensures { ChangesPotentials net.old net.new }
{
    chains.ties.gather(net, &chains.links, node);
    chains.slope.clip(chains.ties.least, chains.ties.most);
    chains
        .slope
        .add_distance(value(net, node), weight(net, node));
    for place in 1..chains.ties.len() {
        if let Some(tied) = chains.ties.at(place) {
            add_tied(net, &mut chains.slope, tied);
        }
    }
    set(net, node, chains.slope.highest());
}

/// Adds what a value costs at a reading that is tied.
fn add_tied(net: &Network, slope: &mut Slope, tied: Tied) {
    if 0 < tied.node && tied.node < net.nodes() {
        let value = value(net, tied.node);
        let weight = weight(net, tied.node);
        slope.add_below(value.saturating_sub(tied.high), weight);
        slope.add_above(value.saturating_sub(tied.low), weight);
    }
}

/// Lets a potential be a value, or the nearest one that it may be.
fn set(net: &mut Network, node: u32, value: i64)
    requires reading { 0 < node }
    requires node { node < nodes_of net.old.network }
    ensures { ChangesPotentials net.old net.new }
{
    net.set_potential(node, within_values(i128::from(value)));
}

/// The value of a reading.
fn value(net: &Network, node: u32) -> i64
    requires reading { 0 < node }
    requires node { node < nodes_of net.now.network }
{
    net.arc(arc_to(net, node)).cost
}

/// The weight of a reading on which nothing flows.
fn weight(net: &Network, node: u32) -> u64
    requires reading { 0 < node }
    requires node { node < nodes_of net.now.network }
{
    net.residual(arc_to(net, node), false).unsigned_abs()
}

/// The number of the arc from node 0 to a reading.
fn arc_to(net: &Network, node: u32) -> u32
    requires reading { 0 < node }
    requires node { node < nodes_of net.now.network }
    ensures { result < length (arcs_of net.now.network) }
{
    net.arcs() - 2 * (net.nodes() - node)
}
