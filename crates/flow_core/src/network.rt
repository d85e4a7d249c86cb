//! The flow network.
ghost use Rattle.std.specs.Prelude.{◌≡◌, ◌≤◌, ◌<◌, ◌+◌, ◌*◌, ◌^◌, ℤ, pos, ◌≤ℤ◌, length, slice_set, unsigned_abs, IfOk, IfSome, map, Some, true};
ghost use Rattle.std.specs.List.{AllByRecursion};
ghost use Rattle.words.specs.Lists.{Distinct};
ghost use Rattle.screen_model.specs.Obeys.{HasEnds, with_prices};
ghost use Rattle.bound_graph.specs.Values.{value_of};
ghost use Rattle.bound_graph.specs.Graph.{leaving};
ghost use Rattle.bound_graph.specs.Arcs.{arc_at, IsArc};
ghost use Rattle.bound_graph.specs.Reverses.{with_reverses};
ghost use Rattle.flow_core.specs.Layout.{IsRanged, network_of, nodes_of, arcs_of, arc_numbered, capacity_numbered, is_unpriced};
ghost use Rattle.flow_core.specs.State.{IsNetwork, new_state, flow_on, residual_of, value, pushed};

use crate::build::all_arcs;
use crate::limits::{MOST_BOUNDS, MOST_PRICE, MOST_VALUE, MOST_WEIGHT};
use crate::numbers::{add, product, rise, unpriced_capacity};
use crate::prices::Prices;
use crate::views::{Bare, Residual, Tight};
use bound_graph::{Arc, ArcList, Graph};
use screen_model::{BoundList, MOST_READINGS, Places, Series};
use std::alloc::{AllocError, Global};
use std::marker::Model;

/// A flow network: arcs with costs and capacities, the flow on each, and for each node its excess, which is what enters
/// it less what leaves it, and its potential.
///
/// Arc k is bound k, from its first end to its second; after the bounds come for each reading the arc from node 0 to it
/// and the arc back. All memory is taken when the network is made, some 32 bytes for each arc and 24 for each reading, and 4
/// for each bound where one of them has a price; no other call takes any.
#[derive(Drop)]
pub struct Network {
    /// Arc k under the number 2 * k, and its reverse, which is not stored, under 2 * k + 1.
    graph: Graph,
    /// The price of each bound, 0 for none.
    prices: Prices,
    /// The weight of each reading.
    weights: Vec<u32>,
    /// The capacity of a bound without a price.
    unpriced_capacity: i64,
    /// The flow on each arc.
    flows: Vec<i64>,
    /// The excess of each node.
    excesses: Vec<i64>,
    /// The potential of each node.
    potentials: Vec<i64>,
    changes: u64,
}

impl Model for Network {
    ghost use Rattle.flow_core.specs.State.{NetworkState};
    ghost use Rattle.flow_core.specs.Stored.{IsStored, state_in};

    ghost Value = { NetworkState };

    ghost view = { λ n. state_in n.graph.arcs n.prices n.weights.items n.flows.items n.excesses.items n.potentials.items n.changes };

    ghost invariant = { λ n. IsStored n.graph n.unpriced_capacity (state_in n.graph.arcs n.prices n.weights.items n.flows.items n.excesses.items n.potentials.items n.changes) };
}

impl Network {
    /// The network of bounds over readings, in which nothing flows yet.
    ///
    /// A bound of price 0 has no price and may not be broken. Its capacity is the sum of all weights and all prices, and 1
    /// more; of a bound with a price the capacity is the price, and of both arcs of a reading its weight. The error
    /// is that memory ran out. The time is mostly that of `arcs_of_bounds`.
    pub fn new(
        alloc: Global,
        values: &Series,
        weights: &[u32],
        prices: &[u32],
        bounds: &BoundList,
        places: &Places,
    ) -> Result<Network, AllocError>
        requires distinct { Distinct places.now }
        requires valued { length values.now ≡ length places.now }
        requires weighted { length weights.now ≡ length places.now }
        requires priced { length prices.now ≡ length bounds.now }
        requires few_readings { length places.now ≤ MOST_READINGS }
        requires few_bounds { length bounds.now ≤ MOST_BOUNDS }
        requires ends { AllByRecursion (HasEnds places.now) bounds.now }
        requires ranged { AllByRecursion (IsRanged (with_prices bounds.now prices.now)) places.now }
        requires values { AllByRecursion (λ value. unsigned_abs value ≤ MOST_VALUE) values.now }
        requires weights { AllByRecursion (λ weight. weight ≤ MOST_WEIGHT) weights.now }
        requires prices { AllByRecursion (λ price. price ≤ MOST_PRICE) prices.now }
        requires limits { AllByRecursion (λ bound. unsigned_abs bound.limit ≤ 4 * 10 ^ 15) bounds.now }
        ensures { IfOk result (λ net. net ≡ new_state (network_of (record {
          places = places.now;
          values = values.now;
          weights = weights.now;
          bounds = with_prices bounds.now prices.now;
        }))) }
    {
        let nodes = places.len() + 1;
        let prices_kept = Prices::of(alloc, prices)?;
        let weights_kept = Vec::from_slice(alloc, weights)?;
        let flows = vec![in alloc; 0; bounds.len() + 2 * places.len()]?;
        let excesses = vec![in alloc; 0; nodes]?;
        let potentials = vec![in alloc; 0; nodes]?;
        let arcs = all_arcs(alloc, values.as_slice(), bounds, places)?;
        Ok(Network {
            graph: Graph::from_arcs_both_ways(alloc, nodes as u32, arcs)?,
            prices: prices_kept,
            weights: weights_kept,
            unpriced_capacity: unpriced_capacity(weights, prices),
            flows,
            excesses,
            potentials,
            changes: 0,
        })
    }

    /// The number of nodes: node 0, which stands for Zero, and one for each reading.
    pub fn nodes(&self) -> u32
        ensures count { result ≡ nodes_of self.now.network }
        // What holds of every network.
        ensures network { IsNetwork self.now }
    {
        self.graph.nodes()
    }

    /// The number of arcs: one for each bound, and two for each reading.
    pub fn arcs(&self) -> u32
        ensures { result ≡ length (arcs_of self.now.network) }
    {
        self.flows.len() as u32
    }

    /// The number of bounds.
    #[inline]
    pub fn bounds(&self) -> u32
        ensures { result ≡ length self.now.network.bounds }
    {
        self.prices.len()
    }

    /// The arc of a number, with its own cost.
    #[inline]
    pub fn arc(&self, arc: u32) -> Arc
        requires { arc < length (arcs_of self.now.network) }
        ensures { result ≡ arc_numbered self.now.network arc }
    {
        self.graph.arc(2 * arc).unwrap()
    }

    /// The numbers of the arcs and reverses that leave a node, in rising order, whether more can flow on them or not. Arc
    /// k has the number 2 * k here, and its reverse 2 * k + 1.
    pub fn out_arcs(&self, node: u32) -> &[u32]
        requires { node < nodes_of self.now.network }
        ensures { result.now ≡ leaving (with_reverses (arcs_of self.now.network)) node }
    {
        self.graph.out_arcs(node)
    }

    /// The flow on an arc.
    pub fn flow(&self, arc: u32) -> i64
        requires { arc < length (arcs_of self.now.network) }
        ensures { result ≡ flow_on self.now arc }
    {
        self.flows[arc as usize]
    }

    /// How much more can flow on an arc or, with `back`, on its reverse, which takes from its flow.
    #[inline]
    pub fn residual(&self, arc: u32, back: bool) -> i64
        requires { arc < length (arcs_of self.now.network) }
        ensures { result ≡ residual_of self.now arc back }
    {
        let flow = self.flows[arc as usize];
        if back {
            flow
        } else {
            self.capacity(arc) - flow
        }
    }

    /// The capacity of an arc.
    #[inline]
    pub(crate) fn capacity(&self, arc: u32) -> i64
        requires { arc < length (arcs_of self.now.network) }
        ensures { result ≡ pos (capacity_numbered self.now.network arc) }
    {
        match self.prices.get(arc) {
            Some(0) => self.unpriced_capacity,
            Some(price) => i64::from(price),
            None => i64::from(self.weights[(arc - self.prices.len()) as usize / 2]),
        }
    }

    /// Whether an arc is that of a bound without a price.
    #[inline]
    pub fn is_unpriced(&self, arc: u32) -> bool
        ensures value { result ≡ is_unpriced self.now.network arc }
        ensures bound { result ≡ true → arc < length self.now.network.bounds }
    {
        self.prices.get(arc).unwrap_or(1) == 0
    }

    /// The number of arcs and reverses.
    pub(crate) fn arcs_both_ways(&self) -> u32
        ensures { result ≡ 2 * length (arcs_of self.now.network) }
    {
        self.graph.arcs()
    }

    /// The number of the arcs of bounds and their reverses.
    pub(crate) fn bounds_both_ways(&self) -> u32
        ensures { result ≡ 2 * length self.now.network.bounds }
    {
        2 * self.prices.len()
    }

    /// An arc under the even numbers, or a reverse under the odd ones.
    #[inline]
    pub(crate) fn both_ways(&self, number: u32) -> Option<Arc>
        ensures valid { IfSome result (IsArc (nodes_of self.now.network)) }
        ensures found { result ≡ arc_at (map Some (with_reverses (arcs_of self.now.network))) number }
    {
        self.graph.arc(number)
    }

    /// The excess of a node: what enters it, less what leaves it.
    pub fn excess(&self, node: u32) -> i64
        requires { node < nodes_of self.now.network }
        ensures { result ≡ value_of self.now.excesses node }
    {
        self.excesses[node as usize]
    }

    /// The potential of a node.
    pub fn potential(&self, node: u32) -> i64
        requires { node < nodes_of self.now.network }
        ensures { result ≡ value_of self.now.potentials node }
    {
        self.potentials[node as usize]
    }

    /// The sum of cost times flow over all arcs, negated. Goes over all arcs.
    pub fn value(&self) -> i128
        ensures { result ≡ value self.now }
    {
        let mut value = 0i128;
        for (arc, flow) in self.flows.iter().enumerate() {
            value -= product(*flow, self.arc(arc as u32).cost);
        }
        value
    }

    /// How often flow was pushed; after 2^64 - 1 pushes it stays at that.
    pub fn changes(&self) -> u64
        ensures { result ≡ self.now.changes }
    {
        self.changes
    }

    /// Pushes an amount along an arc or, with `back`, along its reverse.
    ///
    /// The flow of the arc, the excesses of its two ends and the number of changes are other ones after it, and nothing else is.
    pub fn push(&mut self, arc: u32, back: bool, amount: i64)
        requires arc { arc < length (arcs_of self.old.network) }
        requires some { pos 1 ≤ℤ amount }
        requires room { amount ≤ℤ residual_of self.old arc back }
        ensures pushed { self.new ≡ pushed self.old arc back amount }
        ensures network { IsNetwork self.new }
    {
        let ends = self.arc(arc);
        let rise = rise(back, amount);
        add(&mut self.flows, arc as usize, rise);
        add(&mut self.excesses, ends.tail as usize, 0 - rise);
        add(&mut self.excesses, ends.head as usize, rise);
        self.changes = self.changes.saturating_add(1);
    }

    /// Gives a node another potential.
    pub fn set_potential(&mut self, node: u32, value: i64)
        requires node { node < nodes_of self.old.network }
        requires size { unsigned_abs value ≤ MOST_VALUE }
        requires zero { node ≡ 0 → value ≡ pos 0 }
        ensures set { self.new ≡ record self.old { potentials = slice_set self.old.potentials node value } }
        ensures network { IsNetwork self.new }
    {
        self.potentials[node as usize] = value;
    }

    /// The arcs and reverses on which more can flow.
    pub fn residual_arcs(&self) -> Residual<'_>
        ensures { result.net.now ≡ self.now }
    {
        Residual { net: self }
    }

    /// The same, and all bounds without a price.
    pub fn tight_arcs(&self) -> Tight<'_>
        ensures { result.net.now ≡ self.now }
    {
        Tight { net: self }
    }

    /// The bounds without a price.
    pub fn bound_arcs(&self) -> Bare<'_>
        ensures { result.net.now ≡ self.now }
    {
        Bare { net: self }
    }
}
