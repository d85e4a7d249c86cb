//! Shortest paths by reduced costs from a reading to the first end.
ghost use Rattle.std.specs.Prelude.{◌≡◌, ◌≢◌, ◌≤◌, ◌<◌, ◌*◌, ◌/◌, ◌^◌, ◌↔◌, ℕ, ℤ, pos, ◌-ℤ◌, unsigned_abs, length, replicate, slice_set, All, IsTrue, IsNone, None, Some, MatchOption, IfOk, IfSome, Contains};
ghost use Rattle.std.specs.List.{AllByRecursion};
ghost use Rattle.words.specs.Lists.{Distinct};
ghost use Rattle.bound_graph.specs.Values.{value_of};
ghost use Rattle.bound_graph.specs.Reverses.{is_back};
ghost use Rattle.flow_core.specs.Layout.{arcs_of, nodes_of};
ghost use Rattle.flow_core.specs.State.{IsNetwork};
ghost use Rattle.flow_core.specs.Views.{arc_both_ways};
ghost use Rattle.node_heap.specs.Keys.{HasLeast};
ghost use Rattle.path_flow.specs.Reach.{IsKeyed, is_better, lowered, nothing_reached};
ghost use Rattle.path_flow.specs.Steps.{HasNoNegatives};
ghost use Rattle.path_flow.specs.Search.{HasRoom, IsEnd, IsFound, label_after, label_at, step_length, takes_from};
ghost use Rattle.path_flow.specs.Searching.{AreFree, IsLast, IsSearching, StepsFrom, nothing_left, open_nodes};

use crate::saturate::reduced_cost;
use crate::units::size;
use flow_core::Network;
use node_heap::NodeHeap;
use std::alloc::{AllocError, Global};
use std::marker::Model;

/// The way in which a search goes.
#[derive(Clone, Copy)]
pub(crate) enum Direction {
    /// From a node in excess over the arcs that leave.
    Forwards,
    /// From a node in deficit over the arcs that enter.
    Backwards,
}

/// What is searched.
#[derive(Clone, Copy)]
pub(crate) struct Task {
    /// Where the search starts.
    pub(crate) source: u32,
    pub(crate) direction: Direction,
    /// Whether node 0 is an end, whatever its excess is.
    pub(crate) ends_at_zero: bool,
}

/// How a node was reached.
#[derive(Clone, Copy)]
pub(crate) struct Label {
    /// The sum of the reduced costs on the way.
    pub(crate) distance: i128,
    /// The number of the last arc, as it leaves the node before.
    pub(crate) number: u32,
    /// The number of arcs on the way.
    pub(crate) hops: u32,
    /// How much can be moved on the way: no more than the source has, nor than any residual.
    pub(crate) room: i64,
}

/// The room of a search: the labels of the nodes that it reached, and those of these nodes that wait in a heap.
#[derive(Drop)]
pub(crate) struct Labels {
    heap: NodeHeap,
    labels: Vec<Option<Label>>,
    /// The nodes that were reached; as many of them as `count` tells.
    reached: Vec<u32>,
    count: u32,
}

impl Model for Labels {
    ghost use Rattle.std.specs.Prelude.{take, length};
    ghost use Rattle.path_flow.specs.Reach.{Reach, IsReach};

    ghost Value = { Reach };

    ghost view = { λ l. record { labels = l.labels.items; keys = l.heap; reached = take l.count l.reached.items } };

    ghost invariant = { λ l. IsReach l.count (length l.reached.items) (record { labels = l.labels.items; keys = l.heap; reached = take l.count l.reached.items }) };
}

impl Labels {
    /// Room for so many nodes, of which none is reached. Fails only where memory runs out.
    pub(crate) fn for_nodes(alloc: Global, nodes: u32) -> Result<Labels, AllocError>
        ensures { IfOk result (λ labels. labels ≡ nothing_reached nodes) }
    {
        Ok(Labels {
            heap: NodeHeap::for_nodes(alloc, nodes)?,
            labels: vec![in alloc; None; nodes as usize]?,
            reached: vec![in alloc; 0; nodes as usize]?,
            count: 0,
        })
    }

    /// The label of a node, if it was reached.
    pub(crate) fn label(&self, node: u32) -> Option<Label>
        requires { node < length self.now.labels }
        ensures label { result ≡ label_at self.now.labels node }
        ensures size { length self.now.keys ≡ length self.now.labels }
    {
        self.labels[node as usize]
    }

    /// The nodes that were reached.
    pub(crate) fn reached(&self) -> &[u32]
        ensures reached { result.now ≡ self.now.reached }
        ensures nodes { AllByRecursion (λ node. node < length self.now.labels) self.now.reached }
        ensures distinct { Distinct self.now.reached }
        ensures labelled { (node : ℕ) → IfSome (label_at self.now.labels node) (λ label. Contains self.now.reached node) }
    {
        &self.reached[..self.count as usize]
    }

    /// Takes their labels from all nodes, in time linear in those that were reached.
    pub(crate) fn forget(&mut self)
        ensures { self.new ≡ nothing_reached (length self.old.labels) }
    {
        self.heap.clear();
        take_labels(&mut self.labels, &self.reached[..self.count as usize]);
        self.count = 0;
    }

    /// Lets a node be reached in this way, unless it was reached on a way that is no longer.
    fn lower(&mut self, node: u32, label: Label)
        requires node { node < length self.old.labels }
        requires keyed { IsKeyed self.old }
        ensures { self.new ≡ lowered self.old node label }
    {
        let before = self.labels[node as usize];
        if is_better(label, before) {
            self.labels[node as usize] = Some(label);
            self.heap.lower(node, label.distance);
            if before.is_none() {
                self.reached[self.count as usize] = node;
                self.count += 1;
            }
        }
    }

    /// Takes a nearest node of those that wait out of the heap.
    fn pop_nearest(&mut self) -> Option<u32>
        ensures empty { IsNone result ↔ All IsNone self.old.keys }
        ensures size { length self.old.keys ≡ length self.old.labels }
        ensures nearest { IfSome result (λ node. (key : ℤ) × HasLeast self.old.keys node key) }
        ensures taken { IfSome result (λ node. self.new ≡ record self.old { keys = slice_set self.old.keys node None }) }
        ensures unchanged { IsNone result → self.new ≡ self.old }
    {
        match self.heap.pop_least() {
            Some((node, _key)) => Some(node),
            None => None,
        }
    }
}

/// Takes their labels from all nodes, which are those that were reached.
fn take_labels(labels: &mut Vec<Option<Label>>, reached: &[u32])
    requires nodes { AllByRecursion (λ node. node < length labels.old.items) reached.now }
    requires labelled { (node : ℕ) → IfSome (label_at labels.old.items node) (λ label. Contains reached.now node) }
    ensures { labels.new.items ≡ replicate (length labels.old.items) None }
{
    for node in reached {
        labels[*node as usize] = None;
    }
}

/// Whether a label is nearer than the one before it, or the first.
fn is_better(label: Label, before: Option<Label>) -> bool
    ensures { result ≡ is_better label before }
{
    match before {
        None => true,
        Some(before) => label.distance < before.distance,
    }
}

/// The end that is reached on the shortest way, with the labels that the search leaves.
pub(crate) fn search(net: &Network, task: Task, labels: &mut Labels) -> Option<u32>
    requires network { IsNetwork net.now }
    requires optimal { HasNoNegatives net.now }
    requires free { AreFree net.now }
    requires reading { 1 ≤ task.source }
    requires source { task.source < nodes_of net.now.network }
    requires fresh { labels.old ≡ nothing_reached (nodes_of net.now.network) }
    requires some { value_of net.now.excesses task.source ≢ pos 0 }
    requires end { (end : ℕ) × (end < nodes_of net.now.network) × IsEnd net.now task end }
    ensures { MatchOption result ⊥ (λ end. (end < nodes_of net.now.network) × IsFound net.now task labels.new.labels end) }
{
    labels.lower(
        task.source,
        Label {
            distance: 0,
            number: 0,
            hops: 0,
            room: size(net.excess(task.source)),
        },
    );
    while let Some(node) = labels.pop_nearest() {
        if is_end(net, task, node) {
            return Some(node);
        }
        expand(net, task, node, labels);
    }
    None
}

/// Whether flow can be taken to this node from a search's source, or brought from it.
pub(crate) fn is_end(net: &Network, task: Task, node: u32) -> bool
    requires { node < nodes_of net.now.network }
    ensures { IsTrue result ↔ IsEnd net.now task node }
{
    if node == 0 && task.ends_at_zero {
        return true;
    }
    match task.direction {
        Direction::Forwards => net.excess(node) < 0,
        Direction::Backwards => net.excess(node) > 0,
    }
}

/// Reaches the nodes after this one, which was settled last.
fn expand(net: &Network, task: Task, node: u32, labels: &mut Labels)
    requires network { IsNetwork net.now }
    requires optimal { HasNoNegatives net.now }
    requires node { node < nodes_of net.now.network }
    requires searching { IsSearching net.now task (StepsFrom net.now node) labels.old }
    requires last { (label : Label) × IsLast task labels.old node label }
    ensures searching { IsSearching net.now task nothing_left labels.new }
    ensures counted { open_nodes labels.new.labels labels.new.keys ≡ open_nodes labels.old.labels labels.old.keys }
{
    if let Some(last) = labels.label(node) {
        for number in net.out_arcs(node) {
            reach_over(net, task.direction, last, *number, labels);
        }
    }
}

/// Reaches the node after one that was reached in this way, by the arc or reverse of a number, if flow can move over it.
fn reach_over(net: &Network, direction: Direction, last: Label, number: u32, labels: &mut Labels)
    requires network { IsNetwork net.now }
    requires number { number / 2 < length (arcs_of net.now.network) }
    requires near { unsigned_abs last.distance ≤ 10 ^ 30 }
    requires few { last.hops < 2 ^ 31 }
    requires size { length labels.old.labels ≡ nodes_of net.now.network }
    requires keyed { IsKeyed labels.old }
    ensures none { (HasRoom net.now direction (number / 2) (is_back number) → ⊥) → labels.new ≡ labels.old }
    ensures some { HasRoom net.now direction (number / 2) (is_back number)
        → labels.new ≡ lowered labels.old (arc_both_ways net.now.network number).head (label_after net.now direction last number) }
{
    let residual = net.residual(number / 2, takes_from(number, direction));
    if residual > 0 {
        let label = Label {
            distance: last.distance + step_length(net, direction, number),
            number,
            hops: last.hops + 1,
            room: last.room.min(residual),
        };
        labels.lower(node_after(net, number), label);
    }
}

/// How long the step over the arc or reverse of a number is: the reduced cost of what flow would move over.
fn step_length(net: &Network, direction: Direction, number: u32) -> i128
    requires network { IsNetwork net.now }
    requires number { number / 2 < length (arcs_of net.now.network) }
    ensures long { result ≡ step_length net.now direction (number / 2) (is_back number) }
    ensures size { unsigned_abs result ≤ 6 * 10 ^ 15 }
{
    let cost = reduced_cost(net, number / 2);
    if takes_from(number, direction) {
        minus(cost)
    } else {
        cost
    }
}

/// A number negated.
fn minus(number: i128) -> i128
    requires { unsigned_abs number ≤ 6 * 10 ^ 15 }
    ensures { result ≡ pos 0 -ℤ number }
{
    0 - number
}

/// Whether a step over the arc or reverse of a number takes from its arc's flow.
pub(crate) fn takes_from(number: u32, direction: Direction) -> bool
    ensures { result ≡ takes_from direction (is_back number) }
{
    match direction {
        Direction::Forwards => number % 2 == 1,
        Direction::Backwards => number % 2 != 1,
    }
}

/// The node at which the arc or reverse of a number ends.
pub(crate) fn node_after(net: &Network, number: u32) -> u32
    requires { number / 2 < length (arcs_of net.now.network) }
    ensures { result ≡ (arc_both_ways net.now.network number).head }
{
    let arc = net.arc(number / 2);
    if number % 2 == 1 { arc.tail } else { arc.head }
}

/// The node from which the arc or reverse of a number leads.
pub(crate) fn node_before(net: &Network, number: u32) -> u32
    requires { number / 2 < length (arcs_of net.now.network) }
    ensures { result ≡ (arc_both_ways net.now.network number).tail }
{
    let arc = net.arc(number / 2);
    if number % 2 == 1 { arc.head } else { arc.tail }
}
