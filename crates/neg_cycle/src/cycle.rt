//! Cycles of arcs, from cycles of parents.
ghost use Rattle.std.specs.Prelude.{◌≡◌, ◌<◌, ◌≤◌, ◌^◌, length, take, All};
ghost use Rattle.neg_cycle.specs.Forest.{parent_at};
ghost use Rattle.neg_cycle.specs.Labels.{parent_arc, parent_arcs};

use crate::forest::Parent;

/// Writes the arcs that a cycle of parents has, against the order of its nodes: each arc then enters the node that
/// the next one leaves. Answers how many there are.
pub(crate) fn write_cycle(parents: &[Option<Parent>], nodes: &[u32], cycle: &mut Vec<u32>) -> u32
    requires few { length nodes.now < 2 ^ 32 }
    requires nodes { All (λ node. node < length parents.now) nodes.now }
    requires room { length nodes.now ≤ length cycle.old.items }
    ensures count { result ≡ length nodes.now }
    ensures arcs { take result cycle.new.items ≡ parent_arcs parents.now nodes.now }
    ensures room { length cycle.new.items ≡ length cycle.old.items }
{
    for place in 0..nodes.len() {
        cycle[place] = arc_into(parents, nodes[nodes.len() - 1 - place]);
    }
    nodes.len() as u32
}

/// The number of the arc from a node's parent.
fn arc_into(parents: &[Option<Parent>], node: u32) -> u32
    requires { node < length parents.now }
    ensures { result ≡ parent_arc (parent_at parents.now node) }
{
    match parents[node as usize] {
        Some(parent) => parent.arc,
        None => 0,
    }
}
