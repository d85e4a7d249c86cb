//! Labels of nodes, and what an arc changes of them.
ghost use Rattle.std.specs.Prelude.{◌≡◌, ◌<◌, ◌*◌, ◌^◌, ◌+◌, ℤ, pos, true, false, ◌≤ℤ◌, ◌+ℤ◌, ◌<ℤ◌, ◌↔◌, length, replicate, IsTrue, None, Some, get_or, slice_set};
ghost use Rattle.bound_graph.specs.Arcs.{IsArc, arc_at};
ghost use Rattle.bound_graph.specs.Values.{RespectsIfThere};
ghost use Rattle.neg_cycle.specs.Labels.{AreLabels, Fell, IsWithin, Lowers};

use crate::forest::Parent;
use bound_graph::{Arc, ArcList};

/// For each node its distance, the arc that lowered it last, and a rank, which is above that of the arc's tail
/// unless the tail was lowered since.
#[derive(Drop)]
pub(crate) struct Labels {
    pub(crate) distances: Vec<i128>,
    pub(crate) parents: Vec<Option<Parent>>,
    pub(crate) ranks: Vec<u64>,
}

/// Takes their parents from all nodes, and ranks them alike.
pub(crate) fn forget(labels: &mut Labels)
    ensures distances { labels.new.distances.items ≡ labels.old.distances.items }
    ensures parents { labels.new.parents.items ≡ replicate (length labels.old.parents.items) None }
    ensures ranks { labels.new.ranks.items ≡ replicate (length labels.old.ranks.items) 0 }
{
    labels.parents.fill(None);
    labels.ranks.fill(0);
}

/// Lowers the head of an arc to the distance of its tail and its cost together, if the arc is there and not kept. The
/// arc's tail is then the parent of the head, which has this rank. Answers whether the head was lowered.
pub(crate) fn relax<A: ArcList>(arcs: &A, i: u32, rank: u64, labels: &mut Labels) -> bool
    requires nodes { length labels.old.distances.items ≡ A.node_count arcs.now }
    requires rank { rank < 2 ^ 34 }
    requires labels { AreLabels (A.listed arcs.now) rank labels.old }
    ensures labels { AreLabels (A.listed arcs.now) (rank + 1) labels.new }
    ensures lowers { Lowers (A.listed arcs.now) labels.old.distances.items labels.new.distances.items }
    ensures fell { Fell result labels.old.distances.items labels.new.distances.items }
    ensures kept { result ≡ false → RespectsIfThere labels.new.distances.items (arc_at (A.listed arcs.now) i) }
{
    match arcs.arc(i) {
        Some(arc) => lower_head(i, arc, rank, labels),
        None => false,
    }
}

/// The same for an arc that is there.
fn lower_head(i: u32, arc: Arc, rank: u64, labels: &mut Labels) -> bool
    requires valid { IsArc (length labels.old.distances.items) arc }
    requires parents { length labels.old.parents.items ≡ length labels.old.distances.items }
    requires ranks { length labels.old.ranks.items ≡ length labels.old.distances.items }
    requires rank { rank < 2 ^ 34 }
    requires high { get_or labels.old.distances.items arc.tail (pos 0) ≤ℤ pos (4 * 10 ^ 15) }
    requires low { IsWithin rank (get_or labels.old.distances.items arc.tail (pos 0)) }
    ensures when { IsTrue result ↔ (get_or labels.old.distances.items arc.tail (pos 0) +ℤ arc.cost) <ℤ get_or labels.old.distances.items arc.head (pos 0) }
    ensures same { result ≡ false → labels.new ≡ labels.old }
    ensures distances { result ≡ true → labels.new.distances.items ≡ slice_set labels.old.distances.items arc.head (get_or labels.old.distances.items arc.tail (pos 0) +ℤ arc.cost) }
    ensures parents { result ≡ true → labels.new.parents.items ≡ slice_set labels.old.parents.items arc.head (Some (record { arc = i; tail = arc.tail })) }
    ensures ranks { result ≡ true → labels.new.ranks.items ≡ slice_set labels.old.ranks.items arc.head rank }
{
    let sum = labels.distances[arc.tail as usize] + i128::from(arc.cost);
    let head = arc.head as usize;
    let falls = sum < labels.distances[head];
    if falls {
        labels.distances[head] = sum;
        labels.parents[head] = Some(Parent {
            arc: i,
            tail: arc.tail,
        });
        labels.ranks[head] = rank;
    }
    falls
}
