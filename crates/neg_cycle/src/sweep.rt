//! Distances settled over a list of arcs.
ghost use Rattle.std.specs.Prelude.{◌≡◌, ◌<◌, ◌≤◌, ◌+◌, ◌*◌, ◌^◌, ℕ, ℤ, ◌<ℤ◌, true, false, List, Option, [], length, unsigned_abs, All, MatchOption};
ghost use Rattle.words.specs.Lists.{total};
ghost use Rattle.bound_graph.specs.Values.{RespectsArcs};
ghost use Rattle.neg_cycle.specs.Distances.{IsGreatest};
ghost use Rattle.neg_cycle.specs.Labels.{AreLabels, Fell, HoldsCycle, Lowers};
ghost use Rattle.bound_graph.specs.Cycle.{IsNegativeCycle};

use crate::cycle::write_cycle;
use crate::forest::{Stretch, rank_or_cycle};
use crate::labels::{Labels, forget, relax};
use crate::room::Room;
use bound_graph::ArcList;

/// What `settle` came to.
#[derive(Clone, Copy, Debug, PartialEq, Eq)]
#[must_use]
pub enum Settled {
    /// The distances are the greatest that respect the arcs.
    Greatest,
    /// There is a cycle of arcs whose costs have a negative sum.
    Cycle,
}

/// Lowers the distances in the room, the start values, until they respect every arc that is there.
///
/// Where a cycle is found instead, nothing is promised of the distances. Takes no memory.
pub fn settle<A: ArcList>(arcs: &A, room: &mut Room) -> Settled
    requires nodes { length room.old.distances ≡ A.node_count arcs.now }
    requires starts { All (λ start. unsigned_abs start ≤ 4 * 10 ^ 15) room.old.distances }
    // The distances are the greatest that are at most the starts and respect every arc that is there.
    ensures greatest { result ≡ Settled.Greatest → IsGreatest (A.listed arcs.now) room.old.distances room.new.distances }
    ensures no_cycle { result ≡ Settled.Greatest → room.new.cycle ≡ [] }
    // The room holds a cycle of arcs with a negative sum, so no distances respect the arcs.
    ensures cycle { result ≡ Settled.Cycle → IsNegativeCycle (A.listed arcs.now) room.new.cycle }
    ensures none { result ≡ Settled.Cycle → (distances : List ℤ) → RespectsArcs distances (A.listed arcs.now) → ⊥ }
    ensures size { length room.new.distances ≡ length room.old.distances }
{
    forget(&mut room.labels);
    match lower(arcs, &mut room.labels, &mut room.path) {
        Some(stretch) => {
            let nodes = &room.path[stretch.start..stretch.end];
            room.cycle_len = write_cycle(&room.labels.parents, nodes, &mut room.cycle);
            Settled::Cycle
        }
        None => {
            room.cycle_len = 0;
            Settled::Greatest
        }
    }
}

/// Sweeps until the distances respect the arcs, or a cycle of parents stands in a stretch of the path.
fn lower<A: ArcList>(arcs: &A, labels: &mut Labels, path: &mut Vec<u32>) -> Option<Stretch>
    requires few { A.node_count arcs.now < 2 ^ 32 }
    requires nodes { length labels.old.distances.items ≡ A.node_count arcs.now }
    requires labels { AreLabels (A.listed arcs.now) (A.node_count arcs.now) labels.old }
    requires path { length path.old.items ≡ A.node_count arcs.now }
    ensures lowers { Lowers (A.listed arcs.now) labels.old.distances.items labels.new.distances.items }
    ensures parents { length labels.new.parents.items ≡ A.node_count arcs.now }
    ensures ranks { length labels.new.ranks.items ≡ A.node_count arcs.now }
    ensures path { length path.new.items ≡ A.node_count arcs.now }
    ensures answer { MatchOption result
        (RespectsArcs labels.new.distances.items (A.listed arcs.now))
        (λ stretch. HoldsCycle (A.listed arcs.now) labels.new.parents.items path.new.items stretch.start stretch.end) }
{
    'turns: while sweep_twice(arcs, labels) {
        if let Some(stretch) = rank_or_cycle(&labels.parents, &mut labels.ranks, path) {
            return Some(stretch);
        }
    }
    None
}

/// Sweeps over the arcs in rising and then in falling order. Answers whether each sweep lowered a distance.
fn sweep_twice<A: ArcList>(arcs: &A, labels: &mut Labels) -> bool
    requires nodes { length labels.old.distances.items ≡ A.node_count arcs.now }
    requires labels { AreLabels (A.listed arcs.now) (A.node_count arcs.now) labels.old }
    ensures labels { (bound : ℕ) × AreLabels (A.listed arcs.now) bound labels.new }
    ensures lowers { Lowers (A.listed arcs.now) labels.old.distances.items labels.new.distances.items }
    ensures fell { result ≡ true → total labels.new.distances.items <ℤ total labels.old.distances.items }
    ensures respects { result ≡ false → RespectsArcs labels.new.distances.items (A.listed arcs.now) }
{
    let nodes = u64::from(arcs.nodes());
    sweep_up(arcs, nodes, labels) && sweep_down(arcs, nodes + u64::from(arcs.arcs()), labels)
}

/// Relaxes each arc, in rising order of the numbers. Answers whether a distance was lowered. The ranks that it gives begin
/// at `bound`.
fn sweep_up<A: ArcList>(arcs: &A, bound: u64, labels: &mut Labels) -> bool
    requires nodes { length labels.old.distances.items ≡ A.node_count arcs.now }
    requires bound { bound < 2 ^ 33 }
    requires labels { AreLabels (A.listed arcs.now) bound labels.old }
    ensures labels { AreLabels (A.listed arcs.now) (bound + length (A.listed arcs.now)) labels.new }
    ensures lowers { Lowers (A.listed arcs.now) labels.old.distances.items labels.new.distances.items }
    ensures fell { Fell result labels.old.distances.items labels.new.distances.items }
    ensures respects { result ≡ false → RespectsArcs labels.new.distances.items (A.listed arcs.now) }
{
    let mut fell = false;
    for i in 0..arcs.arcs() {
        fell |= relax(arcs, i, bound + u64::from(i), labels);
    }
    fell
}

/// The same in falling order.
fn sweep_down<A: ArcList>(arcs: &A, bound: u64, labels: &mut Labels) -> bool
    requires nodes { length labels.old.distances.items ≡ A.node_count arcs.now }
    requires bound { bound < 2 ^ 33 }
    requires labels { AreLabels (A.listed arcs.now) bound labels.old }
    ensures labels { AreLabels (A.listed arcs.now) (bound + length (A.listed arcs.now)) labels.new }
    ensures lowers { Lowers (A.listed arcs.now) labels.old.distances.items labels.new.distances.items }
    ensures fell { Fell result labels.old.distances.items labels.new.distances.items }
    ensures respects { result ≡ false → RespectsArcs labels.new.distances.items (A.listed arcs.now) }
{
    let count = arcs.arcs();
    let mut fell = false;
    for i in (0..count).rev() {
        fell |= relax(arcs, i, bound + u64::from(count - 1 - i), labels);
    }
    fell
}
