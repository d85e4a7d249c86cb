//! Arcs, and what offers a list of them.
ghost use Rattle.std.specs.Prelude.{◌≡◌, ℕ, List, Option, length, IfSome};
ghost use Rattle.bound_graph.specs.declared.arc.Arc.{Arc};
ghost use Rattle.bound_graph.specs.Arcs.{arc_at, IsArc};

use sequence::Sequence;

/// An arc of a directed graph, by the numbers of its two nodes.
///
/// It stands for a bound: the value at `head` is at most `cost` above the value at `tail`.
#[derive(Clone, Copy, Debug, PartialEq, Eq)]
pub struct Arc {
    /// The node that it leaves.
    pub tail: u32,
    /// The node that it enters.
    pub head: u32,
    /// Its cost; at most 4·10^15 in size, as `IsArc` asks of every arc that an `ArcList` lists.
    pub cost: i64,
}

/// A list of arcs.
pub type ArcTable = Sequence<Arc>;

/// Nodes and numbered arcs between them, of which some may not be there now.
///
/// None of its calls takes memory.
pub trait ArcList {
    /// The number of nodes.
    ghost node_count: { Self → ℕ };

    /// The arcs by their numbers, with `None` for an arc that is not there now.
    ghost listed: { Self → List (Option Arc) };

    /// The number of nodes, which have the numbers below it.
    fn nodes(&self) -> u32
        ensures { result ≡ node_count self.now };

    /// The number of arcs, those that are not there now among them.
    fn arcs(&self) -> u32
        ensures { result ≡ length (listed self.now) };

    /// The arc of a number, and `None` where there is none or it is not there now.
    fn arc(&self, i: u32) -> Option<Arc>
        ensures found { result ≡ arc_at (listed self.now) i }
        ensures valid { IfSome result (IsArc (node_count self.now)) };
}
