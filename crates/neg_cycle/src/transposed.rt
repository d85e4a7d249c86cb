//! Arcs transposed round, for the least distances.
ghost use Rattle.std.specs.Prelude.{◌≡◌};
ghost use Rattle.neg_cycle.specs.Transposed.{all_transposed, transposed};

use bound_graph::{Arc, ArcList};

/// A list of arcs with every arc transposed: from its head to its tail, at the same cost and under the same number.
///
/// Values respect arcs where the values negated respect the arcs transposed. So `settle` over these, from starts that
/// are the negated ones, gives the least distances that respect the arcs, negated (`least_by_transposing`).
#[derive(Drop)]
pub struct Transposed<'a, A> {
    /// The arcs as they are.
    pub arcs: &'a A,
}

impl<'a, A: ArcList> ArcList for Transposed<'a, A> {
    ghost node_count = { λ list. A.node_count list.arcs.now };

    ghost listed = { λ list. all_transposed (A.listed list.arcs.now) };

    fn nodes(&self) -> u32 {
        self.arcs.nodes()
    }

    fn arcs(&self) -> u32 {
        self.arcs.arcs()
    }

    fn arc(&self, i: u32) -> Option<Arc> {
        match self.arcs.arc(i) {
            Some(arc) => Some(transpose(arc)),
            None => None,
        }
    }
}

/// The arc from the head to the tail.
fn transpose(arc: Arc) -> Arc
    ensures { result ≡ transposed arc }
{
    Arc {
        tail: arc.head,
        head: arc.tail,
        cost: arc.cost,
    }
}
