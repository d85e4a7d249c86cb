//! The arcs of bounds.
ghost use Rattle.std.specs.Prelude.{◌≡◌, ◌<◌, ◌+◌, ◌^◌, length, IfOk};
ghost use Rattle.std.specs.List.{AllByRecursion};
ghost use Rattle.words.specs.Lists.{Distinct};
ghost use Rattle.screen_model.specs.Obeys.{HasEnds};
ghost use Rattle.bound_graph.specs.Graph.{arc_of_bound, arcs_of_bounds};
ghost use Rattle.bound_graph.specs.Index.{IsIndexed};

use crate::arc::{Arc, ArcTable};
use crate::index::PlaceIndex;
use screen_model::{Bound, BoundList, Place, Places};
use std::alloc::{AllocError, Global};

/// The arcs of bounds over readings at these places, in a table with room for just these and `extra` more.
///
/// The readings are the nodes from 1 on, in the order of their places, and node 0 stands for the end `Zero`. Each bound
/// becomes the arc of its own number, from its first end to its second, at the cost of its limit.
///
/// Where places rise, by row and then by column, their nodes are found by starts of rows, in time linear in places and
/// bounds but for a search among the places of a row. Other places, and rising ones that use fewer than one row in
/// eight, are looked up in a hash map; that is linear time unless the places were chosen to collide in the map. Fails
/// only where memory runs out.
pub fn arcs_of_bounds(
    alloc: Global,
    places: &Places,
    bounds: &BoundList,
    extra: usize,
) -> Result<ArcTable, AllocError>
    requires distinct { Distinct places.now }
    requires ends { AllByRecursion (HasEnds places.now) bounds.now }
    requires few_places { length places.now + 1 < 2 ^ 32 }
    requires few_arcs { length bounds.now + extra < 2 ^ 32 }
    ensures { IfOk result (λ arcs. arcs ≡ arcs_of_bounds places.now bounds.now) }
{
    let places = places.as_slice();
    let index = PlaceIndex::of(alloc, places)?;
    let mut arcs = ArcTable::with_capacity(alloc, bounds.len() + extra)?;
    for bound in bounds.as_slice() {
        arcs.push(arc(places, &index, bound))?;
    }
    Ok(arcs)
}

/// The arc of a bound.
fn arc(places: &[Place], index: &PlaceIndex, bound: &Bound) -> Arc
    requires few { length places.now + 1 < 2 ^ 32 }
    requires indexed { IsIndexed places.now index.now }
    requires ends { HasEnds places.now bound.now }
    ensures { result ≡ arc_of_bound places.now bound.now }
{
    Arc {
        tail: index.node(places, bound.first),
        head: index.node(places, bound.second),
        cost: bound.limit,
    }
}
