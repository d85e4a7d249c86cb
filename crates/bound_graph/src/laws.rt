//! Laws of bounds and their arcs: what nodes and arcs say of readings and bounds.
ghost use Rattle.bound_graph.specs.Nodes.{ArcsOfBoundsAreArcs, ArcsWithoutPrices, DistancesGiveSeries, LeavingExactly, NegativeCycleAmong, NegativeCycleBlocks, NegativeCycleForbids, ObeyingIsRespecting, RelativeToFirstRespects, RespectsThoseAmong, ValuesAtEnds};

/// The arcs of bounds with ends among the places and limits up to 4·10^15 in size are arcs of their graph, as
/// `Graph::from_arcs` requires.
pub fn arcs_of_bounds_are_arcs()
    ensures { ArcsOfBoundsAreArcs }
{}

/// Where no bound has a price, the arcs of the bounds without prices are those of the graph of bounds.
pub fn arcs_without_prices()
    ensures { ArcsWithoutPrices }
{}

/// The value at an end of a bound is the value at its node, with 0 at node 0.
pub fn values_at_ends()
    ensures { ValuesAtEnds }
{}

/// A series obeys bounds exactly where its values respect their arcs, with 0 at node 0.
pub fn obeying_is_respecting()
    ensures { ObeyingIsRespecting }
{}

/// Values less the one at node 0 respect the arcs that the values respect.
pub fn relative_to_first_respects()
    ensures { RelativeToFirstRespects }
{}

/// Distances that respect the arcs of bounds, less the distance of node 0, are a series of all places that obeys.
pub fn distances_give_series()
    ensures { DistancesGiveSeries }
{}

/// A cycle of arcs of bounds with a negative sum is a blocked cycle of the bounds that have its arcs' numbers.
pub fn negative_cycle_blocks()
    ensures { NegativeCycleBlocks }
{}

/// Where a cycle of arcs has a negative sum, no values respect the arcs.
pub fn negative_cycle_forbids()
    ensures { NegativeCycleForbids }
{}

/// Values that respect arcs respect all arcs that are among them, whatever numbers these have.
pub fn respects_those_among()
    ensures { RespectsThoseAmong }
{}

/// A cycle of arcs with a negative sum is one of the arcs that they are among, under the numbers that they have there.
pub fn negative_cycle_among()
    ensures { NegativeCycleAmong }
{}

/// The numbers that `Graph::out_arcs` gives are exactly those of the arcs that leave the node.
pub fn leaving_exactly()
    ensures { LeavingExactly }
{}
