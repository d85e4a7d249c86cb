//! Laws of the greatest and the least distances, and of transposed arcs.
ghost use Rattle.neg_cycle.specs.Distances.{GreatestIsOne, LeastIsOne};
ghost use Rattle.neg_cycle.specs.Transposed.{LeastByTransposing, TransposedIsNegated};

/// Only one list is the greatest of those at most the starts that respect the arcs.
pub fn greatest_is_one()
    ensures { GreatestIsOne }
{}

/// Only one list is the least of those at least the starts that respect the arcs.
pub fn least_is_one()
    ensures { LeastIsOne }
{}

/// Values respect arcs exactly where the values negated respect the arcs transposed.
pub fn transposed_is_negated()
    ensures { TransposedIsNegated }
{}

/// The greatest distances of the arcs transposed, from the starts negated, are the least of the arcs, negated.
pub fn least_by_transposing()
    ensures { LeastByTransposing }
{}
