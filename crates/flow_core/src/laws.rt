//! Laws of networks: what flows and potentials say of the problem that a network was made of.
ghost use Rattle.flow_core.specs.Laws.{BalancedEverywhere, BalancedIsAdmissible, BestIsTight, FlowIsTight, NegativeCycleIsBlocked, PullIsBalance, SolvedIsBest, TightIsBest};

/// A flow over bounds pulls at a reading by what leaves its node on their arcs, less what enters it.
pub fn pull_is_balance()
    ensures { PullIsBalance }
{}

/// Where no reading has an excess, no node has one.
pub fn balanced_everywhere()
    ensures { BalancedEverywhere }
{}

/// Where no reading has an excess, the flows on the bounds are admissible, and the network's value is their dual value.
pub fn balanced_is_admissible()
    ensures { BalancedIsAdmissible }
{}

/// Of a solved network the potentials of the readings cost least, and as much as the network's value.
pub fn solved_is_best()
    ensures { SolvedIsBest }
{}

/// In a solved network a series that respects the tight arcs costs least.
pub fn tight_is_best()
    ensures { TightIsBest }
{}

/// In a solved network each series that costs least respects the tight arcs.
pub fn best_is_tight()
    ensures { BestIsTight }
{}

/// In a solved network, where something flows on a bound without a price, the potentials of its ends differ by its cost.
pub fn flow_is_tight()
    ensures { FlowIsTight }
{}

/// A negative cycle of bounds without a price is a blocked cycle of the bounds with half its numbers.
pub fn negative_cycle_is_blocked()
    ensures { NegativeCycleIsBlocked }
{}
