//! What the bounds of a pair say together.
ghost use Rattle.pair_bounds.specs.Laws.{RisesAreLimited};

/// The bounds on both sides of a rise are kept exactly where the rise lies between the two numbers of the rule: for a swing
/// from the opposite of the greatest difference to that, for a drift from the least to the greatest whole step, and for a
/// between rule from its least to its greatest difference.
pub fn rises_are_limited()
    ensures { RisesAreLimited }
{}
