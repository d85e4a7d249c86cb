//! Laws of repair by bounds: the duality of linear programs, for series of whole numbers; items, names and prices; and
//! what holds of a part of a list of bounds and of the whole list.
ghost use Rattle.screen_model.specs.Best.{WeakDuality, BestCostsLeast, BlockedForbids};
ghost use Rattle.screen_model.specs.Names.{ItemsTellFlows, SumsOverItems, NamesTellBounds};
ghost use Rattle.screen_model.specs.Parts.{FlowsExtend, FlowsOverParts, CyclesOverParts, ItemsOverParts, NamesOverParts, CostsOverParts, BestOverParts};
ghost use Rattle.screen_model.specs.Prices.{PricesKeepBounds, PricesByBound, ZeroPrices, ItemsWithinPrices};

/// Weak duality: a series that obeys costs at least the dual value of every admissible flow.
pub fn weak_duality()
    ensures { WeakDuality }
{}

/// No series that obeys costs less than a series that obeys and whose cost is the dual value of an admissible flow.
pub fn best_costs_least()
    ensures { BestCostsLeast }
{}

/// Where a cycle of bounds is blocked, no series obeys.
pub fn blocked_forbids()
    ensures { BlockedForbids }
{}

/// Each flow over a part of the bounds is, with 0 on the bounds that are left out, a flow over all of them.
pub fn flows_extend()
    ensures { FlowsExtend }
{}

/// A flow that is admissible over a part of the bounds is so over all of them, and has the same dual value.
pub fn flows_over_parts()
    ensures { FlowsOverParts }
{}

/// A cycle that is blocked among a part of the bounds is blocked among all of them.
pub fn cycles_over_parts()
    ensures { CyclesOverParts }
{}

/// Where no two bounds share a name, the items of a flow tell that flow.
pub fn items_tell_flows()
    ensures { ItemsTellFlows }
{}

/// Where no two bounds share a name, a sum over items, each at the bound of its name, is the same sum over their flow.
pub fn sums_over_items()
    ensures { SumsOverItems }
{}

/// Where no two bounds share a name, the names of some of them tell these bounds.
pub fn names_tell_bounds()
    ensures { NamesTellBounds }
{}

/// Where no two bounds share a name, items that tell a flow over a part of the bounds tell the same one over all of them.
pub fn items_over_parts()
    ensures { ItemsOverParts }
{}

/// Where no two bounds share a name, names of bounds of a part are names of the same bounds among all of them.
pub fn names_over_parts()
    ensures { NamesOverParts }
{}

/// Where a part has all the bounds that have a price, a series costs over the part what it costs over all bounds.
pub fn costs_over_parts()
    ensures { CostsOverParts }
{}

/// Where a part has all the bounds that have a price, a series that is best over the part and obeys all bounds is best
/// over all.
pub fn best_over_parts()
    ensures { BestOverParts }
{}

/// Bounds that are joined with prices are what they were, and so are the prices where there is one for each bound.
pub fn prices_keep_bounds()
    ensures { PricesKeepBounds }
{}

/// Prices that are given by the bounds stand each at its bound.
pub fn prices_by_bound()
    ensures { PricesByBound }
{}

/// Bounds that are joined with prices of 0 have no price.
pub fn zero_prices()
    ensures { ZeroPrices }
{}

/// Where no two bounds share a name, the bounds can carry the flow that items tell exactly where each item's bound can
/// carry its amount.
pub fn items_within_prices()
    ensures { ItemsWithinPrices }
{}
