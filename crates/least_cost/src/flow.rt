//! The flow on the bounds of a network, as items.
ghost use Rattle.std.specs.Prelude.{◌≡◌, [], ◌++◌, length, IfOk, OnOk};
ghost use Rattle.screen_model.specs.Obeys.{with_prices};
ghost use Rattle.screen_model.specs.Names.{items_of, with_item};
ghost use Rattle.flow_core.specs.State.{IsNetwork, bound_flows};

use flow_core::Network;
use screen_model::{BoundList, BoundName, FlowItem, FlowList};
use std::alloc::AllocError;

/// An item for each bound on which something flows, in the order of the bounds, in the list that is handed in.
pub(crate) fn flow_in(
    empty: FlowList,
    bounds: &BoundList,
    prices: &[u32],
    net: &Network,
) -> Result<FlowList, AllocError>
    requires empty { empty ≡ [] }
    requires network { IsNetwork net.now }
    requires bounds { length bounds.now ≡ length net.now.network.bounds }
    ensures { IfOk result (λ items. items ≡ items_of (with_prices bounds.now prices.now) (bound_flows net.now)) }
{
    let mut items = empty;
    for (number, bound) in bounds.as_slice().iter().enumerate() {
        push_item(&mut items, bound.name, net.flow(number as u32))?;
    }
    Ok(items)
}

/// Adds an item, if something flows.
fn push_item(items: &mut FlowList, name: BoundName, amount: i64) -> Result<(), AllocError>
    ensures { OnOk result (items.new ≡ items.old ++ with_item name amount []) }
{
    if amount != 0 {
        items.push(FlowItem { name, amount })?;
    }
    Ok(())
}
