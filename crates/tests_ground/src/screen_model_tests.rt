//! The lists of the model, and its laws.
use screen_model::{
    Bound, BoundList, BoundName, End, FlowItem, FlowList, NameList, Place, Places, Series, Side,
    best_costs_least, best_over_parts, blocked_forbids, costs_over_parts, cycles_over_parts,
    flows_extend, flows_over_parts, items_over_parts, items_tell_flows, items_within_prices,
    names_over_parts, names_tell_bounds, prices_by_bound, prices_keep_bounds, sums_over_items,
    weak_duality, zero_prices,
};
use sequence::Sequence;
use std::test::Fail;

/// Laws can be called from programs as they are from proofs.
fn call_laws() {
    weak_duality();
    best_costs_least();
    blocked_forbids();
    items_tell_flows();
    sums_over_items();
    names_tell_bounds();
    flows_extend();
    flows_over_parts();
    cycles_over_parts();
    items_over_parts();
    names_over_parts();
    costs_over_parts();
    best_over_parts();
    prices_keep_bounds();
    prices_by_bound();
    zero_prices();
    items_within_prices();
}

#[test]
fn lists_and_laws(rt: HostRuntime) -> Result<(), Fail> {
    let mut places: Places = Sequence::new(rt.alloc());
    for row in 1..5u32 {
        places.push(Place { row, col: 2 })?;
    }
    let series: Series = Sequence::from_slice(rt.alloc(), &[10, 11, 12, 13i64])?;
    let name = BoundName {
        rule: 1,
        from_row: 2,
        to_row: 3,
        col: 2,
        side: Side::Up,
    };
    let rise = Bound {
        name,
        first: End::At(Place { row: 2, col: 2 }),
        second: End::At(Place { row: 3, col: 2 }),
        limit: 1,
    };
    let mut bounds: BoundList = Sequence::new(rt.alloc());
    bounds.push(rise)?;
    let mut flow: FlowList = Sequence::new(rt.alloc());
    flow.push(FlowItem { name, amount: 1 })?;
    let mut names: NameList = Sequence::new(rt.alloc());
    names.push(name)?;
    assert_eq!(rt; places.get(2), Some(&Place { row: 3, col: 2 }));
    assert_eq!(rt; series.as_slice(), [10, 11, 12, 13].as_slice());
    assert_eq!(rt; bounds.as_slice(), [rise].as_slice());
    assert_eq!(rt; flow.get(0), Some(&FlowItem { name, amount: 1 }));
    assert_eq!(rt; names.as_slice(), [name].as_slice());
    call_laws();
    Ok(())
}
