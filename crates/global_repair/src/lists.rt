//! The prices of bounds, as a list.
ghost use Rattle.std.specs.Prelude.{◌≡◌, IfOk};
ghost use Rattle.global_repair.specs.Lists.{prices_of};

use bound_maker::price_of;
use rule_file::Rules;
use screen_model::BoundList;
use std::alloc::{AllocError, Global};

/// The price of each bound, 0 where its rule has none.
pub(crate) fn prices(
    alloc: Global,
    rules: &Rules,
    bounds: &BoundList,
) -> Result<Vec<u32>, AllocError>
    ensures { IfOk result (λ list. list.items ≡ prices_of rules.now bounds.now) }
{
    let mut list = Vec::with_capacity(alloc, bounds.len())?;
    for bound in bounds.as_slice() {
        list.push(price_of(rules, bound.name.rule))?;
    }
    Ok(list)
}
