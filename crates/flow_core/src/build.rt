//! The arcs of a network.
ghost use Rattle.std.specs.Prelude.{◌≡◌, ◌≤◌, ◌++◌, length, unsigned_abs, IfOk, OnOk};
ghost use Rattle.std.specs.List.{AllByRecursion};
ghost use Rattle.words.specs.Lists.{Distinct};
ghost use Rattle.screen_model.specs.Obeys.{HasEnds};
ghost use Rattle.bound_graph.specs.Graph.{arcs_of_bounds};
ghost use Rattle.flow_core.specs.Layout.{reading_arcs};
ghost use Rattle.screen_model.specs.declared.limits.TheConstants.{MOST_READINGS};
ghost use Rattle.flow_core.specs.declared.limits.TheConstants.{MOST_BOUNDS, MOST_VALUE};

use bound_graph::{Arc, ArcTable, arcs_of_bounds};
use screen_model::{BoundList, Places};
use std::alloc::{AllocError, Global};

/// The arcs of bounds, and after them two for each reading, in a table with room for just these.
pub(crate) fn all_arcs(
    alloc: Global,
    values: &[i64],
    bounds: &BoundList,
    places: &Places,
) -> Result<ArcTable, AllocError>
    requires distinct { Distinct places.now }
    requires valued { length values.now ≡ length places.now }
    requires ends { AllByRecursion (HasEnds places.now) bounds.now }
    requires few_bounds { length bounds.now ≤ MOST_BOUNDS }
    requires few_readings { length places.now ≤ MOST_READINGS }
    requires values { AllByRecursion (λ value. unsigned_abs value ≤ MOST_VALUE) values.now }
    ensures { IfOk result (λ table. table ≡ arcs_of_bounds places.now bounds.now ++ reading_arcs 1 values.now) }
{
    let mut table = arcs_of_bounds(alloc, places, bounds, 2 * values.len())?;
    push_readings(&mut table, values)?;
    Ok(table)
}

/// Adds the two arcs of each reading.
fn push_readings(table: &mut ArcTable, values: &[i64]) -> Result<(), AllocError>
    requires few { length values.now ≤ MOST_READINGS }
    requires values { AllByRecursion (λ value. unsigned_abs value ≤ MOST_VALUE) values.now }
    ensures { OnOk result (table.new ≡ table.old ++ reading_arcs 1 values.now) }
{
    for (reading, value) in values.iter().enumerate() {
        let node = reading as u32 + 1;
        table.push(Arc {
            tail: 0,
            head: node,
            cost: *value,
        })?;
        table.push(Arc {
            tail: node,
            head: 0,
            cost: 0 - *value,
        })?;
    }
    Ok(())
}
