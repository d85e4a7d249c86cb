//! The cycle that a solver found, by the names of its bounds.
ghost use Rattle.std.specs.Prelude.{◌≡◌, [], ◌++◌, IfOk, OnOk};
ghost use Rattle.least_cost.specs.Cycle.{names_at, names_on};

use neg_cycle::Room;
use screen_model::{BoundList, NameList};
use std::alloc::AllocError;

/// The names of the bounds of the cycle in the room, in the list that is handed in. The arc of bound k has the number 2 * k.
pub(crate) fn cycle_in(
    empty: NameList,
    bounds: &BoundList,
    room: &Room,
) -> Result<NameList, AllocError>
    requires { empty ≡ [] }
    ensures { IfOk result (λ names. names ≡ names_on bounds.now room.now.cycle) }
{
    let mut names = empty;
    for place in 0..room.cycle_len() {
        let number = room.cycle_arc(place).unwrap();
        push_name(&mut names, bounds, number / 2)?;
    }
    Ok(names)
}

/// Adds the name of a bound.
fn push_name(names: &mut NameList, bounds: &BoundList, number: u32) -> Result<(), AllocError>
    ensures { OnOk result (names.new ≡ names.old ++ names_at bounds.now number) }
{
    if let Some(bound) = bounds.get(number as usize) {
        names.push(bound.name)?;
    }
    Ok(())
}
