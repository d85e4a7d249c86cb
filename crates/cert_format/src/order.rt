//! The strict orders of set lines and flow lines.
ghost use Rattle.std.specs.Prelude.{◌≡◌, length};
ghost use Rattle.cert_format.specs.Draft.{follows};
ghost use Rattle.screen_model.specs.Order.{is_before, item_key, name_key, place_key};
ghost use Rattle.cert_format.specs.Order.{set_key};

use crate::cert::SetLine;
use screen_model::{BoundName, FlowItem, Place, Side};

/// Whether the first list has the lesser number where the two differ first. They are of one length.
fn is_before(first: &[u32], second: &[u32]) -> bool
    requires { length first.now ≡ length second.now }
    ensures { result ≡ is_before first.now second.now }
{
    for (one, other) in first.iter().zip(second) {
        if one != other {
            return one < other;
        }
    }
    false
}

/// The numbers by which places are ordered.
fn place_key(place: Place) -> [u32; 2]
    ensures { result ≡ place_key place }
{
    [place.row, place.col]
}

/// The numbers by which names are ordered.
fn name_key(name: BoundName) -> [u32; 5]
    ensures { result ≡ name_key name }
{
    let side = match name.side {
        Side::Up => 0,
        Side::Down => 1,
    };
    [name.rule, name.from_row, name.to_row, name.col, side]
}

/// Whether the line may come after these: it is the first, or its place comes after that of the last one.
pub(crate) fn set_follows(sets: &[SetLine], line: SetLine) -> bool
    ensures { result ≡ follows set_key sets.now line }
{
    match sets.last() {
        Some(last) => is_before(&place_key(last.place), &place_key(line.place)),
        None => true,
    }
}

/// Whether the item may come after these: it is the first, or its name comes after that of the last one.
pub(crate) fn item_follows(flow: &[FlowItem], item: FlowItem) -> bool
    ensures { result ≡ follows item_key flow.now item }
{
    match flow.last() {
        Some(last) => is_before(&name_key(last.name), &name_key(item.name)),
        None => true,
    }
}
