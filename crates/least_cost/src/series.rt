//! The greatest series that respects the tight arcs of a solved network, and its change.
ghost use Rattle.std.specs.Prelude.{◌≡◌, ◌*◌, ◌^◌, ◌≤◌, ◌<◌, [], ◌∷◌, ◌-ℤ◌, pos, length, drop, replicate, unsigned_abs, IfOk};
ghost use Rattle.std.specs.List.{AllByRecursion};
ghost use Rattle.screen_model.specs.declared.limits.TheConstants.{MOST_READINGS};
ghost use Rattle.screen_model.specs.Cost.{weighted_change};
ghost use Rattle.neg_cycle.specs.Distances.{IsGreatest};
ghost use Rattle.flow_core.specs.Layout.{nodes_of};
ghost use Rattle.flow_core.specs.State.{IsNetwork};
ghost use Rattle.flow_core.specs.Solving.{IsSolved};
ghost use Rattle.flow_core.specs.Views.{tight_arcs};
ghost use Rattle.flow_core.specs.declared.limits.TheConstants.{MOST_VALUE};

use flow_core::{MOST_VALUE, Network};
use neg_cycle::{Room, Settled, settle};
use screen_model::Series;
use std::alloc::AllocError;

/// Settles the tight arcs of a solved network, with 0 at node 0 and the greatest value at the others.
pub(crate) fn settle_tight(net: &Network, room: &mut Room)
    requires network { IsNetwork net.now }
    requires solved { IsSolved net.now }
    requires nodes { length room.old.distances ≡ nodes_of net.now.network }
    ensures greatest { IsGreatest (tight_arcs net.now) (pos 0 ∷ replicate (length net.now.network.values) (pos MOST_VALUE)) room.new.distances }
    ensures nodes { length room.new.distances ≡ nodes_of net.now.network }
    ensures small { AllByRecursion (λ distance. unsigned_abs distance ≤ MOST_VALUE) room.new.distances }
{
    room.start_all(MOST_VALUE as i64);
    room.start(0, 0);
    let settled = settle(&net.tight_arcs(), room);
    prove!(settled == Settled::Greatest);
}

/// The distances of the readings' nodes as a series, in the list that is handed in.
pub(crate) fn series_in(empty: Series, nodes: u32, room: &Room) -> Result<Series, AllocError>
    requires empty { empty ≡ [] }
    requires nodes { length room.now.distances ≡ nodes }
    requires some { 1 ≤ nodes }
    requires small { AllByRecursion (λ distance. unsigned_abs distance ≤ MOST_VALUE) room.now.distances }
    ensures { IfOk result (λ series. series ≡ drop 1 room.now.distances) }
{
    let mut series = empty;
    for node in 1..nodes {
        series.push(room.distance(node) as i64)?;
    }
    Ok(series)
}

/// The weighted change of values to those of a series, in units.
pub(crate) fn change(values: &[i64], weights: &[u32], series: &[i64]) -> i128
    requires valued { length values.now ≡ length weights.now }
    requires whole { length series.now ≡ length weights.now }
    requires few { length weights.now ≤ MOST_READINGS }
    ensures { result ≡ pos (weighted_change weights.now values.now series.now) }
{
    let mut change = 0i128;
    for place in 0..weights.len() {
        change += cost(weights[place], values[place], series[place]);
    }
    change
}

/// What it costs to change a value.
fn cost(weight: u32, value: i64, x: i64) -> i128
    ensures value { result ≡ pos (weight * unsigned_abs (x -ℤ value)) }
    ensures size { unsigned_abs result ≤ 2 ^ 96 }
{
    i128::from(weight) * i128::from(x.abs_diff(value))
}
