//! How many units of flow may still be moved.
ghost use Rattle.std.specs.Prelude.{◌≡◌, ◌≤◌, ◌<◌, ◌+◌, ◌*◌, ◌^◌, pos, ◌+ℤ◌, ◌-ℤ◌, ◌≤ℤ◌, get_or, length, sum, unsigned_abs};
ghost use Rattle.flow_core.specs.Layout.{arcs_of, capacity_numbered};
ghost use Rattle.flow_core.specs.State.{IsNetwork};
ghost use Rattle.path_flow.specs.Flow.{excess_units, most_units, positive_size, units_left};

use flow_core::Network;

/// How many units more may be moved than stand at readings, in excess or deficit.
pub(crate) fn spare_units(net: &Network, budget: u64) -> i64
    requires network { IsNetwork net.now }
    requires few { units_left net.now ≤ 2 * most_units net.now.network }
    requires budget { budget ≤ most_units net.now.network }
    ensures { result ≡ pos budget -ℤ pos (units_left net.now) }
{
    less(budget, units_at_readings(net))
}

/// The weights and the prices together: the most units that may be moved, so that bounds without a price never are full.
pub(crate) fn most_units(net: &Network) -> u64
    requires network { IsNetwork net.now }
    ensures { result ≡ most_units net.now.network }
{
    sum_of_weights(net) + sum_of_prices(net)
}

/// The excesses of all nodes together, without the deficits.
pub(crate) fn excess_units(net: &Network) -> u64
    requires network { IsNetwork net.now }
    requires few { excess_units net.now ≤ most_units net.now.network }
    ensures { result ≡ excess_units net.now }
{
    let mut units = 0;
    for node in 0..net.nodes() {
        units += positive_size(net.excess(node));
    }
    units
}

/// A number, or 0 where it is less.
fn positive_size(number: i64) -> u64
    ensures { result ≡ positive_size number }
{
    if number > 0 { number as u64 } else { 0 }
}

/// The difference of two numbers of units.
fn less(units: u64, others: u64) -> i64
    requires units { units ≤ 2 ^ 40 }
    requires others { others ≤ 2 ^ 40 }
    ensures { result ≡ pos units -ℤ pos others }
{
    units as i64 - others as i64
}

/// The sum of all prices.
fn sum_of_prices(net: &Network) -> u64
    requires network { IsNetwork net.now }
    ensures { result ≡ sum net.now.network.prices }
{
    let mut sum = 0;
    for bound in 0..net.bounds() {
        sum += price(net, bound);
    }
    sum
}

/// The sum of all weights.
fn sum_of_weights(net: &Network) -> u64
    requires network { IsNetwork net.now }
    ensures { result ≡ sum net.now.network.weights }
{
    let mut sum = 0;
    for reading in 0..net.nodes() - 1 {
        sum += weight(net, reading);
    }
    sum
}

/// The price of a bound, 0 for none.
fn price(net: &Network, bound: u32) -> u64
    requires network { IsNetwork net.now }
    requires bound { bound < length net.now.network.bounds }
    ensures { result ≡ get_or net.now.network.prices bound 1 }
{
    if net.is_unpriced(bound) {
        0
    } else {
        capacity(net, bound)
    }
}

/// The weight of a reading.
fn weight(net: &Network, reading: u32) -> u64
    requires network { IsNetwork net.now }
    requires reading { reading < length net.now.network.values }
    ensures { result ≡ get_or net.now.network.weights reading 0 }
{
    capacity(net, net.bounds() + 2 * reading)
}

/// The capacity of an arc.
fn capacity(net: &Network, arc: u32) -> u64
    requires network { IsNetwork net.now }
    requires arc { arc < length (arcs_of net.now.network) }
    ensures { result ≡ capacity_numbered net.now.network arc }
{
    whole(net.flow(arc), net.residual(arc, false))
}

/// What two numbers add up to.
fn whole(number: i64, other: i64) -> u64
    requires low { pos 0 ≤ℤ (number +ℤ other) }
    requires high { (number +ℤ other) ≤ℤ pos (2 ^ 40) }
    ensures { pos result ≡ number +ℤ other }
{
    (i128::from(number) + i128::from(other)) as u64
}

/// The sum of the sizes of the excesses of all readings.
pub(crate) fn units_at_readings(net: &Network) -> u64
    requires network { IsNetwork net.now }
    requires few { units_left net.now ≤ 2 * most_units net.now.network }
    ensures { result ≡ units_left net.now }
{
    let mut units = 0;
    for reading in 0..net.nodes() - 1 {
        units += net.excess(reading + 1).unsigned_abs();
    }
    units
}

/// A number without its sign.
pub(crate) fn size(number: i64) -> i64
    requires { unsigned_abs number < 2 ^ 62 }
    ensures { result ≡ pos (unsigned_abs number) }
{
    if number < 0 { 0 - number } else { number }
}
