//! The arcs of a network both ways, of which some are there, for searches and for `settle`.
ghost use Rattle.std.specs.Prelude.{◌≡◌, ◌/◌, ◌%◌, ◌<◌, ◌==◌, true, length, IfSome};
ghost use Rattle.bound_graph.specs.Arcs.{arc_at, IsArc};
ghost use Rattle.flow_core.specs.Layout.{nodes_of};
ghost use Rattle.flow_core.specs.Views.{is_bare, residual_arcs, tight_arcs, bare_arcs};

use crate::network::Network;
use crate::numbers::is_above_zero;
use bound_graph::{Arc, ArcList};

/// The residual arcs of a network: those arcs and reverses on which more can flow.
///
/// Arc k has the number 2 * k, and its reverse, for the cost negated, 2 * k + 1; so it is in the other two views as well.
#[derive(Drop)]
pub struct Residual<'a> {
    /// The network.
    pub net: &'a Network,
}

/// The residual arcs of a network, and all bounds without a price, also where no more can flow on them.
#[derive(Drop)]
pub struct Tight<'a> {
    /// The network.
    pub net: &'a Network,
}

/// The bounds of a network without a price, and nothing else.
#[derive(Drop)]
pub struct Bare<'a> {
    /// The network.
    pub net: &'a Network,
}

impl<'a> ArcList for Residual<'a> {
    ghost node_count = { λ view. nodes_of view.net.now.network };

    ghost listed = { λ view. residual_arcs view.net.now };

    fn nodes(&self) -> u32 {
        self.net.nodes()
    }

    fn arcs(&self) -> u32 {
        self.net.arcs_both_ways()
    }

    fn arc(&self, i: u32) -> Option<Arc> {
        residual_arc(self.net, i)
    }
}

impl<'a> ArcList for Tight<'a> {
    ghost node_count = { λ view. nodes_of view.net.now.network };

    ghost listed = { λ view. tight_arcs view.net.now };

    fn nodes(&self) -> u32 {
        self.net.nodes()
    }

    fn arcs(&self) -> u32 {
        self.net.arcs_both_ways()
    }

    fn arc(&self, i: u32) -> Option<Arc> {
        if is_bare(self.net, i) {
            return self.net.both_ways(i);
        }
        residual_arc(self.net, i)
    }
}

impl<'a> ArcList for Bare<'a> {
    ghost node_count = { λ view. nodes_of view.net.now.network };

    ghost listed = { λ view. bare_arcs view.net.now };

    fn nodes(&self) -> u32 {
        self.net.nodes()
    }

    fn arcs(&self) -> u32 {
        self.net.bounds_both_ways()
    }

    fn arc(&self, i: u32) -> Option<Arc> {
        if is_bare(self.net, i) {
            self.net.both_ways(i)
        } else {
            None
        }
    }
}

/// The arc or reverse of a number, if more can flow on it.
fn residual_arc(net: &Network, number: u32) -> Option<Arc>
    ensures found { result ≡ arc_at (residual_arcs net.now) number }
    ensures valid { IfSome result (IsArc (nodes_of net.now.network)) }
{
    let arc = number / 2;
    if arc >= net.arcs() {
        return None;
    }
    if is_above_zero(net.residual(arc, number % 2 == 1)) {
        net.both_ways(number)
    } else {
        None
    }
}

/// Whether the number is that of a bound without a price, and not of a reverse.
fn is_bare(net: &Network, number: u32) -> bool
    ensures value { result ≡ is_bare net.now (number / 2) (number % 2 == 1) }
    ensures bound { result ≡ true → number / 2 < length net.now.network.bounds }
{
    number % 2 != 1 && net.is_unpriced(number / 2)
}
