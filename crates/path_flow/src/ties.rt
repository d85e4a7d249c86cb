//! What bounds tell of a reading beside those along its chain.
ghost use Rattle.std.specs.Prelude.{◌≡◌, ◌≤◌, ◌<◌, ◌/◌, length};
ghost use Rattle.flow_core.specs.Layout.{nodes_of};

use crate::links::{FAR, Link, link_of};
use bound_graph::{Arc, ArcList};
use flow_core::Network;
use std::alloc::{AllocError, Global};

/// The most readings that are looked at around one.
const MOST_TIED: usize = 16;

/// A reading of another chain, and by how much its value lies above that of the reading it is tied to, at least and at most.
#[derive(Clone, Copy)]
pub(crate) struct Tied {
    pub(crate) node: u32,
    pub(crate) low: i64,
    pub(crate) high: i64,
}

/// A reading, the range of its value, and the readings that are tied to it and not placed yet.
#[derive(Drop)]
pub(crate) struct Ties {
    /// The reading itself comes first.
    around: Vec<Tied>,
    pub(crate) least: i64,
    pub(crate) most: i64,
}

impl Ties {
    /// Room for the readings around one.
    pub(crate) fn new(alloc: Global) -> Result<Ties, AllocError> {
        Ok(Ties {
            around: Vec::with_capacity(alloc, MOST_TIED)?,
            least: 0,
            most: 0,
        })
    }

    /// The readings that are tied, at places from 1 on.
    pub(crate) fn at(&self, place: usize) -> Option<Tied> {
        match self.around.get(place) {
            Some(tied) => Some(*tied),
            None => None,
        }
    }

    /// How many readings there are with the first one.
    pub(crate) fn len(&self) -> usize {
        self.around.len()
    }

    /// Gathers what is known of a reading: its range, narrowed by the readings of other chains that are placed, and those that
    /// are not, over ties and along their chains.
    pub(crate) fn gather(&mut self, net: &Network, links: &[Link], node: u32) {
        let link = link_of(links, node);
        self.least = link.least;
        self.most = link.most;
        self.around.clear();
        if link.is_tied {
            self.add(Tied {
                node,
                low: 0,
                high: 0,
            });
            for place in 0..MOST_TIED {
                self.go_on(net, links, place);
            }
        }
    }

    /// Adds a reading, if there is room.
    fn add(&mut self, tied: Tied) {
        if self.around.len() < MOST_TIED {
            let _full = self.around.push(tied);
        }
    }

    /// Goes on from the reading at a place.
    fn go_on(&mut self, net: &Network, links: &[Link], place: usize) {
        if let Some(from) = self.at(place) {
            if place > 0 {
                self.follow_link(links, from);
            }
            if link_of(links, from.node).is_tied {
                self.follow_ties(net, links, from);
            }
        }
    }

    /// Adds the next reading of a chain, if it is not tied itself.
    fn follow_link(&mut self, links: &[Link], from: Tied) {
        let link = link_of(links, from.node);
        let next = link_of(links, link.next);
        if link.next != 0 && !next.is_tied && !next.is_placed {
            self.add(Tied {
                node: link.next,
                low: from.low.saturating_add(link.low),
                high: from.high.saturating_add(link.high),
            });
        }
    }

    /// Looks at the readings that a reading is tied to.
    fn follow_ties(&mut self, net: &Network, links: &[Link], from: Tied) {
        if from.node < net.nodes() {
            let seen = self.around.len();
            for number in net.out_arcs(from.node) {
                if *number / 2 < net.bounds() {
                    if let Some(arc) = net.bound_arcs().arc(*number - *number % 2) {
                        self.follow_tie(net, links, from, arc, seen);
                    }
                }
            }
        }
    }

    /// Looks at a bound between a reading and one of another chain. Those from `seen` on are tied to the same reading.
    fn follow_tie(&mut self, net: &Network, links: &[Link], from: Tied, arc: Arc, seen: usize) {
        let tied = if arc.tail == from.node {
            Tied {
                node: arc.head,
                low: 0 - FAR,
                high: from.high.saturating_add(arc.cost),
            }
        } else {
            Tied {
                node: arc.tail,
                low: from.low.saturating_sub(arc.cost),
                high: FAR,
            }
        };
        let link = link_of(links, tied.node);
        if tied.node == 0 || link.first == link_of(links, from.node).first {
            return;
        }
        if link.is_placed {
            self.narrow(net, tied);
        } else if !self.tighten(tied, seen) && !self.has_chain(links, link.first) {
            self.add(tied);
        }
    }

    /// Narrows the range by a reading that is placed.
    fn narrow(&mut self, net: &Network, tied: Tied) {
        if tied.node < net.nodes() {
            let value = net.potential(tied.node);
            self.least = self.least.max(value.saturating_sub(tied.high));
            self.most = self.most.min(value.saturating_sub(tied.low));
        }
    }

    /// Takes two bounds on one reading together. Answers whether there was one before.
    fn tighten(&mut self, tied: Tied, seen: usize) -> bool {
        for place in seen..self.around.len() {
            if self.around[place].node == tied.node {
                let before = self.around[place];
                self.around[place] = Tied {
                    node: tied.node,
                    low: before.low.max(tied.low),
                    high: before.high.min(tied.high),
                };
                return true;
            }
        }
        false
    }

    /// Whether a reading of a chain is there already.
    fn has_chain(&self, links: &[Link], first: u32) -> bool {
        for tied in &self.around {
            if link_of(links, tied.node).first == first {
                return true;
            }
        }
        false
    }
}
