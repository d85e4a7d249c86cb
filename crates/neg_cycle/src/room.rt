//! The room in which distances are settled.
ghost use Rattle.std.specs.Prelude.{◌≡◌, ◌<◌, ◌≤◌, ◌*◌, ◌^◌, [], pos, length, replicate, get_or, slice_get, slice_set, unsigned_abs, IfOk};
ghost use Rattle.neg_cycle.specs.Distances.{Found};

use crate::labels::Labels;
use std::alloc::{AllocError, Global};
use std::marker::Model;

/// A distance for each node, and a cycle of arcs where one was found.
///
/// All memory is taken when the room is made: 44 bytes for each node.
#[derive(Drop)]
pub struct Room {
    pub(crate) labels: Labels,
    pub(crate) path: Vec<u32>,
    pub(crate) cycle: Vec<u32>,
    pub(crate) cycle_len: u32,
}

impl Model for Room {
    ghost use Rattle.std.specs.Prelude.{length, take};
    ghost use Rattle.neg_cycle.specs.Distances.{Found};
    ghost use Rattle.neg_cycle.specs.Labels.{IsRoom};

    ghost Value = { Found };

    ghost view = { λ r. record { distances = r.labels.distances.items; cycle = take r.cycle_len r.cycle.items } };

    ghost invariant = { λ r. IsRoom (length r.labels.distances.items) (length r.labels.parents.items) (length r.labels.ranks.items) (length r.path.items) (length r.cycle.items) r.cycle_len };
}

impl Room {
    /// Takes the room for so many nodes. All distances are 0 at first, and there is no cycle.
    pub fn for_nodes(alloc: Global, nodes: u32) -> Result<Room, AllocError>
        ensures { IfOk result (λ room. room ≡ record { distances = replicate nodes (pos 0); cycle = [] }) }
    {
        let nodes = nodes as usize;
        Ok(Room {
            labels: Labels {
                distances: vec![in alloc; 0; nodes]?,
                parents: vec![in alloc; None; nodes]?,
                ranks: vec![in alloc; 0; nodes]?,
            },
            path: vec![in alloc; 0; nodes]?,
            cycle: vec![in alloc; 0; nodes]?,
            cycle_len: 0,
        })
    }

    /// Lets a node start at this distance. All others stay.
    pub fn start(&mut self, node: u32, value: i64)
        requires node { node < length self.old.distances }
        requires size { unsigned_abs value ≤ 4 * 10 ^ 15 }
        ensures distances { self.new.distances ≡ slice_set self.old.distances node value }
        ensures cycle { self.new.cycle ≡ self.old.cycle }
    {
        self.labels.distances[node as usize] = i128::from(value);
    }

    /// Lets every node start at this distance.
    pub fn start_all(&mut self, value: i64)
        requires { unsigned_abs value ≤ 4 * 10 ^ 15 }
        ensures distances { self.new.distances ≡ replicate (length self.old.distances) value }
        ensures cycle { self.new.cycle ≡ self.old.cycle }
    {
        self.labels.distances.fill(i128::from(value));
    }

    /// The distance of a node.
    pub fn distance(&self, node: u32) -> i128
        requires { node < length self.now.distances }
        ensures { result ≡ get_or self.now.distances node (pos 0) }
    {
        self.labels.distances[node as usize]
    }

    /// The number of arcs of the cycle that was found, and 0 where none was.
    pub fn cycle_len(&self) -> u32
        ensures { result ≡ length self.now.cycle }
    {
        self.cycle_len
    }

    /// The number of an arc of the cycle, by its place in it, counted from 0.
    pub fn cycle_arc(&self, i: u32) -> Option<u32>
        ensures { result ≡ slice_get self.now.cycle i }
    {
        if i < self.cycle_len {
            self.cycle.get(i as usize).copied()
        } else {
            None
        }
    }
}
