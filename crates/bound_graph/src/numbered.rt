//! The arcs of a graph by their numbers, each of them stored once.
ghost use Rattle.std.specs.Prelude.{◌≡◌, ◌<◌, ◌≤◌, ◌*◌, ◌^◌, length, map, Some, get_or, unsigned_abs};
ghost use Rattle.bound_graph.specs.Arcs.{arc_at, no_arc};
ghost use Rattle.bound_graph.specs.Numbered.{HaveCosts};
ghost use Rattle.bound_graph.specs.Reverses.{turned, with_reverses};

use crate::arc::{Arc, ArcTable};
use std::marker::Model;

/// The arcs of a table by their numbers: as they stand in it, or both ways.
///
/// Both ways, arc k of the table has the number 2 * k, and its reverse, which is reckoned and not stored, 2 * k + 1.
#[derive(Drop)]
pub struct NumberedArcs {
    table: Vec<Arc>,
    /// Whether reverses have numbers as well.
    both_ways: bool,
}

impl Model for NumberedArcs {
    ghost use Rattle.std.specs.Prelude.{List};
    ghost use Rattle.bound_graph.specs.declared.arc.Arc.{Arc};
    ghost use Rattle.bound_graph.specs.Numbered.{numbered, AreNumbered};

    ghost Value = { List Arc };

    ghost view = { λ arcs. numbered arcs.both_ways arcs.table.items };

    ghost invariant = { λ arcs. AreNumbered arcs.both_ways arcs.table.items };
}

impl NumberedArcs {
    /// The arcs of a table, each under its place there.
    pub fn one_way(table: ArcTable) -> NumberedArcs
        requires costs { HaveCosts table }
        requires few { length table < 2 ^ 32 }
        ensures { result ≡ table }
    {
        NumberedArcs {
            table: table.into_vec(),
            both_ways: false,
        }
    }

    /// The arcs of a table, each followed by its reverse.
    pub fn both_ways(table: ArcTable) -> NumberedArcs
        requires costs { HaveCosts table }
        requires few { 2 * length table < 2 ^ 32 }
        ensures { result ≡ with_reverses table }
    {
        NumberedArcs {
            table: table.into_vec(),
            both_ways: true,
        }
    }

    /// How many numbers there are.
    #[inline]
    pub fn len(&self) -> u32
        ensures { result ≡ length self.now }
    {
        let stored = self.table.len() as u32;
        if self.both_ways { 2 * stored } else { stored }
    }

    /// The arc of a number, and `None` where there is none.
    #[inline]
    pub fn get(&self, number: u32) -> Option<Arc>
        ensures { result ≡ arc_at (map Some self.now) number }
    {
        if self.both_ways {
            get_both_ways(self.table.as_slice(), number)
        } else {
            self.table.get(number as usize).copied()
        }
    }

    /// The node that the arc of a number leaves.
    #[inline]
    pub fn tail(&self, number: u32) -> u32
        requires { number < length self.now }
        ensures { result ≡ (get_or self.now number no_arc).tail }
    {
        if self.both_ways {
            let arc = self.table[number as usize / 2];
            turn(arc, number % 2 == 1).tail
        } else {
            self.table[number as usize].tail
        }
    }
}

/// The arc of a number, where each arc of a table is followed by its reverse.
#[inline]
fn get_both_ways(table: &[Arc], number: u32) -> Option<Arc>
    requires { HaveCosts table.now }
    ensures { result ≡ arc_at (map Some (with_reverses table.now)) number }
{
    match table.get(number as usize / 2) {
        Some(arc) => Some(turn(*arc, number % 2 == 1)),
        None => None,
    }
}

/// The arc or, with `back`, its reverse.
#[inline]
fn turn(arc: Arc, back: bool) -> Arc
    requires { unsigned_abs arc.cost ≤ 4 * 10 ^ 15 }
    ensures { result ≡ turned back arc }
{
    if back {
        Arc {
            tail: arc.head,
            head: arc.tail,
            cost: 0 - arc.cost,
        }
    } else {
        arc
    }
}
