//! How long the greatest distances of a long chain take.
ghost use Rattle.std.specs.Prelude.{◌≡◌, length};

use crate::chain::{chain, start_all};
use bound_graph::Graph;
use neg_cycle::{Room, Settled, settle};
use std::io;
use std::rt::Runtime;
use std::time::Instant;

const NODES: u32 = 400_000;

/// Prints the picoseconds that `neg_cycle::settle` takes for each arc of a chain of 400,000 nodes, and the sum
/// of the distances, or the number of arcs of the cycle where the chain is blocked.
pub fn measure<R: Runtime + AllocGlobal>(rt: &R, blocked: bool) -> io::Result<()> {
    let arcs = chain(rt.alloc(), NODES, blocked)?;
    let count = arcs.len();
    if count == 0 || count > 10_000_000 {
        return Ok(());
    }
    let graph = Graph::from_arcs(rt.alloc(), NODES, arcs)?;
    let mut room = Room::for_nodes(rt.alloc(), NODES)?;
    start_all(&mut room, NODES);
    let began = Instant::now(rt)?;
    let settled = settle(&graph, &mut room);
    let nanos = began.elapsed(rt)?.as_nanos();
    let answer = match settled {
        Settled::Greatest => sum_of(&room, NODES),
        Settled::Cycle => i128::from(room.cycle_len()),
    };
    println!(rt; "{} {answer}", nanos.saturating_mul(1000) / count as u128)
}

/// The sum of the distances.
fn sum_of(room: &Room, nodes: u32) -> i128
    requires { length room.now.distances ≡ nodes }
{
    let mut sum: i128 = 0;
    for node in 0..nodes {
        sum = sum.wrapping_add(room.distance(node));
    }
    sum
}
