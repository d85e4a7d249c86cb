//! Keys that come out in their order, and a heap that is cleared.
ghost use Rattle.std.specs.Prelude.{◌≡◌, ◌<◌, ◌^◌, length};

use node_heap::NodeHeap;
use std::alloc::{AllocError, Global};
use std::process::Abort;
use std::test::Fail;

/// 2^126, far beyond every sum of costs.
const FAR: i128 = 1 << 126;

#[test]
fn nodes_come_out_by_key(rt: HostRuntime) -> Result<(), Fail> {
    let mut heap = NodeHeap::for_nodes(rt.alloc(), 4)?;
    heap.lower(3, 7);
    heap.lower(1, 9);
    heap.lower(1, 2);
    assert_eq!(rt; heap.pop_least(), Some((1, 2)));
    assert_eq!(rt; heap.pop_least(), Some((3, 7)));
    assert_eq!(rt; heap.pop_least(), None);
    Ok(())
}

#[test]
fn a_heap_of_no_nodes_is_empty(rt: HostRuntime) -> Result<(), Fail> {
    let mut heap = NodeHeap::for_nodes(rt.alloc(), 0)?;
    assert_eq!(rt; heap.pop_least(), None);
    heap.clear();
    assert_eq!(rt; heap.pop_least(), None);
    Ok(())
}

#[test]
fn keys_may_be_far_apart_or_equal(rt: HostRuntime) -> Result<(), Fail> {
    let mut heap = NodeHeap::for_nodes(rt.alloc(), 3)?;
    heap.lower(0, FAR);
    heap.lower(1, -FAR);
    heap.lower(2, FAR);
    assert_eq!(rt; heap.pop_least(), Some((1, -FAR)));
    heap.lower(2, -FAR);
    heap.lower(2, -FAR);
    assert_eq!(rt; heap.pop_least(), Some((2, -FAR)));
    heap.lower(1, i128::MIN);
    heap.lower(2, i128::MAX);
    assert_eq!(rt; heap.pop_least(), Some((1, i128::MIN)));
    assert_eq!(rt; heap.pop_least(), Some((0, FAR)));
    assert_eq!(rt; heap.pop_least(), Some((2, i128::MAX)));
    assert_eq!(rt; heap.pop_least(), None);
    Ok(())
}

/// The least key of a table, by a look at every one.
fn least_of(table: &[Option<i128>]) -> Option<i128> {
    let mut least = None;
    for entry in table {
        if let Some(key) = *entry {
            least = match least {
                Some(before) if before <= key => Some(before),
                _ => Some(key),
            };
        }
    }
    least
}

/// Lowers the key of a node in a heap and in a table, or leaves it where it is not above this one.
fn lower_both(heap: &mut NodeHeap, table: &mut Vec<Option<i128>>, node: u32, key: i128)
    requires same { heap.old ≡ table.old.items }
    requires node { node < length table.old.items }
    ensures same { heap.new ≡ table.new.items }
    ensures size { length table.new.items ≡ length table.old.items }
{
    if let Some(before) = table[node as usize] {
        if before < key {
            return;
        }
    }
    heap.lower(node, key);
    table[node as usize] = Some(key);
}

/// Takes a node of least key out of a heap and out of a table.
fn pop_both(rt: &impl Abort, heap: &mut NodeHeap, table: &mut Vec<Option<i128>>)
    requires same { heap.old ≡ table.old.items }
    ensures same { heap.new ≡ table.new.items }
    ensures size { length table.new.items ≡ length table.old.items }
{
    let least = least_of(table);
    match heap.pop_least() {
        Some((node, key)) => {
            assert!(rt; (node as usize) < table.len());
            assert_eq!(rt; least, Some(key));
            assert_eq!(rt; table[node as usize], Some(key));
            table[node as usize] = None;
        }
        None => assert_eq!(rt; least, None),
    }
}

/// Does to both what a draw says.
fn turn(rt: &impl Abort, heap: &mut NodeHeap, table: &mut Vec<Option<i128>>, draw: u32)
    requires same { heap.old ≡ table.old.items }
    requires some { 0 < length table.old.items }
    requires few { length table.old.items < 2 ^ 32 }
    ensures same { heap.new ≡ table.new.items }
    ensures size { length table.new.items ≡ length table.old.items }
{
    let node = draw / 512 % table.len() as u32;
    match draw % 512 {
        0 => {
            heap.clear();
            table.fill(None);
        }
        1..180 => pop_both(rt, heap, table),
        kind => lower_both(heap, table, node, i128::from(kind % 64) * (FAR / 64)),
    }
}

/// Plays many turns on a heap and a table, and then empties both.
fn play(rt: &impl Abort, alloc: Global, nodes: u32, seed: u64) -> Result<(), AllocError>
    requires { 0 < nodes }
{
    let mut heap = NodeHeap::for_nodes(alloc, nodes)?;
    let mut table = vec![in alloc; None; nodes as usize]?;
    let mut state = seed;
    for _ in 0..3_000 {
        state = state
            .wrapping_mul(6_364_136_223_846_793_005)
            .wrapping_add(1_442_695_040_888_963_407);
        turn(rt, &mut heap, &mut table, (state >> 40) as u32);
    }
    for _ in 0..=nodes {
        pop_both(rt, &mut heap, &mut table);
    }
    assert_eq!(rt; least_of(table.as_slice()), None);
    Ok(())
}

#[test]
fn agrees_with_a_search_of_a_table(rt: HostRuntime) -> Result<(), Fail> {
    for nodes in 1..40 {
        play(&rt, rt.alloc(), nodes, u64::from(nodes))?;
    }
    Ok(())
}
