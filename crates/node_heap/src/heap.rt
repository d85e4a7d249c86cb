//! The heap as a map from nodes to keys.
ghost use Rattle.std.specs.Prelude.{◌≡◌, ◌<◌, ◌↔◌, ◌≤ℤ◌, All, IfOk, IfSome, IsNone, None, Some, get_or, length, replicate, slice_set};
ghost use Rattle.node_heap.specs.Keys.{HasLeast};

use crate::tree::Tree;
use std::alloc::{AllocError, Global};
use std::marker::Model;

/// A priority queue of nodes, which have the numbers below a bound, with a key for each node that is in it.
///
/// Contracts see the list of the nodes' keys, with `None` at a node that is not in the heap.
///
/// All memory is taken when the heap is made: 24 bytes for each node.
#[derive(Drop)]
pub struct NodeHeap {
    tree: Tree,
}

impl Model for NodeHeap {
    ghost use Rattle.std.specs.Prelude.{List, Option, ℤ};
    ghost use Rattle.node_heap.specs.Tree.{IsHeap, keys_of};

    ghost Value = { List (Option ℤ) };

    ghost view = { λ heap. keys_of heap.tree };

    ghost invariant = { λ heap. IsHeap heap.tree };
}

impl NodeHeap {
    /// A heap with no node in it, and with room for the nodes below `nodes`. Fails only where memory runs out.
    pub fn for_nodes(alloc: Global, nodes: u32) -> Result<NodeHeap, AllocError>
        ensures { IfOk result (λ heap. heap ≡ replicate nodes None) }
    {
        Ok(NodeHeap {
            tree: Tree::for_nodes(alloc, nodes)?,
        })
    }

    /// Takes all nodes out, in constant time. Takes no memory.
    pub fn clear(&mut self)
        ensures { self.new ≡ replicate (length self.old) None }
    {
        self.tree.clear();
    }

    /// Puts a node in with this key, or lowers its key to this one, in logarithmic time. Takes no memory.
    pub fn lower(&mut self, node: u32, key: i128)
        requires node { node < length self.old }
        requires lower { IfSome (get_or self.old node None) (λ before. key ≤ℤ before) }
        ensures { self.new ≡ slice_set self.old node (Some key) }
    {
        self.tree.lower(node, key);
    }

    /// Takes out a node of least key and gives it with its key, in logarithmic time. Takes no memory.
    ///
    /// Which one of several nodes with the least key comes out is not promised.
    pub fn pop_least(&mut self) -> Option<(u32, i128)>
        ensures empty { IsNone result ↔ All IsNone self.old }
        ensures least { IfSome result (λ popped. HasLeast self.old popped.0 popped.1) }
        ensures taken { IfSome result (λ popped. self.new ≡ slice_set self.old popped.0 None) }
        ensures unchanged { IsNone result → self.new ≡ self.old }
    {
        self.tree.pop_least()
    }
}
