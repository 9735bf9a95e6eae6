//! Search trees: for each vertex its parent and its depth, and the ways up and down.
ghost use Rattle.std.specs.Prelude.{◌≡◌, ◌≤◌, ◌<◌, ◌++◌, ◌∷◌, not, OnOk, IfOk, length};
ghost use Rattle.vset_core.specs.from_counting.Common.{Within, is_odd, rising_list};
ghost use Rattle.graph_core.specs.Common.{parent_at, depth_at, IsRooted, is_even_at, way_up, way_down};

use crate::Numbers;
use std::alloc::{AllocError as Memory, Global};

/// What a search keeps of a vertex: its parent in the search tree, and its depth, the number of
/// steps to the root. A root has depth 0.
#[derive(Clone, Copy)]
pub(crate) struct TreeNode {
    pub(crate) parent: u32,
    pub(crate) depth: u32,
}

impl TreeNode {
    /// Whether the depth is odd.
    #[tactic(auto, using(crate::proofs::Parity::is_odd_remainder))]
    pub(crate) fn is_odd(self) -> bool
        ensures { result ≡ is_odd self.depth }
    {
        self.depth % 2 == 1
    }
}

/// Appends the vertices on the way up from `from` to the root, without `from`.
pub(crate) fn climb(nodes: &[TreeNode], from: u32, walk: &mut Numbers) -> Result<(), Memory>
    requires rooted { IsRooted nodes.now }
    requires within { Within (length nodes.now) from }
    ensures { OnOk result
        (walk.new ≡ walk.old ++ way_up (parent_at nodes.now) (depth_at nodes.now from) from) }
{
    let mut v = from;
    'climbing: while nodes[v as usize - 1].depth > 0 {
        v = nodes[v as usize - 1].parent;
        walk.push(v)?;
    }
    Ok(())
}

/// Appends the vertices on the way down from the root to `to`, without the root.
pub(crate) fn descend(nodes: &[TreeNode], to: u32, walk: &mut Numbers) -> Result<(), Memory>
    requires rooted { IsRooted nodes.now }
    requires within { Within (length nodes.now) to }
    ensures { OnOk result
        (walk.new ≡ walk.old ++ way_down (parent_at nodes.now) (depth_at nodes.now to) to) }
{
    let node = nodes[to as usize - 1];
    if node.depth > 0 {
        descend(nodes, node.parent, walk)?;
        walk.push(to)?;
    }
    Ok(())
}

/// The vertices at even depth, in increasing order.
pub(crate) fn even_vertices(alloc: Global, nodes: &[TreeNode]) -> Result<Numbers, Memory>
    requires { length nodes.now ≤ 128 }
    ensures { IfOk result (λ left. left ≡ rising_list (length nodes.now) (is_even_at nodes.now)) }
{
    let mut left = Numbers::new(alloc);
    for i in 0..nodes.len() {
        if !nodes[i].is_odd() {
            left.push(i as u32 + 1)?;
        }
    }
    Ok(left)
}
