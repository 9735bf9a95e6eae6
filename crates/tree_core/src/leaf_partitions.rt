//! The leaves of a tree.
ghost use Rattle.std.specs.Prelude.{◌≡◌, ◌≤◌, ◌<◌, ◌-◌, ◌++◌, length, IfOk, OnOk, All};
ghost use Rattle.graph_core.specs.from_counting.Common.{Within};
ghost use Rattle.graph_core.specs.Common.{complement_of, singles};
ghost use Rattle.contraction.specs.Partition.{IsUnionAt};
ghost use Rattle.tree_core.specs.Common.{Fits, leaves, leaves_at, partitions_of, StandsAt, shape_of};

use crate::partitions::Partitions;
use crate::tree::Tree;
use contraction::Partition;
use graph_core::vset_core::{MOST_VERTICES, VSet};
use std::alloc::{AllocError as Memory, Global};

/// The partitions at the leaves of the tree over 1 to `n`, in preorder, `kept` before `merged`.
/// Takes O(n) steps on words for each node; the only error is `Memory`.
pub fn leaves(alloc: Global, tree: &Tree, n: u32) -> Result<Partitions, Memory>
    requires order { n ≤ MOST_VERTICES }
    requires fits { Fits n (shape_of tree.now) }
    requires stands { StandsAt n (singles n) (shape_of tree.now) }
    ensures { IfOk result (λ ps. ps ≡ partitions_of n (leaves n (shape_of tree.now))) }
{
    let mut found = Partitions::new(alloc);
    let root = Partition::singles(alloc, n)?;
    gather(alloc, tree, root, &mut found)?;
    Ok(found)
}

// Appends the partitions at the leaves of the tree at p.
fn gather(alloc: Global, tree: &Tree, p: Partition, found: &mut Partitions) -> Result<(), Memory>
    requires fits { Fits p.order (shape_of tree.now) }
    requires stands { StandsAt p.order p.blocks (shape_of tree.now) }
    ensures { OnOk result
        (found.new ≡ found.old ++
        partitions_of p.order (leaves_at p.order p.blocks (shape_of tree.now))) }
{
    match tree {
        Tree::Leaf => found.push(p),
        Tree::Cut {
            shore,
            kept,
            merged,
        } => {
            let kept_at = p.merge(alloc, complement_in(&p, *shore))?;
            gather(alloc, kept, kept_at, found)?;
            let merged_at = p.merge(alloc, *shore)?;
            gather(alloc, merged, merged_at, found)
        }
    }
}

/// The complement of a shore that does not hold the greatest vertex; a union of blocks again.
/// Takes no memory.
pub fn complement_in(p: &Partition, shore: VSet) -> VSet
    requires fits { All (Within (p.now.order - 1)) shore }
    requires nonempty { 0 < length shore }
    requires union { IsUnionAt p.now shore }
    ensures list { result ≡ complement_of p.now.order shore }
    ensures union { IsUnionAt p.now result }
    ensures nonempty { 0 < length result }
{
    p.keeps_partition();
    let complement = VSet::full(p.order()).minus(shore);
    complement.rises();
    complement
}
