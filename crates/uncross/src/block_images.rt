//! The images of blocks: the names that the blocks of a leaf get by a Switch above it.
ghost use Rattle.std.specs.Prelude.{◌≡◌, ◌≤◌, IfOk, map};
ghost use Rattle.graph_core.specs.from_counting.Common.{mem, rising_list};
ghost use Rattle.tree_core.specs.Common.{list_if, meet_list, minus_list, union_list};
ghost use Rattle.uncross.specs.Common.{image_name, kept_images, merged_images};

use crate::plans::complement;
use graph_core::Numbers;
use graph_core::vset_core::{MOST_VERTICES, VSet};
use move_laws::contraction::{Partition, name_of};
use std::alloc::{AllocError as Memory, Global};

/// How the blocks of a leaf correspond to the blocks of its partner.
#[derive(Clone, Copy)]
pub enum Images {
    /// Each block is its own image.
    Own,
    /// The leaf is on one side of a cut at which a Switch exchanges two sets.
    Moved {
        /// The part of this side that stays.
        staying: VSet,
        /// The part that leaves this side.
        leaving: VSet,
        /// The new set of the block that contains what leaves: this with the rest of the other
        /// side.
        gained: VSet,
        /// The other side.
        far: VSet,
        /// The set that comes to this side, and represents the other side.
        coming: VSet,
    },
}

// The part of 1 to n that is in the set.
fn part_within(x: VSet, n: u32) -> VSet
    requires { n ≤ MOST_VERTICES }
    ensures { result ≡ rising_list n (mem x) }
{
    let part = x.meet(VSet::full(n));
    part.rises();
    part
}

// The union of two sets.
fn union_of(x: VSet, y: VSet, n: u32) -> VSet
    requires { n ≤ MOST_VERTICES }
    ensures { result ≡ union_list n x y }
{
    part_within(x.union(y), n)
}

// The intersection of two sets.
fn meet_of(x: VSet, y: VSet, n: u32) -> VSet
    requires { n ≤ MOST_VERTICES }
    ensures { result ≡ meet_list n x y }
{
    part_within(x.meet(y), n)
}

// A set less another one.
fn minus_of(x: VSet, y: VSet, n: u32) -> VSet
    requires { n ≤ MOST_VERTICES }
    ensures { result ≡ minus_list n x y }
{
    part_within(x.minus(y), n)
}

/// The images of the blocks below `kept` of a cut with the shore x, if u leaves the shore and v
/// replaces it.
pub fn kept_images(n: u32, x: VSet, u: VSet, v: VSet) -> Images
    requires { n ≤ MOST_VERTICES }
    ensures { result ≡ kept_images n x u v }
{
    let rest = minus_of(complement(x, n), v, n);
    Images::Moved {
        staying: minus_of(x, u, n),
        leaving: u,
        gained: union_of(rest, u, n),
        far: union_of(rest, v, n),
        coming: v,
    }
}

/// The images of the blocks below `merged` of a cut with the shore x, if u leaves the shore and v
/// replaces it.
pub fn merged_images(n: u32, x: VSet, u: VSet, v: VSet) -> Images
    requires { n ≤ MOST_VERTICES }
    ensures { result ≡ merged_images n x u v }
{
    Images::Moved {
        staying: minus_of(complement(x, n), v, n),
        leaving: v,
        gained: union_of(minus_of(x, u, n), v, n),
        far: x,
        coming: u,
    }
}

// A set if a test is true, otherwise the empty set.
fn set_if(test: bool, x: VSet) -> VSet
    ensures { result ≡ list_if test x }
{
    if test { x } else { VSet::empty() }
}

/// The name of a block's image.
pub fn image_name(images: &Images, n: u32, block: VSet) -> u32
    requires { n ≤ MOST_VERTICES }
    ensures { result ≡ image_name n images.now block }
{
    match images {
        Images::Own => name_of(block),
        Images::Moved {
            staying,
            leaving,
            gained,
            far,
            coming,
        } => {
            let stays = meet_of(block, *staying, n);
            let inner = set_if(leaving.is_subset(block), *gained);
            let outer = set_if(far.is_subset(block), *coming);
            name_of(union_of(stays, union_of(inner, outer, n), n))
        }
    }
}

/// The names of the images of the blocks of a leaf, in the order of the blocks.
pub fn image_names(alloc: Global, images: &Images, p: &Partition) -> Result<Numbers, Memory>
    ensures { IfOk result (λ names. names ≡ map (image_name p.now.order images.now) p.now.blocks) }
{
    p.keeps_partition();
    let mut names = Numbers::new(alloc);
    for i in 0..p.len() {
        names.push(image_name(images, p.order(), p.block(i)))?;
    }
    Ok(names)
}
