//! Leaf maps: where each leaf of a tree goes, and its blocks; and their composition with one more
//! move.
ghost use Rattle.std.specs.Prelude.{◌≡◌, ◌≤◌, ◌+◌, List, ℕ, length, All, IfOk, map};
ghost use Rattle.graph_core.specs.from_counting.Common.{Within};
ghost use Rattle.tree_core.specs.Common.{PlainLeafMap, leaf_at, position};
ghost use Rattle.uncross.specs.Common.{IsMapInto, IsMapIntoIf, IsNameIn, blocks_of, map_after, names_after, images_at, map_of, maps_of};

use crate::block_images::{Images, image_name};
use crate::exchanges::Exchange;
use graph_core::Numbers;
use graph_core::listed::Listed;
use graph_core::vset_core::MOST_VERTICES;
use move_laws::contraction::Partition;
use std::alloc::{AllocError as Memory, Global};
use tree_core::{MOST_NODES, Partitions};

/// The map of one leaf.
#[derive(Drop)]
pub struct LeafMap {
    /// The place of the leaf's partner among the leaves of the other tree, counted from 1 in
    /// preorder.
    pub to: u32,
    /// For each block of the leaf, in order, the name of its image.
    pub images: Numbers,
}

/// The maps of the leaves of a tree, in preorder.
pub type LeafMaps = Listed<LeafMap>;

/// A Switch, before it is made.
#[derive(Drop)]
pub struct Switched {
    /// The leaves of the tree.
    pub leaves: Partitions,
    /// What the Switch does to them.
    pub exchange: Exchange,
}

// The place of a number in a list, counted from 1, or one past the end if it is not there.
fn position_of(order: &[u32], i: u32) -> u32
    requires { length order.now ≤ MOST_NODES }
    ensures place { result ≡ position order.now i }
    ensures within { result ≤ length order.now + 1 }
{
    for k in 0..order.len() {
        if order[k] == i {
            return k as u32 + 1;
        }
    }
    order.len() as u32 + 1
}

// The names of the images of the blocks of q with these names.
fn names_after(
    alloc: Global,
    n: u32,
    images: &Images,
    q: &Partition,
    names: &[u32],
) -> Result<Numbers, Memory>
    requires order { n ≤ MOST_VERTICES }
    requires named { All (IsNameIn q.now.blocks) names.now }
    ensures { IfOk result (λ after. after ≡ names_after n images.now q.now.blocks names.now) }
{
    let mut after = Numbers::new(alloc);
    let mut rest = names;
    'names: while let Some((b, others)) = rest.split_first() {
        let block = q.block(q.place(*b) as usize - 1);
        after.push(image_name(images, n, block))?;
        rest = others;
    }
    Ok(after)
}

// The names of the images of the blocks of leaf `to` with these names.
fn images_after(
    alloc: Global,
    n: u32,
    switched: &Switched,
    to: u32,
    names: Numbers,
) -> Result<Numbers, Memory>
    requires order { n ≤ MOST_VERTICES }
    requires named { IsMapInto (blocks_of switched.now.leaves)
        (record { to = to; images = names }) }
    ensures { IfOk result (λ after. after ≡
        names_after n (images_at switched.now.exchange to)
        (leaf_at (blocks_of switched.now.leaves) to) names) }
{
    match switched.exchange.images_at(to) {
        Images::Own => Ok(names),
        images => {
            let leaf = switched.leaves.get(to as usize - 1);
            names_after(alloc, n, &images, leaf, names.as_slice())
        }
    }
}

// A leaf's map, composed with a move with this order of the leaves, and with a Switch, if it is
// one.
fn map_after(
    alloc: Global,
    n: u32,
    order: &[u32],
    switched: &Option<Switched>,
    m: LeafMap,
) -> Result<LeafMap, Memory>
    requires order { n ≤ MOST_VERTICES }
    requires short { length order.now ≤ MOST_NODES }
    requires leads { IsMapIntoIf switched.now (map_of m) }
    ensures { IfOk result
        (λ after. map_of after ≡ map_after n order.now switched.now (map_of m)) }
{
    let LeafMap { to, images } = m;
    let images = match switched {
        None => images,
        Some(switched) => images_after(alloc, n, switched, to, images)?,
    };
    Ok(LeafMap {
        to: position_of(order, to),
        images,
    })
}

/// Leaf maps, each composed with a move with this order of the leaves, and with a Switch, if it is
/// one.
pub(crate) fn maps_after(
    alloc: Global,
    n: u32,
    order: &[u32],
    switched: &Option<Switched>,
    maps: LeafMaps,
) -> Result<LeafMaps, Memory>
    requires order { n ≤ MOST_VERTICES }
    requires short { length order.now ≤ MOST_NODES }
    requires leads { All (IsMapIntoIf switched.now) (maps_of maps) }
    ensures { IfOk result
        (λ after. maps_of after ≡ map (map_after n order.now switched.now) (maps_of maps)) }
{
    let mut after = LeafMaps::new(alloc);
    let mut rest = maps.into_items().into_iter();
    'maps: while let Some(m) = rest.next() {
        after.push(map_after(alloc, n, order, switched, m)?)?;
    }
    Ok(after)
}
