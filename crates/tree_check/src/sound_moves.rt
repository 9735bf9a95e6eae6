//! Moves that take a derivation to a derivation, found at the node where they change the tree.
//!
//! Each Rotate does. A Switch of two blocks does if its new shore is nontrivial and tight where it
//! stands: all other shores follow from it (`laws::switch_derives_law` of `move_laws`). So one cut
//! is judged, in place of the tree.
ghost use Rattle.std.specs.Prelude.{◌≡◌, ◌-◌, IfOk, IsTrue, All};
ghost use Rattle.graph_core.specs.from_counting.Common.{Within};
ghost use Rattle.tree_core.specs.Common.{IsCutAt, IsDerivation, IsDerivationAt, move_of, Fits, shape_of};
ghost use Rattle.tree_check.specs.Common.{IsBlock, IsMadeBy, IsSwitchOfDerivation};

use crate::rules::cut_fault;
use graph_core::vset_core::VSet;
use move_laws::contraction::Partition;
use move_laws::graph_facts::Covered;
use std::alloc::{AllocError as Memory, Global};
use tree_core::{Move, Place, Side, Tree};

/// Whether the tree that the move made of a derivation is one by the laws of moves.
pub(crate) fn is_sound(alloc: Global, c: &Covered, made: &Tree, item: &Move) -> Result<bool, Memory>
    requires { IsMadeBy c.now (move_of item.now) (shape_of made.now) }
    ensures { IfOk result (λ sound. IsTrue sound → IsDerivation c.now (shape_of made.now)) }
{
    c.keeps_covered();
    match item {
        Move::Rotate { .. } => Ok(true),
        Move::Switch { path, u, v } => {
            let root = Place::root(alloc, c)?;
            is_sound_switch(alloc, &root, made, path.as_slice(), *u, *v)
        }
    }
}

// Whether the tree that the Switch at the end of the path made of a derivation at p is one by
// the laws of moves.
fn is_sound_switch(
    alloc: Global,
    p: &Place,
    made: &Tree,
    path: &[Side],
    u: VSet,
    v: VSet,
) -> Result<bool, Memory>
    requires fits { Fits p.now.graph.order (shape_of made.now) }
    requires switched { IsSwitchOfDerivation p.now.graph p.now.blocks path.now u v (shape_of made.now) }
    ensures { IfOk result
        (λ sound. IsTrue sound → IsDerivationAt p.now.graph p.now.blocks (shape_of made.now)) }
{
    let Tree::Cut {
        shore,
        kept,
        merged,
    } = made
    else {
        return Ok(false);
    };
    p.keeps_place();
    match path.split_first() {
        None => exchanges_blocks(alloc, p, *shore, u, v),
        Some((Side::Kept, rest)) => {
            let below = p.kept(alloc, *shore)?;
            is_sound_switch(alloc, &below, kept, rest, u, v)
        }
        Some((Side::Merged, rest)) => {
            let below = p.merged(alloc, *shore)?;
            is_sound_switch(alloc, &below, merged, rest, u, v)
        }
    }
}

// Whether u and v are blocks at p, and the shore is a canonical nontrivial one that is tight there.
fn exchanges_blocks(alloc: Global, p: &Place, shore: VSet, u: VSet, v: VSet) -> Result<bool, Memory>
    requires { All (Within (p.now.graph.order - 1)) shore }
    ensures { IfOk result
        (λ holds. IsTrue holds → IsBlock p.now.graph.order p.now.blocks u ×
        IsBlock p.now.graph.order p.now.blocks v × IsCutAt p.now.graph p.now.blocks shore) }
{
    if !is_block(p.partition(), u) || !is_block(p.partition(), v) {
        return Ok(false);
    }
    match cut_fault(alloc, p, shore)? {
        Some(_) => Ok(false),
        None => Ok(true),
    }
}

// Whether the set is a block of p.
fn is_block(p: &Partition, set: VSet) -> bool
    ensures { IsTrue result → IsBlock p.now.order p.now.blocks set }
{
    p.keeps_partition();
    p.is_union(set) && p.blocks_in(set) == 1
}
