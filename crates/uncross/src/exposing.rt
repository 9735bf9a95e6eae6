//! Exposing: a shore is brought to the root of a derivation.
ghost use Rattle.std.specs.Prelude.{◌≡◌, List, Some, IfOk, map, option_map, ◌*◌, ◌≤◌, length};
ghost use Rattle.graph_core.specs.Common.{singles};
ghost use Rattle.tree_core.specs.Common.{IsCutAt, IsDerivation, IsDerivationAt, script_maps, leaves, moves_of, PlainMove, TurnsThrough, below, Fits, Shape, cut, cut_count, shape_of};
ghost use Rattle.move_laws.specs.Common.{IsPairing, PlainTurned, followed, raised};
ghost use Rattle.uncross.specs.Common.{IsRaised, maps_of, plan_of, CutIf, IsExposed, IsPlan, plan_result, turned_of};

use crate::leaf_maps::LeafMaps;
use crate::move_maps::script_maps;
use crate::places_below::places_below;
use crate::plans::{Plan, plan_at};
use crate::turning::{Corners, Turned, raise, turn_over_inner};
use graph_core::MultiGraph;
use graph_core::vset_core::VSet;
use move_laws::graph_facts::Covered;
use std::alloc::{AllocError as Memory, Global};
use tree_core::{Moves, Place, Side, Tree, copy};

// Brings the root of a child, which moves have made, above the root.
fn raise_child(
    alloc: Global,
    side: Side,
    tree: Tree,
    made: &Option<Moves>,
) -> Result<Turned, Memory>
    ensures { IfOk result
        (λ r. (ms : List PlainMove) (s : PlainTurned) → option_map moves_of made.now ≡ Some ms →
        followed (map (below side) ms) (raised side (shape_of tree)) ≡ Some s →
        turned_of r ≡ s) }
{
    let mut moves = Moves::new(alloc);
    match made {
        None => Ok(Turned { tree, moves }),
        Some(made) => {
            let tree = raise(alloc, side, tree, made, &mut moves)?;
            Ok(Turned { tree, moves })
        }
    }
}

/// A tree in which moves brought a shore to the root, or the tree as it was and no moves.
#[derive(Drop)]
pub struct Exposure {
    /// The tree.
    pub tree: Tree,
    /// The moves, if there was a shore to expose.
    pub moves: Option<Moves>,
}

// Carries out the plan at the root x, above its two subtrees as exposing made them.
fn carry_out(
    alloc: Global,
    n: u32,
    x: VSet,
    plan: &Plan,
    inner: Exposure,
    outer: Exposure,
) -> Result<Turned, Memory>
    requires { Fits n (cut x (shape_of inner.tree) (shape_of outer.tree)) }
    ensures { IfOk result
        (λ r. (s : PlainTurned) →
        plan_result n x (plan_of plan.now) (shape_of inner.tree) (shape_of outer.tree)
        (option_map moves_of inner.moves) (option_map moves_of outer.moves) ≡ Some s →
        turned_of r ≡ s) }
{
    let kept = Box::new(alloc, inner.tree)?;
    let merged = Box::new(alloc, outer.tree)?;
    if let Plan::Crossing { u, v, .. } = plan {
        let corners = Corners {
            order: n,
            root: x,
            inner: *u,
            outer: *v,
        };
        return turn_over_inner(alloc, corners, kept, merged, &inner.moves, &outer.moves);
    }
    let tree = Tree::Cut {
        shore: x,
        kept,
        merged,
    };
    match plan {
        Plan::InKept => raise_child(alloc, Side::Kept, tree, &inner.moves),
        Plan::InMerged => raise_child(alloc, Side::Merged, tree, &outer.moves),
        Plan::Here | Plan::Crossing { .. } => Ok(Turned {
            tree,
            moves: Moves::new(alloc),
        }),
    }
}

/// Brings a shore, if there is one, to the root of a derivation at p, through derivations at p.
pub fn expose_at(
    alloc: Global,
    p: &Place,
    tree: Tree,
    shore: Option<VSet>,
) -> Result<Exposure, Memory>
    requires derives { IsDerivationAt p.now.graph p.now.blocks (shape_of tree) }
    requires shore { CutIf p.now.graph p.now.blocks shore }
    ensures { IfOk result
        (λ r. IsExposed p.now.graph p.now.blocks (shape_of tree) shore (shape_of r.tree)
        (option_map moves_of r.moves)) }
{
    let Some(y) = shore else {
        return Ok(Exposure { tree, moves: None });
    };
    p.keeps_place();
    match tree {
        Tree::Leaf => unreachable!(),
        Tree::Cut {
            shore: x,
            kept,
            merged,
        } => {
            let plan = plan_for(p, x, y);
            let at = places_below(alloc, p, x)?;
            let kept = Box::into_inner(kept);
            let inner = expose_at(alloc, &at.kept, kept, plan.first(y))?;
            let merged = Box::into_inner(merged);
            let outer = expose_at(alloc, &at.merged, merged, plan.second(y))?;
            let n = p.graph().order();
            let Turned { tree, moves } = carry_out(alloc, n, x, &plan, inner, outer)?;
            Ok(Exposure {
                tree,
                moves: Some(moves),
            })
        }
    }
}

// The plan for the shore y in a tree with the root shore x.
fn plan_for(p: &Place, x: VSet, y: VSet) -> Plan
    requires root { IsCutAt p.now.graph p.now.blocks x }
    requires shore { IsCutAt p.now.graph p.now.blocks y }
    ensures { IsPlan p.now.graph.order p.now.blocks x y (plan_of result) }
{
    p.keeps_place();
    plan_at(p.partition(), x, y)
}

/// A derivation with a given shore at its root, and how it was reached from another.
#[derive(Drop)]
pub struct Exposed {
    /// The derivation with the shore at its root.
    pub tree: Tree,
    /// The moves that turn the original tree into this one, in order and with paths from the root.
    pub moves: Moves,
    /// One map for each leaf of the original tree, in preorder: the place of its partner among the
    /// leaves of this one, and for each of its blocks the name of a block of the partner.
    pub maps: LeafMaps,
}

// Brings a shore to the root of a derivation of a graph, through derivations.
fn bring_up(alloc: Global, g: &MultiGraph, tree: Tree, shore: VSet) -> Result<Turned, Memory>
    requires derives { IsDerivation g.now (shape_of tree) }
    requires shore { IsCutAt g.now (singles g.now.order) shore }
    ensures { IfOk result
        (λ r. IsRaised g.now (singles g.now.order) (shape_of tree) shore (shape_of r.tree)
        (moves_of r.moves)) }
{
    let covered = Covered::known(alloc, g)?;
    let root = Place::root(alloc, &covered)?;
    let Exposure { tree, moves: found } = expose_at(alloc, &root, tree, Some(shore))?;
    let moves = found.unwrap_or(Moves::new(alloc));
    Ok(Turned { tree, moves })
}

/// Brings a canonical nontrivial tight shore to the root of a derivation of a graph by moves,
/// through derivations, and pairs each leaf of the tree with one of the new tree by the maps of
/// these moves. There are at most 5 c moves for a tree of c cuts. Takes O(n^4 + m) steps on words
/// at most; the only error is `Memory`, and the tree is then dropped.
pub fn expose(alloc: Global, g: &MultiGraph, tree: Tree, shore: VSet) -> Result<Exposed, Memory>
    requires derives { IsDerivation g.now (shape_of tree) }
    requires shore { IsCutAt g.now (singles g.now.order) shore }
    ensures root { IfOk result
        (λ r. (a : Shape) × (b : Shape) × (shape_of r.tree ≡ cut shore a b)) }
    ensures derives { IfOk result (λ r. IsDerivation g.now (shape_of r.tree)) }
    ensures through { IfOk result
        (λ r. TurnsThrough g.now (shape_of tree) (moves_of r.moves) (shape_of r.tree)) }
    ensures few { IfOk result (λ r. length (moves_of r.moves) ≤ 5 * cut_count (shape_of tree)) }
    ensures maps { IfOk result
        (λ r. maps_of r.maps ≡ script_maps g.now.order (shape_of tree) (moves_of r.moves)) }
    ensures paired { IfOk result
        (λ r. IsPairing g.now (leaves g.now.order (shape_of tree))
        (leaves g.now.order (shape_of r.tree)) (maps_of r.maps)) }
{
    g.keeps_limits();
    let before = copy(alloc, &tree)?;
    let Turned { tree, moves } = bring_up(alloc, g, tree, shore)?;
    let maps = script_maps(alloc, g, &before, &moves)?;
    Ok(Exposed { tree, moves, maps })
}
