//! Switch: two sets are exchanged between a shore and its complement, and the shores below follow.
ghost use Rattle.std.specs.Prelude.{◌≡◌, ◌-◌, Some, None, IfOk, IfErr, All, true, false};
ghost use Rattle.graph_core.specs.from_counting.Common.{Within, mem};
ghost use Rattle.tree_core.specs.Common.{IsExchange, cut_after, is_turned, shore_after, tree_after, merged_shore_if_greatest_stays, switch_result, switch_result_at, Fits, IsAnswer, shape_of};

use crate::moves::Stuck;
use crate::path::{Path, Side};
use crate::switched_shores::{
    holds_greatest, is_proper_outside, is_proper_part, minus_of, outer_rest_of, set_if, union_of,
};
use crate::tree::Tree;
use crate::turns::{Turn, turn_along};
use graph_core::vset_core::VSet;
use std::mem;

// What a Switch at a cut over 1 to n exchanges: u leaves the shore x, and v comes in its place.
// The greatest vertex n comes in with v, or stays outside.
#[derive(Drop)]
struct Exchange {
    n: u32,
    x: VSet,
    u: VSet,
    v: VSet,
    greatest_comes: bool,
}

// A shore below `kept` where the greatest vertex comes: one that contains u gains the rest of the
// outer side.
#[tactic(auto, using(crate::proofs::SwitchSets::all_wider))]
fn kept_shore_greatest_comes(e: &Exchange, s: VSet) -> VSet
    requires greatest { mem e.now.v e.now.n ≡ true }
    requires shore { All (Within (e.now.n - 1)) s }
    ensures { result ≡ shore_after true Side.Kept e.now.n e.now.x e.now.u e.now.v s }
{
    if e.u.is_subset(s) {
        union_of(s, outer_rest_of(e.x, e.v, e.n), e.n)
    } else {
        s
    }
}

// A shore below `merged` where the greatest vertex comes: one that contains x has u in its place.
#[tactic(auto, using(crate::proofs::SwitchSets::all_wider))]
fn merged_shore_greatest_comes(e: &Exchange, s: VSet) -> VSet
    requires part { All (Within e.now.n) e.now.u }
    requires shore { All (Within (e.now.n - 1)) s }
    ensures { result ≡ shore_after true Side.Merged e.now.n e.now.x e.now.u e.now.v s }
{
    if e.x.is_subset(s) {
        union_of(minus_of(s, e.x, e.n), e.u, e.n)
    } else {
        s
    }
}

// A shore below `kept` where the greatest vertex stays: one that contains u becomes x without it,
// with v.
fn kept_shore_greatest_stays(e: &Exchange, s: VSet) -> VSet
    requires whole { All (Within e.now.n) e.now.x }
    requires other { All (Within e.now.n) e.now.v }
    ensures { result ≡ shore_after false Side.Kept e.now.n e.now.x e.now.u e.now.v s }
{
    if e.u.is_subset(s) {
        union_of(minus_of(e.x, s, e.n), e.v, e.n)
    } else {
        s
    }
}

// A shore below `merged` where the greatest vertex stays.
#[tactic(auto, using(crate::proofs::SwitchSets::all_wider))]
fn merged_shore_greatest_stays(e: &Exchange, s: VSet) -> VSet
    requires first { All (Within e.now.n) e.now.u }
    requires second { All (Within e.now.n) e.now.v }
    requires whole { All (Within e.now.n) e.now.x }
    requires shore { All (Within (e.now.n - 1)) s }
    ensures { result ≡ merged_shore_if_greatest_stays e.now.n e.now.x e.now.u e.now.v s }
{
    let outer = minus_of(minus_of(s, e.x, e.n), e.v, e.n);
    let gained = union_of(minus_of(e.x, e.u, e.n), e.v, e.n);
    let inner = set_if(e.x.is_subset(s), e.u, e.n);
    let further = set_if(e.v.is_subset(s), gained, e.n);
    union_of(outer, union_of(inner, further, e.n), e.n)
}

// What a shore of the tree on the side becomes.
fn shore_after(e: &Exchange, side: Side, s: VSet) -> VSet
    requires exchange { IsExchange e.now.greatest_comes e.now.n e.now.x e.now.u e.now.v }
    requires shore { All (Within (e.now.n - 1)) s }
    ensures { result ≡
        shore_after e.now.greatest_comes side e.now.n e.now.x e.now.u e.now.v s }
{
    match (e.greatest_comes, side) {
        (true, Side::Kept) => kept_shore_greatest_comes(e, s),
        (true, Side::Merged) => merged_shore_greatest_comes(e, s),
        (false, Side::Kept) => kept_shore_greatest_stays(e, s),
        (false, Side::Merged) => merged_shore_greatest_stays(e, s),
    }
}

// Whether the trees below a shore of the tree on the side change places: the shore becomes a part
// of what was its complement.
fn is_turned(e: &Exchange, side: Side, s: VSet) -> bool
    ensures { result ≡ is_turned e.now.greatest_comes side e.now.u s }
{
    match side {
        Side::Kept => !e.greatest_comes && e.u.is_subset(s),
        Side::Merged => false,
    }
}

// Carries the tree on the side along.
fn carry(tree: &mut Tree, e: &Exchange, side: Side)
    requires exchange { IsExchange e.now.greatest_comes e.now.n e.now.x e.now.u e.now.v }
    requires fits { Fits e.now.n (shape_of tree.old) }
    ensures { shape_of tree.new ≡
        tree_after e.now.greatest_comes side e.now.n e.now.x e.now.u e.now.v
        (shape_of tree.old) }
{
    if let Tree::Cut {
        shore,
        kept,
        merged,
    } = tree
    {
        carry(kept, e, side);
        carry(merged, e, side);
        if is_turned(e, side, *shore) {
            mem::swap(kept, merged);
        }
        *shore = shore_after(e, side, *shore);
    }
}

// The cut after the exchange. Where the greatest vertex comes, the two trees change places.
fn exchanged(mut kept: Box<Tree>, mut merged: Box<Tree>, e: &Exchange) -> Tree
    requires exchange { IsExchange e.now.greatest_comes e.now.n e.now.x e.now.u e.now.v }
    requires first { Fits e.now.n (shape_of kept.value) }
    requires second { Fits e.now.n (shape_of merged.value) }
    ensures { shape_of result ≡
        cut_after e.now.greatest_comes e.now.n e.now.x e.now.u e.now.v (shape_of kept.value)
        (shape_of merged.value) }
{
    carry(&mut *kept, e, Side::Kept);
    carry(&mut *merged, e, Side::Merged);
    if e.greatest_comes {
        Tree::Cut {
            shore: union_of(outer_rest_of(e.x, e.v, e.n), e.u, e.n),
            kept: merged,
            merged: kept,
        }
    } else {
        Tree::Cut {
            shore: union_of(minus_of(e.x, e.u, e.n), e.v, e.n),
            kept,
            merged,
        }
    }
}

/// Exchanges `u` and `v` at the root of the tree.
pub(crate) fn switch_here(tree: Tree, n: u32, u: VSet, v: VSet) -> Result<Tree, Tree>
    requires { Fits n (shape_of tree) }
    ensures { IsAnswer (switch_result_at n u v (shape_of tree)) (shape_of tree) result }
{
    match tree {
        Tree::Leaf => Err(Tree::Leaf),
        Tree::Cut {
            shore,
            kept,
            merged,
        } => {
            if !is_proper_part(u, shore) || !is_proper_outside(v, shore, n) {
                return Err(Tree::Cut {
                    shore,
                    kept,
                    merged,
                });
            }
            let e = Exchange {
                n,
                x: shore,
                u,
                v,
                greatest_comes: holds_greatest(v, n),
            };
            Ok(exchanged(kept, merged, &e))
        }
    }
}

/// Exchanges `u`, a part of the shore at the end of the path, and `v`, a part of its complement.
/// `Stuck` comes exactly when there is no result: the path leads to no cut, or one of the two is
/// not a nonempty proper subset there. Then the same tree is handed back. Takes no memory, and O(c)
/// steps on words for a tree of c cuts.
pub fn switch(tree: Tree, n: u32, path: &Path, u: VSet, v: VSet) -> Result<Tree, (Tree, Stuck)>
    requires { Fits n (shape_of tree) }
    ensures ok { IfOk result
        (λ made. switch_result n path.now u v (shape_of tree) ≡ Some (shape_of made)) }
    ensures stuck { IfErr result (λ e. switch_result n path.now u v (shape_of tree) ≡ None) }
    ensures same { IfErr result (λ e. shape_of e.0 ≡ shape_of tree) }
{
    match turn_along(tree, path.as_slice(), &Turn::Switch { n, u, v }) {
        Ok(made) => Ok(made),
        Err(back) => Err((back, Stuck)),
    }
}
