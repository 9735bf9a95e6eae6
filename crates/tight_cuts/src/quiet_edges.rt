//! Edges that give no cut, as a few perfect matchings show.
//!
//! Let a tight cut have edge e. Each other edge that lies together with e is not in the cut. So if
//! such edges join all vertices but the ends of e with one another, then these vertices are all on
//! one side, and no two of them are separated at e: the edge is quiet. Mostly a few perfect
//! matchings show it, and each of them serves all edges that it holds.
ghost use Rattle.std.specs.Prelude.{◌≡◌, ◌≢◌, ℕ, ◌<◌, true, false, length, IfOk, None};
ghost use Rattle.graph_core.specs.from_counting.Common.{Within, mem};
ghost use Rattle.graph_core.specs.Common.{first_end, second_end, size};
ghost use Rattle.barrier_kit.specs.from_allowed_edges.Leaving.{share_end};
ghost use Rattle.barrier_kit.specs.from_allowed_edges.PairTables.{IsPerfectWith, SettlesEdges};
ghost use Rattle.tight_cuts.specs.Common.{first_separated, AreMatchings, IsOneSided};

use crate::matchings::Matchings;
use barrier_kit::allowed_edges::{PairTable, base_with_edge, seek_pair, share_end};
use barrier_kit::match_core::Matching;
use graph_core::vset_core::VSet;
use graph_core::{MultiGraph, is_in_cut};
use std::alloc::{AllocError as Memory, Global};

/// How many edges may be refused before no more are sought for one edge.
const MOST_REFUSED: u32 = 2;

/// Whether edge `e` is seen to be quiet, by the matchings that are listed and by others that are
/// sought and listed.
pub(crate) fn is_quiet(
    alloc: Global,
    g: &MultiGraph,
    matchings: &mut Matchings<'_>,
    e: u32,
) -> Result<bool, Memory>
    requires edge { Within (size g.now) e }
    requires matchings { AreMatchings g.now matchings.old }
    ensures matchings { IfOk result
        (λ _. AreMatchings g.now matchings.new) }
    ensures quiet { IfOk result (λ quiet. quiet ≡ true → first_separated g.now e ≡ None) }
{
    g.keeps_limits();
    let others = without_ends(g, e);
    let Some(start) = others.first() else {
        return Ok(false);
    };
    let near = widened(g, &matchings.pairs, e, VSet::one(start));
    if others.is_subset(near) {
        return Ok(true);
    }
    match base_with_edge(alloc, g, &matchings.kept, &matchings.pairs, e)? {
        None => Ok(false),
        Some(base) => {
            let reach = reach_of(alloc, g, base, matchings, e, near)?;
            Ok(others.is_subset(reach))
        }
    }
}

/// All vertices but the ends of edge `e`.
pub(crate) fn without_ends(g: &MultiGraph, e: u32) -> VSet
    requires { Within (size g.now) e }
    ensures { (v : ℕ) → Within g.now.order v → first_end g.now e ≢ v → second_end g.now e ≢ v →
        mem result v ≡ true }
{
    let ends = g.ends(e);
    let full = VSet::full(g.order());
    let rest = full.without(ends.a);
    rest.without(ends.b)
}

// A vertex set widened by edges that lie together with `e`: such are sought among those that leave
// the set, until some were refused.
fn reach_of(
    alloc: Global,
    g: &MultiGraph,
    base: Matching,
    matchings: &mut Matchings<'_>,
    e: u32,
    near: VSet,
) -> Result<VSet, Memory>
    requires edge { Within (size g.now) e }
    requires base { IsPerfectWith g.now e base }
    requires matchings { AreMatchings g.now matchings.old }
    requires near { IsOneSided g.now e (mem near) }
    ensures matchings { IfOk result (λ _. AreMatchings g.now matchings.new) }
    ensures reach { IfOk result (λ reach. IsOneSided g.now e (mem reach)) }
{
    let mut kept = base;
    let mut reach = near;
    let mut refused = 0;
    for _round in 0..g.order() {
        let before = reach;
        for k in 0..g.size() {
            let f = k + 1;
            if refused < MOST_REFUSED && is_in_cut(g, reach, f) && !share_end(g, e, f) {
                kept = sought(alloc, g, kept, matchings, e, f)?;
                refused += u32::from(!matchings.pairs.both(e, f));
                reach = widened_by(g, &matchings.pairs, e, reach, f);
                reach = widened_along(g, &kept, e, reach);
            }
        }
        if reach == before {
            return Ok(reach);
        }
    }
    Ok(reach)
}

// Seeks a perfect matching that holds `e` and `f`, unless it is known that there is none.
fn sought(
    alloc: Global,
    g: &MultiGraph,
    kept: Matching,
    matchings: &mut Matchings<'_>,
    e: u32,
    f: u32,
) -> Result<Matching, Memory>
    requires edge { Within (size g.now) e }
    requires other { Within (size g.now) f }
    requires apart { share_end g.now e f ≡ false }
    requires kept { IsPerfectWith g.now e kept }
    requires matchings { AreMatchings g.now matchings.old }
    ensures matchings { IfOk result (λ _. AreMatchings g.now matchings.new) }
    ensures next { IfOk result (IsPerfectWith g.now e) }
{
    if matchings.apart.has(e, f) {
        return Ok(kept);
    }
    let next = seek_pair(alloc, g, kept, &mut matchings.pairs, e, f)?;
    if !matchings.pairs.both(e, f) {
        matchings.apart.note(e, f);
    }
    Ok(next)
}

// A vertex set widened by the edges of a perfect matching that holds `e`.
fn widened_along(g: &MultiGraph, kept: &Matching, e: u32, near: VSet) -> VSet
    requires edge { Within (size g.now) e }
    requires kept { IsPerfectWith g.now e kept.now }
    requires near { IsOneSided g.now e (mem near) }
    ensures { IsOneSided g.now e (mem result) }
{
    let mut reach = near;
    for i in 0..kept.len() {
        reach = widened_at(g, kept, e, reach, i);
    }
    reach
}

// A vertex set with both ends of the edge in a row of such a matching, if it holds one of them.
fn widened_at(g: &MultiGraph, kept: &Matching, e: u32, reach: VSet, i: usize) -> VSet
    requires edge { Within (size g.now) e }
    requires kept { IsPerfectWith g.now e kept.now }
    requires reach { IsOneSided g.now e (mem reach) }
    requires row { i < length kept.now.rows }
    ensures { IsOneSided g.now e (mem result) }
{
    g.keeps_limits();
    let f = kept.row(i).edge;
    if f == e || !is_in_cut(g, reach, f) {
        return reach;
    }
    let ends = g.ends(f);
    reach.with(ends.a).with(ends.b)
}

// A vertex set widened by edges that listed matchings hold together with `e`, as far as it goes.
fn widened(g: &MultiGraph, pairs: &PairTable, e: u32, near: VSet) -> VSet
    requires edge { Within (size g.now) e }
    requires begun { SettlesEdges g.now 1 pairs.now }
    requires near { IsOneSided g.now e (mem near) }
    ensures { IsOneSided g.now e (mem result) }
{
    let others = without_ends(g, e);
    let mut reach = near;
    for _round in 0..g.order() {
        let before = reach;
        for k in 0..g.size() {
            reach = widened_by(g, pairs, e, reach, k + 1);
        }
        if reach == before || others.is_subset(reach) {
            return reach;
        }
    }
    reach
}

// A vertex set with both ends of edge `f`, if it holds one of them and a listed matching holds `f`
// and `e`.
fn widened_by(g: &MultiGraph, pairs: &PairTable, e: u32, reach: VSet, f: u32) -> VSet
    requires edge { Within (size g.now) e }
    requires other { Within (size g.now) f }
    requires begun { SettlesEdges g.now 1 pairs.now }
    requires reach { IsOneSided g.now e (mem reach) }
    ensures { IsOneSided g.now e (mem result) }
{
    g.keeps_limits();
    if f == e {
        return reach;
    }
    if !is_in_cut(g, reach, f) {
        return reach;
    }
    if !pairs.both(e, f) {
        return reach;
    }
    let ends = g.ends(f);
    reach.with(ends.a).with(ends.b)
}
