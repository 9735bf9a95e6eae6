//! Whether an odd cut is tight.
ghost use Rattle.std.specs.Prelude.{◌≡◌, ℕ, ◌+◌, ◌<◌, ◌||◌, ◌&&◌, ◌==◌, ◌⊎◌, not, true, false, length, ◌↔◌, Some, None, IfOk};
ghost use Rattle.graph_core.specs.from_counting.Common.{Within, is_odd, none, mem, IsRisingIn};
ghost use Rattle.graph_core.specs.Common.{IsCovered, first_end, in_cut, second_end, size, IsPerfect, Together};
ghost use Rattle.barrier_kit.specs.from_match_core.Common.{IsOf, edges_of};
ghost use Rattle.barrier_kit.specs.from_allowed_edges.Leaving.{share_end};
ghost use Rattle.barrier_kit.specs.from_allowed_edges.PairTables.{IsPerfectWith};
ghost use Rattle.tight_cuts.specs.Common.{CrossesTwice, IsTightness, NoLaterWith};

use crate::balanced::is_balanced;
use crate::kept_rows::KeptRows;
use crate::quick_tightness::is_uncrossed;
use barrier_kit::allowed_edges::{perfect_with_edge, perfect_with_pair, share_end};
use barrier_kit::match_core::{Matching, perfect_without};
use graph_core::vset_core::VSet;
use graph_core::{Ends, MultiGraph, is_in_cut};
use std::alloc::{AllocError as Memory, Global};
use tree_core::graph_facts::Covered;

/// Whether a cut is tight (Lovász 1987).
#[derive(Drop)]
pub enum Tightness {
    /// It is: each perfect matching has exactly one edge in the cut.
    Tight,
    /// It is not: `matching` is a perfect matching with at least two edges in the cut.
    Crossed { matching: Matching },
}

/// Whether the cut of `shore`, an odd number of the vertices of the matching covered graph `g`, is
/// tight. `Tight` comes if and only if it is; `Crossed` comes with a perfect matching of `g` that
/// has at least two edges in the cut.
///
/// An odd cut is tight if and only if no two of its edges lie together in a perfect matching. A
/// quick test shows it for most tight cuts: at most one augmentation for each vertex on the smaller
/// side of the cut, and one search for any two of them. Else each edge of the cut is asked in turn.
/// Two edges that share no end lie together if and only if the ends of the second are partners in
/// the graph without the ends of the first. So an edge costs one augmentation, and one search for
/// each end of a later edge on the smaller side: O((n + c) (n^3 + m)) steps on words at most for c
/// edges in the cut. The only error is `Memory`.
pub fn is_tight(alloc: Global, g: &MultiGraph, shore: VSet) -> Result<Tightness, Memory>
    requires covered { IsCovered g.now }
    requires shore { IsRisingIn g.now.order shore }
    requires odd { is_odd (length shore) ≡ true }
    ensures { IfOk result (IsTightness g.now (mem shore)) }
{
    g.keeps_limits();
    match perfect_without(alloc, g, VSet::empty())? {
        Some(kept) => match crossing(alloc, g, shore, &kept, &mut KeptRows::new(alloc, g))? {
            Some(matching) => Ok(Tightness::Crossed { matching }),
            None => Ok(Tightness::Tight),
        },
        None => unreachable!(),
    }
}

/// What `is_tight` returns for a covered graph of which a perfect matching is known, and a side if
/// it is bipartite. In a bipartite graph it takes no search to see that a cut is tight. Otherwise
/// it costs what `is_tight` costs, less one maximum matching; the only error is `Memory`.
pub fn tightness_in(alloc: Global, c: &Covered, shore: VSet) -> Result<Tightness, Memory>
    requires shore { IsRisingIn c.now.order shore }
    requires odd { is_odd (length shore) ≡ true }
    ensures { IfOk result (IsTightness c.now (mem shore)) }
{
    c.keeps_covered();
    if is_balanced(c, shore) {
        return Ok(Tightness::Tight);
    }
    let g = c.graph();
    match crossing(alloc, g, shore, c.matching(), &mut KeptRows::new(alloc, g))? {
        Some(matching) => Ok(Tightness::Crossed { matching }),
        None => Ok(Tightness::Tight),
    }
}

/// A perfect matching with two edges of the cut, from a perfect matching; none exactly when no
/// edge of the cut lies together with a later one.
pub(crate) fn crossing(
    alloc: Global,
    g: &MultiGraph,
    shore: VSet,
    kept: &Matching,
    rows: &mut KeptRows<'_>,
) -> Result<Option<Matching>, Memory>
    requires of { IsOf g.now kept.now }
    requires perfect { IsPerfect g.now none (mem (edges_of kept.now)) }
    requires rows { rows.old ≡ g.now }
    ensures some { IfOk result (λ o. (m : _) → o ≡ Some m → CrossesTwice g.now (mem shore) m) }
    ensures none { IfOk result
        (λ o. o ≡ None → (e : ℕ) → Within (size g.now) e → in_cut g.now (mem shore) e ≡ true →
        NoLaterWith g.now (mem shore) e) }
    ensures same { rows.new ≡ rows.old }
{
    if is_uncrossed(alloc, g, smaller_side(g, shore), kept)? {
        return Ok(None);
    }
    for k in 0..g.size() {
        if let Some(matching) = crossing_with(alloc, g, shore, kept, rows, k + 1)? {
            return Ok(Some(matching));
        }
    }
    Ok(None)
}

// The side of the cut with fewer vertices; the shore itself if neither has fewer.
fn smaller_side(g: &MultiGraph, shore: VSet) -> VSet
    ensures { (e : ℕ) → Within (size g.now) e →
        in_cut g.now (mem result) e ≡ in_cut g.now (mem shore) e }
{
    if shore.len() <= g.order() / 2 {
        return shore;
    }
    VSet::full(g.order()).minus(shore)
}

// A perfect matching with edge e and a later edge of the cut, from a perfect matching; none
// exactly when e is not in the cut or no later edge of the cut lies together with it.
fn crossing_with(
    alloc: Global,
    g: &MultiGraph,
    shore: VSet,
    kept: &Matching,
    rows: &mut KeptRows<'_>,
    e: u32,
) -> Result<Option<Matching>, Memory>
    requires edge { Within (size g.now) e }
    requires of { IsOf g.now kept.now }
    requires perfect { IsPerfect g.now none (mem (edges_of kept.now)) }
    requires rows { rows.old ≡ g.now }
    ensures some { IfOk result (λ o. (m : _) → o ≡ Some m → CrossesTwice g.now (mem shore) m) }
    ensures none { IfOk result
        (λ o. o ≡ None → in_cut g.now (mem shore) e ≡ true → NoLaterWith g.now (mem shore) e) }
    ensures same { rows.new ≡ rows.old }
{
    if !is_in_cut(g, shore, e) {
        return Ok(None);
    }
    if !has_later(g, shore, e) {
        return Ok(None);
    }
    match perfect_with_edge(alloc, g, kept, e)? {
        Some(held) => crossing_from(alloc, g, shore, &held, rows, e),
        None => Ok(None),
    }
}

// Whether some edge after e is one to be asked with it.
fn has_later(g: &MultiGraph, shore: VSet, e: u32) -> bool
    requires { Within (size g.now) e }
    ensures { result ≡ false → NoLaterWith g.now (mem shore) e }
{
    for k in e..g.size() {
        if is_to_ask(g, shore, e, k + 1) {
            return true;
        }
    }
    false
}

// Whether the later edge f is in the cut and shares no end with e; otherwise the two do not lie
// together in the cut.
fn is_to_ask(g: &MultiGraph, shore: VSet, e: u32, f: u32) -> bool
    requires first { Within (size g.now) e }
    requires second { Within (size g.now) f }
    requires later { e < f }
    ensures cut { result ≡ true → in_cut g.now (mem shore) f ≡ true }
    ensures apart { result ≡ true → share_end g.now e f ≡ false }
    ensures none { result ≡ false → in_cut g.now (mem shore) f ≡ true → Together g.now e f → ⊥ }
{
    g.keeps_limits();
    if !is_in_cut(g, shore, f) {
        return false;
    }
    !share_end(g, e, f)
}

// The same for an edge e of the cut from a perfect matching that holds it.
fn crossing_from(
    alloc: Global,
    g: &MultiGraph,
    shore: VSet,
    held: &Matching,
    rows: &mut KeptRows<'_>,
    e: u32,
) -> Result<Option<Matching>, Memory>
    requires edge { Within (size g.now) e }
    requires in_cut { in_cut g.now (mem shore) e ≡ true }
    requires held { IsPerfectWith g.now e held.now }
    requires rows { rows.old ≡ g.now }
    ensures some { IfOk result (λ o. (m : _) → o ≡ Some m → CrossesTwice g.now (mem shore) m) }
    ensures none { IfOk result (λ o. o ≡ None → NoLaterWith g.now (mem shore) e) }
    ensures same { rows.new ≡ rows.old }
{
    for k in e..g.size() {
        if let Some(matching) = crossing_by(alloc, g, shore, held, rows, e, k + 1)? {
            return Ok(Some(matching));
        }
    }
    Ok(None)
}

// A perfect matching with the edge e of the cut and the later edge f of it, from one that holds
// e; none exactly when f is not in the cut or the two do not lie together.
fn crossing_by(
    alloc: Global,
    g: &MultiGraph,
    shore: VSet,
    held: &Matching,
    rows: &mut KeptRows<'_>,
    e: u32,
    f: u32,
) -> Result<Option<Matching>, Memory>
    requires first { Within (size g.now) e }
    requires second { Within (size g.now) f }
    requires later { e < f }
    requires in_cut { in_cut g.now (mem shore) e ≡ true }
    requires held { IsPerfectWith g.now e held.now }
    requires rows { rows.old ≡ g.now }
    ensures some { IfOk result (λ o. (m : _) → o ≡ Some m → CrossesTwice g.now (mem shore) m) }
    ensures none { IfOk result
        (λ o. o ≡ None → in_cut g.now (mem shore) f ≡ true → Together g.now e f → ⊥) }
    ensures same { rows.new ≡ rows.old }
{
    if !is_to_ask(g, shore, e, f) {
        return Ok(None);
    }
    if !may_hold_both(alloc, g, shore, held, rows, e, f)? {
        return Ok(None);
    }
    let found = perfect_with_pair(alloc, g, held, e, f)?;
    Ok(found)
}

// Whether the ends of f are partners in the graph without the ends of e; otherwise the two edges
// do not lie together.
fn may_hold_both(
    alloc: Global,
    g: &MultiGraph,
    shore: VSet,
    held: &Matching,
    rows: &mut KeptRows<'_>,
    e: u32,
    f: u32,
) -> Result<bool, Memory>
    requires first { Within (size g.now) e }
    requires second { Within (size g.now) f }
    requires apart { share_end g.now e f ≡ false }
    requires held { IsOf g.now held.now }
    requires rows { rows.old ≡ g.now }
    ensures none { IfOk result (λ may. may ≡ false → Together g.now e f → ⊥) }
    ensures same { rows.new ≡ rows.old }
{
    g.keeps_limits();
    let ends = g.ends(e);
    let met = VSet::empty().with(ends.a).with(ends.b);
    let far = smaller_end_first(g, shore, f);
    let row = rows.of(alloc, met, held, far.a)?;
    Ok(row.contains(far.b))
}

// The ends of f, first the one on the smaller side of the cut, which other edges of the cut share.
fn smaller_end_first(g: &MultiGraph, shore: VSet, f: u32) -> Ends
    requires { Within (size g.now) f }
    ensures { ((result.a ≡ first_end g.now f) × (result.b ≡ second_end g.now f)) ⊎
        ((result.a ≡ second_end g.now f) × (result.b ≡ first_end g.now f)) }
{
    let ends = g.ends(f);
    let is_small = shore.len() <= g.order() / 2;
    if shore.contains(ends.a) == is_small {
        return ends;
    }
    Ends {
        a: ends.b,
        b: ends.a,
    }
}
