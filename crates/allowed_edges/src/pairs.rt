//! The pairs of edges that lie together in a perfect matching.
ghost use Rattle.std.specs.Prelude.{◌≡◌, ◌≢◌, ℕ, ◌+◌, ◌<◌, ◌≤◌, ◌++◌, ◌∷◌, [], ◌↔◌, true, false, length, IfOk, All, OnOk};
ghost use Rattle.graph_core.specs.from_counting.Common.{Within, none, mem};
ghost use Rattle.graph_core.specs.Common.{size, Allowed, IsPerfect, Together, IsLean, IsPairList};
ghost use Rattle.match_core.specs.Common.{IsOf, edges_of};
ghost use Rattle.allowed_edges.specs.Leaving.{share_end};
ghost use Rattle.allowed_edges.specs.PairTables.{IsNew, IsPerfectWith, SettlesEdges, SettlesPairs, Sought, edge_lists, holds_both};

use crate::bases::{base_with_edge, copied};
use crate::pair_table::PairTable;
use crate::questions::{perfect_with_edge, perfect_with_pair};
use crate::sharing::share_end;
use graph_core::MultiGraph;
use graph_core::vset_core::VSet;
use match_core::{Matching, perfect_without};
use std::alloc::{AllocError as Memory, Global};

/// The table of the pairs of edges of `g` that lie together: `both` is true if and only if some
/// perfect matching contains both edges, and `list` is a pair list, in which each matching contains
/// an edge or a pair of edges that no earlier one contains. There is one search for each edge and
/// for each pair of edges that share no end and lie together in no matching found before; each
/// takes at most one augmentation, so together they take O(m^2 (n^3 + m)) steps on words at most.
/// The only error is `Memory`.
pub fn together(alloc: Global, g: &MultiGraph) -> Result<PairTable, Memory>
    ensures size { IfOk result (λ pairs. pairs.size ≡ size g.now) }
    ensures of { IfOk result (λ pairs. All (IsOf g.now) pairs.list) }
    ensures list { IfOk result (λ pairs. IsPairList g.now (edge_lists pairs)) }
    ensures lean { IfOk result (λ pairs. IsLean (edge_lists pairs)) }
    ensures both { IfOk result
        (λ pairs. (e f : ℕ) → Within (size g.now) e → Within (size g.now) f →
        (holds_both (edge_lists pairs) e f ≡ true) ↔ Together g.now e f) }
{
    let mut pairs = no_pairs(alloc, g)?;
    complete_pairs(alloc, g, &mut pairs)?;
    Ok(pairs)
}

/// The table of `g` with no matching listed. Takes O(n^2 + m) time; the only error is `Memory`.
pub fn no_pairs(alloc: Global, g: &MultiGraph) -> Result<PairTable, Memory>
    ensures { IfOk result (SettlesEdges g.now 1) }
{
    let pairs = PairTable::new(alloc, g)?;
    Ok(pairs)
}

/// Looks for a perfect matching that contains `e` and `f`, which share no end, if no listed one
/// does, and lists it; if none is listed then, the two do not lie together. The returned matching
/// contains `e`, and is the one from which the next search starts: the last that was found. Takes
/// at most one augmentation, O(n^3 + m) steps on words, and O(n^2) look-ups as by `both`; the only
/// error is `Memory`.
pub fn seek_pair(
    alloc: Global,
    g: &MultiGraph,
    kept: Matching,
    pairs: &mut PairTable,
    e: u32,
    f: u32,
) -> Result<Matching, Memory>
    requires edge { Within (size g.now) e }
    requires other { Within (size g.now) f }
    requires kept { IsPerfectWith g.now e kept }
    requires begun { SettlesEdges g.now 1 pairs.old }
    ensures begun { IfOk result (λ _. SettlesEdges g.now 1 pairs.new) }
    ensures sought { IfOk result
        (λ _. holds_both (edge_lists pairs.new) e f ≡ false → share_end g.now e f ≡ false →
        Together g.now e f → ⊥) }
    ensures next { IfOk result (IsPerfectWith g.now e) }
{
    if pairs.both(e, f) {
        return Ok(kept);
    }
    if share_end(g, e, f) {
        return Ok(kept);
    }
    let next = list_pair(alloc, g, kept, pairs, e, f)?;
    Ok(next)
}

/// Lists a perfect matching that contains an edge, or a pair of edges, that no listed one contains.
/// Takes O(n + m) time; the only error is `Memory`.
pub fn list_new(
    alloc: Global,
    g: &MultiGraph,
    pairs: &mut PairTable,
    found: Matching,
) -> Result<(), Memory>
    requires begun { SettlesEdges g.now 1 pairs.old }
    requires new { IsNew g.now pairs.old found }
    ensures begun { IfOk result (λ _. SettlesEdges g.now 1 pairs.new) }
    ensures list { IfOk result (λ _. pairs.new.list ≡ pairs.old.list ++ found ∷ []) }
{
    found.keeps_matching();
    pairs.add(alloc, found)?;
    Ok(())
}

/// Lists a perfect matching that contains `e` if there is one and no listed one does, by at most
/// one augmentation of `kept`, O(n^3 + m) steps on words; the only error is `Memory`.
pub fn list_with_edge(
    alloc: Global,
    g: &MultiGraph,
    kept: &Matching,
    pairs: &mut PairTable,
    e: u32,
) -> Result<(), Memory>
    requires edge { Within (size g.now) e }
    requires of { IsOf g.now kept.now }
    requires perfect { IsPerfect g.now none (mem (edges_of kept.now)) }
    requires begun { SettlesEdges g.now 1 pairs.old }
    ensures begun { IfOk result (λ _. SettlesEdges g.now 1 pairs.new) }
    ensures held { IfOk result
        (λ _. Allowed g.now e → holds_both (edge_lists pairs.new) e e ≡ true) }
{
    if pairs.both(e, e) {
        return Ok(());
    }
    match perfect_with_edge(alloc, g, kept, e)? {
        Some(found) => list_new(alloc, g, pairs, found),
        None => Ok(()),
    }
}

// Settles all edges, if there is a perfect matching.
fn complete_pairs(alloc: Global, g: &MultiGraph, pairs: &mut PairTable) -> Result<(), Memory>
    requires { SettlesEdges g.now 1 pairs.old }
    ensures { IfOk result (λ _. SettlesEdges g.now (size g.now + 1) pairs.new) }
{
    match perfect_without(alloc, g, VSet::empty())? {
        None => Ok(()),
        Some(kept) => settle_edges(alloc, g, &kept, pairs),
    }
}

// Settles all edges, from a perfect matching.
fn settle_edges(
    alloc: Global,
    g: &MultiGraph,
    kept: &Matching,
    pairs: &mut PairTable,
) -> Result<(), Memory>
    requires of { IsOf g.now kept.now }
    requires perfect { IsPerfect g.now none (mem (edges_of kept.now)) }
    requires begun { SettlesEdges g.now 1 pairs.old }
    ensures { IfOk result (λ _. SettlesEdges g.now (size g.now + 1) pairs.new) }
{
    for k in 0..g.size() {
        settle_edge(alloc, g, kept, pairs, k + 1)?;
    }
    Ok(())
}

// Settles the edge `e`, where those before it are settled.
fn settle_edge(
    alloc: Global,
    g: &MultiGraph,
    kept: &Matching,
    pairs: &mut PairTable,
    e: u32,
) -> Result<(), Memory>
    requires edge { Within (size g.now) e }
    requires of { IsOf g.now kept.now }
    requires perfect { IsPerfect g.now none (mem (edges_of kept.now)) }
    requires before { SettlesEdges g.now e pairs.old }
    ensures { IfOk result (λ _. SettlesEdges g.now (e + 1) pairs.new) }
{
    match base_with_edge(alloc, g, kept, pairs, e)? {
        None => Ok(()),
        Some(base) => {
            let last = settle_pairs(alloc, g, base, pairs, e)?;
            list_unless_held(alloc, g, pairs, last, e)
        }
    }
}

// Settles the pairs of `e` with the edges above it, from a perfect matching that contains it; the
// returned matching contains it too. The search for the next matching starts from the last that was
// found, so the list soon has many pairs.
fn settle_pairs(
    alloc: Global,
    g: &MultiGraph,
    base: Matching,
    pairs: &mut PairTable,
    e: u32,
) -> Result<Matching, Memory>
    requires edge { Within (size g.now) e }
    requires base { IsPerfectWith g.now e base }
    requires before { SettlesEdges g.now e pairs.old }
    ensures settled { IfOk result (λ _. SettlesPairs g.now e (size g.now + 1) pairs.new) }
    ensures last { IfOk result (IsPerfectWith g.now e) }
{
    let mut kept = base;
    for k in e..g.size() {
        kept = settle_pair(alloc, g, kept, pairs, e, k + 1)?;
    }
    Ok(kept)
}

// Settles the pair of `e` and `f`, where those before it are settled.
fn settle_pair(
    alloc: Global,
    g: &MultiGraph,
    kept: Matching,
    pairs: &mut PairTable,
    e: u32,
    f: u32,
) -> Result<Matching, Memory>
    requires edge { Within (size g.now) e }
    requires other { Within (size g.now) f }
    requires above { e < f }
    requires kept { IsPerfectWith g.now e kept }
    requires before { SettlesPairs g.now e f pairs.old }
    ensures settled { IfOk result (λ _. SettlesPairs g.now e (f + 1) pairs.new) }
    ensures next { IfOk result (IsPerfectWith g.now e) }
{
    if is_settled(g, pairs, e, f) {
        return Ok(kept);
    }
    list_pair(alloc, g, kept, pairs, e, f)
}

// Lists a perfect matching that contains `e` and `f`, if there is one; no listed one contains both.
// Returns the matching from which the next search starts.
fn list_pair(
    alloc: Global,
    g: &MultiGraph,
    kept: Matching,
    pairs: &mut PairTable,
    e: u32,
    f: u32,
) -> Result<Matching, Memory>
    requires edge { Within (size g.now) e }
    requires other { Within (size g.now) f }
    requires apart { share_end g.now e f ≡ false }
    requires size { pairs.old.size ≡ size g.now }
    requires kept { IsPerfectWith g.now e kept }
    ensures sought { IfOk result (λ _. Sought g.now e f pairs.old pairs.new) }
    ensures next { IfOk result (IsPerfectWith g.now e) }
{
    match perfect_with_pair(alloc, g, &kept, e, f)? {
        None => Ok(kept),
        Some(found) => {
            let other = pairs.varied(alloc, g, found, e, f)?;
            listed(alloc, pairs, other)
        }
    }
}

// Lists a matching, and returns a copy of it.
fn listed(alloc: Global, pairs: &mut PairTable, found: Matching) -> Result<Matching, Memory>
    requires { All (λ row. Within pairs.old.size row.edge) found.rows }
    ensures { IfOk result
        (λ next. (next ≡ found) × (pairs.new.size ≡ pairs.old.size) ×
        (pairs.new.list ≡ pairs.old.list ++ found ∷ [])) }
{
    let next = copied(alloc, &found)?;
    pairs.add(alloc, found)?;
    Ok(next)
}

// Whether no search is needed for two edges: a listed matching contains both, or they share an end.
fn is_settled(g: &MultiGraph, pairs: &PairTable, e: u32, f: u32) -> bool
    requires edge { Within (size g.now) e }
    requires other { Within (size g.now) f }
    requires above { e < f }
    requires before { SettlesPairs g.now e f pairs.now }
    ensures settled { result ≡ true → Together g.now e f →
        holds_both (edge_lists pairs.now) e f ≡ true }
    ensures apart { result ≡ false → share_end g.now e f ≡ false }
    ensures new { result ≡ false → holds_both (edge_lists pairs.now) e f ≡ false }
{
    g.keeps_limits();
    if pairs.both(e, f) {
        return true;
    }
    share_end(g, e, f)
}

// Lists a perfect matching that contains `e`, unless a listed one does; the pairs of `e` are
// settled.
fn list_unless_held(
    alloc: Global,
    g: &MultiGraph,
    pairs: &mut PairTable,
    base: Matching,
    e: u32,
) -> Result<(), Memory>
    requires edge { Within (size g.now) e }
    requires base { IsPerfectWith g.now e base }
    requires before { SettlesPairs g.now e (size g.now + 1) pairs.old }
    ensures { IfOk result (λ _. SettlesEdges g.now (e + 1) pairs.new) }
{
    if pairs.both(e, e) {
        return Ok(());
    }
    base.keeps_matching();
    pairs.add(alloc, base)?;
    Ok(())
}
