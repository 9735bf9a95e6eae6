//! Short alternating paths: a matching that misses two vertices is made perfect by one edge between
//! them, or by two edges in place of one. In a dense graph such a path is found much faster than by
//! a search for any path.
ghost use Rattle.std.specs.Prelude.{◌≡◌, ◌<◌, ◌≤◌, ℕ, false, length, slice_get, IfOk, Some, None};
ghost use Rattle.graph_core.specs.from_counting.Common.{Within, mem};
ghost use Rattle.graph_core.specs.Common.{size};
ghost use Rattle.match_core.specs.Common.{ends_at};
ghost use Rattle.allowed_edges.specs.Leaving.{IsMatchingOff, IsPerfectOffMet};

use crate::questions::misses_none;
use graph_core::MultiGraph;
use graph_core::vset_core::{MOST_VERTICES, VSet};
use match_core::{MatchRow, Matching};
use std::alloc::{AllocError as Memory, Global};

/// A perfect matching of G - met, from a matching of it: with one more edge between two vertices
/// that it misses, or with two edges in place of one. `None` if neither is possible, which says
/// nothing about G - met.
pub fn completed(
    alloc: Global,
    g: &MultiGraph,
    met: VSet,
    m: &Matching,
) -> Result<Option<Matching>, Memory>
    requires { IsMatchingOff g.now met m.now }
    ensures { IfOk result (λ o. (n : _) → o ≡ Some n → IsPerfectOffMet g.now met n) }
{
    let missed = VSet::full(g.order()).minus(met).minus(met_vertices(m));
    let x = match missed.first() {
        Some(x) => x,
        None => return Ok(None),
    };
    let y = match missed.last() {
        Some(y) => y,
        None => return Ok(None),
    };
    match edge_between(g, x, y) {
        Some(k) => with_one(alloc, g, met, m, k),
        None => with_two(alloc, g, met, m, x, y),
    }
}

// With edge `k` added.
fn with_one(
    alloc: Global,
    g: &MultiGraph,
    met: VSet,
    m: &Matching,
    k: u32,
) -> Result<Option<Matching>, Memory>
    requires matching { IsMatchingOff g.now met m.now }
    requires edge { Within (size g.now) k }
    ensures { IfOk result (λ o. (n : _) → o ≡ Some n → IsPerfectOffMet g.now met n) }
{
    match with_edge(alloc, g, met, m, k)? {
        Some(found) => {
            if misses_none(g, &found, met) {
                Ok(Some(found))
            } else {
                Ok(None)
            }
        }
        None => Ok(None),
    }
}

// With an edge at `x` and one at `y` in place of the first edge between their other ends.
fn with_two(
    alloc: Global,
    g: &MultiGraph,
    met: VSet,
    m: &Matching,
    x: u32,
    y: u32,
) -> Result<Option<Matching>, Memory>
    requires first { Within MOST_VERTICES x }
    requires second { Within MOST_VERTICES y }
    requires matching { IsMatchingOff g.now met m.now }
    ensures { IfOk result (λ o. (n : _) → o ≡ Some n → IsPerfectOffMet g.now met n) }
{
    g.keeps_limits();
    m.keeps_matching();
    let row = match enclosed(m, neighbours(g, x), neighbours(g, y)) {
        Some(row) => row,
        None => return Ok(None),
    };
    let at_x = match edge_between(g, x, row.a) {
        Some(k) => k,
        None => return Ok(None),
    };
    let at_y = match edge_between(g, y, row.b) {
        Some(k) => k,
        None => return Ok(None),
    };
    in_place_of(alloc, g, met, m, row, at_x, at_y)
}

// With two edges in place of one.
fn in_place_of(
    alloc: Global,
    g: &MultiGraph,
    met: VSet,
    m: &Matching,
    row: MatchRow,
    first: u32,
    second: u32,
) -> Result<Option<Matching>, Memory>
    requires matching { IsMatchingOff g.now met m.now }
    requires a { Within MOST_VERTICES row.a }
    requires b { Within MOST_VERTICES row.b }
    requires first { Within (size g.now) first }
    requires second { Within (size g.now) second }
    ensures { IfOk result (λ o. (n : _) → o ≡ Some n → IsPerfectOffMet g.now met n) }
{
    let opened = m.cleared(alloc, met.with(row.a).with(row.b))?;
    match with_edge(alloc, g, met, &opened, first)? {
        Some(longer) => with_one(alloc, g, met, &longer, second),
        None => Ok(None),
    }
}

// The matching with edge `k` added, if the ends of `k` are neither in `met` nor ends of its edges.
fn with_edge(
    alloc: Global,
    g: &MultiGraph,
    met: VSet,
    m: &Matching,
    k: u32,
) -> Result<Option<Matching>, Memory>
    requires matching { IsMatchingOff g.now met m.now }
    requires edge { Within (size g.now) k }
    ensures { IfOk result (λ o. (n : _) → o ≡ Some n → IsMatchingOff g.now met n) }
{
    g.keeps_limits();
    m.keeps_matching();
    let taken = met_vertices(m).union(met);
    let ends = g.ends(k);
    if taken.contains(ends.a) || taken.contains(ends.b) {
        return Ok(None);
    }
    let longer = m.joined(alloc, g, k)?;
    Ok(Some(longer))
}

// The vertices that are ends of edges of the matching.
fn met_vertices(m: &Matching) -> VSet
    ensures { (v : ℕ) → mem result v ≡ false → ends_at m.now.rows v ≡ 0 }
{
    m.keeps_matching();
    let mut met = VSet::empty();
    for i in 0..m.len() {
        let row = m.row(i);
        met = met.with(row.a).with(row.b);
    }
    met
}

// The first row with one end in each of the two sets; its `a` is the end in the first set.
fn enclosed(m: &Matching, near: VSet, far: VSet) -> Option<MatchRow>
    ensures { (row : _) → result ≡ Some row → Within m.now.order row.a × Within m.now.order row.b }
{
    m.keeps_matching();
    for i in 0..m.len() {
        let row = m.row(i);
        if near.contains(row.a) && far.contains(row.b) {
            return Some(row);
        }
        if near.contains(row.b) && far.contains(row.a) {
            return Some(MatchRow {
                edge: row.edge,
                a: row.b,
                b: row.a,
            });
        }
    }
    None
}

// The first edge with the ends `x` and `y`. The edges are searched only if there is one.
fn edge_between(g: &MultiGraph, x: u32, y: u32) -> Option<u32>
    requires first { Within MOST_VERTICES x }
    requires second { Within MOST_VERTICES y }
    ensures { (k : ℕ) → result ≡ Some k → Within (size g.now) k }
{
    if !neighbours(g, x).contains(y) {
        return None;
    }
    for k in 0..g.size() {
        let e = g.ends(k + 1);
        if (e.a == x && e.b == y) || (e.a == y && e.b == x) {
            return Some(k + 1);
        }
    }
    None
}

// The vertices that an edge joins with `x`.
fn neighbours(g: &MultiGraph, x: u32) -> VSet
    requires { Within MOST_VERTICES x }
{
    match g.rows().get(x as usize - 1) {
        Some(row) => *row,
        None => VSet::empty(),
    }
}
