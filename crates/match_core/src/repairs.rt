//! A matching that misses two vertices is made perfect by one augmenting path.
ghost use Rattle.std.specs.Prelude.{◌≡◌, ℕ, ◌+◌, ◌-◌, ◌/◌, ◌≢◌, ◌==◌, ◌&&◌, not, nat_lt, nat_le, cond, true, ◌<◌, ◌≤◌, length, slice_index, ◌↔◌, IfOk, Some, None};
ghost use Rattle.graph_core.specs.from_counting.Common.{Within, mem, Set, put};
ghost use Rattle.graph_core.specs.Common.{AreRows, graph_of, IsMatching, IsPerfect, HasPerfect, missed_count};
ghost use Rattle.match_search.specs.Common.{flipped, marks, numbers, part, end_a, end_b, HasMates, IsGraphRow, NamesEdges, DiffersByPath, IsRepairRow, Misses, with_mate};
ghost use Rattle.match_core.specs.Common.{IsOf, edges_of, NamesPerfect, StartsWalk};

use crate::matching::{Matching, matching_of};
use crate::mates::mates_off;
use graph_core::vset_core::{MOST_VERTICES, VSet};
use graph_core::{Ends, MultiGraph};
use match_search::{enlarge, mark_place};
use std::alloc::{AllocError as Memory, Global};

/// The edge of the matching at a vertex, and its other end.
#[derive(Clone, Copy, Debug, PartialEq, Eq, Drop)]
pub struct Mate {
    pub edge: u32,
    pub vertex: u32,
}

/// A perfect matching of G - removed, where `m` is a matching of it that misses exactly two
/// vertices: the symmetric difference of the two matchings is one path between these vertices.
/// `None` if and only if G - removed has no perfect matching. Takes one augmentation, O(n^3 + m)
/// steps on words at most; the only error is `Memory`.
pub fn repair(
    alloc: Global,
    g: &MultiGraph,
    removed: VSet,
    m: &Matching,
) -> Result<Option<Matching>, Memory>
    requires of { IsOf g.now m.now }
    requires matching { IsMatching g.now (mem removed) (mem (edges_of m.now)) }
    requires two { missed_count g.now (mem removed) (mem (edges_of m.now)) ≡ 2 }
    ensures of { IfOk result (λ o. (n : _) → o ≡ Some n → IsOf g.now n) }
    ensures perfect { IfOk result
        (λ o. (n : _) → o ≡ Some n → IsPerfect g.now (mem removed) (mem (edges_of n))) }
    ensures path { IfOk result
        (λ o. (n : _) → o ≡ Some n →
        DiffersByPath g.now (mem removed) (mem (edges_of m.now)) (mem (edges_of n))) }
    ensures none { IfOk result (λ o. (o ≡ None) ↔ (HasPerfect g.now (mem removed) → ⊥)) }
{
    let n = g.order();
    let ends = g.edges();
    let given = m.marks(alloc, ends.len())?;
    let mate = mates_off(alloc, g, VSet::empty(), m)?;
    match perfect_edges(alloc, n, ends, g.rows(), removed, mate)? {
        Some(found) => {
            let mark = repaired_marks(alloc, n, ends, removed, given, &found)?;
            Ok(Some(matching_of(alloc, g, &mark)?))
        }
        None => Ok(None),
    }
}

// For each vertex its edge in a perfect matching of G - removed, or 0 if it is removed. The engine
// augments the matching with the given mates, if it can.
fn perfect_edges(
    alloc: Global,
    n: u32,
    ends: &[Ends],
    rows: &[VSet],
    removed: VSet,
    given: Vec<u32>,
) -> Result<Option<Vec<u32>>, Memory>
    requires row { IsGraphRow n ends.now }
    requires neighbours { AreRows (graph_of n ends.now) rows.now }
    requires long { length given.items ≡ n + 1 }
    requires mates { (m : Set) ×
        HasMates (graph_of n ends.now) (mem removed) m (numbers given.items) }
    ensures perfect { IfOk result
        (λ o. (at : _) → o ≡ Some at → NamesPerfect n (mem removed) ends.now at.items) }
    ensures none { IfOk result
        (λ o. (o ≡ None) ↔ (HasPerfect (graph_of n ends.now) (mem removed) → ⊥)) }
{
    let mut mate = given;
    let exposed = free(n, removed, &mate);
    let sets = enlarge(alloc, rows, removed, exposed, &mut mate)?;
    if sets.outer.len() == 0 {
        let at = paired_edges(alloc, n, ends, &mate)?;
        return Ok(Some(at));
    }
    Ok(None)
}

// For each vertex the least edge that joins it to its mate, or 0 if there is none.
fn paired_edges(alloc: Global, n: u32, ends: &[Ends], mate: &[u32]) -> Result<Vec<u32>, Memory>
    requires row { IsGraphRow n ends.now }
    requires long { length mate.now ≡ n + 1 }
    ensures length { IfOk result (λ at. length at.items ≡ n + 1) }
    ensures named { IfOk result (λ at. (r f : Set) →
        HasMates (graph_of n ends.now) r f (numbers mate.now) →
        (w : Set) × HasMates (graph_of n ends.now) r w (numbers mate.now) ×
        NamesEdges ends.now w at.items (length ends.now)) }
{
    let mut at = vec![in alloc; 0; n as usize + 1]?;
    for (k, e) in ends.iter().enumerate() {
        if is_first_of_pair(*e, mate, &at) {
            name_at_ends(&mut at, *e, k as u32 + 1);
        }
    }
    Ok(at)
}

// Writes an edge at both of its ends.
fn name_at_ends(at: &mut [u32], e: Ends, edge: u32)
    requires a { e.a < length at.old }
    requires b { e.b < length at.old }
    ensures { (v : ℕ) → numbers at.new v ≡
        with_mate (with_mate (numbers at.old) e.a edge) e.b edge v }
{
    at[e.a as usize] = edge;
    at[e.b as usize] = edge;
}

// Whether an edge joins two mates, and no edge is named for either.
fn is_first_of_pair(e: Ends, mate: &[u32], at: &[u32]) -> bool
    requires a { e.a < length mate.now }
    requires a_named { e.a < length at.now }
    requires b_named { e.b < length at.now }
    ensures { result ≡ ((numbers mate.now e.a == e.b) && (not (e.a == e.b) &&
        (numbers at.now e.a == 0 && (numbers at.now e.b == 0)))) }
{
    mate[e.a as usize] == e.b && (e.a != e.b && (at[e.a as usize] == 0 && at[e.b as usize] == 0))
}

// The marks of the repaired matching: the path from one missed vertex to the other is a part of the
// symmetric difference of the given matching and the found one.
fn repaired_marks(
    alloc: Global,
    n: u32,
    ends: &[Ends],
    removed: VSet,
    mark: Vec<bool>,
    found: &[u32],
) -> Result<Vec<bool>, Memory>
    requires row { IsGraphRow n ends.now }
    requires long { length mark.items ≡ length ends.now + 1 }
    requires matching { IsMatching (graph_of n ends.now) (mem removed) (marks mark.items) }
    requires two { missed_count (graph_of n ends.now) (mem removed) (marks mark.items) ≡ 2 }
    requires found { NamesPerfect n (mem removed) ends.now found.now }
    ensures long { IfOk result (λ new. length new.items ≡ length ends.now + 1) }
    ensures perfect { IfOk result
        (λ new. IsPerfect (graph_of n ends.now) (mem removed) (marks new.items)) }
    ensures path { IfOk result
        (λ new. DiffersByPath (graph_of n ends.now) (mem removed) (marks mark.items)
        (marks new.items)) }
{
    let edges = repair_path(alloc, n, ends, removed, &mark, found)?;
    Ok(flipped_along(mark, &edges))
}

// Exchanges the marks along a path, whose edges are a part of a row, pair by pair: the first edge
// of each pair becomes marked, the second unmarked.
fn exchange(mark: &mut [bool], edges: &[u32], from: usize, pairs: usize)
    requires long { from + (pairs + pairs) ≤ length edges.now }
    requires in_mark { (k : ℕ) → k < pairs + pairs →
        slice_index edges.now (from + k) < length mark.old }
    ensures { (e : ℕ) → marks mark.new e ≡ flipped (marks mark.old) (part edges.now from) pairs e }
{
    for i in 0..pairs {
        mark[edges[from + (i + i)] as usize] = true;
        mark[edges[from + (i + i + 1)] as usize] = false;
    }
}

// The marks exchanged along a path of odd length.
fn flipped_along(mark: Vec<bool>, edges: &[u32]) -> Vec<bool>
    requires some { 1 ≤ length edges.now }
    requires in_mark { (k : ℕ) → k < length edges.now → numbers edges.now k < length mark.items }
    ensures length { length result.items ≡ length mark.items }
    ensures each { (e : ℕ) →
        marks result.items e ≡ put
        (flipped (marks mark.items) (part edges.now 0) ((length edges.now - 1) / 2))
        (numbers edges.now (length edges.now - 1)) true e }
{
    let mut flipped = mark;
    let pairs = (edges.len() - 1) / 2;
    exchange(&mut flipped, edges, 0, pairs);
    mark_place(&mut flipped, edges[edges.len() - 1] as usize);
    flipped
}

// The edges of the path from one missed vertex to the other, alternately from the found matching
// and from the given one.
fn repair_path(
    alloc: Global,
    n: u32,
    ends: &[Ends],
    removed: VSet,
    mark: &[bool],
    found: &[u32],
) -> Result<Vec<u32>, Memory>
    requires row { IsGraphRow n ends.now }
    requires long { length mark.now ≡ length ends.now + 1 }
    requires matching { IsMatching (graph_of n ends.now) (mem removed) (marks mark.now) }
    requires found { NamesPerfect n (mem removed) ends.now found.now }
    requires two { missed_count (graph_of n ends.now) (mem removed) (marks mark.now) ≡ 2 }
    ensures { IfOk result
        (λ es. (x : ℕ) × Misses (graph_of n ends.now) (mem removed) (marks mark.now) x ×
        IsRepairRow (graph_of n ends.now) (mem removed) (marks mark.now) x es.items) }
{
    let at = matched_edges(alloc, n, ends, mark)?;
    match free(n, removed, &at).first() {
        Some(x) => walk(alloc, ends, &at, found, x),
        None => unreachable!(),
    }
}

// The edges of that path from its first vertex, given rows that name the edges of the matchings.
fn walk(alloc: Global, ends: &[Ends], at: &[u32], other: &[u32], x: u32) -> Result<Vec<u32>, Memory>
    requires { (n : ℕ) × (r : Set) × (m : Set) × (w : Set) ×
        StartsWalk n r m w ends.now at.now other.now x }
    ensures { IfOk result (λ es. (n : ℕ) (r m w : Set) →
        StartsWalk n r m w ends.now at.now other.now x →
        IsRepairRow (graph_of n ends.now) r m x es.items) }
{
    let mut edges = Vec::new(alloc);
    let mut v = x;
    'walking: loop {
        let next = match mate_at(ends, other, v) {
            Some(next) => next,
            None => unreachable!(),
        };
        edges.push(next.edge)?;
        match mate_at(ends, at, next.vertex) {
            None => return Ok(edges),
            Some(back) => {
                edges.push(back.edge)?;
                v = back.vertex;
            }
        }
    }
}

// For each vertex the marked edge that meets it, or 0 if there is none.
fn matched_edges(alloc: Global, n: u32, ends: &[Ends], mark: &[bool]) -> Result<Vec<u32>, Memory>
    requires row { IsGraphRow n ends.now }
    requires long { length mark.now ≡ length ends.now + 1 }
    ensures length { IfOk result (λ at. length at.items ≡ n + 1) }
    ensures named { IfOk result
        (λ at. NamesEdges ends.now (marks mark.now) at.items (length ends.now)) }
{
    let mut at = vec![in alloc; 0; n as usize + 1]?;
    for (k, e) in ends.iter().enumerate() {
        if mark[k + 1] {
            at[e.a as usize] = k as u32 + 1;
            at[e.b as usize] = k as u32 + 1;
        }
    }
    Ok(at)
}

// The vertices of 1 to `n` that are not removed and have no edge in the row.
fn free(n: u32, removed: VSet, at: &[u32]) -> VSet
    requires most { n ≤ MOST_VERTICES }
    requires long { length at.now ≡ n + 1 }
    ensures { (v : ℕ) → mem result v ≡
        ((nat_lt 0 v && nat_le v n) && (not (mem removed v) && (numbers at.now v == 0))) }
{
    let mut outer = VSet::empty();
    for i in 0..n {
        if !removed.contains(i + 1) && at[i as usize + 1] == 0 {
            outer = outer.with(i + 1);
        }
    }
    outer
}

// The edge of the row at a vertex with its other end; none if and only if the row has 0 there.
fn mate_at(ends: &[Ends], at: &[u32], v: u32) -> Option<Mate>
    requires within { v < length at.now }
    requires real { numbers at.now v ≢ 0 → Within (length ends.now) (numbers at.now v) }
    ensures none { result ≡ None → numbers at.now v ≡ 0 }
    ensures edge { (mate : _) → result ≡ Some mate →
        (mate.edge ≡ numbers at.now v) × (mate.edge ≢ 0) }
    ensures vertex { (mate : _) → result ≡ Some mate →
        mate.vertex ≡ cond (end_a ends.now (mate.edge - 1) == v) (end_b ends.now (mate.edge - 1))
        (end_a ends.now (mate.edge - 1)) }
{
    let edge = at[v as usize];
    if edge == 0 {
        return None;
    }
    let vertex = other_end(ends[edge as usize - 1], v);
    Some(Mate { edge, vertex })
}

// The end of an edge that is not `v`.
fn other_end(e: Ends, v: u32) -> u32
    ensures { result ≡ cond (e.a == v) e.b e.a }
{
    if e.a == v { e.b } else { e.a }
}
