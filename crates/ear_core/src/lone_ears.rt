//! The search for a perfect matching that leads out of a stage at two of its vertices alone.
ghost use Rattle.std.specs.Prelude.{◌≡◌, ◌+◌, ◌<◌, ℕ, length, true, IfOk, IfSome, IfNone};
ghost use Rattle.graph_core.specs.from_counting.Common.{Within, mem, rising_list, Set, pair_set};
ghost use Rattle.graph_core.specs.Common.{size};
ghost use Rattle.two_ears.specs.from_match_core.Common.{edges_of};
ghost use Rattle.two_ears.specs.from_match_search.Common.{marks};
ghost use Rattle.ear_core.specs.Common.{AreTables, IsAsked, IsPerfectBy, IsPerfectRows, KeepsMates, LeadsAtTwo, by_rank, is_met, is_open, row_edge};

use crate::asking::marked_graph;
use crate::lone_tables::{Tables, lone_with, tables_of};
use crate::outer_table::OuterTable;
use crate::stage::Stage;
use graph_core::vset_core::VSet;
use graph_core::{MultiGraph, Numbers};
use std::alloc::{AllocError as Memory, Global};
use two_ears::match_core::{Matching, perfect_with, perfect_without};

// Whether edge `e` may lie in a perfect matching that leads out of the stage at the two vertices
// of `pair` alone. The stage of the marked edges meets the vertices `met`.
fn is_open(g: &MultiGraph, mark: &[bool], met: VSet, pair: VSet, e: u32) -> bool
    requires long { length mark.now ≡ size g.now + 1 }
    requires edge { Within (size g.now) e }
    ensures { (u v : ℕ) → ((w : ℕ) → mem met w ≡ is_met g.now (marks mark.now) w)
        → ((w : ℕ) → mem pair w ≡ pair_set u v w) → result ≡ is_open g.now (marks mark.now) u v e }
{
    g.keeps_limits();
    let ends = g.ends(e);
    let barred = if mark[e as usize] {
        pair
    } else {
        met.minus(pair)
    };
    !(barred.contains(ends.a) || barred.contains(ends.b))
}

// The marks of these edges.
fn open_edges(
    alloc: Global,
    g: &MultiGraph,
    mark: &[bool],
    met: VSet,
    pair: VSet,
) -> Result<Vec<bool>, Memory>
    requires long { length mark.now ≡ size g.now + 1 }
    ensures long { IfOk result (λ row. length row.items ≡ size g.now + 1) }
    ensures each { (u v : ℕ) → ((w : ℕ) → mem met w ≡ is_met g.now (marks mark.now) w)
        → ((w : ℕ) → mem pair w ≡ pair_set u v w) → IfOk result
        (λ row. (e : ℕ) → Within (size g.now) e →
        marks row.items e ≡ is_open g.now (marks mark.now) u v e) }
{
    let mut row = vec![in alloc; false; g.size() as usize + 1]?;
    for k in 0..g.size() {
        row[k as usize + 1] = is_open(g, mark, met, pair, k + 1);
    }
    Ok(row)
}

// Whether edge `e` is one of the matching.
fn has_edge(m: &Matching, e: u32) -> bool
    ensures { result ≡ mem (edges_of m.now) e }
{
    for i in 0..m.len() {
        if m.row(i).edge == e {
            return true;
        }
    }
    false
}

// The marked edges whose rank among the marked ones is an edge of `m`.
fn edges_by_rank(
    alloc: Global,
    g: &MultiGraph,
    row: &[bool],
    m: &Matching,
) -> Result<Numbers, Memory>
    requires { length row.now ≡ size g.now + 1 }
    ensures { IfOk result
        (λ es. es ≡ rising_list (size g.now) (by_rank (marks row.now) (mem (edges_of m.now)))) }
{
    let mut edges = Numbers::new(alloc);
    let mut rank = 0;
    for k in 0..g.size() {
        if row[k as usize + 1] {
            rank += 1;
            if has_edge(m, rank) {
                edges.push(k + 1)?;
            }
        }
    }
    Ok(edges)
}

// A perfect matching of `g` by marked edges.
fn perfect_by(alloc: Global, g: &MultiGraph, row: &[bool]) -> Result<Option<Matching>, Memory>
    requires { length row.now ≡ size g.now + 1 }
    ensures rows { IfOk result (λ o. IfSome o (IsPerfectRows g.now)) }
    ensures part { IfOk result
        (λ o. IfSome o (λ m. IsPerfectBy g.now (marks row.now) (mem (edges_of m)))) }
    ensures none { IfOk result
        (λ o. IfNone o ((m : Set) → IsPerfectBy g.now (marks row.now) m → ⊥)) }
{
    g.keeps_limits();
    let stage = marked_graph(alloc, g, row)?;
    let Some(found) = perfect_without(alloc, &stage, VSet::empty())? else {
        return Ok(None);
    };
    let edges = edges_by_rank(alloc, g, row, &found)?;
    match perfect_with(alloc, g, &edges)? {
        Some(m) => Ok(Some(m)),
        None => unreachable!(),
    }
}

// A perfect matching that leads out of the stage of the marked edges, which meets the vertices
// `met`, at `u` and `v` alone, where there is one.
fn matching_at(
    alloc: Global,
    g: &MultiGraph,
    mark: &[bool],
    met: VSet,
    u: u32,
    v: u32,
) -> Result<Matching, Memory>
    requires long { length mark.now ≡ size g.now + 1 }
    requires met { (w : ℕ) → mem met w ≡ is_met g.now (marks mark.now) w }
    requires first { Within g.now.order u }
    requires second { Within g.now.order v }
    requires there { (m : Set) × IsPerfectBy g.now (is_open g.now (marks mark.now) u v) m }
    ensures rows { IfOk result (IsPerfectRows g.now) }
    ensures part { IfOk result
        (λ m. IsPerfectBy g.now (is_open g.now (marks mark.now) u v) (mem (edges_of m))) }
{
    g.keeps_limits();
    let row = open_edges(alloc, g, mark, met, VSet::one(u).with(v))?;
    match perfect_by(alloc, g, &row)? {
        Some(m) => Ok(m),
        None => unreachable!(),
    }
}

// A perfect matching that leads out of the stage of the marked edges, which meets the vertices
// `met`, at two of them alone; `None` exactly when there is none. The tables tell the two; then one
// matching is made.
fn lone_by(
    alloc: Global,
    g: &MultiGraph,
    mark: &[bool],
    met: VSet,
    stage: &mut Stage,
    tables: &Tables,
) -> Result<Option<Matching>, Memory>
    requires long { length mark.now ≡ size g.now + 1 }
    requires met { (v : ℕ) → mem met v ≡ is_met g.now (marks mark.now) v }
    requires stage { IsAsked g.now (marks mark.now) stage.old }
    requires tables { AreTables g.now (marks mark.now) tables.now }
    ensures same { stage.new ≡ stage.old }
    ensures rows { IfOk result (λ o. IfSome o (IsPerfectRows g.now)) }
    ensures two { IfOk result
        (λ o. IfSome o (λ m. LeadsAtTwo g.now (marks mark.now) (mem (edges_of m)))) }
    ensures none { IfOk result
        (λ o. IfNone o ((m : Set) → LeadsAtTwo g.now (marks mark.now) m → ⊥)) }
{
    for k in 0..g.order() {
        let u = k + 1;
        let row = lone_with(alloc, g, mark, stage, tables, u)?;
        if let Some(v) = row.first() {
            let m = matching_at(alloc, g, mark, met, u, v)?;
            return Ok(Some(m));
        }
    }
    Ok(None)
}

/// A perfect matching that leads out of the stage of the marked edges at two of its vertices
/// alone; `None` exactly when there is none. The stage meets the vertices `met` and holds their
/// mates by the kept matching. The partners on it and those off it tell the two vertices; then one
/// matching is made. The table of those off it is kept for the next stage.
pub fn lone_matching(
    alloc: Global,
    g: &MultiGraph,
    mark: &[bool],
    met: VSet,
    stage: &mut Stage,
    kept: &Matching,
    last: &mut OuterTable,
) -> Result<Option<Matching>, Memory>
    requires long { length mark.now ≡ size g.now + 1 }
    requires met { (v : ℕ) → mem met v ≡ is_met g.now (marks mark.now) v }
    requires stage { IsAsked g.now (marks mark.now) stage.old }
    requires kept { IsPerfectRows g.now kept.now }
    requires mates { KeepsMates g.now (row_edge kept.now.rows) (is_met g.now (marks mark.now)) }
    requires last { last.old ≡ g.now }
    ensures last { last.new ≡ last.old }
    ensures same { stage.new ≡ stage.old }
    ensures rows { IfOk result (λ o. IfSome o (IsPerfectRows g.now)) }
    ensures two { IfOk result
        (λ o. IfSome o (λ m. LeadsAtTwo g.now (marks mark.now) (mem (edges_of m)))) }
    ensures none { IfOk result
        (λ o. IfNone o ((m : Set) → LeadsAtTwo g.now (marks mark.now) m → ⊥)) }
{
    let tables = tables_of(alloc, g, mark, met, kept, last)?;
    let found = lone_by(alloc, g, mark, met, stage, &tables)?;
    last.keep(met, tables.outer);
    Ok(found)
}
