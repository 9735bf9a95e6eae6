//! The ears that two perfect matchings make at a stage.
ghost use Rattle.std.specs.Prelude.{◌≡◌, ◌++◌, ◌||◌, ◌==◌, ◌+◌, ℕ, true, false, length, List, map, IfOk, IfSome, IfNone};
ghost use Rattle.graph_core.specs.from_counting.Common.{Within, mem};
ghost use Rattle.graph_core.specs.Common.{size};
ghost use Rattle.two_ears.specs.from_match_search.Common.{marks};
ghost use Rattle.ear_core.specs.Common.{IsPerfectRows, row_edge, mate, KeepsMates, IsClear, IsTraced, HoldsMatesOff, AreMatedEars, is_left, PlainEar, other_end, is_met, ear_of};

use crate::ears::Ear;
use graph_core::vset_core::VSet;
use graph_core::{MultiGraph, Numbers};
use std::alloc::{AllocError as Memory, Global};
use two_ears::match_core::{MatchRow, Matching};

/// An edge of a perfect matching at a vertex, and its other end.
#[derive(Clone, Copy)]
pub struct MatchedEnd {
    pub edge: u32,
    pub vertex: u32,
}

// Whether the row is at `v`.
fn is_at(row: MatchRow, v: u32) -> bool
    ensures { result ≡ (row.a == v || row.b == v) }
{
    row.a == v || row.b == v
}

// The edge of a perfect matching at `v`.
fn edge_at(m: &Matching, v: u32) -> u32
    ensures { result ≡ row_edge m.now.rows v }
{
    for i in 0..m.len() {
        let row = m.row(i);
        if is_at(row, v) {
            return row.edge;
        }
    }
    0
}

// The edge of a perfect matching at `v`, and the mate of `v`.
fn mate_of(g: &MultiGraph, m: &Matching, v: u32) -> MatchedEnd
    requires vertex { Within g.now.order v }
    requires perfect { IsPerfectRows g.now m.now }
    ensures edge { result.edge ≡ row_edge m.now.rows v }
    ensures within { Within (size g.now) result.edge }
    ensures mate { result.vertex ≡ mate g.now (row_edge m.now.rows) v }
    ensures vertex { Within g.now.order result.vertex }
{
    g.keeps_limits();
    let edge = edge_at(m, v);
    let vertex = across(g, edge, v);
    MatchedEnd { edge, vertex }
}

/// The end of edge `e` other than `v`; of an edge that is not at `v` its first end.
pub fn across(g: &MultiGraph, e: u32, v: u32) -> u32
    requires { Within (size g.now) e }
    ensures { result ≡ other_end g.now e v }
{
    let ends = g.ends(e);
    if ends.a == v { ends.b } else { ends.a }
}

// Appends the edges of `m` and `n` in turn from `v` to the first vertex of the stage, and answers
// the vertices used, with those of the path. The stage meets the vertices `met`.
fn trace(
    g: &MultiGraph,
    met: VSet,
    m: &Matching,
    n: &Matching,
    v: u32,
    used: VSet,
    edges: &mut Numbers,
) -> Result<VSet, Memory>
    requires vertex { Within g.now.order v }
    requires leading { IsPerfectRows g.now m.now }
    requires kept { IsPerfectRows g.now n.now }
    requires mates { KeepsMates g.now (row_edge n.now.rows) (mem met) }
    requires clear { IsClear g.now (mem met) (row_edge m.now.rows) (row_edge n.now.rows) (mem used)
        v }
    ensures { IfOk result
        (λ after. IsTraced g.now (mem met) (row_edge m.now.rows) (row_edge n.now.rows) (mem used) v
        edges.old edges.new (mem after)) }
{
    g.keeps_limits();
    let out = mate_of(g, m, v);
    edges.push(out.edge)?;
    let passed = used.with(v).with(out.vertex);
    if met.contains(out.vertex) {
        return Ok(passed);
    }
    let back = mate_of(g, n, out.vertex);
    edges.push(back.edge)?;
    trace(g, met, m, n, back.vertex, passed, edges)
}

// The least vertex of the stage that `m` leads out of the stage and that is not used.
fn left_vertex(g: &MultiGraph, mark: &[bool], met: VSet, m: &Matching, used: VSet) -> Option<u32>
    requires long { length mark.now ≡ size g.now + 1 }
    requires leading { IsPerfectRows g.now m.now }
    ensures some { IfSome result
        (λ v. Within g.now.order v ×
        (is_left (mem met) (marks mark.now) (row_edge m.now.rows) (mem used) v ≡ true)) }
    ensures none { IfNone result
        ((v : ℕ) → Within g.now.order v →
        is_left (mem met) (marks mark.now) (row_edge m.now.rows) (mem used) v ≡ false) }
{
    for k in 0..g.order() {
        let v = k + 1;
        let out = mate_of(g, m, v);
        if met.contains(v) && !mark[out.edge as usize] && !used.contains(v) {
            return Some(v);
        }
    }
    None
}

/// Appends the ears that two perfect matchings make off the vertices used: `m` leads out of the
/// stage of the marked edges, which meets the vertices `met`, and `n` keeps the stage.
pub fn collect(
    alloc: Global,
    g: &MultiGraph,
    mark: &[bool],
    met: VSet,
    m: &Matching,
    n: &Matching,
    used: VSet,
    ears: &mut Vec<Ear>,
) -> Result<(), Memory>
    requires long { length mark.now ≡ size g.now + 1 }
    requires met { (v : ℕ) → mem met v ≡ is_met g.now (marks mark.now) v }
    requires leading { IsPerfectRows g.now m.now }
    requires kept { IsPerfectRows g.now n.now }
    requires mates { KeepsMates g.now (row_edge n.now.rows) (mem met) }
    requires holds { HoldsMatesOff g.now (mem met) (row_edge m.now.rows) (row_edge n.now.rows)
        (mem used) }
    ensures { IfOk result
        (λ _. (more : List PlainEar) ×
        (map ear_of ears.new.items ≡ map ear_of ears.old.items ++ more) ×
        AreMatedEars g.now (marks mark.now) (row_edge m.now.rows) (row_edge n.now.rows)
        (mem used) more) }
{
    g.keeps_limits();
    let Some(v) = left_vertex(g, mark, met, m, used) else {
        return Ok(());
    };
    let mut edges = Numbers::new(alloc);
    let after = trace(g, met, m, n, v, used, &mut edges)?;
    ears.push(Ear { from: v, edges })?;
    collect(alloc, g, mark, met, m, n, after, ears)
}
