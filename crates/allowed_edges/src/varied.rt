//! Perfect matchings varied so that they contain many pairs of edges that no earlier one contains:
//! the result of the exchanges is tested, and used only if it is a perfect matching with the two
//! edges.
ghost use Rattle.std.specs.Prelude.{◌≡◌, ℕ, ◌+◌, true, length, IfOk, Some};
ghost use Rattle.graph_core.specs.from_counting.Common.{Within, mem, none};
ghost use Rattle.graph_core.specs.Common.{size, IsMatching};
ghost use Rattle.match_core.specs.Common.{edges_of};
ghost use Rattle.match_core.specs.from_match_search.Common.{marks};
ghost use Rattle.allowed_edges.specs.PairTables.{IsPerfectWith, NamesEdge};

use crate::exchanges::{Joins, exchanged, is_edge, is_marked, number_at};
use crate::questions::misses_none;
use crate::table::EdgeTable;
use graph_core::MultiGraph;
use graph_core::vset_core::VSet;
use match_core::{Matching, matching_of};
use std::alloc::{AllocError as Memory, Global};

/// A perfect matching that contains `e` and `f`, made from a given one: exchanged so that it
/// contains more of the edges that lie with `e` or with `f` in no matching of the table, if the
/// result is a perfect matching, and otherwise the same.
pub(crate) fn varied(
    alloc: Global,
    g: &MultiGraph,
    joins: &Joins,
    table: &EdgeTable,
    found: Matching,
    e: u32,
    f: u32,
) -> Result<Matching, Memory>
    requires edge { Within (size g.now) e }
    requires other { Within (size g.now) f }
    requires found { IsPerfectWith g.now e found }
    requires held { mem (edges_of found) f ≡ true }
    ensures perfect { IfOk result (IsPerfectWith g.now e) }
    ensures held { IfOk result (λ m. mem (edges_of m) f ≡ true) }
{
    let at = exchanged(alloc, g, joins, table, &found, e, f)?;
    match perfect_from(alloc, g, &at, e, f)? {
        Some(other) => Ok(other),
        None => Ok(found),
    }
}

// The matching of the edges that both of their ends name, if it is perfect and contains `e` and
// `f`.
fn perfect_from(
    alloc: Global,
    g: &MultiGraph,
    at: &[u32],
    e: u32,
    f: u32,
) -> Result<Option<Matching>, Memory>
    requires edge { Within (size g.now) e }
    requires other { Within (size g.now) f }
    ensures perfect { IfOk result (λ o. (m : _) → o ≡ Some m → IsPerfectWith g.now e m) }
    ensures held { IfOk result (λ o. (m : _) → o ≡ Some m → mem (edges_of m) f ≡ true) }
{
    g.keeps_limits();
    let mark = named_marks(alloc, g, at)?;
    perfect_marked(alloc, g, &mark, e, f)
}

// The matching of the marked edges, if it is perfect and contains `e` and `f`.
fn perfect_marked(
    alloc: Global,
    g: &MultiGraph,
    mark: &[bool],
    e: u32,
    f: u32,
) -> Result<Option<Matching>, Memory>
    requires edge { Within (size g.now) e }
    requires other { Within (size g.now) f }
    requires long { length mark.now ≡ size g.now + 1 }
    requires matching { IsMatching g.now none (marks mark.now) }
    ensures perfect { IfOk result (λ o. (m : _) → o ≡ Some m → IsPerfectWith g.now e m) }
    ensures held { IfOk result (λ o. (m : _) → o ≡ Some m → mem (edges_of m) f ≡ true) }
{
    if !is_marked(mark, e) {
        return Ok(None);
    }
    if !is_marked(mark, f) {
        return Ok(None);
    }
    let found = matching_of(alloc, g, mark)?;
    if misses_none(g, &found, VSet::empty()) {
        return Ok(Some(found));
    }
    Ok(None)
}

// Marks on the edges that both of their ends name.
fn named_marks(alloc: Global, g: &MultiGraph, at: &[u32]) -> Result<Vec<bool>, Memory>
    ensures long { IfOk result (λ mark. length mark.items ≡ size g.now + 1) }
    ensures named { IfOk result
        (λ mark. (k : ℕ) → marks mark.items k ≡ true → NamesEdge g.now at.now k) }
{
    let mut mark = vec![in alloc; false; g.size() as usize + 1]?;
    for i in 0..g.order() {
        let k = number_at(at, i as usize + 1);
        if is_edge(g, k) {
            mark[k as usize] = is_named(g, at, k);
        }
    }
    Ok(mark)
}

// Whether both ends of edge `k` name it.
fn is_named(g: &MultiGraph, at: &[u32], k: u32) -> bool
    requires { Within (size g.now) k }
    ensures { result ≡ true → NamesEdge g.now at.now k }
{
    let ends = g.ends(k);
    let first = number_at(at, ends.a as usize);
    let second = number_at(at, ends.b as usize);
    first == k && second == k
}
