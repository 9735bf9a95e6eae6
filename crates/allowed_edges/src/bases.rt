//! Perfect matchings from which a search for another one starts.
ghost use Rattle.std.specs.Prelude.{◌≡◌, true, IfOk, Some, None};
ghost use Rattle.graph_core.specs.from_counting.Common.{Within, mem, none};
ghost use Rattle.graph_core.specs.Common.{size, Allowed, IsPerfect};
ghost use Rattle.match_core.specs.Common.{IsOf, edges_of};
ghost use Rattle.allowed_edges.specs.PairTables.{IsPerfectWith, SettlesEdges};

use crate::pair_table::PairTable;
use crate::questions::perfect_with_edge;
use graph_core::MultiGraph;
use graph_core::vset_core::VSet;
use match_core::Matching;
use std::alloc::{AllocError as Memory, Global};

/// A perfect matching that contains `e`: a listed one if there is one, otherwise one that at most
/// one augmentation of `kept` gives; `None` only if no perfect matching contains it. Takes O(n)
/// time for each listed matching, and O(n^3 + m) steps on words at most for an augmentation; the
/// only error is `Memory`.
pub fn base_with_edge(
    alloc: Global,
    g: &MultiGraph,
    kept: &Matching,
    pairs: &PairTable,
    e: u32,
) -> Result<Option<Matching>, Memory>
    requires edge { Within (size g.now) e }
    requires of { IsOf g.now kept.now }
    requires perfect { IsPerfect g.now none (mem (edges_of kept.now)) }
    requires begun { SettlesEdges g.now 1 pairs.now }
    ensures some { IfOk result (λ o. (m : _) → o ≡ Some m → IsPerfectWith g.now e m) }
    ensures none { IfOk result (λ o. o ≡ None → Allowed g.now e → ⊥) }
{
    match listed_base(alloc, g, pairs, e)? {
        Some(base) => Ok(Some(base)),
        None => perfect_with_edge(alloc, g, kept, e),
    }
}

// The first listed matching that contains `e`.
fn listed_base(
    alloc: Global,
    g: &MultiGraph,
    pairs: &PairTable,
    e: u32,
) -> Result<Option<Matching>, Memory>
    requires begun { SettlesEdges g.now 1 pairs.now }
    ensures { IfOk result (λ o. (m : _) → o ≡ Some m → IsPerfectWith g.now e m) }
{
    let list = pairs.list();
    for i in 0..list.len() {
        let m = &list[i];
        if holds(m, e) {
            let base = copied(alloc, m)?;
            return Ok(Some(base));
        }
    }
    Ok(None)
}

// Whether the matching contains `e`.
fn holds(m: &Matching, e: u32) -> bool
    ensures { result ≡ true → mem (edges_of m.now) e ≡ true }
{
    for i in 0..m.len() {
        if m.row(i).edge == e {
            return true;
        }
    }
    false
}

/// A copy of the matching.
pub(crate) fn copied(alloc: Global, m: &Matching) -> Result<Matching, Memory>
    ensures { IfOk result (λ copy. copy ≡ m.now) }
{
    let copy = m.cleared(alloc, VSet::empty())?;
    Ok(copy)
}
