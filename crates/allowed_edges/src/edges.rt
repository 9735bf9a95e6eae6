//! The allowed edges: those in perfect matchings.
ghost use Rattle.std.specs.Prelude.{◌≡◌, ◌↔◌, None, IfSome, IfOk};
ghost use Rattle.graph_core.specs.from_counting.Common.{Within, none, Lists};
ghost use Rattle.graph_core.specs.Common.{size, Allowed, HasPerfect, is_allowed};
ghost use Rattle.match_core.specs.Common.{ArePartners};

use crate::perfect::partners_where_perfect;
use graph_core::{MultiGraph, Numbers};
use match_core::{PartnerTable, maximum};
use std::alloc::{AllocError as Memory, Global};

/// The edges that lie in perfect matchings, in increasing order. A graph without a perfect matching
/// has none. Takes one maximum matching, at most n searches and O(m) further steps, O(n^4 + m)
/// steps on words at most; the only error is `Memory`.
///
/// For the path of four vertices:
///
/// ```
/// let mut path = MultiGraph::new(alloc, 4)?;
/// for v in 1..4 {
///     path.add_edge(v, v + 1)?;
/// }
/// let edges = allowed(alloc, &path)?;
/// assert!(rt; edges.as_slice() == [1, 3].as_slice());
/// ```
pub fn allowed(alloc: Global, g: &MultiGraph) -> Result<Numbers, Memory>
    ensures { IfOk result (λ edges. Lists (size g.now) edges (Allowed g.now)) }
{
    let found = maximum(alloc, g)?;
    let table = partners_where_perfect(alloc, g, &found.matching)?;
    allowed_in(alloc, g, &table)
}

/// The edges that `allowed` returns, from the table of partners of `g` if it has a perfect
/// matching. Takes O(m) time; the only error is `Memory`.
pub fn allowed_in(
    alloc: Global,
    g: &MultiGraph,
    table: &Option<PartnerTable>,
) -> Result<Numbers, Memory>
    requires table { IfSome table.now (ArePartners g.now none) }
    requires perfect { (table.now ≡ None) ↔ ¬ (HasPerfect g.now none) }
    ensures { IfOk result (λ edges. Lists (size g.now) edges (Allowed g.now)) }
{
    match table {
        None => Ok(Numbers::new(alloc)),
        Some(table) => partnered(alloc, g, table),
    }
}

// The edges whose ends are partners.
fn partnered(alloc: Global, g: &MultiGraph, table: &PartnerTable) -> Result<Numbers, Memory>
    requires { ArePartners g.now none table.now }
    ensures { IfOk result (λ edges. Lists (size g.now) edges (Allowed g.now)) }
{
    let mut edges = Numbers::new(alloc);
    for k in 0..g.size() {
        if is_allowed_in(g, table, k + 1) {
            edges.push(k + 1)?;
        }
    }
    Ok(edges)
}

/// Whether edge `e` lies in a perfect matching: it does if and only if its ends are partners. Takes
/// no memory. Takes constant time.
pub fn is_allowed_in(g: &MultiGraph, table: &PartnerTable, e: u32) -> bool
    requires edge { Within (size g.now) e }
    requires table { ArePartners g.now none table.now }
    ensures { result ≡ is_allowed g.now e }
{
    g.keeps_limits();
    let ends = g.ends(e);
    table.of(ends.a).contains(ends.b)
}
