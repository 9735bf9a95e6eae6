//! Whether a graph has a perfect matching, and its table of partners if it has one.
ghost use Rattle.std.specs.Prelude.{◌≡◌, ◌↔◌, None, IsTrue, IfSome, IfOk};
ghost use Rattle.graph_core.specs.from_counting.Common.{mem, none};
ghost use Rattle.graph_core.specs.Common.{HasPerfect, IsMaximum};
ghost use Rattle.match_core.specs.Common.{IsOf, edges_of, ArePartners};

use crate::questions::misses_none;
use graph_core::MultiGraph;
use graph_core::vset_core::VSet;
use match_core::{Matching, PartnerTable, partners};
use std::alloc::{AllocError as Memory, Global};

/// The table of partners of `g`, from a maximum matching; `None` if and only if the graph has no
/// perfect matching. No table is made then, since it would say nothing about the edges. Takes at
/// most n searches, O(n^3) steps on words; the only error is `Memory`.
pub fn partners_where_perfect(
    alloc: Global,
    g: &MultiGraph,
    m: &Matching,
) -> Result<Option<PartnerTable>, Memory>
    requires of { IsOf g.now m.now }
    requires maximum { IsMaximum g.now none (mem (edges_of m.now)) }
    ensures table { IfOk result (λ table. IfSome table (ArePartners g.now none)) }
    ensures perfect { IfOk result (λ table. (table ≡ None) ↔ ¬ (HasPerfect g.now none)) }
{
    if is_perfect(g, m) {
        let table = partners(alloc, g, VSet::empty(), m)?;
        return Ok(Some(table));
    }
    Ok(None)
}

// Whether a maximum matching is perfect, that is, whether the graph has a perfect matching.
fn is_perfect(g: &MultiGraph, m: &Matching) -> bool
    requires of { IsOf g.now m.now }
    requires maximum { IsMaximum g.now none (mem (edges_of m.now)) }
    ensures { IsTrue result ↔ HasPerfect g.now none }
{
    g.keeps_limits();
    misses_none(g, m, VSet::empty())
}
