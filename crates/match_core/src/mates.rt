//! The mates of the rows of a matching that meet no vertex of a set.
ghost use Rattle.std.specs.Prelude.{◌≡◌, ℕ, ◌+◌, ◌-◌, ◌≤◌, length, IfOk, All};
ghost use Rattle.graph_core.specs.from_counting.Common.{Within, mem};
ghost use Rattle.match_search.specs.Common.{HasMates, numbers};
ghost use Rattle.match_core.specs.HeldMates.{NamesRows};
ghost use Rattle.match_core.specs.MatchingRows.{IsOf, edges_of, left_over};

use crate::matching::Matching;
use graph_core::MultiGraph;
use graph_core::vset_core::{MOST_VERTICES, VSet};
use match_search::join;
use std::alloc::{AllocError as Memory, Global};

/// The mates of the edges of `m` that meet no removed vertex, in one pass over its rows.
pub(crate) fn mates_off(
    alloc: Global,
    g: &MultiGraph,
    removed: VSet,
    m: &Matching,
) -> Result<Vec<u32>, Memory>
    requires { IsOf g.now m.now }
    ensures long { IfOk result (λ mate. length mate.items ≡ g.now.order + 1) }
    ensures mates { IfOk result (λ mate. HasMates g.now (mem removed)
        (left_over g.now (mem removed) (mem (edges_of m.now))) (numbers mate.items)) }
{
    g.keeps_limits();
    m.keeps_matching();
    let mut mate = vec![in alloc; 0; g.order() as usize + 1]?;
    write_rows(&mut mate, removed, m);
    Ok(mate)
}

// Writes the mates into a row of zeros.
fn write_rows(mate: &mut [u32], removed: VSet, m: &Matching)
    requires within { All (λ row. Within (length mate.old - 1) row.a ×
        Within (length mate.old - 1) row.b) m.now.rows }
    requires few { length mate.old ≤ MOST_VERTICES + 1 }
    requires zeros { (v : ℕ) → numbers mate.old v ≡ 0 }
    ensures { NamesRows (mem removed) m.now.rows mate.new (length m.now.rows) }
{
    for i in 0..m.len() {
        let row = m.row(i);
        if !removed.contains(row.a) && !removed.contains(row.b) {
            join(mate, row.a, row.b);
        }
    }
}
