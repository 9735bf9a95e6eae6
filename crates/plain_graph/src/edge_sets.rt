//! All sets of edges.
ghost use Rattle.std.specs.Prelude.{◌≡◌, ◌≤◌, ◌+◌, ◌++◌, ◌∷◌, [], All, IfOk, OnOk, map};
ghost use Rattle.allowed_edges.specs.from_counting.Common.{IsRisingIn};
ghost use Rattle.plain_graph.specs.Subsets.{subsets};

use crate::MOST_PLAIN_EDGES;
use graph_core::SetList;
use graph_core::vset_core::VSet;
use std::alloc::{AllocError as Memory, Global};

/// Appends each set once more, with the next number added.
fn add_with_next(sets: &mut SetList, before: u32) -> Result<(), Memory>
    requires few { before + 1 ≤ MOST_PLAIN_EDGES }
    requires below { All (IsRisingIn before) sets.old }
    ensures { OnOk result (sets.new ≡ sets.old ++ map (λ xs. xs ++ (before + 1) ∷ []) sets.old) }
{
    for i in 0..sets.len() {
        let more = sets.get(i).with(before + 1);
        more.rises();
        sets.push(more)?;
    }
    Ok(())
}

/// All sets of numbers 1 to `m`.
pub(crate) fn edge_sets(alloc: Global, m: u32) -> Result<SetList, Memory>
    requires { m ≤ MOST_PLAIN_EDGES }
    ensures { IfOk result (λ sets. sets ≡ subsets m) }
{
    let mut sets = SetList::new(alloc);
    sets.push(VSet::empty())?;
    for i in 0..m {
        add_with_next(&mut sets, i)?;
    }
    Ok(sets)
}
