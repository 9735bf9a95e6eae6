//! Barriers.
ghost use Rattle.std.specs.Prelude.{◌≡◌, ◌↔◌, IfOk, IsTrue, length, count_by};
ghost use Rattle.graph_core.specs.from_counting.Common.{is_odd, mem, IsRisingIn};
ghost use Rattle.graph_core.specs.Common.{IsBarrier};

use graph_core::MultiGraph;
use graph_core::vset_core::VSet;
use std::alloc::{AllocError as Memory, Global};

// Whether the set has an odd number of members.
fn is_odd_set(set: VSet) -> bool
    ensures { result ≡ is_odd (length set) }
{
    set.len() % 2 == 1
}

// How many of the sets have an odd number of members.
fn count_odd(sets: &[VSet]) -> usize
    ensures { result ≡ count_by (λ set. is_odd (length set)) sets.now }
{
    sets.iter().filter(|set| is_odd_set(**set)).count()
}

/// Whether `set`, a set S of vertices, is a barrier of `g`, covered or not: o(G - S) = |S|, where o
/// counts the odd components (Lovász and Plummer, "Matching Theory", chapter 3). Takes O(n) steps
/// on words; the only error is `Memory`.
pub fn is_barrier(alloc: Global, g: &MultiGraph, set: VSet) -> Result<bool, Memory>
    requires { IsRisingIn g.now.order set }
    ensures { IfOk result (λ barrier. IsTrue barrier ↔ IsBarrier g.now (mem set)) }
{
    let parts = g.components_without(alloc, set)?;
    Ok(count_odd(parts.as_slice()) == set.len() as usize)
}
