//! From the mates of a matching back to its edges: of parallel edges the least is marked.
ghost use Rattle.std.specs.Prelude.{◌≡◌, ◌+◌, ◌<◌, ◌==◌, length, IfOk};
ghost use Rattle.graph_core.specs.from_counting.Common.{Set};
ghost use Rattle.graph_core.specs.Common.{graph_of};
ghost use Rattle.match_search.specs.Common.{HasMates, marks, numbers, IsGraphRow};

use crate::best::is_addable;
use crate::rows::{falses, mark_place};
use graph_core::Ends;
use graph_core::vset_core::VSet;
use std::alloc::{AllocError as Memory, Global};

/// The marks of a matching with these mates: for each pair the least edge that joins it.
pub fn marks_of(alloc: Global, n: u32, ends: &[Ends], mate: &[u32]) -> Result<Vec<bool>, Memory>
    requires row { IsGraphRow n ends.now }
    requires long { length mate.now ≡ n + 1 }
    ensures long { IfOk result (λ mark. length mark.items ≡ length ends.now + 1) }
    ensures mates { IfOk result (λ mark. (r m : Set) →
        HasMates (graph_of n ends.now) r m (numbers mate.now) →
        HasMates (graph_of n ends.now) r (marks mark.items) (numbers mate.now)) }
{
    let mut mark = falses(alloc, ends.len() + 1)?;
    let mut seen = VSet::empty();
    for (k, e) in ends.iter().enumerate() {
        if is_pair(*e, mate) {
            if is_addable(*e, seen) {
                mark_place(&mut mark, k + 1);
                seen = seen.with(e.a).with(e.b);
            }
        }
    }
    Ok(mark)
}

// Whether the second end of an edge is the mate of the first.
fn is_pair(e: Ends, mate: &[u32]) -> bool
    requires { e.a < length mate.now }
    ensures { result ≡ (numbers mate.now e.a == e.b) }
{
    mate[e.a as usize] == e.b
}
