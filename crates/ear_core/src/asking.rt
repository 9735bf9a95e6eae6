//! The graph of a stage, of which the matching engine is asked.
ghost use Rattle.std.specs.Prelude.{◌≡◌, ◌+◌, ℕ, true, false, length, IfOk};
ghost use Rattle.graph_core.specs.from_counting.Common.{mem, Set};
ghost use Rattle.graph_core.specs.Common.{Graph, size, with_ends};
ghost use Rattle.two_ears.specs.from_match_search.Common.{marks};
ghost use Rattle.ear_core.specs.Common.{Serves, IsAsked, listed, is_met};

use graph_core::MultiGraph;
use graph_core::vset_core::VSet;
use std::alloc::{AllocError as Memory, Global};
use two_ears::match_core::perfect_without;

/// The graph of the marked edges, on all vertices.
pub fn marked_graph(alloc: Global, g: &MultiGraph, mark: &[bool]) -> Result<MultiGraph, Memory>
    requires { length mark.now ≡ size g.now + 1 }
    ensures { IfOk result
        (λ stage. stage ≡ with_ends g.now (listed g.now (marks mark.now) (size g.now))) }
{
    let mut stage = MultiGraph::new(alloc, g.order())?;
    for k in 0..g.size() {
        if mark[k as usize + 1] {
            stage.push_edge(g.ends(k + 1))?;
        }
    }
    Ok(stage)
}

/// The graph of a stage as the matching engine is asked about it: on all vertices, beside those
/// off the stage.
#[derive(Drop)]
pub struct Asked {
    pub stage: MultiGraph,
    pub outside: VSet,
}

/// The graph of the marked edges, which meet the vertices `met`.
pub fn asked_about(alloc: Global, g: &MultiGraph, mark: &[bool], met: VSet) -> Result<Asked, Memory>
    requires long { length mark.now ≡ size g.now + 1 }
    requires met { (v : ℕ) → mem met v ≡ is_met g.now (marks mark.now) v }
    ensures asked { IfOk result (IsAsked g.now (marks mark.now)) }
    ensures stage { IfOk result
        (λ asked. asked.stage ≡ with_ends g.now (listed g.now (marks mark.now) (size g.now))) }
{
    let stage = marked_graph(alloc, g, mark)?;
    let outside = VSet::full(g.order()).minus(met);
    Ok(Asked { stage, outside })
}

/// Whether the stage has a perfect matching without the vertices of a set.
pub fn serves(alloc: Global, asked: &Asked, ends: VSet) -> Result<bool, Memory>
    ensures yes { (g : Graph) (f : Set) → IsAsked g f asked.now →
        IfOk result (λ b. b ≡ true → Serves g f (mem ends)) }
    ensures no { (g : Graph) (f : Set) → IsAsked g f asked.now →
        IfOk result (λ b. b ≡ false → Serves g f (mem ends) → ⊥) }
{
    let Some(_) = perfect_without(alloc, &asked.stage, asked.outside.union(ends))? else {
        return Ok(false);
    };
    Ok(true)
}
