//! The quick test for bricks.
ghost use Rattle.std.specs.Prelude.{◌≡◌, ◌↔◌, ◌++◌, ℕ, None, IfOk, IfSome, slice_get};
ghost use Rattle.graph_core.specs.Common.{IsCovered, IsBipartite, IsBicritical, IsCutPair, HasOnlyTrivialTightCuts, IsCanonicalCut};
ghost use Rattle.matching_digraph.specs.from_barrier_kit.Common.{barrier_cuts};
ghost use Rattle.brick_kit.specs.from_separation_kit.Common.{separation_cuts};

use brick_kit::separation_kit::separation_cuts;
use graph_core::MultiGraph;
use graph_core::vset_core::VSet;
use matching_digraph::barrier_kit::barrier_cuts;
use std::alloc::{AllocError as Memory, Global};

/// A nontrivial tight cut of a nonbipartite covered graph, by its canonical shore: the first of
/// `barrier_cuts`, or if there is none, the first of `separation_cuts`. `None` comes if and only if
/// no nontrivial shore is tight, that is, for the bricks (clause `brick`), which are the graphs
/// that are bicritical and have no cut pair (Edmonds, Lovász and Pulleyblank 1982). Costs what
/// `barrier_cuts` costs, and what `separation_cuts` costs if there is no barrier cut; the only
/// error is `Memory`.
pub fn quick_brick(alloc: Global, g: &MultiGraph) -> Result<Option<VSet>, Memory>
    requires covered { IsCovered g.now }
    requires odd { ¬ (IsBipartite g.now) }
    ensures none { IfOk result
        (λ found. (found ≡ None) ↔ (IsBicritical g.now × ((u v : ℕ) → ¬ (IsCutPair g.now u v)))) }
    ensures brick { IfOk result (λ found. (found ≡ None) ↔ HasOnlyTrivialTightCuts g.now) }
    ensures first { IfOk result
        (λ found. found ≡ slice_get (barrier_cuts g.now ++ separation_cuts g.now) 0) }
    ensures cut { IfOk result (λ found. IfSome found (IsCanonicalCut g.now)) }
{
    g.keeps_limits();
    let cuts = barrier_cuts(alloc, g)?;
    if !cuts.is_empty() {
        return Ok(Some(cuts.get(0)));
    }
    let others = separation_cuts(alloc, g)?;
    if !others.is_empty() {
        return Ok(Some(others.get(0)));
    }
    Ok(None)
}
