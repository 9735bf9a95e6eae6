//! The kind of a covered graph.
ghost use Rattle.std.specs.Prelude.{◌≡◌, ◌↔◌, IfOk, None, Some};
ghost use Rattle.graph_core.specs.from_counting.Common.{mem};
ghost use Rattle.graph_core.specs.Common.{IsCovered, HasOnlyTrivialTightCuts, IsNontrivial, IsTight};
ghost use Rattle.tight_cuts.specs.Common.{candidates, first_shore};
ghost use Rattle.leaf_kinds.specs.LeafKinds.{IsKind, IsThreeConnectedAndBicritical, cut_of};

use graph_core::vset_core::VSet;
use graph_core::{Kind, MultiGraph};
use std::alloc::{AllocError as Memory, Global};
use tight_cuts::first_cut;
use tight_cuts::graph_facts::Covered;
use tight_cuts::separation_kit::{FirstPairs, brick_conditions_law};

/// The kind of a covered graph (Lovász 1987): composite if and only if it has a nontrivial tight
/// cut, with the shore that `find_any` returns; otherwise a brace if it is bipartite, and a brick
/// if not. A graph that is called a brick has at least four vertices, is bicritical and has no cut
/// pair. Costs what `find_any` costs; the only error is `Memory`.
///
/// Here `hexagon` makes the cycle of the vertices 1 to 6:
///
/// ```
/// let graph = hexagon(alloc)?;
/// let Ok(covered) = Covered::of(alloc, &graph)? else {
///     return Err("not matching covered".into());
/// };
/// covered.keeps_covered();
/// let cut = VSet::one(2).with(3).with(4);
/// assert!(rt; kind(alloc, &graph)? == Kind::Composite { cut });
/// ```
pub fn kind(alloc: Global, g: &MultiGraph) -> Result<Kind, Memory>
    requires { IsCovered g.now }
    ensures kind { IfOk result (IsKind g.now) }
    ensures cut { IfOk result (λ kind. cut_of kind ≡ first_shore (candidates g.now)) }
    ensures brick { IfOk result (λ kind. kind ≡ Kind.Brick → IsThreeConnectedAndBicritical g.now) }
{
    let covered = Covered::known(alloc, g)?;
    kind_of(alloc, &FirstPairs::of(&covered))
}

/// The kind that `kind` returns, of a covered graph with its first pairs. Costs what
/// `first_candidate` costs; the only error is `Memory`.
pub fn kind_of(alloc: Global, pairs: &FirstPairs) -> Result<Kind, Memory>
    ensures kind { IfOk result (IsKind pairs.now) }
    ensures cut { IfOk result (λ kind. cut_of kind ≡ first_shore (candidates pairs.now)) }
    ensures brick { IfOk result (λ kind. kind ≡ Kind.Brick →
        IsThreeConnectedAndBicritical pairs.now) }
{
    let cut = first_cut(alloc, pairs)?;
    Ok(kind_by_cut(pairs, cut))
}

// The kind, given the shore of the first candidate.
fn kind_by_cut(pairs: &FirstPairs, cut: Option<VSet>) -> Kind
    requires first { cut ≡ first_shore (candidates pairs.now) }
    requires some { (s : _) → cut ≡ Some s →
        IsTight pairs.now (mem s) × IsNontrivial pairs.now.order (mem s) }
    requires none { (cut ≡ None) ↔ HasOnlyTrivialTightCuts pairs.now }
    ensures kind { IsKind pairs.now result }
    ensures cut { cut_of result ≡ first_shore (candidates pairs.now) }
    ensures brick { result ≡ Kind.Brick → IsThreeConnectedAndBicritical pairs.now }
{
    pairs.keeps_covered();
    brick_conditions_law();
    if let Some(cut) = cut {
        return Kind::Composite { cut };
    }
    if pairs.is_bipartite() {
        return Kind::Brace;
    }
    Kind::Brick
}
