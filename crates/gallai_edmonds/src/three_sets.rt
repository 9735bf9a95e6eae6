//! The three sets.
ghost use Rattle.std.specs.Prelude.{◌≤◌, IfOk};
ghost use Rattle.graph_core.specs.from_counting.Common.{Lists};
ghost use Rattle.graph_core.specs.Common.{InD, InA, InC};

use graph_core::vset_core::VSet;
use graph_core::{MultiGraph, ThreeSets};
use graph_facts::Facts;
use std::alloc::{AllocError as Memory, Global};

/// The Gallai-Edmonds sets of `g`: D, the vertices that some maximum matching misses; A, the other
/// vertices adjacent to D; and C, the rest (Gallai 1964; Edmonds 1965; Lovász and Plummer,
/// "Matching Theory", chapter 3). Costs what `Facts::of` costs, O(n^4 + m) steps on words at most;
/// the only error is `Memory`.
///
/// For the path of three vertices:
///
/// ```
/// let mut path = MultiGraph::new(alloc, 3)?;
/// path.add_edge(1, 2)?;
/// path.add_edge(2, 3)?;
/// let found = sets(alloc, &path)?;
/// assert!(rt; found.d == VSet::one(1).with(3) && found.a == VSet::one(2));
/// assert!(rt; found.c == VSet::empty());
/// ```
pub fn sets(alloc: Global, g: &MultiGraph) -> Result<ThreeSets, Memory>
    ensures d { IfOk result (λ s. Lists g.now.order s.d (InD g.now)) }
    ensures a { IfOk result (λ s. Lists g.now.order s.a (InA g.now)) }
    ensures c { IfOk result (λ s. Lists g.now.order s.c (InC g.now)) }
{
    Ok(sets_of(&Facts::of(alloc, g)?))
}

/// The sets that `sets` returns, of a graph whose facts are known. Takes no memory.
pub fn sets_of(facts: &Facts) -> ThreeSets
    ensures d { Lists facts.now.order result.d (InD facts.now) }
    ensures a { Lists facts.now.order result.a (InA facts.now) }
    ensures c { Lists facts.now.order result.c (InC facts.now) }
{
    let frame = facts.frame();
    let met = frame.outer.union(frame.inner);
    let rest = VSet::full(facts.order()).minus(met);
    rest.rises();
    ThreeSets {
        d: frame.outer,
        a: frame.inner,
        c: rest,
    }
}
