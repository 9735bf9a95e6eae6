//! What most calls need to know of a graph first: whether it is matching covered, and whether it is
//! bipartite.
ghost use Rattle.std.specs.Prelude.{◌↔◌, IsTrue, IfOk};
ghost use Rattle.graph_core.specs.Common.{IsCovered, IsBipartite};

use allowed_edges::covered;
use graph_core::{MultiGraph, Reason, Sides, Verdict};
use std::alloc::{AllocError as Memory, Global};

/// Whether the graph is matching covered.
pub fn is_covered(alloc: Global, g: &MultiGraph) -> Result<bool, Memory>
    ensures { IfOk result (λ yes. IsTrue yes ↔ IsCovered g.now) }
{
    g.keeps_limits();
    match covered(alloc, g)? {
        Verdict::Covered => Ok(true),
        // one reason is named, so that the borrow checker knows their type
        Verdict::NotCovered(Reason::Small) => Ok(false),
        Verdict::NotCovered(_) => Ok(false),
    }
}

/// Whether the graph is bipartite.
pub fn is_bipartite(alloc: Global, g: &MultiGraph) -> Result<bool, Memory>
    ensures { IfOk result (λ yes. IsTrue yes ↔ IsBipartite g.now) }
{
    match g.two_sides(alloc)? {
        Sides::Even { .. } => Ok(true),
        Sides::Odd { .. } => Ok(false),
    }
}
