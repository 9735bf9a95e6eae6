//! Decompositions in the order of a closure: alternately by the first and by the last candidate,
//! and by the widest cut.
ghost use Rattle.std.specs.Prelude.{◌≡◌, IfOk, Err};
ghost use Rattle.graph_core.specs.Common.{IsReason, reason_of};
ghost use Rattle.tree_core.specs.Common.{IsDerivation, shape_of};
ghost use Rattle.decomposer.specs.Common.{IsPicked};
ghost use Rattle.example_order.specs.Turns.{PicksByTurns};
ghost use Rattle.example_order.specs.WidestCuts.{PicksWidest};

use crate::widest_cuts::widest_place;
use decomposer::{Refused, decompose_by};
use graph_core::MultiGraph;
use std::alloc::Global;
use tree_check::tight_cuts::Candidate;
use tree_core::Tree;

/// Decomposes the graph by the first candidate if the number of cuts before the node is even, and
/// otherwise by the last one. `NotCovered` comes if and only if the graph is not matching covered,
/// with the first reason; the other error is `Memory`. Costs what `decompose_by` costs.
pub fn decompose_by_turns(alloc: Global, g: &MultiGraph) -> Result<Tree, Refused>
    ensures derivation { IfOk result (λ tree. IsDerivation g.now (shape_of tree)) }
    ensures picked { IfOk result (λ tree. IsPicked PicksByTurns g.now (shape_of tree)) }
    ensures reason { (r : _) → result ≡ Err (Refused.NotCovered r) → IsReason g.now (reason_of r) }
{
    let by_turns = |list: &[Candidate], cuts: usize| if cuts % 2 == 0 { 0 } else { list.len() - 1 };
    decompose_by(alloc, g, &by_turns)
}

/// Decomposes the graph by the widest cuts, as `decompose_widest` does, with a closure that looks at
/// the graph. `NotCovered` comes if and only if the graph is not matching covered, with the first
/// reason; the other error is `Memory`. Costs what `decompose_by` costs, and O(c m) time at each node
/// with c candidates.
pub fn decompose_by_width(alloc: Global, g: &MultiGraph) -> Result<Tree, Refused>
    ensures derivation { IfOk result (λ tree. IsDerivation g.now (shape_of tree)) }
    ensures picked { IfOk result (λ tree. IsPicked (PicksWidest g.now) g.now (shape_of tree)) }
    ensures reason { (r : _) → result ≡ Err (Refused.NotCovered r) → IsReason g.now (reason_of r) }
{
    let widest = |list: &[Candidate], _cuts: usize| widest_place(g, list);
    decompose_by(alloc, g, &widest)
}
