//! Why a move has no result.
ghost use Rattle.std.specs.Prelude.{◌≡◌, ◌≢◌, ◌↔◌, IsTrue, ℕ};
ghost use Rattle.graph_core.specs.Common.{Graph};
ghost use Rattle.tree_core.specs.Common.{IsDerivation, move_of, shape_of};
ghost use Rattle.bench_outcomes.specs.Common.{HasNoResult, IsStuckBy, leads_to_cut, stuck_fault};
ghost use Rattle.refusals.specs.declared.faults.StuckFault.TheVariants.{Crossing};

use refusals::StuckFault;
use tree_core::{Move, Side, Tree};

// Whether the path leads to a cut. Takes no memory.
fn leads_to_cut(tree: &Tree, path: &[Side]) -> bool
    ensures { IsTrue result ↔ IsTrue (leads_to_cut path.now (shape_of tree.now)) }
{
    match tree {
        Tree::Leaf => false,
        Tree::Cut { kept, merged, .. } => match path.split_first() {
            None => true,
            Some((Side::Kept, rest)) => leads_to_cut(kept, rest),
            Some((Side::Merged, rest)) => leads_to_cut(merged, rest),
        },
    }
}

/// Why the move has no result on this tree, if it has none. In a derivation no shores cross, so two
/// reasons are left there. Takes no memory.
#[tactic(auto, using(crate::proofs::StuckMoves::stuck_by))]
pub fn stuck_fault(tree: &Tree, step: &Move) -> StuckFault
    ensures fault { result ≡ stuck_fault (move_of step.now) (shape_of tree.now) }
    ensures reason { (n : ℕ) → HasNoResult n (shape_of tree.now) (move_of step.now)
        ↔ IsStuckBy n (shape_of tree.now) (move_of step.now) result }
    ensures nested { (g : Graph) → IsDerivation g (shape_of tree.now)
        → HasNoResult g.order (shape_of tree.now) (move_of step.now) → result ≢ Crossing }
{
    match step {
        Move::Rotate { path } if path.as_slice().is_empty() => StuckFault::NoCut,
        Move::Rotate { path } if leads_to_cut(tree, path.as_slice()) => StuckFault::Crossing,
        Move::Rotate { .. } => StuckFault::NoCut,
        Move::Switch { path, .. } if leads_to_cut(tree, path.as_slice()) => StuckFault::NotParts,
        Move::Switch { .. } => StuckFault::NoCut,
    }
}
