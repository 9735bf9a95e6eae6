//! The trees of decompositions, without their leaves.
ghost use Rattle.std.specs.Prelude.{◌≡◌, IfOk, Err};
ghost use Rattle.graph_core.specs.Common.{IsCovered, IsReason, reason_of};
ghost use Rattle.tree_core.specs.Common.{IsDerivation, shape_of};
ghost use Rattle.decomposer.specs.Common.{IsPicked};

use crate::decomposition::decompose_places;
use crate::orders::Order;
use graph_core::{MultiGraph, Reason};
use std::alloc::{AllocError, Global};
use tight_cuts::graph_facts::Covered;
use tree_core::Tree;

/// Why there is no decomposition.
#[derive(Clone, Copy, PartialEq, Eq)]
pub enum Refused {
    /// The graph is not matching covered, for this reason.
    NotCovered(Reason),
    /// There is not enough memory.
    Memory,
}

/// The tree of tight cuts that `order` picks from `g` (Lovász 1987). At the node with k cuts before
/// it in preorder the order is asked with the candidates there and with k; the node is the cut of
/// the candidate that it picks, and a leaf if and only if there is none. `NotCovered` comes if and
/// only if `g` is not matching covered, with the first reason; the other error is `Memory`. At each
/// of fewer than n nodes it costs what `KnownPlace::of` and `candidates` cost there, or
/// `first_candidate` for an order that takes the first.
///
/// Here `hexagon` makes the cycle of the vertices 1 to 6:
///
/// ```
/// let graph = hexagon(alloc)?;
/// let Ok(tree) = decompose(alloc, &graph, &NamedOrder::First) else {
///     return Err("not matching covered, or out of memory".into());
/// };
/// let Tree::Cut { shore, .. } = &tree else {
///     return Err("a cycle of six vertices is not a brace".into());
/// };
/// assert!(rt; *shore == VSet::one(2).with(3).with(4));
/// ```
pub fn decompose<O: Order>(alloc: Global, g: &MultiGraph, order: &O) -> Result<Tree, Refused>
    ensures derivation { IfOk result (λ tree. IsDerivation g.now (shape_of tree)) }
    ensures picked { IfOk result (λ tree. IsPicked (O.picks order.now) g.now (shape_of tree)) }
    ensures reason { (r : _) → result ≡ Err (Refused.NotCovered r) → IsReason g.now (reason_of r) }
    ensures uncovered { (r : _) → result ≡ Err (Refused.NotCovered r) → ¬ IsCovered g.now }
{
    g.keeps_limits();
    match Covered::of(alloc, g) {
        Err(_) => Err(Refused::Memory),
        Ok(Err(reason)) => Err(Refused::NotCovered(reason)),
        Ok(Ok(c)) => match decompose_covered(alloc, &c, order) {
            Ok(tree) => Ok(tree),
            Err(_) => Err(Refused::Memory),
        },
    }
}

/// The tree that `decompose` returns, of a graph that is known to be covered. What is known of the
/// graph is not sought again. Costs what `decompose` costs, less the first `Covered::of`; the only
/// error is `AllocError`, out of memory.
pub fn decompose_covered<O: Order>(
    alloc: Global,
    c: &Covered,
    order: &O,
) -> Result<Tree, AllocError>
    ensures derivation { IfOk result (λ tree. IsDerivation c.now (shape_of tree)) }
    ensures picked { IfOk result (λ tree. IsPicked (O.picks order.now) c.now (shape_of tree)) }
{
    let found = decompose_places(alloc, c, order)?;
    Ok(found.tree)
}
