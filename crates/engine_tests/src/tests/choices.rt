//! Decompositions in several orders, for the tests that need a derivation.
ghost use Rattle.std.specs.Prelude.{◌≡◌, ◌<◌, ℕ, length, IfOk, Some};
ghost use Rattle.tree_core.specs.Common.{IsDerivation, shape_of};

use decomposer::{ByFunction, NamedOrder, Refused, Scripted, decompose, decompose_by};
use graph_core::MultiGraph;
use std::alloc::{AllocError as Memory, Global};
use tree_check::tight_cuts::Candidate;
use tree_core::Tree;

/// An order of choice.
#[derive(Clone, Copy)]
pub enum Choice {
    /// An order that has a name.
    Named(NamedOrder),
    /// The order of a list of picks, with one for the root: the candidate at place 2, of three.
    Scripted,
    /// The order of a function in a box: the last candidate.
    Boxed,
    /// The order of a closure that borrows the graph: the first candidate, since each covered graph
    /// has an even number of vertices.
    Borrowing,
}

/// The order of the first candidates.
pub const FIRST: Choice = Choice::Named(NamedOrder::First);

/// The order of the last candidates.
pub const LAST: Choice = Choice::Named(NamedOrder::Last);

/// The decomposition of a graph in an order.
pub fn decomposed(alloc: Global, g: &MultiGraph, choice: Choice) -> Result<Tree, Refused>
    ensures { IfOk result (λ tree. IsDerivation g.now (shape_of tree)) }
{
    match choice {
        Choice::Named(order) => decompose(alloc, g, &order),
        Choice::Scripted => decompose(alloc, g, &Scripted { picks: &[2] }),
        Choice::Boxed => decomposed_by_box(alloc, g),
        Choice::Borrowing => decomposed_by_parity(alloc, g),
    }
}

// The decomposition in the order of a closure that borrows the graph: the first place at an even
// number of vertices, and the last one at an odd number.
fn decomposed_by_parity(alloc: Global, g: &MultiGraph) -> Result<Tree, Refused>
    ensures { IfOk result (λ tree. IsDerivation g.now (shape_of tree)) }
{
    let by_parity = |list: &[Candidate], _cuts: usize| if g.order() % 2 == 0 {
        0
    } else {
        list.len() - 1
    };
    decompose_by(alloc, g, &by_parity)
}

// The decomposition in the order of a function in a box, which returns the last place.
fn decomposed_by_box(alloc: Global, g: &MultiGraph) -> Result<Tree, Refused>
    ensures { IfOk result (λ tree. IsDerivation g.now (shape_of tree)) }
{
    let last = |list: &[Candidate], _cuts: usize| -> usize
        requires { 0 < length list.now }
        ensures { result < length list.now }
    { list.len() - 1 };
    match Box::new(alloc, last) {
        Ok(function) => decompose(alloc, g, &ByFunction::new(function)),
        Err(_) => Err(Refused::Memory),
    }
}

/// The derivation in an order; none if the graph is refused.
pub fn derived(alloc: Global, g: &MultiGraph, choice: Choice) -> Result<Option<Tree>, Memory>
    ensures { IfOk result (λ o. (t : _) → o ≡ Some t → IsDerivation g.now (shape_of t)) }
{
    match decomposed(alloc, g, choice) {
        Ok(tree) => Ok(Some(tree)),
        Err(Refused::NotCovered(_)) => Ok(None),
        Err(Refused::Memory) => Err(Memory),
    }
}
