//! Orders of functions: of a closure that is lent, and of one that a box keeps.
ghost use Rattle.std.specs.Prelude.{◌≡◌, ◌<◌, ◌^◌, ℕ, All, IfOk, Err, length};
ghost use Rattle.graph_core.specs.Common.{IsCovered, IsReason, reason_of};
ghost use Rattle.tree_core.specs.Common.{IsDerivation, shape_of};
ghost use Rattle.decomposer.specs.Common.{IsChoice, IsPicked, IsStoredIn, PicksReturned};

use crate::decomposition::places_picked_by;
use crate::orders::Order;
use crate::pickers::Asked;
use crate::trees::Refused;
use graph_core::MultiGraph;
use graph_core::vset_core::MOST_VERTICES;
use std::alloc::Global;
use tight_cuts::Candidate;
use tight_cuts::graph_facts::Covered;
use tree_core::Tree;

/// The tree of tight cuts that a function picks from `g`: at each node it is called with the
/// candidates there and the number of cuts before the node in preorder, and returns the place of
/// one of them, counted from 0. It may be any closure, and may borrow what it looks at.
///
/// The two conditions are what a caller proves of the function, at every choice that a call can get
/// (`IsChoice`): that it can be called, and that each number that it may return is a place in the
/// list. `NotCovered` comes if and only if `g` is not matching covered, with the first reason; the
/// other error is `Memory`. Costs what `decompose` costs with an order that gets all candidates, and
/// one call of the function at each of fewer than n nodes (Lovász 1987).
pub fn decompose_by<F: Fn(&[Candidate], usize) -> usize>(
    alloc: Global,
    g: &MultiGraph,
    function: &F,
) -> Result<Tree, Refused>
    requires callable { (list : _) (cuts : ℕ) → IsChoice g.now.order list.now cuts →
        F.pre function.now list cuts }
    requires in_range { (list : _) (cuts place : ℕ) → IsChoice g.now.order list.now cuts →
        F.post function.now list cuts place → place < length list.now }
    ensures derivation { IfOk result (λ tree. IsDerivation g.now (shape_of tree)) }
    ensures picked { IfOk result (λ tree.
        IsPicked (PicksReturned g.now.order (F.post function.now)) g.now (shape_of tree)) }
    ensures reason { (r : _) → result ≡ Err (Refused.NotCovered r) → IsReason g.now (reason_of r) }
    ensures uncovered { (r : _) → result ≡ Err (Refused.NotCovered r) → ¬ IsCovered g.now }
{
    g.keeps_limits();
    match Covered::of(alloc, g) {
        Err(_) => Err(Refused::Memory),
        Ok(Err(reason)) => Err(Refused::NotCovered(reason)),
        Ok(Ok(c)) => match places_picked_by(alloc, &c, &Asked { graph: g, function }) {
            Ok(found) => Ok(found.tree),
            Err(_) => Err(Refused::Memory),
        },
    }
}

/// A function that returns a place in a list of candidates, given how many cuts stand before the
/// node in preorder.
pub type Function = Box<dyn Fn(&[Candidate], usize) -> usize + Drop>;

/// The order of a function in a box, which owns what it captures: an order that can be kept.
/// `decompose_by` takes every closure, also one that borrows.
#[derive(Drop)]
pub struct ByFunction {
    pub function: Function,
    ghost callable: { (list : _) (cuts : ℕ) → IsChoice 128 list.now cuts →
        Function.pre function list cuts },
    ghost in_range: { (list : _) (cuts place : ℕ) → IsChoice 128 list.now cuts →
        Function.post function list cuts place → place < length list.now },
}

impl ByFunction {
    /// The order that asks the function. At every choice that a call can get, the function may be
    /// called, and each number that it may return is a place in the list. Takes no memory.
    pub fn new(function: Function) -> ByFunction
        requires callable { (list : _) (cuts : ℕ) → IsChoice MOST_VERTICES list.now cuts →
            Function.pre function list cuts }
        requires in_range { (list : _) (cuts place : ℕ) → IsChoice MOST_VERTICES list.now cuts →
            Function.post function list cuts place → place < length list.now }
        ensures { result.function ≡ function }
    {
        ByFunction { function }
    }

    // What the function returns.
    fn place(&self, list: &[Candidate], cuts: usize) -> usize
        requires { IsChoice MOST_VERTICES list.now cuts }
        ensures in_range { result < length list.now }
        ensures picked { Function.post self.now.function list.entry cuts result }
    {
        (self.function)(list, cuts)
    }
}

// The law that a number fits its type. It does nothing.
fn fits(number: u32)
    ensures { number < 2 ^ 32 }
{
    let _ = number;
}

// The law that candidates are such as code can hold. At run time it only walks through the list.
fn are_stored(list: &[Candidate])
    ensures { All (IsStoredIn MOST_VERTICES) list.now }
{
    for candidate in list {
        candidate.shore.rises();
        fits(candidate.inside);
        fits(candidate.outside);
    }
}

impl Order for ByFunction {
    ghost picks = { λ order. PicksReturned 128 (Function.post order.function) };

    fn pick(&self, list: &[Candidate], cuts: usize) -> usize {
        are_stored(list);
        self.place(list, cuts)
    }
}
