//! A decomposition in this order, and its check.
ghost use Rattle.std.specs.Prelude.{◌≡◌, ◌<◌, ◌-◌, ◌^◌, ℕ, length, IfOk, Err};
ghost use Rattle.graph_core.specs.Common.{IsReason, reason_of};
ghost use Rattle.graph_core.specs.from_line_text.declared.faults.TextFault.{TextFault};
ghost use Rattle.graph_core.specs.declared.verdict.Reason.{Reason};
ghost use Rattle.graph_core.specs.from_line_text.Common.{Stands, IsFirstFault};
ghost use Rattle.graph_text.specs.Common.{either_version, named_graph};
ghost use Rattle.tree_core.specs.Common.{IsDerivation, shape_of};
ghost use Rattle.decomposer.specs.Common.{IsPicked};
ghost use Rattle.example_order.specs.Failures.{IsUncoveredText};
ghost use Rattle.example_order.specs.WidestCuts.{PicksWidest};

use crate::widest_cuts::Widest;
use decomposer::{Refused, decompose};
use graph_core::line_text::TextFault;
use graph_core::{MultiGraph, Reason};
use graph_text::{Named, read_any};
use std::alloc::Global;
use tree_check::{Judgement, check};
use tree_core::Tree;

/// Why there is no decomposition.
#[derive(Drop)]
pub enum Failed {
    /// The text does not stand for a graph: its first error, which may be lack of memory.
    Text(TextFault),
    /// The graph is not matching covered, for this reason.
    NotCovered(Reason),
    /// Out of memory.
    Memory,
}

/// A graph with the names of its vertices, a derivation of it, and what `check` says of that.
#[derive(Drop)]
pub struct Decomposed {
    pub named: Named,
    pub tree: Tree,
    pub judgement: Judgement,
}

// The derivation in the order of the widest cuts.
fn widest_tree(alloc: Global, g: &MultiGraph) -> Result<Tree, Failed>
    ensures derivation { IfOk result (λ tree. IsDerivation g.now (shape_of tree)) }
    ensures picked { IfOk result (λ tree. IsPicked (PicksWidest g.now) g.now (shape_of tree)) }
    ensures uncovered { (reason : Reason) → result ≡ Err (Failed.NotCovered reason)
        → IsReason g.now (reason_of reason) }
    ensures text { (fault : TextFault) → result ≡ Err (Failed.Text fault) → ⊥ }
{
    match decompose(alloc, g, &Widest { graph: g }) {
        Ok(tree) => Ok(tree),
        Err(Refused::NotCovered(reason)) => Err(Failed::NotCovered(reason)),
        Err(Refused::Memory) => Err(Failed::Memory),
    }
}

/// Reads the text of a graph, in either version of the graph format, decomposes the graph by the
/// widest cuts, and has the derivation checked. The error is a `Failed`: `Text` if and only if the
/// text does not stand for a graph, with its first error, or if memory runs out; `NotCovered` if
/// and only if the graph is not matching covered; else `Memory`. Costs what `decompose` costs,
/// O(c m) time at each node with c candidates, and what `check` costs.
pub fn decompose_widest(alloc: Global, text: &[u8]) -> Result<Decomposed, Failed>
    requires { length text.now < 2 ^ 32 - 1 }
    ensures stands { IfOk result (λ made. Stands either_version text.now (named_graph made.named)) }
    ensures derivation { IfOk result (λ made.
        IsDerivation made.named.graph (shape_of made.tree)) }
    ensures picked { IfOk result (λ made.
        IsPicked (PicksWidest made.named.graph) made.named.graph (shape_of made.tree)) }
    ensures accepted { IfOk result (λ made. made.judgement ≡ Judgement.Accepted) }
    ensures text { (fault : TextFault) → result ≡ Err (Failed.Text fault)
        → IsFirstFault either_version text.now fault }
    ensures uncovered { (reason : Reason) → result ≡ Err (Failed.NotCovered reason)
        → IsUncoveredText text.now reason }
{
    let named = match read_any(alloc, text) {
        Ok(named) => named,
        Err(fault) => return Err(Failed::Text(fault)),
    };
    named.graph.keeps_limits();
    let tree = widest_tree(alloc, &named.graph)?;
    let Ok(judgement) = check(alloc, &named.graph, &tree) else {
        return Err(Failed::Memory);
    };
    Ok(Decomposed {
        named,
        tree,
        judgement,
    })
}
