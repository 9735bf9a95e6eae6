//! The laws on graph6 texts. Each law is the contract of a function that does nothing.
ghost use Rattle.std.specs.Prelude.{◌≡◌, ℕ, List, Ok};
ghost use Rattle.graph_core.specs.Common.{Graph, IsSimple, IsWithinLimits};
ghost use Rattle.graph6_text.specs.Common.{IsBare, outcome_of, graph6_of, ReadsBack};

/// The text is canonical: a text without header and line end that stands for a graph is exactly the
/// text written for this graph, which is simple.
pub fn canonical_law()
    ensures { (text : List ℕ) (g : Graph) → IsBare text → outcome_of text ≡ Ok g →
        IsSimple g × (graph6_of g ≡ text) }
{}

/// Reading what was written: the text of a graph within the limits stands for a simple graph of the
/// same order with the same adjacent pairs.
#[tactic(auto, using(crate::proofs::ReadBack::reads_back))]
pub fn read_back_law()
    ensures { (g : Graph) → IsWithinLimits g → ReadsBack (graph6_of g) g }
{}
