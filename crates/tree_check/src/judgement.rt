//! What a check of a tree answers.
use graph_core::vset_core::VSet;
use graph_core::{Numbers, Reason};
use tree_core::Tally;

/// Why a node is refused: the first of these that applies. A cut is refused by the first four, a
/// leaf by the last.
#[derive(Drop)]
pub enum Why {
    /// The shore is not a union of blocks at this node.
    NotBlocks,
    /// The shore has an even number of blocks.
    Even,
    /// Fewer than three blocks are inside the shore, or outside.
    Trivial,
    /// The cut is not tight: the edges listed are a perfect matching at the node's partition with
    /// at least two edges in the cut.
    NotTight { matching: Numbers },
    /// A leaf stands where there is a nontrivial tight cut: `cut` is the shore of the first
    /// candidate there.
    NotLeaf { cut: VSet },
}

/// What a scan finds of a tree of a covered graph.
#[derive(Drop)]
pub enum Scanned {
    /// The tree is a derivation of the graph, with so many leaves.
    Passed { tally: Tally },
    /// The tree is not a derivation of the graph: `node` is the first node in preorder, counted
    /// from 1, that breaks a rule.
    Refused { node: u32, why: Why },
}

/// The answer to a tree.
#[derive(Drop)]
pub enum Judgement {
    /// The graph is matching covered, and the tree is a derivation of it.
    Accepted,
    /// The graph is not matching covered, for this reason.
    NotCovered(Reason),
    /// The tree is not a derivation of the graph: `node` is the first node in preorder, counted
    /// from 1, that breaks a rule.
    Refused { node: u32, why: Why },
}
