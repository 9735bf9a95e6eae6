//! The reasons of refusals.

/// Why a graph is not matching covered.
#[derive(Clone, Copy, Debug, PartialEq, Eq)]
pub enum CoverFault {
    /// It has fewer than two vertices.
    Small,
    /// No path leads from vertex `a` to vertex `b`.
    Parted { a: u32, b: u32 },
    /// It has no perfect matching.
    Unmatched,
    /// This edge is in no perfect matching.
    Unallowed { edge: u32 },
}

/// What is wrong with a node of a tree of cuts.
#[derive(Clone, Copy, Debug, PartialEq, Eq)]
pub enum NodeFault {
    /// The shore is not a union of blocks.
    NotBlocks,
    /// The shore has an even number of blocks.
    Even,
    /// One of the two shores has fewer than three blocks.
    Trivial,
    /// The cut is not tight.
    NotTight,
    /// The node is a leaf, but there is a nontrivial tight cut.
    NotLeaf,
}

/// What is wrong with a step of an ear list.
#[derive(Clone, Copy, Debug, PartialEq, Eq)]
pub enum EarFault {
    /// An ear is not a path.
    NotPath,
    /// An ear has an even number of edges.
    EvenLength,
    /// The ends of an ear are not two different vertices of the subgraph before the step.
    BadEnds,
    /// An inner vertex of an ear is in that subgraph, or on the first ear of the step.
    InnerOnStage,
    /// An edge of an ear is in that subgraph, or on the first ear of the step.
    EdgeUsed,
    /// After the step this edge is in no perfect matching of the subgraph.
    StageNotCovered { edge: u32 },
    /// After the last step this edge has not been added.
    EndsEarly { edge: u32 },
}

/// Why a move on a tree of cuts has no result.
#[derive(Clone, Copy, Debug, PartialEq, Eq)]
pub enum StuckFault {
    /// The path leads to no cut; or it leads to the root, which Rotate cannot bring further up.
    NoCut,
    /// Rotate: the shore of the cut meets that of its parent, but does not contain it.
    Crossing,
    /// Switch: one of the two sets is not a nonempty proper subset of its side of the cut.
    NotParts,
}
