//! Verdicts of the crates above: whether a graph is matching covered, and of what kind it is.
use vset_core::VSet;

/// Why a graph is not matching covered: the first reason that applies, in this order.
#[derive(Clone, Copy, PartialEq, Eq)]
pub enum Reason {
    /// There are fewer than two vertices.
    Small,
    /// The graph is not connected: `a` is 1, and `b` is the least vertex of another component.
    Parted { a: u32, b: u32 },
    /// There is no perfect matching: `berge` is a Berge set.
    Unmatched { berge: VSet },
    /// `edge` is the least edge that is in no perfect matching.
    Unallowed { edge: u32 },
}

/// Whether a graph is matching covered (Lovász and Plummer, "Matching Theory", chapter 5).
#[derive(Clone, Copy, PartialEq, Eq)]
pub enum Verdict {
    /// It is: it has at least two vertices and is connected, and each edge is in a perfect
    /// matching.
    Covered,
    /// It is not, for this reason.
    NotCovered(Reason),
}

/// The kind of a matching covered graph (Lovász 1987).
#[derive(Clone, Copy, PartialEq, Eq)]
pub enum Kind {
    /// Bipartite, without a nontrivial tight cut.
    Brace,
    /// Not bipartite, without a nontrivial tight cut.
    Brick,
    /// With a nontrivial tight cut, of which `cut` is a shore.
    Composite { cut: VSet },
}
