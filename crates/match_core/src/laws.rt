//! The theorem of Tutte and Berge.
ghost use Rattle.graph_core.specs.from_counting.Common.{Set, Outside};
ghost use Rattle.graph_core.specs.Common.{Graph, IsGraph, IsBergeSet};

/// The theorem of Tutte and Berge: for every graph G and removed set R some set S outside R is a
/// Berge set of G - R. That is, some matching of G - R misses exactly o(G - R - S) - |S| vertices.
pub fn tutte_berge_law()
    ensures { (g : Graph) (r : Set) → IsGraph g → (s : Set) × Outside r s × IsBergeSet g r s }
{}
