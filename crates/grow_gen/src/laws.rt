//! The laws on splices and on grown graphs. Each is the contract of a function that does nothing.
ghost use Rattle.std.specs.Prelude.{◌≡◌, ℕ, ◌<◌, ◌≤◌};
ghost use Rattle.graph_core.specs.from_counting.Common.{Within};
ghost use Rattle.graph_core.specs.Common.{Graph, IsMultigraph, IsCovered, IsSimple};
ghost use Rattle.grow_gen.specs.Common.{IsCubic, splice, permutation};

/// Splicing: the splice of two cubic multigraphs is a cubic multigraph. It has no parallel edges if
/// neither graph has any, and it is covered if both are.
pub fn splice_law()
    ensures multigraph { (g h : Graph) (w i : ℕ) → IsMultigraph g → IsMultigraph h → IsCubic g →
        IsCubic h → 2 ≤ h.order →
        Within g.order w → i < 6 → IsMultigraph (splice g w h (permutation i)) }
    ensures cubic { (g h : Graph) (w i : ℕ) → IsMultigraph g → IsMultigraph h → IsCubic g →
        IsCubic h → 2 ≤ h.order →
        Within g.order w → i < 6 → IsCubic (splice g w h (permutation i)) }
    ensures simple { (g h : Graph) (w i : ℕ) → IsMultigraph g → IsMultigraph h → IsCubic g →
        IsCubic h → 2 ≤ h.order →
        Within g.order w → i < 6 → IsSimple g → IsSimple h →
        IsSimple (splice g w h (permutation i)) }
    ensures covered { (g h : Graph) (w i : ℕ) → IsMultigraph g → IsMultigraph h → IsCubic g →
        IsCubic h → IsCovered g → IsCovered h →
        Within g.order w → i < 6 → IsCovered (splice g w h (permutation i)) }
{}
