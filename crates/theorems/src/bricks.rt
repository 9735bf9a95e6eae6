//! Bricks: barrier cuts and 2-separation cuts, where a nontrivial tight cut comes from, and which
//! graphs are bricks.
//!
//! Sources: Edmonds, Lovász and Pulleyblank, "Brick decompositions and the matching rank of
//! graphs" (Combinatorica 2, 1982); Carvalho, Lucchesi and Murty, "On tight cuts in matching
//! covered graphs" (Journal of Combinatorics, 2018); Chen, Feng, Lu, Lucchesi and Zhang, "Laminar
//! tight cuts in matching covered graphs" (Journal of Combinatorial Theory, Series B, 2021).
ghost use Rattle.std.specs.Prelude.{◌≡◌, ◌≢◌, ℕ, ◌+◌, ◌≤◌, ◌⊎◌, ◌↔◌, true, false, not};
ghost use Rattle.tree_check.specs.from_counting.Common.{Within, count, is_odd, pair_set, Set, singleton, union, complement};
ghost use Rattle.graph_core.specs.Common.{IsCovered, Graph, HasPerfect, IsBipartite, IsGraph, IsMultigraph, IsBarrier, IsBicritical, IsCutPair, HasOnlyTrivialTightCuts, IsNontrivial, IsTight, IsSide, first_end, in_cut, joined, second_end, size};
ghost use Rattle.barrier_kit.specs.Common.{BarrierCut};
ghost use Rattle.theorems.specs.Bricks.{HoldsReason, IsBarrierCutOf, IsElpCut, IsThreeConnected, SeparationCut};
ghost use Rattle.theorems.specs.TightCuts.{Cross};

/// The two kinds of cuts of the theorem below are tight, in the textbooks' definitions. In a
/// matching covered graph each component K of G - B, B a nonempty barrier, is a tight shore, which
/// is nontrivial if and only if |B| ≥ 2 and |K| > 1. A cut pair {u, v} of it is either a barrier or
/// a 2-separation: G - u - v has a perfect matching if and only if its components are even, and
/// otherwise {u, v} is a barrier. For a cut pair {u, v} of any graph such that G - u - v has a
/// perfect matching, each nonempty union of components of G - u - v, but not of all, is with u the
/// shore of a nontrivial tight cut (Edmonds, Lovász and Pulleyblank 1982; Lucchesi and Murty,
/// "Perfect Matchings").
pub fn elp_cuts_law()
    ensures barrier { (g : Graph) (s : Set) (a u : ℕ) → IsGraph g → IsCovered g → IsBarrier g s →
        Within g.order a → s a ≡ true → Within g.order u → s u ≡ false →
        IsTight g (joined g s u) × (IsNontrivial g.order (joined g s u) ↔
        ((2 ≤ count g.order s) × (count g.order (joined g s u) ≢ 1))) }
    ensures pair { (g : Graph) (u v : ℕ) → IsGraph g → IsCovered g → IsCutPair g u v →
        HasPerfect g (pair_set u v) ↔
        ((a : ℕ) → Within g.order a → pair_set u v a ≡ false →
        is_odd (count g.order (joined g (pair_set u v) a)) ≡ false) }
    ensures either { (g : Graph) (u v : ℕ) → IsGraph g → IsCovered g → IsCutPair g u v →
        HasPerfect g (pair_set u v) ↔ (¬ (IsBarrier g (pair_set u v))) }
    ensures separation { (g : Graph) (u v : ℕ) (m : Set) → IsGraph g → IsCutPair g u v →
        HasPerfect g (pair_set u v) → 1 ≤ count g.order m → count g.order m + 3 ≤ g.order →
        m u ≡ false → m v ≡ false →
        ((e : ℕ) → Within (size g) e → pair_set u v (first_end g e) ≡ false →
        pair_set u v (second_end g e) ≡ false → in_cut g m e ≡ false) →
        IsTight g (union m (singleton u)) × IsNontrivial g.order (union m (singleton u)) }
{}

/// The theorem of Edmonds, Lovász and Pulleyblank: a matching covered graph with a nontrivial
/// tight cut has a barrier cut or a 2-separation cut, which need not be the given one. In a
/// bipartite one each tight cut, trivial or not, has a shore that is a component of G - B for some
/// barrier B. A graph is a brick if and only if it has at least four vertices, is bicritical and
/// has no cut pair; a graph with at least four vertices has no cut pair if and only if it is
/// 3-connected; so a graph is a brick if and only if it is 3-connected and bicritical (Edmonds,
/// Lovász and Pulleyblank 1982; Lovász 1987). One of the shores of each nontrivial tight cut of a
/// matching covered graph contains a barrier with at least two vertices, or the shore of a
/// 2-separation cut (the latter if the graph is bicritical), so some ELP cut does not cross it. If
/// it is the only nontrivial tight cut that does not cross it, it is an ELP cut itself (conjectured
/// by Carvalho, Lucchesi and Murty 2018; Chen, Feng, Lu, Lucchesi and Zhang 2021).
pub fn elp_law()
    ensures cut { (g : Graph) (x : Set) → IsMultigraph g → IsCovered g →
        IsTight g x → IsNontrivial g.order x →
        ((s : Set) × IsBarrier g s × BarrierCut g s) ⊎
        ((u : ℕ) × (v : ℕ) × SeparationCut g u v) }
    ensures bipartite { (g : Graph) (a x : Set) → IsGraph g → IsCovered g → IsSide g a →
        IsTight g x → (s : Set) × IsBarrierCutOf g x s }
    ensures brick { (g : Graph) → IsMultigraph g →
        (IsCovered g × (¬ (IsBipartite g)) × HasOnlyTrivialTightCuts g) ↔
        ((4 ≤ g.order) × IsBicritical g × ((u v : ℕ) → ¬ (IsCutPair g u v))) }
    ensures connected { (g : Graph) → IsGraph g → 4 ≤ g.order →
        ((u v : ℕ) → ¬ (IsCutPair g u v)) ↔ IsThreeConnected g }
    ensures three_connected { (g : Graph) → IsMultigraph g →
        (IsCovered g × (¬ (IsBipartite g)) × HasOnlyTrivialTightCuts g) ↔
        (IsThreeConnected g × IsBicritical g) }
    ensures beside { (g : Graph) (x : Set) → IsGraph g → IsCovered g →
        IsTight g x → IsNontrivial g.order x →
        (y : Set) × IsElpCut g y × (¬ (Cross g.order x y)) }
    ensures inside { (g : Graph) (x : Set) → IsGraph g → IsCovered g →
        IsTight g x → IsNontrivial g.order x → HoldsReason g x ⊎ HoldsReason g (complement x) }
    ensures alone { (g : Graph) (x : Set) → IsGraph g → IsCovered g →
        IsTight g x → IsNontrivial g.order x →
        ((y : Set) → IsTight g y → IsNontrivial g.order y → ¬ (Cross g.order x y) →
        ((v : ℕ) → Within g.order v → x v ≡ y v) ⊎
        ((v : ℕ) → Within g.order v → x v ≡ not (y v))) → IsElpCut g x }
{}
