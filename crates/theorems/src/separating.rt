//! Separating cuts.
//!
//! Source: Carvalho, Lucchesi and Murty, "On a conjecture of Lovász concerning bricks" (2002).
ghost use Rattle.std.specs.Prelude.{◌≡◌, ℕ, List, ◌↔◌, true, false};
ghost use Rattle.tree_check.specs.from_counting.Common.{Within, complement, count, is_odd, IsRisingIn, mem, Set};
ghost use Rattle.graph_core.specs.Common.{Graph, IsConnected, IsCovered, IsGraph, IsSide, IsTight};
ghost use Rattle.theorems.specs.Separating.{IsMetOnce, IsSeparating};

/// Separating cuts: a cut of a connected graph is separating (both contractions are matching
/// covered) if and only if each edge is in a perfect matching that has exactly one edge in the cut.
/// Both shores of a separating cut are odd. A tight cut of a matching covered graph is separating;
/// in a bipartite one each separating cut is tight (Carvalho, Lucchesi and Murty 2002).
pub fn separating_law()
    ensures meets { (g : Graph) (x : List ℕ) (u v : ℕ) → IsGraph g → IsConnected g →
        IsRisingIn g.order x → Within g.order u → Within g.order v →
        mem x u ≡ true → mem x v ≡ false → IsSeparating g x ↔ IsMetOnce g (mem x) }
    ensures odd { (g : Graph) (x : List ℕ) (u v : ℕ) → IsGraph g → IsConnected g →
        IsRisingIn g.order x → Within g.order u → Within g.order v →
        mem x u ≡ true → mem x v ≡ false → IsSeparating g x →
        (is_odd (count g.order (mem x)) ≡ true) ×
        (is_odd (count g.order (complement (mem x))) ≡ true) }
    ensures tight { (g : Graph) (x : List ℕ) → IsGraph g → IsCovered g → IsRisingIn g.order x →
        IsTight g (mem x) → IsSeparating g x }
    ensures bipartite { (g : Graph) (a : Set) (x : List ℕ) (u v : ℕ) → IsGraph g → IsCovered g →
        IsSide g a → IsRisingIn g.order x → Within g.order u → Within g.order v →
        mem x u ≡ true → mem x v ≡ false → IsSeparating g x → IsTight g (mem x) }
{}
