//! Tight cuts: uncrossing, and the cuts of a decomposition as a maximal laminar family.
//!
//! Sources: Lovász, "Matching structure and the matching lattice" (1987); Lucchesi and Murty,
//! "Perfect Matchings" (2024).
ghost use Rattle.std.specs.Prelude.{ℕ, List, ◌↔◌, ◌≡◌, true, false};
ghost use Rattle.tree_check.specs.from_counting.Common.{IsIn, Within, count, is_odd, Set, meet, minus, union};
ghost use Rattle.graph_core.specs.Common.{IsCovered, Graph, IsGraph, IsTight, connects, size};
ghost use Rattle.tree_core.specs.Common.{IsDerivation, Shape, cut, shores};
ghost use Rattle.theorems.specs.TightCuts.{AreDistinct, IsMaximalLaminar};

/// Uncrossing: if X and Y are tight shores of a matching covered graph and |X ∩ Y| is odd, then
/// X ∩ Y and X ∪ Y are tight shores, and no edge joins X - Y and Y - X (Lovász 1987).
pub fn uncrossing_law()
    ensures tight { (g : Graph) (x y : Set) → IsGraph g → IsCovered g → IsTight g x → IsTight g y →
        is_odd (count g.order (meet x y)) ≡ true → IsTight g (meet x y) × IsTight g (union x y) }
    ensures edges { (g : Graph) (x y : Set) (e : ℕ) → IsGraph g → IsCovered g → IsTight g x →
        IsTight g y → is_odd (count g.order (meet x y)) ≡ true → Within (size g) e →
        connects g (minus x y) (minus y x) e ≡ false }
{}

/// The cuts of a tight cut decomposition are a maximal family of nontrivial tight cuts of which
/// no two cross, and no cut comes twice; and each such family of a matching covered graph is that
/// of a decomposition, whichever of its cuts is to come first. Lovász 1987; Lucchesi and Murty,
/// "Perfect Matchings".
pub fn laminar_law()
    ensures shores { (g : Graph) (t : Shape) → IsGraph g → IsDerivation g t →
        IsMaximalLaminar g (shores t) }
    ensures once { (g : Graph) (t : Shape) → IsGraph g → IsDerivation g t → AreDistinct (shores t) }
    ensures family { (g : Graph) (f : List (List ℕ)) → IsGraph g → IsCovered g →
        IsMaximalLaminar g f →
        (t : Shape) × IsDerivation g t × ((x : List ℕ) → IsIn x (shores t) ↔ IsIn x f) }
    ensures first { (g : Graph) (f : List (List ℕ)) (y : List ℕ) → IsGraph g → IsCovered g →
        IsMaximalLaminar g f → IsIn y f →
        (a b : Shape) × IsDerivation g (cut y a b) ×
        ((x : List ℕ) → IsIn x (shores (cut y a b)) ↔ IsIn x f) }
{}
