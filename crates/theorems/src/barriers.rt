//! Barriers and the canonical partition.
//!
//! Sources: Kotzig, "On the theory of finite graphs with a linear factor" (1959); Lovász, "On the
//! structure of factorizable graphs" (1972); Lovász and Plummer, "Matching Theory" (1986), chapter
//! 5; Lucchesi and Murty, "Perfect Matchings" (2024).
ghost use Rattle.std.specs.Prelude.{◌≡◌, ℕ, ◌↔◌, true, false};
ghost use Rattle.tree_check.specs.from_counting.Common.{Within, count, is_odd, none, Set};
ghost use Rattle.graph_core.specs.Common.{Allowed, component_count, Equivalent, first_end, Graph, HasPerfect, IsBarrier, IsBicritical, IsClass, IsCovered, IsGraph, joined, second_end, size};
ghost use Rattle.theorems.specs.Barriers.{IsElementary, IsMaximalBarrier};
ghost use Rattle.theorems.specs.Matchings.{IsFactorCritical};

/// The canonical partition: in an elementary graph "a = b, or G - a - b has no perfect matching" is
/// an equivalence of vertices. Its classes are the maximal barriers; each nonempty barrier is
/// contained in exactly one class; a nonempty barrier B leaves |B| components, all odd, and those
/// that a class leaves are factor-critical. A matching covered graph is elementary. In any graph an
/// edge is in a perfect matching if and only if its ends are not equivalent, a graph is bicritical
/// if and only if no two different vertices are, and if it has a perfect matching, the components
/// that a maximal barrier leaves are factor-critical (Kotzig 1959; Lovász 1972; Lovász and Plummer,
/// "Matching Theory", sections 3.3 and 5.2).
pub fn kotzig_lovasz_law()
    ensures elementary { (g : Graph) → IsGraph g → IsCovered g → IsElementary g }
    ensures equivalence { (g : Graph) (a b c : ℕ) → IsGraph g → IsElementary g →
        Within g.order a → Within g.order b → Within g.order c →
        Equivalent g a a × (Equivalent g a b → Equivalent g b a) ×
        (Equivalent g a b → Equivalent g b c → Equivalent g a c) }
    ensures classes { (g : Graph) (s : Set) → IsGraph g → IsElementary g →
        ((a : ℕ) × Within g.order a × IsClass g a s) ↔ IsMaximalBarrier g s }
    ensures one { (g : Graph) (s : Set) (a : ℕ) → IsGraph g → IsElementary g → IsBarrier g s →
        Within g.order a → s a ≡ true →
        (c : Set) × IsClass g a c × ((v : ℕ) → Within g.order v → s v ≡ true → c v ≡ true) ×
        ((b : ℕ) (d : Set) → Within g.order b → IsClass g b d →
        ((v : ℕ) → Within g.order v → s v ≡ true → d v ≡ true) →
        (v : ℕ) → Within g.order v → c v ≡ d v) }
    ensures components { (g : Graph) (s : Set) (a u : ℕ) → IsGraph g → IsElementary g →
        IsBarrier g s → Within g.order a → s a ≡ true → Within g.order u → s u ≡ false →
        (is_odd (count g.order (joined g s u)) ≡ true) ×
        (component_count g s ≡ count g.order s) }
    ensures critical { (g : Graph) (a u : ℕ) (s : Set) → IsGraph g → IsElementary g →
        Within g.order a → IsClass g a s → Within g.order u → s u ≡ false →
        IsFactorCritical g (joined g s u) }
    ensures maximal { (g : Graph) (s : Set) (u : ℕ) → IsGraph g → HasPerfect g none →
        IsMaximalBarrier g s → Within g.order u → s u ≡ false →
        IsFactorCritical g (joined g s u) }
    ensures allowed { (g : Graph) (e : ℕ) → IsGraph g → Within (size g) e →
        Allowed g e ↔ (¬ Equivalent g (first_end g e) (second_end g e)) }
    ensures bicritical { (g : Graph) → IsBicritical g ↔
        ((a b : ℕ) → Within g.order a → Within g.order b → Equivalent g a b → a ≡ b) }
{}
