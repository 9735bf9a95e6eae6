//! The laws of barriers and classes. Each law is the contract of a function that does nothing.
ghost use Rattle.std.specs.Prelude.{◌≡◌, ◌≢◌, ℕ, true, false, ◌⊎◌, ◌↔◌, ◌≤◌, All, []};
ghost use Rattle.graph_core.specs.from_counting.Common.{Within, count, is_odd, mem, Set};
ghost use Rattle.graph_core.specs.Common.{Graph, IsBipartite, IsGraph, IsMultigraph, size, first_end, second_end, inside, joined, component_count, IsCovered, IsTight, Equivalent, IsBarrier, IsBicritical, IsClass, IsCanonicalCut};
ghost use Rattle.barrier_kit.specs.Common.{WideClass, barrier_cuts, barrier_shores};

/// The relation "u = v, or G - u - v has no perfect matching" is an equivalence in a covered graph,
/// and it is decidable (Kotzig; Lovász and Plummer, "Matching Theory", chapter 5).
pub fn equivalence_law()
    ensures reflexive { (g : Graph) (a : ℕ) → Equivalent g a a }
    ensures symmetric { (g : Graph) (a b : ℕ) → Equivalent g a b → Equivalent g b a }
    ensures transitive { (g : Graph) (a b c : ℕ) → IsGraph g → IsCovered g → Within g.order a →
        Within g.order b → Within g.order c → Equivalent g a b → Equivalent g b c →
        Equivalent g a c }
    ensures decided { (g : Graph) (a b : ℕ) → (Equivalent g a b) ⊎ (Equivalent g a b → ⊥) }
{}

/// In a covered graph the classes of this relation are the maximal barriers: each class is a
/// barrier, and each barrier lies in the class of each of its vertices.
pub fn class_law()
    ensures found { (g : Graph) (a : ℕ) → IsGraph g → IsCovered g → Within g.order a →
        (s : Set) × IsBarrier g s × IsClass g a s }
    ensures barrier { (g : Graph) (a : ℕ) (s : Set) → IsGraph g → IsCovered g → Within g.order a →
        IsClass g a s → IsBarrier g s }
    ensures greatest { (g : Graph) (a : ℕ) (s t : Set) → IsGraph g → Within g.order a →
        IsClass g a s → IsBarrier g t → t a ≡ true → (v : ℕ) → Within g.order v → t v ≡ true →
        s v ≡ true }
{}

/// A nonempty barrier B of a covered graph: all components of G - B are odd, there are |B| of them,
/// and the cut of each is tight; no edge joins two vertices of B.
pub fn barrier_law()
    ensures odd { (g : Graph) (s : Set) (a u : ℕ) → IsGraph g → IsCovered g → IsBarrier g s →
        Within g.order a → s a ≡ true → Within g.order u → s u ≡ false →
        is_odd (count g.order (joined g s u)) ≡ true }
    ensures many { (g : Graph) (s : Set) (a : ℕ) → IsGraph g → IsCovered g → IsBarrier g s →
        Within g.order a → s a ≡ true → component_count g s ≡ count g.order s }
    ensures tight { (g : Graph) (s : Set) (a u : ℕ) → IsGraph g → IsCovered g → IsBarrier g s →
        Within g.order a → s a ≡ true → Within g.order u → s u ≡ false → IsTight g (joined g s u) }
    ensures independent { (g : Graph) (s : Set) (e : ℕ) → IsGraph g → IsCovered g → IsBarrier g s →
        Within (size g) e → first_end g e ≢ second_end g e → inside g s e ≡ false }
{}

/// In a covered graph, if K is a component of G - B for a class B, then ∂(V(K)) is tight. The cuts
/// that `barrier_cuts` lists are canonical shores of nontrivial tight cuts (Edmonds, Lovász and
/// Pulleyblank 1982).
pub fn barrier_cuts_law()
    ensures tight { (g : Graph) → IsGraph g → IsCovered g →
        All (λ s. IsTight g (mem s)) (barrier_shores g) }
    ensures canonical { (g : Graph) → IsGraph g → IsCovered g →
        All (IsCanonicalCut g) (barrier_cuts g) }
{}

/// In a covered graph that is neither bicritical nor bipartite some class B has at least two
/// vertices, no edge joins two of them, and some component of G - B has at least three vertices, so
/// it gives a cut. In a bicritical graph no class gives a cut.
pub fn wide_class_law()
    ensures class { (g : Graph) → IsMultigraph g → IsCovered g → ¬ (IsBicritical g) →
        ¬ (IsBipartite g) → WideClass g }
    ensures some { (g : Graph) → IsMultigraph g → IsCovered g → ¬ (IsBicritical g) →
        ¬ (IsBipartite g) → barrier_cuts g ≢ [] }
    ensures none { (g : Graph) → IsGraph g → IsCovered g → IsBicritical g → barrier_cuts g ≡ [] }
{}
