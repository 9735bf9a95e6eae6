//! Matchings, tight cuts and the Gallai-Edmonds sets, as a textbook defines them.
//!
//! The definitions use degrees, because proofs and code need that form: a matching has degree at
//! most 1 at each vertex. Each law here is the contract of a function that does nothing.
ghost use Rattle.std.specs.Prelude.{◌≡◌, ℕ, ◌+◌, ◌*◌, ◌⊎◌, true, ◌↔◌};
ghost use Rattle.counting.specs.Common.{Within, count, Set, complement, none};
ghost use Rattle.graph_core.specs.Common.{InA, InC, InD, Graph, IsGraph, IsMultigraph, size, Allowed, IsMatching, IsPerfect, ShareNoEnd, has_matching_of, is_allowed, is_matching, is_perfect, missed_count, IsNontrivial, IsTight, is_nontrivial, is_tight};
ghost use Rattle.definition_laws.specs.Words.{Avoids, HoldsNoLoop, MeetsEachOnce};

/// A perfect matching of G - R: no edge of it is a loop or has an end in R, and each vertex outside
/// R is an end of exactly one of its edges. A multigraph has no loops, and if R is empty the second
/// condition is enough.
pub fn perfect_law()
    ensures test { (g : Graph) (r m : Set) → ((is_perfect g r m ≡ true) ↔ IsPerfect g r m) }
    ensures words { (g : Graph) (r m : Set) → IsGraph g →
        (IsPerfect g r m ↔ (HoldsNoLoop g m × Avoids g r m × MeetsEachOnce g r m)) }
    ensures whole { (g : Graph) (m : Set) → IsMultigraph g →
        (IsPerfect g none m ↔ MeetsEachOnce g none m) }
{}

/// A matching of G - R: no edge of it has an end in R, and no two of its edges share an end. A
/// matching with k edges misses all but 2 k vertices of G - R. The test `has_matching_of` says that
/// there is one with so many edges.
pub fn matching_without_law()
    ensures test { (g : Graph) (r m : Set) → ((is_matching g r m ≡ true) ↔ IsMatching g r m) }
    ensures words { (g : Graph) (r m : Set) → IsMultigraph g →
        (IsMatching g r m ↔ (Avoids g r m × ShareNoEnd g m)) }
    ensures missed { (g : Graph) (r m : Set) → IsGraph g → IsMatching g r m →
        missed_count g r m + 2 * count (size g) m ≡ count g.order (complement r) }
    ensures size { (g : Graph) (r : Set) (k : ℕ) →
        ((has_matching_of g r k ≡ true) ↔ ((m : Set) × IsMatching g r m × (count (size g) m ≡ k))) }
{}

/// The test `is_allowed` says that some perfect matching contains the edge, and `is_tight` that the
/// shore is tight: odd on both sides, with exactly one edge of each perfect matching in its cut.
/// `is_nontrivial` says that there are at least three vertices on each side.
pub fn tight_law()
    ensures allowed { (g : Graph) (e : ℕ) → Within (size g) e →
        ((is_allowed g e ≡ true) ↔ Allowed g e) }
    ensures tight { (g : Graph) (x : Set) → ((is_tight g x ≡ true) ↔ IsTight g x) }
    ensures nontrivial { (n : ℕ) (x : Set) → ((is_nontrivial n x ≡ true) ↔ IsNontrivial n x) }
{}

/// The Gallai-Edmonds sets D, A and C are disjoint, and each vertex is in one of them.
pub fn three_sets_law()
    ensures disjoint { (g : Graph) (v : ℕ) →
        (InD g v → InA g v → ⊥) × (InD g v → InC g v → ⊥) × (InA g v → InC g v → ⊥) }
    ensures some { (g : Graph) (v : ℕ) → Within g.order v → (InD g v) ⊎ ((InA g v) ⊎ (InC g v)) }
{}
