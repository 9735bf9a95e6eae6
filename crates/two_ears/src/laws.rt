//! The two-ear theorem. Each law is the contract of a function that does nothing.
ghost use Rattle.std.specs.Prelude.{◌≡◌, ◌≢◌, ◌⊎◌, ℕ, true, false, List, [], ◌∷◌};
ghost use Rattle.graph_core.specs.from_counting.Common.{Within, Set, pair_set, union, IsIn};
ghost use Rattle.graph_core.specs.Common.{IsCovered, Graph, IsGraph, with_ends, HasPerfect, IsSide};
ghost use Rattle.two_ears.specs.AddedEdges.{with_pairs};
ghost use Rattle.two_ears.specs.VertexPairs.{AreDisjoint, in_pairs, set_of_pair};

/// Let some disjoint pairs of vertices of a matching covered graph G be such that deleting all of
/// them leaves a graph with a perfect matching. Then so does deleting two of the pairs, or one: p
/// and q may be the same pair.
pub fn two_ears_law()
    ensures { (g : Graph) → IsGraph g → IsCovered g → (ps : List (ℕ × ℕ)) → ps ≢ [] →
        AreDisjoint g.order ps → HasPerfect g (in_pairs ps)
        → (p : ℕ × ℕ) × (q : ℕ × ℕ) × IsIn p ps × IsIn q ps ×
        HasPerfect g (union (set_of_pair p) (set_of_pair q)) }
{}

/// If a matching covered graph is still matching covered after adding some edges, it is so after
/// adding one or two of them.
pub fn further_edges_law()
    ensures { (g : Graph) → IsGraph g → IsCovered g → (ps : List (ℕ × ℕ)) → ps ≢ [] →
        ((p : ℕ × ℕ) → IsIn p ps → Within g.order p.0 × Within g.order p.1)
        → ((p : ℕ × ℕ) → IsIn p ps → p.0 ≢ p.1) → IsCovered (with_ends g (with_pairs g.ends ps))
        → ((p : ℕ × ℕ) × IsIn p ps × IsCovered (with_ends g (with_pairs g.ends (p ∷ []))))
        ⊎ ((p : ℕ × ℕ) × (q : ℕ × ℕ) × IsIn p ps × IsIn q ps ×
        IsCovered (with_ends g (with_pairs g.ends (p ∷ q ∷ [])))) }
{}

/// In a bipartite matching covered graph, deleting any two vertices on opposite sides leaves a
/// graph with a perfect matching.
pub fn opposite_sides_law()
    ensures { (g : Graph) → IsGraph g → IsCovered g → (a : Set) → IsSide g a → (x z : ℕ) →
        Within g.order x → Within g.order z → a x ≡ true → a z ≡ false
        → HasPerfect g (pair_set x z) }
{}
