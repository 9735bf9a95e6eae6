//! Weights of the edges of a graph: maximum weight matchings, and covers of a weight.
//!
//! A weight is a whole number for each edge. Numbers of the vertices and odd sets of vertices cover
//! it if each edge gets at least its weight, from its two ends and one from each set that contains
//! both of them (`IsCover`). The value of a cover is the sum of the numbers and, for each set, half
//! of its size, rounded down. A matching has at most that many edges inside a set, so no matching
//! weighs more than the value of a cover. The law (`weight_law`): some matching and some cover have
//! equal weight and value.
//!
//! Idea of the proof, by induction on the sum of the weights: lower some of them by one, and take
//! a cover of what is left.
//!
//! ```text
//!   some vertex u is met by each         each vertex is missed by some heaviest matching;
//!   heaviest matching: one less          K is a component of the edges that have weight:
//!   at the edges of u                    one less inside K
//!
//!        u ===== .                            .-----.
//!        |\                                  / \   / \
//!        | \                                .   \ /   .
//!        .  .   y(u) rises by one            \   .   /
//!                                             .-----.
//! ```
//!
//! K is odd: a matching that is best for the lowered weights, with most edges inside K, misses one
//! vertex of K. So K becomes one of the sets.
//!
//! Why that matching misses only one vertex of K: if it missed two, it would miss two neighbours,
//! by induction on a walk between them. A step of the walk exchanges it with a heaviest matching
//! that misses the next vertex, inside a set that no edge of either leaves. The set grows from that
//! vertex, and each further vertex brings an edge of one of the two inside; so the second has no
//! more edges there than the first, and the first misses at most one vertex of the set.
//!
//! Source: Edmonds 1965; Cunningham and Marsh 1978; Schrijver, "Combinatorial Optimization",
//! chapter 25.
ghost use Rattle.std.specs.Prelude.{◌≡◌, ◌≤◌, ℕ, List};
ghost use Rattle.graph_core.specs.from_counting.Common.{Set, none};
ghost use Rattle.graph_core.specs.Common.{Graph, IsGraph, IsMatching};
ghost use Rattle.brick_kit.specs.Weights.{IsCover, IsHeaviest, cover_value, weight_of};

/// Maximum weight matchings: no matching of a graph weighs more than the value of a cover. If the
/// weights are whole numbers, some matching, and so each heaviest one, weighs as much as some cover
/// of whole numbers (Edmonds 1965; whole numbers: Cunningham and Marsh 1978).
pub fn weight_law()
    ensures below { (g : Graph) (w y : ℕ → ℕ) (us : List Set) (m : Set) → IsGraph g →
        IsCover g w y us →
        IsMatching g none m → weight_of g w m ≤ cover_value g y us }
    ensures equal { (g : Graph) (w : ℕ → ℕ) → IsGraph g →
        (m : Set) × (y : ℕ → ℕ) × (us : List Set) × IsMatching g none m × IsCover g w y us ×
        (weight_of g w m ≡ cover_value g y us) }
    ensures heaviest { (g : Graph) (w : ℕ → ℕ) (m : Set) → IsGraph g → IsHeaviest g w m →
        (y : ℕ → ℕ) × (us : List Set) × IsCover g w y us × (weight_of g w m ≡ cover_value g y us) }
{}
