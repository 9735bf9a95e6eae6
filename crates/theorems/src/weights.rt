//! Weights of the edges: the duality of maximum weight matchings and covers, and weights that are
//! the same on all perfect matchings.
//!
//! Sources: Edmonds, "Maximum matching and a polyhedron with 0,1-vertices" (1965); Cunningham and
//! Marsh, "A primal algorithm for optimum matching" (1978); Edmonds, Lovász and Pulleyblank, "Brick
//! decompositions and the matching rank of graphs" (Combinatorica 2, 1982).
ghost use Rattle.std.specs.Prelude.{◌≡◌, ◌+◌, ◌*◌, ◌≤◌, ◌↔◌, ℕ, All, List};
ghost use Rattle.tree_check.specs.from_counting.Common.{Set, Within, bit, none};
ghost use Rattle.graph_core.specs.Common.{Graph, HasOnlyTrivialTightCuts, IsCovered, IsGraph, IsMatching, IsMultigraph, IsTight, first_end, in_cut, second_end, size};
ghost use Rattle.quick_kinds.specs.from_brick_kit.Weights.{IsCover, IsHeaviest, cover_value, sum_over, weight_of};
ghost use Rattle.theorems.specs.Weights.{IsFlat};

/// The duality of weighted matchings: let w be whole numbers at the edges. The largest weight of a
/// matching is the least value of a cover, that is, of the sum of y(v) over the vertices v and of
/// z(U) ⌊|U|/2⌋ over the odd vertex sets U, for whole numbers y(v) ≥ 0 and z(U) ≥ 0 such that for
/// each edge uv, y(u) + y(v) and the z(U) of the sets U that contain u and v add up to w(uv) or
/// more. Each matching of largest weight attains it (Edmonds 1965; whole numbers: Cunningham and
/// Marsh 1978). In the contract z(U) is how often U stands in the list `us`.
pub fn matching_duality_law()
    ensures below { (g : Graph) (w y : ℕ → ℕ) (us : List Set) (m : Set) → IsGraph g →
        IsCover g w y us → IsMatching g none m → weight_of g w m ≤ cover_value g y us }
    ensures equal { (g : Graph) (w : ℕ → ℕ) → IsGraph g →
        (m : Set) × (y : ℕ → ℕ) × (us : List Set) × IsMatching g none m × IsCover g w y us ×
        (weight_of g w m ≡ cover_value g y us) }
    ensures heaviest { (g : Graph) (w : ℕ → ℕ) (m : Set) → IsGraph g → IsHeaviest g w m →
        (y : ℕ → ℕ) × (us : List Set) × IsCover g w y us × (weight_of g w m ≡ cover_value g y us) }
{}

/// Potentials: let w be whole numbers at the edges of a matching covered graph. All perfect
/// matchings have equal weight if and only if, for some list of tight shores and some integers p(v)
/// at the vertices, 2 w(uv) is for each edge uv p(u) + p(v) less the number of shores of the list
/// whose cut contains uv. In a brick or a brace this is so if and only if 2 w(uv) = p(u) + p(v) for
/// some integers p(v) (Edmonds, Lovász and Pulleyblank 1982). In the contract q(v) is p(v) + k, with
/// k so large that no q(v) is negative.
pub fn potential_law()
    ensures balanced { (g : Graph) (w : ℕ → ℕ) → IsMultigraph g → IsCovered g → IsFlat g w ↔
        ((k : ℕ) × (q : ℕ → ℕ) × (us : List Set) × All (IsTight g) us ×
        ((e : ℕ) → Within (size g) e → q (first_end g e) + q (second_end g e) ≡
        2 * (w e + k) + sum_over (λ x. bit (in_cut g x e)) us)) }
    ensures potential { (g : Graph) (w : ℕ → ℕ) → IsMultigraph g → IsCovered g →
        HasOnlyTrivialTightCuts g → IsFlat g w ↔
        ((k : ℕ) × (q : ℕ → ℕ) × ((e : ℕ) → Within (size g) e →
        q (first_end g e) + q (second_end g e) ≡ 2 * (w e + k))) }
{}
