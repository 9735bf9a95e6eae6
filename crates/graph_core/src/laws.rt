//! The laws on graphs. Each is the contract of a function that does nothing.
ghost use Rattle.std.specs.Prelude.{◌≡◌, ℕ, List, ◌+◌, ◌*◌, ◌≤◌, ◌<◌, ◌&&◌, true, false, length, ◌↔◌};
ghost use Rattle.vset_core.specs.from_counting.Common.{Within, count, is_odd, Set, none, union, meet, minus, complement, mem, IsRisingIn};
ghost use Rattle.graph_core.specs.Common.{Graph, size, IsGraph, IsMultigraph, inside, connects, edges_in_cut, IsPerfect, IsMatching, ShareNoEnd, HasPerfect, has_perfect, missed_count, Joined, joined, IsLeftSide, odd_component_count, IsCovered, AreBlocks, IsMerge, IsPartition, IsPerfectAt, complement_of, contracted, merged, singles, IsUnion, IsTightAt, block_count, blocks_in, quotient, IsTight};

/// In a multigraph a matching is a set of edges of which no two share an end.
pub fn matching_law()
    ensures { (g : Graph) (m : Set) → IsMultigraph g → (IsMatching g none m ↔ ShareNoEnd g m) }
{}

/// Parity: |X| is the number of edges of a perfect matching in ∂(X) plus twice the number of those
/// inside X.
#[tactic(auto, using(crate::proofs::Parity::parity))]
pub fn parity_law()
    ensures { (g : Graph) (m x : Set) → IsGraph g → IsPerfect g none m →
        count g.order x ≡ edges_in_cut g m x + 2 * count (size g) (λ e. m e && inside g x e) }
{}

/// The test `joined` says that a walk leads from one vertex to the other.
#[tactic(auto, using(crate::proofs::Components::joined_walk, crate::proofs::Components::walk_joined))]
pub fn walk_law()
    ensures { (g : Graph) (s : Set) (u v : ℕ) → IsGraph g → Within g.order u →
        ((joined g s u v ≡ true) ↔ Joined g s u v) }
{}

/// A graph has at most one left side: the least vertex of each component fixes the side of each
/// vertex.
pub fn left_side_law()
    ensures { (g : Graph) (xs ys : List ℕ) → IsGraph g → IsLeftSide g xs → IsLeftSide g ys →
        xs ≡ ys }
{}

/// The test `has_perfect` says that there is a perfect matching.
#[tactic(auto, using(crate::proofs::Decide::has_perfect_says, crate::proofs::Decide::has_perfect_found))]
pub fn perfect_matching_law()
    ensures { (g : Graph) (r : Set) → ((has_perfect g r ≡ true) ↔ HasPerfect g r) }
{}

/// Weak duality: a matching of G - R misses at least o(G - R - S) - |S| vertices.
#[tactic(auto, using(crate::proofs::WeakDuality::berge_bound))]
pub fn weak_duality_law()
    ensures { (g : Graph) (r s m : Set) → IsGraph g → IsMatching g r m →
        odd_component_count g (union r s) ≤ missed_count g r m + count g.order s }
{}

/// Uncrossing: let X and Y be tight shores at a partition whose quotient is covered, with an odd
/// number of blocks in X ∩ Y. Then X ∩ Y and X ∪ Y are tight, and no edge joins X - Y with Y - X.
pub fn uncrossing_at_law()
    ensures tight { (g : Graph) (p : List (List ℕ)) (x y : Set) → IsGraph g → AreBlocks g.order p →
        IsCovered (contracted g p) →
        IsTightAt g p x → IsTightAt g p y → is_odd (block_count p (meet x y)) ≡ true →
        IsTightAt g p (meet x y) × IsTightAt g p (union x y) }
    ensures edges { (g : Graph) (p : List (List ℕ)) (x y : Set) → IsGraph g → AreBlocks g.order p →
        IsCovered (contracted g p) →
        IsTightAt g p x → IsTightAt g p y → is_odd (block_count p (meet x y)) ≡ true →
        (e : ℕ) → Within (size g) e → connects g (minus x y) (minus y x) e ≡ false }
{}

/// The complement of a tight shore is a tight shore.
pub fn complement_law()
    ensures { (g : Graph) (p : List (List ℕ)) (x : Set) → IsGraph g → AreBlocks g.order p →
        IsTightAt g p x → IsTightAt g p (complement x) }
{}

/// A tight shore as a list is not empty, and the list of the other vertices is the other shore,
/// which is tight too. So what is said of merging a tight shore also holds for the other shore.
pub fn other_shore_law()
    ensures nonempty { (g : Graph) (p : List (List ℕ)) (x : List ℕ) → IsGraph g →
        AreBlocks g.order p → IsTightAt g p (mem x) → 0 < length x }
    ensures rising { (n : ℕ) (x : List ℕ) → IsRisingIn n (complement_of n x) }
    ensures members { (n : ℕ) (x : List ℕ) (v : ℕ) → Within n v →
        mem (complement_of n x) v ≡ complement (mem x) v }
    ensures tight { (g : Graph) (p : List (List ℕ)) (x : List ℕ) → IsGraph g → AreBlocks g.order p →
        IsTightAt g p (mem x) →
        IsTightAt g p (mem (complement_of g.order x)) }
{}

/// Merging a nonempty union of blocks gives a partition, in which the union is one block and all
/// other blocks are as before.
pub fn merge_law()
    ensures partition { (n : ℕ) (p : List (List ℕ)) (x : List ℕ) → IsPartition n p →
        IsRisingIn n x → 0 < length x → IsUnion n p (mem x) →
        IsPartition n (merged p x) }
    ensures merge { (n : ℕ) (p : List (List ℕ)) (x : List ℕ) → IsPartition n p → IsRisingIn n x →
        0 < length x → IsUnion n p (mem x) →
        IsMerge n p (mem x) (merged p x) }
{}

/// The single vertices of a graph are a partition whose contraction is the graph itself: a matching
/// is perfect at it, and a shore tight at it, if and only if it is in the graph.
pub fn singles_law()
    ensures partition { (n : ℕ) → IsPartition n (singles n) }
    ensures same { (g : Graph) → IsGraph g → contracted g (singles g.order) ≡ g }
    ensures perfect { (g : Graph) (m : Set) → IsGraph g →
        (IsPerfectAt g (singles g.order) m ↔ IsPerfect g none m) }
    ensures tight { (g : Graph) (x : Set) → IsGraph g →
        (IsTightAt g (singles g.order) x ↔ IsTight g x) }
{}

/// The edges that leave a union of blocks are the same in the graph and in the contraction.
pub fn cut_at_law()
    ensures { (g : Graph) (p : List (List ℕ)) (x m : Set) → IsGraph g → AreBlocks g.order p →
        IsUnion g.order p x →
        edges_in_cut (contracted g p) m (blocks_in p x) ≡ edges_in_cut g m x }
{}

/// Contraction: merge a tight shore X of a partition with a covered quotient. Then the quotient is
/// still covered, a shore that is tight afterwards was tight before, and a shore that was tight and
/// is a union of the new blocks is still tight.
pub fn contraction_law()
    ensures covered { (g : Graph) (p : List (List ℕ)) (x : List ℕ) → IsGraph g →
        AreBlocks g.order p → IsRisingIn g.order x →
        IsTightAt g p (mem x) → IsCovered (contracted g p) → IsCovered (contracted g (merged p x)) }
    ensures before { (g : Graph) (p : List (List ℕ)) (x : List ℕ) (y : Set) → IsGraph g →
        AreBlocks g.order p → IsRisingIn g.order x →
        IsTightAt g p (mem x) → IsCovered (contracted g p) → IsTightAt g (merged p x) y →
        IsTightAt g p y }
    ensures after { (g : Graph) (p : List (List ℕ)) (x : List ℕ) (y : Set) → IsGraph g →
        AreBlocks g.order p → IsRisingIn g.order x →
        IsTightAt g p (mem x) → IsCovered (contracted g p) → IsTightAt g p y →
        IsUnion g.order (merged p x) y → IsTightAt g (merged p x) y }
{}

/// A set of blocks is tight in the quotient if and only if it is tight in the contraction.
pub fn quotient_law()
    ensures { (g : Graph) (p : List (List ℕ)) (y : Set) → IsGraph g → AreBlocks g.order p →
        (IsTight (quotient g p) y ↔ IsTight (contracted g p) y) }
{}
