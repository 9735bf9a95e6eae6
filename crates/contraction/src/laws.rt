//! The laws that relate a quotient to the contraction at the partition. Each law is the contract of
//! a function that does nothing.
ghost use Rattle.std.specs.Prelude.{◌≡◌, ℕ, List, true, ◌↔◌};
ghost use Rattle.graph_core.specs.from_counting.Common.{Set, none, IsRisingIn, mem};
ghost use Rattle.graph_core.specs.Common.{Graph, IsGraph, edges_in_cut, IsPerfect, IsCovered, AreBlocks, IsPerfectAt, complement_of, contracted, merged, lifted, projected, quotient, IsTightAt, IsUnion, blocks_in, IsTight};

/// The quotient is matching covered if and only if the contraction is, whose edges are those of the
/// graph itself.
#[tactic(auto, using(crate::proofs::QuotientLaws::covered_down, crate::proofs::QuotientLaws::covered_up))]
pub fn covered_quotient_law()
    ensures { (g : Graph) (p : List (List ℕ)) → IsGraph g → AreBlocks g.order p →
        (IsCovered (quotient g p) ↔ IsCovered (contracted g p)) }
{}

/// A union of blocks is tight at the partition if and only if the set of its blocks is tight in the
/// quotient.
pub fn tight_quotient_law()
    ensures { (g : Graph) (p : List (List ℕ)) (x : Set) → IsGraph g → AreBlocks g.order p →
        IsUnion g.order p x → (IsTight (quotient g p) (blocks_in p x) ↔ IsTightAt g p x) }
{}

/// The lift of a perfect matching of the quotient, by the least remembered edge of each of its
/// edges, is a perfect matching at the partition, with as many edges in the cut of each set of
/// blocks.
pub fn lift_law()
    ensures perfect { (g : Graph) (p : List (List ℕ)) (m : Set) → IsGraph g → AreBlocks g.order p →
        IsPerfect (quotient g p) none m → IsPerfectAt g p (mem (lifted g p m)) }
    ensures cut { (g : Graph) (p : List (List ℕ)) (m y : Set) → IsGraph g → AreBlocks g.order p →
        IsPerfect (quotient g p) none m →
        edges_in_cut (contracted g p) (mem (lifted g p m)) y ≡ edges_in_cut (quotient g p) m y }
{}

/// The projection of a perfect matching at the partition, which takes each edge to the edge of the
/// quotient between its two blocks, is a perfect matching of the quotient, with as many edges in
/// the cut of each set of blocks.
pub fn projection_law()
    ensures perfect { (g : Graph) (p : List (List ℕ)) (m : Set) → IsGraph g → AreBlocks g.order p →
        IsPerfectAt g p m → IsPerfect (quotient g p) none (projected g p m) }
    ensures cut { (g : Graph) (p : List (List ℕ)) (m y : Set) → IsGraph g → AreBlocks g.order p →
        IsPerfectAt g p m →
        edges_in_cut (quotient g p) (projected g p m) y ≡ edges_in_cut (contracted g p) m y }
{}

/// The law of contraction for quotients (Lovász 1987). Let the quotient at a partition be matching
/// covered, and let a shore be tight at the partition. Merging either shore of the cut gives a
/// partition whose quotient is matching covered; a shore that is tight there was tight before, and
/// a shore that was tight and is a union of the new blocks is tight there.
pub fn merged_quotients_law()
    ensures blocks { (g : Graph) (p : List (List ℕ)) (x : List ℕ) → IsGraph g →
        AreBlocks g.order p → IsRisingIn g.order x → IsTightAt g p (mem x) →
        AreBlocks g.order (merged p x) × AreBlocks g.order (merged p (complement_of g.order x)) }
    ensures covered { (g : Graph) (p : List (List ℕ)) (x : List ℕ) → IsGraph g →
        AreBlocks g.order p → IsRisingIn g.order x → IsTightAt g p (mem x) →
        IsCovered (quotient g p) →
        IsCovered (quotient g (merged p x)) ×
        IsCovered (quotient g (merged p (complement_of g.order x))) }
    ensures before { (g : Graph) (p : List (List ℕ)) (x : List ℕ) (y : Set) → IsGraph g →
        AreBlocks g.order p → IsRisingIn g.order x → IsTightAt g p (mem x) →
        IsCovered (quotient g p) →
        (IsTightAt g (merged p x) y → IsTightAt g p y) ×
        (IsTightAt g (merged p (complement_of g.order x)) y → IsTightAt g p y) }
    ensures after { (g : Graph) (p : List (List ℕ)) (x : List ℕ) (y : Set) → IsGraph g →
        AreBlocks g.order p → IsRisingIn g.order x → IsTightAt g p (mem x) →
        IsCovered (quotient g p) → IsTightAt g p y →
        (IsUnion g.order (merged p x) y → IsTightAt g (merged p x) y) ×
        (IsUnion g.order (merged p (complement_of g.order x)) y →
        IsTightAt g (merged p (complement_of g.order x)) y) }
{}
