//! Matching covered graphs, the reasons why a graph is not one, the canonical partition and the
//! pairs, as a textbook defines them.
//!
//! Each law here is the contract of a function that does nothing.
ghost use Rattle.std.specs.Prelude.{◌≡◌, ℕ, List, ◌≤◌, ◌⊎◌, true, length, map, slice_index, ◌↔◌, All, Any, Some};
ghost use Rattle.std.specs.List.Sorted.{IsStrictlyIncreasing};
ghost use Rattle.counting.specs.Common.{Within, item, mem, pair_set};
ghost use Rattle.graph_core.specs.Common.{component_count, IsCovered, IsReason, Reason, Graph, IsGraph, IsMultigraph, HasPerfect, Equivalent, classes, cut_pair, is_equivalent, equivalent_pair};
ghost use Rattle.definition_laws.specs.Words.{IsFirstPair, IsListOfClass, without_berge};

/// Each graph is matching covered or has a reason, and a multigraph never both. Two reasons of a
/// graph are equal except for the Berge set, which need not be unique.
pub fn reason_law()
    ensures uncovered { (g : Graph) (r : Reason) → IsMultigraph g → IsReason g r → IsCovered g → ⊥ }
    ensures one { (g : Graph) (q r : Reason) → IsReason g q → IsReason g r →
        without_berge q ≡ without_berge r }
    ensures some { (g : Graph) → IsGraph g → (IsCovered g) ⊎ ((r : Reason) × IsReason g r) }
{}

/// The test `is_equivalent` says that u = v or G - u - v has no perfect matching, and each list of
/// the canonical partition is the class of one of its vertices. The lists are ordered by their
/// least vertices. In a covered graph each vertex is in exactly one of them.
pub fn canonical_partition_law()
    ensures test { (g : Graph) (a b : ℕ) → ((is_equivalent g a b ≡ true) ↔ Equivalent g a b) }
    ensures lists { (g : Graph) → All (IsListOfClass g) (classes g) }
    ensures cover { (g : Graph) (a : ℕ) → IsGraph g → IsCovered g → Within g.order a →
        Any (λ (c : List ℕ). mem c a ≡ true) (classes g) }
    ensures once { (g : Graph) (i j a : ℕ) → IsGraph g → IsCovered g →
        Within (length (classes g)) i → Within (length (classes g)) j →
        mem (item (classes g) i) a ≡ true → mem (item (classes g) j) a ≡ true → i ≡ j }
    ensures order { (g : Graph) →
        IsStrictlyIncreasing (map (λ (c : List ℕ). slice_index c 0) (classes g)) }
{}

/// The pairs that `equivalent_pair` and `cut_pair` return are lexicographically first: the first a
/// < b such that G - a - b has no perfect matching, and the first such that G - a - b has at least
/// two components. That each returns a pair if and only if there is one is `missing_pairs_law` of
/// `separation_kit`.
pub fn first_pair_law()
    ensures equivalent { (g : Graph) (k : ℕ × ℕ) → equivalent_pair g ≡ Some k →
        IsFirstPair g.order (λ a b. HasPerfect g (pair_set a b) → ⊥) k }
    ensures separates { (g : Graph) (k : ℕ × ℕ) → cut_pair g ≡ Some k →
        IsFirstPair g.order (λ a b. 2 ≤ component_count g (pair_set a b)) k }
{}
