//! Partitions, and perfect matchings and tight shores at one, defined without the contraction.
//!
//! A partition is a list of blocks in the order of their highest-numbered vertices; `place` is the
//! number of a vertex's block. Each law here is the contract of a function that does nothing.
ghost use Rattle.std.specs.Prelude.{◌≡◌, ℕ, List, true, length, ◌↔◌};
ghost use Rattle.counting.specs.Common.{Within, is_odd, mem, Set, complement};
ghost use Rattle.graph_core.specs.Common.{Graph, IsGraph, edges_in_cut, AreBlocks, IsPartition, IsPerfectAt, block, place, IsTightAt, IsUnion, block_count};
ghost use Rattle.definition_laws.specs.Words.{LeavesBlocks, MeetsEachBlockOnce};

/// Each vertex is in exactly one block of a partition, the one at its place, and the relation "in
/// the same block" determines the partition: two partitions with the same relation are equal lists.
pub fn blocks_law()
    ensures one { (n : ℕ) (p : List (List ℕ)) (v : ℕ) → AreBlocks n p → Within n v →
        Within (length p) (place p v) × (mem (block p (place p v)) v ≡ true) ×
        ((i : ℕ) → Within (length p) i → mem (block p i) v ≡ true → i ≡ place p v) }
    ensures same { (n : ℕ) (p q : List (List ℕ)) → IsPartition n p → IsPartition n q →
        ((u v : ℕ) → Within n u → Within n v →
        ((place p u ≡ place p v) ↔ (place q u ≡ place q v))) → p ≡ q }
{}

/// A perfect matching at a partition: none of its edges is inside a block, and each block contains
/// an end of exactly one edge.
pub fn perfect_at_law()
    ensures { (g : Graph) (p : List (List ℕ)) (m : Set) → IsGraph g → AreBlocks g.order p →
        (IsPerfectAt g p m ↔ (LeavesBlocks g p m × MeetsEachBlockOnce g p m)) }
{}

/// A tight shore at a partition: a union of blocks, with an odd number of them inside and outside,
/// whose cut in the graph itself has exactly one edge of each perfect matching at the partition.
pub fn tight_at_law()
    ensures { (g : Graph) (p : List (List ℕ)) (x : Set) → IsGraph g → AreBlocks g.order p →
        (IsTightAt g p x ↔
        (IsUnion g.order p x × (is_odd (block_count p x) ≡ true) ×
        (is_odd (block_count p (complement x)) ≡ true) ×
        ((m : Set) → IsPerfectAt g p m → edges_in_cut g m x ≡ 1))) }
{}
