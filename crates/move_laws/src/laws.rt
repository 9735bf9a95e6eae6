//! Laws of moves on derivations. Each law is the contract of a function that does nothing.
ghost use Rattle.std.specs.Prelude.{◌≡◌, ◌+◌, ◌*◌, ◌<◌, ◌≤◌, ◌↔◌, ℕ, Some, List, [], length, map};
ghost use Rattle.graph_core.specs.from_counting.Common.{Within, IsRisingIn, last_of, mem, Set};
ghost use Rattle.graph_core.specs.Common.{IsCovered, Graph, IsGraph, IsPartition, contracted, merged, singles, IsTightAt, IsUnion, blocks_in, IsNontrivial};
ghost use Rattle.tree_core.specs.Common.{IsCutAt, IsDerivation, IsDerivationAt, kept_at, merged_at, PlainLeafMap, kept_image, merged_image, move_maps, StandsAt, leaves, BlocksAt, IsProper, PlainMove, TurnsThrough, inner_rest, move_result, outer_rest, rotate_result, switch_result_at, union_list, Fits, Shape, cut, cut_count};
ghost use Rattle.tree_core.specs.declared.path.Side.{Side};
ghost use Rattle.move_laws.specs.Common.{Corner, carry, pre, IsPairing, IsSameLeaf, from_name, image_shore, merged_names, to_name, turned_names};

/// Exchange (Lovász 1987, for two single blocks): let x be a tight shore at p, u a block inside and
/// v a block outside, such that the set of u and all outside blocks but v is tight too. Then the
/// partition with the complement of x merged and that with the new shore merged are the same leaf,
/// and so are the two others, by the names of the images that the maps of moves give. The shores
/// may be trivial, and may contain the highest-numbered vertex.
pub fn exchange_law()
    ensures kept { (g : Graph) (p : List (List ℕ)) (x u v : List ℕ) (s t : ℕ) → IsGraph g →
        IsPartition g.order p → IsCovered (contracted g p) →
        IsRisingIn g.order x → IsRisingIn g.order u → IsRisingIn g.order v →
        Corner g p (mem x) (mem u) (mem v) s t →
        IsSameLeaf g (kept_at g.order p x)
        (merged p (union_list g.order (outer_rest g.order x v) u))
        (map (λ b. last_of (kept_image g.order x u v b)) (kept_at g.order p x)) }
    ensures merged { (g : Graph) (p : List (List ℕ)) (x u v : List ℕ) (s t : ℕ) → IsGraph g →
        IsPartition g.order p → IsCovered (contracted g p) →
        IsRisingIn g.order x → IsRisingIn g.order u → IsRisingIn g.order v →
        Corner g p (mem x) (mem u) (mem v) s t →
        IsSameLeaf g (merged_at g.order p x)
        (merged p (union_list g.order (inner_rest g.order x u) v))
        (map (λ b. last_of (merged_image g.order x u v b)) (merged_at g.order p x)) }
{}

/// Carrying: let two partitions be the same leaf by a list of names. A set of blocks is tight, or
/// nontrivial, at the one if and only if its image is so at the other. A tree is a derivation at
/// the one if and only if its shores are unions of blocks there, each without the highest-numbered
/// vertex, and the carried tree is a derivation at the other: each shore is replaced by the
/// canonical one of its image and the image's complement, and the two subtrees change places if the
/// complement is taken. Carrying such a tree back gives the tree itself.
pub fn carrying_law()
    ensures tight { (g : Graph) (p q : List (List ℕ)) (names : List ℕ) (x : Set) → IsGraph g →
        IsPartition g.order p → IsPartition g.order q → IsSameLeaf g p q names →
        IsUnion g.order p x → (IsTightAt g p x ↔ IsTightAt g q (pre (from_name p q names) x)) }
    ensures nontrivial { (g : Graph) (p q : List (List ℕ)) (names : List ℕ) (x : Set) → IsGraph g →
        IsPartition g.order p → IsPartition g.order q → IsSameLeaf g p q names →
        IsUnion g.order p x → (IsNontrivial (length p) (blocks_in p x) ↔
        IsNontrivial (length q) (blocks_in q (pre (from_name p q names) x))) }
    ensures derivation { (g : Graph) (p q : List (List ℕ)) (names : List ℕ) (t : Shape) →
        IsGraph g → IsPartition g.order p → IsPartition g.order q → IsSameLeaf g p q names →
        (IsDerivationAt g p t ↔
        (Fits g.order t × StandsAt g.order p t ×
        IsDerivationAt g q (carry g.order (from_name p q names) t))) }
    ensures again { (g : Graph) (p q : List (List ℕ)) (names : List ℕ) (t : Shape) → IsGraph g →
        IsPartition g.order p → IsPartition g.order q → IsSameLeaf g p q names →
        Fits g.order t → StandsAt g.order p t →
        carry g.order (to_name p names) (carry g.order (from_name p q names) t) ≡ t }
{}

/// Names: let two partitions be the same leaf by a list of names. Then the second and the first are
/// the same leaf by the inverse names. After a union of blocks is merged in the one and its image
/// in the other, the two are again the same leaf.
pub fn same_leaves_law()
    ensures turned { (g : Graph) (p q : List (List ℕ)) (names : List ℕ) → IsGraph g →
        IsPartition g.order p → IsPartition g.order q → IsSameLeaf g p q names →
        IsSameLeaf g q p (turned_names p q names) }
    ensures merged { (g : Graph) (p q : List (List ℕ)) (names x : List ℕ) → IsGraph g →
        IsPartition g.order p → IsPartition g.order q → IsSameLeaf g p q names →
        IsRisingIn g.order x → 0 < length x → IsUnion g.order p (mem x) →
        (let y = image_shore g.order p q names x in IsSameLeaf g (merged p x) (merged q y)
        (merged_names p (merged p x) (merged q y) names)) }
{}

/// Rotate takes a derivation to a derivation, if it has a result.
pub fn rotate_derives_law()
    ensures { (g : Graph) (path : List Side) (s t : Shape) → IsGraph g → IsDerivation g s →
        rotate_result path s ≡ Some t → IsDerivation g t }
{}

/// A proper Switch at the root takes a derivation at p to a derivation at p, if its new shore is a
/// nontrivial tight shore there.
pub fn switch_derives_law()
    ensures { (g : Graph) (p : List (List ℕ)) (s : Shape) (u v z : List ℕ) (a b : Shape) →
        IsGraph g → IsPartition g.order p → IsCovered (contracted g p) → IsDerivationAt g p s →
        BlocksAt g.order p [] u v s → switch_result_at g.order u v s ≡ Some (cut z a b) →
        IsCutAt g p z → IsDerivationAt g p (cut z a b) }
{}

/// The maps of a proper move from a derivation to a derivation pair their leaves.
pub fn moves_pair_law()
    ensures { (g : Graph) (s t : Shape) (m : PlainMove) → IsGraph g → IsDerivation g s →
        IsProper g.order (singles g.order) s m → move_result g.order s m ≡ Some t →
        IsDerivation g t → IsPairing g (leaves g.order s) (leaves g.order t)
        (move_maps g.order s m) }
{}

/// In any derivation with c cuts each canonical nontrivial tight shore of the graph can be brought
/// to the root through derivations, by at most 3 c - 2 moves.
pub fn exposing_law()
    ensures { (g : Graph) (s : Shape) (y : List ℕ) → IsGraph g → IsDerivation g s →
        IsCutAt g (singles g.order) y →
        (ms : List PlainMove) × (a : Shape) × (b : Shape) × TurnsThrough g s ms (cut y a b) ×
        (length ms + 2 ≤ 3 * cut_count s) }
{}

/// Uniqueness (Lovász 1987): of two derivations of a graph the first, with c cuts, can be turned
/// into the second through derivations, by at most 5 c * c moves, and the leaves of the two are
/// paired.
pub fn turning_law()
    ensures turns { (g : Graph) (s t : Shape) → IsGraph g → IsDerivation g s → IsDerivation g t →
        (ms : List PlainMove) × TurnsThrough g s ms t ×
        (length ms ≤ 5 * (cut_count s * cut_count s)) }
    ensures pairs { (g : Graph) (s t : Shape) → IsGraph g → IsDerivation g s → IsDerivation g t →
        (maps : List PlainLeafMap) × IsPairing g (leaves g.order s) (leaves g.order t) maps }
{}
