//! Laws of derivations and of plain trees. Each is the contract of a function that does nothing.
ghost use Rattle.std.specs.Prelude.{◌≡◌, ◌+◌, ◌*◌, ◌≤◌, ◌↔◌, ℕ, length, List, All, Any};
ghost use Rattle.graph_core.specs.Common.{IsCovered, Graph, IsGraph, IsPartition, singles, quotient};
ghost use Rattle.tree_core.specs.Common.{Shape, Fits, cut, cut_count, depth, leaf, leaf_count, node_count, shores, IsCutAt, IsDerivation, IsLeafAt, IsTightShore, LeadsTo, StandsAt, leaves};
ghost use Rattle.tree_core.specs.declared.path.Side.{Side};

/// A derivation of a graph fits the graph's order, and each of its shores is a nonempty union of
/// blocks where it stands. So its leaves may be asked for.
pub fn derivation_stands_law()
    ensures fits { (g : Graph) (t : Shape) → IsDerivation g t → Fits g.order t }
    ensures stands { (g : Graph) (t : Shape) → IsDerivation g t →
        StandsAt g.order (singles g.order) t }
{}

/// Each leaf of a derivation is a partition at which no nontrivial shore is tight, and its
/// quotient is matching covered.
pub fn derivation_leaves_law()
    ensures partitions { (g : Graph) (t : Shape) → IsDerivation g t →
        All (IsPartition g.order) (leaves g.order t) }
    ensures uncut { (g : Graph) (t : Shape) → IsDerivation g t →
        All (IsLeafAt g) (leaves g.order t) }
    ensures covered { (g : Graph) (t : Shape) → IsGraph g → IsDerivation g t →
        All (λ (p : List (List ℕ)). IsCovered (quotient g p)) (leaves g.order t) }
{}

/// Each shore of a derivation is a canonical nontrivial tight shore of the graph itself, and not
/// only at the partition where it stands (Lovász 1987). At the partition into single vertices a
/// cut of a derivation names nothing else.
pub fn derivation_shores_law()
    ensures root { (g : Graph) (x : List ℕ) → IsGraph g →
        (IsCutAt g (singles g.order) x ↔ IsTightShore g x) }
    ensures tight { (g : Graph) (t : Shape) → IsGraph g → IsDerivation g t →
        All (IsTightShore g) (shores t) }
{}

/// A tree with c cuts has c + 1 leaves and 2 c + 1 nodes, and its list of leaves has that length.
pub fn tree_sizes_law()
    ensures leaves { (t : Shape) → leaf_count t ≡ cut_count t + 1 }
    ensures nodes { (t : Shape) → node_count t ≡ 2 * cut_count t + 1 }
    ensures list { (n : ℕ) (t : Shape) → length (leaves n t) ≡ leaf_count t }
{}

/// What a tree has, by the paths from its root: the leaves are the partitions of the leaves that
/// some path leads to, the shores those of the cuts that some path leads to, and the depth is the
/// greatest number of nodes on a path to a leaf.
pub fn tree_paths_law()
    ensures leaf { (n : ℕ) (t : Shape) (q : List (List ℕ)) →
        (Any (λ (p : List (List ℕ)). p ≡ q) (leaves n t) ↔
        ((path : List Side) × LeadsTo n path (singles n) t q leaf)) }
    ensures shore { (n : ℕ) (t : Shape) (x : List ℕ) → (Any (λ (y : List ℕ). y ≡ x) (shores t) ↔
        ((path : List Side) × (q : List (List ℕ)) × (k : Shape) × (m : Shape) ×
        LeadsTo n path (singles n) t q (cut x k m))) }
    ensures within { (n : ℕ) (t : Shape) (q : List (List ℕ)) (path : List Side) →
        LeadsTo n path (singles n) t q leaf → length path + 1 ≤ depth t }
    ensures deepest { (n : ℕ) (t : Shape) →
        (path : List Side) × (q : List (List ℕ)) × LeadsTo n path (singles n) t q leaf ×
        (length path + 1 ≡ depth t) }
{}

/// A derivation of a graph with at least four vertices has at most half as many leaves as
/// vertices, less one: n vertices and c leaves keep 2 c + 2 at most n (Lovász 1987).
pub fn derivation_size_law()
    ensures { (g : Graph) (t : Shape) → IsGraph g → IsDerivation g t → 4 ≤ g.order →
        2 * leaf_count t + 2 ≤ g.order }
{}
