//! The laws on tight shores of bipartite graphs, each the contract of a function that does nothing.
ghost use Rattle.std.specs.Prelude.{◌≡◌, ◌≢◌, ◌↔◌, ◌⊎◌, ℕ, true, false, List};
ghost use Rattle.graph_core.specs.from_counting.Common.{Within, Set, complement, none};
ghost use Rattle.graph_core.specs.Common.{IsCovered, Graph, IsGraph, IsPerfect, HasOnlyTrivialTightCuts, IsTight, Walk, IsSide};
ghost use Rattle.matching_digraph.specs.Digraph.{NoArcLeaves, NoneParts, Spans, arc, are_mates, reached_past, step_past};

/// Let a be a vertex of the side in a bipartite covered graph, and b its mate. The tight shores
/// with a but not b are exactly the vertex sets with a but not b that no arc of the digraph of the
/// matching leaves, except the arc of a.
pub fn tight_shores_law()
    ensures { (g : Graph) (x m : Set) (a b : ℕ) (y : Set) →
        IsGraph g → IsCovered g → IsSide g x → IsPerfect g none m → x a ≡ true →
        are_mates g m a b ≡ true →
        y a ≡ true → y b ≡ false → IsTight g y ↔ NoArcLeaves g x m a y }
{}

/// The vertices reached from r past a are a itself and the ends of the walks from r of which no
/// step begins at a.
pub fn reached_law()
    ensures { (g : Graph) (x m : Set) (a r v : ℕ) → IsGraph g → Within g.order r →
        (reached_past g.order (arc g x m) a r v ≡ true)
        ↔ ((a ≡ v) ⊎ ((ws : List ℕ) × Walk (step_past a (arc g x m)) r ws v)) }
{}

/// No nontrivial tight shore contains a but not its mate b if and only if all vertices but b are
/// reached past a from any one other vertex r, and all but a past b in the digraph of the other
/// side. In other words: if a and b are deleted and each other edge of the matching is contracted,
/// the digraph is strongly connected.
pub fn inseparable_law()
    ensures { (g : Graph) (x m : Set) (a b r : ℕ) →
        IsGraph g → IsCovered g → IsSide g x → IsPerfect g none m → x a ≡ true →
        are_mates g m a b ≡ true →
        Within g.order r → r ≢ a → r ≢ b →
        NoneParts g a b
        ↔ (Spans g.order (arc g x m) a r b × Spans g.order (arc g (complement x) m) b r a) }
{}

/// A bipartite covered graph has no nontrivial tight cut if and only if no nontrivial tight shore
/// separates a vertex of the side from its mate in one perfect matching.
pub fn separated_mates_law()
    ensures { (g : Graph) (x m : Set) → IsGraph g → IsCovered g → IsSide g x → IsPerfect g none m →
        HasOnlyTrivialTightCuts g
        ↔ ((a b : ℕ) → x a ≡ true → are_mates g m a b ≡ true → NoneParts g a b) }
{}
