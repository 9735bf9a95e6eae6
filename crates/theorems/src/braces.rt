//! Which bipartite graphs are braces?
//!
//! Sources: Lovász, "Matching structure and the matching lattice" (1987); Plummer, "Matching
//! extension in bipartite graphs" (1986); Lovász and Plummer, "Matching Theory".
ghost use Rattle.std.specs.Prelude.{◌≡◌, ℕ, ◌≤◌, ◌↔◌, true};
ghost use Rattle.tree_check.specs.from_counting.Common.{Set, none};
ghost use Rattle.graph_core.specs.Common.{IsConnected, IsCovered, Graph, IsGraph, IsMultigraph, HasPerfect, IsPerfect, HasOnlyTrivialTightCuts, IsSide};
ghost use Rattle.quick_kinds.specs.from_matching_digraph.Digraph.{NoneParts, are_mates};
ghost use Rattle.quick_kinds.specs.Braces.{AreFoursMatched};
ghost use Rattle.theorems.specs.Braces.{HasWideNeighbourhoods, IsStrongWithout, IsTwoExtendable};

/// Braces in four ways: of a matching covered bipartite graph with the sides A and B these say
/// the same. It has no nontrivial tight cut; G - a - a' - b - b' has a perfect matching for any
/// two vertices a, a' of A and any two b, b' of B; each S of 1 to |A| - 2 vertices of A has at
/// least |S| + 2 neighbours; any two edges without a common end are together in a perfect
/// matching. A bipartite graph of six vertices or more is a brace if and only if it is connected,
/// has a perfect matching and any two edges without a common end are together in one, that is, if
/// it is 2-extendable (Lovász 1987; Plummer 1986).
pub fn braces_law()
    ensures fours { (g : Graph) (a : Set) → IsGraph g → IsCovered g → IsSide g a →
        HasOnlyTrivialTightCuts g ↔ AreFoursMatched g a }
    ensures neighbourhoods { (g : Graph) (a : Set) → IsMultigraph g → IsCovered g → IsSide g a →
        HasOnlyTrivialTightCuts g ↔ HasWideNeighbourhoods g a }
    ensures two_edges { (g : Graph) (a : Set) → IsMultigraph g → IsCovered g → IsSide g a →
        HasOnlyTrivialTightCuts g ↔ IsTwoExtendable g }
    ensures connected { (g : Graph) (a : Set) → IsMultigraph g → IsSide g a → 6 ≤ g.order →
        (IsCovered g × HasOnlyTrivialTightCuts g) ↔
        (IsConnected g × HasPerfect g none × IsTwoExtendable g) }
{}

/// Braces by the digraph of one perfect matching: in a matching covered bipartite graph no
/// nontrivial tight shore parts a vertex a of a side from its mate b if and only if the digraph of
/// the matching without a and b is strongly connected; and there is no nontrivial tight cut if and
/// only if this holds at each edge ab of the matching (Lovász and Plummer, "Matching Theory").
pub fn strong_digraph_law()
    ensures mates { (g : Graph) (x m : Set) (a b : ℕ) →
        IsGraph g → IsCovered g → IsSide g x → IsPerfect g none m →
        x a ≡ true → are_mates g m a b ≡ true →
        NoneParts g a b ↔ IsStrongWithout g x m a b }
    ensures brace { (g : Graph) (x m : Set) →
        IsGraph g → IsCovered g → IsSide g x → IsPerfect g none m →
        HasOnlyTrivialTightCuts g ↔ ((a b : ℕ) → x a ≡ true → are_mates g m a b ≡ true →
        IsStrongWithout g x m a b) }
{}
