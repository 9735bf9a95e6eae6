//! 2-extendable graphs.
//!
//! Source: Plummer, "On n-extendable graphs" (1980).
ghost use Rattle.std.specs.Prelude.{ℕ, ◌≤◌, ◌⊎◌};
ghost use Rattle.tree_check.specs.from_counting.Common.{none};
ghost use Rattle.graph_core.specs.Common.{Graph, HasOnlyTrivialTightCuts, HasPerfect, IsBicritical, IsBipartite, IsConnected, IsCovered, IsMultigraph};
ghost use Rattle.theorems.specs.Braces.{IsTwoExtendable};
ghost use Rattle.theorems.specs.Bricks.{IsThreeConnected};
ghost use Rattle.theorems.specs.CutWords.{IsBrace, IsBrick};

/// Plummer's theorem on 2-extendable graphs: a connected graph with a perfect matching and six
/// vertices or more in which any two edges without a common end are in one perfect matching is
/// matching covered and has no nontrivial tight cut. So it is a brick, or bipartite and a brace. It
/// is 3-connected, and if it is not bipartite, bicritical (Plummer 1980).
pub fn extendable_law()
    ensures uncut { (g : Graph) → IsMultigraph g → 6 ≤ g.order → IsConnected g →
        HasPerfect g none → IsTwoExtendable g → IsCovered g × HasOnlyTrivialTightCuts g }
    ensures kinds { (g : Graph) → IsMultigraph g → 6 ≤ g.order → IsConnected g →
        HasPerfect g none → IsTwoExtendable g → IsBrick g ⊎ IsBrace g }
    ensures brick { (g : Graph) → IsMultigraph g → 6 ≤ g.order → IsConnected g →
        HasPerfect g none → IsTwoExtendable g → ¬ (IsBipartite g) →
        IsThreeConnected g × IsBicritical g }
    ensures connected { (g : Graph) → IsMultigraph g → 6 ≤ g.order → IsConnected g →
        HasPerfect g none → IsTwoExtendable g → IsThreeConnected g }
{}
