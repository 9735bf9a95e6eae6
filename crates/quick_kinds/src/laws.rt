//! The theorem on braces, the contract of a function that does nothing.
ghost use Rattle.std.specs.Prelude.{◌↔◌};
ghost use Rattle.graph_core.specs.from_counting.Common.{Set};
ghost use Rattle.graph_core.specs.Common.{IsCovered, Graph, IsGraph, HasOnlyTrivialTightCuts, IsSide};
ghost use Rattle.quick_kinds.specs.Braces.{AreFoursMatched};

/// The theorem on braces: a covered graph whose sides are x and its complement has no nontrivial
/// tight cut if and only if deleting any two vertices of each side leaves a graph with a perfect
/// matching (Lovász and Plummer, "Matching Theory").
pub fn four_deletions_law()
    ensures { (g : Graph) (x : Set) → IsGraph g → IsCovered g → IsSide g x →
        HasOnlyTrivialTightCuts g ↔ AreFoursMatched g x }
{}
