//! The law of bricks, the contract of a function that does nothing.
ghost use Rattle.graph_core.specs.Common.{IsCovered, Graph, IsMultigraph};
ghost use Rattle.graph_core.specs.declared.verdict.Kind.TheVariants.{Brick};
ghost use Rattle.leaf_kinds.specs.LeafKinds.{IsKind, IsThreeConnectedAndBicritical};

/// A brick has at least four vertices, is bicritical and has no cut pair (Edmonds, Lovász and
/// Pulleyblank 1982; Lovász 1987).
pub fn brick_kind_law()
    ensures { (g : Graph) → IsMultigraph g → IsCovered g → IsKind g Brick →
        IsThreeConnectedAndBicritical g }
{}
