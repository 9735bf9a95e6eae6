//! The theorem on flows and cuts, the contract of a function that does nothing.
ghost use Rattle.std.specs.Prelude.{ℕ, ◌≤◌, List, ℤ};
ghost use Rattle.vset_core.specs.from_counting.Common.{Within, Set};
ghost use Rattle.flow_core.specs.Common.{Net, IsNet, Separates, IsLeastCut, cut_value, IsFlow, IsReachedSet};

/// Flows and cuts (Ford and Fulkerson 1956): no flow has a value above that of a set with the
/// source but not the sink. If no path of residual arcs leads from the source to the sink, the
/// nodes that such paths reach are the least minimum cut, whose value is that of the flow.
pub fn flow_law()
    ensures bound { (net : Net) (source sink : ℕ) (amounts : List ℤ) (value : ℕ) → IsNet net →
        Within net.nodes source → IsFlow net source sink amounts value
        → (x : Set) → Separates source sink x → value ≤ cut_value net x }
    ensures least { (net : Net) (source sink : ℕ) (amounts : List ℤ) (value : ℕ) → IsNet net →
        Within net.nodes source → IsFlow net source sink amounts value
        → (set : List ℕ) → IsReachedSet net amounts source sink set →
        IsLeastCut net source sink set value }
{}
