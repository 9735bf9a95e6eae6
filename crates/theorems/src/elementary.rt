//! Elementary components: the components of the subgraph of the allowed edges.
//!
//! Source: Lovász and Plummer, "Matching Theory" (1986), section 5.1.
ghost use Rattle.std.specs.Prelude.{◌≡◌, ℕ, List, length};
ghost use Rattle.tree_check.specs.from_counting.Common.{IsIn, Within, none};
ghost use Rattle.graph_core.specs.Common.{Allowed, Graph, HasPerfect, IsCovered, IsMultigraph, size};
ghost use Rattle.bench_top.specs.from_mcg6_lines.Elementary.{component_graph, elementary_parts};

/// Elementary components: in a graph with a perfect matching, each component of the subgraph of the
/// allowed edges is a matching covered graph. If the graph has only one such component and each of
/// its edges is allowed, it is matching covered (Lovász and Plummer, "Matching Theory", section
/// 5.1).
pub fn elementary_components_law()
    ensures covered { (g : Graph) (vs : List ℕ) → IsMultigraph g → HasPerfect g none →
        IsIn vs (elementary_parts g) → IsCovered (component_graph g vs) }
    ensures whole { (g : Graph) → IsMultigraph g → length (elementary_parts g) ≡ 1 →
        HasPerfect g none → ((e : ℕ) → Within (size g) e → Allowed g e) → IsCovered g }
{}
