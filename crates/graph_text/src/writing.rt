//! Writing a graph.
ghost use Rattle.std.specs.Prelude.{◌≡◌, ◌≤◌, ◌++◌, [], ◌∷◌, length, map, Some, OnOk, IfOk, string_bytes};
ghost use Rattle.graph_core.specs.from_counting.Common.{Within};
ghost use Rattle.graph_text.specs.Common.{either_version, version_one, most_vertices, most_edges, edge_words, graph_text, name_words, named_edge_words, named_text};
ghost use Rattle.graph_core.specs.from_line_text.Common.{Stands, StandsAlone, written};
ghost use Rattle.graph_core.specs.Common.{size, pair_of};

use crate::names::Names;
use graph_core::{Ends, MultiGraph};
use std::alloc::{AllocError as Memory, Global};

// The line of an edge.
fn push_edge(text: &mut String, ends: Ends) -> Result<(), Memory>
    ensures { OnOk result
        (string_bytes text.new ≡ string_bytes text.old ++
        written (edge_words (pair_of ends) ∷ [])) }
{
    let Ends { a, b } = ends;
    write!(text, "e {a} {b}\n")
}

// The lines of the edges.
fn push_edges(text: &mut String, g: &MultiGraph) -> Result<(), Memory>
    ensures { OnOk result
        (string_bytes text.new ≡ string_bytes text.old ++ written (map edge_words g.now.ends)) }
{
    let size = g.size();
    for i in 0..size {
        push_edge(text, g.ends(i + 1))?;
    }
    Ok(())
}

/// Writes a graph of at most 64 vertices and 512 edges in version 1 of the format: a header `p mcg
/// N M` with the numbers of vertices and edges, and a line `e A B` for each edge, in the order of
/// their numbers, with its ends in their order.
///
/// Reading the text gives the same graph, and nothing else. Takes O(n + m) time; the only error is
/// `Memory`.
///
/// For a graph of two vertices and an edge:
///
/// ```
/// let mut graph = MultiGraph::new(alloc, 2)?;
/// graph.add_edge(1, 2)?;
/// assert!(rt; graph.order() <= 64 && graph.size() <= 512);
/// let text = write_graph(alloc, &graph)?;
/// assert!(rt; text.as_slice() == "p mcg 2 1\ne 1 2\n".as_bytes());
/// ```
pub fn write_graph(alloc: Global, g: &MultiGraph) -> Result<Vec<u8>, Memory>
    requires vertices { g.now.order ≤ most_vertices }
    requires edges { size g.now ≤ most_edges }
    ensures text { IfOk result (λ text. text.items ≡ graph_text g.now) }
    ensures stands { IfOk result (λ text. Stands version_one text.items g.now) }
    ensures alone { IfOk result (λ text. StandsAlone version_one text.items) }
{
    g.keeps_limits();
    let order = g.order();
    let size = g.size();
    let mut text = format!(in alloc; "p mcg {order} {size}\n")?;
    push_edges(&mut text, g)?;
    Ok(text.into_bytes())
}

// The line of a name.
fn push_name(text: &mut String, name: &str) -> Result<(), Memory>
    ensures { OnOk result
        (string_bytes text.new ≡ string_bytes text.old ++ written (name_words name.now ∷ [])) }
{
    write!(text, "v {name}\n")
}

// The lines of the names.
fn push_names(text: &mut String, names: &Names) -> Result<(), Memory>
    ensures { OnOk result
        (string_bytes text.new ≡ string_bytes text.old ++ written (map name_words names.now)) }
{
    let count = names.len();
    for k in 0..count {
        push_name(text, names.get(k))?;
    }
    Ok(())
}

// The line of an edge between named vertices.
fn push_named_edge(text: &mut String, names: &Names, ends: Ends) -> Result<(), Memory>
    requires first { Within (length names.now) ends.a }
    requires second { Within (length names.now) ends.b }
    ensures { OnOk result
        (string_bytes text.new ≡ string_bytes text.old ++
        written (named_edge_words names.now (pair_of ends) ∷ [])) }
{
    let a = names.get(ends.a as usize - 1);
    let b = names.get(ends.b as usize - 1);
    write!(text, "e {a} {b}\n")
}

// The lines of the edges between named vertices.
fn push_named_edges(text: &mut String, g: &MultiGraph, names: &Names) -> Result<(), Memory>
    requires { length names.now ≡ g.now.order }
    ensures { OnOk result
        (string_bytes text.new ≡ string_bytes text.old ++
        written (map (named_edge_words names.now) g.now.ends)) }
{
    let size = g.size();
    for i in 0..size {
        push_named_edge(text, names, g.ends(i + 1))?;
    }
    Ok(())
}

/// Writes a graph with the names of its vertices, one for each, in version 2 of the format: a
/// header `p mcg2 N M`, a line `v NAME` for each vertex, and a line `e X Y` for each edge, in the
/// order of their numbers, with the names of its ends in their order.
///
/// Reading the text gives the same graph and names, and nothing else. Takes O(n + m) time; the only
/// error is `Memory`.
pub fn write_named(alloc: Global, g: &MultiGraph, names: &Names) -> Result<Vec<u8>, Memory>
    requires { length names.now ≡ g.now.order }
    ensures text { IfOk result (λ text. text.items ≡ named_text g.now names.now) }
    ensures stands { IfOk result
        (λ text. Stands either_version text.items
        (record { graph = g.now; names = Some names.now })) }
    ensures alone { IfOk result (λ text. StandsAlone either_version text.items) }
{
    g.keeps_limits();
    names.are_names();
    let order = g.order();
    let size = g.size();
    let mut text = format!(in alloc; "p mcg2 {order} {size}\n")?;
    push_names(&mut text, names)?;
    push_named_edges(&mut text, g, names)?;
    Ok(text.into_bytes())
}
