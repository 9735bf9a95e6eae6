//! What both versions of the graph format share.
ghost use Rattle.std.specs.Prelude.{◌≡◌, ◌≤◌};
ghost use Rattle.graph_core.specs.from_line_text.Common.{Gives, texts_of};
ghost use Rattle.graph_core.specs.Common.{Graph};
ghost use Rattle.graph_text.specs.Common.{GraphSoFar, edge_line, graph_line, graph_end, so_far};

use crate::body::Body;
use graph_core::MultiGraph;
use graph_core::line_text::{FaultKind, RuleFault, has_form, number, word};

// A line of an edge between numbered vertices.
fn add_edge(body: &mut Body, words: &[&[u8]]) -> Result<(), RuleFault<FaultKind>>
    ensures { Gives (λ _. so_far body.new) result
        (edge_line (so_far body.old) (texts_of words.now)) }
{
    if !has_form(words, 3, &["e"]) {
        return Err(RuleFault::Fault(FaultKind::Word));
    }
    let (Some(a), Some(b)) = (number(word(words, 1)), number(word(words, 2))) else {
        return Err(RuleFault::Fault(FaultKind::Number));
    };
    let n = body.graph.order();
    if a == 0 || a > n || b == 0 || b > n {
        return Err(RuleFault::Fault(FaultKind::Range));
    }
    if a == b {
        return Err(RuleFault::Fault(FaultKind::Loop));
    }
    match body.graph.add_edge(a, b) {
        Ok(_) => Ok(()),
        Err(_) => Err(RuleFault::Memory),
    }
}

/// A significant line after the header.
pub fn read_edge(body: &mut Body, words: &[&[u8]]) -> Result<(), RuleFault<FaultKind>>
    ensures { Gives (λ _. so_far body.new) result
        (graph_line (so_far body.old) (texts_of words.now)) }
{
    if body.graph.size() == body.edges {
        return Err(RuleFault::Fault(FaultKind::Extra));
    }
    add_edge(body, words)
}

/// The end of the text.
pub fn close_graph(body: Body) -> Result<MultiGraph, RuleFault<FaultKind>>
    ensures { Gives (λ (g : Graph). g) result (graph_end (so_far body)) }
{
    if body.graph.size() == body.edges {
        Ok(body.graph)
    } else {
        Err(RuleFault::Fault(FaultKind::Missing))
    }
}
