//! The answer to a line.
ghost use Rattle.std.specs.Prelude.{◌≡◌, IfErr, IfOk, Ok};
ghost use Rattle.graph6_text.specs.Common.{outcome_of};
ghost use Rattle.graph_core.specs.Common.{IsSimple};
ghost use Rattle.graph_text.specs.Common.{plain_names, named_text};
ghost use Rattle.mcg6_lines.specs.Telling.{HasFault, IsTold, TellsLine, file_text};

use crate::cut_lines::cut_lines;
use crate::ear_lines::ear_lines;
use crate::elementary_lines::elementary_lines;
use crate::kind_lines::kind_line;
use crate::leaf_lines::leaf_lines;
use crate::matching_lines::matching_line;
use crate::query::Query;
use crate::selecting::selected;
use graph_core::MultiGraph;
use graph_core::line_text::{FaultKind, TextFault};
use graph_text::{VERSION_ONE_EDGES, VERSION_ONE_VERTICES, plain_names, write_graph, write_named};
use graph6_text::read_graph6;
use std::alloc::{AllocError as Memory, Global};

/// The answer to a line with this number, counted from 1: the bytes that are written for what the
/// query asks of the graph that stands in the line, or the kind of the line's fault. The line may
/// have a header before the graph6 text and a line end after it, as `read_graph6` has it.
pub fn tell(
    alloc: Global,
    query: &Query,
    number: u64,
    line: &[u8],
) -> Result<Result<Vec<u8>, FaultKind>, Memory>
    ensures told { IfOk result (λ r. IfOk r
        (λ bytes. TellsLine query.now number line.now bytes.items)) }
    ensures fault { IfOk result (λ r. IfErr r (HasFault line.now)) }
{
    match read_graph6(alloc, line) {
        Ok(g) => Ok(Ok(output(alloc, query, number, line, &g)?)),
        Err(TextFault::At { kind, .. }) => Ok(Err(kind)),
        Err(TextFault::Memory) => Err(Memory),
    }
}

// The bytes that are written for a line in which the graph stands.
fn output(
    alloc: Global,
    query: &Query,
    number: u64,
    line: &[u8],
    g: &MultiGraph,
) -> Result<Vec<u8>, Memory>
    requires stands { outcome_of line.now ≡ Ok g.now }
    requires simple { IsSimple g.now }
    ensures { IfOk result (λ bytes. IsTold query.now number line.now g.now bytes.items) }
{
    match query {
        Query::Kinds => kind_line(alloc, g, line),
        Query::Leaves { order } => leaf_lines(alloc, g, *order, number, line),
        Query::Elementary => elementary_lines(alloc, g, number),
        Query::Matching => matching_line(alloc, g, line),
        Query::Cuts => cut_lines(alloc, g, number, line),
        Query::Ears => ear_lines(alloc, g, number, line),
        Query::Graph => file_text(alloc, g),
        Query::Select { property } => selected(alloc, g, *property, line),
    }
}

// The canonical text of the graph file: of version 1, or if that has no room of version 2 with
// plain names.
#[tactic(auto, unfolding(crate::specs::Telling::file_text))]
fn file_text(alloc: Global, g: &MultiGraph) -> Result<Vec<u8>, Memory>
    ensures { IfOk result (λ bytes. bytes.items ≡ file_text g.now) }
{
    if g.order() > VERSION_ONE_VERTICES || g.size() > VERSION_ONE_EDGES {
        named_file_text(alloc, g)
    } else {
        write_graph(alloc, g)
    }
}

// The canonical text of the graph file of version 2 with plain names.
fn named_file_text(alloc: Global, g: &MultiGraph) -> Result<Vec<u8>, Memory>
    ensures { IfOk result (λ bytes. bytes.items ≡ named_text g.now (plain_names g.now.order)) }
{
    g.keeps_limits();
    let names = plain_names(alloc, g.order())?;
    write_named(alloc, g, &names)
}
