//! Reading graph6 texts.
ghost use Rattle.std.specs.Prelude.{◌≡◌, ◌≢◌, ◌≤◌, ◌++◌, ◌+◌, ◌*◌, ◌<◌, [], ◌∷◌, IfOk, IfErr, IsTrue, Ok, OnOk, None, length, drop, take};
ghost use Rattle.std.specs.List.{list_all, list_any};
ghost use Rattle.graph_core.specs.from_counting.Common.{Within};
ghost use Rattle.graph_core.specs.from_line_text.Common.{IsFault};
ghost use Rattle.graph_core.specs.Common.{Graph, size, IsSimple, pair_of};
ghost use Rattle.graph6_text.specs.Common.{bits_of, chosen, chosen_one, column, column_pairs, data_len, is_digit, limit_row, pair_count, Checks, IsFirstFaultOfRows, outcome_of, graph_of_bits, faults_of, first_fault, graph6_of};

use crate::body::{body, data, order};
use crate::checks::{check_body, fault, pair_count};
use crate::digits::{BITS, is_set};
use graph_core::line_text::{FaultKind, TextFault};
use graph_core::vset_core::MOST_VERTICES;
use graph_core::{Ends, MOST_EDGES, MultiGraph};
use std::alloc::Global;

/// The graph that a graph6 text stands for. The text may begin with the header `>>graph6<<` and may
/// end with one line end; it is a single graph. The edges are in the order of the columns of the
/// adjacency matrix. `At` comes if and only if the text stands for no graph, with line and kind of
/// its first error, in this order: the body is empty (Missing); it has a line feed (Extra, at line
/// 2, while every other error is at line 1); a byte is outside 63 to 126 (Range); a long size is
/// cut short (Missing), is of 36 bits (Limit) or is at most 62 (LongForm); more than
/// `MOST_VERTICES` vertices (Limit); the data are too short (Missing) or too long (Extra); a
/// padding bit is set (Padding); more than `MOST_EDGES` edges (Limit). The other error is `Memory`.
/// Takes O(n^2) time.
pub fn read_graph6(alloc: Global, bytes: &[u8]) -> Result<MultiGraph, TextFault>
    ensures value { IfOk result (λ g. outcome_of bytes.now ≡ Ok g) }
    ensures simple { IfOk result IsSimple }
    ensures fault { IfErr result (λ fault. IsFault fault (outcome_of bytes.now)) }
{
    let body = body(bytes);
    check_body(body)?;
    to_graph(alloc, body)
}

/// A text without its header and line end, if it has them. If the text stands for a graph, this is
/// what `write_graph6` writes for it. Takes no memory.
#[tactic(auto, using(crate::proofs::Canonical::bare_written))]
pub fn bare_text(text: &[u8]) -> &[u8]
    ensures { (g : Graph) → outcome_of text.now ≡ Ok g → result.now ≡ graph6_of g }
{
    body(text)
}

/// The graph of a body whose size and length have been checked.
fn to_graph(alloc: Global, body: &[u8]) -> Result<MultiGraph, TextFault>
    requires { first_fault (take 9 (faults_of body.now)) ≡ None }
    ensures graph { IfOk result (λ g. g ≡ graph_of_bits body.now) }
    ensures passed { OnOk result (first_fault (drop 9 (faults_of body.now)) ≡ None) }
    ensures fault { IfErr result (IsFirstFaultOfRows (drop 9 (faults_of body.now))) }
{
    let n = order(body);
    let data = data(body);
    check_filling(data, pair_count(n))?;
    with_edges(alloc, n, data)
}

/// No bit of the data from place `from` on is set.
fn check_filling(data: &[u8], from: usize) -> Result<(), TextFault>
    requires digits { IsTrue (list_all is_digit data.now) }
    requires short { length data.now ≤ data_len MOST_VERTICES }
    ensures { Checks result
        ((list_any (λ bit. bit) (drop from (bits_of data.now)), (1, FaultKind.Padding)) ∷ []) }
{
    if is_any_set(data, from) {
        return Err(fault(FaultKind::Padding));
    }
    Ok(())
}

/// Whether a bit of the data from place `from` on is set.
fn is_any_set(data: &[u8], from: usize) -> bool
    requires digits { IsTrue (list_all is_digit data.now) }
    requires short { length data.now ≤ data_len MOST_VERTICES }
    ensures { result ≡ list_any (λ bit. bit) (drop from (bits_of data.now)) }
{
    for k in from..data.len() * BITS {
        if is_set(data, k) {
            return true;
        }
    }
    false
}

/// Adds the pair if its bit is set.
fn add_chosen(graph: &mut MultiGraph, pair: Ends, bit: bool) -> Result<(), TextFault>
    requires first { Within graph.old.order pair.a }
    requires second { Within graph.old.order pair.b }
    requires different { pair.a ≢ pair.b }
    requires size { size graph.old ≤ 2048 }
    ensures order { OnOk result (graph.new.order ≡ graph.old.order) }
    ensures ends { OnOk result (graph.new.ends ≡ graph.old.ends ++ chosen_one (pair_of pair) bit) }
    ensures size { OnOk result (size graph.new ≤ 2048) }
    ensures limit { IfErr result
        (IsFirstFaultOfRows (limit_row (graph.old.ends ++ chosen_one (pair_of pair) bit))) }
{
    if !bit {
        return Ok(());
    }
    if graph.size() == MOST_EDGES {
        return Err(fault(FaultKind::Limit));
    }
    graph.push_edge(pair)?;
    Ok(())
}

/// Adds the pairs of a column with a set bit, which are those of a vertex with each of the vertices
/// `before` it. The bits of the column are those of the data from place `from` on.
fn add_column(
    graph: &mut MultiGraph,
    before: u32,
    data: &[u8],
    from: usize,
) -> Result<(), TextFault>
    requires digits { IsTrue (list_all is_digit data.now) }
    requires short { length data.now ≤ data_len MOST_VERTICES }
    requires few { before < graph.old.order }
    requires size { size graph.old ≤ 2048 }
    requires long { from + before ≤ 6 * length data.now }
    ensures order { OnOk result (graph.new.order ≡ graph.old.order) }
    ensures ends { OnOk result
        (graph.new.ends ≡
        graph.old.ends ++ chosen (column before (before + 1)) (drop from (bits_of data.now))) }
    ensures size { OnOk result (size graph.new ≤ 2048) }
    ensures limit { IfErr result
        (IsFirstFaultOfRows (limit_row
        (graph.old.ends ++ chosen (column before (before + 1)) (drop from (bits_of data.now))))) }
{
    for i in 0..before {
        let pair = Ends {
            a: i + 1,
            b: before + 1,
        };
        add_chosen(graph, pair, is_set(data, from + i as usize))?;
    }
    Ok(())
}

/// The graph of `n` vertices whose edges are the pairs with a set bit.
fn with_edges(alloc: Global, n: u32, data: &[u8]) -> Result<MultiGraph, TextFault>
    requires digits { IsTrue (list_all is_digit data.now) }
    requires short { length data.now ≤ data_len MOST_VERTICES }
    requires few { n ≤ MOST_VERTICES }
    requires long { pair_count n ≤ 6 * length data.now }
    ensures graph { IfOk result
        (λ g. g ≡ record { order = n; ends = chosen (column_pairs n) (bits_of data.now) }) }
    ensures within { OnOk result
        (first_fault (limit_row (chosen (column_pairs n) (bits_of data.now))) ≡ None) }
    ensures limit { IfErr result
        (IsFirstFaultOfRows (limit_row (chosen (column_pairs n) (bits_of data.now)))) }
{
    let mut graph = MultiGraph::new(alloc, n)?;
    let mut from = 0;
    for i in 0..n {
        add_column(&mut graph, i, data, from)?;
        from += i as usize;
    }
    Ok(graph)
}
