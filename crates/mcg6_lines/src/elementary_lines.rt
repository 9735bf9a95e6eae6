//! The lines of `elementary`.
ghost use Rattle.std.specs.Prelude.{◌≡◌, ◌≢◌, ◌≤◌, ◌<◌, ◌++◌, ◌&&◌, true, All, IfOk, OnOk, length};
ghost use Rattle.allowed_edges.specs.from_counting.Common.{IsRisingIn, Within, mem, none};
ghost use Rattle.graph_core.specs.Common.{IsSimple, size, with_edge};
ghost use Rattle.allowed_edges.specs.from_match_core.Common.{ArePartners};
ghost use Rattle.mcg6_lines.specs.Elementary.{allowed_subgraph, component_graph, component_line, component_lines, elementary_lines, elementary_parts, number_in, with_allowed, with_inside};

use crate::decimals::{push_decimal, push_vertices};
use allowed_edges::match_core::{PartnerTable, maximum};
use allowed_edges::{is_allowed_in, partners_where_perfect};
use graph_core::vset_core::VSet;
use graph_core::{Ends, MultiGraph, SetList};
use graph6_text::push_graph6;
use std::alloc::{AllocError as Memory, Global};

/// The lines of the elementary components of a simple graph in the line with this number, by their
/// least vertices; nothing if it has no perfect matching. Takes one maximum matching, at most n
/// searches, and O(m) steps for each component; the only error is `Memory`.
pub fn elementary_lines(alloc: Global, g: &MultiGraph, number: u64) -> Result<Vec<u8>, Memory>
    requires { IsSimple g.now }
    ensures { IfOk result (λ lines. lines.items ≡ elementary_lines number g.now) }
{
    let found = maximum(alloc, g)?;
    match partners_where_perfect(alloc, g, &found.matching)? {
        Some(table) => matched_lines(alloc, g, &table, number),
        None => Ok(Vec::new(alloc)),
    }
}

// The lines of the elementary components of a graph with this table of partners.
fn matched_lines(
    alloc: Global,
    g: &MultiGraph,
    table: &PartnerTable,
    number: u64,
) -> Result<Vec<u8>, Memory>
    requires simple { IsSimple g.now }
    requires table { ArePartners g.now none table.now }
    ensures { IfOk result
        (λ lines. lines.items ≡ component_lines number g.now (elementary_parts g.now)) }
{
    let parts = parts_of(alloc, g, table)?;
    lines_of_parts(alloc, g, table, &parts, number)
}

// The vertex sets of the elementary components.
fn parts_of(alloc: Global, g: &MultiGraph, table: &PartnerTable) -> Result<SetList, Memory>
    requires { ArePartners g.now none table.now }
    ensures is { IfOk result (λ parts. parts ≡ elementary_parts g.now) }
    ensures rising { IfOk result (λ parts. All (IsRisingIn g.now.order) parts) }
{
    let allowed = allowed_subgraph(alloc, g, table)?;
    allowed.components_without(alloc, VSet::empty())
}

// The subgraph of the allowed edges.
fn allowed_subgraph(
    alloc: Global,
    g: &MultiGraph,
    table: &PartnerTable,
) -> Result<MultiGraph, Memory>
    requires { ArePartners g.now none table.now }
    ensures { IfOk result (λ h. h ≡ allowed_subgraph g.now) }
{
    let mut allowed = MultiGraph::new(alloc, g.order())?;
    for done in 0..g.size() {
        add_allowed(&mut allowed, g, table, done + 1)?;
    }
    Ok(allowed)
}

// Adds edge `e` of a graph if it is allowed.
fn add_allowed(
    allowed: &mut MultiGraph,
    g: &MultiGraph,
    table: &PartnerTable,
    e: u32,
) -> Result<(), Memory>
    requires within { Within (size g.now) e }
    requires table { ArePartners g.now none table.now }
    requires order { allowed.old.order ≡ g.now.order }
    requires room { size allowed.old < 2048 }
    ensures { OnOk result (allowed.new ≡ with_allowed g.now allowed.old e) }
{
    if is_allowed_in(g, table, e) {
        allowed.push_edge(g.ends(e))
    } else {
        Ok(())
    }
}

// The lines of the components with these vertex sets.
fn lines_of_parts(
    alloc: Global,
    g: &MultiGraph,
    table: &PartnerTable,
    parts: &SetList,
    number: u64,
) -> Result<Vec<u8>, Memory>
    requires simple { IsSimple g.now }
    requires table { ArePartners g.now none table.now }
    requires rising { All (IsRisingIn g.now.order) parts.now }
    ensures { IfOk result (λ lines. lines.items ≡ component_lines number g.now parts.now) }
{
    let mut lines = Vec::new(alloc);
    for i in 0..parts.len() {
        push_component(alloc, &mut lines, g, table, parts.get(i), number)?;
    }
    Ok(lines)
}

// Appends the line of the component with this vertex set.
fn push_component(
    alloc: Global,
    lines: &mut Vec<u8>,
    g: &MultiGraph,
    table: &PartnerTable,
    part: VSet,
    number: u64,
) -> Result<(), Memory>
    requires simple { IsSimple g.now }
    requires table { ArePartners g.now none table.now }
    requires rising { IsRisingIn g.now.order part }
    ensures { OnOk result
        (lines.new.items ≡ lines.old.items ++ component_line number g.now part) }
{
    let component = component_graph(alloc, g, table, part)?;
    push_decimal(lines, number)?;
    lines.extend_from_slice(b" ")?;
    push_graph6(alloc, lines, &component)?;
    push_vertices(lines, part)?;
    lines.extend_from_slice(b"\n")
}

// The component with this vertex set, a simple graph of its own.
#[tactic(auto, using(crate::proofs::Components::few_vertices))]
fn component_graph(
    alloc: Global,
    g: &MultiGraph,
    table: &PartnerTable,
    part: VSet,
) -> Result<MultiGraph, Memory>
    requires simple { IsSimple g.now }
    requires table { ArePartners g.now none table.now }
    requires rising { IsRisingIn g.now.order part }
    ensures graph { IfOk result (λ h. h ≡ component_graph g.now part) }
    ensures simple { IfOk result IsSimple }
{
    part.rises();
    let mut component = MultiGraph::new(alloc, part.len())?;
    for done in 0..g.size() {
        add_inside(&mut component, g, table, part, done + 1)?;
    }
    Ok(component)
}

// Adds edge `e` of a graph with the new numbers of its ends, if it is allowed and both ends are in
// this vertex set.
fn add_inside(
    component: &mut MultiGraph,
    g: &MultiGraph,
    table: &PartnerTable,
    part: VSet,
    e: u32,
) -> Result<(), Memory>
    requires within { Within (size g.now) e }
    requires table { ArePartners g.now none table.now }
    requires order { component.old.order ≡ length part }
    requires room { size component.old < 2048 }
    ensures { OnOk result (component.new ≡ with_inside g.now part component.old e) }
{
    g.keeps_limits();
    let ends = g.ends(e);
    if is_allowed_in(g, table, e) && has_both(part, ends) {
        push_renumbered(component, part, ends)
    } else {
        Ok(())
    }
}

// Whether both ends are in this vertex set.
fn has_both(part: VSet, ends: Ends) -> bool
    requires first { Within 128 ends.a }
    requires second { Within 128 ends.b }
    ensures { result ≡ (mem part ends.a && mem part ends.b) }
{
    part.contains(ends.a) && part.contains(ends.b)
}

// Adds an edge between two vertices of the set, with their new numbers.
#[tactic(auto, using(crate::proofs::Components::number_once))]
fn push_renumbered(component: &mut MultiGraph, part: VSet, ends: Ends) -> Result<(), Memory>
    requires first { mem part ends.a ≡ true }
    requires second { mem part ends.b ≡ true }
    requires different { ends.a ≢ ends.b }
    requires order { component.old.order ≡ length part }
    requires room { size component.old < 2048 }
    ensures { OnOk result (component.new ≡
        with_edge component.old (number_in part ends.a) (number_in part ends.b)) }
{
    part.rises();
    let a = number_in(part, ends.a);
    let b = number_in(part, ends.b);
    component.push_edge(Ends { a, b })
}

// The new number of a vertex: how many vertices of the set are at most this one.
fn number_in(part: VSet, v: u32) -> u32
    requires { v ≤ 128 }
    ensures { result ≡ number_in part v }
{
    let below = VSet::full(v).meet(part);
    below.rises();
    below.len()
}
