//! The report of `analyse`.
ghost use Rattle.std.specs.Prelude.{◌≡◌, ◌++◌, [], codes, OnOk, IfOk, string_bytes};
ghost use Rattle.report_text.specs.Common.{analysis_text, numbers_told, verdict_lines, with_structure, with_three_sets, bipartite_line, count_line, size_line};

use crate::numbers::{push_numbers_line, push_set_line};
use crate::structures::{Structure, push_structure};
use crate::verdicts::push_verdict;
use crate::words::yes_or_no;
use graph_core::vset_core::VSet;
use graph_core::{Numbers, Verdict};
use std::alloc::{AllocError as Memory, Global};

/// What `analyse` reports about a graph.
#[derive(Drop)]
pub struct AnalysisLines {
    /// The number of vertices.
    pub order: u32,
    /// The number of edges.
    pub size: u32,
    /// The number of components.
    pub components: u32,
    /// Whether some vertex set has all edges in its cut.
    pub bipartite: bool,
    /// The number of edges of a maximum matching.
    pub matching: u32,
    /// The number of vertices that a maximum matching misses.
    pub deficiency: u32,
    /// D, of the Gallai-Edmonds sets: the vertices that some maximum matching misses.
    pub d: VSet,
    /// A: the vertices outside D that are adjacent to a vertex of D.
    pub a: VSet,
    /// C: the rest.
    pub c: VSet,
    /// The edges that lie in a perfect matching.
    pub allowed: Numbers,
    /// Whether the graph is matching covered, and if not, why.
    pub verdict: Verdict,
    /// The structure, if and only if the graph is matching covered.
    pub structure: Option<Structure>,
}

fn push_graph(text: &mut String, order: u32, size: u32) -> Result<(), Memory>
    ensures { OnOk result (string_bytes text.new ≡ string_bytes text.old ++ size_line order size) }
{
    write!(text, "graph {order} {size}\n")
}

// Appends a line of the word and the number.
fn push_count(text: &mut String, word: &str, count: u32) -> Result<(), Memory>
    ensures { OnOk result
        (string_bytes text.new ≡ string_bytes text.old ++ count_line word.now count) }
{
    write!(text, "{word} {count}\n")
}

fn push_bipartite(text: &mut String, holds: bool) -> Result<(), Memory>
    ensures { OnOk result (string_bytes text.new ≡ string_bytes text.old ++ bipartite_line holds) }
{
    let answer = yes_or_no(holds);
    write!(text, "bipartite {answer}\n")
}

// The lines from that of the graph to that of the deficiency, appended to an empty text.
fn push_numbers_told(text: &mut String, lines: &AnalysisLines) -> Result<(), Memory>
    requires { string_bytes text.old ≡ [] }
    ensures { OnOk result (string_bytes text.new ≡ numbers_told lines.now) }
{
    push_graph(text, lines.order, lines.size)?;
    push_count(text, "components", lines.components)?;
    push_bipartite(text, lines.bipartite)?;
    push_count(text, "matching", lines.matching)?;
    push_count(text, "deficiency", lines.deficiency)
}

// The lines of the Gallai-Edmonds sets.
fn push_three_sets(text: &mut String, lines: &AnalysisLines) -> Result<(), Memory>
    ensures { OnOk result
        (string_bytes text.new ≡ with_three_sets (string_bytes text.old) lines.now) }
{
    push_set_line(text, "D", lines.d)?;
    push_set_line(text, "A", lines.a)?;
    push_set_line(text, "C", lines.c)
}

// The lines from that of the graph to that of the verdict, appended to an empty text.
#[tactic(auto, unfolding(crate::specs::Analyses::verdict_lines))]
fn push_to_verdict(text: &mut String, lines: &AnalysisLines) -> Result<(), Memory>
    requires { string_bytes text.old ≡ [] }
    ensures { OnOk result (string_bytes text.new ≡ verdict_lines lines.now) }
{
    push_numbers_told(text, lines)?;
    push_three_sets(text, lines)?;
    push_numbers_line(text, "allowed", &lines.allowed)?;
    push_verdict(text, &lines.verdict)
}

// The lines on the structure, if there is one.
fn push_any_structure(text: &mut String, structure: &Option<Structure>) -> Result<(), Memory>
    ensures { OnOk result
        (string_bytes text.new ≡ with_structure (string_bytes text.old) structure.now) }
{
    match structure {
        Some(structure) => push_structure(text, structure),
        None => Ok(()),
    }
}

/// Writes the lines of `analyse`: those of every graph, and then those on the structure, if there
/// is one. Takes O(b) time for b bytes written; the only error is `Memory`.
#[tactic(auto, unfolding(crate::specs::Analyses::analysis_text))]
pub fn analysis(alloc: Global, lines: &AnalysisLines) -> Result<Vec<u8>, Memory>
    ensures { IfOk result (λ text. text.items ≡ analysis_text lines.now) }
{
    let mut text = String::new(alloc);
    push_to_verdict(&mut text, lines)?;
    push_any_structure(&mut text, &lines.structure)?;
    Ok(text.into_bytes())
}
