//! The lines of `cuts`.
ghost use Rattle.std.specs.Prelude.{◌≡◌, ◌++◌, Ok, IfOk, OnOk};
ghost use Rattle.graph6_text.specs.Common.{outcome_of};
ghost use Rattle.leaf_kinds.specs.from_tight_cuts.Common.{candidate_of, candidates, origin_of};
ghost use Rattle.mcg6_lines.specs.CutLines.{AreCutLines, TellsCuts, cut_line, cut_lines, origin_word};

use crate::decimals::push_vertices;
use crate::leaf_lines::line_front;
use graph_core::MultiGraph;
use leaf_kinds::graph_facts::Covered;
use std::alloc::{AllocError as Memory, Global};
use tight_cuts::{Candidate, CandidateList, Origin, candidates_at_place};
use tree_core::KnownPlace;

/// The lines of the candidates of the graph that stands in the text of the line with this number,
/// in their order; nothing if the graph is not matching covered. Costs what `Covered::of` and
/// `candidates_at_place` of `tight_cuts` cost; the only error is `Memory`.
pub fn cut_lines(alloc: Global, g: &MultiGraph, number: u64, text: &[u8]) -> Result<Vec<u8>, Memory>
    requires { outcome_of text.now ≡ Ok g.now }
    ensures { IfOk result (λ lines. AreCutLines number g.now lines.items) }
{
    match Covered::of(alloc, g)? {
        Ok(c) => {
            let front = line_front(alloc, number, text)?;
            covered_cut_lines(alloc, &c, &front)
        }
        Err(_) => Ok(Vec::new(alloc)),
    }
}

// The lines of the candidates of a covered graph.
fn covered_cut_lines(alloc: Global, c: &Covered, front: &[u8]) -> Result<Vec<u8>, Memory>
    ensures { IfOk result (λ lines. TellsCuts front.now c.now lines.items) }
{
    c.keeps_covered();
    let root = KnownPlace::root(alloc, c)?;
    let list = candidates_at_place(alloc, &root)?;
    lines_of_cuts(alloc, &list, front)
}

// The lines of candidates, each after the same front.
fn lines_of_cuts(alloc: Global, list: &CandidateList, front: &[u8]) -> Result<Vec<u8>, Memory>
    ensures { IfOk result (λ lines. lines.items ≡ cut_lines front.now list.now) }
{
    let mut lines = Vec::new(alloc);
    for i in 0..list.len() {
        push_cut(&mut lines, list.get(i), front)?;
    }
    Ok(lines)
}

// Appends the line of a candidate.
fn push_cut(lines: &mut Vec<u8>, candidate: Candidate, front: &[u8]) -> Result<(), Memory>
    ensures { OnOk result
        (lines.new.items ≡ lines.old.items ++ cut_line front.now (candidate_of candidate)) }
{
    lines.extend_from_slice(front)?;
    lines.extend_from_slice(origin_word(candidate.origin).as_bytes())?;
    push_vertices(lines, candidate.shore)?;
    lines.push(b'\n')?;
    Ok(())
}

// The word for the part of the list that a candidate comes from.
fn origin_word(origin: Origin) -> &'static str
    ensures { result.now ≡ origin_word (origin_of origin) }
{
    match origin {
        Origin::Barrier => "barrier",
        Origin::Separation => "separation",
        Origin::Flow => "flow",
    }
}
