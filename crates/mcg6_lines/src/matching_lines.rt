//! The line of `matching`.
ghost use Rattle.std.specs.Prelude.{◌≡◌, ◌+◌, ◌++◌, ℕ, List, IfOk, Ok, OnOk, codes, length};
ghost use Rattle.allowed_edges.specs.from_match_search.Common.{numbers};
ghost use Rattle.graph6_text.specs.Common.{outcome_of};
ghost use Rattle.mcg6_lines.specs.MatchingLines.{IsMatchingLine, pair_from, pairs_text, sets_text};

use crate::decimals::{push_decimal, push_number, push_vertices};
use crate::maximum_matching::MaximumMatching;
use graph_core::{MultiGraph, ThreeSets};
use graph6_text::bare_text;
use std::alloc::{AllocError as Memory, Global};

// Room for what is short beside the text, so that the line of a small graph is written into one
// piece of memory.
const NUMBERS_ROOM: usize = 64;

/// The line of the graph that stands in a line: its graph6 text, the number of edges of a maximum
/// matching, these edges, and the Gallai-Edmonds sets. Takes one search for a maximum matching; the
/// only error is `Memory`.
#[tactic(auto, unfolding(crate::specs::MatchingLines::matched_line))]
pub fn matching_line(alloc: Global, g: &MultiGraph, text: &[u8]) -> Result<Vec<u8>, Memory>
    requires { outcome_of text.now ≡ Ok g.now }
    ensures { IfOk result (λ line. IsMatchingLine g.now line.items) }
{
    let MaximumMatching { edges, mate, sets } = MaximumMatching::of(alloc, g)?;
    let mut line = Vec::with_capacity(alloc, text.len().saturating_add(NUMBERS_ROOM))?;
    line.extend_from_slice(bare_text(text))?;
    push_number(&mut line, edges)?;
    push_pairs(&mut line, &mate, g.order())?;
    push_sets(&mut line, sets)?;
    Ok(line)
}

// Appends the edges that join one of the vertices 1 to n to a higher mate.
fn push_pairs(line: &mut Vec<u8>, mate: &[u32], n: u32) -> Result<(), Memory>
    requires { length mate.now ≡ n + 1 }
    ensures { OnOk result (line.new.items ≡ line.old.items ++ pairs_text (numbers mate.now) n) }
{
    for done in 0..n {
        push_pair(line, done + 1, mate[done as usize + 1])?;
    }
    Ok(())
}

// Appends the edge from a vertex to its mate, if that is the higher one of the two.
fn push_pair(line: &mut Vec<u8>, v: u32, mate: u32) -> Result<(), Memory>
    ensures { OnOk result (line.new.items ≡ line.old.items ++ pair_from v mate) }
{
    if v < mate {
        push_number(line, v)?;
        line.push(b'-')?;
        push_decimal(line, u64::from(mate))
    } else {
        Ok(())
    }
}

// Appends the three sets, each after its letter, and the line end.
fn push_sets(line: &mut Vec<u8>, sets: ThreeSets) -> Result<(), Memory>
    ensures { OnOk result
        (line.new.items ≡ line.old.items ++ sets_text sets.d sets.a sets.c) }
{
    line.extend_from_slice(b" D")?;
    push_vertices(line, sets.d)?;
    line.extend_from_slice(b" A")?;
    push_vertices(line, sets.a)?;
    line.extend_from_slice(b" C")?;
    push_vertices(line, sets.c)?;
    line.push(b'\n')?;
    Ok(())
}
