//! The line of `kinds`.
ghost use Rattle.std.specs.Prelude.{◌≡◌, ◌++◌, ℕ, List, IfOk, Ok, OnOk, codes};
ghost use Rattle.graph6_text.specs.Common.{outcome_of};
ghost use Rattle.mcg6_lines.specs.KindLines.{IsKindLine, TellsStanding, standing_words};
ghost use Rattle.mcg6_lines.specs.Standings.{Structured, Uncovered};

use crate::decimals::push_number;
use crate::standings::Standing;
use graph_core::{Kind, MultiGraph, Reason};
use graph6_text::bare_text;
use report_text::{kind_word, reason_word, yes_or_no};
use std::alloc::{AllocError as Memory, Global};
use tree_core::Tally;

// Room for the longest words, so that the line is written into one piece of memory.
const WORDS_ROOM: usize = 56;

/// The line of the graph that stands in a line: its graph6 text, the numbers of its vertices and
/// edges, and how it stands.
#[tactic(auto, unfolding(crate::specs::KindLines::kind_line))]
pub fn kind_line(alloc: Global, g: &MultiGraph, text: &[u8]) -> Result<Vec<u8>, Memory>
    requires { outcome_of text.now ≡ Ok g.now }
    ensures { IfOk result (λ line. IsKindLine g.now line.items) }
{
    let mut line = Vec::with_capacity(alloc, text.len().saturating_add(WORDS_ROOM))?;
    line.extend_from_slice(bare_text(text))?;
    push_number(&mut line, g.order())?;
    push_number(&mut line, g.size())?;
    push_standing(alloc, &mut line, g)?;
    line.push(b'\n')?;
    Ok(line)
}

// Appends a space and the words on the standing of the graph.
fn push_standing(alloc: Global, line: &mut Vec<u8>, g: &MultiGraph) -> Result<(), Memory>
    ensures { OnOk result ((words : List ℕ) × TellsStanding g.now words ×
        (line.new.items ≡ line.old.items ++ codes " " ++ words)) }
{
    match Standing::of(alloc, g)? {
        Standing::Uncovered { reason, deficiency } => push_uncovered(line, &reason, deficiency),
        Standing::Structured {
            kind,
            tally,
            bicritical,
        } => push_structure(line, &kind, tally, bicritical),
    }
}

// Appends a space and the words on a graph that is not covered for this reason, and of this
// deficiency.
fn push_uncovered(line: &mut Vec<u8>, reason: &Reason, deficiency: u32) -> Result<(), Memory>
    ensures { OnOk result (line.new.items ≡
        line.old.items ++ codes " " ++ standing_words (Uncovered reason.now deficiency)) }
{
    push_word(line, "uncovered")?;
    push_word(line, reason_word(reason))?;
    push_number(line, deficiency)
}

// Appends a space and the words on a covered graph of this kind, with its leaves counted so, and
// bicritical or not.
fn push_structure(
    line: &mut Vec<u8>,
    kind: &Kind,
    tally: Tally,
    bicritical: bool,
) -> Result<(), Memory>
    ensures { OnOk result (line.new.items ≡
        line.old.items ++ codes " " ++ standing_words (Structured kind.now tally bicritical)) }
{
    let Tally { bricks, braces, .. } = tally;
    push_word(line, kind_word(kind))?;
    push_number(line, bricks)?;
    push_number(line, braces)?;
    push_word(line, "bicritical")?;
    push_word(line, yes_or_no(bicritical))
}

// Appends a space and a word.
fn push_word(line: &mut Vec<u8>, word: &str) -> Result<(), Memory>
    ensures { OnOk result (line.new.items ≡ line.old.items ++ codes " " ++ word.now) }
{
    line.push(b' ')?;
    line.extend_from_slice(word.as_bytes())
}
