//! The line that judges a tree of cuts.
ghost use Rattle.std.specs.Prelude.{◌≡◌, ◌++◌, OnOk, IfOk, string_bytes};
ghost use Rattle.report_text.specs.Common.{accepted_line, judgement_text, numbered, refused_line, shown_text};

use crate::numbers::{push_numbers, push_set};
use crate::words::push_tally;
use graph_core::Numbers;
use graph_core::vset_core::VSet;
use move_text::tree_core::Tally;
use std::alloc::{AllocError as Memory, Global};

/// What a refusal shows as its reason.
#[derive(Drop)]
pub enum Shown {
    Nothing,
    /// Edges of a matching.
    Matching { edges: Numbers },
    /// A shore.
    Cut { shore: VSet },
}

/// What is reported about a tree.
#[derive(Drop)]
pub enum TreeLine {
    /// It is a derivation, with so many leaves.
    Accepted {
        tally: Tally,
    },
    /// The tree at this place, counted from 1, is refused at a node, counted from 1 in preorder,
    /// for the reason of this number.
    Refused {
        tree: u32,
        node: u32,
        why: u32,
        shown: Shown,
    },
}

fn push_shown(text: &mut String, shown: &Shown) -> Result<(), Memory>
    ensures { OnOk result (string_bytes text.new ≡ string_bytes text.old ++ shown_text shown.now) }
{
    match shown {
        Shown::Nothing => Ok(()),
        Shown::Matching { edges } => {
            write!(text, " matching")?;
            push_numbers(text, edges.as_slice())
        }
        Shown::Cut { shore } => {
            write!(text, " cut")?;
            push_set(text, *shore)
        }
    }
}

#[tactic(auto, unfolding(crate::specs::Judgements::numbered))]
fn push_numbered(text: &mut String, words: &str, number: u32) -> Result<(), Memory>
    ensures { OnOk result
        (string_bytes text.new ≡ string_bytes text.old ++ numbered words.now number) }
{
    write!(text, "{words}{number}")
}

/// Appends the line on a tree that is refused, which begins with the words and the number.
pub fn push_refused(
    text: &mut String,
    words: &str,
    number: u32,
    node: u32,
    why: u32,
    shown: &Shown,
) -> Result<(), Memory>
    ensures { OnOk result
        (string_bytes text.new ≡ string_bytes text.old ++
        refused_line words.now number node why shown.now) }
{
    push_numbered(text, words, number)?;
    push_numbered(text, " refused node ", node)?;
    push_numbered(text, " why ", why)?;
    push_shown(text, shown)?;
    write!(text, "\n")?;
    Ok(())
}

// The line on a tree that is accepted.
fn push_accepted(text: &mut String, tally: Tally) -> Result<(), Memory>
    ensures { OnOk result (string_bytes text.new ≡ string_bytes text.old ++ accepted_line tally) }
{
    write!(text, "accepted")?;
    push_tally(text, tally)
}

#[tactic(auto, unfolding(crate::specs::Judgements::judgement_text))]
fn push_judgement(text: &mut String, line: &TreeLine) -> Result<(), Memory>
    ensures { OnOk result
        (string_bytes text.new ≡ string_bytes text.old ++ judgement_text line.now) }
{
    match line {
        TreeLine::Accepted { tally } => push_accepted(text, *tally),
        TreeLine::Refused {
            tree,
            node,
            why,
            shown,
        } => push_refused(text, "tree ", *tree, *node, *why, shown),
    }
}

/// Writes the line on a tree: how many leaves it has, or where and why it is refused, and what
/// shows it. Takes O(b) time for b bytes written; the only error is `Memory`.
pub fn judgement(alloc: Global, line: &TreeLine) -> Result<Vec<u8>, Memory>
    ensures { IfOk result (λ text. text.items ≡ judgement_text line.now) }
{
    let mut text = String::new(alloc);
    push_judgement(&mut text, line)?;
    Ok(text.into_bytes())
}
