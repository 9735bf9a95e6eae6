//! The reports on scripts of moves, made and replayed.
ghost use Rattle.std.specs.Prelude.{◌≡◌, IfOk, string_bytes};
ghost use Rattle.report_text.specs.Common.{moves_line, refused_move_text, replayed_text, script_line, script_report_text, stuck_text};

use crate::commenting::commented;
use crate::judgements::{Shown, push_refused};
use std::alloc::{AllocError as Memory, Global};

// The line of the numbers of leaves and of moves.
fn line_of_script(alloc: Global, leaves: u32, moves: u32) -> Result<String, Memory>
    ensures { IfOk result (λ line. string_bytes line ≡ script_line leaves moves) }
{
    let line = format!(in alloc; "c leaves {leaves} moves {moves}\n")?;
    Ok(line)
}

/// Writes the text and then, as a comment, how many leaves and how many moves there are. Takes O(b)
/// time for b bytes written; the only error is `Memory`.
#[tactic(auto, unfolding(crate::specs::Scripts::script_report_text))]
pub fn script_report(alloc: Global, text: &[u8], leaves: u32, moves: u32) -> Result<Vec<u8>, Memory>
    ensures { IfOk result (λ report. report.items ≡ script_report_text text.now leaves moves) }
{
    let line = line_of_script(alloc, leaves, moves)?;
    commented(alloc, text, line.as_str())
}

// The line of the number of moves.
fn line_of_moves(alloc: Global, moves: u32) -> Result<String, Memory>
    ensures { IfOk result (λ line. string_bytes line ≡ moves_line moves) }
{
    format!(in alloc; "c moves {moves}\n")
}

/// Writes the text and then, as a comment, how many moves there are. Takes O(b) time for b bytes
/// written; the only error is `Memory`.
#[tactic(auto, unfolding(crate::specs::Scripts::replayed_text))]
pub fn replayed(alloc: Global, text: &[u8], moves: u32) -> Result<Vec<u8>, Memory>
    ensures { IfOk result (λ report. report.items ≡ replayed_text text.now moves) }
{
    let line = line_of_moves(alloc, moves)?;
    commented(alloc, text, line.as_str())
}

/// Writes the line on a move, given by its number from 1, that has no result. Takes O(b) time for b
/// bytes written; the only error is `Memory`.
#[tactic(auto, unfolding(crate::specs::Scripts::stuck_text))]
pub fn replay_stuck(alloc: Global, at: u32) -> Result<Vec<u8>, Memory>
    ensures { IfOk result (λ text. text.items ≡ stuck_text at) }
{
    let text = format!(in alloc; "move {at} stuck\n")?;
    Ok(text.into_bytes())
}

/// Writes the line on a move, given by its number from 1, whose result is refused: at which node,
/// counted from 1 in preorder, for which reason by its number, and what shows it. Takes O(b) time
/// for b bytes written; the only error is `Memory`.
#[tactic(auto, unfolding(crate::specs::Scripts::refused_move_text))]
pub fn replay_refused(
    alloc: Global,
    at: u32,
    node: u32,
    why: u32,
    shown: &Shown,
) -> Result<Vec<u8>, Memory>
    ensures { IfOk result (λ text. text.items ≡ refused_move_text at node why shown.now) }
{
    let mut text = String::new(alloc);
    push_refused(&mut text, "move ", at, node, why, shown)?;
    Ok(text.into_bytes())
}
