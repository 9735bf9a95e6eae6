//! Writing moves.
ghost use Rattle.std.specs.Prelude.{◌≡◌, ◌≤◌, ◌++◌, [], ◌∷◌, length, map, OnOk, IfOk, string_bytes};
ghost use Rattle.std.specs.List.{AllByRecursion};
ghost use Rattle.tree_text.specs.from_line_text.Common.{Stands, StandsAlone, written};
ghost use Rattle.tree_text.specs.from_tree_core.Common.{move_of, moves_of, rotate_at, switch_at};
ghost use Rattle.move_text.specs.Common.{move_format, most_moves, letter_of, path_word, set_word, move_words, moves_text, HasShortPath, HasSets, SetsRise};

use std::alloc::{AllocError as Memory, Global};
use tree_text::tree_core::{Move, Moves, Path, Side};
use tree_text::vset_core::VSet;

// The letters of steps.
fn push_steps(text: &mut String, steps: &[Side]) -> Result<(), Memory>
    ensures { OnOk result
        (string_bytes text.new ≡ string_bytes text.old ++ map letter_of steps.now) }
{
    let mut rest = steps;
    'steps: while let Some((side, others)) = rest.split_first() {
        push_step(text, *side)?;
        rest = others;
    }
    Ok(())
}

// The letter of a step.
fn push_step(text: &mut String, side: Side) -> Result<(), Memory>
    ensures { OnOk result (string_bytes text.new ≡ string_bytes text.old ++ letter_of side ∷ []) }
{
    match side {
        Side::Kept => write!(text, "k"),
        Side::Merged => write!(text, "m"),
    }
}

// The word of a path.
fn push_path(text: &mut String, path: &Path) -> Result<(), Memory>
    ensures { OnOk result (string_bytes text.new ≡ string_bytes text.old ++ path_word path.now) }
{
    if path.is_empty() {
        return write!(text, ".");
    }
    push_steps(text, path.as_slice())
}

// The word of a set.
fn push_set(text: &mut String, set: VSet) -> Result<(), Memory>
    ensures { OnOk result (string_bytes text.new ≡ string_bytes text.old ++ set_word set) }
{
    let Some((first, others)) = set.split_first() else {
        return Ok(());
    };
    write!(text, "{first}")?;
    let mut rest = others;
    'vertices: while let Some((v, behind)) = rest.split_first() {
        write!(text, ",{v}")?;
        rest = behind;
    }
    Ok(())
}

// A blank and the word of a set.
fn push_next_set(text: &mut String, set: VSet) -> Result<(), Memory>
    ensures { OnOk result (string_bytes text.new ≡ string_bytes text.old ++ 32 ∷ set_word set) }
{
    write!(text, " ")?;
    push_set(text, set)
}

// The line of a Rotate.
fn push_rotate(text: &mut String, path: &Path) -> Result<(), Memory>
    ensures { OnOk result
        (string_bytes text.new ≡ string_bytes text.old ++
        written (move_words (rotate_at path.now) ∷ [])) }
{
    write!(text, "rotate ")?;
    push_path(text, path)?;
    write!(text, "\n")
}

// The line of a Switch.
fn push_switch(text: &mut String, path: &Path, u: VSet, v: VSet) -> Result<(), Memory>
    ensures { OnOk result
        (string_bytes text.new ≡ string_bytes text.old ++
        written (move_words (switch_at path.now u v) ∷ [])) }
{
    write!(text, "switch ")?;
    push_path(text, path)?;
    push_next_set(text, u)?;
    push_next_set(text, v)?;
    write!(text, "\n")
}

/// Appends the line for a move in a text of moves: `rotate PATH`, or `switch PATH U V` with the
/// sets of the move, whatever they are. Takes O(b) time for b bytes written; the only error is
/// `Memory`.
pub fn push_move(text: &mut String, item: &Move) -> Result<(), Memory>
    ensures text { OnOk result
        (string_bytes text.new ≡ string_bytes text.old ++
        written (move_words (move_of item.now) ∷ [])) }
    ensures rising { SetsRise (move_of item.now) }
{
    match item {
        Move::Rotate { path } => push_rotate(text, path),
        Move::Switch { path, u, v } => {
            u.rises();
            v.rises();
            push_switch(text, path, *u, *v)
        }
    }
}

/// Writes moves on trees of cuts over 1 to `n`: a header `m mcg N`, and a line for each move,
/// `rotate PATH` or `switch PATH U V`. There are at most 20,000 moves, each path has at most 127
/// steps, and the sets are not empty and lie within 1 to `n`.
///
/// Reading the text gives the same moves, and nothing else. Takes O(b) time for b bytes written;
/// the only error is `Memory`.
pub fn write_moves(alloc: Global, moves: &Moves, n: u32) -> Result<Vec<u8>, Memory>
    requires order { n ≤ 999999999 }
    requires few { length moves.now ≤ most_moves }
    requires paths { AllByRecursion HasShortPath (moves_of moves.now) }
    requires sets { AllByRecursion (HasSets n) (moves_of moves.now) }
    ensures text { IfOk result (λ text. text.items ≡ moves_text n (moves_of moves.now)) }
    ensures stands { IfOk result (λ text. Stands (move_format n) text.items (moves_of moves.now)) }
    ensures alone { IfOk result (λ text. StandsAlone (move_format n) text.items) }
{
    let mut text = format!(in alloc; "m mcg {n}\n")?;
    for i in 0..moves.len() {
        push_move(&mut text, moves.get(i))?;
    }
    Ok(text.into_bytes())
}
