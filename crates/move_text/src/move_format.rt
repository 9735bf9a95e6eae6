//! The move format.
ghost use Rattle.std.specs.Prelude.{◌≡◌, ◌<◌, ◌≤◌, ◌-◌, ◌^◌, ◌++◌, ◌∷◌, [], ℕ, List, length, IfOk, IfErr, Ok, Err};
ghost use Rattle.tree_text.specs.from_line_text.Common.{Gives, Stands, FirstFault, texts_of, IsFirstFault, ReadsText};
ghost use Rattle.tree_text.specs.from_line_text.declared.faults.FaultKind.{FaultKind};
ghost use Rattle.tree_text.specs.from_tree_core.Common.{PlainMove, switch_at, moves_of};
ghost use Rattle.move_text.specs.MoveFormat.{move_format, moves_header, move_line, path_of, switch_line};
ghost use Rattle.move_text.specs.Writing.{IsWritable};

use crate::move_words::{is_rotate, is_switch, read_path, read_vertices};
use std::alloc::Global;
use tree_text::line_text::{
    FaultKind, LineFormat, RuleFault, TextFault, has_form, has_out_of_range, number, read_text,
    word,
};
use tree_text::shores::{rise, shore_of};
use tree_text::tree_core::{Move, Moves};
use tree_text::vset_core::{MOST_VERTICES, VSet};

const MOST_MOVES: usize = 20_000;

// The format, for graphs of this order.
#[derive(Drop)]
struct MoveFormat {
    alloc: Global,
    order: u32,
    ghost few: { order ≤ 128 },
}

fn read_header(alloc: Global, n: u32, words: &[&[u8]]) -> Result<Moves, RuleFault<FaultKind>>
    ensures { Gives moves_of result (moves_header n (texts_of words.now)) }
{
    if !has_form(words, 3, &["m", "mcg"]) {
        return Err(RuleFault::Fault(FaultKind::Header));
    }
    let Some(order) = number(word(words, 2)) else {
        return Err(RuleFault::Fault(FaultKind::Number));
    };
    if order != n {
        return Err(RuleFault::Fault(FaultKind::Header));
    }
    Ok(Moves::new(alloc))
}

// The sets of a Switch, by their words.
#[tactic(auto, using(tree_text::proofs::ShoreLists::rising_shore))]
fn read_sets(format: &MoveFormat, u: &[u8], v: &[u8]) -> Result<(VSet, VSet), RuleFault<FaultKind>>
    requires { format.now.order ≤ MOST_VERTICES }
    ensures { (moves : List PlainMove) (path : List ℕ) →
        Gives (λ sets. moves ++ switch_at (path_of path) sets.0 sets.1 ∷ []) result
        (switch_line format.now.order moves path u.now v.now) }
{
    let first = read_vertices(format.alloc, u)?;
    let second = read_vertices(format.alloc, v)?;
    let (Some(u), Some(v)) = (first, second) else {
        return Err(RuleFault::Fault(FaultKind::Number));
    };
    if has_out_of_range(format.order, &u) || has_out_of_range(format.order, &v) {
        return Err(RuleFault::Fault(FaultKind::Range));
    }
    if !rise(&u) || !rise(&v) {
        return Err(RuleFault::Fault(FaultKind::NotRising));
    }
    Ok((shore_of(&u), shore_of(&v)))
}

// The line of a Switch, by the words of its path and of its sets.
fn read_switch(
    format: &MoveFormat,
    moves: &mut Moves,
    path: &[u8],
    u: &[u8],
    v: &[u8],
) -> Result<(), RuleFault<FaultKind>>
    requires { format.now.order ≤ MOST_VERTICES }
    ensures { Gives (λ _. moves_of moves.new) result
        (switch_line format.now.order (moves_of moves.old) path.now u.now v.now) }
{
    let (u, v) = match read_sets(format, u, v) {
        Ok(sets) => sets,
        Err(refusal) => return Err(refusal),
    };
    let path = read_path(format.alloc, path)?;
    moves.push(Move::Switch { path, u, v })?;
    Ok(())
}

// The line of a move.
fn read_move(
    format: &MoveFormat,
    moves: &mut Moves,
    words: &[&[u8]],
) -> Result<(), RuleFault<FaultKind>>
    requires { format.now.order ≤ MOST_VERTICES }
    ensures { Gives (λ _. moves_of moves.new) result
        (move_line format.now.order (moves_of moves.old) (texts_of words.now)) }
{
    if moves.len() >= MOST_MOVES {
        return Err(RuleFault::Fault(FaultKind::Limit));
    }
    if is_rotate(words) {
        let path = read_path(format.alloc, word(words, 1))?;
        moves.push(Move::Rotate { path })?;
        return Ok(());
    }
    if is_switch(words) {
        let (path, u, v) = (word(words, 1), word(words, 2), word(words, 3));
        return read_switch(format, moves, path, u, v);
    }
    Err(RuleFault::Fault(FaultKind::Word))
}

impl LineFormat for MoveFormat {
    type Body = Moves;

    type Value = Moves;

    type Kind = FaultKind;

    ghost State = { List PlainMove };

    ghost Meaning = { List PlainMove };

    ghost state = { moves_of };

    ghost meaning = { moves_of };

    ghost rules = { λ format. move_format format.order };

    fn header(&self, words: &[&[u8]]) -> Result<Moves, RuleFault<FaultKind>> {
        read_header(self.alloc, self.order, words)
    }

    fn line(&self, body: Moves, words: &[&[u8]]) -> Result<Moves, RuleFault<FaultKind>> {
        let mut moves = body;
        read_move(self, &mut moves, words)?;
        Ok(moves)
    }

    fn close(&self, body: Moves) -> Result<Moves, RuleFault<FaultKind>> {
        Ok(body)
    }

    fn headless(&self) -> FaultKind {
        FaultKind::Header
    }
}

/// Reads moves on trees of cuts over 1 to `n`: the moves that the bytes stand for, or the first
/// line outside the format with the kind of its error. There are at most 20,000 moves, each path
/// has at most 127 steps, and the sets are not empty and lie within 1 to `n`. The errors are
/// `TextFault::At`, with this line and kind, and `TextFault::Memory`, which may come at any time.
/// Takes O(b) time for b bytes.
pub fn read_moves(alloc: Global, bytes: &[u8], n: u32) -> Result<Moves, TextFault>
    requires order { n ≤ MOST_VERTICES }
    requires length { length bytes.now < 2 ^ 32 - 1 }
    ensures writable { IfOk result (λ moves. IsWritable n (moves_of moves)) }
    ensures value { IfOk result (λ moves. Stands (move_format n) bytes.now (moves_of moves)) }
    ensures fault { IfErr result (IsFirstFault (move_format n) bytes.now) }
    ensures stands { (moves : List PlainMove) → Stands (move_format n) bytes.now moves →
        ReadsText moves_of result (Ok moves) }
    ensures breaks { (line : ℕ) (kind : FaultKind) →
        FirstFault (move_format n) bytes.now line kind →
        ReadsText moves_of result (Err (line, kind)) }
{
    read_text(alloc, &MoveFormat { alloc, order: n }, bytes)
}
