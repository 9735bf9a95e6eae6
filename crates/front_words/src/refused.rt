//! What a refusal means.
ghost use Rattle.std.specs.Prelude.{◌≡◌};
ghost use Rattle.front_words.specs.Refused.{refused_text, stuck_move_text, stuck_words};
ghost use Rattle.front_words.specs.Saying.{Says};

use crate::pieces::MessagePiece::{Number, Text};
use crate::pieces::{Said, say};
use crate::refused_ears::say_ears;
use crate::refused_trees::{say_moved, say_tree};
use crate::texts;
use crate::uncovered::say_uncovered;
use outside::Sink;
use refusals::{Refusal, StuckFault};

// Why a move has no result, and what would be right.
fn stuck_words(fault: StuckFault) -> &'static str
    ensures { result.now ≡ stuck_words fault }
{
    match fault {
        StuckFault::NoCut => texts::STUCK_NO_CUT,
        StuckFault::Crossing => texts::STUCK_CROSSING,
        StuckFault::NotParts => texts::STUCK_NOT_PARTS,
    }
}

// Says that a move has no result, and why.
fn say_stuck<K: Sink>(sink: &mut K, program: &str, step: u32, fault: StuckFault) -> Said
    ensures { Says K.written K.writes K.faults (stuck_move_text program.now step fault) result sink.old
        sink.new }
{
    say(
        sink,
        &[
            Text(program),
            Text(texts::MOVE),
            Number(step as u64),
            Text(texts::NO_RESULT),
            Text(stuck_words(fault)),
            Text("\n"),
        ],
    )
}

/// Says what a refusal means, where the fault is, and what would be right. Takes no memory.
pub fn say_refusal<K: Sink>(sink: &mut K, program: &str, refusal: Refusal) -> Said
    ensures { Says K.written K.writes K.faults (refused_text program.now refusal) result sink.old
        sink.new }
{
    match refusal {
        Refusal::Graph { fault } => say_uncovered(sink, program, fault),
        Refusal::Tree {
            tree,
            node,
            place,
            fault,
        } => say_tree(sink, program, tree, node, place, fault),
        Refusal::Ears { step, place, fault } => say_ears(sink, program, step, place, fault),
        Refusal::Stuck { step, fault } => say_stuck(sink, program, step, fault),
        Refusal::Move {
            step,
            node,
            place,
            fault,
        } => say_moved(sink, program, step, node, place, fault),
    }
}
