//! What is said of a graph that is not matching covered.
ghost use Rattle.front_words.specs.Saying.{Says};
ghost use Rattle.front_words.specs.Uncovered.{cover_words, uncovered_text};

use crate::pieces::MessagePiece::{Number, Text};
use crate::pieces::{Said, say};
use crate::texts;
use outside::Sink;
use refusals::CoverFault;

// Says why a graph is not matching covered.
fn say_cover_fault<K: Sink>(sink: &mut K, fault: CoverFault) -> Said
    ensures { Says K.written K.writes K.faults (cover_words fault) result sink.old sink.new }
{
    let end = Text("\n");
    match fault {
        CoverFault::Small => say(sink, &[Text(texts::COVER_SMALL), end]),
        CoverFault::Parted { a, b } => say(
            sink,
            &[
                Text(texts::COVER_PARTED),
                Number(a as u64),
                Text(texts::COVER_PARTED_TO),
                Number(b as u64),
                Text(texts::COVER_PARTED_END),
                end,
            ],
        ),
        CoverFault::Unmatched => say(sink, &[Text(texts::COVER_UNMATCHED), end]),
        CoverFault::Unallowed { edge } => say(
            sink,
            &[
                Text(texts::COVER_EDGE),
                Number(edge as u64),
                Text(texts::COVER_EDGE_END),
                end,
            ],
        ),
    }
}

/// Says that a graph is not matching covered, and why. Takes no memory.
pub fn say_uncovered<K: Sink>(sink: &mut K, program: &str, fault: CoverFault) -> Said
    ensures { Says K.written K.writes K.faults (uncovered_text program.now fault) result sink.old
        sink.new }
{
    let head = texts::NOT_COVERED;
    say(sink, &[Text(program), Text(head)])?;
    say_cover_fault(sink, fault)
}
