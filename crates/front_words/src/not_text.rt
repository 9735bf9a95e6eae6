//! The message on arguments that cannot be read.
ghost use Rattle.front_words.specs.NotText.{not_text_text, unread_arguments_text};
ghost use Rattle.front_words.specs.Saying.{Says};

use crate::endings::say_nothing_written;
use crate::pieces::MessagePiece::{Number, Shown, Text};
use crate::pieces::{Said, say};
use crate::texts;
use arguments::ArgumentFault;
use outside::Sink;

/// The most bytes that are shown of an argument.
const MOST_OF_WORD: u32 = 4096;

// Says that the argument at that place, counted from 1, is not UTF-8, and shows it.
fn say_not_text<'a, K: Sink>(sink: &mut K, program: &'a str, place: u64, bytes: &'a [u8]) -> Said
    ensures { Says K.written K.writes K.faults (not_text_text program.now place bytes.now) result
        sink.old sink.new }
{
    let word = Shown(bytes, MOST_OF_WORD);
    say(
        sink,
        &[
            Text(program),
            Text(texts::ARGUMENT),
            Number(place),
            Text(texts::NOT_UTF8),
            word,
            Text("\n"),
        ],
    )
}

/// Says why the arguments were not read: that memory ran out, or which one is not UTF-8. Takes no
/// memory.
pub fn say_unread_arguments<K: Sink>(sink: &mut K, program: &str, refusal: &ArgumentFault) -> Said
    ensures { Says K.written K.writes K.faults
        (unread_arguments_text program.now refusal.now) result sink.old sink.new }
{
    match refusal {
        ArgumentFault::Memory => say_nothing_written(sink, program),
        ArgumentFault::NotText { place, bytes } => say_not_text(
            sink,
            program,
            *place as u64,
            bytes,
        ),
    }
}
