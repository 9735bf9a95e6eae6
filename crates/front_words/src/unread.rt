//! What is said of a file that could not be read.
ghost use Rattle.std.specs.Prelude.{◌≡◌};
ghost use Rattle.front_words.specs.Saying.{Says};
ghost use Rattle.front_words.specs.Unread.{dash_note, unread_noted_text, unread_text};

use crate::pieces::MessagePiece::{Shown, Text};
use crate::pieces::{Said, say};
use crate::reasons::reason_words;
use crate::texts;
use outside::{FailureReason, Sink};

/// The most bytes of a name that are shown.
pub const MOST_OF_NAME: u32 = 4096;

// What is added where a dash is to stand for standard input.
fn dash_note(name: &str) -> &'static str
    ensures { result.now ≡ dash_note name.now }
{
    match name {
        "-" => texts::DASH_FILE,
        _ => "",
    }
}

/// Says that the file of that name could not be read, and why, with this note. Takes no memory.
pub fn say_unread_noted<'a, K: Sink>(
    sink: &mut K,
    program: &'a str,
    name: &'a str,
    reason: Option<FailureReason>,
    note: &'a str,
) -> Said
    ensures { Says K.written K.writes K.faults
        (unread_noted_text program.now name.now reason note.now) result sink.old sink.new }
{
    let name = Shown(name.as_bytes(), MOST_OF_NAME);
    let why = Text(reason_words(reason));
    say(
        sink,
        &[
            Text(program),
            Text(texts::CANNOT_READ),
            name,
            Text(": "),
            why,
            Text(note),
            Text("\n"),
        ],
    )
}

/// Says that the file of that name could not be read, and why. Takes no memory.
pub fn say_unread<K: Sink>(
    sink: &mut K,
    program: &str,
    name: &str,
    reason: Option<FailureReason>,
) -> Said
    ensures { Says K.written K.writes K.faults (unread_text program.now name.now reason) result sink.old
        sink.new }
{
    say_unread_noted(sink, program, name, reason, dash_note(name))
}
