//! An empty line where a graph6 text is wanted.
ghost use Rattle.std.specs.Prelude.{◌≡◌};
ghost use Rattle.std.specs.Option.{option_map};
ghost use Rattle.front_words.specs.EmptyLines.{empty_line, empty_line_in, empty_line_text, is_empty_line};
ghost use Rattle.front_words.specs.Saying.{Says};

use crate::lines::line_at;
use crate::pieces::MessagePiece::{Number, Shown, Text};
use crate::pieces::{Said, say};
use crate::texts;
use crate::unread::MOST_OF_NAME;
use outside::Sink;
use refusals::FileKind;

// Whether the line, if there is one, has no bytes but a carriage return.
fn is_empty_line(line: Option<&[u8]>) -> bool
    ensures { result ≡ is_empty_line (option_map (λ line. line.now) line.entry) }
{
    match line {
        Some(line) => line == b"".as_slice() || line == b"\r".as_slice(),
        None => false,
    }
}

// The first empty line of a text, if it is its first or its second.
fn empty_line(text: &[u8]) -> Option<u32>
    ensures { result ≡ empty_line text.now }
{
    if is_empty_line(line_at(text, 1)) {
        Some(1)
    } else if is_empty_line(line_at(text, 2)) {
        Some(2)
    } else {
        None
    }
}

/// The same where an empty line is a fault: in a graph6 text. Takes no memory.
pub fn empty_line_in(file_kind: FileKind, beginning: Option<&[u8]>) -> Option<u32>
    ensures { result ≡ empty_line_in file_kind (option_map (λ text. text.now) beginning.entry) }
{
    match file_kind {
        FileKind::Graph6 => empty_line(beginning?),
        FileKind::Graph | FileKind::Tree | FileKind::Picks | FileKind::Ears | FileKind::Moves =>
            None,
    }
}

/// Says that the line with that number is empty. Takes no memory.
pub fn say_empty_line<'a, K: Sink>(sink: &mut K, program: &'a str, name: &'a str, line: u32) -> Said
    ensures { Says K.written K.writes K.faults (empty_line_text program.now name.now line) result
        sink.old sink.new }
{
    say(
        sink,
        &[
            Text(program),
            Text(": "),
            Shown(name.as_bytes(), MOST_OF_NAME),
            Text(texts::IN_LINE),
            Number(line as u64),
            Text(" "),
            Text(texts::LINE_EMPTY),
            Text("\n"),
        ],
    )
}
