//! The messages on a file that is outside its format.
ghost use Rattle.std.specs.Prelude.{◌≡◌};
ghost use Rattle.std.specs.Option.{option_map};
ghost use Rattle.front_words.specs.BadFiles.{bad_seen};
ghost use Rattle.front_words.specs.Messages.{bad_file_text, fault_text, noted_text, outside_text, rest_text, some_line, too_long_text, what_text};
ghost use Rattle.front_words.specs.Saying.{Says};

use crate::empty_lines::{empty_line_in, say_empty_line};
use crate::faults::fault_words;
use crate::notes::say_note;
use crate::pieces::MessagePiece::{Number, Shown, Text};
use crate::pieces::{Said, say};
use crate::texts;
use crate::unread::MOST_OF_NAME;
use line_text::FaultKind;
use outside::Sink;
use refusals::FileKind;

/// The most bytes of a line that are shown.
pub const MOST_OF_LINE: u32 = 60;

/// A file that is outside its format.
#[derive(Clone, Copy, Drop)]
pub struct BadFile<'a> {
    /// Its name.
    pub name: &'a str,
    /// What it is read as.
    pub file_kind: FileKind,
    /// The line of its first fault, counted from 1; 0 where it is too long.
    pub line: u64,
    /// The kind of the fault.
    pub kind: FaultKind,
    /// The bytes of the file, or some with which it begins, if they are known.
    pub beginning: Option<&'a [u8]>,
    /// The numbers of the vertices and of the edges of the graph that it is for, if they are known.
    pub sizes: Option<(u32, u32)>,
    /// The text of that line, if it is known.
    pub text: Option<&'a [u8]>,
}

// Says that the file of that name is too long.
fn say_too_long<'a, K: Sink>(sink: &mut K, program: &'a str, name: &'a str) -> Said
    ensures { Says K.written K.writes K.faults (too_long_text program.now name.now) result sink.old
        sink.new }
{
    let name = Shown(name.as_bytes(), MOST_OF_NAME);
    let words = Text(texts::FILE_TOO_LONG);
    say(sink, &[Text(program), Text(": "), name, words, Text("\n")])
}

/// The line, if it is known and is not empty. Takes no memory.
pub fn some_line(text: Option<&[u8]>) -> Option<&[u8]>
    ensures { option_map (λ line. line.now) result ≡
        some_line (option_map (λ line. line.now) text.entry) }
{
    match text {
        Some(text) if !text.is_empty() => Some(text),
        _ => None,
    }
}

// Says which file it is, and what is wrong in which line.
fn say_what<'a, K: Sink>(sink: &mut K, program: &'a str, bad: &'a BadFile<'a>) -> Said
    ensures { Says K.written K.writes K.faults
        (what_text program.now (bad_seen bad.now)) result sink.old sink.new }
{
    say(
        sink,
        &[
            Text(program),
            Text(": "),
            Shown(bad.name.as_bytes(), MOST_OF_NAME),
            Text(texts::IN_LINE),
            Number(bad.line),
            Text(": "),
            Text(fault_words(bad.file_kind, bad.kind)),
        ],
    )
}

// Says the end of the line of a message, and the text of the line at fault, if there is one to
// show.
fn say_rest<'a, K: Sink>(sink: &mut K, program: &'a str, line: u64, text: Option<&'a [u8]>) -> Said
    ensures { Says K.written K.writes K.faults
        (rest_text program.now line (option_map (λ line. line.now) text.entry)) result sink.old
        sink.new }
{
    let end = Text("\n");
    match text {
        Some(text) => {
            let shown = Shown(text, MOST_OF_LINE);
            let by = Text(program);
            let line = Number(line);
            say(
                sink,
                &[
                    end,
                    by,
                    Text(texts::LINE),
                    line,
                    Text(texts::LINE_IS),
                    shown,
                    end,
                ],
            )
        }
        None => say(sink, &[end]),
    }
}

// Says the note on a fault, and the rest of the message.
fn say_noted<K: Sink>(sink: &mut K, program: &str, bad: &BadFile<'_>, text: Option<&[u8]>) -> Said
    ensures { Says K.written K.writes K.faults
        (noted_text program.now (bad_seen bad.now) (option_map (λ line. line.now) text.entry)) result
        sink.old sink.new }
{
    match say_note(
        sink,
        bad.file_kind,
        bad.kind,
        bad.beginning,
        bad.sizes,
        text,
    ) {
        Ok(()) => say_rest(sink, program, bad.line, text),
        Err(failed) => Err(failed),
    }
}

// Says what is wrong in which line, and the line, if it is known and is not empty.
fn say_fault<K: Sink>(sink: &mut K, program: &str, bad: &BadFile<'_>) -> Said
    ensures { Says K.written K.writes K.faults (fault_text program.now (bad_seen bad.now)) result
        sink.old sink.new }
{
    match say_what(sink, program, bad) {
        Ok(()) => say_noted(sink, program, bad, some_line(bad.text)),
        Err(failed) => Err(failed),
    }
}

// The same, or that a line is empty.
fn say_outside<K: Sink>(sink: &mut K, program: &str, bad: &BadFile<'_>) -> Said
    ensures { Says K.written K.writes K.faults (outside_text program.now (bad_seen bad.now)) result
        sink.old sink.new }
{
    match empty_line_in(bad.file_kind, bad.beginning) {
        Some(line) => say_empty_line(sink, program, bad.name, line),
        None => say_fault(sink, program, bad),
    }
}

/// Says of a bad file which it is, where it is outside its format and how, and the line, if
/// its text is known. Takes no memory.
pub fn say_bad_file<K: Sink>(sink: &mut K, program: &str, bad: &BadFile<'_>) -> Said
    ensures { Says K.written K.writes K.faults (bad_file_text program.now (bad_seen bad.now)) result
        sink.old sink.new }
{
    if bad.line == 0 {
        say_too_long(sink, program, bad.name)
    } else {
        say_outside(sink, program, bad)
    }
}
