//! The messages on lists of graphs.
ghost use Rattle.std.specs.Prelude.{◌≡◌, None};
ghost use Rattle.std.specs.Option.{option_map};
ghost use Rattle.front_words.specs.ListMessages.{bad_line_text, is_blank_line, line_kept, list_dash_note, list_fault, list_joint, bad_line_words, long_line, short_line, unread_list_text};
ghost use Rattle.front_words.specs.Saying.{Says};

use crate::faults::fault_words;
use crate::lines::line_at;
use crate::messages::{MOST_OF_LINE, some_line};
use crate::openings::opening_note;
use crate::pieces::MessagePiece::{Number, Shown, Text};
use crate::pieces::{Said, say};
use crate::reasons::reason_words;
use crate::texts;
use crate::unread::say_unread_noted;
use line_text::FaultKind;
use outside::{FailureReason, MOST_LINE, Sink};
use refusals::FileKind;

// What is added where a dash is to stand for standard input, which is what is read without a name.
fn list_dash_note(name: &str) -> &'static str
    ensures { result.now ≡ list_dash_note name.now }
{
    match name {
        "-" => texts::DASH_LIST,
        _ => "",
    }
}

/// Says that a list could not be read, the one in the file of that name or, with none, that of
/// standard input, and why. Takes no memory.
pub fn say_unread_list<K: Sink>(
    sink: &mut K,
    program: &str,
    name: Option<&str>,
    reason: Option<FailureReason>,
) -> Said
    ensures { Says K.written K.writes K.faults
        (unread_list_text program.now (option_map (λ name. name.now) name.entry) reason) result
        sink.old sink.new }
{
    match name {
        Some(name) => say_unread_noted(sink, program, name, reason, list_dash_note(name)),
        None => say_unread_input(sink, program, reason),
    }
}

// Says that standard input could not be read, and why.
fn say_unread_input<K: Sink>(sink: &mut K, program: &str, reason: Option<FailureReason>) -> Said
    ensures { Says K.written K.writes K.faults (unread_list_text program.now None reason) result sink.old
        sink.new }
{
    let why = Text(reason_words(reason));
    let words = Text(texts::CANNOT_READ_INPUT);
    say(sink, &[Text(program), words, why, Text("\n")])
}

// A line of a list that ends too early: the empty text is that of a line which is missing at the
// end of the list.
fn short_line(text: &[u8]) -> &'static str
    ensures { result.now ≡ short_line text.now }
{
    if text.is_empty() {
        texts::LIST_ENDS
    } else {
        fault_words(FileKind::Graph6, FaultKind::Missing)
    }
}

// A line of a list that passes a limit.
fn long_line(text: &[u8]) -> &'static str
    ensures { result.now ≡ long_line text.now }
{
    if text.len() > MOST_LINE {
        texts::LINE_TOO_LONG
    } else {
        fault_words(FileKind::Graph6, FaultKind::Limit)
    }
}

// A fault of that kind in a line of a list with this text.
fn list_fault(kind: FaultKind, text: &[u8]) -> &'static str
    ensures { result.now ≡ list_fault kind text.now }
{
    match kind {
        FaultKind::Limit => long_line(text),
        FaultKind::Missing => short_line(text),
        FaultKind::Header
        | FaultKind::Word
        | FaultKind::Number
        | FaultKind::Range
        | FaultKind::Loop
        | FaultKind::Extra
        | FaultKind::NotRising
        | FaultKind::HasGreatest
        | FaultKind::Unnamed
        | FaultKind::SameName
        | FaultKind::BadName
        | FaultKind::Padding
        | FaultKind::LongForm => fault_words(FileKind::Graph6, kind),
    }
}

// Whether only its line end is left of the line.
fn is_blank_line(text: &[u8]) -> bool
    ensures { result ≡ is_blank_line text.now }
{
    text == b"\n".as_slice() || text == b"\r\n".as_slice()
}

// What joins the numbers of the line and of the kind to what is wrong with the line.
fn list_joint(text: &[u8]) -> &'static str
    ensures { result.now ≡ list_joint text.now }
{
    if is_blank_line(text) {
        texts::THE_LINE
    } else {
        ": "
    }
}

// What is wrong with the line: it is empty, or has a fault of that kind.
fn list_words(kind: FaultKind, text: &[u8]) -> &'static str
    ensures { result.now ≡ bad_line_words kind text.now }
{
    if is_blank_line(text) {
        texts::LINE_EMPTY
    } else {
        list_fault(kind, text)
    }
}

// The line of this text, without its line feed, unless nothing is in it.
fn line_kept(text: &[u8]) -> Option<&[u8]>
    ensures { option_map (λ line. line.now) result ≡ line_kept text.now }
{
    some_line(line_at(text, 1))
}

/// Says of the first bad line of a list its number, the number of its kind of fault and what is
/// wrong with it, and the line, unless it is empty. Its kind of fault is given, and its text with
/// its line end, as far as it was kept; the text is empty if the line is missing. The message
/// begins `PROGRAM: line L kind K: `, which programs read. Takes no memory.
pub fn say_bad_line<'a, K: Sink>(
    sink: &mut K,
    program: &'a str,
    number: u64,
    kind: FaultKind,
    text: &'a [u8],
) -> Said
    ensures { Says K.written K.writes K.faults (bad_line_text program.now number kind text.now) result
        sink.old sink.new }
{
    let by = Text(program);
    let line = Number(number);
    let of_kind = Number(u64::from(kind.number()));
    let joint = Text(list_joint(text));
    let what = Text(list_words(kind, text));
    let opening = Text(opening_note(text));
    let end = Text("\n");
    match line_kept(text) {
        Some(kept) => {
            let kept = Shown(kept, MOST_OF_LINE);
            say(
                sink,
                &[
                    by,
                    Text(texts::LINE),
                    line,
                    Text(texts::KIND),
                    of_kind,
                    joint,
                    what,
                    opening,
                    end,
                    by,
                    Text(texts::LINE),
                    line,
                    Text(texts::LINE_IS),
                    kept,
                    end,
                ],
            )
        }
        None => say(
            sink,
            &[
                by,
                Text(texts::LINE),
                line,
                Text(texts::KIND),
                of_kind,
                joint,
                what,
                opening,
                end,
            ],
        ),
    }
}
