//! What is added to the words of a fault.
ghost use Rattle.std.specs.Prelude.{◌≡◌};
ghost use Rattle.std.specs.Option.{option_map};
ghost use Rattle.front_words.specs.Notes.{due_note, file_note, header_text, kind_note};
ghost use Rattle.front_words.specs.Openings.{misplaced_note, note_or};
ghost use Rattle.front_words.specs.Saying.{Says};

use crate::faults::{header_note, note_words};
use crate::openings::{beginning_note, misplaced_note};
use crate::pieces::MessagePiece::{Number, Text};
use crate::pieces::{Said, say};
use crate::shores::say_shore_note;
use crate::showing::say_bytes;
use crate::texts;
use line_text::FaultKind;
use outside::Sink;
use refusals::FileKind;

// Says the header that is due in a file for a graph with these numbers of vertices and of edges.
fn say_due<K: Sink>(sink: &mut K, file_kind: FileKind, sizes: (u32, u32)) -> Said
    ensures { Says K.written K.writes K.faults (due_note file_kind sizes) result sink.old sink.new }
{
    let (order, size) = sizes;
    let order = Number(order as u64);
    let end = Text("`)");
    match file_kind {
        FileKind::Tree => say(sink, &[Text(texts::DUE_TREE), order, end]),
        FileKind::Ears => say(
            sink,
            &[
                Text(texts::DUE_EARS),
                order,
                Text(" "),
                Number(size as u64),
                end,
            ],
        ),
        FileKind::Moves => say(sink, &[Text(texts::DUE_MOVES), order, end]),
        FileKind::Graph | FileKind::Graph6 | FileKind::Picks => say_bytes(
            sink,
            header_note(file_kind).as_bytes(),
        ),
    }
}

// The same, if these numbers are known; and else the header of the format.
fn say_header<K: Sink>(sink: &mut K, file_kind: FileKind, sizes: Option<(u32, u32)>) -> Said
    ensures { Says K.written K.writes K.faults (header_text file_kind sizes) result sink.old sink.new }
{
    match sizes {
        Some(sizes) => say_due(sink, file_kind, sizes),
        None => say_bytes(sink, header_note(file_kind).as_bytes()),
    }
}

// Says of the line at fault that it is the header of a graph file, or else the header that is due.
fn say_header_note<K: Sink>(
    sink: &mut K,
    file_kind: FileKind,
    sizes: Option<(u32, u32)>,
    text: Option<&[u8]>,
) -> Said
    ensures { Says K.written K.writes K.faults
        (note_or (misplaced_note file_kind (option_map (λ line. line.now) text.entry))
        (header_text file_kind sizes)) result sink.old sink.new }
{
    let misplaced = misplaced_note(file_kind, text);
    if misplaced.is_empty() {
        say_header(sink, file_kind, sizes)
    } else {
        say_bytes(sink, misplaced.as_bytes())
    }
}

// Says what is added for the kind.
fn say_kind_note<K: Sink>(
    sink: &mut K,
    file_kind: FileKind,
    kind: FaultKind,
    sizes: Option<(u32, u32)>,
    text: Option<&[u8]>,
) -> Said
    ensures { Says K.written K.writes K.faults
        (kind_note file_kind kind sizes (option_map (λ line. line.now) text.entry)) result sink.old
        sink.new }
{
    match kind {
        FaultKind::Header => say_header_note(sink, file_kind, sizes, text),
        FaultKind::HasGreatest => say_shore_note(sink, text),
        FaultKind::Word
        | FaultKind::Number
        | FaultKind::Range
        | FaultKind::Loop
        | FaultKind::Limit
        | FaultKind::Missing
        | FaultKind::Extra
        | FaultKind::NotRising
        | FaultKind::Unnamed
        | FaultKind::SameName
        | FaultKind::BadName
        | FaultKind::Padding
        | FaultKind::LongForm => say_bytes(sink, note_words(file_kind, kind).as_bytes()),
    }
}

/// Says what a file is that begins so, or if there is nothing to say what is added for the kind of
/// its fault. The numbers are those of the vertices and the edges of the graph that the file is
/// for, and the text is that of the line, if they are known. Takes no memory.
pub fn say_note<K: Sink>(
    sink: &mut K,
    file_kind: FileKind,
    kind: FaultKind,
    beginning: Option<&[u8]>,
    sizes: Option<(u32, u32)>,
    text: Option<&[u8]>,
) -> Said
    ensures { Says K.written K.writes K.faults
        (file_note file_kind kind (option_map (λ text. text.now) beginning.entry) sizes
        (option_map (λ line. line.now) text.entry)) result sink.old sink.new }
{
    let opening = beginning_note(file_kind, beginning);
    if opening.is_empty() {
        say_kind_note(sink, file_kind, kind, sizes, text)
    } else {
        say_bytes(sink, opening.as_bytes())
    }
}
