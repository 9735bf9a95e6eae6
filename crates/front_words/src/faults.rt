//! What the kinds of faults are in words.
ghost use Rattle.std.specs.Prelude.{◌≡◌};
ghost use Rattle.front_words.specs.Faults.{fault_words, graph6_fault, header_note, limit_note, line_fault, note_words, reader_note};

use crate::texts;
use line_text::FaultKind;
use refusals::FileKind;

// A fault of that kind in a text of lines.
fn line_fault(kind: FaultKind) -> &'static str
    ensures { result.now ≡ line_fault kind }
{
    match kind {
        FaultKind::Header => texts::FAULT_HEADER,
        FaultKind::Word => texts::FAULT_WORD,
        FaultKind::Number => texts::FAULT_NUMBER,
        FaultKind::Range => texts::FAULT_RANGE,
        FaultKind::Loop => texts::FAULT_LOOP,
        FaultKind::Limit => texts::FAULT_LIMIT,
        FaultKind::Missing => texts::FAULT_MISSING,
        FaultKind::Extra => texts::FAULT_EXTRA,
        FaultKind::NotRising => texts::FAULT_NOT_RISING,
        FaultKind::HasGreatest => texts::FAULT_HAS_GREATEST,
        FaultKind::Unnamed => texts::FAULT_UNNAMED,
        FaultKind::SameName => texts::FAULT_SAME_NAME,
        FaultKind::BadName => texts::FAULT_BAD_NAME,
        FaultKind::Padding | FaultKind::LongForm => texts::FAULT_OTHER,
    }
}

// A fault of that kind in a graph6 text.
fn graph6_fault(kind: FaultKind) -> &'static str
    ensures { result.now ≡ graph6_fault kind }
{
    match kind {
        FaultKind::Range => texts::GRAPH6_RANGE,
        FaultKind::Limit => texts::GRAPH6_LIMIT,
        FaultKind::Missing => texts::GRAPH6_MISSING,
        FaultKind::Extra => texts::GRAPH6_EXTRA,
        FaultKind::Padding => texts::GRAPH6_PADDING,
        FaultKind::LongForm => texts::GRAPH6_LONG_FORM,
        FaultKind::Header
        | FaultKind::Word
        | FaultKind::Number
        | FaultKind::Loop
        | FaultKind::NotRising
        | FaultKind::HasGreatest
        | FaultKind::Unnamed
        | FaultKind::SameName
        | FaultKind::BadName => texts::FAULT_OTHER,
    }
}

/// What a fault of that kind is in a file that is read so. Takes no memory.
pub fn fault_words(file_kind: FileKind, kind: FaultKind) -> &'static str
    ensures { result.now ≡ fault_words file_kind kind }
{
    match file_kind {
        FileKind::Graph6 => graph6_fault(kind),
        FileKind::Graph | FileKind::Tree | FileKind::Picks | FileKind::Ears | FileKind::Moves =>
            line_fault(kind),
    }
}

/// The header of a format, after a fault of it. Takes no memory.
pub fn header_note(file_kind: FileKind) -> &'static str
    ensures { result.now ≡ header_note file_kind }
{
    match file_kind {
        FileKind::Graph => texts::HEADER_GRAPH,
        FileKind::Graph6 => "",
        FileKind::Tree => texts::HEADER_TREE,
        FileKind::Picks => texts::HEADER_PICKS,
        FileKind::Ears => texts::HEADER_EARS,
        FileKind::Moves => texts::HEADER_MOVES,
    }
}

// The limits of a format, after a fault of them.
fn limit_note(file_kind: FileKind) -> &'static str
    ensures { result.now ≡ limit_note file_kind }
{
    match file_kind {
        FileKind::Graph => texts::LIMIT_GRAPH,
        FileKind::Graph6 => "",
        FileKind::Tree => texts::LIMIT_TREE,
        FileKind::Picks => texts::LIMIT_PICKS,
        FileKind::Ears => "",
        FileKind::Moves => texts::LIMIT_MOVES,
    }
}

// What reads a file that is not one graph in graph6.
fn reader_note(file_kind: FileKind) -> &'static str
    ensures { result.now ≡ reader_note file_kind }
{
    match file_kind {
        FileKind::Graph6 => texts::READER_GRAPH6,
        FileKind::Graph | FileKind::Tree | FileKind::Picks | FileKind::Ears | FileKind::Moves => "",
    }
}

/// What is added to the words of a fault: the header of the format, its limits, what else reads
/// such a file, or what to write instead. Takes no memory.
pub fn note_words(file_kind: FileKind, kind: FaultKind) -> &'static str
    ensures { result.now ≡ note_words file_kind kind }
{
    match kind {
        FaultKind::Header => header_note(file_kind),
        FaultKind::Limit => limit_note(file_kind),
        FaultKind::Extra => reader_note(file_kind),
        FaultKind::HasGreatest => texts::SHORE_PLAIN,
        FaultKind::Word
        | FaultKind::Number
        | FaultKind::Range
        | FaultKind::Loop
        | FaultKind::Missing
        | FaultKind::NotRising
        | FaultKind::Unnamed
        | FaultKind::SameName
        | FaultKind::BadName
        | FaultKind::Padding
        | FaultKind::LongForm => "",
    }
}
