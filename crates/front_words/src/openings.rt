//! What a text is that does not begin as it should.
ghost use Rattle.std.specs.Prelude.{◌≡◌};
ghost use Rattle.std.specs.List.{list_all};
ghost use Rattle.std.specs.Option.{option_map};
ghost use Rattle.front_words.specs.Openings.{beginning_note, beside_note, coding_note, format_note, graph6_note, graph_file_note, is_digit, is_like_graph6, misplaced_note, note_or, opening_note, file_kind_note};

use crate::lines::line_at;
use crate::showing::byte_at;
use crate::texts;
use refusals::FileKind;

// The first note, or if there is none the second.
fn note_or(note: &'static str, other: &'static str) -> &'static str
    ensures { result.now ≡ note_or note.now other.now }
{
    if note.is_empty() { other } else { note }
}

// A note on a text that is no file of lines; nothing on others.
fn coding_note(text: &[u8]) -> &'static str
    ensures { result.now ≡ coding_note text.now }
{
    if text.starts_with(b"\xef\xbb\xbf") {
        texts::BEGINS_MARKED
    } else if text.starts_with(b"\xff\xfe") {
        texts::BEGINS_UTF16
    } else if text.starts_with(b"\xfe\xff") {
        texts::BEGINS_UTF16
    } else if text.starts_with(b"\x1f\x8b") {
        texts::BEGINS_GZIP
    } else {
        ""
    }
}

// A note on a text that begins as a format of graphs that is not read here; nothing on others.
fn format_note(text: &[u8]) -> &'static str
    ensures { result.now ≡ format_note text.now }
{
    if text.starts_with(b">>sparse6<<") {
        texts::BEGINS_SPARSE6
    } else if text.starts_with(b":") {
        texts::BEGINS_SPARSE6
    } else if text.starts_with(b">>digraph6<<") {
        texts::BEGINS_DIGRAPH6
    } else if text.starts_with(b"&") {
        texts::BEGINS_DIGRAPH6
    } else if text.starts_with(b">>planar_code<<") {
        texts::BEGINS_PLANAR
    } else {
        ""
    }
}

// A note on a text that begins as a graph file, where graph6 is wanted; nothing on others.
fn graph_file_note(text: &[u8]) -> &'static str
    ensures { result.now ≡ graph_file_note text.now }
{
    if text.starts_with(b"p mcg") {
        texts::BEGINS_GRAPH
    } else if text.starts_with(b"c ") {
        texts::BEGINS_GRAPH
    } else {
        ""
    }
}

// Whether graph6 has such bytes.
fn is_digit(byte: u8) -> bool
    ensures { result ≡ is_digit byte }
{
    byte >= 63 && byte <= 126
}

// Whether graph6 has all these bytes.
fn are_digits(line: &[u8]) -> bool
    ensures { result ≡ list_all is_digit line.now }
{
    line.iter().all(|byte| is_digit(*byte))
}

// Whether the line, if there is one, has only bytes of graph6, and at least as many as the first of
// them asks for: with `n` vertices they are at least `n - 2`.
fn is_like_graph6(line: Option<&[u8]>) -> bool
    ensures { result ≡ is_like_graph6 (option_map (λ line. line.now) line.entry) }
{
    match line {
        Some(line) => {
            let least = byte_at(line, 0).saturating_sub(65) as usize;
            !line.is_empty() && (line.len() >= least && are_digits(line))
        }
        None => false,
    }
}

// A note on a text that begins as graph6, where a graph file is wanted; nothing on others.
fn graph6_note(text: &[u8]) -> &'static str
    ensures { result.now ≡ graph6_note text.now }
{
    if text.starts_with(b">>graph6<<") {
        texts::BEGINS_GRAPH6
    } else if is_like_graph6(line_at(text, 1)) {
        texts::BEGINS_GRAPH6
    } else {
        ""
    }
}

// A note on the header of a graph file where a file for one is wanted, with what makes that of it.
fn beside_note(file_kind: FileKind) -> &'static str
    ensures { result.now ≡ beside_note file_kind }
{
    match file_kind {
        FileKind::Graph | FileKind::Graph6 => "",
        FileKind::Tree => texts::GRAPH_FOR_TREE,
        FileKind::Ears => texts::GRAPH_FOR_EARS,
        FileKind::Picks | FileKind::Moves => texts::GRAPH_FIRST,
    }
}

/// The same for the line at fault, if it is known; nothing if it is no such header. Takes no
/// memory.
pub fn misplaced_note(file_kind: FileKind, line: Option<&[u8]>) -> &'static str
    ensures { result.now ≡ misplaced_note file_kind (option_map (λ line. line.now) line.entry) }
{
    match line {
        Some(line) if line.starts_with(b"p mcg") => beside_note(file_kind),
        _ => "",
    }
}

/// A note on a text that begins as a file of another format than graph6, with what reads that;
/// nothing on others. Takes no memory.
pub fn opening_note(text: &[u8]) -> &'static str
    ensures { result.now ≡ opening_note text.now }
{
    note_or(
        coding_note(text),
        note_or(format_note(text), graph_file_note(text)),
    )
}

// The same for a text that is read so.
fn file_kind_note(file_kind: FileKind, text: &[u8]) -> &'static str
    ensures { result.now ≡ file_kind_note file_kind text.now }
{
    match file_kind {
        FileKind::Graph => note_or(
            coding_note(text),
            note_or(format_note(text), graph6_note(text)),
        ),
        FileKind::Graph6 => opening_note(text),
        FileKind::Tree | FileKind::Picks | FileKind::Ears | FileKind::Moves => coding_note(text),
    }
}

/// The same for a file that is read so, if its beginning is known. Takes no memory.
pub fn beginning_note(file_kind: FileKind, beginning: Option<&[u8]>) -> &'static str
    ensures { result.now ≡ beginning_note file_kind (option_map (λ text. text.now) beginning.entry) }
{
    match beginning {
        Some(text) => file_kind_note(file_kind, text),
        None => "",
    }
}
