//! The other shore of a cut, from the line that names one.
ghost use Rattle.std.specs.Prelude.{◌≡◌, ◌+◌, ◌++◌, ◌<◌, ◌≤◌, ◌^◌, codes};
ghost use Rattle.std.specs.Option.{option_map};
ghost use Rattle.line_text.specs.Common.{is_blank};
ghost use Rattle.front_words.specs.Saying.{Says};
ghost use Rattle.front_words.specs.Shores.{highest_named, is_cut, is_cut_word, is_some_vertex, is_vertex, leaves_some, names, other_shore_note, others_text, plain_shore_note, shore_note, width};

use crate::pieces::MessagePiece::{Number, Text};
use crate::pieces::{Said, say};
use crate::showing::say_bytes;
use crate::texts;
use line_text::number;
use outside::Sink;

// The most vertices of a graph.
const MOST_VERTICES: u32 = 128;

// The most bytes of a shore that are said, with the first word of its line.
const MOST_OF_SHORE: u32 = 57;

// Whether the byte is a space, a tab or a carriage return.
fn is_blank(byte: u8) -> bool
    ensures { result ≡ is_blank byte }
{
    matches!(byte, b' ' | b'\t' | b'\r')
}

// Whether the word is the number of that vertex.
fn is_vertex(word: &[u8], vertex: u32) -> bool
    ensures { result ≡ is_vertex vertex word.now }
{
    match number(word) {
        Some(found) => found == vertex,
        None => false,
    }
}

// Whether the word is the number of some vertex.
fn is_some_vertex(word: &[u8]) -> bool
    ensures { result ≡ is_some_vertex word.now }
{
    match number(word) {
        Some(vertex) => 1 <= vertex && vertex <= MOST_VERTICES,
        None => false,
    }
}

// Whether one of the words of the line is the number of that vertex.
fn names(line: &[u8], vertex: u32) -> bool
    ensures { result ≡ names line.now vertex }
{
    line.split(|byte| is_blank(*byte))
        .fold(false, |found, word| found || is_vertex(word, vertex))
}

// Whether the word is `cut` or the number of a vertex, or is empty.
fn is_cut_word(word: &[u8]) -> bool
    ensures { result ≡ is_cut_word word.now }
{
    word.is_empty() || (word == b"cut".as_slice() || is_some_vertex(word))
}

// Whether each word of the line is `cut` or the number of a vertex.
fn is_cut(line: &[u8]) -> bool
    ensures { result ≡ is_cut line.now }
{
    line.split(|byte| is_blank(*byte))
        .fold(true, |fits, word| fits && is_cut_word(word))
}

// The highest-numbered vertex that the line names, of the first so many; 0 if it names none.
fn highest_named(line: &[u8], count: u32) -> u32
    ensures named { result ≡ highest_named line.now count }
    ensures few { result ≤ count }
{
    match count.checked_sub(1) {
        None => 0,
        Some(fewer) => {
            if names(line, count) {
                count
            } else {
                highest_named(line, fewer)
            }
        }
    }
}

// Whether the line does not name all of the first so many vertices.
fn leaves_some(line: &[u8], count: u32) -> bool
    ensures { result ≡ leaves_some line.now count }
{
    match count.checked_sub(1) {
        None => false,
        Some(fewer) => !names(line, count) || leaves_some(line, fewer),
    }
}

// How many bytes a vertex takes, with the blank before it.
fn width(vertex: u32) -> u32
    ensures { result ≡ width vertex }
{
    if vertex < 10 {
        2
    } else if vertex < 100 {
        3
    } else {
        4
    }
}

// Says of so many vertices from `next` on those that the line does not name, at most `left` bytes
// of them, whole numbers alone, and dots if there are more.
fn say_others<K: Sink>(sink: &mut K, line: &[u8], count: u32, next: u32, left: u32) -> Said
    requires { next + count < 2 ^ 32 }
    ensures { Says K.written K.writes K.faults (others_text line.now count next left) result
        sink.old sink.new }
{
    let Some(fewer) = count.checked_sub(1) else {
        return say_bytes(sink, b"");
    };
    if names(line, next) {
        return say_others(sink, line, fewer, next + 1, left);
    }
    if left < width(next) {
        return say_bytes(sink, b" ...");
    }
    match say(sink, &[Text(" "), Number(next as u64)]) {
        Ok(()) => say_others(sink, line, fewer, next + 1, left - width(next)),
        Err(failed) => Err(failed),
    }
}

// Says what to write for a shore with the highest-numbered vertex, if its line is not known.
fn say_plain_note<K: Sink>(sink: &mut K) -> Said
    ensures { Says K.written K.writes K.faults plain_shore_note result sink.old sink.new }
{
    say(sink, &[Text(texts::SHORE_PLAIN)])
}

// Says the vertices of the other shore and the end of the note.
fn say_shore<K: Sink>(sink: &mut K, line: &[u8], order: u32) -> Said
    requires { order ≤ 128 }
    ensures { Says K.written K.writes K.faults
        (others_text line.now order 1 57 ++ codes ")") result sink.old sink.new }
{
    match say_others(sink, line, order, 1, MOST_OF_SHORE) {
        Ok(()) => say_bytes(sink, b")"),
        Err(failed) => Err(failed),
    }
}

// Says the other shore, in a graph with so many vertices.
fn say_other_shore<K: Sink>(sink: &mut K, line: &[u8], order: u32) -> Said
    requires { order ≤ 128 }
    ensures { Says K.written K.writes K.faults (other_shore_note line.now order) result sink.old
        sink.new }
{
    if !is_cut(line) || !leaves_some(line, order) {
        return say_plain_note(sink);
    }
    match say(sink, &[Text(texts::SHORE_OTHER)]) {
        Ok(()) => say_shore(sink, line, order),
        Err(failed) => Err(failed),
    }
}

/// Says what to write for a shore with the highest-numbered vertex: the other shore, if the line of
/// this one is known. Takes no memory.
pub fn say_shore_note<K: Sink>(sink: &mut K, line: Option<&[u8]>) -> Said
    ensures { Says K.written K.writes K.faults
        (shore_note (option_map (λ line. line.now) line.entry)) result sink.old sink.new }
{
    match line {
        Some(line) => say_other_shore(sink, line, highest_named(line, MOST_VERTICES)),
        None => say_plain_note(sink),
    }
}
