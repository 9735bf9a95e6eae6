//! Showing bytes of the outside in a line.
ghost use Rattle.std.specs.Prelude.{◌≡◌, ◌≤◌, ◌<◌, ◌&&◌, length};
ghost use Rattle.front_words.specs.Saying.{Says};
ghost use Rattle.front_words.specs.Showing.{begin_shown, begins_four, begins_in, begins_three, begins_two, byte_at, byte_shown, ends_plane, is_control, is_further, is_hidden_plane, is_hidden_three, is_layout, is_special, is_within, shown, unit_size};
ghost use Rattle.front_words.specs.UnitsSeen.{unit_shown};

use crate::pieces::Said;
use outside::{Sink, emit};

// Whether the byte is not printable ASCII.
fn is_control(byte: u8) -> bool
    ensures { result ≡ is_control byte }
{
    byte < 32 || byte >= 127
}

/// The byte at that place, or 0 where the text ends before it. Takes no memory.
pub fn byte_at(text: &[u8], place: usize) -> u8
    ensures { result ≡ byte_at text.now place }
{
    match text.get(place) {
        Some(byte) => *byte,
        None => 0,
    }
}

// Whether the byte is a further one of a character beyond ASCII.
fn is_further(byte: u8) -> bool
    ensures { result ≡ is_further byte }
{
    byte >= 128 && byte <= 191
}

// Whether a character of two bytes begins the text that is not a control character.
fn begins_two(text: &[u8]) -> bool
    ensures { result ≡ begins_two text.now }
{
    let first = byte_at(text, 0);
    let second = byte_at(text, 1);
    let is_control = first == 194 && second < 160;
    (first >= 194 && first <= 223) && (is_further(second) && !is_control)
}

// Whether the text begins with a byte from `first` to `last` and a further one, which is at least
// `least` after `first` and less than `limit` after `top`.
fn begins_in(text: &[u8], first: u8, last: u8, least: u8, top: u8, limit: u8) -> bool
    ensures { result ≡ begins_in first last least top limit text.now }
{
    let byte = byte_at(text, 0);
    let second = byte_at(text, 1);
    let is_long = byte == first && second < least;
    let is_beyond = byte == top && second >= limit;
    (byte >= first && byte <= last) && (is_further(second) && (!is_long && !is_beyond))
}

// Whether the byte is from the first of these to the last.
fn is_within(byte: u8, first: u8, last: u8) -> bool
    ensures { result ≡ is_within byte first last }
{
    byte >= first && byte <= last
}

// Whether these bytes, behind 226, are U+200B to U+200F, U+2028 to U+202E or U+2066 to U+2069.
#[tactic(auto, unfolding(crate::specs::Showing::is_layout))]
fn is_layout(second: u8, third: u8) -> bool
    ensures { result ≡ is_layout second third }
{
    if second == 128 {
        is_within(third, 139, 143) || is_within(third, 168, 174)
    } else {
        second == 129 && is_within(third, 166, 169)
    }
}

// Whether these bytes, behind 239, are up to U+F8FF, or U+FDD0 to U+FDEF, U+FEFF, U+FFF9 to U+FFFB,
// U+FFFE or U+FFFF.
#[tactic(auto, unfolding(crate::specs::Showing::is_special))]
fn is_special(second: u8, third: u8) -> bool
    ensures { result ≡ is_special second third }
{
    if second == 183 {
        is_within(third, 144, 175)
    } else if second == 187 {
        third == 191
    } else if second == 191 {
        is_within(third, 185, 187) || third >= 190
    } else {
        second <= 163
    }
}

// Whether these three bytes are a character that does not print, if they are one.
#[tactic(auto, unfolding(crate::specs::Showing::is_hidden_three))]
fn is_hidden_three(first: u8, second: u8, third: u8) -> bool
    ensures { result ≡ is_hidden_three first second third }
{
    if first == 226 {
        is_layout(second, third)
    } else if first == 239 {
        is_special(second, third)
    } else {
        first == 238
    }
}

// Whether the character of four bytes that begins so is a tag or for private use, if it is one.
#[tactic(auto, unfolding(crate::specs::Showing::is_hidden_plane))]
fn is_hidden_plane(first: u8, second: u8, third: u8) -> bool
    ensures { result ≡ is_hidden_plane first second third }
{
    if first == 243 {
        second >= 176 || (second == 160 && third <= 129)
    } else {
        first == 244
    }
}

// Whether a character of four bytes that ends so is one of the last two of its plane.
#[tactic(auto, unfolding(crate::specs::Showing::ends_plane))]
fn ends_plane(second: u8, third: u8, fourth: u8) -> bool
    ensures { result ≡ ends_plane second third fourth }
{
    second % 16 == 15 && (third == 191 && fourth >= 190)
}

// Whether a character of three bytes that prints begins the text.
fn begins_three(text: &[u8]) -> bool
    ensures { result ≡ begins_three text.now }
{
    let is_whole = begins_in(text, 224, 239, 160, 237, 160) && is_further(byte_at(text, 2));
    is_whole && !is_hidden_three(byte_at(text, 0), byte_at(text, 1), byte_at(text, 2))
}

// Whether a character of four bytes that prints begins the text.
fn begins_four(text: &[u8]) -> bool
    ensures { result ≡ begins_four text.now }
{
    let is_whole = begins_in(text, 240, 244, 144, 244, 144)
        && (is_further(byte_at(text, 2)) && is_further(byte_at(text, 3)));
    let is_hidden = is_hidden_plane(byte_at(text, 0), byte_at(text, 1), byte_at(text, 2));
    let is_last = ends_plane(byte_at(text, 1), byte_at(text, 2), byte_at(text, 3));
    is_whole && (!is_hidden && !is_last)
}

// How many bytes of the text are shown together.
fn unit_size(text: &[u8]) -> usize
    ensures size { result ≡ unit_size text.now }
    ensures some { 0 < result }
    ensures few { result ≤ 4 }
{
    if begins_two(text) {
        2
    } else if begins_three(text) {
        3
    } else if begins_four(text) {
        4
    } else {
        1
    }
}

// Says these bytes as they are.
pub fn say_bytes<K: Sink>(sink: &mut K, bytes: &[u8]) -> Said
    ensures { Says K.written K.writes K.faults bytes.now result sink.old sink.new }
{
    emit(sink, bytes)
}

// Says a byte as it can stand in a line.
fn say_byte<K: Sink>(sink: &mut K, byte: u8) -> Said
    ensures { Says K.written K.writes K.faults (byte_shown byte) result sink.old sink.new }
{
    if byte == b'\t' {
        say_bytes(sink, b"\\t")
    } else if byte == b'\\' {
        say_bytes(sink, b"\\\\")
    } else if is_control(byte) {
        let digits = [b'0' + byte / 64, b'0' + byte / 8 % 8, b'0' + byte % 8];
        say_bytes(sink, &[b'\\', digits[0], digits[1], digits[2]])
    } else {
        say_bytes(sink, &[byte])
    }
}

// Says bytes that are shown together.
fn say_unit<K: Sink>(sink: &mut K, unit: &[u8]) -> Said
    ensures { Says K.written K.writes K.faults (unit_shown unit.now) result sink.old sink.new }
{
    match unit {
        [byte] => say_byte(sink, *byte),
        _ => say_bytes(sink, unit),
    }
}

// Says at most so many bytes of the text as they can stand in a line, whole characters alone, and
// dots if there are more.
fn say_begin<K: Sink>(sink: &mut K, text: &[u8], most: u32) -> Said
    ensures { Says K.written K.writes K.faults (begin_shown most text.now) result sink.old sink.new }
{
    let mut rest = text;
    let mut left = most as usize;
    'showing: while !rest.is_empty() {
        let size = unit_size(rest);
        if left < size {
            return say_bytes(sink, b"...");
        }
        let (unit, others) = rest.split_at(size);
        say_unit(sink, unit)?;
        rest = others;
        left -= size;
    }
    Ok(())
}

/// Says at most so many bytes of the text as they can stand in a line, whole characters alone, and
/// dots if there are more; and two quotes for the empty text. Takes no memory.
#[tactic(auto, unfolding(crate::specs::Showing::shown))]
pub fn say_shown<K: Sink>(sink: &mut K, text: &[u8], most: u32) -> Said
    ensures { Says K.written K.writes K.faults (shown most text.now) result sink.old sink.new }
{
    if text.is_empty() {
        say_bytes(sink, b"''")
    } else {
        say_begin(sink, text, most)
    }
}
