//! The lines of a text: where each ends, and which of them are significant.
ghost use Rattle.std.specs.Prelude.{◌≡◌, ◌<◌, ◌≤◌, ◌↔◌, ◌∷◌, [], length, IsNone, IfSome, position};
ghost use Rattle.std.specs.List.{before_first, after_first, position_or_len};
ghost use Rattle.line_text.specs.Common.{is_line_feed, lines_of};

// The place of the first line feed.
fn first_line_feed(text: &[u8]) -> Option<usize>
    ensures { result ≡ position is_line_feed text.now }
{
    text.iter().position(|byte| *byte == b'\n')
}

// The length of the first line.
fn line_len(text: &[u8]) -> usize
    ensures len { result ≡ position_or_len is_line_feed text.now }
    ensures within { result ≤ length text.now }
{
    first_line_feed(text).unwrap_or(text.len())
}

/// The first line of a text, without its line feed, and the text after that line feed; `None` if
/// the text is empty.
///
/// Called on the rest each time, it walks through a text line by line: `a` and `a` with a line feed
/// have one line, a line feed alone has one empty line, and an empty text has no line. Takes O(b)
/// time for a line of b bytes.
pub fn split_line(text: &[u8]) -> Option<(&[u8], &[u8])>
    ensures none { IsNone result ↔ (text.now ≡ []) }
    ensures line { IfSome result (λ found. found.0.now ≡ before_first is_line_feed text.now) }
    ensures rest { IfSome result (λ found. found.1.now ≡ after_first is_line_feed text.now) }
    ensures lines { IfSome result
        (λ found. lines_of text.now ≡ found.0.now ∷ lines_of found.1.now) }
    ensures shorter { IfSome result (λ found. length found.1.now < length text.now) }
{
    if text.is_empty() {
        return None;
    }
    let (line, rest) = text.split_at(line_len(text));
    Some((line, &rest[rest.len().min(1)..]))
}
