//! The parts of a graph6 text: header and line end, which are removed first, then size and data.
ghost use Rattle.std.specs.Prelude.{◌≡◌, ◌<◌, ◌≤◌, IsTrue, length};
ghost use Rattle.std.specs.List.{list_all};
ghost use Rattle.graph6_text.specs.Common.{is_digit, without_header, without_line_end, body_of, is_long, digit_at, order_of, data_of};

use crate::digits::{BASE, ZERO};

/// The header that a text may begin with.
const HEADER: &[u8] = b">>graph6<<";

/// The first byte of a size in the long form.
pub const LONG: u8 = 126;

/// The rest of a text after header and line end are removed.
#[tactic(auto, unfolding(crate::specs::Reading::body_of))]
pub fn body(text: &[u8]) -> &[u8]
    ensures { result.now ≡ body_of text.now }
{
    without_line_end(without_header(text))
}

/// A text without its header, if it has one.
fn without_header(text: &[u8]) -> &[u8]
    ensures { result.now ≡ without_header text.now }
{
    // most texts show by their first byte that they have none
    if text.is_empty() || text[0] != HEADER[0] {
        return text;
    }
    text.strip_prefix(HEADER).unwrap_or(text)
}

/// A text without its line end, if it has one.
fn without_line_end(text: &[u8]) -> &[u8]
    ensures { result.now ≡ without_line_end text.now }
{
    if let Some(line) = text.strip_suffix(b"\r\n") {
        return line;
    }
    text.strip_suffix(b"\n").unwrap_or(text)
}

/// Whether the size is written in the long form.
pub fn is_long(body: &[u8]) -> bool
    requires { 0 < length body.now }
    ensures { result ≡ is_long body.now }
{
    body[0] == LONG
}

/// The number of vertices that the size writes.
#[tactic(auto, unfolding(crate::specs::Reading::order_of))]
pub fn order(body: &[u8]) -> u32
    requires digits { IsTrue (list_all is_digit body.now) }
    requires size { 0 < length body.now }
    requires whole { IsTrue (is_long body.now) → 4 ≤ length body.now }
    ensures { result ≡ order_of body.now }
{
    if is_long(body) {
        (digit(body, 1) * BASE + digit(body, 2)) * BASE + digit(body, 3)
    } else {
        digit(body, 0)
    }
}

/// Digit `k` of the size, counted from 0.
fn digit(body: &[u8], k: usize) -> u32
    requires digits { IsTrue (list_all is_digit body.now) }
    requires within { k < length body.now }
    ensures value { result ≡ digit_at body.now k }
    ensures bound { result < BASE }
{
    u32::from(body[k] - ZERO)
}

/// The bytes after the size.
#[tactic(auto, unfolding(crate::specs::Reading::data_of))]
pub fn data(body: &[u8]) -> &[u8]
    requires size { 0 < length body.now }
    requires whole { IsTrue (is_long body.now) → 4 ≤ length body.now }
    ensures { result.now ≡ data_of body.now }
{
    if is_long(body) {
        &body[4..]
    } else {
        &body[1..]
    }
}
