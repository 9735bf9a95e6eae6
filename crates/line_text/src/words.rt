//! The words of a line, and the lines that are skipped.
ghost use Rattle.std.specs.Prelude.{◌≡◌, IfOk};
ghost use Rattle.std.specs.List.{list_all, zip};
ghost use Rattle.std.specs.Str.{bytes_eq};
ghost use Rattle.line_text.specs.Common.{is_blank, is_skipped, has_form, begin_with, word_at, words_of, texts_of};

use std::alloc::{AllocError as Memory, Global};

// Whether the byte is a space, a tab or a carriage return.
fn is_blank(byte: u8) -> bool
    ensures { result ≡ is_blank byte }
{
    matches!(byte, b' ' | b'\t' | b'\r')
}

/// The words of a line, as pieces of it: its longest runs of bytes that are neither space, tab nor
/// carriage return.
///
/// Takes O(b) time for b bytes, and memory only for the list of the pieces; the only error is
/// `Memory`.
pub fn split_words(alloc: Global, line: &[u8]) -> Result<Vec<&[u8]>, Memory>
    ensures { IfOk result (λ found. texts_of found.items ≡ words_of line.now) }
{
    line.split(|byte| is_blank(*byte))
        .filter(|word| !word.is_empty())
        .collect(alloc)
}

/// Whether a line with these words is skipped: it has none, or its first word is exactly `c`,
/// which marks a comment.
pub fn is_skipped(words: &[&[u8]]) -> bool
    ensures { result ≡ is_skipped (texts_of words.now) }
{
    match words.split_first() {
        None => true,
        Some((first, _)) => *first == b"c".as_slice(),
    }
}

/// The word at a place, counted from 0, or the empty word if there is none. Takes constant time.
pub fn word<'a>(words: &[&'a [u8]], place: usize) -> &'a [u8]
    ensures { result.now ≡ word_at (texts_of words.now) place }
{
    words.get(place).copied().unwrap_or(&[])
}

// Whether the words and the keywords agree, up to the end of the shorter list.
fn are_same(words: &[&[u8]], keywords: &[&str]) -> bool
    ensures { result ≡ list_all (λ pair. bytes_eq pair.0.now pair.1.now)
        (zip words.now keywords.now) }
{
    words
        .iter()
        .zip(keywords)
        .all(|(word, keyword)| *word == keyword.as_bytes())
}

// Whether the first words are the keywords.
fn start_with(words: &[&[u8]], keywords: &[&str]) -> bool
    ensures { result ≡ begin_with (texts_of words.now) (texts_of keywords.now) }
{
    keywords.len() <= words.len() && are_same(words, keywords)
}

/// Whether there are exactly `count` words, the first of which are the keywords, in their order.
/// Takes O(b) time for b bytes in the keywords.
#[tactic(auto, unfolding(crate::specs::Words::has_form))]
pub fn has_form(words: &[&[u8]], count: usize, keywords: &[&str]) -> bool
    ensures { result ≡ has_form (texts_of words.now) count (texts_of keywords.now) }
{
    words.len() == count && start_with(words, keywords)
}
