//! The words of a move: its path, and its sets.
ghost use Rattle.std.specs.Prelude.{◌≡◌, IfOk, map, option_map};
ghost use Rattle.std.specs.List.{list_all};
ghost use Rattle.tree_text.specs.from_line_text.Common.{numbers_of, texts_of};
ghost use Rattle.move_text.specs.Common.{is_path_word, is_step, path_of, side_of, parts_of, is_rotate_line, is_switch_line};

use std::alloc::{AllocError as Memory, Global};
use tree_text::line_text::{has_form, numbers, word};
use tree_text::tree_core::{Path, Side};

const MOST_STEPS: usize = 127;

// Whether a word writes a path.
fn is_path(word: &[u8]) -> bool
    ensures { result ≡ is_path_word word.now }
{
    let is_root = word == b".".as_slice();
    is_root || (!word.is_empty() && word.len() <= MOST_STEPS && are_steps(word))
}

// Whether each byte is the letter of a step.
fn are_steps(letters: &[u8]) -> bool
    ensures { result ≡ list_all is_step letters.now }
{
    letters
        .iter()
        .all(|letter| *letter == b'k' || *letter == b'm')
}

/// Whether these are the words of a Rotate.
pub fn is_rotate(words: &[&[u8]]) -> bool
    ensures { result ≡ is_rotate_line (texts_of words.now) }
{
    has_form(words, 2, &["rotate"]) && is_path(word(words, 1))
}

/// Whether these are the words of a Switch, whatever its sets are.
pub fn is_switch(words: &[&[u8]]) -> bool
    ensures { result ≡ is_switch_line (texts_of words.now) }
{
    has_form(words, 4, &["switch"]) && is_path(word(words, 1))
}

/// The path that a word writes.
pub fn read_path(alloc: Global, word: &[u8]) -> Result<Path, Memory>
    ensures { IfOk result (λ path. path ≡ path_of word.now) }
{
    if word == b".".as_slice() {
        return Ok(Path::new(alloc));
    }
    read_steps(alloc, word)
}

// The steps that letters write.
fn read_steps(alloc: Global, letters: &[u8]) -> Result<Path, Memory>
    ensures { IfOk result (λ path. path ≡ map side_of letters.now) }
{
    let mut path = Path::new(alloc);
    let mut rest = letters;
    'letters: while let Some((letter, others)) = rest.split_first() {
        path.push(side_of(*letter))?;
        rest = others;
    }
    Ok(path)
}

// The step that a letter writes.
fn side_of(letter: u8) -> Side
    ensures { result ≡ side_of letter }
{
    if letter == b'k' {
        Side::Kept
    } else {
        Side::Merged
    }
}

/// The numbers that a word writes, separated by commas; `None` if and only if a part between commas
/// is not a number.
pub fn read_vertices(alloc: Global, word: &[u8]) -> Result<Option<Vec<u32>>, Memory>
    ensures { IfOk result
        (λ found. option_map (λ vertices. vertices.items) found ≡ numbers_of (parts_of word.now)) }
{
    let parts = split_parts(alloc, word)?;
    numbers(alloc, &parts)
}

// The parts of a word between commas.
fn split_parts(alloc: Global, word: &[u8]) -> Result<Vec<&[u8]>, Memory>
    ensures { IfOk result (λ parts. texts_of parts.items ≡ parts_of word.now) }
{
    word.split(|byte| *byte == b',').collect(alloc)
}
