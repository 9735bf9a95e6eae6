//! Numbers as words: one to nine digits.
ghost use Rattle.std.specs.Prelude.{◌≡◌, ◌≤◌, true, length, IfOk, option_map};
ghost use Rattle.std.specs.Char.{is_ascii_digit};
ghost use Rattle.std.specs.List.{list_all};
ghost use Rattle.std.specs.Str.Parse.{digits_value};
ghost use Rattle.line_text.specs.Common.{number_of, numbers_of, texts_of};

use std::alloc::{AllocError as Memory, Global};

// The most digits that a number has, so that it fits 32 bits.
const MOST_DIGITS: usize = 9;

// Whether all bytes are ASCII digits.
fn are_digits(word: &[u8]) -> bool
    ensures { result ≡ list_all is_ascii_digit word.now }
{
    word.iter().all(|byte| byte.is_ascii_digit())
}

// The number that at most nine digits write.
fn value_of_digits(digits: &[u8]) -> u32
    requires digits { list_all is_ascii_digit digits.now ≡ true }
    requires few { length digits.now ≤ 9 }
    ensures { result ≡ digits_value 10 digits.now }
{
    let mut value = 0u32;
    let mut rest = digits;
    'digits: while let Some((digit, others)) = rest.split_first() {
        value = value * 10 + u32::from(digit - b'0');
        rest = others;
    }
    value
}

/// The number that a word writes in decimal, from 0 to 999,999,999: one to nine ASCII digits,
/// leading zeros allowed.
///
/// `None` if and only if the word is not a number: it is empty, has more than nine bytes, or one
/// that is not an ASCII digit. Takes constant time.
#[tactic(auto, unfolding(crate::specs::Numerals::number_of))]
pub fn number(word: &[u8]) -> Option<u32>
    ensures { result ≡ number_of word.now }
{
    if !word.is_empty() && word.len() <= MOST_DIGITS && are_digits(word) {
        Some(value_of_digits(word))
    } else {
        None
    }
}

/// The numbers that words write, in their order; `None` if and only if one of the words is not a
/// number. Takes O(k) time for k words; the only error is `Memory`.
pub fn numbers(alloc: Global, words: &[&[u8]]) -> Result<Option<Vec<u32>>, Memory>
    ensures { IfOk result
        (λ found. option_map (λ values. values.items) found ≡ numbers_of (texts_of words.now)) }
{
    let mut values = Vec::with_capacity(alloc, words.len())?;
    for word in words {
        let Some(value) = number(word) else {
            return Ok(None);
        };
        values.push(value)?;
    }
    Ok(Some(values))
}
