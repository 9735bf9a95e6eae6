//! Why words match no row of a table.
ghost use Rattle.std.specs.Prelude.{◌≡◌, map, string_bytes};
ghost use Rattle.std.specs.Option.{option_map};
ghost use Rattle.command_table.specs.Reasons.{nearer, reason_seen, why_of_optional, why_of_row, why_of_words, why_unmatched, wrong_behind, wrong_unless, wrong_unless_other};
ghost use Rattle.command_table.specs.RowsSeen.{row_seen, word_seen};

use crate::rows::{Row, RowWord};

/// Why words match no row of a table.
#[derive(Clone, Copy)]
pub enum Mismatch {
    /// No row has such a first word, or this row is not meant.
    Unknown,
    /// There are too many words.
    TooMany,
    /// This word is missing.
    TooFew(RowWord),
    /// A word does not fit this one.
    Wrong(RowWord),
}

// A word that may be left out is wrong if the words without it do not fit either; if it is another
// than the text of a row, it is why these do not.
fn wrong_unless(wanted: RowWord, word: &str, without: Option<Mismatch>) -> Option<Mismatch>
    ensures { option_map reason_seen result ≡
        wrong_unless (word_seen wanted) word.now (option_map reason_seen without) }
{
    match without {
        None => None,
        Some(reason) => {
            if wanted.is_other(word) {
                Some(reason)
            } else {
                Some(Mismatch::Wrong(wanted))
            }
        }
    }
}

// Why words do not fit those of a row that may be left out, if they do not.
fn why_of_optional(row: &[RowWord], words: &[String]) -> Option<Mismatch>
    ensures { option_map reason_seen result ≡
        why_of_optional (map word_seen row.now) (map string_bytes words.now) }
{
    match (row.split_first(), words.split_first()) {
        (None, None) => None,
        (None, Some(_)) => Some(Mismatch::TooMany),
        (Some(_), None) => None,
        (Some((wanted, row)), Some((word, rest))) => {
            if wanted.fits(word.as_str()) {
                why_of_optional(row, rest)
            } else {
                wrong_unless(*wanted, word.as_str(), why_of_optional(row, words))
            }
        }
    }
}

// The reason behind a word, unless that does not fit: a number of words that does not fit comes
// before it.
fn wrong_behind(wanted: RowWord, word: &str, behind: Option<Mismatch>) -> Option<Mismatch>
    ensures { option_map reason_seen result ≡
        wrong_behind (word_seen wanted) word.now (option_map reason_seen behind) }
{
    match behind {
        Some(Mismatch::TooMany) => Some(Mismatch::TooMany),
        Some(Mismatch::TooFew(missing)) => Some(Mismatch::TooFew(missing)),
        rest => {
            if wanted.fits(word) {
                rest
            } else {
                Some(Mismatch::Wrong(wanted))
            }
        }
    }
}

// The same, and another word than the text of a row comes before all: that row is not meant.
fn wrong_unless_other(wanted: RowWord, word: &str, behind: Option<Mismatch>) -> Option<Mismatch>
    ensures { option_map reason_seen result ≡
        wrong_unless_other (word_seen wanted) word.now (option_map reason_seen behind) }
{
    if wanted.is_other(word) {
        Some(Mismatch::Unknown)
    } else {
        wrong_behind(wanted, word, behind)
    }
}

// Why words do not fit those of a row, if they do not.
fn why_of_words(row: &[RowWord], optional: &[RowWord], words: &[String]) -> Option<Mismatch>
    ensures { option_map reason_seen result ≡ why_of_words (map word_seen row.now)
        (map word_seen optional.now) (map string_bytes words.now) }
{
    match (row.split_first(), words.split_first()) {
        (None, _) => why_of_optional(optional, words),
        (Some((wanted, _)), None) => Some(Mismatch::TooFew(*wanted)),
        (Some((wanted, row)), Some((word, words))) => {
            let behind = why_of_words(row, optional, words);
            wrong_unless_other(*wanted, word.as_str(), behind)
        }
    }
}

// Why words do not match a row, if they do not.
fn why_of_row(row: &Row, words: &[String]) -> Option<Mismatch>
    ensures { option_map reason_seen result ≡
        why_of_row (row_seen row.now) (map string_bytes words.now) }
{
    match words.split_first() {
        Some((word, words)) if word.as_str() == row.command => {
            why_of_words(row.words, row.optional, words)
        }
        _ => Some(Mismatch::Unknown),
    }
}

// The reason of the nearer of two rows: none if one is matched, and else too few words, a wrong
// word, too many words, in this order.
fn nearer(first: Option<Mismatch>, second: Option<Mismatch>) -> Option<Mismatch>
    ensures { option_map reason_seen result ≡
        nearer (option_map reason_seen first) (option_map reason_seen second) }
{
    match (first, second) {
        (None, _) | (_, None) => None,
        (Some(Mismatch::TooFew(missing)), Some(_)) => Some(Mismatch::TooFew(missing)),
        (Some(_), Some(Mismatch::TooFew(missing))) => Some(Mismatch::TooFew(missing)),
        (Some(Mismatch::Wrong(wanted)), Some(_)) => Some(Mismatch::Wrong(wanted)),
        (Some(_), Some(Mismatch::Wrong(wanted))) => Some(Mismatch::Wrong(wanted)),
        (Some(Mismatch::TooMany), Some(_)) => Some(Mismatch::TooMany),
        (Some(Mismatch::Unknown), other) => other,
    }
}

/// Why words match none of the rows, or nothing if they match one. Takes no memory.
pub fn why_unmatched(rows: &[Row], words: &[String]) -> Option<Mismatch>
    ensures { option_map reason_seen result ≡
        why_unmatched (map row_seen rows.now) (map string_bytes words.now) }
{
    match rows.split_first() {
        None => Some(Mismatch::Unknown),
        Some((row, rows)) => nearer(why_of_row(row, words), why_unmatched(rows, words)),
    }
}
