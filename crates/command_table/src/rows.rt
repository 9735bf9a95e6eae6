//! The rows of a table of commands.
ghost use Rattle.std.specs.Prelude.{◌≡◌, ◌||◌, nat_eq};
ghost use Rattle.std.specs.List.{list_any};
ghost use Rattle.std.specs.Str.{bytes_eq};
ghost use Rattle.command_table.specs.Rows.{fits_word, is_counted, is_number_in, is_one_of, is_other, word_meaning, word_need};
ghost use Rattle.command_table.specs.RowsSeen.{texts_seen, word_seen};

use line_text::number;

/// A word of a row.
#[derive(Clone, Copy)]
pub enum RowWord {
    /// This text.
    Literal(&'static str),
    /// The name of a file, which is shown so, and what is said where it is missing.
    File(&'static str, &'static str),
    /// A word that is shown so: one of these choices, or one of these beginnings with a number
    /// behind it; a note that says so; and what is said where it is missing.
    OneOf(
        &'static str,
        &'static [&'static str],
        &'static [&'static str],
        &'static str,
        &'static str,
    ),
    /// A number that is shown so, with the least and the greatest; a note that says so; and what
    /// is said where it is missing.
    Number(&'static str, u32, u32, &'static str, &'static str),
}

/// A row: a command, its words, those that may be left out, and its line of the usage.
#[derive(Clone, Copy)]
pub struct Row {
    pub command: &'static str,
    pub words: &'static [RowWord],
    pub optional: &'static [RowWord],
    pub line: &'static str,
}

// Whether the word is one of the choices.
fn is_among(word: &str, choices: &[&str]) -> bool
    ensures { result ≡ list_any (λ choice. bytes_eq word.now choice.now) choices.now }
{
    choices.iter().any(|choice| word == *choice)
}

// Whether the word is this beginning with a number behind it.
fn is_counted(word: &str, beginning: &str) -> bool
    ensures { result ≡ is_counted word.now beginning.now }
{
    match word.as_bytes().strip_prefix(beginning.as_bytes()) {
        Some(digits) => number(digits).is_some(),
        None => false,
    }
}

// Whether the word is one of these beginnings with a number behind it.
fn is_counted_among(word: &str, beginnings: &[&str]) -> bool
    ensures { result ≡ list_any (λ beginning. is_counted word.now beginning.now) beginnings.now }
{
    beginnings
        .iter()
        .any(|beginning| is_counted(word, beginning))
}

// Whether the word is one of the choices, or one of these beginnings with a number behind it.
#[tactic(auto, using(crate::proofs::TextsSeen::any_seen))]
fn is_one_of(word: &str, choices: &[&str], counted: &[&str]) -> bool
    ensures { result ≡ is_one_of (texts_seen choices.now) (texts_seen counted.now) word.now }
{
    is_among(word, choices) || is_counted_among(word, counted)
}

// Whether the word is a number in this range.
fn is_number_in(word: &str, least: u32, most: u32) -> bool
    ensures { result ≡ is_number_in least most word.now }
{
    match number(word.as_bytes()) {
        Some(number) => least <= number && number <= most,
        None => false,
    }
}

impl RowWord {
    /// Whether the word fits this one of a row. Takes no memory.
    pub fn fits(&self, word: &str) -> bool
        ensures { result ≡ fits_word (word_seen self.now) word.now }
    {
        match *self {
            RowWord::Literal(text) => word == text,
            RowWord::File(_, _) => true,
            RowWord::OneOf(_, choices, counted, _, _) => is_one_of(word, choices, counted),
            RowWord::Number(_, least, most, _, _) => is_number_in(word, least, most),
        }
    }

    /// Whether the word is another than this text of a row, so that the row is not meant. Takes no
    /// memory.
    pub fn is_other(&self, word: &str) -> bool
        ensures { result ≡ is_other (word_seen self.now) word.now }
    {
        match *self {
            RowWord::Literal(text) => word != text,
            RowWord::File(_, _) | RowWord::OneOf(_, _, _, _, _) | RowWord::Number(_, _, _, _, _) =>
                false,
        }
    }

    /// What is said where the word is missing. Takes no memory.
    pub fn need(&self) -> &'static str
        ensures { result.now ≡ word_need (word_seen self.now) }
    {
        match *self {
            RowWord::Literal(text) => text,
            RowWord::File(_, need)
            | RowWord::OneOf(_, _, _, _, need)
            | RowWord::Number(_, _, _, _, need) => need,
        }
    }

    /// The note on the words that fit this one; the word itself if there is none. Takes no memory.
    pub fn note(&self) -> &'static str
        ensures { result.now ≡ word_meaning (word_seen self.now) }
    {
        match *self {
            RowWord::Literal(text) => text,
            RowWord::File(shown, _) => shown,
            RowWord::OneOf(_, _, _, note, _) | RowWord::Number(_, _, _, note, _) => note,
        }
    }
}
