//! Laws of formats: a text stands for one value or has one first error, and comments change
//! neither.
ghost use Rattle.std.specs.Prelude.{◌≡◌, ◌<◌, ◌⊎◌, ◌^◌, ℕ, List, ◌++◌, true, Option, Some, None, Ok};
ghost use Rattle.std.specs.Fmt.{decimal};
ghost use Rattle.std.specs.List.{AllByRecursion};
ghost use Rattle.line_text.specs.Common.{Begins, finish, Stands, StandsAlone, BreaksAlone, ReadingTells, lines_of, is_closed, number_of, is_word, words_of, is_skipped, significant_lines_of, written, numbered_from, IsSignificant, IsComment};

use crate::format::LineFormat;

/// Each text either stands for exactly one value of a format or has exactly one first error.
pub fn exactly_one_law<F: LineFormat>()
    ensures { (format : F) (text : List ℕ) →
        StandsAlone (F.rules format) text ⊎ BreaksAlone (F.rules format) text }
{}

/// Reading line by line finds the value that a text stands for, or its first fault.
pub fn reading_tells_law<F: LineFormat>()
    ensures { (format : F) (text : List ℕ) → ReadingTells (F.rules format) text }
{}

/// A text that is written line by line stands for the value that the format has at the end of
/// these lines, whatever comments follow.
pub fn written_text_stands_law<F: LineFormat>()
    ensures { (format : F) (lines comments : List (List (List ℕ))) (reached : Option F.State)
        (value : F.Meaning)
        → AllByRecursion IsSignificant lines → AllByRecursion IsComment comments
        → Begins (F.rules format) None lines reached → finish (F.rules format) reached ≡ Ok value
        → Stands (F.rules format) (written lines ++ written comments) value }
{}

/// The significant lines of a written text are those that were written, in order.
pub fn written_lines_are_read_law()
    ensures { (lines : List (List (List ℕ))) → AllByRecursion IsSignificant lines
        → significant_lines_of (written lines) ≡ numbered_from 1 lines }
{}

/// Lines that are skipped add nothing to a text that ends with a line feed.
pub fn comments_add_nothing_law()
    ensures { (text comments : List ℕ) → is_closed text ≡ true
        → AllByRecursion (λ line. is_skipped (words_of line) ≡ true) (lines_of comments)
        → significant_lines_of (text ++ comments) ≡ significant_lines_of text }
{}

/// A number below 1,000,000,000 is written as a word, and the word is read as that number.
pub fn written_numbers_are_read_law()
    ensures word { (n : ℕ) → n < 10 ^ 9 → is_word (decimal n) ≡ true }
    ensures number { (n : ℕ) → n < 10 ^ 9 → number_of (decimal n) ≡ Some n }
{}
