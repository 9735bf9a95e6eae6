//! What is said of bad lines that were skipped.
ghost use Rattle.front_words.specs.ListMessages.{bad_line_text};
ghost use Rattle.front_words.specs.Saying.{Says};
ghost use Rattle.mcg6_front_top.specs.Words.{program, skipped_words};

use crate::speaking::PROGRAM;
use front_words::{Said, say_bad_line};
use mcg6_encoder::mcg6_reader::BadLine;
use mcg6_encoder::outside::Sink;

// Says of a bad line its number, what is wrong with it, and the line.
fn say_one<E: Sink>(errors: &mut E, found: &BadLine) -> Said
    ensures { Says E.written E.writes E.faults
        (bad_line_text program found.now.number found.now.kind found.now.text.items) result
        errors.old errors.new }
{
    say_bad_line(errors, PROGRAM, found.number, found.kind, &found.text)
}

/// Says of each bad line that was skipped its number, what is wrong with it, and the line, in
/// order, up to the first that cannot be said whole. Takes no memory.
pub fn say_skipped<E: Sink>(errors: &mut E, skipped: &[BadLine]) -> Said
    ensures { Says E.written E.writes E.faults (skipped_words skipped.now) result errors.old
        errors.new }
{
    'saying: for found in skipped {
        say_one(errors, found)?;
    }
    Ok(())
}
