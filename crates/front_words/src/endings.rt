//! What is said of a run that could not write all of its output, or had too little memory.
ghost use Rattle.front_words.specs.Endings.{first_lines_text, lost_text, nothing_written_text};
ghost use Rattle.front_words.specs.Saying.{Says};

use crate::pieces::MessagePiece::Text;
use crate::pieces::{Said, say};
use crate::texts;
use outside::Sink;

/// Says that the output could not be written whole. Takes no memory.
pub fn say_lost_output<K: Sink>(sink: &mut K, program: &str) -> Said
    ensures { Says K.written K.writes K.faults (lost_text program.now) result sink.old sink.new }
{
    say(sink, &[Text(program), Text(texts::LOST), Text("\n")])
}

/// Says that memory ran out before anything was written. Takes no memory.
pub fn say_nothing_written<K: Sink>(sink: &mut K, program: &str) -> Said
    ensures { Says K.written K.writes K.faults (nothing_written_text program.now) result sink.old
        sink.new }
{
    say(
        sink,
        &[Text(program), Text(texts::NOTHING_WRITTEN), Text("\n")],
    )
}

/// Says that memory ran out after the first lines of a list. Takes no memory.
pub fn say_first_lines<K: Sink>(sink: &mut K, program: &str) -> Said
    ensures { Says K.written K.writes K.faults (first_lines_text program.now) result sink.old sink.new }
{
    say(sink, &[Text(program), Text(texts::FIRST_LINES), Text("\n")])
}
