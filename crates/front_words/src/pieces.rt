//! A message as a list of pieces, and how it is said.
ghost use Rattle.std.specs.Prelude.{◌≡◌};
ghost use Rattle.front_words.specs.Pieces.{piece_text, pieces_text};
ghost use Rattle.front_words.specs.Saying.{Says};

use crate::showing::{say_bytes, say_shown};
use itoa::Buffer;
use outside::{Sink, SinkFailed};

/// Whether a text was said whole: if not, the sink failed.
pub type Said = Result<(), SinkFailed>;

/// A piece of a message.
#[derive(Clone, Copy, Drop)]
pub enum MessagePiece<'a> {
    /// This text.
    Text(&'a str),
    /// This number, in decimal.
    Number(u64),
    /// These bytes of the outside, as they can stand in a line, and of them at most so many
    /// characters.
    Shown(&'a [u8], u32),
}

// Says one piece.
fn say_piece<K: Sink>(sink: &mut K, piece: &MessagePiece<'_>) -> Said
    ensures { Says K.written K.writes K.faults (piece_text piece.now) result sink.old sink.new }
{
    match piece {
        MessagePiece::Text(text) => say_bytes(sink, text.as_bytes()),
        MessagePiece::Number(number) => {
            let mut buffer = Buffer::new();
            say_bytes(sink, buffer.format(*number).as_bytes())
        }
        MessagePiece::Shown(bytes, most) => say_shown(sink, bytes, *most),
    }
}

/// Says the pieces, one after another, up to the first that cannot be said whole. Takes no memory.
pub fn say<K: Sink>(sink: &mut K, pieces: &[MessagePiece<'_>]) -> Said
    ensures { Says K.written K.writes K.faults (pieces_text pieces.now) result sink.old sink.new }
{
    'saying: for piece in pieces {
        say_piece(sink, piece)?;
    }
    Ok(())
}
