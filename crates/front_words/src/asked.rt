//! Words that ask for help or for the version, and for more.
ghost use Rattle.std.specs.Prelude.{◌≡◌, map, string_bytes};
ghost use Rattle.std.specs.Option.{option_map};
ghost use Rattle.front_words.specs.Saying.{Says};
ghost use Rattle.front_words.specs.Unmatched.{asks_twice, help_beyond, help_text, twice_text, version_beyond, version_text};

use crate::answers::is_help;
use crate::pieces::MessagePiece::{Shown, Text};
use crate::pieces::{Said, say};
use crate::texts;
use crate::unmatched::MOST_OF_COMMAND;
use outside::Sink;

/// The word that asks for help on more than one command, if one does. Takes no memory.
pub fn help_beyond(words: &[String]) -> Option<&str>
    ensures { option_map (λ word. word.now) result ≡ help_beyond (map string_bytes words.now) }
{
    match words {
        [] => None,
        [_] => None,
        [_, _] => None,
        [word, _, _, ..] => {
            if is_help(word.as_str()) {
                Some(word.as_str())
            } else {
                None
            }
        }
    }
}

/// Says that there are too many words behind the one that asks for help. Takes no memory.
pub fn say_help<'a, K: Sink>(sink: &mut K, program: &'a str, word: &'a str) -> Said
    ensures { Says K.written K.writes K.faults (help_text program.now word.now) result sink.old
        sink.new }
{
    say(
        sink,
        &[
            Text(program),
            Text(texts::TOO_MANY),
            Shown(word.as_bytes(), MOST_OF_COMMAND),
            Text(texts::ONE_COMMAND),
            Text("\n"),
        ],
    )
}

/// The word that asks for the version, if there are more words. Takes no memory.
pub fn version_beyond(words: &[String]) -> Option<&str>
    ensures { option_map (λ word. word.now) result ≡ version_beyond (map string_bytes words.now) }
{
    match words {
        [] => None,
        [_] => None,
        [word, _, ..] => {
            if word.as_str() == "--version" {
                Some(word.as_str())
            } else {
                None
            }
        }
    }
}

/// Says that there are words behind the one that asks for the version. Takes no memory.
pub fn say_version<'a, K: Sink>(sink: &mut K, program: &'a str, word: &'a str) -> Said
    ensures { Says K.written K.writes K.faults (version_text program.now word.now) result sink.old
        sink.new }
{
    say(
        sink,
        &[
            Text(program),
            Text(texts::TOO_MANY),
            Shown(word.as_bytes(), MOST_OF_COMMAND),
            Text("\n"),
        ],
    )
}

/// Whether two words both ask for help. Takes no memory.
pub fn asks_twice(words: &[String]) -> bool
    ensures { result ≡ asks_twice (map string_bytes words.now) }
{
    match words {
        [word, next] => is_help(word.as_str()) && is_help(next.as_str()),
        _ => false,
    }
}

/// Says that help is no command to ask for help on. Takes no memory.
pub fn say_twice<'a, K: Sink>(sink: &mut K, program: &'a str) -> Said
    ensures { Says K.written K.writes K.faults (twice_text program.now) result sink.old sink.new }
{
    let by = Text(program);
    say(
        sink,
        &[
            by,
            Text(texts::HELP_TAKES),
            by,
            Text(texts::HELP_LISTS),
            Text("\n"),
        ],
    )
}
