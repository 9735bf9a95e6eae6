//! The words that a program answers at once.
ghost use Rattle.std.specs.Prelude.{◌≡◌, map, string_bytes};
ghost use Rattle.std.specs.Option.{option_map};
ghost use Rattle.front_words.specs.Answers.{Answers, answer_of, is_help, pair_answer, word_answer};

use crate::programs::Program;
use crate::showing::say_bytes;
use outside::Sink;

/// Whether the word asks for help. Takes no memory.
pub fn is_help(word: &str) -> bool
    ensures { result ≡ is_help word.now }
{
    word == "--help" || (word == "-h" || word == "help")
}

// What the word is answered at once, if it is.
fn word_answer(program: Program, word: &str) -> Option<&'static str>
    ensures { option_map (λ text. text.now) result ≡ word_answer program word.now }
{
    if is_help(word) {
        Some(program.usage())
    } else if word == "--version" {
        Some(program.version())
    } else {
        None
    }
}

// What two words are answered at once, if they are: the page of a command.
fn pair_answer(program: Program, word: &str, next: &str) -> Option<&'static str>
    ensures { option_map (λ text. text.now) result ≡ pair_answer program word.now next.now }
{
    if is_help(word) {
        program.page(next)
    } else if next == "--help" {
        program.page(word)
    } else {
        None
    }
}

/// What the program answers these words at once, if it does. Takes no memory.
pub fn answer_of(program: Program, words: &[String]) -> Option<&'static str>
    ensures { option_map (λ text. text.now) result ≡ answer_of program (map string_bytes words.now) }
{
    match words {
        [word] => word_answer(program, word.as_str()),
        [word, next] => pair_answer(program, word.as_str(), next.as_str()),
        _ => None,
    }
}

/// Writes the text as the whole answer. Returns the first of these two endings if it was written
/// whole, and else the second. Takes no memory.
pub fn answer<K: Sink, E: Copy>(text: &str, sink: &mut K, done: E, unwritten: E) -> E
    requires { done ≡ unwritten → ⊥ }
    ensures { Answers K.written K.writes K.faults done unwritten text.now result sink.old sink.new }
{
    match say_bytes(sink, text.as_bytes()) {
        Ok(()) => done,
        Err(_) => unwritten,
    }
}
