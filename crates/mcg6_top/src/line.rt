//! A command line.
ghost use Rattle.std.specs.Prelude.{◌≡◌, map, string_bytes};
ghost use Rattle.std.specs.Option.{option_map};
ghost use Rattle.mcg6_top.specs.Common.{asked, command_of, file_named_by, text_of};

use crate::command::Mcg6Command;
use crate::plan::command_of;
use std::marker::Model;

/// The words after the name of the program, and what they ask for. Contracts see the words.
#[derive(Drop)]
pub struct CommandLine<'a> {
    words: &'a [String],
    command: Option<Mcg6Command<'a>>,
}

impl<'a> Model for CommandLine<'a> {
    ghost use Rattle.std.specs.Prelude.{◌≡◌, List, ℕ, map, string_bytes};
    ghost use Rattle.std.specs.Option.{option_map};
    ghost use Rattle.mcg6_top.specs.Common.{asked, command_of};

    ghost Value = { List (List ℕ) };

    ghost view = { λ line. map string_bytes line.words.now };

    ghost invariant = { λ line. option_map asked line.command ≡
        command_of (map string_bytes line.words.now) };
}

impl<'a> CommandLine<'a> {
    /// The command line with these words. Takes no memory.
    pub fn of(words: &'a [String]) -> CommandLine<'a>
        ensures { result ≡ map string_bytes words.now }
    {
        let command = command_of(words);
        CommandLine { words, command }
    }

    /// The words.
    pub fn words(&self) -> &'a [String]
        ensures { map string_bytes result.now ≡ self.now }
    {
        self.words
    }

    /// What the words ask for; `None` if and only if they match no row.
    pub fn command(&self) -> Option<Mcg6Command<'a>>
        ensures { option_map asked result ≡ command_of self.now }
    {
        self.command
    }

    /// The name of the file that the words ask for: of a graph file whose graph6 text they ask for,
    /// or of the file that holds the list.
    pub fn file(&self) -> Option<&'a str>
        ensures { text_of result ≡ file_named_by self.now }
    {
        match self.command {
            Some(Mcg6Command::Encode { file }) => Some(file),
            Some(Mcg6Command::Answer { list }) => list.file,
            None => None,
        }
    }
}
