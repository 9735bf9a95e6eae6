//! The two programs.
ghost use Rattle.std.specs.Prelude.{◌≡◌, map};
ghost use Rattle.std.specs.Option.{option_map};
ghost use Rattle.command_table.specs.RowsSeen.{row_seen};
ghost use Rattle.front_words.specs.Programs.{command_page, name_of, program_rows, program_usage, version_of};

use crate::table::{list_version, version};
use command_table::{Row, all_list_rows, all_rows, list_page, list_usage, page, usage};

/// One of the two programs.
#[derive(Clone, Copy)]
pub enum Program {
    /// The program for files.
    Mcg,
    /// The program for lists.
    Mcg6,
}

impl Program {
    /// Its name.
    pub fn name(self) -> &'static str
        ensures { result.now ≡ name_of self }
    {
        match self {
            Program::Mcg => "mcg",
            Program::Mcg6 => "mcg6",
        }
    }

    /// The rows of its table.
    pub fn rows(self) -> &'static [Row]
        ensures { map row_seen result.now ≡ program_rows self }
    {
        match self {
            Program::Mcg => all_rows(),
            Program::Mcg6 => all_list_rows(),
        }
    }

    /// Its usage.
    pub fn usage(self) -> &'static str
        ensures { result.now ≡ program_usage self }
    {
        match self {
            Program::Mcg => usage(),
            Program::Mcg6 => list_usage(),
        }
    }

    /// Its version.
    pub fn version(self) -> &'static str
        ensures { result.now ≡ version_of self }
    {
        match self {
            Program::Mcg => version(),
            Program::Mcg6 => list_version(),
        }
    }

    /// The page of one of its commands.
    pub fn page(self, command: &str) -> Option<&'static str>
        ensures { option_map (λ text. text.now) result ≡ command_page self command.now }
    {
        match self {
            Program::Mcg => page(command),
            Program::Mcg6 => list_page(command),
        }
    }
}
