//! The law of the table of commands, and one of what is said. Each is the contract of a function
//! that does nothing.
ghost use Rattle.std.specs.Prelude.{◌≡◌, ◌++◌, ℕ, List, is_some};
ghost use Rattle.bench_top.specs.from_outside.Common.{HasSaid, LineState};
ghost use Rattle.front_words.specs.Saying.{WritesWhole};
ghost use Rattle.bench_top.specs.from_bench_tasks.Common.{command_of};
ghost use Rattle.front_words.specs.from_command_table.Rows.{matches_a_row};
ghost use Rattle.front_words.specs.from_command_table.Table.{rows};

/// The rows of the table, of which the usage is made, are exactly the words that some command
/// matches.
pub fn table_law()
    ensures { (words : List (List ℕ)) → is_some (command_of words) ≡ matches_a_row rows words }
{}

/// What was said whole to a stream of lines is what the stream took of it, and then what it holds.
pub fn said_law()
    ensures { (text : List ℕ) (first last : LineState) → WritesWhole HasSaid text first last →
        last.printed ++ last.held ≡ (first.printed ++ first.held) ++ text }
{}
