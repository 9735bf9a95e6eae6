//! The statuses of a run.
ghost use Rattle.std.specs.Prelude.{◌≡◌};
ghost use Rattle.bench_outcomes.specs.Common.{code_of};

/// How a run ended.
#[derive(Clone, Copy, Debug, PartialEq, Eq)]
pub enum Status {
    /// The whole report was written, and no other status applies.
    Done,
    /// The report says that the graph is not matching covered, that a tree or a list is not what
    /// it claims to be, or that a move fails.
    Negative,
    /// Unknown command, or wrong number of arguments; nothing was read or written.
    Usage,
    /// A file could not be read; nothing was written.
    ReadFault,
    /// A file is too long or outside its format; the report is one line.
    BadInput,
    /// The output could not be written completely; a part of it may have been.
    WriteFault,
    /// Memory ran out; nothing was written.
    Memory,
}

impl Status {
    /// The exit status of the program. Takes no memory.
    pub fn code(self) -> u8
        ensures { result ≡ code_of self }
    {
        self as u8
    }
}
