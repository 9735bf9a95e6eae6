//! What the words ask for.
use mcg6_lines::Query;

/// What is done at a bad line of a list.
#[derive(Clone, Copy, Debug, PartialEq, Eq)]
pub enum AtBadLine {
    /// The list ends there.
    Stop,
    /// The list goes on after it; nothing is written of it, and it is reported.
    Skip,
}

/// What is asked of each graph of a list, what is done at a bad line, and the name of the file that
/// holds the list; with none it is the standard input.
#[derive(Clone, Copy)]
pub struct ListCommand<'a> {
    pub query: Query,
    pub at_bad: AtBadLine,
    pub file: Option<&'a str>,
}

/// What the words ask for.
#[derive(Clone, Copy)]
pub enum Mcg6Command<'a> {
    /// Something of each graph of a list.
    Answer { list: ListCommand<'a> },
    /// The graph6 text of the graph in the file of that name.
    Encode { file: &'a str },
}
