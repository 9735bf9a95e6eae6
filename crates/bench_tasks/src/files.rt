//! A file of a command.
use refusals::FileKind;

/// A file of a command.
#[derive(Clone, Copy, Debug, Drop)]
pub struct CommandFile<'a> {
    /// Its name.
    pub name: &'a str,
    /// What it is read as.
    pub kind: FileKind,
}
