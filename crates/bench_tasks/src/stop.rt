//! Why loading stops, and what the loader knows of the file that stopped it.

use crate::files::CommandFile;
use graph_core::line_text::FaultKind;
use outside::FailureReason;

/// A file that could not be read.
#[derive(Clone, Copy, Debug, Drop)]
pub struct UnreadFile<'a> {
    /// The file.
    pub file: CommandFile<'a>,
    /// Why the read failed, if the shelf knows.
    pub reason: Option<FailureReason>,
}

/// A file that is too long or outside its format.
#[derive(Debug, Drop)]
pub struct FaultyFile<'a> {
    /// The file.
    pub file: CommandFile<'a>,
    /// Its bytes; none if it is too long.
    pub bytes: Option<Vec<u8>>,
    /// The numbers of the vertices and of the edges of the graph that it is for, if it is for one.
    pub sizes: Option<(u32, u32)>,
}

/// Why the files of a command were not loaded.
#[derive(Debug, Drop)]
pub enum LoadStop<'a> {
    /// A file could not be read: its place among the named files, and what is known of it.
    ReadFault {
        file: u32,
        unread: UnreadFile<'a>,
    },
    /// A file is too long or outside its format: its place among the named files, the line and
    /// the kind of its first fault, and what is known of it.
    Bad {
        file: u32,
        line: u32,
        kind: FaultKind,
        found: FaultyFile<'a>,
    },
    /// Memory ran out.
    Memory,
}
