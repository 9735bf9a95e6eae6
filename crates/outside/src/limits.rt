//! The limits on what is read.

/// The most bytes that a file may have.
pub const MOST_BYTES: usize = 1_048_576;

/// The most bytes that a line of a list may have.
pub const MOST_LINE: usize = 65536;
