//! Why a call failed that opens or reads a file.

use crate::FailureReason;
use std::fs;
use std::io::{Error, ErrorKind};
use std::rt::Files;

// The numbers of system errors that have no kind: a socket is opened as a file, and the system, or
// a process, has too many files open.
const NO_SUCH_DEVICE: i32 = 6;

const ALL_OPEN: i32 = 23;

const MOST_OPEN: i32 = 24;

// The reason for a system error of this number, which has no kind.
fn reason_of_number(number: i32) -> FailureReason {
    if number == NO_SUCH_DEVICE {
        FailureReason::Socket
    } else if number == ALL_OPEN || number == MOST_OPEN {
        FailureReason::ManyOpen
    } else {
        FailureReason::Other
    }
}

/// Why a call failed that opens or reads a file.
pub(crate) fn reason_of(error: &Error) -> FailureReason {
    match error.kind() {
        ErrorKind::NotFound => FailureReason::Absent,
        ErrorKind::IsADirectory => FailureReason::Folder,
        ErrorKind::NotADirectory => FailureReason::NotInFolder,
        ErrorKind::PermissionDenied => FailureReason::Forbidden,
        ErrorKind::InvalidFilename => FailureReason::LongName,
        ErrorKind::FilesystemLoop => FailureReason::LinkLoop,
        ErrorKind::OutOfMemory => FailureReason::NoMemory,
        _ => reason_of_number(error.raw_os_error().unwrap_or(0)),
    }
}

// Whether a link has that name.
fn is_link<R: Files>(runtime: &R, name: &str) -> bool {
    match fs::symlink_metadata(runtime, name) {
        Ok(metadata) => metadata.is_symlink(),
        Err(_) => false,
    }
}

/// Why the file of that name was not opened. The error is the same for a name that is not there and
/// for a link that leads nowhere, so this alone is looked up after the failed call: `Dangling` if a
/// link has that name.
pub(crate) fn reason_unopened<R: Files>(runtime: &R, name: &str, error: &Error) -> FailureReason {
    match reason_of(error) {
        FailureReason::Absent if is_link(runtime, name) => FailureReason::Dangling,
        reason => reason,
    }
}
