//! Why a file could not be read, in words.
ghost use Rattle.std.specs.Prelude.{◌≡◌};
ghost use Rattle.front_words.specs.Reasons.{reason_words};

use crate::texts;
use outside::FailureReason;

/// Why a file could not be read. Takes no memory.
pub fn reason_words(reason: Option<FailureReason>) -> &'static str
    ensures { result.now ≡ reason_words reason }
{
    match reason {
        Some(FailureReason::Absent) => texts::READ_ABSENT,
        Some(FailureReason::Dangling) => texts::READ_DANGLING,
        Some(FailureReason::Folder) => texts::READ_FOLDER,
        Some(FailureReason::NotInFolder) => texts::READ_NOT_IN_FOLDER,
        Some(FailureReason::Forbidden) => texts::READ_FORBIDDEN,
        Some(FailureReason::LongName) => texts::READ_LONG_NAME,
        Some(FailureReason::LinkLoop) => texts::READ_LINK_LOOP,
        Some(FailureReason::Socket) => texts::READ_SOCKET,
        Some(FailureReason::ManyOpen) => texts::READ_MANY_OPEN,
        Some(FailureReason::NoMemory) => texts::READ_NO_MEMORY,
        Some(FailureReason::Other) | None => texts::READ_OTHER,
    }
}
