//! Whether words for a person are turned off.

use std::env;
use std::rt::Env;

/// Whether words for a person are turned off, which `MCG_QUIET=1` in the environment does.
pub fn is_quiet<R: Env + AllocGlobal>(rt: &R) -> bool {
    match env::var(rt, "MCG_QUIET") {
        Ok(value) => value.as_str() == "1",
        Err(_) => false,
    }
}
