//! The state of reading an ear list.
ghost use Rattle.std.specs.Prelude.{◌≡◌, IfOk, map, option_map};
ghost use Rattle.ear_core.specs.Common.{ear_of, step_of};
ghost use Rattle.ear_text.specs.EarFormat.{closed, paired};

use ear_core::{Ear, Step, Steps};
use std::alloc::AllocError as Memory;

/// What has been read so far.
#[derive(Drop)]
pub enum EarsRead {
    /// The header.
    Headed,
    /// The header and the line of the first stage.
    Started {
        start: u32,
        steps: Steps,
        /// The first ear of a step, which a second one may follow.
        last: Option<Ear>,
    },
}

/// The steps; if an ear is pending, the last step has that one ear.
pub fn close_last(steps: Steps, last: Option<Ear>) -> Result<Steps, Memory>
    ensures { IfOk result
        (λ all. map step_of all ≡ closed (map step_of steps) (option_map ear_of last)) }
{
    let mut all = steps;
    if let Some(first) = last {
        all.push(Step {
            first,
            second: None,
        })?;
    }
    Ok(all)
}

/// The steps, the last of which has the pending ear and this one.
pub fn pair_last(steps: Steps, last: Option<Ear>, other: Ear) -> Result<Steps, Memory>
    ensures { IfOk result
        (λ all. map step_of all ≡
        paired (map step_of steps) (option_map ear_of last) (ear_of other)) }
{
    let mut all = steps;
    if let Some(first) = last {
        all.push(Step {
            first,
            second: Some(other),
        })?;
    }
    Ok(all)
}
