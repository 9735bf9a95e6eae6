//! What is said of a list that is not an ear decomposition.
ghost use Rattle.std.specs.Prelude.{◌≡◌};
ghost use Rattle.front_words.specs.RefusedEars.{at_step_text, ear_text, ears_place_text, refused_ears_text, step_fault_words};
ghost use Rattle.front_words.specs.Saying.{Says};

use crate::pieces::MessagePiece::{Number, Text};
use crate::pieces::{Said, say};
use crate::texts;
use outside::Sink;
use refusals::{EarFault, EarOfTwo, EarPlace};

// Which ear of a step, if the step has two.
fn ear_text(ear: Option<EarOfTwo>) -> &'static str
    ensures { result.now ≡ ear_text ear }
{
    match ear {
        None => "",
        Some(EarOfTwo::First) => texts::FIRST_EAR,
        Some(EarOfTwo::Second) => texts::SECOND_EAR,
    }
}

// Says that a list is not an ear decomposition, and in which step.
fn say_at_step<K: Sink>(sink: &mut K, program: &str, step: u32, place: EarPlace) -> Said
    ensures { Says K.written K.writes K.faults (at_step_text program.now step place) result sink.old
        sink.new }
{
    let by = Text(program);
    let what = Text(texts::EARS_AT);
    let step = Number(step as u64);
    let ear = Text(ear_text(place.ear));
    let end = Text(": ");
    match place.edge {
        None => say(sink, &[by, what, step, ear, end]),
        Some(edge) => {
            let at = Text(texts::AT_EDGE);
            say(sink, &[by, what, step, ear, at, Number(edge as u64), end])
        }
    }
}

// The same, or before the first step if the list has none.
fn say_ears_place<K: Sink>(sink: &mut K, program: &str, step: u32, place: EarPlace) -> Said
    ensures { Says K.written K.writes K.faults (ears_place_text program.now step place) result
        sink.old sink.new }
{
    let start = texts::EARS_BEFORE;
    if step == 0 {
        say(sink, &[Text(program), Text(start)])
    } else {
        say_at_step(sink, program, step, place)
    }
}

// Says what is wrong with a step, and what would be right.
fn say_step_fault<K: Sink>(sink: &mut K, fault: EarFault) -> Said
    ensures { Says K.written K.writes K.faults (step_fault_words fault) result sink.old sink.new }
{
    let end = Text("\n");
    match fault {
        EarFault::NotPath => say(sink, &[Text(texts::EAR_NOT_PATH), end]),
        EarFault::EvenLength => say(sink, &[Text(texts::EAR_EVEN), end]),
        EarFault::BadEnds => say(sink, &[Text(texts::EAR_BAD_ENDS), end]),
        EarFault::InnerOnStage => say(sink, &[Text(texts::EAR_INNER), end]),
        EarFault::EdgeUsed => say(sink, &[Text(texts::EAR_USED), end]),
        EarFault::StageNotCovered { edge } => say(
            sink,
            &[
                Text(texts::STAGE_EDGE),
                Number(edge as u64),
                Text(texts::STAGE_EDGE_END),
                end,
            ],
        ),
        EarFault::EndsEarly { edge } => say(
            sink,
            &[
                Text(texts::LEFT_EDGE),
                Number(edge as u64),
                Text(texts::LEFT_EDGE_END),
                end,
            ],
        ),
    }
}

/// Says that a list is not an ear decomposition, where and why. Takes no memory.
pub fn say_ears<K: Sink>(
    sink: &mut K,
    program: &str,
    step: u32,
    place: EarPlace,
    fault: EarFault,
) -> Said
    ensures { Says K.written K.writes K.faults (refused_ears_text program.now step place fault) result sink.old
        sink.new }
{
    say_ears_place(sink, program, step, place)?;
    say_step_fault(sink, fault)
}
