//! Writing an ear list.
ghost use Rattle.std.specs.Prelude.{◌≡◌, ◌≤◌, ◌++◌, [], ◌∷◌, OnOk, IfOk, map, string_bytes};
ghost use Rattle.std.specs.List.{AllByRecursion};
ghost use Rattle.graph_core.specs.from_line_text.Common.{Stands, StandsAlone, written};
ghost use Rattle.ear_core.specs.Common.{FitsEars, HasEdges, ear_of, step_of, ears_of};
ghost use Rattle.ear_text.specs.EarFormat.{ear_format};
ghost use Rattle.ear_text.specs.Writing.{ear_words, step_words, ears_text};

use ear_core::{Ear, EarList, Step};
use std::alloc::{AllocError as Memory, Global};

// The line of an ear.
fn push_ear(text: &mut String, keyword: &str, ear: &Ear) -> Result<(), Memory>
    ensures { OnOk result
        (string_bytes text.new ≡ string_bytes text.old ++
        written (ear_words keyword.now (ear_of ear.now) ∷ [])) }
{
    let from = ear.from;
    write!(text, "{keyword} {from}")?;
    let mut rest = ear.edges.as_slice();
    'edges: while let Some((e, others)) = rest.split_first() {
        write!(text, " {e}")?;
        rest = others;
    }
    write!(text, "\n")?;
    Ok(())
}

// The lines of a step.
#[tactic(auto, using(crate::proofs::TextSoFar::pair_lines))]
fn push_step(text: &mut String, step: &Step) -> Result<(), Memory>
    ensures { OnOk result
        (string_bytes text.new ≡ string_bytes text.old ++
        written (step_words (step_of step.now ∷ []))) }
{
    push_ear(text, "ear", &step.first)?;
    if let Some(second) = &step.second {
        push_ear(text, "with", second)?;
    }
    Ok(())
}

// The lines of the steps.
fn push_steps(text: &mut String, steps: &[Step]) -> Result<(), Memory>
    ensures { OnOk result
        (string_bytes text.new ≡ string_bytes text.old ++
        written (step_words (map step_of steps.now))) }
{
    let mut rest = steps;
    'steps: while let Some((step, others)) = rest.split_first() {
        push_step(text, step)?;
        rest = others;
    }
    Ok(())
}

/// Writes an ear list for a graph of `n` vertices and `m` edges whose numbers are in range and
/// whose ears are not empty: a header `r mcg N M`, a line `start E`, and for each step a line `ear
/// V E1 E2 ..`, and a line `with V E1 E2 ..` after it if the step has two ears.
///
/// Reading the text gives the same list, and nothing else. Takes O(b) time for b bytes written; the
/// only error is `Memory`.
pub fn write_ears(alloc: Global, list: &EarList, n: u32, m: u32) -> Result<Vec<u8>, Memory>
    requires order { n ≤ 999999999 }
    requires size { m ≤ 999999999 }
    requires fits { FitsEars n m (ears_of list.now) }
    requires filled { AllByRecursion HasEdges (ears_of list.now).steps }
    ensures text { IfOk result (λ text. text.items ≡ ears_text n m (ears_of list.now)) }
    ensures stands { IfOk result (λ text. Stands (ear_format n m) text.items (ears_of list.now)) }
    ensures alone { IfOk result (λ text. StandsAlone (ear_format n m) text.items) }
{
    let start = list.start;
    let mut text = format!(in alloc; "r mcg {n} {m}\nstart {start}\n")?;
    push_steps(&mut text, list.steps.as_slice())?;
    Ok(text.into_bytes())
}
