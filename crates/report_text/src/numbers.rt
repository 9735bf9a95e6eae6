//! Lists of numbers in a report.
ghost use Rattle.std.specs.Prelude.{◌≡◌, ◌++◌, OnOk, string_bytes};
ghost use Rattle.report_text.specs.Common.{list_line, numbers_text};

use graph_core::Numbers;
use graph_core::vset_core::VSet;
use std::alloc::AllocError as Memory;

/// Appends each number with one space before it.
pub fn push_numbers(text: &mut String, numbers: &[u32]) -> Result<(), Memory>
    ensures { OnOk result
        (string_bytes text.new ≡ string_bytes text.old ++ numbers_text numbers.now) }
{
    let mut rest = numbers;
    'writing: while let Some((number, others)) = rest.split_first() {
        write!(text, " {number}")?;
        rest = others;
    }
    Ok(())
}

/// Appends each number of the set with one space before it, in increasing order.
pub fn push_set(text: &mut String, set: VSet) -> Result<(), Memory>
    ensures { OnOk result (string_bytes text.new ≡ string_bytes text.old ++ numbers_text set) }
{
    let mut rest = set;
    'writing: while let Some((number, others)) = rest.split_first() {
        write!(text, " {number}")?;
        rest = others;
    }
    Ok(())
}

/// Appends a line of the word and the set.
pub fn push_set_line(text: &mut String, word: &str, set: VSet) -> Result<(), Memory>
    ensures { OnOk result
        (string_bytes text.new ≡ string_bytes text.old ++ list_line word.now set) }
{
    write!(text, "{word}")?;
    push_set(text, set)?;
    write!(text, "\n")
}

/// Appends a line of the word and the numbers.
pub fn push_numbers_line(text: &mut String, word: &str, numbers: &Numbers) -> Result<(), Memory>
    ensures { OnOk result
        (string_bytes text.new ≡ string_bytes text.old ++ list_line word.now numbers.now) }
{
    write!(text, "{word}")?;
    push_numbers(text, numbers.as_slice())?;
    write!(text, "\n")
}
