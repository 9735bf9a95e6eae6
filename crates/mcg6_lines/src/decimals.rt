//! Numbers in decimal, one and several.
ghost use Rattle.std.specs.Prelude.{◌≡◌, ◌++◌, OnOk, codes};
ghost use Rattle.std.specs.Fmt.{decimal};
ghost use Rattle.report_text.specs.Common.{numbers_text};

use graph_core::vset_core::VSet;
use std::alloc::AllocError as Memory;

/// Appends a number in decimal, digit by digit: a formatter takes longer.
pub fn push_decimal(text: &mut Vec<u8>, n: u64) -> Result<(), Memory>
    ensures { OnOk result (text.new.items ≡ text.old.items ++ decimal n) }
{
    if n >= 10 {
        push_decimal(text, n / 10)?;
    }
    text.push(b'0' + (n % 10) as u8)?;
    Ok(())
}

/// Appends a space and a number in decimal.
pub fn push_number(text: &mut Vec<u8>, n: u32) -> Result<(), Memory>
    ensures { OnOk result (text.new.items ≡ text.old.items ++ codes " " ++ decimal n) }
{
    text.push(b' ')?;
    push_decimal(text, u64::from(n))
}

/// Appends the vertices, each after a space, in increasing order.
pub fn push_vertices(lines: &mut Vec<u8>, part: VSet) -> Result<(), Memory>
    ensures { OnOk result (lines.new.items ≡ lines.old.items ++ numbers_text part) }
{
    let mut rest = part;
    'writing: while let Some((vertex, others)) = rest.split_first() {
        push_number(lines, vertex)?;
        rest = others;
    }
    Ok(())
}
