//! The place of a line in a list.
ghost use Rattle.std.specs.Prelude.{◌≡◌, ◌+◌, IfErr, IfOk};
ghost use Rattle.mcg6_reader.specs.Common.{is_header, is_header_line, first_place, place_after};
ghost use Rattle.mcg6_reader.specs.declared.ending.ListStop.TheVariants.{Memory};

use crate::ending::ListStop;

/// The place of a line in a list: its number, counted from 1, and how many lines before it are not
/// just the header.
#[derive(Clone, Copy, Debug, PartialEq, Eq)]
pub struct LinePlace {
    pub number: u64,
    pub graphs: u64,
}

/// The header, with a line end of each kind, and at the end of a list.
const HEADER_LINE: &[u8; 11] = b">>graph6<<\n";

const HEADER_RETURNED: &[u8; 12] = b">>graph6<<\r\n";

const HEADER: &[u8; 10] = b">>graph6<<";

// Whether the line is just the header.
fn is_header_line(line: &[u8]) -> bool
    ensures { result ≡ is_header_line line.now }
{
    line == HEADER_LINE.as_slice()
        || line == HEADER_RETURNED.as_slice()
        || line == HEADER.as_slice()
}

// Whether the line with that number is the first line and just the header.
pub fn is_header(number: u64, line: &[u8]) -> bool
    ensures { result ≡ is_header number line.now }
{
    number == 1 && is_header_line(line)
}

// The place of the first line.
pub fn first_place() -> LinePlace
    ensures { result ≡ first_place }
{
    LinePlace {
        number: 1,
        graphs: 0,
    }
}

// The place after the line at this place, if its number does not overflow.
#[tactic(auto, unfolding(crate::specs::Places::place_after))]
pub fn place_after(place: LinePlace, line: &[u8]) -> Result<LinePlace, ListStop>
    ensures next { IfOk result (λ next. next ≡ place_after place line.now) }
    ensures memory { IfErr result (λ stop. stop ≡ Memory) }
{
    let number = next_number(place.number)?;
    if is_header(place.number, line) {
        let graphs = place.graphs;
        return Ok(LinePlace { number, graphs });
    }
    let graphs = next_number(place.graphs)?;
    Ok(LinePlace { number, graphs })
}

// The next number, if it does not overflow.
fn next_number(number: u64) -> Result<u64, ListStop>
    ensures next { IfOk result (λ next. next ≡ number + 1) }
    ensures memory { IfErr result (λ stop. stop ≡ Memory) }
{
    match number.checked_add(1) {
        Some(next) => Ok(next),
        None => Err(ListStop::Memory),
    }
}
