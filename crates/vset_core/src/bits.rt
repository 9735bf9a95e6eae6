//! Words of one bit, and a word as two halves.
//!
//! A shift of 128 bits by a number that varies takes a processor several steps, so the words of one
//! bit are in a table. The lowest bit of a word is looked for in its low half first; the sets of a
//! graph with at most 64 vertices have no other.
ghost use Rattle.std.specs.Prelude.{◌≡◌, ◌+◌, ◌-◌, ◌*◌, ◌^◌};
ghost use Rattle.counting.specs.Common.{Within};

use crate::vertex_set::MOST_VERTICES;

// The words of one bit for eight places from each of these on.
macro_rules! eights_from {
    ($($k:literal),*) => {
        [$(
            1 << $k,
            1 << ($k + 1),
            1 << ($k + 2),
            1 << ($k + 3),
            1 << ($k + 4),
            1 << ($k + 5),
            1 << ($k + 6),
            1 << ($k + 7)
        ),*]
    };
}

/// The number of words of 64 bits.
pub(crate) const TWO_TO_64: u128 = 1 << 64;

// The words of one bit, by its place.
static BITS: [u128; 128] = eights_from!(
    0, 8, 16, 24, 32, 40, 48, 56, 64, 72, 80, 88, 96, 104, 112, 120
);

/// The word with the bit of `v` alone.
pub(crate) fn bit(v: u32) -> u128
    requires { Within MOST_VERTICES v }
    ensures { result ≡ 2 ^ (v - 1) }
{
    BITS[v as usize - 1]
}

/// The word with these halves.
pub(crate) fn joined(high: u64, low: u64) -> u128
    ensures { result ≡ high * 2 ^ 64 + low }
{
    high as u128 * TWO_TO_64 + low as u128
}
