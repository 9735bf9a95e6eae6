//! Digits of six bits, and the bytes that write them.
ghost use Rattle.std.specs.Prelude.{◌≡◌, ◌≤◌, ◌<◌, ◌*◌, ◌++◌, length, slice_get, OnOk, IsTrue, Some};
ghost use Rattle.std.specs.List.{list_all};
ghost use Rattle.graph6_text.specs.Common.{is_digit, digit_of_bits, bits_of, bytes_of};

use std::alloc::AllocError as Memory;

/// The byte that writes the digit 0.
pub const ZERO: u8 = 63;

/// The byte that writes the largest digit.
const LAST: u8 = 126;

/// How many bits a digit has.
pub const BITS: usize = 6;

/// How many digits there are.
pub const BASE: u32 = 64;

/// The values of the bits of a digit, the most significant first.
const WEIGHTS: [u8; BITS] = [32, 16, 8, 4, 2, 1];

/// Whether a byte writes a digit.
pub fn is_digit(byte: u8) -> bool
    ensures { result ≡ is_digit byte }
{
    ZERO <= byte && byte <= LAST
}

/// Bit `k` of those that bytes write, six in each, counted from 0.
pub fn is_set(bytes: &[u8], k: usize) -> bool
    requires digits { IsTrue (list_all is_digit bytes.now) }
    requires within { k < 6 * length bytes.now }
    ensures { slice_get (bits_of bytes.now) k ≡ Some result }
{
    let digit = bytes[k / BITS] - ZERO;
    (digit >> (BITS - 1 - k % BITS)) % 2 == 1
}

/// Appends the bytes that write these bits, six in each, the last padded with zeros.
pub fn push_bytes(text: &mut Vec<u8>, bits: &[bool]) -> Result<(), Memory>
    ensures { OnOk result (text.new.items ≡ text.old.items ++ bytes_of bits.now) }
{
    for six in bits.chunks(BITS) {
        text.push(to_digit(six) + ZERO)?;
    }
    Ok(())
}

/// The digit that begins with these bits, padded with zeros.
fn to_digit(bits: &[bool]) -> u8
    requires { length bits.now ≤ BITS }
    ensures value { result ≡ digit_of_bits bits.now }
    ensures bound { result < BASE }
{
    let mut digit = 0;
    for (i, bit) in bits.iter().enumerate() {
        if *bit {
            digit += WEIGHTS[i];
        }
    }
    digit
}
