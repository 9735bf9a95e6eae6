//! The checks of a body, in the order of its errors.
ghost use Rattle.std.specs.Prelude.{◌≡◌, ◌≤◌, ◌<◌, IsTrue, length, take, drop};
ghost use Rattle.std.specs.List.{list_all};
ghost use Rattle.graph6_text.specs.Common.{is_digit, Checks, is_long, order_of, data_len, pair_count, faults_of};

use crate::body::{LONG, data, is_long, order};
use crate::digits::{BITS, is_digit};
use graph_core::line_text::{FaultKind, TextFault};
use graph_core::vset_core::MOST_VERTICES;

/// The largest number of vertices that one digit writes.
pub const MOST_SHORT: u32 = 62;

/// An error of this kind in the only line of a text.
pub fn fault(kind: FaultKind) -> TextFault
    ensures { result ≡ TextFault.At 1 kind }
{
    TextFault::At { line: 1, kind }
}

/// The size and the length of the data are those of a graph.
pub fn check_body(body: &[u8]) -> Result<(), TextFault>
    ensures { Checks result (take 9 (faults_of body.now)) }
{
    check_bytes(body)?;
    check_size(body)?;
    check_length(body)
}

/// The body is not empty, has no line feed, and each of its bytes writes a digit.
#[tactic(auto, using(crate::proofs::ReadBack::no_line_feed))]
fn check_bytes(body: &[u8]) -> Result<(), TextFault>
    ensures { Checks result (take 3 (faults_of body.now)) }
{
    if body.is_empty() {
        return Err(fault(FaultKind::Missing));
    }
    // a line feed writes no digit
    if are_digits(body) {
        return Ok(());
    }
    if body.contains(&b'\n') {
        let kind = FaultKind::Extra;
        return Err(TextFault::At { line: 2, kind });
    }
    Err(fault(FaultKind::Range))
}

/// Whether each byte writes a digit.
fn are_digits(body: &[u8]) -> bool
    ensures { result ≡ list_all is_digit body.now }
{
    body.iter().all(|byte| is_digit(*byte))
}

/// The size is complete, in the form that is expected, and within the limit.
fn check_size(body: &[u8]) -> Result<(), TextFault>
    requires digits { IsTrue (list_all is_digit body.now) }
    requires some { 0 < length body.now }
    ensures { Checks result (take 4 (drop 3 (faults_of body.now))) }
{
    if is_long(body) {
        check_long(body)?;
    }
    if order(body) > MOST_VERTICES {
        return Err(fault(FaultKind::Limit));
    }
    Ok(())
}

/// A size in the long form has its three digits and is too large for the short form.
fn check_long(body: &[u8]) -> Result<(), TextFault>
    requires digits { IsTrue (list_all is_digit body.now) }
    requires some { 0 < length body.now }
    requires long { IsTrue (is_long body.now) }
    ensures { Checks result (take 3 (drop 3 (faults_of body.now))) }
{
    if body.len() < 4 {
        return Err(fault(FaultKind::Missing));
    }
    if body[1] == LONG {
        return Err(fault(FaultKind::Limit));
    }
    if order(body) <= MOST_SHORT {
        return Err(fault(FaultKind::LongForm));
    }
    Ok(())
}

/// The data have the length that the order requires.
fn check_length(body: &[u8]) -> Result<(), TextFault>
    requires digits { IsTrue (list_all is_digit body.now) }
    requires some { 0 < length body.now }
    requires whole { IsTrue (is_long body.now) → 4 ≤ length body.now }
    requires limit { order_of body.now ≤ MOST_VERTICES }
    ensures { Checks result (take 2 (drop 7 (faults_of body.now))) }
{
    let given = data(body).len();
    let due = data_len(order(body));
    if given < due {
        return Err(fault(FaultKind::Missing));
    }
    if given > due {
        return Err(fault(FaultKind::Extra));
    }
    Ok(())
}

/// The number of bytes that hold one bit for each pair of `n` vertices.
fn data_len(n: u32) -> usize
    requires { n ≤ MOST_VERTICES }
    ensures { result ≡ data_len n }
{
    (pair_count(n) + BITS - 1) / BITS
}

/// The number of pairs of `n` vertices: at most 128 * 127 / 2.
pub fn pair_count(n: u32) -> usize
    requires { n ≤ MOST_VERTICES }
    ensures value { result ≡ pair_count n }
    ensures bound { result ≤ 8128 }
{
    let n = n as usize;
    n * n.saturating_sub(1) / 2
}
