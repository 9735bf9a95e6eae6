//! Lists of signed numbers, as the amounts of a flow.
ghost use Rattle.std.specs.Prelude.{◌≡◌, IfOk, pos, replicate};

use listed::CopyList;
use std::alloc::{AllocError as Memory, Global};

/// A list of signed numbers, seen by contracts as a list of integers.
pub type SignedList = CopyList<i64>;

/// The list of `n` zeros.
pub(crate) fn zeros(alloc: Global, n: usize) -> Result<SignedList, Memory>
    ensures { IfOk result (λ list. list ≡ replicate n (pos 0)) }
{
    Ok(CopyList::from_items(vec![in alloc; 0; n]?))
}
