//! Pairs of vertices in lexicographic order.
ghost use Rattle.std.specs.Prelude.{◌≡◌, ◌≤◌, ◌++◌, map, nat_lt, IfOk, OnOk};
ghost use Rattle.graph_core.specs.from_counting.Common.{Within, pair_with, rising_list, rising_pairs};
ghost use Rattle.graph_core.specs.Common.{pair_of};

use graph_core::Ends;
use graph_core::vset_core::MOST_VERTICES;
use std::alloc::{AllocError as Memory, Global};

/// Two vertices, `a` < `b`.
pub type Pair = Ends;

// Appends the pairs of a with the larger numbers up to n.
fn push_pairs(pairs: &mut Vec<Ends>, n: u32, a: u32) -> Result<(), Memory>
    requires few { n ≤ MOST_VERTICES }
    requires first { Within n a }
    ensures { OnOk result
        (map pair_of pairs.new.items ≡ map pair_of pairs.old.items ++
        map (pair_with a) (rising_list n (nat_lt a))) }
{
    for k in a..n {
        pairs.push(Ends { a, b: k + 1 })?;
    }
    Ok(())
}

/// The pairs of the numbers 1 to `n`, in lexicographic order. Takes O(n^2) time; the only error is
/// `Memory`.
pub fn all_pairs(alloc: Global, n: u32) -> Result<Vec<Ends>, Memory>
    requires { n ≤ MOST_VERTICES }
    ensures { IfOk result (λ pairs. map pair_of pairs.items ≡ rising_pairs n) }
{
    let mut pairs = Vec::with_capacity(alloc, (n * n / 2) as usize)?;
    for i in 0..n {
        push_pairs(&mut pairs, n, i + 1)?;
    }
    Ok(pairs)
}
