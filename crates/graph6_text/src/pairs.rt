//! Pairs of vertices, column by column.
ghost use Rattle.std.specs.Prelude.{◌≡◌, ◌≤◌, ◌++◌, ◌-◌, IfOk, OnOk, map};
ghost use Rattle.graph_core.specs.Common.{pair_of};
ghost use Rattle.graph6_text.specs.Common.{column, column_pairs};

use graph_core::Ends;
use std::alloc::{AllocError as Memory, Global};

/// The pairs of the vertices 1 to `n` by columns: (1, 2), (1, 3), (2, 3), (1, 4) and so on.
pub fn to_pairs(alloc: Global, n: u32) -> Result<Vec<Ends>, Memory>
    ensures { IfOk result (λ pairs. map pair_of pairs.items ≡ column_pairs n) }
{
    let most = (n as usize).saturating_mul(n as usize) / 2;
    let mut pairs = Vec::with_capacity(alloc, most)?;
    for b in 1..=n {
        push_column(&mut pairs, b)?;
    }
    Ok(pairs)
}

/// Appends the pairs whose second vertex is `b`.
fn push_column(pairs: &mut Vec<Ends>, b: u32) -> Result<(), Memory>
    requires { 1 ≤ b }
    ensures { OnOk result
        (map pair_of pairs.new.items ≡ map pair_of pairs.old.items ++ column (b - 1) b) }
{
    for a in 1..b {
        pairs.push(Ends { a, b })?;
    }
    Ok(())
}
