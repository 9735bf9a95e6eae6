//! Cuts by their shores: whether an edge is in one, canonical shores, and lists of cuts.
ghost use Rattle.std.specs.Prelude.{◌≡◌, ◌≤◌, fold, OnOk, OnErr};
ghost use Rattle.vset_core.specs.from_counting.Common.{Within, mem, IsRisingIn};
ghost use Rattle.graph_core.specs.Common.{canonical_list, is_listed, with_cut, in_cut, size, is_nontrivial};

use crate::{MultiGraph, SetList};
use std::alloc::AllocError as Memory;
use vset_core::{MOST_VERTICES, VSet};

/// Whether an edge is in the cut of a shore. Takes no memory.
pub fn is_in_cut(g: &MultiGraph, shore: VSet, e: u32) -> bool
    requires { Within (size g.now) e }
    ensures { result ≡ in_cut g.now (mem shore) e }
{
    g.keeps_limits();
    let ends = g.ends(e);
    let first = shore.contains(ends.a);
    let second = shore.contains(ends.b);
    (first && !second) || (!first && second)
}

/// The canonical shore of ∂(`shore`), a set of the vertices 1 to `n`: the shore that does not
/// contain the vertex `n`.
pub fn canonical_shore(n: u32, shore: VSet) -> VSet
    requires { Within MOST_VERTICES n }
    ensures { result ≡ canonical_list n shore }
{
    let all = VSet::full(n);
    let shore = if shore.contains(n) {
        all.minus(shore)
    } else {
        all.meet(shore)
    };
    shore.rises();
    shore
}

/// Whether ∂(`shore`) is nontrivial: at least three of the vertices 1 to `n` are inside, and at
/// least three outside.
pub fn is_nontrivial(n: u32, shore: VSet) -> bool
    requires vertices { n ≤ MOST_VERTICES }
    requires set { IsRisingIn n shore }
    ensures { result ≡ is_nontrivial n (mem shore) }
{
    let inside = shore.len();
    inside >= 3 && n - inside >= 3
}

// Whether the shore is in the list.
fn holds(cuts: &[VSet], shore: VSet) -> bool
    ensures { result ≡ is_listed cuts.now shore }
{
    cuts.iter()
        .any(|cut| shore.is_subset(*cut) && cut.is_subset(shore))
}

/// Appends ∂(`shore`) by its canonical shore, the one without the highest-numbered vertex `n`. The
/// cut is left out if a side has fewer than three vertices or the list has it already. Takes O(k)
/// time for k cuts in the list; the only error is `Memory`, and the list is then unchanged.
pub fn add_cut(cuts: &mut SetList, n: u32, shore: VSet) -> Result<(), Memory>
    requires { Within MOST_VERTICES n }
    ensures ok { OnOk result (cuts.new ≡ with_cut n cuts.old shore) }
    ensures err { OnErr result (cuts.new ≡ cuts.old) }
{
    let shore = canonical_shore(n, shore);
    if is_nontrivial(n, shore) && !holds(cuts.as_slice(), shore) {
        cuts.push(shore)?;
    }
    Ok(())
}

/// Appends the cuts of all the shores in order, as `add_cut` does. Takes O(k) time for each shore,
/// if the list then has k cuts; the only error is `Memory`, and the cuts of some first shores may
/// then be in the list.
pub fn add_cuts(cuts: &mut SetList, n: u32, shores: &SetList) -> Result<(), Memory>
    requires { Within MOST_VERTICES n }
    ensures { OnOk result (cuts.new ≡ fold (with_cut n) cuts.old shores.now) }
{
    for shore in shores.as_slice() {
        add_cut(cuts, n, *shore)?;
    }
    Ok(())
}
