//! The cuts that the classes of a covered graph give.
ghost use Rattle.std.specs.Prelude.{◌≡◌, fold, slice_get, IfOk, OnOk};
ghost use Rattle.graph_core.specs.from_counting.Common.{mem};
ghost use Rattle.graph_core.specs.Common.{with_cut, classes, components, IsCovered};
ghost use Rattle.barrier_kit.specs.Common.{barrier_cuts};

use crate::canonical_partition::classes_of;
use graph_core::vset_core::VSet;
use graph_core::{MultiGraph, SetList, add_cuts};
use graph_facts::Covered;
use std::alloc::{AllocError as Memory, Global};

// Appends the cuts that a class gives.
fn add_class_cuts(alloc: Global, c: &Covered, class: VSet, cuts: &mut SetList) -> Result<(), Memory>
    ensures { OnOk result
        (cuts.new ≡ fold (with_cut c.now.order) cuts.old (components c.now (mem class))) }
{
    let parts = c.graph().components_without(alloc, class)?;
    add_cuts(cuts, c.order(), &parts)
}

/// The nontrivial cuts that the classes of a covered graph give: ∂(V(K)) for each class B and each
/// component K of G - B. Each cut is listed once, by its canonical shore, and is tight (Edmonds,
/// Lovász and Pulleyblank 1982). Costs what `Covered::of` costs, and O(n^2) further steps; the only
/// error is `Memory`.
pub fn barrier_cuts(alloc: Global, g: &MultiGraph) -> Result<SetList, Memory>
    requires { IsCovered g.now }
    ensures { IfOk result (λ cuts. cuts ≡ barrier_cuts g.now) }
{
    barrier_cuts_of(alloc, &Covered::known(alloc, g)?)
}

/// The cuts that `barrier_cuts` lists, of a `Covered`. Takes one search for components per class,
/// O(n^2) steps on words; the only error is `Memory`.
pub fn barrier_cuts_of(alloc: Global, c: &Covered) -> Result<SetList, Memory>
    ensures { IfOk result (λ cuts. cuts ≡ barrier_cuts c.now) }
{
    let mut cuts = SetList::new(alloc);
    let list = classes_of(alloc, c)?;
    for class in list.as_slice() {
        add_class_cuts(alloc, c, *class, &mut cuts)?;
    }
    Ok(cuts)
}

/// The first of the cuts that `barrier_cuts` lists. The search stops there. Takes O(n^2) steps on
/// words at most; the only error is `Memory`.
pub fn first_barrier_cut(alloc: Global, c: &Covered) -> Result<Option<VSet>, Memory>
    ensures { IfOk result (λ cut. cut ≡ slice_get (barrier_cuts c.now) 0) }
{
    first_barrier_cut_from(alloc, c, &classes_of(alloc, c)?)
}

/// What `first_barrier_cut` returns, from the classes of the graph. Takes O(n^2) steps on words at
/// most; the only error is `Memory`.
pub fn first_barrier_cut_from(
    alloc: Global,
    c: &Covered,
    list: &SetList,
) -> Result<Option<VSet>, Memory>
    requires { list.now ≡ classes c.now }
    ensures { IfOk result (λ cut. cut ≡ slice_get (barrier_cuts c.now) 0) }
{
    let mut cuts = SetList::new(alloc);
    for class in list.as_slice() {
        add_class_cuts(alloc, c, *class, &mut cuts)?;
        if !cuts.is_empty() {
            return Ok(Some(cuts.get(0)));
        }
    }
    Ok(None)
}
