//! The canonical partition of a covered graph into its classes.
ghost use Rattle.std.specs.Prelude.{◌≡◌, IfOk};
ghost use Rattle.graph_core.specs.from_counting.Common.{Within, rising_list};
ghost use Rattle.graph_core.specs.Common.{IsCovered, classes, is_equivalent};

use graph_core::vset_core::VSet;
use graph_core::{MultiGraph, SetList};
use graph_facts::Covered;
use std::alloc::{AllocError as Memory, Global};

/// The canonical partition of a covered graph: its classes by least vertex. Two vertices u and v
/// are in one class if they are equal or G - u - v has no perfect matching (Kotzig 1959; Lovász and
/// Plummer, "Matching Theory", chapter 5). Takes one maximum matching and at most n searches, O(n^4
/// + m) steps on words at most; the only error is `Memory`.
///
/// Here `hexagon` makes the cycle of the vertices 1 to 6:
///
/// ```
/// let graph = hexagon(alloc)?;
/// let Ok(covered) = Covered::of(alloc, &graph)? else {
///     return Err("not matching covered".into());
/// };
/// covered.keeps_covered();
/// let list = classes(alloc, &graph)?;
/// let odd = VSet::one(1).with(3).with(5);
/// let even = VSet::one(2).with(4).with(6);
/// assert!(rt; list.as_slice() == [odd, even].as_slice());
/// ```
pub fn classes(alloc: Global, g: &MultiGraph) -> Result<SetList, Memory>
    requires { IsCovered g.now }
    ensures { IfOk result (λ list. list ≡ classes g.now) }
{
    classes_of(alloc, &Covered::known(alloc, g)?)
}

/// The classes of a covered graph, read off its table of partners. Takes O(n) steps on words; the
/// only error is `Memory`.
pub fn classes_of(alloc: Global, c: &Covered) -> Result<SetList, Memory>
    ensures { IfOk result (λ list. list ≡ classes c.now) }
{
    c.keeps_covered();
    let mut list = SetList::new(alloc);
    let mut met = VSet::empty();
    for k in 0..c.order() {
        if !met.contains(k + 1) {
            let class = class_of(c, k + 1);
            list.push(class)?;
            met = met.union(class);
        }
    }
    Ok(list)
}

// The class of a vertex: all vertices but its partners.
fn class_of(c: &Covered, a: u32) -> VSet
    requires { Within c.now.order a }
    ensures { result ≡ rising_list c.now.order (is_equivalent c.now a) }
{
    c.keeps_covered();
    let class = VSet::full(c.order()).minus(c.table().of(a));
    class.rises();
    class
}
