//! Shores as lists of numbers.
ghost use Rattle.std.specs.Prelude.{◌≡◌, ◌≤◌};
ghost use Rattle.std.specs.List.{list_any};
ghost use Rattle.counting.specs.Common.{mem, IsRisingIn};
ghost use Rattle.graph_core.specs.from_line_text.Common.{is_out_of_range};
ghost use Rattle.tree_text.specs.Common.{is_rising};

use graph_core::vset_core::{MOST_VERTICES, VSet};

/// Whether each number is below the next. Takes O(k) time for k numbers.
pub fn rise(vertices: &[u32]) -> bool
    ensures { result ≡ is_rising vertices.now }
{
    let Some((first, others)) = vertices.split_first() else {
        return true;
    };
    let mut last = *first;
    let mut rest = others;
    'numbers: while let Some((v, behind)) = rest.split_first() {
        if last >= *v {
            return false;
        }
        last = *v;
        rest = behind;
    }
    true
}

/// Whether `n` is among the numbers. Takes O(k) time for k numbers.
pub fn holds(vertices: &[u32], n: u32) -> bool
    ensures { result ≡ mem vertices.now n }
{
    let mut rest = vertices;
    'numbers: while let Some((v, behind)) = rest.split_first() {
        if *v == n {
            return true;
        }
        rest = behind;
    }
    false
}

/// The set of the numbers, which are increasing. Takes O(k) time for k numbers.
pub fn shore_of(vertices: &[u32]) -> VSet
    requires { IsRisingIn MOST_VERTICES vertices.now }
    ensures { result ≡ vertices.now }
{
    let mut shore = VSet::empty();
    let mut rest = vertices;
    'numbers: while let Some((v, behind)) = rest.split_first() {
        shore = shore.with(*v);
        rest = behind;
    }
    shore.rises();
    shore
}
