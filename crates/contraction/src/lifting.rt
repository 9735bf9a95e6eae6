//! Matchings of the quotient lifted to the graph.
ghost use Rattle.std.specs.Prelude.{◌≡◌, ℕ, ◌+◌, ◌≤◌, ◌==◌, ◌||◌, ◌<◌, true, Bool, List, length, All, IfOk};
ghost use Rattle.std.specs.List.{list_any};
ghost use Rattle.graph_core.specs.from_counting.Common.{Within, none, put, mem, rising_list};
ghost use Rattle.graph_core.specs.Common.{Graph, IsGraph, size, IsPerfect, IsPerfectAt, lifted, quotient};
ghost use Rattle.match_core.specs.Common.{IsOf, edges_of};
ghost use Rattle.match_core.specs.from_match_search.Common.{marks};
ghost use Rattle.contraction.specs.Contracted.{contraction};
ghost use Rattle.contraction.specs.LeastEdges.{least_at};

use crate::Contracted;
use graph_core::{MOST_EDGES, Numbers};
use match_core::Matching;
use std::alloc::{AllocError as Memory, Global};

/// The matching `m` of the quotient graph lifted to the graph: the least remembered edge of each
/// row, in increasing order. If `m` is perfect, the lifted edges are a perfect matching at the
/// partition: each block contains an end of exactly one of them. Takes O(n + m) time for the n
/// vertices and m edges of the graph; the only error is `Memory`.
pub fn lift(alloc: Global, q: &Contracted, m: &Matching) -> Result<Numbers, Memory>
    requires { IsOf q.now.graph m.now }
    ensures edges { (g : Graph) (p : List (List ℕ)) → q.now ≡ contraction g p →
        IfOk result (λ edges. edges ≡ lifted g p (mem (edges_of m.now))) }
    ensures perfect { (g : Graph) (p : List (List ℕ)) → IsGraph g → q.now ≡ contraction g p →
        IsPerfect (quotient g p) none (mem (edges_of m.now)) →
        IfOk result (λ edges. IsPerfectAt g p (mem edges)) }
{
    q.keeps_contraction();
    let size = q.base_size();
    let mut mark = vec![in alloc; false; size as usize + 1]?;
    mark_least(&mut mark, q, m);
    marked_numbers(alloc, size, &mark)
}

// Marks the least remembered edge of each row.
fn mark_least(mark: &mut Vec<bool>, q: &Contracted, m: &Matching)
    requires long { length mark.old.items ≡ q.now.size + 1 }
    requires edges { All (λ row. Within (size q.now.graph) row.edge) m.now.rows }
    ensures length { length mark.new.items ≡ length mark.old.items }
    ensures each { (e : ℕ) →
        marks mark.new.items e ≡ (marks mark.old.items e ||
        list_any (λ row. least_at q.now row.edge == e) m.now.rows) }
{
    for i in 0..m.len() {
        let row = m.row(i);
        let least = q.least(row.edge);
        mark_place(mark, least as usize);
    }
}

// Marks one place.
fn mark_place(mark: &mut Vec<bool>, place: usize)
    requires { place < length mark.old.items }
    ensures length { length mark.new.items ≡ length mark.old.items }
    ensures each { (i : ℕ) → marks mark.new.items i ≡ put (marks mark.old.items) place true i }
{
    mark[place] = true;
}

// The marked numbers of 1 to `size`, in increasing order.
fn marked_numbers(alloc: Global, size: u32, mark: &[bool]) -> Result<Numbers, Memory>
    requires few { size ≤ MOST_EDGES }
    requires long { length mark.now ≡ size + 1 }
    ensures { IfOk result (λ numbers. numbers ≡ rising_list size (marks mark.now)) }
{
    let mut numbers = Numbers::new(alloc);
    for i in 0..size {
        if mark[i as usize + 1] {
            numbers.push(i + 1)?;
        }
    }
    Ok(numbers)
}
