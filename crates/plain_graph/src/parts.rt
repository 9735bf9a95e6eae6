//! Components, by walks of bounded length.
ghost use Rattle.std.specs.Prelude.{◌≡◌, ◌≤◌, ◌&&◌, ◌||◌, ℕ, true};
ghost use Rattle.allowed_edges.specs.from_counting.Common.{Within, is_odd, count, mem, some};
ghost use Rattle.graph_core.specs.Common.{is_least, odd_component_count, adjacent, joined};
ghost use Rattle.plain_graph.specs.Parts.{begins_odd_part};

use graph_core::MultiGraph;
use graph_core::vset_core::VSet;

/// Whether an edge of G - `removed` joins the two vertices.
fn is_step(graph: &MultiGraph, removed: VSet, u: u32, v: u32) -> bool
    requires first { Within graph.now.order u }
    requires second { Within graph.now.order v }
    ensures { result ≡ adjacent graph.now (mem removed) u v }
{
    graph.keeps_limits();
    !removed.contains(u) && !removed.contains(v) && graph.adjacent(u, v)
}

/// Whether a step leads to `v` from one of the vertices that were reached.
fn is_next(graph: &MultiGraph, removed: VSet, reached: VSet, v: u32) -> bool
    requires { Within graph.now.order v }
    ensures { result ≡ some graph.now.order
        (λ u. mem reached u && adjacent graph.now (mem removed) u v) }
{
    for i in 0..graph.order() {
        if reached.contains(i + 1) && is_step(graph, removed, i + 1, v) {
            return true;
        }
    }
    false
}

/// The vertices that were reached, and those that one more step reaches.
fn one_step_more(graph: &MultiGraph, removed: VSet, reached: VSet) -> VSet
    requires { (v : ℕ) → mem reached v ≡ true → Within graph.now.order v }
    ensures more { (v : ℕ) → Within graph.now.order v →
        mem result v ≡ (mem reached v ||
        some graph.now.order (λ u. mem reached u && adjacent graph.now (mem removed) u v)) }
    ensures vertices { (v : ℕ) → mem result v ≡ true → Within graph.now.order v }
{
    let mut more = reached;
    for i in 0..graph.order() {
        if is_next(graph, removed, reached, i + 1) {
            more = more.with(i + 1);
        }
    }
    more
}

/// The vertices that walks of G - `removed` reach from `u`.
fn joined_to(graph: &MultiGraph, removed: VSet, u: u32) -> VSet
    requires { Within graph.now.order u }
    ensures joined { (v : ℕ) → Within graph.now.order v →
        mem result v ≡ joined graph.now (mem removed) u v }
    ensures vertices { (v : ℕ) → mem result v ≡ true → Within graph.now.order v }
{
    graph.keeps_limits();
    let mut reached = VSet::one(u);
    for step in 0..graph.order() {
        reached = one_step_more(graph, removed, reached);
    }
    reached
}

/// Whether `u` is the least vertex of a component of G - `removed`.
fn is_least(graph: &MultiGraph, removed: VSet, u: u32) -> bool
    requires { Within graph.now.order u }
    ensures { result ≡ is_least graph.now (mem removed) u }
{
    graph.keeps_limits();
    if removed.contains(u) {
        return false;
    }
    joined_to(graph, removed, u).first().unwrap_or(u) == u
}

/// Whether walks of G - `removed` reach an odd number of vertices from `u`.
fn is_in_odd_part(graph: &MultiGraph, removed: VSet, u: u32) -> bool
    requires { Within graph.now.order u }
    ensures { result ≡ is_odd (count graph.now.order (joined graph.now (mem removed) u)) }
{
    let part = joined_to(graph, removed, u);
    part.rises();
    part.len() % 2 == 1
}

/// Whether `u` is the least vertex of an odd component of G - `removed`.
#[tactic(auto, unfolding(crate::specs::Parts::begins_odd_part))]
fn begins_odd_part(graph: &MultiGraph, removed: VSet, u: u32) -> bool
    requires { Within graph.now.order u }
    ensures { result ≡ begins_odd_part graph.now (mem removed) u }
{
    is_least(graph, removed, u) && is_in_odd_part(graph, removed, u)
}

/// o(S): the number of odd components of G - S, where S is `removed`.
#[tactic(auto, unfolding(graph_core::specs::Components::odd_component_count, crate::specs::Parts::begins_odd_part))]
pub fn odd_component_count(graph: &MultiGraph, removed: VSet) -> u32
    ensures { result ≡ odd_component_count graph.now (mem removed) }
{
    let mut found = 0;
    for i in 0..graph.order() {
        if begins_odd_part(graph, removed, i + 1) {
            found += 1;
        }
    }
    found
}
