//! The vertices along the edges of an ear.
ghost use Rattle.std.specs.Prelude.{◌≡◌, ◌||◌, ◌==◌, ℕ, true, false, None, All, IfErr, IfNone, IfOk, IfSome};
ghost use Rattle.graph_core.specs.from_counting.Common.{Within, mem, none};
ghost use Rattle.graph_core.specs.Common.{size, first_end, second_end};
ghost use Rattle.ear_core.specs.Common.{other_end, last_vertex, is_path, inner_vertices, astray};

use crate::ears::Ear;
use graph_core::MultiGraph;
use graph_core::vset_core::VSet;

/// A path, by its inner vertices and its last one.
#[derive(Clone, Copy)]
pub struct EarPath {
    pub inner: VSet,
    pub last: u32,
}

// The end of edge `e` other than `v`, if `v` is an end of it.
fn other_end(g: &MultiGraph, e: u32, v: u32) -> Option<u32>
    requires { Within (size g.now) e }
    ensures some { IfSome result
        (λ w. ((first_end g.now e == v || second_end g.now e == v) ≡ true) ×
        (w ≡ other_end g.now e v) × Within g.now.order w) }
    ensures none { IfNone result ((first_end g.now e == v || second_end g.now e == v) ≡ false) }
{
    let ends = g.ends(e);
    if ends.a == v {
        Some(ends.b)
    } else if ends.b == v {
        Some(ends.a)
    } else {
        None
    }
}

/// The path that an ear is, its last vertex perhaps equal to its first. If the ear is not a path,
/// the first edge that goes astray; `None` if it has no edges.
pub fn path_of(g: &MultiGraph, ear: &Ear) -> Result<EarPath, Option<u32>>
    requires begin { Within g.now.order ear.now.from }
    requires edges { All (Within (size g.now)) ear.now.edges }
    ensures not_path { IfErr result
        (λ edge. is_path g.now ear.now.from ear.now.edges ≡ false) }
    ensures edge { IfErr result
        (λ edge. edge ≡ astray g.now ear.now.from none ear.now.from ear.now.edges) }
    ensures path { IfOk result (λ p. is_path g.now ear.now.from ear.now.edges ≡ true) }
    ensures last { IfOk result (λ p. p.last ≡ last_vertex g.now ear.now.from ear.now.edges) }
    ensures within { IfOk result (λ p. Within g.now.order p.last) }
    ensures inner { IfOk result
        (λ p. (w : ℕ) → mem p.inner w ≡ mem (inner_vertices g.now ear.now.from ear.now.edges) w) }
    ensures nowhere { IfOk result
        (λ p. astray g.now ear.now.from none ear.now.from ear.now.edges ≡ None) }
{
    g.keeps_limits();
    let mut inner = VSet::empty();
    let mut at = ear.from;
    let mut rest = ear.edges.as_slice();
    'edges: while let Some((e, others)) = rest.split_first() {
        let Some(next) = other_end(g, *e, at) else {
            return Err(Some(*e));
        };
        if inner.contains(next) {
            return Err(Some(*e));
        }
        if others.is_empty() {
            return Ok(EarPath { inner, last: next });
        }
        if next == ear.from {
            return Err(Some(*e));
        }
        inner = inner.with(next);
        at = next;
        rest = others;
    }
    Err(None)
}
