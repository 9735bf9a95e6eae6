//! The line of `ears`.
ghost use Rattle.std.specs.Prelude.{◌≡◌, ◌++◌, Ok, IfOk, OnOk, map};
ghost use Rattle.std.specs.List.{AllByRecursion};
ghost use Rattle.allowed_edges.specs.from_counting.Common.{Within};
ghost use Rattle.ear_core.specs.Common.{FitsEar, FitsStep, FitsEars, ear_of, ears_of, other_end, step_of};
ghost use Rattle.graph_core.specs.Common.{size};
ghost use Rattle.graph6_text.specs.Common.{outcome_of};
ghost use Rattle.mcg6_lines.specs.EarLines.{AreEarLines, TellsEarList, double_steps, ear_line, edge_text, path_text, single_steps, step_text, steps_text};

use crate::decimals::push_decimal;
use crate::leaf_lines::line_front;
use ear_core::{Ear, EarList, Step, build_ears_of};
use graph_core::{Ends, MultiGraph};
use leaf_kinds::graph_facts::Covered;
use std::alloc::{AllocError as Memory, Global};

/// The line of an ear list of the graph that stands in the text of the line with this number;
/// nothing if the graph is not matching covered. Costs what `Covered::of` and `build_ears_of` of
/// `ear_core` cost; the only error is `Memory`.
pub fn ear_lines(alloc: Global, g: &MultiGraph, number: u64, text: &[u8]) -> Result<Vec<u8>, Memory>
    requires { outcome_of text.now ≡ Ok g.now }
    ensures { IfOk result (λ lines. AreEarLines number g.now lines.items) }
{
    match Covered::of(alloc, g)? {
        Ok(c) => {
            let front = line_front(alloc, number, text)?;
            covered_ear_line(alloc, &c, front)
        }
        Err(_) => Ok(Vec::new(alloc)),
    }
}

// The line of a covered graph, after this front.
fn covered_ear_line(alloc: Global, c: &Covered, front: Vec<u8>) -> Result<Vec<u8>, Memory>
    ensures { IfOk result (λ line. TellsEarList front.items c.now line.items) }
{
    c.keeps_covered();
    let list = build_ears_of(alloc, c)?;
    let mut line = front;
    push_list(&mut line, c.graph(), &list)?;
    Ok(line)
}

// Appends the numbers of steps, the edge of the first stage, the steps, and the line end.
#[tactic(auto, unfolding(crate::specs::EarLines::ear_line))]
fn push_list(line: &mut Vec<u8>, g: &MultiGraph, list: &EarList) -> Result<(), Memory>
    requires { FitsEars g.now.order (size g.now) (ears_of list.now) }
    ensures { OnOk result (line.new.items ≡ ear_line line.old.items g.now (ears_of list.now)) }
{
    let steps = list.steps.as_slice();
    push_decimal(line, count_single(steps) as u64)?;
    line.push(b' ')?;
    push_decimal(line, count_double(steps) as u64)?;
    line.push(b' ')?;
    push_edge(line, g, list.start)?;
    push_steps(line, g, steps)?;
    line.push(b'\n')?;
    Ok(())
}

// How many of the steps have one ear.
fn count_single(steps: &[Step]) -> usize
    ensures { result ≡ single_steps (map step_of steps.now) }
{
    steps.iter().filter(|step| step.second.is_none()).count()
}

// How many of the steps have two.
fn count_double(steps: &[Step]) -> usize
    ensures { result ≡ double_steps (map step_of steps.now) }
{
    steps.iter().filter(|step| step.second.is_some()).count()
}

// Appends the ends of an edge, the lesser first.
fn push_edge(line: &mut Vec<u8>, g: &MultiGraph, e: u32) -> Result<(), Memory>
    requires { Within (size g.now) e }
    ensures { OnOk result (line.new.items ≡ line.old.items ++ edge_text g.now e) }
{
    let Ends { a, b } = g.ends(e);
    push_decimal(line, u64::from(a.min(b)))?;
    line.push(b'-')?;
    push_decimal(line, u64::from(a.max(b)))
}

// Appends the steps, each after a space.
fn push_steps(line: &mut Vec<u8>, g: &MultiGraph, steps: &[Step]) -> Result<(), Memory>
    requires { AllByRecursion (FitsStep g.now.order (size g.now)) (map step_of steps.now) }
    ensures { OnOk result
        (line.new.items ≡ line.old.items ++ steps_text g.now (map step_of steps.now)) }
{
    let mut rest = steps;
    'steps: while let Some((step, others)) = rest.split_first() {
        line.push(b' ')?;
        push_step(line, g, step)?;
        rest = others;
    }
    Ok(())
}

// Appends the ear of a step, or the two.
fn push_step(line: &mut Vec<u8>, g: &MultiGraph, step: &Step) -> Result<(), Memory>
    requires { FitsStep g.now.order (size g.now) (step_of step.now) }
    ensures { OnOk result
        (line.new.items ≡ line.old.items ++ step_text g.now (step_of step.now)) }
{
    push_path(line, g, &step.first)?;
    if let Some(second) = &step.second {
        line.push(b'+')?;
        push_path(line, g, second)?;
    }
    Ok(())
}

// Appends the vertices along an ear.
fn push_path(line: &mut Vec<u8>, g: &MultiGraph, ear: &Ear) -> Result<(), Memory>
    requires { FitsEar g.now.order (size g.now) (ear_of ear.now) }
    ensures { OnOk result
        (line.new.items ≡ line.old.items ++ path_text g.now (ear_of ear.now)) }
{
    let mut v = ear.from;
    push_decimal(line, u64::from(v))?;
    let mut rest = ear.edges.as_slice();
    'edges: while let Some((e, others)) = rest.split_first() {
        v = across(g, *e, v);
        line.push(b'-')?;
        push_decimal(line, u64::from(v))?;
        rest = others;
    }
    Ok(())
}

// The end of an edge other than this vertex.
fn across(g: &MultiGraph, e: u32, v: u32) -> u32
    requires { Within (size g.now) e }
    ensures { result ≡ other_end g.now e v }
{
    let Ends { a, b } = g.ends(e);
    if a == v { b } else { a }
}
