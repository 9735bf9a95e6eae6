//! Both versions of the graph format.
ghost use Rattle.std.specs.Prelude.{◌≡◌, ◌<◌, ◌≤◌, ◌-◌, ◌^◌, ℕ, length, false, Some, IfOk, IfErr, Ok, Err};
ghost use Rattle.graph_core.specs.from_line_text.Common.{Gives, Stands, FirstFault, texts_of, IsFirstFault, ReadsText};
ghost use Rattle.graph_core.specs.from_line_text.declared.faults.FaultKind.{FaultKind};
ghost use Rattle.graph_core.specs.Common.{size};
ghost use Rattle.graph_text.specs.EitherVersion.{EitherSoFar, NamedGraph, named_so_far, is_over, either_header, vertex_line, named_edge_line, named_line, line_behind, end_behind, either_version};
ghost use Rattle.graph_text.specs.SoFar.{so_far, either_so_far, named_graph};

use crate::body::{Body, EitherBody};
use crate::graph_lines::{close_graph, read_edge};
use crate::named::Named;
use crate::names::{Names, name_of};
use crate::version_one::{VERSION_ONE_EDGES, VERSION_ONE_VERTICES};
use graph_core::line_text::{
    FaultKind, LineFormat, RuleFault, TextFault, has_form, number, read_text, word,
};
use graph_core::vset_core::MOST_VERTICES;
use graph_core::{MOST_EDGES, MultiGraph};
use std::alloc::Global;

// The format.
#[derive(Drop)]
struct EitherVersion {
    alloc: Global,
}

// Whether so many vertices and edges exceed the limits of the version.
fn is_over_limits(named: bool, n: u32, m: u32) -> bool
    ensures is { result ≡ is_over named n m }
    ensures vertices { result ≡ false → n ≤ 128 }
    ensures edges { result ≡ false → m ≤ 2048 }
{
    if named {
        n > MOST_VERTICES || m > MOST_EDGES
    } else {
        n > VERSION_ONE_VERTICES || m > VERSION_ONE_EDGES
    }
}

fn read_header(alloc: Global, words: &[&[u8]]) -> Result<EitherBody, RuleFault<FaultKind>>
    ensures { Gives either_so_far result (either_header (texts_of words.now)) }
{
    let named = has_form(words, 4, &["p", "mcg2"]);
    if !named && !has_form(words, 4, &["p", "mcg"]) {
        return Err(RuleFault::Fault(FaultKind::Header));
    }
    let (Some(n), Some(m)) = (number(word(words, 2)), number(word(words, 3))) else {
        return Err(RuleFault::Fault(FaultKind::Number));
    };
    if is_over_limits(named, n, m) {
        return Err(RuleFault::Fault(FaultKind::Limit));
    }
    let Ok(graph) = MultiGraph::new(alloc, n) else {
        return Err(RuleFault::Memory);
    };
    let body = Body { graph, edges: m };
    if named {
        let names = Some(Names::new(alloc));
        Ok(EitherBody { body, names })
    } else {
        Ok(EitherBody { body, names: None })
    }
}

// A line that names the next vertex.
fn add_name(
    alloc: Global,
    body: &Body,
    names: &mut Names,
    words: &[&[u8]],
) -> Result<(), RuleFault<FaultKind>>
    requires { length names.old < body.now.graph.order }
    ensures { Gives (λ _. named_so_far (so_far body.now) names.new) result
        (vertex_line (so_far body.now) names.old (texts_of words.now)) }
{
    if !has_form(words, 2, &["v"]) {
        return Err(RuleFault::Fault(FaultKind::Word));
    }
    let Some(name) = name_of(word(words, 1)) else {
        return Err(RuleFault::Fault(FaultKind::BadName));
    };
    if names.is_among(name.as_bytes()) {
        return Err(RuleFault::Fault(FaultKind::SameName));
    }
    body.graph.keeps_limits();
    names.push(alloc, name)?;
    Ok(())
}

// A line of an edge between named vertices.
fn add_named_edge(
    body: &mut Body,
    names: &Names,
    words: &[&[u8]],
) -> Result<(), RuleFault<FaultKind>>
    ensures { Gives (λ _. named_so_far (so_far body.new) names.now) result
        (named_edge_line (so_far body.old) names.now (texts_of words.now)) }
{
    if !has_form(words, 3, &["e"]) {
        return Err(RuleFault::Fault(FaultKind::Word));
    }
    let (Some(a), Some(b)) = (names.vertex(word(words, 1)), names.vertex(word(words, 2))) else {
        return Err(RuleFault::Fault(FaultKind::Unnamed));
    };
    if word(words, 1) == word(words, 2) {
        return Err(RuleFault::Fault(FaultKind::Loop));
    }
    match body.graph.add_edge(a, b) {
        Ok(_) => Ok(()),
        Err(_) => Err(RuleFault::Memory),
    }
}

// A line after the header in version 2.
fn read_named_line(
    alloc: Global,
    body: &mut Body,
    names: &mut Names,
    words: &[&[u8]],
) -> Result<(), RuleFault<FaultKind>>
    ensures { Gives (λ _. named_so_far (so_far body.new) names.new) result
        (named_line (so_far body.old) names.old (texts_of words.now)) }
{
    if names.len() < body.graph.order() as usize {
        return add_name(alloc, body, names, words);
    }
    if body.graph.size() == body.edges {
        return Err(RuleFault::Fault(FaultKind::Extra));
    }
    add_named_edge(body, names, words)
}

// The end of a text of version 2.
fn close_named(body: Body, names: Names) -> Result<Named, RuleFault<FaultKind>>
    ensures { Gives named_graph result (end_behind (so_far body) (Some names)) }
{
    let all = names.len() == body.graph.order() as usize;
    if all && body.graph.size() == body.edges {
        Ok(Named {
            graph: body.graph,
            names: Some(names),
        })
    } else {
        Err(RuleFault::Fault(FaultKind::Missing))
    }
}

impl LineFormat for EitherVersion {
    type Body = EitherBody;

    type Value = Named;

    type Kind = FaultKind;

    ghost State = { EitherSoFar };

    ghost Meaning = { NamedGraph };

    ghost state = { either_so_far };

    ghost meaning = { named_graph };

    ghost rules = { λ _. either_version };

    fn header(&self, words: &[&[u8]]) -> Result<EitherBody, RuleFault<FaultKind>> {
        read_header(self.alloc, words)
    }

    fn line(
        &self,
        either: EitherBody,
        words: &[&[u8]],
    ) -> Result<EitherBody, RuleFault<FaultKind>> {
        let EitherBody { mut body, names } = either;
        match names {
            Some(mut names) => {
                read_named_line(self.alloc, &mut body, &mut names, words)?;
                let names = Some(names);
                Ok(EitherBody { body, names })
            }
            None => {
                read_edge(&mut body, words)?;
                Ok(EitherBody { body, names: None })
            }
        }
    }

    fn close(&self, either: EitherBody) -> Result<Named, RuleFault<FaultKind>> {
        let EitherBody { body, names } = either;
        match names {
            Some(names) => close_named(body, names),
            None => match close_graph(body) {
                Ok(graph) => Ok(Named { graph, names: None }),
                Err(refusal) => Err(refusal),
            },
        }
    }

    fn headless(&self) -> FaultKind {
        FaultKind::Header
    }
}

/// Reads a graph in either version of the format: the graph that the bytes stand for, with the
/// names of its vertices in version 2 and none in version 1, or the first line outside the format
/// with the kind of its error. The errors are `TextFault::At`, with this line and kind, and
/// `TextFault::Memory`, which may come at any time. Takes O(b) time for b bytes.
///
/// For a graph of two vertices and an edge:
///
/// ```
/// let text = "p mcg 2 1\ne 1 2\n".as_bytes();
/// assert!(rt; text.len() <= 1_000_000);
/// let Ok(named) = read_any(alloc, text) else {
///     return Err("outside the format, or out of memory".into());
/// };
/// assert!(rt; named.graph.order() == 2 && named.graph.size() == 1);
/// assert!(rt; named.names.is_none());
/// ```
pub fn read_any(alloc: Global, bytes: &[u8]) -> Result<Named, TextFault>
    requires { length bytes.now < 2 ^ 32 - 1 }
    ensures value { IfOk result (λ named. Stands either_version bytes.now (named_graph named)) }
    ensures fault { IfErr result (IsFirstFault either_version bytes.now) }
    ensures stands { (g : NamedGraph) → Stands either_version bytes.now g →
        ReadsText named_graph result (Ok g) }
    ensures breaks { (line : ℕ) (kind : FaultKind) → FirstFault either_version bytes.now line kind →
        ReadsText named_graph result (Err (line, kind)) }
{
    read_text(alloc, &EitherVersion { alloc }, bytes)
}
