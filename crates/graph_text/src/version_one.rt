//! Version 1 of the graph format.
ghost use Rattle.std.specs.Prelude.{◌≡◌, ◌<◌, ◌-◌, ◌^◌, ℕ, length, IfOk, IfErr, Ok, Err};
ghost use Rattle.graph_core.specs.from_line_text.Common.{Gives, Stands, FirstFault, texts_of, IsFirstFault, ReadsText};
ghost use Rattle.graph_core.specs.from_line_text.declared.faults.FaultKind.{FaultKind};
ghost use Rattle.graph_core.specs.Common.{Graph};
ghost use Rattle.graph_text.specs.GraphLines.{GraphSoFar};
ghost use Rattle.graph_text.specs.SoFar.{so_far};
ghost use Rattle.graph_text.specs.VersionOne.{version_one, header};

use crate::body::Body;
use crate::graph_lines::{close_graph, read_edge};
use graph_core::MultiGraph;
use graph_core::line_text::{
    FaultKind, LineFormat, RuleFault, TextFault, has_form, number, read_text, word,
};
use std::alloc::Global;

/// The most vertices of a graph in version 1.
pub const VERSION_ONE_VERTICES: u32 = 64;

/// The most edges of a graph in version 1.
pub const VERSION_ONE_EDGES: u32 = 512;

// The format.
#[derive(Drop)]
struct VersionOne {
    alloc: Global,
}

fn read_header(alloc: Global, words: &[&[u8]]) -> Result<Body, RuleFault<FaultKind>>
    ensures { Gives so_far result (header (texts_of words.now)) }
{
    if !has_form(words, 4, &["p", "mcg"]) {
        return Err(RuleFault::Fault(FaultKind::Header));
    }
    let (Some(n), Some(m)) = (number(word(words, 2)), number(word(words, 3))) else {
        return Err(RuleFault::Fault(FaultKind::Number));
    };
    if n > VERSION_ONE_VERTICES || m > VERSION_ONE_EDGES {
        return Err(RuleFault::Fault(FaultKind::Limit));
    }
    match MultiGraph::new(alloc, n) {
        Ok(graph) => Ok(Body { graph, edges: m }),
        Err(_) => Err(RuleFault::Memory),
    }
}

impl LineFormat for VersionOne {
    type Body = Body;

    type Value = MultiGraph;

    type Kind = FaultKind;

    ghost State = { GraphSoFar };

    ghost Meaning = { Graph };

    ghost state = { so_far };

    ghost meaning = { λ g. g };

    ghost rules = { λ _. version_one };

    fn header(&self, words: &[&[u8]]) -> Result<Body, RuleFault<FaultKind>> {
        read_header(self.alloc, words)
    }

    fn line(&self, body: Body, words: &[&[u8]]) -> Result<Body, RuleFault<FaultKind>> {
        let mut body = body;
        read_edge(&mut body, words)?;
        Ok(body)
    }

    fn close(&self, body: Body) -> Result<MultiGraph, RuleFault<FaultKind>> {
        close_graph(body)
    }

    fn headless(&self) -> FaultKind {
        FaultKind::Header
    }
}

/// Reads a graph in version 1 of the format: the graph that the bytes stand for, or the first line
/// outside the format with the kind of its error. The errors are `TextFault::At`, with this line
/// and kind, and `TextFault::Memory`, which may come at any time. Takes O(b) time for b bytes.
pub fn read_graph(alloc: Global, bytes: &[u8]) -> Result<MultiGraph, TextFault>
    requires { length bytes.now < 2 ^ 32 - 1 }
    ensures value { IfOk result (λ g. Stands version_one bytes.now g) }
    ensures fault { IfErr result (IsFirstFault version_one bytes.now) }
    ensures stands { (g : Graph) → Stands version_one bytes.now g →
        ReadsText (λ (h : Graph). h) result (Ok g) }
    ensures breaks { (line : ℕ) (kind : FaultKind) → FirstFault version_one bytes.now line kind →
        ReadsText (λ (h : Graph). h) result (Err (line, kind)) }
{
    read_text(alloc, &VersionOne { alloc }, bytes)
}
