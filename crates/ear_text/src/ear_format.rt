//! The ear format.
ghost use Rattle.std.specs.Prelude.{◌≡◌, ◌<◌, ◌-◌, ◌^◌, ℕ, length, map, option_map, IfOk, IfErr, Ok, Err};
ghost use Rattle.std.specs.List.{AllByRecursion, list_any};
ghost use Rattle.graph_core.specs.from_line_text.Common.{Gives, Stands, FirstFault, checked, texts_of, IsFirstFault, ReadsText, is_out_of_range};
ghost use Rattle.graph_core.specs.from_line_text.declared.faults.FaultKind.{FaultKind};
ghost use Rattle.ear_core.specs.Common.{PlainEars, FitsEars, HasEdges, ear_of, step_of, ears_of};
ghost use Rattle.ear_text.specs.EarFormat.{EarsSoFar, ears_header, start_line, ear_at, ear_line, ear_tests, ear_format, behind_two, is_ear_line, is_either_ear_line, is_with_line, with_ear};
ghost use Rattle.ear_text.specs.SoFar.{ears_so_far};

use crate::ears_read::{EarsRead, close_last, pair_last};
use ear_core::{Ear, EarList, Steps};
use graph_core::Numbers;
use graph_core::line_text::{
    FaultKind, LineFormat, RuleFault, TextFault, has_form, has_out_of_range, is_out_of_range,
    number, numbers, read_text, word,
};
use std::alloc::{AllocError as Memory, Global};

// The format, for graphs of this order and size.
#[derive(Drop)]
struct EarFormat {
    alloc: Global,
    order: u32,
    size: u32,
}

fn read_header(n: u32, m: u32, words: &[&[u8]]) -> Result<EarsRead, RuleFault<FaultKind>>
    ensures { Gives ears_so_far result (ears_header n m (texts_of words.now)) }
{
    if !has_form(words, 4, &["r", "mcg"]) {
        return Err(RuleFault::Fault(FaultKind::Header));
    }
    let (Some(order), Some(size)) = (number(word(words, 2)), number(word(words, 3))) else {
        return Err(RuleFault::Fault(FaultKind::Number));
    };
    if order != n || size != m {
        return Err(RuleFault::Fault(FaultKind::Header));
    }
    Ok(EarsRead::Headed)
}

// The line of the first stage.
fn read_start(alloc: Global, m: u32, words: &[&[u8]]) -> Result<EarsRead, RuleFault<FaultKind>>
    ensures { Gives ears_so_far result (start_line m (texts_of words.now)) }
{
    if !has_form(words, 2, &["start"]) {
        return Err(RuleFault::Fault(FaultKind::Word));
    }
    let Some(start) = number(word(words, 1)) else {
        return Err(RuleFault::Fault(FaultKind::Number));
    };
    if is_out_of_range(m, start) {
        return Err(RuleFault::Fault(FaultKind::Range));
    }
    Ok(EarsRead::Started {
        start,
        steps: Steps::new(alloc),
        last: None,
    })
}

// Whether these are the words of a step's first ear.
fn is_ear(words: &[&[u8]]) -> bool
    ensures { result ≡ is_ear_line (texts_of words.now) }
{
    words.len() >= 3 && has_form(words, words.len(), &["ear"])
}

// Whether these are the words of a step's second ear.
fn is_with(words: &[&[u8]]) -> bool
    ensures { result ≡ is_with_line (texts_of words.now) }
{
    words.len() >= 3 && has_form(words, words.len(), &["with"])
}

// The words after the second.
fn behind_two<'a, 'b>(words: &'a [&'b [u8]]) -> &'a [&'b [u8]]
    ensures { texts_of result.now ≡ behind_two (texts_of words.now) }
{
    &words[words.len().min(2)..]
}

// The numbers as an owned list.
fn copied(alloc: Global, items: &[u32]) -> Result<Numbers, Memory>
    ensures { IfOk result (λ list. list ≡ items.now) }
{
    let mut list = Numbers::new(alloc);
    let mut rest = items;
    'items: while let Some((item, others)) = rest.split_first() {
        list.push(*item)?;
        rest = others;
    }
    Ok(list)
}

// Whether these are the words of an ear: a step's first one, or a second one after an ear that is
// not yet part of a step.
fn is_either_ear(stands_apart: bool, words: &[&[u8]]) -> bool
    ensures { result ≡ is_either_ear_line stands_apart (texts_of words.now) }
{
    is_ear(words) || (stands_apart && is_with(words))
}

// The ear that a line gives after its first word.
fn ear_told(format: &EarFormat, words: &[&[u8]]) -> Result<Ear, RuleFault<FaultKind>>
    ensures ear { IfOk result (λ ear. ear_of ear ≡ ear_at (texts_of words.now)) }
    ensures tests { (so_far : EarsSoFar) → Gives (λ _. so_far) result
        (checked (ear_tests format.now.order format.now.size (texts_of words.now)) so_far) }
{
    let read = numbers(format.alloc, behind_two(words))?;
    let (Some(from), Some(edges)) = (number(word(words, 1)), read) else {
        return Err(RuleFault::Fault(FaultKind::Number));
    };
    if is_out_of_range(format.order, from) || has_out_of_range(format.size, &edges) {
        return Err(RuleFault::Fault(FaultKind::Range));
    }
    let edges = copied(format.alloc, &edges)?;
    Ok(Ear { from, edges })
}

// The state after one more ear, which is a step's first one or else its second one.
fn with_ear(
    start: u32,
    steps: Steps,
    last: Option<Ear>,
    is_first: bool,
    ear: Ear,
) -> Result<EarsRead, Memory>
    ensures { IfOk result
        (λ read. ears_so_far read ≡
        with_ear start (map step_of steps) (option_map ear_of last) is_first (ear_of ear)) }
{
    if is_first {
        let steps = close_last(steps, last)?;
        let last = Some(ear);
        return Ok(EarsRead::Started { start, steps, last });
    }
    let steps = pair_last(steps, last, ear)?;
    Ok(EarsRead::Started {
        start,
        steps,
        last: None,
    })
}

// A line after that of the first stage.
fn read_ear(
    format: &EarFormat,
    start: u32,
    steps: Steps,
    last: Option<Ear>,
    words: &[&[u8]],
) -> Result<EarsRead, RuleFault<FaultKind>>
    ensures { Gives ears_so_far result
        (ear_line format.now.order format.now.size start (map step_of steps)
        (option_map ear_of last) (texts_of words.now)) }
{
    if !is_either_ear(last.is_some(), words) {
        return Err(RuleFault::Fault(FaultKind::Word));
    }
    let ear = match ear_told(format, words) {
        Ok(ear) => ear,
        Err(refusal) => return Err(refusal),
    };
    let read = with_ear(start, steps, last, is_ear(words), ear)?;
    Ok(read)
}

impl LineFormat for EarFormat {
    type Body = EarsRead;

    type Value = EarList;

    type Kind = FaultKind;

    ghost State = { EarsSoFar };

    ghost Meaning = { PlainEars };

    ghost state = { ears_so_far };

    ghost meaning = { ears_of };

    ghost rules = { λ format. ear_format format.order format.size };

    fn header(&self, words: &[&[u8]]) -> Result<EarsRead, RuleFault<FaultKind>> {
        read_header(self.order, self.size, words)
    }

    fn line(&self, body: EarsRead, words: &[&[u8]]) -> Result<EarsRead, RuleFault<FaultKind>> {
        match body {
            EarsRead::Headed => read_start(self.alloc, self.size, words),
            EarsRead::Started { start, steps, last } => read_ear(self, start, steps, last, words),
        }
    }

    fn close(&self, body: EarsRead) -> Result<EarList, RuleFault<FaultKind>> {
        match body {
            EarsRead::Headed => Err(RuleFault::Fault(FaultKind::Missing)),
            EarsRead::Started { start, steps, last } => {
                let steps = close_last(steps, last)?;
                Ok(EarList { start, steps })
            }
        }
    }

    fn headless(&self) -> FaultKind {
        FaultKind::Header
    }
}

/// Reads an ear list for a graph of `n` vertices and `m` edges: the list that the bytes stand for,
/// or the first line outside the format with the kind of its error. All numbers of the list are in
/// range, and no ear is empty. The errors are `TextFault::At`, with this line and kind, and
/// `TextFault::Memory`, which may come at any time. Takes O(b) time for b bytes.
pub fn read_ears(alloc: Global, bytes: &[u8], n: u32, m: u32) -> Result<EarList, TextFault>
    requires { length bytes.now < 2 ^ 32 - 1 }
    ensures fits { IfOk result (λ list. FitsEars n m (ears_of list)) }
    ensures filled { IfOk result (λ list. AllByRecursion HasEdges (ears_of list).steps) }
    ensures value { IfOk result (λ list. Stands (ear_format n m) bytes.now (ears_of list)) }
    ensures fault { IfErr result (IsFirstFault (ear_format n m) bytes.now) }
    ensures stands { (list : PlainEars) → Stands (ear_format n m) bytes.now list →
        ReadsText ears_of result (Ok list) }
    ensures breaks { (line : ℕ) (kind : FaultKind) →
        FirstFault (ear_format n m) bytes.now line kind →
        ReadsText ears_of result (Err (line, kind)) }
{
    let format = EarFormat {
        alloc,
        order: n,
        size: m,
    };
    read_text(alloc, &format, bytes)
}
