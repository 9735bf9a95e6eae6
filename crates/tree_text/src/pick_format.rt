//! The pick format.
ghost use Rattle.std.specs.Prelude.{◌≡◌, ◌<◌, ◌≤◌, ◌-◌, ◌^◌, ℕ, List, length, IfOk, IfErr, Ok, Err};
ghost use Rattle.graph_core.specs.from_line_text.Common.{Gives, Stands, FirstFault, texts_of, IsFirstFault, ReadsText};
ghost use Rattle.graph_core.specs.from_line_text.declared.faults.FaultKind.{FaultKind};
ghost use Rattle.tree_text.specs.PickFormat.{PicksSoFar, pick_header, pick_line, pick_end, pick_format};
ghost use Rattle.tree_text.specs.SoFar.{picks_so_far};

use graph_core::Numbers;
use graph_core::line_text::{
    FaultKind, LineFormat, RuleFault, TextFault, has_form, number, read_text, word,
};
use std::alloc::Global;

const MOST_PICKS: u32 = 127;

// The picks read so far, and how many are expected.
#[derive(Drop)]
struct PicksRead {
    count: u32,
    picks: Numbers,
}

// The format.
#[derive(Drop)]
struct PickFormat {
    alloc: Global,
}

fn read_header(alloc: Global, words: &[&[u8]]) -> Result<PicksRead, RuleFault<FaultKind>>
    ensures { Gives picks_so_far result (pick_header (texts_of words.now)) }
{
    if !has_form(words, 3, &["s", "mcg"]) {
        return Err(RuleFault::Fault(FaultKind::Header));
    }
    let Some(count) = number(word(words, 2)) else {
        return Err(RuleFault::Fault(FaultKind::Number));
    };
    if count > MOST_PICKS {
        return Err(RuleFault::Fault(FaultKind::Limit));
    }
    let picks = Numbers::new(alloc);
    Ok(PicksRead { count, picks })
}

fn read_pick(body: PicksRead, words: &[&[u8]]) -> Result<PicksRead, RuleFault<FaultKind>>
    ensures { Gives picks_so_far result (pick_line (picks_so_far body) (texts_of words.now)) }
{
    let PicksRead { count, mut picks } = body;
    if picks.len() == count as usize {
        return Err(RuleFault::Fault(FaultKind::Extra));
    }
    if !has_form(words, 2, &["pick"]) {
        return Err(RuleFault::Fault(FaultKind::Word));
    }
    let Some(place) = number(word(words, 1)) else {
        return Err(RuleFault::Fault(FaultKind::Number));
    };
    picks.push(place)?;
    Ok(PicksRead { count, picks })
}

fn close_picks(body: PicksRead) -> Result<Numbers, RuleFault<FaultKind>>
    ensures { Gives (λ (picks : List ℕ). picks) result (pick_end (picks_so_far body)) }
{
    if body.picks.len() == body.count as usize {
        Ok(body.picks)
    } else {
        Err(RuleFault::Fault(FaultKind::Missing))
    }
}

impl LineFormat for PickFormat {
    type Body = PicksRead;

    type Value = Numbers;

    type Kind = FaultKind;

    ghost State = { PicksSoFar };

    ghost Meaning = { List ℕ };

    ghost state = { picks_so_far };

    ghost meaning = { λ picks. picks };

    ghost rules = { λ _. pick_format };

    fn header(&self, words: &[&[u8]]) -> Result<PicksRead, RuleFault<FaultKind>> {
        read_header(self.alloc, words)
    }

    fn line(&self, body: PicksRead, words: &[&[u8]]) -> Result<PicksRead, RuleFault<FaultKind>> {
        read_pick(body, words)
    }

    fn close(&self, body: PicksRead) -> Result<Numbers, RuleFault<FaultKind>> {
        close_picks(body)
    }

    fn headless(&self) -> FaultKind {
        FaultKind::Header
    }
}

/// Reads a list of picks: the numbers that the bytes stand for, or the first line outside the
/// format with the kind of its error. The errors are `TextFault::At`, with this line and kind, and
/// `TextFault::Memory`, which may come at any time. Takes O(b) time for b bytes.
pub fn read_picks(alloc: Global, bytes: &[u8]) -> Result<Numbers, TextFault>
    requires { length bytes.now < 2 ^ 32 - 1 }
    ensures value { IfOk result (λ picks. Stands pick_format bytes.now picks) }
    ensures fault { IfErr result (IsFirstFault pick_format bytes.now) }
    ensures stands { (picks : List ℕ) → Stands pick_format bytes.now picks →
        ReadsText (λ (xs : List ℕ). xs) result (Ok picks) }
    ensures breaks { (line : ℕ) (kind : FaultKind) → FirstFault pick_format bytes.now line kind →
        ReadsText (λ (xs : List ℕ). xs) result (Err (line, kind)) }
{
    read_text(alloc, &PickFormat { alloc }, bytes)
}
