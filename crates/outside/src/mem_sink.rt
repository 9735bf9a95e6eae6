//! A sink in memory, some of whose writes fail.
ghost use Rattle.std.specs.Prelude.{◌≡◌, ◌≤◌, ◌++◌, ◌∷◌, [], ◌↔◌, IfOk, OnOk, OnErr, IsErr, Contains, false, length, take};
ghost use Rattle.std.specs.declared.option.Option.TheVariants.{Some};
ghost use Rattle.outside.specs.Faults.{next_call, next_fault, faults_after};
ghost use Rattle.outside.specs.MemSink.{share, IsWrite};

use crate::planned::CallPlan;
use crate::{Outlet, Sink, SinkFailed};
use std::alloc::{AllocError as Memory, Global};
use std::marker::Model;

/// A sink in memory, which makes its bytes known: it has a room, takes at most a given number of
/// bytes per call, and its writes of chosen numbers fail.
///
/// A contract sees it as a `SinkState`: the bytes written, the room, the most per call, the planned
/// numbers, and the counts of calls and of errors, each of which saturates at its type's largest
/// value.
#[derive(Drop)]
pub struct MemSink {
    buffer: Vec<u8>,
    room: usize,
    most: usize,
    plan: CallPlan,
}

impl Model for MemSink {
    ghost use Rattle.std.specs.Prelude.{vec_len, vec_capacity, ◌≤◌};
    ghost use Rattle.outside.specs.MemSink.{SinkState};

    ghost Value = { SinkState };

    ghost view = { λ sink. record {
      written = sink.buffer.items;
      room = sink.room;
      most = sink.most;
      failing = sink.plan.failing.items;
      calls = sink.plan.calls;
      faults = sink.plan.faults;
    } };

    ghost invariant = { λ sink. (vec_len sink.buffer ≤ sink.room) × (sink.room ≤ vec_capacity sink.buffer) };
}

impl MemSink {
    /// An empty sink with room for `room` bytes, all allocated now, which takes at most `most`
    /// bytes per call. `Memory` if the room cannot be allocated.
    pub fn new(alloc: Global, room: usize, most: usize) -> Result<MemSink, Memory>
        requires { 1 ≤ most }
        ensures { IfOk result (λ sink. sink ≡ record {
          written = [];
          room = room;
          most = most;
          failing = [];
          calls = 0;
          faults = 0;
        }) }
    {
        Ok(MemSink {
            buffer: Vec::with_capacity(alloc, room)?,
            room,
            most,
            plan: CallPlan::new(alloc),
        })
    }

    /// Plans the write call of that number to fail. Calls are counted from 1. After `Memory`
    /// nothing has changed.
    pub fn fail_write(&mut self, call: u32) -> Result<(), Memory>
        ensures ok { OnOk result
            (self.new ≡ record self.old { failing = self.old.failing ++ call ∷ [] }) }
        ensures err { OnErr result (self.new ≡ self.old) }
    {
        self.plan.fail(call)
    }

    /// The bytes written so far. It takes no memory.
    pub fn bytes(&self) -> &[u8]
        ensures { result.now ≡ self.now.written }
    {
        &self.buffer
    }
}

impl Sink for MemSink {
    ghost written = { λ sink. Some sink.written };

    ghost faults = { λ sink. sink.faults };

    ghost writes = { IsWrite };

    /// It takes no memory.
    fn write(&mut self, bytes: &[u8]) -> Result<usize, SinkFailed>
        // A call fails if and only if its number is planned; every other call takes its share.
        ensures failed { IsErr result ↔ Contains self.old.failing (next_call self.old.calls) }
        ensures share { IfOk result (λ count. count ≡ share self.old (length bytes.now)) }

        ensures later { self.old.faults ≤ self.new.faults }
        ensures ok { IfOk result (λ count. self.new ≡ record self.old {
          written = self.old.written ++ take count bytes.now;
          calls = next_call self.old.calls;
          faults = faults_after self.old.faults count (length bytes.now);
        }) }
        ensures err { OnErr result (self.new ≡ record self.old {
          calls = next_call self.old.calls;
          faults = next_fault self.old.faults;
        }) }
    {
        if self.plan.fails_next() {
            return Err(SinkFailed);
        }
        let count = bytes
            .len()
            .min(self.most)
            .min(self.room - self.buffer.len());
        if count == 0 && !bytes.is_empty() {
            self.plan.count_fault();
        }
        self.buffer.extend_from_slice(&bytes[..count]).unwrap();
        Ok(count)
    }
}

/// Somebody always reads it.
impl Outlet for MemSink {
    ghost is_abandoned = { λ _. false };

    fn is_abandoned(&self) -> bool {
        false
    }
}
