//! A sink that counts bytes and keeps none.
ghost use Rattle.std.specs.Prelude.{◌≡◌, ◌+◌, ◌-◌, ◌^◌, Ok, length, min};
ghost use Rattle.std.specs.declared.option.Option.TheVariants.{None};

use crate::{Sink, SinkFailed};
use std::marker::Model;

/// A sink that counts bytes and keeps none: it takes every piece whole, never fails, and makes no
/// content known.
///
/// A contract sees it as the number of bytes written, which saturates at the largest u64. No call
/// takes memory.
#[derive(Drop)]
pub struct CountSink {
    count: u64,
}

impl Model for CountSink {
    ghost use Rattle.std.specs.Prelude.{ℕ};

    ghost Value = { ℕ };

    ghost view = { λ sink. sink.count };
}

impl CountSink {
    /// A sink to which nothing has been written.
    pub fn new() -> CountSink
        ensures { result ≡ 0 }
    {
        CountSink { count: 0 }
    }

    /// How many bytes were written, at most the largest u64.
    pub fn count(&self) -> u64
        ensures { result ≡ self.now }
    {
        self.count
    }
}

impl Sink for CountSink {
    ghost written = { λ sink. None };

    ghost faults = { λ sink. 0 };

    ghost writes = { λ before piece count now. (count ≡ length piece)
        × (now ≡ min (before + length piece) (2 ^ 64 - 1)) };

    fn write(&mut self, bytes: &[u8]) -> Result<usize, SinkFailed>
        ensures whole { result ≡ Ok (length bytes.now) }
        ensures count { self.new ≡ min (self.old + length bytes.now) (2 ^ 64 - 1) }
    {
        self.count = self.count.saturating_add(bytes.len() as u64);
        Ok(bytes.len())
    }
}
