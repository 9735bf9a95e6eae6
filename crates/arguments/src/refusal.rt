//! Why the arguments were not read.
ghost use Rattle.std.specs.Prelude.{◌≡◌, ℕ};
ghost use Rattle.std.specs.Global.{Vec};
ghost use Rattle.arguments.specs.declared.refusal.ArgumentFault.TheVariants.{Memory, NotText};

use std::alloc::AllocError;

/// Why the arguments were not read.
#[derive(Debug, PartialEq, Eq, Drop)]
pub enum ArgumentFault {
    /// Memory ran out.
    Memory,
    /// The argument at this place, counted from 1, is not UTF-8. These are its bytes.
    NotText { place: usize, bytes: Vec<u8> },
}

impl From<AllocError> for ArgumentFault {
    ghost from_gives = { λ _ refusal. refusal ≡ Memory };

    fn from(_error: AllocError) -> ArgumentFault {
        ArgumentFault::Memory
    }
}

impl ArgumentFault {
    /// The exit status: 6 for lack of memory, and 7, which no run has, for an argument that is not
    /// UTF-8. Takes no memory.
    pub fn code(&self) -> u8
        ensures memory { self.now ≡ Memory → result ≡ 6 }
        ensures text { (place : ℕ) (bytes : Vec ℕ) → self.now ≡ NotText place bytes → result ≡ 7 }
    {
        match self {
            ArgumentFault::Memory => 6,
            ArgumentFault::NotText { .. } => 7,
        }
    }
}
