//! Why bytes are no code.
ghost use Rattle.std.specs.Prelude.{◌≡◌};

use emu_names::Memory;
use thiserror::Error;

/// Why bytes are not read.
#[derive(Clone, Copy, Debug, PartialEq, Eq, Error)]
pub enum CodeFault {
    /// The bytes are no code. The place, in bytes from 0, is that of the first byte that, with those before it,
    /// begins no bytes in the form of a code, or else their length.
    #[error("no code goes on at byte {0}")]
    NotAnEntry(u64),
    /// Memory ran out.
    #[error("out of memory")]
    Memory,
}

impl CodeFault {
    /// The same fault again.
    pub fn copy(&self) -> CodeFault
        ensures { result ≡ self.now }
    {
        *self
    }
}

impl From<Memory> for CodeFault {
    ghost use Rattle.std.specs.Prelude.{◌≡◌};
    ghost use Rattle.edit_code.specs.declared.fault.CodeFault.TheVariants.{Memory as OutOfMemory};

    ghost from_gives = { λ _ e. e ≡ OutOfMemory };

    fn from(_error: Memory) -> CodeFault {
        CodeFault::Memory
    }
}
