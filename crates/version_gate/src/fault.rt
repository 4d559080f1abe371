//! Why a call gave nothing.
ghost use Rattle.std.specs.Prelude.{◌≡◌};
ghost use Rattle.version_gate.specs.declared.fault.LookFault.TheVariants as Fault;

use std::alloc::{AllocError, AllocFailed};
use thiserror::Error;

/// Want of memory.
#[derive(Clone, Copy, Debug, PartialEq, Eq)]
pub struct Memory;

impl From<AllocError> for Memory {
    fn from(_: AllocError) -> Self {
        Memory
    }
}

impl<T: Drop> From<AllocFailed<T>> for Memory {
    fn from(_: AllocFailed<T>) -> Self {
        Memory
    }
}

/// Why a look gave no version. Look again: nothing was lost.
#[derive(Clone, Copy, Debug, PartialEq, Eq, Error)]
pub enum LookFault {
    /// There was no version to enter, or it was older than what the pass has seen or learnt.
    #[error("no version could be entered")]
    NoEntry,
    /// Want of memory: the version's shared pointer could not be copied.
    #[error("out of memory")]
    Memory,
}

impl From<Memory> for LookFault {
    ghost from_gives = { λ _ e. e ≡ Fault.Memory };

    fn from(_: Memory) -> Self {
        LookFault::Memory
    }
}
