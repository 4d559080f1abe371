//! Why an act was not committed.
ghost use Rattle.std.specs.Prelude.{◌≡◌};
ghost use Rattle.edit_rules.specs.declared.commit_fault.EditFault.TheVariants as Fault;

use crate::acts::Breach;
use emu_names::Memory;
use std::alloc::{AllocError, AllocFailed};
use thiserror::Error;

/// Why an act was not accepted. The number says how many entries stand in the book.
#[derive(Debug, Drop, PartialEq, Eq, Error)]
pub enum EditFault {
    /// The history has 100,000 entries.
    #[error("the history is full")]
    HistoryFull(u64),
    /// The first edit of the act that breaks a rule after these entries, and the rule.
    #[error("a rule is broken")]
    Broken(Breach, u64),
    /// With the entry the store would pass its limit of 268,435,456 bytes.
    #[error("the store is full")]
    StoreFull(u64),
    /// The disk failed in this call.
    #[error("the disk failed")]
    Disk,
    /// Want of memory.
    #[error("out of memory")]
    Memory,
}

impl From<Memory> for EditFault {
    ghost from_gives = { λ _ e. e ≡ Fault.Memory };

    fn from(_: Memory) -> Self {
        EditFault::Memory
    }
}

impl From<AllocError> for EditFault {
    ghost from_gives = { λ _ e. e ≡ Fault.Memory };

    fn from(_: AllocError) -> Self {
        EditFault::Memory
    }
}

impl<T: Drop> From<AllocFailed<T>> for EditFault {
    ghost from_gives = { λ _ e. e ≡ Fault.Memory };

    fn from(_: AllocFailed<T>) -> Self {
        EditFault::Memory
    }
}
