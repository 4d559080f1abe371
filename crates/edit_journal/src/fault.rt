//! Why a journal cannot be recovered or added to.
ghost use Rattle.std.specs.Prelude.{◌≡◌};
ghost use Rattle.edit_journal.specs.declared.fault.JournalFault.TheVariants as Fault;

use emu_disk::Disk;
use emu_names::Memory;
use std::alloc::AllocError;
use thiserror::Error;

/// A journal's refusal.
#[derive(Clone, Copy, Debug, PartialEq, Eq, Error)]
pub enum JournalFault {
    /// The disk failed in this call.
    #[error("the disk failed")]
    Disk,
    /// The store's bytes stand for no list of bodies: the place of the damage, in bytes from 0.
    #[error("the store is damaged at byte {0}")]
    Damaged(u64),
    /// The store with this body would pass its limit of 268,435,456 bytes.
    #[error("the store is full")]
    StoreFull,
    /// Want of memory.
    #[error("out of memory")]
    Memory,
}

impl JournalFault {
    /// The same again.
    pub fn copy(&self) -> JournalFault
        ensures { result ≡ self.now }
    {
        *self
    }
}

impl From<Memory> for JournalFault {
    ghost from_gives = { λ _ e. e ≡ Fault.Memory };

    fn from(_: Memory) -> Self {
        JournalFault::Memory
    }
}

impl From<AllocError> for JournalFault {
    ghost from_gives = { λ _ e. e ≡ Fault.Memory };

    fn from(_: AllocError) -> Self {
        JournalFault::Memory
    }
}

/// A disk from which no journal was recovered, and why.
#[derive(Drop)]
pub struct NoJournal<D: Disk> {
    pub fault: JournalFault,
    pub disk: D,
}
