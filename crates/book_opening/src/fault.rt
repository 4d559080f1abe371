//! Why no book is opened or made.
ghost use Rattle.std.specs.Prelude.{◌≡◌};
ghost use Rattle.book_opening.specs.declared.fault.OpenFault.TheVariants as NoStore;

use edit_journal::Memory;
use std::alloc::AllocFailed;
use thiserror::Error;

/// Why no book was opened or made.
#[derive(Clone, Copy, Debug, PartialEq, Eq, Error)]
pub enum OpenFault {
    /// The disk failed in this call.
    #[error("the disk failed")]
    Disk,
    /// The store's bytes stand for no configuration and history: the place of the damage, in bytes
    /// from 0.
    #[error("the store is damaged at byte {0}")]
    Damaged(u64),
    /// With the configuration the store would pass its limit of 268,435,456 bytes.
    #[error("the store is full")]
    StoreFull,
    /// Want of memory.
    #[error("out of memory")]
    Memory,
}

impl From<Memory> for OpenFault {
    ghost from_gives = { λ _ e. e ≡ NoStore.Memory };

    fn from(_: Memory) -> Self {
        OpenFault::Memory
    }
}

impl<T: Drop> From<AllocFailed<T>> for OpenFault {
    ghost from_gives = { λ _ e. e ≡ NoStore.Memory };

    fn from(_: AllocFailed<T>) -> Self {
        OpenFault::Memory
    }
}
