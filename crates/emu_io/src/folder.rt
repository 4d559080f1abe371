//! The folder that files are read from, and why it gives nothing.
ghost use Rattle.std.specs.Prelude.{◌≡◌, ℕ, List, Option, Result};
ghost use Rattle.emu_io.specs.declared.tree.Stored.{Stored};
ghost use Rattle.emu_io.specs.Folders.{HasFolderCause, IsAnswer, file_answer, list_answer};
ghost use Rattle.emu_io.specs.Inner.Folders.{faults_after, misses_after};

use crate::entries::{FileBytes, FolderEntries};
use crate::faults::Memory;
use std::alloc::{AllocError, AllocFailed, Global};
use thiserror::Error;

/// Why a folder was not listed or a file not read.
#[derive(Clone, Copy, Debug, PartialEq, Eq, Error)]
pub enum FolderFault {
    /// A call on the outside failed. The folder's count of faults rose in that call.
    #[error("a folder could not be read")]
    Failed,
    /// No such file, or no such folder, is there.
    #[error("not there")]
    Absent,
    /// A file has over 67,108,864 bytes, or a folder over 65,536 entries.
    #[error("too large")]
    TooLarge,
    /// Memory ran out.
    #[error("out of memory")]
    Memory,
}

impl FolderFault {
    /// The same fault again.
    pub fn copy(&self) -> FolderFault
        ensures { result ≡ self.now }
    {
        *self
    }
}

impl From<Memory> for FolderFault {
    ghost use Rattle.std.specs.Prelude.{◌≡◌};
    ghost use Rattle.emu_io.specs.declared.folder.FolderFault.TheVariants.{Memory as OutOfMemory};

    ghost from_gives = { λ _ e. e ≡ OutOfMemory };

    fn from(_error: Memory) -> FolderFault {
        FolderFault::Memory
    }
}

impl From<AllocError> for FolderFault {
    ghost use Rattle.std.specs.Prelude.{◌≡◌};
    ghost use Rattle.emu_io.specs.declared.folder.FolderFault.TheVariants.{Memory as OutOfMemory};

    ghost from_gives = { λ _ e. e ≡ OutOfMemory };

    fn from(_error: AllocError) -> FolderFault {
        FolderFault::Memory
    }
}

impl<T: Drop> From<AllocFailed<T>> for FolderFault {
    ghost use Rattle.std.specs.Prelude.{◌≡◌};
    ghost use Rattle.emu_io.specs.declared.folder.FolderFault.TheVariants.{Memory as OutOfMemory};

    ghost from_gives = { λ _ e. e ≡ OutOfMemory };

    fn from(_error: AllocFailed<T>) -> FolderFault {
        FolderFault::Memory
    }
}

/// Files and folders by their paths, whose parts are joined by `/`.
///
/// `Failed` comes only where the count of faults rose in that call, `Absent` and `TooLarge` only
/// where the count of misses rose. Where the content is told, a call that neither fails nor lacks
/// memory answers just what the content says: `Absent` exactly where the path is not there,
/// `TooLarge` exactly past the limit.
pub trait Folder {
    /// What is stored, where the folder tells it.
    ghost content: { Self → Option (List Stored) };

    /// How often a call failed. It never falls.
    ghost faults: { Self → ℕ };

    /// How often what was asked for was not there or was too large. It never falls.
    ghost misses: { Self → ℕ };

    /// The entries directly below a path, in order of name. `TooLarge` stands for over 65,536.
    fn list(&mut self, alloc: Global, path: &str) -> Result<FolderEntries, FolderFault>
        ensures answer { IsAnswer (content self.old) (list_answer path.now) result }
        ensures same { content self.new ≡ content self.old }
        ensures cause { HasFolderCause (faults self.old) (faults self.new)
            (misses self.old) (misses self.new) result };

    /// The bytes of the file at a path. `TooLarge` stands for over 67,108,864.
    fn read_file(&mut self, alloc: Global, path: &str) -> Result<FileBytes, FolderFault>
        ensures answer { IsAnswer (content self.old) (file_answer path.now) result }
        ensures same { content self.new ≡ content self.old }
        ensures cause { HasFolderCause (faults self.old) (faults self.new)
            (misses self.old) (misses self.new) result };
}

/// The count of faults after an answer.
pub(crate) fn count_fault<T>(faults: u64, answer: &Result<T, FolderFault>) -> u64
    ensures { result ≡ faults_after faults answer.now }
{
    match answer {
        Err(FolderFault::Failed) => faults.saturating_add(1),
        _ => faults,
    }
}

/// The count of misses after an answer: one more where that is `Absent` or `TooLarge`, up to 2^64 - 1.
pub fn count_miss<T>(misses: u64, answer: &Result<T, FolderFault>) -> u64
    ensures { result ≡ misses_after misses answer.now }
{
    match answer {
        Err(FolderFault::Absent | FolderFault::TooLarge) => misses.saturating_add(1),
        _ => misses,
    }
}
