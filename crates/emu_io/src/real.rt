//! The real folder that the program runs in: the trusted edge, which tells nothing of its content.
ghost use Rattle.std.specs.Prelude.{◌≡◌, None};
ghost use Rattle.emu_io.specs.Inner.Folders.{faults_after, misses_after};

use crate::adapters::InputSource;
use crate::entries::{FileBytes, FileName, FolderEntries, FolderEntry};
use crate::faults::ReadFault;
use crate::folder::{Folder, FolderFault, count_fault, count_miss};
use crate::limits::{FILE_BYTES, FOLDER_ENTRIES};
use crate::whole::read_front;
use std::alloc::Global;
use std::fs::OpenFile;
use std::io::{ErrorKind, Read};
use std::rt::Files;
use std::{fs, io};

// A file name that is not UTF-8 is a fault.
impl From<io::Error> for FolderFault {
    fn from(error: io::Error) -> FolderFault {
        match error.kind() {
            ErrorKind::NotFound | ErrorKind::NotADirectory => FolderFault::Absent,
            ErrorKind::OutOfMemory => FolderFault::Memory,
            _ => FolderFault::Failed,
        }
    }
}

impl From<ReadFault> for FolderFault {
    fn from(fault: ReadFault) -> FolderFault {
        match fault {
            ReadFault::Failed => FolderFault::Failed,
            ReadFault::Memory => FolderFault::Memory,
        }
    }
}

// Whether a path leads to a folder. A link that leads nowhere does not.
fn is_folder<R: Files>(rt: &R, path: &str) -> io::Result<bool> {
    match fs::metadata(rt, path) {
        Ok(found) => Ok(found.is_dir()),
        Err(error) if error.kind() == ErrorKind::NotFound => Ok(false),
        Err(error) => Err(error),
    }
}

fn entries_of<R: Files + Clone + Drop>(
    rt: &R,
    alloc: Global,
    path: &str,
) -> Result<FolderEntries, FolderFault> {
    let files = (rt.clone()?, alloc);
    let mut entries = Vec::new(alloc);
    for found in fs::read_dir(&files, path)? {
        let found = found?;
        if entries.len() >= FOLDER_ENTRIES {
            return Err(FolderFault::TooLarge);
        }
        let folder = is_folder(rt, found.path().as_str())?;
        let name = FileName::new(alloc, found.file_name())?;
        entries.push(FolderEntry { name, folder })?;
    }
    entries.sort_unstable_by(|a, b| a.name.cmp(&b.name));
    Ok(FolderEntries::from_vec(entries))
}

fn bytes_of<R: Files>(rt: &R, alloc: Global, path: &str) -> Result<FileBytes, FolderFault> {
    let file = fs::open(rt, path)?;
    if file.metadata()?.is_dir() {
        return Err(FolderFault::Absent);
    }
    let mut source = InputSource::new(file.take(FILE_BYTES as u64 + 1));
    let front = read_front(alloc, &mut source, FILE_BYTES)?;
    if front.past {
        return Err(FolderFault::TooLarge);
    }
    Ok(FileBytes::from_vec(front.bytes))
}

/// The folder that the program runs in, to which paths are relative. It counts each call that fails,
/// and each that finds nothing or too much. It tells nothing of its content. A folder is no file, and
/// a file no folder: each is absent where the other is asked for. Links are followed.
#[derive(Drop)]
pub struct RealFolder<R: Files + Clone + Drop> {
    rt: R,
    faults: u64,
    misses: u64,
}

impl<R: Files + Clone + Drop> RealFolder<R> {
    /// The folder, of which no call has failed.
    pub fn new(rt: R) -> RealFolder<R>
        ensures faults { ⟦<RealFolder<R> as Folder>⟧.faults result ≡ 0 }
        ensures misses { ⟦<RealFolder<R> as Folder>⟧.misses result ≡ 0 }
    {
        RealFolder {
            rt,
            faults: 0,
            misses: 0,
        }
    }

    /// How often a call failed.
    pub fn faults(&self) -> u64
        ensures { result ≡ ⟦<RealFolder<R> as Folder>⟧.faults self.now }
    {
        self.faults
    }

    /// How often what was asked for was not there or was too large.
    pub fn misses(&self) -> u64
        ensures { result ≡ ⟦<RealFolder<R> as Folder>⟧.misses self.now }
    {
        self.misses
    }
}

impl<R: Files + Clone + Drop> Folder for RealFolder<R> {
    ghost content = { λ _. None };

    ghost faults = { λ f. f.faults };

    ghost misses = { λ f. f.misses };

    fn list(&mut self, alloc: Global, path: &str) -> Result<FolderEntries, FolderFault> {
        let answer = entries_of(&self.rt, alloc, path);
        self.faults = count_fault(self.faults, &answer);
        self.misses = count_miss(self.misses, &answer);
        answer
    }

    fn read_file(&mut self, alloc: Global, path: &str) -> Result<FileBytes, FolderFault> {
        let answer = bytes_of(&self.rt, alloc, path);
        self.faults = count_fault(self.faults, &answer);
        self.misses = count_miss(self.misses, &answer);
        answer
    }
}
