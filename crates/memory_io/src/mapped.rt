//! Folders in memory: one that fails at the calls that its maker lists, and one that never fails.
ghost use Rattle.std.specs.Prelude.{◌≡◌, ◌↔◌, Contains, IsErrOf};
ghost use Rattle.emu_names.specs.Inner.Count.{next_count};
ghost use Rattle.emu_io.specs.Folders.{HasFolderCause, IsAnswer, file_answer, list_answer};
ghost use Rattle.emu_io.specs.Inner.Folders.{faults_after, misses_after};

use crate::tree::{list_of, read_of};
use emu_io::{FileBytes, Folder, FolderEntries, FolderFault, Stored, count_miss};
use std::alloc::Global;
use std::marker::Model;

/// A folder of given files and folders, which fails at listed calls.
#[derive(Drop)]
pub struct MapFolder {
    stored: Vec<Stored>,
    calls: u64,
    fails: Vec<u64>,
    faults: u64,
    misses: u64,
}

impl Model for MapFolder {
    ghost use Rattle.memory_io.specs.Inner.InMemory.{ListedFolder};

    ghost Value = { ListedFolder };

    ghost view = { λ f. record {
      content = f.stored.items;
      calls = f.calls;
      fails = f.fails.items;
      faults = f.faults;
      misses = f.misses;
    } };
}

impl MapFolder {
    /// The folder of what is stored, whose calls fail at the numbers in `fails`, counted from 1 over
    /// listings and readings together. Where two files are stored at one path, the first one counts.
    pub fn new(stored: Vec<Stored>, fails: Vec<u64>) -> MapFolder
        ensures content { result.content ≡ stored.items }
        ensures calls { result.calls ≡ 0 }
        ensures fails { result.fails ≡ fails.items }
        ensures faults { result.faults ≡ 0 }
        ensures misses { result.misses ≡ 0 }
    {
        MapFolder {
            stored,
            calls: 0,
            fails,
            faults: 0,
            misses: 0,
        }
    }

    /// How often a call failed.
    pub fn faults(&self) -> u64
        ensures { result ≡ self.now.faults }
    {
        self.faults
    }

    /// How often what was asked for was not there or was too large.
    pub fn misses(&self) -> u64
        ensures { result ≡ self.now.misses }
    {
        self.misses
    }
}

impl Folder for MapFolder {
    ghost use Rattle.std.specs.Prelude.{Some};

    ghost content = { λ f. Some f.content };

    ghost faults = { λ f. f.faults };

    ghost misses = { λ f. f.misses };

    fn list(&mut self, alloc: Global, path: &str) -> Result<FolderEntries, FolderFault>
        ensures answer { IsAnswer (Some self.old.content) (list_answer path.now) result }
        ensures same { Some self.new.content ≡ Some self.old.content }
        ensures cause { HasFolderCause self.old.faults self.new.faults
            self.old.misses self.new.misses result }

        // It fails exactly at the listed calls, and counts each fault and each miss once.
        ensures listed { IsErrOf result FolderFault.Failed
            ↔ Contains self.old.fails (next_count self.old.calls) }
        ensures counted { self.new.calls ≡ next_count self.old.calls }
        ensures kept { self.new.fails ≡ self.old.fails }
        ensures faults { self.new.faults ≡ faults_after self.old.faults result }
        ensures misses { self.new.misses ≡ misses_after self.old.misses result }
    {
        self.calls = self.calls.saturating_add(1);
        if self.fails.contains(&self.calls) {
            self.faults = self.faults.saturating_add(1);
            return Err(FolderFault::Failed);
        }
        let answer = list_of(alloc, &self.stored, path);
        self.misses = count_miss(self.misses, &answer);
        answer
    }

    fn read_file(&mut self, alloc: Global, path: &str) -> Result<FileBytes, FolderFault>
        ensures answer { IsAnswer (Some self.old.content) (file_answer path.now) result }
        ensures same { Some self.new.content ≡ Some self.old.content }
        ensures cause { HasFolderCause self.old.faults self.new.faults
            self.old.misses self.new.misses result }

        // It fails exactly at the listed calls, and counts each fault and each miss once.
        ensures listed { IsErrOf result FolderFault.Failed
            ↔ Contains self.old.fails (next_count self.old.calls) }
        ensures counted { self.new.calls ≡ next_count self.old.calls }
        ensures kept { self.new.fails ≡ self.old.fails }
        ensures faults { self.new.faults ≡ faults_after self.old.faults result }
        ensures misses { self.new.misses ≡ misses_after self.old.misses result }
    {
        self.calls = self.calls.saturating_add(1);
        if self.fails.contains(&self.calls) {
            self.faults = self.faults.saturating_add(1);
            return Err(FolderFault::Failed);
        }
        let answer = read_of(alloc, &self.stored, path);
        self.misses = count_miss(self.misses, &answer);
        answer
    }
}

/// A folder of given files and folders that never fails.
#[derive(Drop)]
pub struct SureFolder {
    stored: Vec<Stored>,
    misses: u64,
}

impl Model for SureFolder {
    ghost use Rattle.memory_io.specs.Inner.InMemory.{CountedFolder};

    ghost Value = { CountedFolder };

    ghost view = { λ f. record { content = f.stored.items; misses = f.misses } };
}

impl SureFolder {
    /// The folder of what is stored. Where two files are stored at one path, the first one counts.
    pub fn new(stored: Vec<Stored>) -> SureFolder
        ensures content { result.content ≡ stored.items }
        ensures misses { result.misses ≡ 0 }
    {
        SureFolder { stored, misses: 0 }
    }

    /// How often what was asked for was not there or was too large.
    pub fn misses(&self) -> u64
        ensures { result ≡ self.now.misses }
    {
        self.misses
    }
}

impl Folder for SureFolder {
    ghost use Rattle.std.specs.Prelude.{Some};

    ghost content = { λ f. Some f.content };

    ghost faults = { λ _. 0 };

    ghost misses = { λ f. f.misses };

    fn list(&mut self, alloc: Global, path: &str) -> Result<FolderEntries, FolderFault>
        ensures answer { IsAnswer (Some self.old.content) (list_answer path.now) result }
        ensures same { Some self.new.content ≡ Some self.old.content }
        ensures cause { HasFolderCause 0 0 self.old.misses self.new.misses result }

        // It never fails, and counts each miss once.
        ensures sure { IsErrOf result FolderFault.Failed → ⊥ }
        ensures misses { self.new.misses ≡ misses_after self.old.misses result }
    {
        let answer = list_of(alloc, &self.stored, path);
        self.misses = count_miss(self.misses, &answer);
        answer
    }

    fn read_file(&mut self, alloc: Global, path: &str) -> Result<FileBytes, FolderFault>
        ensures answer { IsAnswer (Some self.old.content) (file_answer path.now) result }
        ensures same { Some self.new.content ≡ Some self.old.content }
        ensures cause { HasFolderCause 0 0 self.old.misses self.new.misses result }

        // It never fails, and counts each miss once.
        ensures sure { IsErrOf result FolderFault.Failed → ⊥ }
        ensures misses { self.new.misses ≡ misses_after self.old.misses result }
    {
        let answer = read_of(alloc, &self.stored, path);
        self.misses = count_miss(self.misses, &answer);
        answer
    }
}
