//! The disk over a real file: the trusted edge, which tells nothing of what the file holds.
//!
//! One program at a time has the file. It takes the file's lock before it reads or writes a byte,
//! and keeps it until it ends; the system drops the lock of a program that was killed. Where another
//! program has the lock, the call fails at once. So no order of two programs loses an entry:
//!
//! - One opens the file while the other has it: its call fails, and it has read nothing.
//! - One opens the file, and the other locks it first: its call fails, or, if the other has ended
//!   by then, it reads all that the other wrote, since it reads only under the lock.
//! - One found no file, and the other makes it: the first never opens a file after that, and
//!   `create_new` refuses to make a second one. Its write fails, and the other's entries stay.
//! - One has made the file, and the other locks it before the maker does: the maker's write fails,
//!   and the other begins with the empty file.
//! - One is killed: the file has what its syncs made safe. Killed right after the file was made, it
//!   leaves an empty file, which is a disk of no byte.
//!
//! Each of these failures counts as a fault of the disk. A file system without locks, or a file that
//! is renamed or removed while a program has it, is not guarded by this.
ghost use Rattle.std.specs.Prelude.{◌≡◌, ◌≤◌, ◌+◌, ◌^◌, None, length, IfOk};
ghost use Rattle.emu_disk.specs.Inner.Laws.{not_told};

use crate::disk::{Disk, Failed};
use crate::faults::fault;
use std::fs::{File, OpenFile, OpenOptions};
use std::io;
use std::io::{ErrorKind, Read, Seek, SeekFrom, Write};
use std::rt::Files;

const NAME: &str = "emu.store";

// The file, once it is there and open; whether it was looked for and not found; and whether its
// entry in the folder was synced.
#[derive(Drop)]
struct Store<R: Files<File = File> + Drop> {
    rt: R,
    file: Option<File>,
    absent: bool,
    entry_safe: bool,
}

impl<R: Files<File = File> + Drop> Store<R> {
    // Opens the file where it is there, and makes it where it isn't and is wanted. Once it was not
    // found it is only made: a file that came meanwhile is another program's, and stays as it is.
    fn open(&mut self, make: bool) -> io::Result<()> {
        if self.file.is_some() {
            return Ok(());
        }
        if !self.absent {
            match OpenOptions::new()
                .read(true)
                .write(true)
                .open(&self.rt, NAME)
            {
                Ok(file) => self.file = Some(own(&file)?),
                Err(error) if error.kind() == ErrorKind::NotFound => self.absent = true,
                Err(error) => return Err(error),
            }
        }
        if self.absent && make {
            self.file = Some(own(&File::create_new(&self.rt, NAME)?)?);
        }
        Ok(())
    }

    fn read(&mut self, at: u64, buf: &mut [u8]) -> io::Result<usize>
        ensures { IfOk result (λ n. n ≤ length buf.new) }
    {
        self.open(false)?;
        match &mut self.file {
            Some(file) => {
                file.seek(SeekFrom::Start(at))?;
                fill(file, buf)
            }
            None => Ok(0),
        }
    }

    fn write(&mut self, at: u64, bytes: &[u8]) -> io::Result<()> {
        self.open(true)?;
        match &mut self.file {
            Some(file) => {
                file.seek(SeekFrom::Start(at))?;
                file.write_all(bytes)
            }
            None => Ok(()),
        }
    }

    fn cut(&mut self, len: u64) -> io::Result<()> {
        self.open(false)?;
        match &self.file {
            Some(file) if len < file.metadata()?.len() => file.set_len(len),
            _ => Ok(()),
        }
    }

    fn sync(&mut self) -> io::Result<()> {
        self.open(false)?;
        let Some(file) = &self.file else {
            return Ok(());
        };
        file.sync_all()?;
        if !self.entry_safe {
            File::open(&self.rt, ".")?.sync_all()?;
            self.entry_safe = true;
        }
        Ok(())
    }
}

// Locks the file, or fails at once where another program has it, and gives the handle to keep: a
// duplicate has the same lock, and never the number of a standard stream.
fn own(file: &File) -> io::Result<File> {
    file.try_lock()?;
    file.try_clone()
}

// Reads until the buffer is full or the file ends, and says how many bytes.
fn fill<F: Read>(file: &mut F, buf: &mut [u8]) -> io::Result<usize>
    ensures { IfOk result (λ n. n ≤ length buf.new) }
{
    let mut filled = 0;
    while filled < buf.len() {
        let count = file.read(&mut buf[filled..])?;
        if count == 0 {
            break;
        }
        filled += count;
    }
    Ok(filled)
}

/// The disk over the file `emu.store` of the current folder. A file that is not there is a disk of
/// no byte, and is made at the first write. Its contents are not told.
#[derive(Drop)]
pub struct FileDisk<R: Files<File = File> + Drop> {
    store: Store<R>,
    faults: u64,
}

impl<R: Files<File = File> + Drop> FileDisk<R> {
    /// The disk, of which no call has failed. The file is opened at the first call.
    pub fn new(rt: R) -> FileDisk<R>
        ensures { ⟦<FileDisk<R> as Disk>⟧.faults result ≡ 0 }
    {
        FileDisk {
            store: Store {
                rt,
                file: None,
                absent: false,
                entry_safe: false,
            },
            faults: 0,
        }
    }
}

impl<R: Files<File = File> + Drop> Disk for FileDisk<R> {
    ghost reads = { λ _. None };

    ghost may_leave = { λ _ _. ⊥ };

    ghost moment = { λ _. 0 };

    ghost left_since = { λ _ _ _. ⊥ };

    ghost faults = { λ disk. disk.faults };

    ghost as_read = { λ _ xs is. not_told xs is };

    ghost counts_now = { λ _ _ _ _ image. image };

    ghost only_now = { λ _ _ left. left };

    fn read(&mut self, at: u64, buf: &mut [u8]) -> Result<usize, Failed> {
        match self.store.read(at, buf) {
            Ok(count) => Ok(count),
            Err(_) => Err(fault(&mut self.faults)),
        }
    }

    fn write_at(&mut self, at: u64, bytes: &[u8]) -> Result<(), Failed> {
        match self.store.write(at, bytes) {
            Ok(()) => Ok(()),
            Err(_) => Err(fault(&mut self.faults)),
        }
    }

    fn cut(&mut self, len: u64) -> Result<(), Failed> {
        match self.store.cut(len) {
            Ok(()) => Ok(()),
            Err(_) => Err(fault(&mut self.faults)),
        }
    }

    fn sync(&mut self) -> Result<(), Failed> {
        match self.store.sync() {
            Ok(()) => Ok(()),
            Err(_) => Err(fault(&mut self.faults)),
        }
    }
}
