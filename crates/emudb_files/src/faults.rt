//! Faults of the parts as those of a command, and one act of the program.
ghost use Rattle.std.specs.Prelude.{◌≡◌, IfOk};
ghost use Rattle.emudb_files.specs.Answers.{edit_fault, open_fault};
ghost use Rattle.emudb_files.specs.Inner.Answers.{IsRefusalOf, IsFolderFault};
ghost use Rattle.emudb_files.specs.Stored.{IsAdded};
ghost use Rattle.emudb_files.specs.Wanted.{bundle_added};

use book_opening::OpenFault;
use book_opening::live_book::{Book, EditFault};
use emu_disk::Disk;
use emu_io::FolderFault;
use emu_names::{BundleKey, Memory, SessionNo, Text};
use level_items::Annot;
use std::alloc::Global;
use std::sync::Wait;
use store_texts::edit_rules::{Act, Edit, Edits};
use store_texts::session_core::{Command, Refusal, refuse_rule};
use store_texts::{CommandFault, FileFault, Refused};

/// The refusal of the file or the folder of a path. The only other answer is want of memory.
pub(crate) fn refuse(alloc: Global, path: &str, fault: FileFault) -> CommandFault
    ensures { IsRefusalOf path.now fault result }
{
    match Text::new(alloc, path) {
        Ok(path) => CommandFault::Refused(Refused::File(path, fault)),
        Err(_) => CommandFault::Memory,
    }
}

/// The fault of a folder that was asked for a path.
pub(crate) fn folder_fault(alloc: Global, path: &str, fault: FolderFault) -> CommandFault
    ensures { IsFolderFault path.now fault result }
{
    match fault {
        FolderFault::Failed => CommandFault::Read,
        FolderFault::Absent => refuse(alloc, path, FileFault::Absent),
        FolderFault::TooLarge => refuse(alloc, path, FileFault::TooLarge),
        FolderFault::Memory => CommandFault::Memory,
    }
}

/// The fault of an edit that was not accepted.
fn edit_fault(fault: EditFault) -> CommandFault
    ensures { result ≡ edit_fault fault }
{
    match fault {
        EditFault::HistoryFull(_) => {
            CommandFault::Refused(Refused::Request(Refusal::HistoryFull))
        }
        EditFault::Broken(breach, _) => {
            let refusal = refuse_rule(Command::AddBundle, breach);
            CommandFault::Refused(Refused::Request(refusal))
        }
        EditFault::StoreFull(_) => CommandFault::Refused(Refused::Request(Refusal::StoreFull)),
        EditFault::Disk => CommandFault::Disk,
        EditFault::Memory => CommandFault::Memory,
    }
}

/// The fault of a configuration of which no book was made.
pub(crate) fn open_fault(fault: OpenFault) -> CommandFault
    ensures { result ≡ open_fault fault }
{
    match fault {
        OpenFault::Disk => CommandFault::Disk,
        OpenFault::Damaged(_) => CommandFault::Memory,
        OpenFault::StoreFull => CommandFault::Refused(Refused::Request(Refusal::StoreFull)),
        OpenFault::Memory => CommandFault::Memory,
    }
}

/// The act that adds a bundle. The only refusal is want of memory.
pub(crate) fn bundle_added(alloc: Global, key: BundleKey, annot: Annot) -> Result<Act, Memory>
    ensures { IfOk result (λ act. act ≡ bundle_added key annot) }
{
    let edits = Edits::one(alloc, Edit::AddBundle { key, annot })?;
    Ok(Act::Edits(edits))
}

/// Commits an act of the program, with session 0 and line 0.
pub(crate) fn add<D: Disk, R: Wait>(
    rt: &R,
    alloc: Global,
    book: &mut Book<D>,
    act: &Act,
) -> Result<u64, CommandFault>
    ensures { IsAdded D.may_leave D.moment D.left_since D.faults book.old act.now result book.new }
{
    match book.commit(rt, alloc, SessionNo(0), 0, act) {
        Ok(n) => Ok(n),
        Err(fault) => Err(edit_fault(fault)),
    }
}
