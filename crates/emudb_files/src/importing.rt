//! A bundle of a TextGrid's file.
ghost use Rattle.std.specs.Prelude.{◌≡◌, ◌≤◌, IfOk};
ghost use Rattle.emu_names.specs.declared.limits.TheConstants.{TOP_RATE};
ghost use Rattle.book_opening.specs.live_book.Kept.{faults_in};
ghost use Rattle.emudb_files.specs.Answers.{HasDiskCause, HasReadCause, Reads};
ghost use Rattle.emudb_files.specs.Inner.Answers.{Makes};
ghost use Rattle.emudb_files.specs.Stored.{AddsBundle, Imports};
ghost use Rattle.emudb_files.specs.Wanted.{import_wanted, named};

use crate::faults::{add, bundle_added};
use crate::files::grid_in;
use book_opening::live_book::Book;
use emu_disk::Disk;
use emu_io::Folder;
use emu_names::{BundleKey, Name, NameFault};
use std::alloc::Global;
use std::sync::Wait;
use store_texts::edit_rules::Act;
use store_texts::{CommandFault, Refused};

/// A word that has to be a name.
fn name_of(alloc: Global, word: &str) -> Result<Name, CommandFault>
    ensures { Makes (named Refused.BadName word.now) result }
{
    match Name::new(alloc, word) {
        Ok(name) => Ok(name),
        Err(NameFault::BadName) => Err(CommandFault::Refused(Refused::BadName)),
        Err(NameFault::Memory) => Err(CommandFault::Memory),
    }
}

/// The act that adds the TextGrid of a file as a bundle.
fn import_act<F: Folder>(
    alloc: Global,
    folder: &mut F,
    session: &str,
    bundle: &str,
    rate: u32,
    file: &str,
) -> Result<Act, CommandFault>
    requires least { 1 ≤ rate }
    requires most { rate ≤ TOP_RATE }
    ensures reads { Reads (F.content folder.old)
        (import_wanted session.now bundle.now rate file.now) result }
    ensures adds { IfOk result AddsBundle }
    ensures cause { HasReadCause (F.faults folder.old) (F.faults folder.new)
        (F.misses folder.old) (F.misses folder.new) result }
    ensures same { F.content folder.new ≡ F.content folder.old }
{
    let session = name_of(alloc, session)?;
    let bundle = name_of(alloc, bundle)?;
    let annot = grid_in(alloc, folder, rate, file)?;
    let key = BundleKey { session, bundle };
    let act = bundle_added(alloc, key, annot)?;
    Ok(act)
}

/// Adds the TextGrid of a file, read at `rate` samples a second, to a book, as the bundle of these two names, with
/// session 0 and line 0. `Ok` gives the number of entries then.
///
/// It is refused by the first of these: `BadName` where a word is no name; `Absent` or `TooLarge` of the file; the fault
/// of the TextGrid (`BadEncoding` and the others, those of its times last), together with the file's path; and what
/// refuses the edit, `HistoryFull`, a rule or `StoreFull`. `Read` comes only where the folder's count of faults rose in
/// this call, `Disk` only where the disk's did. After a fault or a refusal the book's history is as before. It may wait
/// for passes that read.
pub fn import<R: Wait, F: Folder, D: Disk>(
    rt: &R,
    alloc: Global,
    book: &mut Book<D>,
    folder: &mut F,
    session: &str,
    bundle: &str,
    rate: u32,
    file: &str,
) -> Result<u64, CommandFault>
    requires least { 1 ≤ rate }
    requires most { rate ≤ TOP_RATE }
    ensures stored { Imports D.may_leave D.moment D.left_since D.faults (F.content folder.old)
        (import_wanted session.now bundle.now rate file.now) book.old result book.new }
    ensures read { HasReadCause (F.faults folder.old) (F.faults folder.new)
        (F.misses folder.old) (F.misses folder.new) result }
    ensures disk { HasDiskCause (faults_in D.faults book.old.journal)
        (faults_in D.faults book.new.journal) result }
    ensures same { F.content folder.new ≡ F.content folder.old }
{
    let act = import_act(alloc, folder, session, bundle, rate, file)?;
    add(rt, alloc, book, &act)
}
