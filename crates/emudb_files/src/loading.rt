//! A whole database of a folder.
ghost use Rattle.std.specs.Prelude.{◌≡◌, [], None, Some, IfOk, length, true};
ghost use Rattle.edit_journal.specs.Held.{Holds, count_in};
ghost use Rattle.book_opening.specs.live_book.Commits.{has_journal};
ghost use Rattle.book_opening.specs.live_book.Kept.{faults_in};
ghost use Rattle.emudb_files.specs.Answers.{HasReadCause, HasDiskCause, Reads};
ghost use Rattle.emudb_files.specs.Inner.Running.{Goes, IsKept};
ghost use Rattle.emudb_files.specs.Stored.{IsFilled, IsMade, Loads};
ghost use Rattle.emudb_files.specs.Wanted.{bundles_wanted, config_wanted};

use crate::faults::open_fault;
use crate::files::config_in;
use crate::paths::{database_path, path_in};
use crate::sessions::add_database;
use book_opening::live_book::Book;
use book_opening::{MadeBook, NoBook, new_book};
use db_config::Config;
use edit_journal::Journal;
use emu_disk::Disk;
use emu_io::Folder;
use std::alloc::Global;
use std::sync::Wait;
use store_texts::CommandFault;

/// The journal that a `load` leaves, and its answer: the number of bundles, or why it ended before.
#[derive(Drop)]
pub struct Loaded<D: Disk> {
    /// The journal.
    pub journal: Journal<D>,
    /// The number of bundles, all of which are stored; or the first refusal or fault.
    pub result: Result<u64, CommandFault>,
}

/// Puts the database in the folder `NAME_emuDB` into a store without a configuration. `Ok` gives the number of its
/// bundles.
///
/// First `NAME_emuDB/NAME_DBconfig.json` is read and the configuration stored. Then come the folders `S_ses` of
/// `NAME_emuDB` in the order of the bytes of S, in each the folders `B_bndl` in the order of the bytes of B, and in each
/// of these the file `B_annot.json`, whose annotation is added as the bundle B of the session S, with session 0 and line
/// 0. Other entries are passed over. The first refusal ends it, and what was stored before stays.
///
/// A file or a folder is refused with its path: `Absent` or `TooLarge`; `NotJson` or `Shape`, or the configuration's
/// fault; `BadName` where S or B is no name, of the folder and when its turn comes. An edit is refused by `HistoryFull`,
/// a rule or `StoreFull`, which the configuration may be refused by too. `Read` comes only where the folder's count of
/// faults rose in this call, `Disk` only where the disk's did. It may wait for passes that read.
pub fn load<R: Wait, F: Folder, D: Disk>(
    rt: &R,
    alloc: Global,
    journal: Journal<D>,
    folder: &mut F,
    name: &str,
) -> Loaded<D>
    requires { Holds D.may_leave [] None journal }
    ensures stored { Loads D.may_leave D.moment D.left_since D.faults (F.content folder.old)
        name.now journal result.result result.journal }
    ensures read { HasReadCause (F.faults folder.old) (F.faults folder.new)
        (F.misses folder.old) (F.misses folder.new) result.result }
    ensures disk { HasDiskCause (count_in D.faults journal) (count_in D.faults result.journal)
        result.result }
    ensures same { F.content folder.new ≡ F.content folder.old }
{
    match config_wanted(alloc, folder, name) {
        Ok(config) => store(rt, alloc, config, journal, folder, name),
        Err(fault) => Loaded {
            journal,
            result: Err(fault),
        },
    }
}

/// The configuration of a database.
fn config_wanted<F: Folder>(
    alloc: Global,
    folder: &mut F,
    name: &str,
) -> Result<Config, CommandFault>
    ensures reads { Reads (F.content folder.old) (config_wanted name.now) result }
    ensures cause { HasReadCause (F.faults folder.old) (F.faults folder.new)
        (F.misses folder.old) (F.misses folder.new) result }
    ensures same { F.content folder.new ≡ F.content folder.old }
{
    let path = database_path(alloc, name)?;
    let file = path_in(alloc, path.as_str(), name, "_DBconfig.json")?;
    config_in(alloc, folder, file.as_str())
}

/// Stores a configuration, and then the bundles.
fn store<R: Wait, F: Folder, D: Disk>(
    rt: &R,
    alloc: Global,
    config: Config,
    journal: Journal<D>,
    folder: &mut F,
    name: &str,
) -> Loaded<D>
    requires { Holds D.may_leave [] None journal }
    ensures stored { IsMade D.may_leave D.moment D.left_since D.faults (F.content folder.old)
        (bundles_wanted name.now) config journal result.result result.journal }
    ensures read { HasReadCause (F.faults folder.old) (F.faults folder.new)
        (F.misses folder.old) (F.misses folder.new) result.result }
    ensures disk { HasDiskCause (count_in D.faults journal) (count_in D.faults result.journal)
        result.result }
    ensures same { F.content folder.new ≡ F.content folder.old }
{
    match new_book(rt, alloc, config, Some(journal), 1) {
        Ok(made) => {
            let MadeBook { book, passes } = made;
            drop(passes);
            fill(rt, alloc, book, folder, name)
        }
        Err(refused) => {
            let NoBook { fault, journal } = refused;
            with_answer(journal, Err(open_fault(fault)))
        }
    }
}

/// A journal that is there, with an answer.
fn with_answer<D: Disk>(journal: Option<Journal<D>>, answer: Result<u64, CommandFault>) -> Loaded<D>
    requires { has_journal journal ≡ true }
    ensures journal { Some result.journal ≡ journal }
    ensures answer { result.result ≡ answer }
{
    match journal {
        Some(journal) => Loaded {
            journal,
            result: answer,
        },
        None => unreachable!(),
    }
}

/// Adds the bundles to the book of the configuration, and gives the book's journal up.
fn fill<R: Wait, F: Folder, D: Disk>(
    rt: &R,
    alloc: Global,
    book: Book<D>,
    folder: &mut F,
    name: &str,
) -> Loaded<D>
    requires kept { IsKept D.may_leave None book }
    requires empty { book.history ≡ [] }
    ensures filled { IsFilled D.may_leave D.moment D.left_since (F.content folder.old)
        (bundles_wanted name.now) book.config book.journal result.result result.journal }
    ensures read { HasReadCause (F.faults folder.old) (F.faults folder.new)
        (F.misses folder.old) (F.misses folder.new) result.result }
    ensures disk { HasDiskCause (faults_in D.faults book.journal)
        (count_in D.faults result.journal) result.result }
    ensures same { F.content folder.new ≡ F.content folder.old }
{
    let mut book = book;
    let answer = add_counted(rt, alloc, &mut book, folder, name);
    with_answer(book.into_journal(rt), answer)
}

/// Adds the bundles of a database to a book, and counts its entries.
fn add_counted<R: Wait, F: Folder, D: Disk>(
    rt: &R,
    alloc: Global,
    book: &mut Book<D>,
    folder: &mut F,
    name: &str,
) -> Result<u64, CommandFault>
    requires { IsKept D.may_leave None book.old }
    ensures goes { Goes D.may_leave D.moment D.left_since (F.content folder.old)
        (bundles_wanted name.now) book.old result book.new }
    ensures count { IfOk result (λ n. n ≡ length book.new.history) }
    ensures read { HasReadCause (F.faults folder.old) (F.faults folder.new)
        (F.misses folder.old) (F.misses folder.new) result }
    ensures disk { HasDiskCause (faults_in D.faults book.old.journal)
        (faults_in D.faults book.new.journal) result }
    ensures same { F.content folder.new ≡ F.content folder.old }
{
    match add_named(rt, alloc, book, folder, name) {
        Ok(()) => Ok(book.number()),
        Err(fault) => Err(fault),
    }
}

/// Adds the bundles of a database to a book.
fn add_named<R: Wait, F: Folder, D: Disk>(
    rt: &R,
    alloc: Global,
    book: &mut Book<D>,
    folder: &mut F,
    name: &str,
) -> Result<(), CommandFault>
    requires { IsKept D.may_leave None book.old }
    ensures goes { Goes D.may_leave D.moment D.left_since (F.content folder.old)
        (bundles_wanted name.now) book.old result book.new }
    ensures read { HasReadCause (F.faults folder.old) (F.faults folder.new)
        (F.misses folder.old) (F.misses folder.new) result }
    ensures disk { HasDiskCause (faults_in D.faults book.old.journal)
        (faults_in D.faults book.new.journal) result }
    ensures same { F.content folder.new ≡ F.content folder.old }
{
    match database_path(alloc, name) {
        Ok(path) => add_database(rt, alloc, book, folder, path.as_str()),
        Err(_) => Err(CommandFault::Memory),
    }
}
