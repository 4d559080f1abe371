//! A command on the store: the store is opened, the command is run, and the disk is given back.
ghost use Rattle.std.specs.Prelude.{◌≡◌, ◌≢◌, ◌≤◌, true, [], None, Some};
ghost use Rattle.std.specs.Option.{option_map};
ghost use Rattle.emu_names.specs.declared.limits.TheConstants.{TOP_RATE};
ghost use Rattle.edit_journal.specs.Held.{disk_of, Holds, count_in};
ghost use Rattle.script_runs.specs.live_book.Kept.{KeepsIn, faults_in};
ghost use Rattle.script_runs.specs.live_book.Commits.{has_journal};
ghost use Rattle.script_runs.specs.book_opening.Inner.Opens.{LeavesFrom};
ghost use Rattle.emudb_files.specs.Wanted.{import_wanted};
ghost use Rattle.emu_cli.specs.Ends.{EndsBook, EndsImport, EndsLoad, EndsReading, IsImport, IsLoad, IsMadeText, IsRefusedBy, IsUntouched, folder_told, reads_book, refusals_told};
ghost use Rattle.emu_cli.specs.Inner.Ends.{IsOpenEnd};

use crate::adding::done_end;
use crate::ending::refuse;
use crate::reading::read_book;
use cli_words::Words;
use edit_journal::Journal;
use emu_disk::Disk;
use emu_io::{Folder, Gate};
use emudb_files::store_texts::{Refused, print_damaged};
use emudb_files::{Loaded, import, load};
use label_match::PatternMaker;
use script_runs::{Book, Ending, NoStore, OpenFault, Opened, open_store};
use std::alloc::Global;
use std::sync::Wait;
use std::thread::Threads;

/// How many passes a command asks for. It looks at the book itself.
const READERS: u32 = 1;

/// How a command ended, before its text is written, and the disk of its store.
pub struct StoreEnd<D: Disk> {
    /// How it ended.
    pub ending: Ending,
    /// The disk.
    pub disk: D,
}

/// How a command ends whose store was not opened for this reason.
fn open_end(alloc: Global, fault: OpenFault) -> Ending
    requires { fault ≢ OpenFault.StoreFull }
    ensures { IsOpenEnd fault result }
{
    match fault {
        OpenFault::Disk => Ending::Disk,
        OpenFault::Damaged(at) => match print_damaged(alloc, at) {
            Ok(text) => Ending::Damaged(text),
            Err(_) => Ending::Memory,
        },
        OpenFault::StoreFull => unreachable!(),
        OpenFault::Memory => Ending::Memory,
    }
}

/// Ends a command whose store was not opened.
fn unopened<D: Disk>(alloc: Global, refused: NoStore<D>) -> StoreEnd<D>
    requires { refused.fault ≢ OpenFault.StoreFull }
    ensures ending { IsOpenEnd refused.fault result.ending }
    ensures disk { result.disk ≡ refused.disk }
{
    let NoStore { fault, disk } = refused;
    StoreEnd {
        ending: open_end(alloc, fault),
        disk,
    }
}

/// The disk of a book that has a store.
fn disk_of_book<D: Disk, R: Wait>(rt: &R, book: Book<D>) -> D
    requires { has_journal book.journal ≡ true }
    ensures { Some result ≡ option_map disk_of book.journal }
{
    match book.into_journal(rt) {
        Some(journal) => journal.into_disk(),
        None => unreachable!(),
    }
}

/// Ends a command that wants a configuration, over a store without one.
fn bare<D: Disk>(alloc: Global, journal: Journal<D>, refused: &Refused) -> StoreEnd<D>
    ensures ending { IsRefusedBy refused.now result.ending }
    ensures disk { result.disk ≡ disk_of journal }
{
    StoreEnd {
        ending: refuse(alloc, refused),
        disk: journal.into_disk(),
    }
}

/// Runs a command that reads a book, and ends the book.
fn read_and_close<R: Threads + Wait + Sync, D: Disk, P: PatternMaker, G: Gate + Sync>(
    rt: &R,
    alloc: Global,
    command: &Words,
    book: Book<D>,
    patterns: &mut P,
    gate: &G,
) -> StoreEnd<D>
    requires reads { reads_book command.now ≡ true }
    requires stored { has_journal book.journal ≡ true }
    ensures ending { EndsBook (IsMadeText command.now (refusals_told P.PatternMaker patterns.old patterns.new))
        book.config book.history result.ending }
    ensures disk { Some result.disk ≡ option_map disk_of book.journal }
{
    let ending = read_book(rt, alloc, command, &book, patterns, gate);
    StoreEnd {
        ending,
        disk: disk_of_book(rt, book),
    }
}

/// Opens the store, and runs a command that reads it. No image of it is new then.
pub(crate) fn read_store<R: Threads + Wait + Sync, D: Disk, P: PatternMaker, G: Gate + Sync>(
    rt: &R,
    alloc: Global,
    command: &Words,
    disk: D,
    patterns: &mut P,
    gate: &G,
) -> StoreEnd<D>
    requires { reads_book command.now ≡ true }
    ensures ending { EndsReading D.Disk
        (IsMadeText command.now (refusals_told P.PatternMaker patterns.old patterns.new))
        result.ending disk result.disk }
    ensures untouched { IsUntouched D.Disk disk result.disk }
    ensures later { D.faults disk ≤ D.faults result.disk }
{
    match open_store(rt, alloc, disk, READERS) {
        Err(refused) => unopened(alloc, refused),
        Ok(opened) => match opened {
            Opened::Stored {
                book,
                passes: _passes,
            } => read_and_close(rt, alloc, command, book, patterns, gate),
            Opened::Bare { journal } => bare(alloc, journal, &Refused::NoConfiguration),
        },
    }
}

/// Imports a bundle into a book, and ends the book.
fn import_and_close<R: Wait, F: Folder, D: Disk>(
    rt: &R,
    alloc: Global,
    folder: &mut F,
    session: &str,
    bundle: &str,
    rate: u32,
    file: &str,
    mut book: Book<D>,
) -> StoreEnd<D>
    requires rate { (1 ≤ rate) × (rate ≤ TOP_RATE) }
    requires stored { has_journal book.journal ≡ true }
    requires settled { KeepsIn D.may_leave book.config book.history None book.journal }
    ensures { (begin : D) → D.faults begin ≤ faults_in D.faults book.journal
        → LeavesFrom D.moment D.left_since begin book.journal (D.may_leave begin)
        → IsImport D.Disk (folder_told F.Folder folder.old folder.new)
        (import_wanted session.now bundle.now rate file.now)
        book result.ending begin result.disk }
{
    let made = import(rt, alloc, &mut book, folder, session, bundle, rate, file);
    StoreEnd {
        ending: done_end(alloc, "import", made),
        disk: disk_of_book(rt, book),
    }
}

/// Opens the store, and imports a bundle into it.
pub(crate) fn import_store<R: Wait, F: Folder, D: Disk>(
    rt: &R,
    alloc: Global,
    folder: &mut F,
    session: &str,
    bundle: &str,
    rate: u32,
    file: &str,
    disk: D,
) -> StoreEnd<D>
    requires { (1 ≤ rate) × (rate ≤ TOP_RATE) }
    ensures { EndsImport D.Disk (folder_told F.Folder folder.old folder.new)
        (import_wanted session.now bundle.now rate file.now)
        result.ending disk result.disk }
{
    match open_store(rt, alloc, disk, READERS) {
        Err(refused) => unopened(alloc, refused),
        Ok(opened) => match opened {
            Opened::Stored {
                book,
                passes: _passes,
            } => import_and_close(rt, alloc, folder, session, bundle, rate, file, book),
            Opened::Bare { journal } => bare(alloc, journal, &Refused::NoConfiguration),
        },
    }
}

/// Loads a folder into an empty store, and ends it.
fn load_and_close<R: Wait, F: Folder, D: Disk>(
    rt: &R,
    alloc: Global,
    name: &str,
    folder: &mut F,
    journal: Journal<D>,
) -> StoreEnd<D>
    requires { Holds D.may_leave [] None journal }
    ensures { (begin : D) → D.faults begin ≤ count_in D.faults journal
        → LeavesFrom D.moment D.left_since begin (Some journal) (D.may_leave begin)
        → IsLoad D.Disk (folder_told F.Folder folder.old folder.new) name.now journal result.ending
        begin result.disk }
{
    let Loaded { journal, result } = load(rt, alloc, journal, folder, name);
    StoreEnd {
        ending: done_end(alloc, "load", result),
        disk: journal.into_disk(),
    }
}

/// Refuses to load a folder into a store with a configuration, and ends its book.
fn keep_and_close<R: Wait, D: Disk>(rt: &R, alloc: Global, book: Book<D>) -> StoreEnd<D>
    requires stored { has_journal book.journal ≡ true }
    ensures ending { IsRefusedBy Refused.StoreHasConfiguration result.ending }
    ensures disk { Some result.disk ≡ option_map disk_of book.journal }
{
    StoreEnd {
        ending: refuse(alloc, &Refused::StoreHasConfiguration),
        disk: disk_of_book(rt, book),
    }
}

/// Opens the store, and loads a folder into it.
pub(crate) fn load_store<R: Wait, F: Folder, D: Disk>(
    rt: &R,
    alloc: Global,
    name: &str,
    folder: &mut F,
    disk: D,
) -> StoreEnd<D>
    ensures { EndsLoad D.Disk (folder_told F.Folder folder.old folder.new) name.now
        result.ending disk result.disk }
{
    match open_store(rt, alloc, disk, READERS) {
        Err(refused) => unopened(alloc, refused),
        Ok(opened) => match opened {
            Opened::Stored {
                book,
                passes: _passes,
            } => keep_and_close(rt, alloc, book),
            Opened::Bare { journal } => load_and_close(rt, alloc, name, folder, journal),
        },
    }
}
