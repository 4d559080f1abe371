//! The sessions of a database's folder.
ghost use Rattle.std.specs.Prelude.{◌≡◌, None, IfOk, flat_map, length};
ghost use Rattle.book_opening.specs.live_book.Kept.{faults_in};
ghost use Rattle.emudb_files.specs.Answers.{HasDiskCause, HasReadCause, Reads};
ghost use Rattle.emudb_files.specs.Inner.Running.{Goes, IsKept};
ghost use Rattle.emudb_files.specs.Wanted.{database_wanted, names_in, session_in, session_wanted};

use crate::bundles::{add_bundles, name_in};
use crate::files::entries_in;
use crate::paths::{FileNames, names_with, path_in};
use book_opening::live_book::Book;
use emu_disk::Disk;
use emu_io::{FileName, Folder};
use emu_names::{Name, Text};
use std::alloc::Global;
use std::sync::Wait;
use store_texts::CommandFault;

/// What the folders below a path with an ending are called before it, in the order of the bytes of that.
fn names_in<F: Folder>(
    alloc: Global,
    folder: &mut F,
    path: &str,
    ending: &str,
) -> Result<FileNames, CommandFault>
    ensures reads { Reads (F.content folder.old) (names_in path.now ending.now) result }
    ensures cause { HasReadCause (F.faults folder.old) (F.faults folder.new)
        (F.misses folder.old) (F.misses folder.new) result }
    ensures same { F.content folder.new ≡ F.content folder.old }
{
    let entries = entries_in(alloc, folder, path)?;
    let names = names_with(alloc, &entries, ending)?;
    Ok(names)
}

/// A session of a database.
#[derive(Drop)]
pub(crate) struct Session {
    /// The path of its folder.
    pub(crate) path: Text,
    /// Its name.
    pub(crate) name: Name,
    /// The names of its bundles, in order.
    pub(crate) bundles: FileNames,
}

/// The session of a name in the folder of a database.
fn session_in<F: Folder>(
    alloc: Global,
    folder: &mut F,
    path: &str,
    session: &str,
) -> Result<Session, CommandFault>
    ensures reads { Reads (F.content folder.old) (session_in path.now session.now) result }
    ensures cause { HasReadCause (F.faults folder.old) (F.faults folder.new)
        (F.misses folder.old) (F.misses folder.new) result }
    ensures same { F.content folder.new ≡ F.content folder.old }
{
    let path = path_in(alloc, path, session, "_ses")?;
    let name = name_in(alloc, path.as_str(), session)?;
    let bundles = names_in(alloc, folder, path.as_str(), "_bndl")?;
    Ok(Session {
        path,
        name,
        bundles,
    })
}

/// Adds the bundles of the session of a name in the folder of a database.
fn add_session<R: Wait, F: Folder, D: Disk>(
    rt: &R,
    alloc: Global,
    book: &mut Book<D>,
    folder: &mut F,
    path: &str,
    session: &str,
) -> Result<(), CommandFault>
    requires { IsKept D.may_leave None book.old }
    ensures goes { Goes D.may_leave D.moment D.left_since (F.content folder.old)
        (λ content. session_wanted path.now content session.now) book.old result book.new }
    ensures read { HasReadCause (F.faults folder.old) (F.faults folder.new)
        (F.misses folder.old) (F.misses folder.new) result }
    ensures disk { HasDiskCause (faults_in D.faults book.old.journal)
        (faults_in D.faults book.new.journal) result }
    ensures same { F.content folder.new ≡ F.content folder.old }
{
    match session_in(alloc, folder, path, session) {
        Ok(found) => {
            let names = found.bundles.as_slice();
            add_bundles(
                rt,
                alloc,
                book,
                folder,
                found.path.as_str(),
                &found.name,
                names,
            )
        }
        Err(fault) => Err(fault),
    }
}

/// Adds the bundles of the sessions of these names, in turn.
fn add_sessions<R: Wait, F: Folder, D: Disk>(
    rt: &R,
    alloc: Global,
    book: &mut Book<D>,
    folder: &mut F,
    path: &str,
    names: &[FileName],
) -> Result<(), CommandFault>
    requires { IsKept D.may_leave None book.old }
    ensures goes { Goes D.may_leave D.moment D.left_since (F.content folder.old)
        (λ content. flat_map (session_wanted path.now content) names.now)
        book.old result book.new }
    ensures read { HasReadCause (F.faults folder.old) (F.faults folder.new)
        (F.misses folder.old) (F.misses folder.new) result }
    ensures disk { HasDiskCause (faults_in D.faults book.old.journal)
        (faults_in D.faults book.new.journal) result }
    ensures same { F.content folder.new ≡ F.content folder.old }
{
    'names: for name in names {
        match add_session(rt, alloc, book, folder, path, name.as_str()) {
            Ok(()) => {}
            Err(fault) => return Err(fault),
        }
    }
    Ok(())
}

/// Adds the bundles of the database in the folder at a path.
pub(crate) fn add_database<R: Wait, F: Folder, D: Disk>(
    rt: &R,
    alloc: Global,
    book: &mut Book<D>,
    folder: &mut F,
    path: &str,
) -> Result<(), CommandFault>
    requires { IsKept D.may_leave None book.old }
    ensures goes { Goes D.may_leave D.moment D.left_since (F.content folder.old)
        (database_wanted path.now) book.old result book.new }
    ensures read { HasReadCause (F.faults folder.old) (F.faults folder.new)
        (F.misses folder.old) (F.misses folder.new) result }
    ensures disk { HasDiskCause (faults_in D.faults book.old.journal)
        (faults_in D.faults book.new.journal) result }
    ensures same { F.content folder.new ≡ F.content folder.old }
{
    match names_in(alloc, folder, path, "_ses") {
        Ok(names) => add_sessions(rt, alloc, book, folder, path, names.as_slice()),
        Err(fault) => Err(fault),
    }
}
