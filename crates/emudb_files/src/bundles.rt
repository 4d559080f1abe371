//! The bundles of one session's folder.
ghost use Rattle.std.specs.Prelude.{◌≡◌, None, IfOk, IsTrue, [], ◌∷◌, map};
ghost use Rattle.emu_names.specs.Name.{is_name};
ghost use Rattle.book_opening.specs.live_book.Kept.{faults_in};
ghost use Rattle.store_texts.specs.declared.faults.Refused.TheVariants as refusals;
ghost use Rattle.emudb_files.specs.Answers.{HasDiskCause, HasReadCause, Reads};
ghost use Rattle.emudb_files.specs.Inner.Answers.{Makes};
ghost use Rattle.emudb_files.specs.Inner.Running.{Goes, IsKept};
ghost use Rattle.emudb_files.specs.Stored.{AddsBundle};
ghost use Rattle.emudb_files.specs.Wanted.{bundle_wanted, named};

use crate::faults::{add, bundle_added, refuse};
use crate::files::annot_in;
use crate::paths::path_in;
use book_opening::live_book::Book;
use emu_disk::Disk;
use emu_io::{FileName, Folder};
use emu_names::{BundleKey, Name, NameFault};
use std::alloc::Global;
use std::sync::Wait;
use store_texts::edit_rules::Act;
use store_texts::{CommandFault, FileFault};

/// The name of which the folder of this path is called.
pub(crate) fn name_in(alloc: Global, path: &str, name: &str) -> Result<Name, CommandFault>
    ensures { Makes (named (refusals.File path.now FileFault.BadName) name.now) result }
{
    match Name::new(alloc, name) {
        Ok(name) => Ok(name),
        Err(NameFault::BadName) => Err(refuse(alloc, path, FileFault::BadName)),
        Err(NameFault::Memory) => Err(CommandFault::Memory),
    }
}

/// The act that adds the bundle of a name in the folder of a session.
fn bundle_act<F: Folder>(
    alloc: Global,
    folder: &mut F,
    path: &str,
    session: &Name,
    bundle: &str,
) -> Result<Act, CommandFault>
    ensures reads { Reads (F.content folder.old)
        (λ content. bundle_wanted path.now session.now content bundle.now) result }
    ensures adds { IfOk result AddsBundle }
    ensures cause { HasReadCause (F.faults folder.old) (F.faults folder.new)
        (F.misses folder.old) (F.misses folder.new) result }
    ensures same { F.content folder.new ≡ F.content folder.old }
{
    let below = path_in(alloc, path, bundle, "_bndl")?;
    let name = name_in(alloc, below.as_str(), bundle)?;
    let file = path_in(alloc, below.as_str(), bundle, "_annot.json")?;
    let session = session.copy(alloc)?;
    match annot_in(alloc, folder, file.as_str()) {
        Ok(annot) => {
            let key = BundleKey {
                session,
                bundle: name,
            };
            let act = bundle_added(alloc, key, annot)?;
            Ok(act)
        }
        Err(fault) => Err(fault),
    }
}

/// Adds the bundle of a name in the folder of a session.
fn add_bundle<R: Wait, F: Folder, D: Disk>(
    rt: &R,
    alloc: Global,
    book: &mut Book<D>,
    folder: &mut F,
    path: &str,
    session: &Name,
    bundle: &str,
) -> Result<u64, CommandFault>
    requires { IsKept D.may_leave None book.old }
    ensures goes { Goes D.may_leave D.moment D.left_since (F.content folder.old)
        (λ content. bundle_wanted path.now session.now content bundle.now ∷ [])
        book.old result book.new }
    ensures read { HasReadCause (F.faults folder.old) (F.faults folder.new)
        (F.misses folder.old) (F.misses folder.new) result }
    ensures disk { HasDiskCause (faults_in D.faults book.old.journal)
        (faults_in D.faults book.new.journal) result }
    ensures same { F.content folder.new ≡ F.content folder.old }
{
    match bundle_act(alloc, folder, path, session, bundle) {
        Ok(act) => add(rt, alloc, book, &act),
        Err(fault) => Err(fault),
    }
}

/// Adds the bundles of a session, in turn.
pub(crate) fn add_bundles<R: Wait, F: Folder, D: Disk>(
    rt: &R,
    alloc: Global,
    book: &mut Book<D>,
    folder: &mut F,
    path: &str,
    session: &Name,
    names: &[FileName],
) -> Result<(), CommandFault>
    requires { IsKept D.may_leave None book.old }
    ensures goes { Goes D.may_leave D.moment D.left_since (F.content folder.old)
        (λ content. map (bundle_wanted path.now session.now content) names.now)
        book.old result book.new }
    ensures read { HasReadCause (F.faults folder.old) (F.faults folder.new)
        (F.misses folder.old) (F.misses folder.new) result }
    ensures disk { HasDiskCause (faults_in D.faults book.old.journal)
        (faults_in D.faults book.new.journal) result }
    ensures same { F.content folder.new ≡ F.content folder.old }
{
    'names: for name in names {
        match add_bundle(rt, alloc, book, folder, path, session, name.as_str()) {
            Ok(_) => {}
            Err(fault) => return Err(fault),
        }
    }
    Ok(())
}
