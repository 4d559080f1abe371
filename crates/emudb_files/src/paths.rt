//! The paths of a database's files, and the names of its folders.
ghost use Rattle.std.specs.Prelude.{◌≡◌, ◌++◌, [], ◌∷◌, IfOk, MatchOption, None, OnOk, Some, filter_map};
ghost use Rattle.emudb_files.specs.Names.{path_in, stem, folder_stem, names_with};
ghost use Rattle.emudb_files.specs.Wanted.{database_path};

use emu_io::{FileName, FolderEntries, FolderEntry};
use emu_names::{Memory, Series, Text};
use std::alloc::Global;

/// Names of files or folders.
pub(crate) type FileNames = Series<FileName>;

/// The path of an entry of a folder: the folder's path, `/`, a name and an ending.
pub(crate) fn path_in(alloc: Global, folder: &str, name: &str, ending: &str) -> Result<Text, Memory>
    ensures { IfOk result (λ path. path ≡ path_in folder.now name.now ending.now) }
{
    let path = format!(in alloc; "{folder}/{name}{ending}")?;
    Text::from_string(path)
}

/// The path of a database's folder.
pub(crate) fn database_path(alloc: Global, name: &str) -> Result<Text, Memory>
    ensures { IfOk result (λ path. path ≡ database_path name.now) }
{
    let path = format!(in alloc; "{name}_emuDB")?;
    Text::from_string(path)
}

/// What stands before an ending, where a name has it.
#[tactic(auto, using(crate::proofs::Stems::stem_is))]
fn stem<'a>(name: &'a str, ending: &str) -> Option<&'a str>
    ensures { MatchOption result (stem ending.now name.now ≡ None)
        (λ front. stem ending.now name.now ≡ Some front.now) }
{
    name.strip_suffix(ending)
}

/// The same of an entry that is a folder.
fn folder_stem<'a>(entry: &'a FolderEntry, ending: &str) -> Option<&'a str>
    ensures { MatchOption result (folder_stem ending.now entry.now ≡ None)
        (λ front. folder_stem ending.now entry.now ≡ Some front.now) }
{
    if entry.folder {
        stem(entry.name.as_str(), ending)
    } else {
        None
    }
}

/// A name of a file or a folder.
fn file_name(alloc: Global, name: &str) -> Result<FileName, Memory>
    ensures { IfOk result (λ made. made ≡ name.now) }
{
    match FileName::new(alloc, name) {
        Ok(made) => Ok(made),
        Err(_) => Err(Memory),
    }
}

/// Puts what the entry is called before an ending behind these names, if it is a folder that has the ending.
fn add_stem(
    alloc: Global,
    names: &mut Vec<FileName>,
    entry: &FolderEntry,
    ending: &str,
) -> Result<(), Memory>
    ensures { OnOk result (names.new.items
        ≡ names.old.items ++ filter_map (folder_stem ending.now) (entry.now ∷ [])) }
{
    match folder_stem(entry, ending) {
        Some(name) => {
            names.push(file_name(alloc, name)?)?;
            Ok(())
        }
        None => Ok(()),
    }
}

/// What the folders with an ending are called before it, in the order of the entries.
fn stems(alloc: Global, entries: &[FolderEntry], ending: &str) -> Result<Vec<FileName>, Memory>
    ensures { IfOk result (λ names.
        names.items ≡ filter_map (folder_stem ending.now) entries.now) }
{
    let mut names = Vec::new(alloc);
    'entries: for entry in entries {
        add_stem(alloc, &mut names, entry, ending)?;
    }
    Ok(names)
}

/// What the folders with an ending are called before it, in the order of the bytes of that.
pub(crate) fn names_with(
    alloc: Global,
    entries: &FolderEntries,
    ending: &str,
) -> Result<FileNames, Memory>
    ensures { IfOk result (λ names. names ≡ names_with ending.now entries.now) }
{
    let mut names = stems(alloc, entries.as_slice(), ending)?;
    names.sort()?;
    Ok(Series::from_vec(names))
}
