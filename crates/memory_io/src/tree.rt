//! What is found by a path in what a folder in memory stores.
ghost use Rattle.std.specs.Prelude.{◌≡◌, ◌≤◌, count_by, length, IfOk, IsErrOf, MatchOption, None, OnOk, Some};
ghost use Rattle.std.specs.List.{list_any};
ghost use Rattle.emu_io.specs.Folders.{behind, first_part, has_parts, entry_of, entries_below};
ghost use Rattle.emu_io.specs.Folders.{is_named, is_before, with_entry};
ghost use Rattle.emu_io.specs.Folders.{makes_folder, file_of, within, Gives, file_answer, list_answer};
ghost use Rattle.emu_io.specs.declared.limits.TheConstants.{FILE_BYTES};

use emu_io::limits::{FILE_BYTES, FOLDER_ENTRIES};
use emu_io::{FileBytes, FileName, FolderEntries, FolderEntry, FolderFault, Memory, Stored};
use std::alloc::Global;

// What is left of a path behind a folder's and a `/`.
fn below<'a>(path: &'a str, folder: &str) -> Option<&'a str>
    ensures { MatchOption result (behind folder.now path.now ≡ None)
        (λ rest. behind folder.now path.now ≡ Some rest.now) }
{
    let rest = path.strip_prefix(folder)?;
    rest.strip_prefix('/')
}

fn first_part(path: &str) -> &str
    ensures { result.now ≡ first_part path.now }
{
    match path.split_once('/') {
        Some((first, _)) => first,
        None => path,
    }
}

fn has_parts(path: &str) -> bool
    ensures { result ≡ has_parts path.now }
{
    match path.split_once('/') {
        Some(_) => true,
        None => false,
    }
}

fn entry_of(alloc: Global, folder: &str, stored: &Stored) -> Result<Option<FolderEntry>, Memory>
    ensures { IfOk result (λ entry. entry ≡ entry_of folder.now stored.now) }
{
    match below(stored.path.as_str(), folder) {
        Some(rest) => Ok(Some(FolderEntry {
            name: FileName::new(alloc, first_part(rest))?,
            folder: has_parts(rest) || stored.bytes.is_none(),
        })),
        None => Ok(None),
    }
}

fn is_named(entry: &FolderEntry, name: &FileName) -> bool
    ensures { result ≡ is_named name.now entry.now }
{
    entry.name.as_str() == name.as_str()
}

fn is_before(entry: &FolderEntry, name: &FileName) -> bool
    ensures { result ≡ is_before name.now entry.now }
{
    entry.name.cmp(name).is_lt()
}

fn is_there(entries: &[FolderEntry], name: &FileName) -> bool
    ensures { result ≡ list_any (is_named name.now) entries.now }
{
    entries.iter().any(|entry| is_named(entry, name))
}

fn place_for(entries: &[FolderEntry], name: &FileName) -> usize
    ensures place { result ≡ count_by (is_before name.now) entries.now }
    ensures bound { result ≤ length entries.now }
{
    entries
        .iter()
        .filter(|entry| is_before(entry, name))
        .count()
}

fn put_entry(entries: &mut Vec<FolderEntry>, entry: FolderEntry) -> Result<(), Memory>
    ensures { OnOk result (entries.new.items ≡ with_entry entry entries.old.items) }
{
    if !is_there(entries, &entry.name) {
        let place = place_for(entries, &entry.name);
        entries.insert(place, entry)?;
    }
    Ok(())
}

fn entries_below(alloc: Global, content: &[Stored], path: &str) -> Result<FolderEntries, Memory>
    ensures { IfOk result (λ entries. entries ≡ entries_below content.now path.now) }
{
    let mut entries = Vec::new(alloc);
    let mut at = content.len();
    'stored: while at > 0 {
        at -= 1;
        if let Some(entry) = entry_of(alloc, path, &content[at])? {
            put_entry(&mut entries, entry)?;
        }
    }
    Ok(FolderEntries::from_vec(entries))
}

fn makes_folder(stored: &Stored, path: &str) -> bool
    ensures { result ≡ makes_folder path.now stored.now }
{
    (stored.path.as_str() == path && stored.bytes.is_none())
        || below(stored.path.as_str(), path).is_some()
}

fn is_folder(content: &[Stored], path: &str) -> bool
    ensures { result ≡ list_any (makes_folder path.now) content.now }
{
    content.iter().any(|stored| makes_folder(stored, path))
}

/// What a listing of a path answers where no call fails.
pub fn list_of(alloc: Global, content: &[Stored], path: &str) -> Result<FolderEntries, FolderFault>
    ensures answer { Gives (list_answer path.now content.now) result }
    ensures sure { IsErrOf result FolderFault.Failed → ⊥ }
{
    if !is_folder(content, path) {
        return Err(FolderFault::Absent);
    }
    let entries = entries_below(alloc, content, path)?;
    if entries.len() > FOLDER_ENTRIES {
        return Err(FolderFault::TooLarge);
    }
    Ok(entries)
}

fn file_of<'a>(stored: &'a Stored, path: &str) -> Option<&'a FileBytes>
    ensures { MatchOption result (file_of path.now stored.now ≡ None)
        (λ bytes. file_of path.now stored.now ≡ Some bytes.now) }
{
    if stored.path.as_str() == path {
        stored.bytes.as_ref()
    } else {
        None
    }
}

fn copy_of(alloc: Global, bytes: &FileBytes) -> Result<FileBytes, FolderFault>
    ensures answer { Gives (within FILE_BYTES (Some bytes.now)) result }
    ensures sure { IsErrOf result FolderFault.Failed → ⊥ }
{
    if bytes.len() > FILE_BYTES {
        return Err(FolderFault::TooLarge);
    }
    Ok(bytes.copy(alloc)?)
}

/// What a reading of a path answers where no call fails.
pub fn read_of(alloc: Global, content: &[Stored], path: &str) -> Result<FileBytes, FolderFault>
    ensures answer { Gives (file_answer path.now content.now) result }
    ensures sure { IsErrOf result FolderFault.Failed → ⊥ }
{
    'stored: for stored in content {
        if let Some(bytes) = file_of(stored, path) {
            return copy_of(alloc, bytes);
        }
    }
    Err(FolderFault::Absent)
}
