//! What a folder gives: the bytes of a file, and entries with their names.
ghost use Rattle.std.specs.Prelude.{◌≡◌, [], ◌∷◌, ◌++◌, ◌<◌, length, nat_eq, refl, slice_get, string_bytes, IfOk, OnErr, OnOk};
ghost use Rattle.std.specs.Cmp.Lexicographic.{pointwise, slice_cmp};
ghost use Rattle.std.specs.Cmp.Lexicographic.{texts_po, texts_ties, nat_list_cmp_total, nat_list_eq_equiv};
ghost use Rattle.std.specs.Cmp.{partial_equiv_from_equiv};
ghost use Rattle.std.specs.Ordering.{nat_cmp};
ghost use Rattle.std.specs.declared.option.Option.TheVariants.{Some};

use crate::faults::Memory;
use std::alloc::Global;
use std::cmp::Ordering;
use std::fmt;
use std::marker::Model;

/// The name of an entry of a folder, which contracts see as the list of its bytes in UTF-8. Names
/// are ordered by their bytes.
#[derive(Debug, Drop)]
pub struct FileName {
    text: String,
}

impl Model for FileName {
    ghost use Rattle.std.specs.Prelude.{List, ℕ, string_bytes};

    ghost Value = { List ℕ };

    ghost view = { λ n. string_bytes n.text };
}

impl FileName {
    /// The name `text`. The only refusal is want of memory.
    pub fn new(alloc: Global, text: &str) -> Result<FileName, Memory>
        ensures { IfOk result (λ made. made ≡ text.now) }
    {
        let text = String::from_str(alloc, text)?;
        Ok(FileName { text })
    }

    /// The name as text.
    pub fn as_str(&self) -> &str
        ensures { result.now ≡ self.now }
    {
        self.text.as_str()
    }

    /// The same name again. The only refusal is want of memory.
    pub fn copy(&self, alloc: Global) -> Result<FileName, Memory>
        ensures { IfOk result (λ made. made ≡ self.now) }
    {
        FileName::new(alloc, self.as_str())
    }
}

impl PartialEq for FileName {
    ghost eq = { pointwise nat_eq };

    ghost laws = { partial_equiv_from_equiv nat_list_eq_equiv };

    fn eq(&self, other: &FileName) -> bool {
        self.as_str() == other.as_str()
    }
}

impl Eq for FileName {
    ghost laws = { nat_list_eq_equiv };
}

impl PartialOrd for FileName {
    ghost partial_cmp = { λ a b. Some (slice_cmp nat_cmp a b) };

    ghost laws = { texts_po };

    fn partial_cmp(&self, other: &FileName) -> Option<Ordering> {
        Some(self.cmp(other))
    }
}

impl Ord for FileName {
    ghost cmp = { slice_cmp nat_cmp };

    ghost total = { nat_list_cmp_total };

    ghost matches_partial_cmp = { λ _ _. refl };

    ghost matches_eq = { texts_ties };

    fn cmp(&self, other: &FileName) -> Ordering {
        self.as_str().cmp(other.as_str())
    }
}

impl fmt::Display for FileName {
    ghost output = { λ s. Some s };

    fn fmt<W: fmt::Write>(&self, f: &mut fmt::Formatter<W>) -> fmt::Result {
        fmt::Display::fmt(self.as_str(), f)
    }
}

/// The bytes of a file.
#[derive(Debug, Drop)]
pub struct FileBytes {
    bytes: Vec<u8>,
}

impl Model for FileBytes {
    ghost use Rattle.std.specs.Prelude.{List, ℕ};

    ghost Value = { List ℕ };

    ghost view = { λ b. b.bytes.items };
}

impl FileBytes {
    /// The bytes that `bytes` holds, without a copy.
    pub fn from_vec(bytes: Vec<u8>) -> FileBytes
        ensures { result ≡ bytes.items }
    {
        FileBytes { bytes }
    }

    /// A copy of these bytes. The only refusal is want of memory.
    pub fn from_slice(alloc: Global, bytes: &[u8]) -> Result<FileBytes, Memory>
        ensures { IfOk result (λ made. made ≡ bytes.now) }
    {
        Ok(FileBytes {
            bytes: bytes.to_vec(alloc)?,
        })
    }

    /// How many bytes there are.
    pub fn len(&self) -> usize
        ensures { result ≡ length self.now }
    {
        self.bytes.len()
    }

    /// The bytes in order.
    pub fn as_slice(&self) -> &[u8]
        ensures { result.now ≡ self.now }
    {
        &self.bytes
    }

    /// The same bytes again. The only refusal is want of memory.
    pub fn copy(&self, alloc: Global) -> Result<FileBytes, Memory>
        ensures { IfOk result (λ made. made ≡ self.now) }
    {
        FileBytes::from_slice(alloc, self.as_slice())
    }
}

/// What stands directly below a folder.
#[derive(Debug, Drop)]
pub struct FolderEntry {
    /// Its name, which is the last part of its path.
    pub name: FileName,
    /// Whether it is a folder itself.
    pub folder: bool,
}

impl FolderEntry {
    /// The same entry again. The only refusal is want of memory.
    pub fn copy(&self, alloc: Global) -> Result<FolderEntry, Memory>
        ensures { IfOk result (λ made. made ≡ self.now) }
    {
        Ok(FolderEntry {
            name: self.name.copy(alloc)?,
            folder: self.folder,
        })
    }
}

/// Entries of a folder, in order.
#[derive(Debug, Drop)]
pub struct FolderEntries {
    items: Vec<FolderEntry>,
}

impl Model for FolderEntries {
    ghost use Rattle.std.specs.Prelude.{List};
    ghost use Rattle.emu_io.specs.declared.entries.FolderEntry.{FolderEntry};

    ghost Value = { List FolderEntry };

    ghost view = { λ e. e.items.items };
}

impl FolderEntries {
    /// No entry yet. The list grows by `alloc`.
    pub fn new(alloc: Global) -> FolderEntries
        ensures { result ≡ [] }
    {
        FolderEntries {
            items: Vec::new(alloc),
        }
    }

    /// The entries of `items`.
    pub fn from_vec(items: Vec<FolderEntry>) -> FolderEntries
        ensures { result ≡ items.items }
    {
        FolderEntries { items }
    }

    /// Puts an entry last. The only refusal is want of memory, which changes nothing.
    pub fn push(&mut self, entry: FolderEntry) -> Result<(), Memory>
        ensures ok { OnOk result (self.new ≡ self.old ++ entry ∷ []) }
        ensures err { OnErr result (self.new ≡ self.old) }
    {
        self.items.push(entry)?;
        Ok(())
    }

    /// How many entries there are.
    pub fn len(&self) -> usize
        ensures { result ≡ length self.now }
    {
        self.items.len()
    }

    /// The entry at a place, counted from 0.
    pub fn get(&self, place: usize) -> &FolderEntry
        requires { place < length self.now }
        ensures { slice_get self.now place ≡ Some result.now }
    {
        &self.items[place]
    }

    /// The entries in order.
    pub fn as_slice(&self) -> &[FolderEntry]
        ensures { result.now ≡ self.now }
    {
        self.items.as_slice()
    }

    /// The same entries again. The only refusal is want of memory.
    pub fn copy(&self, alloc: Global) -> Result<FolderEntries, Memory>
        ensures { IfOk result (λ made. made ≡ self.now) }
    {
        let items = copied(alloc, self.items.as_slice())?;
        Ok(FolderEntries { items })
    }
}

fn copied(alloc: Global, entries: &[FolderEntry]) -> Result<Vec<FolderEntry>, Memory>
    ensures { IfOk result (λ made. made.items ≡ entries.now) }
{
    let mut made = Vec::with_capacity(alloc, entries.len())?;
    'entries: for entry in entries {
        made.push(entry.copy(alloc)?)?;
    }
    Ok(made)
}
