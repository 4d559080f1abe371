//! Names, and the pair of names that a bundle is found by.
ghost use Rattle.std.specs.Prelude.{◌≡◌, ◌↔◌, IfOk, OnOk, IsTrue, IsErrOf, false, nat_eq, refl};
ghost use Rattle.std.specs.List.{list_all};
ghost use Rattle.std.specs.Cmp.Lexicographic.{pointwise, slice_cmp};
ghost use Rattle.std.specs.Cmp.{partial_equiv_from_equiv};
ghost use Rattle.std.specs.Ordering.{nat_cmp};
ghost use Rattle.std.specs.declared.option.Option.TheVariants.{Some};
ghost use Rattle.std.specs.Cmp.Lexicographic.{texts_po, texts_ties, nat_list_cmp_total, nat_list_eq_equiv};
ghost use Rattle.emu_names.specs.Name.{is_clean, is_name};
ghost use Rattle.emu_names.specs.Order.{key_cmp};
ghost use Rattle.std.specs.declared.cmp.Ordering.TheVariants.{Equal};

use crate::limits::NAME_BYTES;
use crate::shortage::Memory;
use crate::texts::Text;
use std::alloc::{AllocError, AllocFailed, Global};
use std::cmp::Ordering;
use std::fmt;
use std::marker::Model;
use std::sync::ArcStr;
use thiserror::Error;

/// Why a text is no name.
#[derive(Clone, Copy, Debug, PartialEq, Eq, Error)]
pub enum NameFault {
    /// The text is empty, has over 255 bytes, or has a byte below 32 or the byte 127.
    #[error("a name has 1 to 255 bytes and no control characters")]
    BadName,
    /// Memory ran out.
    #[error("out of memory")]
    Memory,
}

impl NameFault {
    /// The same fault again.
    pub fn copy(&self) -> NameFault
        ensures { result ≡ self.now }
    {
        *self
    }
}

impl From<Memory> for NameFault {
    ghost use Rattle.emu_names.specs.declared.names.NameFault.TheVariants.{Memory as OutOfMemory};

    ghost from_gives = { λ _ e. e ≡ OutOfMemory };

    fn from(_error: Memory) -> NameFault {
        NameFault::Memory
    }
}

impl From<AllocError> for NameFault {
    ghost use Rattle.emu_names.specs.declared.names.NameFault.TheVariants.{Memory as OutOfMemory};

    ghost from_gives = { λ _ e. e ≡ OutOfMemory };

    fn from(_error: AllocError) -> NameFault {
        NameFault::Memory
    }
}

impl<T: Drop> From<AllocFailed<T>> for NameFault {
    ghost use Rattle.emu_names.specs.declared.names.NameFault.TheVariants.{Memory as OutOfMemory};

    ghost from_gives = { λ _ e. e ≡ OutOfMemory };

    fn from(_error: AllocFailed<T>) -> NameFault {
        NameFault::Memory
    }
}

fn is_clean(byte: u8) -> bool
    ensures { result ≡ is_clean byte }
{
    byte >= 32 && byte != 127
}

fn are_clean(bytes: &[u8]) -> bool
    ensures { result ≡ list_all is_clean bytes.now }
{
    bytes.iter().all(|byte| is_clean(*byte))
}

/// Whether `text` may be a name: it has 1 to 255 bytes, none below 32 and none 127.
pub fn is_name(text: &str) -> bool
    ensures { result ≡ is_name text.now }
{
    1 <= text.len() && text.len() <= NAME_BYTES && are_clean(text.as_bytes())
}

/// A name of a database, session, bundle, level or attribute, which contracts see as the list of
/// its bytes. Names are ordered by their bytes. A name's copies share its bytes.
#[derive(Debug, Drop)]
pub struct Name {
    text: ArcStr,
}

impl Model for Name {
    ghost use Rattle.std.specs.Prelude.{List, ℕ, IsTrue};
    ghost use Rattle.std.specs.Arc.{arc_str_bytes};
    ghost use Rattle.emu_names.specs.Name.{is_name};

    ghost Value = { List ℕ };

    ghost view = { λ n. arc_str_bytes n.text };

    ghost invariant = { λ n. IsTrue (is_name (arc_str_bytes n.text)) };
}

impl Name {
    /// The name `text`. `BadName` comes exactly where `text` is no name (`is_name`).
    pub fn new(alloc: Global, text: &str) -> Result<Name, NameFault>
        ensures ok { IfOk result (λ made. made ≡ text.now) }
        ensures clean { OnOk result (IsTrue (is_name text.now)) }
        ensures bad { IsErrOf result NameFault.BadName ↔ (is_name text.now ≡ false) }
    {
        if !is_name(text) {
            return Err(NameFault::BadName);
        }
        let text = ArcStr::from_str(alloc, text)?;
        Ok(Name { text })
    }

    /// The name as text.
    pub fn as_str(&self) -> &str
        ensures value { result.now ≡ self.now }
        ensures clean { IsTrue (is_name self.now) }
    {
        let _ = &self.text;
        self.text.as_str()
    }

    /// The same name again, which shares the bytes. The only refusal is want of memory.
    pub fn copy(&self, _alloc: Global) -> Result<Name, Memory>
        ensures { IfOk result (λ made. made ≡ self.now) }
    {
        let text = self.text.clone()?;
        Ok(Name { text })
    }

    /// The name as a text, which shares its bytes. The only refusal is want of memory.
    pub fn to_text(&self) -> Result<Text, Memory>
        ensures { IfOk result (λ made. made ≡ self.now) }
    {
        let text = self.text.clone()?;
        Ok(Text::of(text))
    }
}

impl PartialEq for Name {
    ghost eq = { pointwise nat_eq };

    ghost laws = { partial_equiv_from_equiv nat_list_eq_equiv };

    fn eq(&self, other: &Name) -> bool {
        self.as_str() == other.as_str()
    }
}

impl Eq for Name {
    ghost laws = { nat_list_eq_equiv };
}

impl PartialOrd for Name {
    ghost partial_cmp = { λ a b. Some (slice_cmp nat_cmp a b) };

    ghost laws = { texts_po };

    fn partial_cmp(&self, other: &Name) -> Option<Ordering> {
        Some(self.cmp(other))
    }
}

impl Ord for Name {
    ghost cmp = { slice_cmp nat_cmp };

    ghost total = { nat_list_cmp_total };

    ghost matches_partial_cmp = { λ _ _. refl };

    ghost matches_eq = { texts_ties };

    fn cmp(&self, other: &Name) -> Ordering {
        self.as_str().cmp(other.as_str())
    }
}

impl fmt::Display for Name {
    ghost output = { λ n. Some n };

    fn fmt<W: fmt::Write>(&self, f: &mut fmt::Formatter<W>) -> fmt::Result {
        fmt::Display::fmt(self.as_str(), f)
    }
}

/// What a bundle is found by. Keys are ordered by session, and then by bundle.
#[derive(Debug, Drop, PartialEq, Eq, PartialOrd, Ord)]
pub struct BundleKey {
    /// The session that the bundle belongs to.
    pub session: Name,
    /// The bundle's name in its session.
    pub bundle: Name,
}

impl BundleKey {
    /// The same key again. The only refusal is want of memory.
    pub fn copy(&self, alloc: Global) -> Result<BundleKey, Memory>
        ensures { IfOk result (λ made. made ≡ self.now) }
    {
        let session = self.session.copy(alloc)?;
        let bundle = self.bundle.copy(alloc)?;
        Ok(BundleKey { session, bundle })
    }
}

/// A law with nothing to run: keys are compared by session and then by bundle, and keys that
/// compare alike are the same key.
pub fn keys_in_order()
    ensures order { (a b : BundleKey) → ⟦<BundleKey as Ord>⟧.cmp a b ≡ key_cmp a b }
    ensures exact { (a b : BundleKey) → key_cmp a b ≡ Equal → a ≡ b }
{}
