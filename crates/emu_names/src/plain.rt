//! Data that can be copied, where a copy may want memory.
ghost use Rattle.std.specs.Prelude.{◌≡◌, IfOk};

use crate::{Broken, BundleKey, ItemId, LevelKind, Memory, Name, SessionNo, Text};
use std::alloc::Global;

/// Plain data: a value that can be made again.
pub trait PlainData: Drop {
    /// The same value again. The only refusal is want of memory.
    fn copy(&self, alloc: Global) -> Result<Self, Memory>
        ensures { IfOk result (λ made. made ≡ self.now) };
}

impl PlainData for Text {
    fn copy(&self, alloc: Global) -> Result<Text, Memory> {
        Text::copy(self, alloc)
    }
}

impl PlainData for Name {
    fn copy(&self, alloc: Global) -> Result<Name, Memory> {
        Name::copy(self, alloc)
    }
}

impl PlainData for BundleKey {
    fn copy(&self, alloc: Global) -> Result<BundleKey, Memory> {
        BundleKey::copy(self, alloc)
    }
}

impl PlainData for Broken {
    fn copy(&self, alloc: Global) -> Result<Broken, Memory> {
        Broken::copy(self, alloc)
    }
}

impl PlainData for ItemId {
    fn copy(&self, _alloc: Global) -> Result<ItemId, Memory> {
        Ok(*self)
    }
}

impl PlainData for SessionNo {
    fn copy(&self, _alloc: Global) -> Result<SessionNo, Memory> {
        Ok(*self)
    }
}

impl PlainData for LevelKind {
    fn copy(&self, _alloc: Global) -> Result<LevelKind, Memory> {
        Ok(*self)
    }
}
