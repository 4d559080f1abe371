//! One link between two items.
ghost use Rattle.std.specs.Prelude.{◌≡◌};

use emu_names::ItemId;

/// A link from an item of an upper level to one of a lower level (EMU-SDMS Manual, "The emuDB
/// format": `links` in `_annot.json`).
#[derive(Clone, Copy, Debug, PartialEq, Eq)]
pub struct Link {
    /// The place of the link's definition in the configuration, counted from 0.
    pub definition: u32,
    /// The upper item, which is the parent.
    pub from: ItemId,
    /// The lower item, which is the child.
    pub to: ItemId,
}

impl Link {
    /// The same link again.
    pub fn copy(&self) -> Link
        ensures { result ≡ self.now }
    {
        *self
    }
}
