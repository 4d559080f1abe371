//! An item of a level.
ghost use Rattle.std.specs.Prelude.{◌≡◌, IfOk};

use crate::labels::Labels;
use crate::times::Time;
use emu_names::{ItemId, Memory, PlainData};
use std::alloc::Global;

/// An item of a level (EMU-SDMS Manual, "The emuDB format": `items` in `_annot.json`).
#[derive(Drop)]
pub struct Item {
    /// Its id, which no other item of its bundle has.
    pub id: ItemId,
    /// When it is.
    pub time: Time,
    /// Its labels, in the order of the level's attributes. Copies of the item share them.
    pub labels: Labels,
}

impl Item {
    /// The same item again, which shares its labels. The only refusal is want of memory.
    pub fn copy(&self, alloc: Global) -> Result<Item, Memory>
        ensures { IfOk result (λ made. made ≡ self.now) }
    {
        let labels = self.labels.copy(alloc)?;
        Ok(Item {
            id: self.id,
            time: self.time,
            labels,
        })
    }
}

impl PlainData for Item {
    fn copy(&self, alloc: Global) -> Result<Item, Memory> {
        Item::copy(self, alloc)
    }
}
