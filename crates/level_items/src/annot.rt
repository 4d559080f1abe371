//! An annotation as it is given, before the rules are tested.
ghost use Rattle.std.specs.Prelude.{◌≡◌, IfOk};

use crate::times::Time;
use emu_names::{ItemId, LevelKind, Memory, PlainData, Series, Text};
use std::alloc::Global;

/// A label as it is given: the name of its attribute, and its text (EMU-SDMS Manual, "The emuDB
/// format": `labels` of an item in `_annot.json`).
#[derive(Drop)]
pub struct AnnotLabel {
    /// The attribute's name.
    pub name: Text,
    /// The label.
    pub value: Text,
}

/// The labels of an item as it is given.
pub type AnnotLabels = Series<AnnotLabel>;

/// An item as it is given (EMU-SDMS Manual, "The emuDB format": `items` in `_annot.json`).
#[derive(Drop)]
pub struct AnnotItem {
    /// Its id.
    pub id: ItemId,
    /// When it is.
    pub time: Time,
    /// Its labels.
    pub labels: AnnotLabels,
}

/// The items of a level as they are given.
pub type AnnotItems = Series<AnnotItem>;

/// A level as it is given (EMU-SDMS Manual, "The emuDB format": `levels` in `_annot.json`).
#[derive(Drop)]
pub struct AnnotLevel {
    /// The level's name.
    pub name: Text,
    /// Its type.
    pub kind: LevelKind,
    /// Its items, in order.
    pub items: AnnotItems,
}

/// The levels of an annotation, in the order in which they are given.
pub type AnnotLevels = Series<AnnotLevel>;

/// A link as it is given (EMU-SDMS Manual, "The emuDB format": `links` in `_annot.json`).
#[derive(Clone, Copy, Debug, PartialEq, Eq)]
pub struct AnnotLink {
    /// The upper item (`fromID`).
    pub from: ItemId,
    /// The lower item (`toID`).
    pub to: ItemId,
}

/// The links of an annotation, in the order in which they are given.
pub type AnnotLinks = Series<AnnotLink>;

/// An annotation (EMU-SDMS Manual, "The emuDB format": `_annot.json`).
#[derive(Drop)]
pub struct Annot {
    /// The name of the sound file, or the empty text.
    pub annotates: Text,
    /// Samples a second.
    pub rate: u64,
    /// The levels.
    pub levels: AnnotLevels,
    /// The links.
    pub links: AnnotLinks,
}

impl AnnotLabel {
    /// The same label again. The only refusal is want of memory.
    pub fn copy(&self, alloc: Global) -> Result<AnnotLabel, Memory>
        ensures { IfOk result (λ made. made ≡ self.now) }
    {
        let name = self.name.copy(alloc)?;
        let value = self.value.copy(alloc)?;
        Ok(AnnotLabel { name, value })
    }
}

impl AnnotItem {
    /// The same item again. The only refusal is want of memory.
    pub fn copy(&self, alloc: Global) -> Result<AnnotItem, Memory>
        ensures { IfOk result (λ made. made ≡ self.now) }
    {
        let labels = self.labels.copy(alloc)?;
        Ok(AnnotItem {
            id: self.id,
            time: self.time,
            labels,
        })
    }
}

impl AnnotLevel {
    /// The same level again. The only refusal is want of memory.
    pub fn copy(&self, alloc: Global) -> Result<AnnotLevel, Memory>
        ensures { IfOk result (λ made. made ≡ self.now) }
    {
        let name = self.name.copy(alloc)?;
        let items = self.items.copy(alloc)?;
        Ok(AnnotLevel {
            name,
            kind: self.kind,
            items,
        })
    }
}

impl AnnotLink {
    /// The same link again.
    pub fn copy(&self) -> AnnotLink
        ensures { result ≡ self.now }
    {
        *self
    }
}

impl Annot {
    /// The same annotation again. The only refusal is want of memory.
    pub fn copy(&self, alloc: Global) -> Result<Annot, Memory>
        ensures { IfOk result (λ made. made ≡ self.now) }
    {
        let annotates = self.annotates.copy(alloc)?;
        let levels = self.levels.copy(alloc)?;
        let links = self.links.copy(alloc)?;
        Ok(Annot {
            annotates,
            rate: self.rate,
            levels,
            links,
        })
    }
}

impl PlainData for AnnotLabel {
    fn copy(&self, alloc: Global) -> Result<AnnotLabel, Memory> {
        AnnotLabel::copy(self, alloc)
    }
}

impl PlainData for AnnotItem {
    fn copy(&self, alloc: Global) -> Result<AnnotItem, Memory> {
        AnnotItem::copy(self, alloc)
    }
}

impl PlainData for AnnotLevel {
    fn copy(&self, alloc: Global) -> Result<AnnotLevel, Memory> {
        AnnotLevel::copy(self, alloc)
    }
}

impl PlainData for AnnotLink {
    fn copy(&self, _alloc: Global) -> Result<AnnotLink, Memory> {
        Ok(*self)
    }
}

impl PlainData for Annot {
    fn copy(&self, alloc: Global) -> Result<Annot, Memory> {
        Annot::copy(self, alloc)
    }
}
