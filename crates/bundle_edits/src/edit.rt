//! The edits of a database.
ghost use Rattle.std.specs.Prelude.{◌≡◌, IfOk, IsTrue};
ghost use Rattle.bundle_edits.specs.Edits.{key_of};
ghost use Rattle.bundle_edits.specs.Inner.Kinds.{is_of_item, is_of_label, is_of_time, is_of_link};

use emu_names::{BundleKey, ItemId, Memory, PlainData, Text};
use level_items::{Annot, AnnotItem};
use std::alloc::Global;

/// A change of the database. Samples and durations count in samples of the bundle's rate, from 0.
///
/// Each is refused by the first rule that it breaks, in the order given. All but `AddBundle` are refused
/// first where no bundle has the key (`NoBundle`).
#[derive(Drop)]
pub enum Edit {
    /// Adds the bundle that an annotation makes. Refused are a key that is there (`BundleTaken`), over 10,000
    /// bundles (`TooMany`), what `Bundle::build` refuses, and over 2,000,000 items of all bundles (`TooMany`).
    AddBundle {
        /// The bundle's session and name.
        key: BundleKey,
        /// Its annotation.
        annot: Annot,
    },
    /// Takes a bundle out.
    DropBundle {
        /// The bundle's session and name.
        key: BundleKey,
    },
    /// Puts an item on a level. Refused are a level that is not there (`NoLevel`), over 65,536 items of the
    /// bundle or 2,000,000 of all (`TooMany`), an id that is taken (`IdTaken`), a time of another form than
    /// the level's (`TimeKind`) or past sample 2^40 - 1 (`TimeOut`); for each label an unknown attribute
    /// (`NoAttribute`), one that is named twice (`TwoLabels`), a label of over 4,096 bytes (`LabelTooLong`) or
    /// one that is not legal (`IllegalLabel`); and a position out of range (`PositionOut`) or a time that does
    /// not lie between its neighbours (`Overlap`, `NotRising`, of the previous one first).
    AddItem {
        /// The bundle's session and name.
        key: BundleKey,
        /// The level's name.
        level: Text,
        /// The item's position on an ITEM level, or none for the end; none on the other levels, where the
        /// time gives the place.
        position: Option<u32>,
        /// The item, with the labels that are not empty.
        item: AnnotItem,
    },
    /// Takes an item out, with all its links. Refused is an id that no item has (`NoItem`).
    RemoveItem {
        /// The bundle's session and name.
        key: BundleKey,
        /// The item's id.
        id: ItemId,
    },
    /// Gives an item another label. Refused are an id that no item has (`NoItem`), an attribute that its level
    /// has not (`NoAttribute`), a label of over 4,096 bytes (`LabelTooLong`) or one that is not legal
    /// (`IllegalLabel`).
    SetLabel {
        /// The bundle's session and name.
        key: BundleKey,
        /// The item's id.
        id: ItemId,
        /// The name of the attribute.
        attribute: Text,
        /// The label.
        label: Text,
    },
    /// Gives a segment another time. Refused are an id that no item has (`NoItem`), an item on another kind of
    /// level (`TimeKind`), a time past sample 2^40 - 1 (`TimeOut`) and one that does not lie between its
    /// neighbours (`Overlap`, of the previous one first).
    SetSegment {
        /// The bundle's session and name.
        key: BundleKey,
        /// The item's id.
        id: ItemId,
        /// The first sample.
        start: u64,
        /// How many samples follow the first one.
        dur: u64,
    },
    /// Moves the boundary between a segment and the one that follows it at once. Refused are an id that no
    /// item has (`NoItem`), an item on another kind of level (`TimeKind`), a segment that none follows at once
    /// (`NoNeighbour`, with its id) and a place that would leave one of the two without a sample (`CutOut`).
    MoveBoundary {
        /// The bundle's session and name.
        key: BundleKey,
        /// The id of the segment before the boundary.
        id: ItemId,
        /// The first sample of the segment behind it.
        start: u64,
    },
    /// Gives a point another time. Refused are an id that no item has (`NoItem`), an item on another kind of
    /// level (`TimeKind`), a time past sample 2^40 - 1 (`TimeOut`) and one that does not lie between its
    /// neighbours (`NotRising`, of the previous one first).
    SetPoint {
        /// The bundle's session and name.
        key: BundleKey,
        /// The item's id.
        id: ItemId,
        /// The sample.
        at: u64,
    },
    /// Cuts a segment in two. Refused are an id that no item has (`NoItem`), an item on another kind of level
    /// (`TimeKind`), over 65,536 items of the bundle or 2,000,000 of all (`TooMany`), a new id that is taken
    /// (`IdTaken`) and a place that would leave one of the two without a sample (`CutOut`).
    Split {
        /// The bundle's session and name.
        key: BundleKey,
        /// The segment's id, which its first part keeps.
        id: ItemId,
        /// The id of its second part.
        new_id: ItemId,
        /// The first sample of the second part.
        start: u64,
    },
    /// Joins a segment with the one that follows it at once, which goes with its links. Refused are an id that
    /// no item has (`NoItem`), an item on another kind of level (`TimeKind`) and a segment that none follows at
    /// once (`NoNeighbour`, with its id).
    Merge {
        /// The bundle's session and name.
        key: BundleKey,
        /// The id of the first segment, which stays.
        id: ItemId,
    },
    /// Links an item to one of a level below. Refused are an id that no item has (`NoItem`, of the upper one
    /// first), levels between which no definition leads (`NoLinkDefinition`), a pair that is there
    /// (`LinkExists`), over 262,144 links (`TooMany`), and a second parent (`OneParent`) or a second child
    /// (`OneChild`) against the definition's kind.
    AddLink {
        /// The bundle's session and name.
        key: BundleKey,
        /// The id of the upper item.
        from: ItemId,
        /// The id of the lower item.
        to: ItemId,
    },
    /// Takes a link out. Refused is a pair that is not there (`NoLink`).
    RemoveLink {
        /// The bundle's session and name.
        key: BundleKey,
        /// The id of the upper item.
        from: ItemId,
        /// The id of the lower item.
        to: ItemId,
    },
    /// Links each item of a level to the segment of another level that holds it, where it is not linked to it
    /// yet. Refused are a level that is not there (`NoLevel`, of the upper one first), an upper level that is no
    /// SEGMENT level or a lower one that is an ITEM level (`TimeKind`), levels between which no definition leads
    /// (`NoLinkDefinition`), and levels between which all such links are there (`NothingToLink`); then for each
    /// link over 262,144 links (`TooMany`), a second parent (`OneParent`) and a second child (`OneChild`) against
    /// the definition's kind.
    LinkTimes {
        /// The bundle's session and name.
        key: BundleKey,
        /// The name of the level of the segments.
        upper: Text,
        /// The name of the level of the items that they hold.
        lower: Text,
    },
    /// Puts an item on a level whose labels need not be legal: `AddItem` without the refusal `IllegalLabel`.
    PutItem {
        /// The bundle's session and name.
        key: BundleKey,
        /// The level's name.
        level: Text,
        /// The item's position on an ITEM level, or none for the end; none on the other levels.
        position: Option<u32>,
        /// The item, with the labels that are not empty.
        item: AnnotItem,
    },
    /// Gives an item another label, which need not be legal: `SetLabel` without the refusal `IllegalLabel`.
    PutLabel {
        /// The bundle's session and name.
        key: BundleKey,
        /// The item's id.
        id: ItemId,
        /// The name of the attribute.
        attribute: Text,
        /// The label.
        label: Text,
    },
    /// Links an item to one of a level below, with the link at a place of the list of links. Refused is what
    /// `AddLink` refuses, and last a place past the end (`PositionOut`).
    PutLink {
        /// The bundle's session and name.
        key: BundleKey,
        /// The id of the upper item.
        from: ItemId,
        /// The id of the lower item.
        to: ItemId,
        /// How many links stand before it.
        place: u32,
    },
}

impl Edit {
    /// The session and the name of the bundle that the edit changes.
    pub fn key(&self) -> &BundleKey
        ensures { result.now ≡ key_of self.now }
    {
        match self {
            Edit::AddBundle { key, .. }
            | Edit::DropBundle { key }
            | Edit::AddItem { key, .. }
            | Edit::RemoveItem { key, .. }
            | Edit::SetLabel { key, .. }
            | Edit::SetSegment { key, .. }
            | Edit::MoveBoundary { key, .. }
            | Edit::SetPoint { key, .. }
            | Edit::Split { key, .. }
            | Edit::Merge { key, .. }
            | Edit::AddLink { key, .. }
            | Edit::RemoveLink { key, .. }
            | Edit::LinkTimes { key, .. }
            | Edit::PutItem { key, .. }
            | Edit::PutLabel { key, .. }
            | Edit::PutLink { key, .. } => key,
        }
    }

    /// The same edit again. The only refusal is want of memory.
    pub fn copy(&self, alloc: Global) -> Result<Edit, Memory>
        ensures { IfOk result (λ made. made ≡ self.now) }
    {
        let key = self.key().copy(alloc)?;
        match self {
            Edit::AddBundle { annot, .. } => {
                let annot = annot.copy(alloc)?;
                Ok(Edit::AddBundle { key, annot })
            }
            Edit::DropBundle { .. } => Ok(Edit::DropBundle { key }),
            Edit::AddItem { .. } | Edit::PutItem { .. } | Edit::RemoveItem { .. } => {
                copy_of_item(alloc, key, self)
            }
            Edit::SetLabel { .. } | Edit::PutLabel { .. } => copy_of_label(alloc, key, self),
            Edit::SetSegment { .. }
            | Edit::MoveBoundary { .. }
            | Edit::SetPoint { .. }
            | Edit::Split { .. }
            | Edit::Merge { .. } => Ok(copy_of_time(key, self)),
            Edit::AddLink { .. } | Edit::RemoveLink { .. } | Edit::PutLink { .. } => {
                Ok(copy_of_link(key, self))
            }
            Edit::LinkTimes { upper, lower, .. } => {
                let upper = upper.copy(alloc)?;
                let lower = lower.copy(alloc)?;
                Ok(Edit::LinkTimes { key, upper, lower })
            }
        }
    }
}

/// An edit of one item again, which takes this key.
fn copy_of_item(alloc: Global, key: BundleKey, edit: &Edit) -> Result<Edit, Memory>
    requires kind { IsTrue (is_of_item edit.now) }
    requires key { key ≡ key_of edit.now }
    ensures { IfOk result (λ made. made ≡ edit.now) }
{
    match edit {
        Edit::AddItem {
            level,
            position,
            item,
            ..
        } => {
            let level = level.copy(alloc)?;
            let item = item.copy(alloc)?;
            Ok(Edit::AddItem {
                key,
                level,
                position: *position,
                item,
            })
        }
        Edit::PutItem {
            level,
            position,
            item,
            ..
        } => {
            let level = level.copy(alloc)?;
            let item = item.copy(alloc)?;
            Ok(Edit::PutItem {
                key,
                level,
                position: *position,
                item,
            })
        }
        Edit::RemoveItem { id, .. } => Ok(Edit::RemoveItem { key, id: *id }),
        _ => unreachable!(),
    }
}

/// An edit of a label again, which takes this key.
fn copy_of_label(alloc: Global, key: BundleKey, edit: &Edit) -> Result<Edit, Memory>
    requires kind { IsTrue (is_of_label edit.now) }
    requires key { key ≡ key_of edit.now }
    ensures { IfOk result (λ made. made ≡ edit.now) }
{
    match edit {
        Edit::SetLabel {
            id,
            attribute,
            label,
            ..
        } => {
            let attribute = attribute.copy(alloc)?;
            let label = label.copy(alloc)?;
            Ok(Edit::SetLabel {
                key,
                id: *id,
                attribute,
                label,
            })
        }
        Edit::PutLabel {
            id,
            attribute,
            label,
            ..
        } => {
            let attribute = attribute.copy(alloc)?;
            let label = label.copy(alloc)?;
            Ok(Edit::PutLabel {
                key,
                id: *id,
                attribute,
                label,
            })
        }
        _ => unreachable!(),
    }
}

/// An edit of the times of segments or points again, which takes this key.
fn copy_of_time(key: BundleKey, edit: &Edit) -> Edit
    requires kind { IsTrue (is_of_time edit.now) }
    requires key { key ≡ key_of edit.now }
    ensures { result ≡ edit.now }
{
    match edit {
        Edit::SetSegment { id, start, dur, .. } => Edit::SetSegment {
            key,
            id: *id,
            start: *start,
            dur: *dur,
        },
        Edit::MoveBoundary { id, start, .. } => Edit::MoveBoundary {
            key,
            id: *id,
            start: *start,
        },
        Edit::SetPoint { id, at, .. } => Edit::SetPoint {
            key,
            id: *id,
            at: *at,
        },
        Edit::Split {
            id,
            new_id,
            start,
            ..
        } => Edit::Split {
            key,
            id: *id,
            new_id: *new_id,
            start: *start,
        },
        Edit::Merge { id, .. } => Edit::Merge { key, id: *id },
        _ => unreachable!(),
    }
}

/// An edit of one link again, which takes this key.
fn copy_of_link(key: BundleKey, edit: &Edit) -> Edit
    requires kind { IsTrue (is_of_link edit.now) }
    requires key { key ≡ key_of edit.now }
    ensures { result ≡ edit.now }
{
    match edit {
        Edit::AddLink { from, to, .. } => Edit::AddLink {
            key,
            from: *from,
            to: *to,
        },
        Edit::RemoveLink { from, to, .. } => Edit::RemoveLink {
            key,
            from: *from,
            to: *to,
        },
        Edit::PutLink {
            from,
            to,
            place,
            ..
        } => Edit::PutLink {
            key,
            from: *from,
            to: *to,
            place: *place,
        },
        _ => unreachable!(),
    }
}

impl PlainData for Edit {
    fn copy(&self, alloc: Global) -> Result<Edit, Memory> {
        Edit::copy(self, alloc)
    }
}
