//! A level list: the items of one level of a bundle, which keep the level rule.
ghost use Rattle.std.specs.Prelude.{◌≡◌, ◌<◌, ◌≤◌, [], length, nat_eq, insert, remove, position, slice_get, Some, IsTrue, ◌↔◌, IfOk, OnOk, OnErr};
ghost use Rattle.level_items.specs.Levels.{Level, KeepsLevelRule, are_labels_for, change_at, is_short, level_of, new_place, relabelled, retimed, widened, with_items};
ghost use Rattle.level_items.specs.Faults.{insert_fault, retime_fault};
ghost use Rattle.emu_names.specs.Inner.Gives.{FindsFault};

use crate::items::Item;
use crate::marks::Marks;
use crate::moves::{make_room, mark_of, put_in, retime_passes, set_label_in, set_time_in, widened};
use crate::times::Time;
use emu_names::{Fault, ItemId, LevelKind, Memory, PlainData, Text};
use std::alloc::{AllocError, Global};
use std::marker::Model;

/// The items of a level, which contracts see as the level's kind, its number of attributes and the list
/// of its items (EMU-SDMS Manual, "The emuDB format": `levels` in `_annot.json`).
///
/// It always keeps the level rule: ids are distinct; each time has the form of the level's kind and ends
/// below sample 2^40; each segment starts past the last sample of the one before it, and points rise
/// strictly; each item has one label for each attribute, of at most 4,096 bytes. There may be gaps
/// between segments.
#[derive(Drop)]
pub struct LevelList {
    kind: LevelKind,
    attributes: usize,
    items: Vec<Item>,
    marks: Marks,
}

impl Model for LevelList {
    ghost use Rattle.level_items.specs.Levels.{Level};

    ghost Value = { Level };

    ghost use Rattle.level_items.specs.Levels.{level_of};
    ghost use Rattle.level_items.specs.Inner.Kept.{IsKept};

    ghost view = { λ l. level_of l.kind l.attributes l.items.items };

    ghost invariant = { λ l. IsKept (level_of l.kind l.attributes l.items.items) l.marks };
}

impl LevelList {
    /// The list of no item, on a level of this kind with so many attributes. It grows by `alloc`. The only
    /// refusal is want of memory.
    pub fn new(alloc: Global, kind: LevelKind, attributes: usize) -> Result<LevelList, Memory>
        ensures { IfOk result (λ list. list ≡ level_of kind attributes []) }
    {
        LevelList::from_items(alloc, kind, attributes, Vec::new(alloc))
    }

    /// The list of these items, which keep the level rule. The only refusal is want of memory.
    pub fn from_items(
        alloc: Global,
        kind: LevelKind,
        attributes: usize,
        items: Vec<Item>,
    ) -> Result<LevelList, Memory>
        requires { KeepsLevelRule (level_of kind attributes items.items) }
        ensures { IfOk result (λ list. list ≡ level_of kind attributes items.items) }
    {
        let marks = Marks::of(alloc, items.as_slice())?;
        Ok(LevelList {
            kind,
            attributes,
            items,
            marks,
        })
    }

    /// How many items there are. Whoever asks may rely on the level rule.
    pub fn len(&self) -> usize
        ensures length { result ≡ length self.now.items }
        ensures rule { KeepsLevelRule self.now }
    {
        self.items.len()
    }

    /// How many attributes the level has.
    pub fn attributes(&self) -> usize
        ensures { result ≡ self.now.attributes }
    {
        self.attributes
    }

    /// Whether there is no item.
    pub fn is_empty(&self) -> bool
        ensures { IsTrue result ↔ (self.now.items ≡ []) }
    {
        self.items.is_empty()
    }

    /// The item at a position, counted from 0.
    pub fn get(&self, position: usize) -> &Item
        requires { position < length self.now.items }
        ensures { slice_get self.now.items position ≡ Some result.now }
    {
        &self.items[position]
    }

    /// All items, in order.
    pub fn as_slice(&self) -> &[Item]
        ensures { result.now ≡ self.now.items }
    {
        self.items.as_slice()
    }

    /// The position of the item with this id, where there is one.
    pub fn find(&self, id: ItemId) -> Option<usize>
        ensures { result ≡ position (λ i. nat_eq i.id.0 id.0) self.now.items }
    {
        self.marks.find(self.kind, &self.items, id)
    }

    /// Puts an item in, and answers its place. On an ITEM level this is `position`, or the end where none
    /// is given; on the other kinds it lies behind all items that begin before it.
    ///
    /// Refused are, in this order: an id that is there (`IdTaken`), a time of another form than the
    /// level's (`TimeKind`), one that ends past sample 2^40 - 1 (`TimeOut`), a position past the end of an
    /// ITEM level or any position on another kind (`PositionOut`), and a time that does not lie between
    /// those of its neighbours (`Overlap` on a SEGMENT level, `NotRising` on an EVENT level), with the id
    /// of the previous item before that of the next. A refusal, or want of memory, changes nothing.
    pub fn insert(&mut self, position: Option<u32>, item: Item) -> Result<usize, Fault>
        requires { IsTrue (are_labels_for self.old.attributes item.labels) }
        ensures fault { FindsFault result (insert_fault self.old.kind self.old.items position item) }
        ensures place { IfOk result (λ place. place ≡ new_place self.old.kind self.old.items position item.time) }
        ensures inserted { IfOk result (λ place. self.new ≡ with_items self.old (insert self.old.items place item)) }
        ensures kept { OnErr result (self.new ≡ self.old) }
    {
        let (items, marks) = (&mut self.items, &mut self.marks);
        let place = make_room(self.kind, items, marks, position, &item)?;
        put_in(&mut self.items, place, item);
        self.marks
            .note_moved(self.kind, &self.items, place.saturating_add(1));
        Ok(place)
    }

    /// Takes the item at a position out. The only refusal is want of memory, which changes nothing.
    pub fn remove(&mut self, position: usize) -> Result<Item, Memory>
        requires { position < length self.old.items }
        ensures item { IfOk result (λ item. slice_get self.old.items position ≡ Some item) }
        ensures removed { OnOk result (self.new ≡ with_items self.old (remove self.old.items position)) }
        ensures kept { OnErr result (self.new ≡ self.old) }
    {
        self.marks.take_away(self.items[position].id)?;
        let item = self.items.remove(position);
        self.marks.note_moved(self.kind, &self.items, position);
        Ok(item)
    }

    /// Sets one label of the item at a position, which no copy of the list sees. All else stays. The only
    /// refusal is want of memory, which changes nothing.
    pub fn set_label(
        &mut self,
        position: usize,
        attribute: usize,
        label: Text,
    ) -> Result<(), Memory>
        requires position { position < length self.old.items }
        requires attribute { attribute < self.old.attributes }
        requires label { IsTrue (is_short label) }
        ensures labelled { OnOk result (self.new ≡ with_items self.old
            (change_at (relabelled attribute label) position self.old.items)) }
        ensures kept { OnErr result (self.new ≡ self.old) }
    {
        let alloc = *self.items.allocator();
        set_label_in(alloc, &mut self.items, position, attribute, label)?;
        Ok(())
    }

    /// Sets the time of the item at a position, which it keeps.
    ///
    /// Refused are, in this order: a time of another form than the level's (`TimeKind`), one that ends
    /// past sample 2^40 - 1 (`TimeOut`), and one that does not lie between those of the item's neighbours
    /// (`Overlap` on a SEGMENT level, `NotRising` on an EVENT level), with the id of the previous item
    /// before that of the next. A refusal, or want of memory, changes nothing.
    pub fn retime(&mut self, position: usize, time: Time) -> Result<(), Fault>
        requires { position < length self.old.items }
        ensures fault { FindsFault result (retime_fault self.old.kind self.old.items position time) }
        ensures retimed { OnOk result
            (self.new ≡ with_items self.old (change_at (retimed time) position self.old.items)) }
        ensures kept { OnErr result (self.new ≡ self.old) }
    {
        retime_passes(self.kind, &self.items, position, time)?;
        self.marks
            .put(self.items[position].id, mark_of(position, time))?;
        set_time_in(&mut self.items, position, time);
        Ok(())
    }

    /// The same list again, which shares the labels of the items. The only refusal is want of memory.
    pub fn copy(&self, alloc: Global) -> Result<LevelList, Memory>
        ensures { IfOk result (λ made. made ≡ self.now) }
    {
        self.widened(alloc, self.attributes)
    }

    /// The same items on a level of so many attributes, at least as many as there are, with an empty label
    /// for each new one. The only refusal is want of memory.
    pub fn widened(&self, alloc: Global, attributes: usize) -> Result<LevelList, Memory>
        requires { self.now.attributes ≤ attributes }
        ensures { IfOk result (λ made. made ≡ widened attributes self.now) }
    {
        let items = widened(alloc, self.items.as_slice(), attributes)?;
        let marks = self.marks.copy()?;
        Ok(LevelList {
            kind: self.kind,
            attributes,
            items,
            marks,
        })
    }
}

impl PlainData for LevelList {
    fn copy(&self, alloc: Global) -> Result<LevelList, Memory> {
        LevelList::copy(self, alloc)
    }
}

impl Clone for LevelList {
    ghost use Rattle.std.specs.Prelude.{◌≡◌};

    ghost is_clone = { λ s t. t ≡ s };

    fn clone(&self) -> Result<LevelList, AllocError> {
        match self.copy(*self.items.allocator()) {
            Ok(list) => Ok(list),
            Err(Memory) => Err(AllocError),
        }
    }
}
