//! The level lists of a bundle, which its copies share until one of them changes a list.
ghost use Rattle.std.specs.Prelude.{◌≡◌, ◌<◌, ◌++◌, ◌∷◌, [], length, IfOk, IfSome, IsTrue, OnErr, OnOk, Some};
ghost use Rattle.std.specs.List.{slice_get};
ghost use Rattle.emu_names.specs.Inner.Gives.{FindsFault};
ghost use Rattle.level_items.specs.Levels.{are_labels_for, is_short, relabelled, retimed};
ghost use Rattle.level_items.specs.Faults.{insert_fault, retime_fault};
ghost use Rattle.level_items.specs.Changed.{change_level, new_time_fault, put_fault, with_changed, with_item, without_item};

use crate::handle::Handle;
use crate::items::Item;
use crate::levels::LevelList;
use crate::times::Time;
use emu_names::{Fault, Memory, PlainData, Text};
use std::alloc::Global;
use std::marker::Model;
use std::sync::Arc;

impl Handle<LevelList> {
    /// Puts an item in, as the level's list does.
    fn insert(&mut self, position: Option<u32>, item: Item) -> Result<(), Fault>
        requires { IsTrue (are_labels_for self.old.attributes item.labels) }
        ensures fault { FindsFault result
            (insert_fault self.old.kind self.old.items position item) }
        ensures inserted { OnOk result (self.new ≡ with_item position item self.old) }
        ensures kept { OnErr result (self.new ≡ self.old) }
    {
        let list = Arc::make_mut(&mut self.inside)?;
        match list.insert(position, item) {
            Ok(_) => Ok(()),
            Err(fault) => Err(fault),
        }
    }

    /// Takes the item at a position out. The only refusal is want of memory, which changes nothing.
    fn remove(&mut self, position: usize) -> Result<(), Memory>
        requires { position < length self.old.items }
        ensures removed { OnOk result (self.new ≡ without_item position self.old) }
        ensures kept { OnErr result (self.new ≡ self.old) }
    {
        let list = Arc::make_mut(&mut self.inside)?;
        list.remove(position)?;
        Ok(())
    }

    /// Sets one label of the item at a position. The only refusal is want of memory, which changes nothing.
    fn set_label(&mut self, position: usize, attribute: usize, label: Text) -> Result<(), Memory>
        requires position { position < length self.old.items }
        requires attribute { attribute < self.old.attributes }
        requires label { IsTrue (is_short label) }
        ensures labelled { OnOk result
            (self.new ≡ with_changed (relabelled attribute label) position self.old) }
        ensures kept { OnErr result (self.new ≡ self.old) }
    {
        let list = Arc::make_mut(&mut self.inside)?;
        list.set_label(position, attribute, label)
    }

    /// Sets the time of the item at a position, as the level's list does.
    fn retime(&mut self, position: usize, time: Time) -> Result<(), Fault>
        requires { position < length self.old.items }
        ensures fault { FindsFault result
            (retime_fault self.old.kind self.old.items position time) }
        ensures retimed { OnOk result (self.new ≡ with_changed (retimed time) position self.old) }
        ensures kept { OnErr result (self.new ≡ self.old) }
    {
        let list = Arc::make_mut(&mut self.inside)?;
        list.retime(position, time)
    }
}

/// The levels, in the order of the configuration. A copy has the same lists; a change of a level takes a
/// copy of that level's list first where another owner has it too.
#[derive(Drop)]
pub struct SharedLevels {
    lists: Vec<Handle<LevelList>>,
}

impl Model for SharedLevels {
    ghost use Rattle.std.specs.Prelude.{List};
    ghost use Rattle.level_items.specs.Levels.{Level};

    ghost Value = { List Level };

    ghost view = { λ s. s.lists.items };
}

/// The same lists again. The only refusal is want of memory.
fn copied(alloc: Global, lists: &[Handle<LevelList>]) -> Result<Vec<Handle<LevelList>>, Memory>
    ensures { IfOk result (λ made. made.items ≡ lists.now) }
{
    let mut made = Vec::with_capacity(alloc, lists.len())?;
    for list in lists {
        made.push(list.copy(alloc)?)?;
    }
    Ok(made)
}

impl SharedLevels {
    /// No level. The list grows by `alloc`.
    pub fn new(alloc: Global) -> SharedLevels
        ensures { result ≡ [] }
    {
        SharedLevels {
            lists: Vec::new(alloc),
        }
    }

    /// Puts a level last. The only refusal is want of memory, which changes nothing.
    pub fn push(&mut self, list: Handle<LevelList>) -> Result<(), Memory>
        ensures ok { OnOk result (self.new ≡ self.old ++ list ∷ []) }
        ensures err { OnErr result (self.new ≡ self.old) }
    {
        self.lists.push(list)?;
        Ok(())
    }

    /// How many levels there are.
    pub fn len(&self) -> usize
        ensures { result ≡ length self.now }
    {
        self.lists.len()
    }

    /// The level of a number.
    pub fn get(&self, level: usize) -> &Handle<LevelList>
        requires { level < length self.now }
        ensures { slice_get self.now level ≡ Some result.now }
    {
        &self.lists[level]
    }

    /// All levels, in order.
    pub fn as_slice(&self) -> &[Handle<LevelList>]
        ensures { result.now ≡ self.now }
    {
        self.lists.as_slice()
    }

    /// Puts an item on a level, at its place. The refusals are those of the level's list, and a refusal or
    /// want of memory changes nothing.
    pub fn insert(&mut self, level: usize, position: Option<u32>, item: Item) -> Result<(), Fault>
        requires level { level < length self.old }
        requires labels { IfSome (slice_get self.old level)
            (λ l. IsTrue (are_labels_for l.attributes item.labels)) }
        ensures fault { FindsFault result (put_fault level position item self.old) }
        ensures inserted { OnOk result
            (self.new ≡ change_level (with_item position item) level self.old) }
        ensures kept { OnErr result (self.new ≡ self.old) }
    {
        self.lists[level].insert(position, item)
    }

    /// Takes the item at a position of a level out. Only want of memory refuses it, and changes nothing.
    pub fn remove(&mut self, level: usize, position: usize) -> Result<(), Memory>
        requires level { level < length self.old }
        requires position { IfSome (slice_get self.old level) (λ l. position < length l.items) }
        ensures removed { OnOk result
            (self.new ≡ change_level (without_item position) level self.old) }
        ensures kept { OnErr result (self.new ≡ self.old) }
    {
        self.lists[level].remove(position)
    }

    /// Sets one label of the item at a position of a level. The only refusal is want of memory, which changes
    /// nothing.
    pub fn set_label(
        &mut self,
        level: usize,
        position: usize,
        attribute: usize,
        label: Text,
    ) -> Result<(), Memory>
        requires level { level < length self.old }
        requires position { IfSome (slice_get self.old level) (λ l. position < length l.items) }
        requires attribute { IfSome (slice_get self.old level) (λ l. attribute < l.attributes) }
        requires label { IsTrue (is_short label) }
        ensures labelled { OnOk result (self.new
            ≡ change_level (with_changed (relabelled attribute label) position) level self.old) }
        ensures kept { OnErr result (self.new ≡ self.old) }
    {
        self.lists[level].set_label(position, attribute, label)
    }

    /// Sets the time of the item at a position of a level. The refusals are those of the level's list, and a
    /// refusal or want of memory changes nothing.
    pub fn retime(&mut self, level: usize, position: usize, time: Time) -> Result<(), Fault>
        requires level { level < length self.old }
        requires position { IfSome (slice_get self.old level) (λ l. position < length l.items) }
        ensures fault { FindsFault result (new_time_fault (level, position) time self.old) }
        ensures retimed { OnOk result
            (self.new ≡ change_level (with_changed (retimed time) position) level self.old) }
        ensures kept { OnErr result (self.new ≡ self.old) }
    {
        self.lists[level].retime(position, time)
    }

    /// The same levels again, of which each list is shared. The only refusal is want of memory.
    pub fn copy(&self, alloc: Global) -> Result<SharedLevels, Memory>
        ensures { IfOk result (λ made. made ≡ self.now) }
    {
        let lists = copied(alloc, self.lists.as_slice())?;
        Ok(SharedLevels { lists })
    }
}
