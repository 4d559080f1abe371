//! How the items of a level list are found.
//!
//! A list of many items has a map from ids to marks. A new id is looked up in that map, and an item is
//! found by its mark: that of a segment or point is its first sample, by which the list is halved, and
//! that of an item without time its place. Where items without time are put in or taken out, those behind
//! them are a little away from their marks, and are marked anew once in a while. Few items have no map.
ghost use Rattle.std.specs.Prelude.{◌≡◌, ℕ, not, ◌&&◌, ◌||◌, nat_eq, position, IfOk, OnOk, OnErr, IsTrue};
ghost use Rattle.std.specs.Arc.{arc_value};
ghost use Rattle.level_items.specs.Levels.{are_different, ids_of};
ghost use Rattle.level_items.specs.Inner.Marked.{AreMarked, KeepsMarked, is_id_of, is_marked};

use crate::items::Item;
use crate::moves::{mark_of, place_of_mark, position_near, position_of};
use emu_names::{ItemId, LevelKind, Memory};
use std::alloc::Global;
use std::collections::HashMap;
use std::sync::Arc;

/// So many items have no map, unless one was made when there were more of them.
const FEW_ITEMS: usize = 64;

/// How far an item without time may be from its mark: one place for each item that was put in or taken out
/// before it.
const FAR_FROM_MARK: usize = 256;

/// The marks of the ids of a list, where it has many items; copies share them. Of a mark nothing is
/// promised: it tells where to look first.
#[derive(Drop)]
pub(crate) struct Marks {
    map: Option<Arc<HashMap<u32, u64>>>,
    /// How far an item may be from its mark.
    far: usize,
}

impl Marks {
    /// The marks of these items. The only refusal is want of memory.
    pub(crate) fn of(alloc: Global, items: &[Item]) -> Result<Marks, Memory>
        ensures { IfOk result (AreMarked (is_id_of items.now)) }
    {
        if items.len() <= FEW_ITEMS {
            return Ok(Marks { map: None, far: 0 });
        }
        let map = Some(map_of(alloc, items)?);
        Ok(Marks { map, far: 0 })
    }

    /// The position of the item with this id, where there is one.
    pub(crate) fn find(&self, kind: LevelKind, items: &[Item], id: ItemId) -> Option<usize>
        requires marked { AreMarked (is_id_of items.now) self.now }
        requires different { IsTrue (are_different (ids_of items.now)) }
        ensures { result ≡ position (λ i. nat_eq i.id.0 id.0) items.now }
    {
        match &self.map {
            Some(map) => {
                let mark = *map.as_ref().get(&id.0)?;
                position_near(items, place_of_mark(kind, items, mark), self.far, id)
            }
            None => position_of(items, id),
        }
    }

    /// Whether one of these items has this id.
    pub(crate) fn has(&self, items: &[Item], id: ItemId) -> bool
        requires { AreMarked (is_id_of items.now) self.now }
        ensures { result ≡ is_id_of items.now id.0 }
    {
        match &self.map {
            Some(map) => map.as_ref().get(&id.0).is_some(),
            None => position_of(items, id).is_some(),
        }
    }

    /// Makes the map of these items, where one more is too many to have none. The only refusal is want of
    /// memory, which changes nothing.
    pub(crate) fn grow(&mut self, alloc: Global, items: &[Item]) -> Result<(), Memory>
        requires { AreMarked (is_id_of items.now) self.old }
        ensures { AreMarked (is_id_of items.now) self.new }
    {
        if self.map.is_none() && items.len() >= FEW_ITEMS {
            self.map = Some(map_of(alloc, items)?);
            self.far = 0;
        }
        Ok(())
    }

    /// Marks an id, where there is a map. The only refusal is want of memory, which changes nothing.
    pub(crate) fn put(&mut self, id: ItemId, mark: u64) -> Result<(), Memory>
        ensures ok { OnOk result (KeepsMarked (λ test q. nat_eq q id.0 || test q) self.old self.new) }
        ensures err { OnErr result (KeepsMarked (λ test. test) self.old self.new) }
    {
        if let Some(map) = &mut self.map {
            Arc::make_mut(map)?.insert(id.0, mark)?;
        }
        Ok(())
    }

    /// Takes the mark of an id away. The only refusal is want of memory, which changes nothing.
    pub(crate) fn take_away(&mut self, id: ItemId) -> Result<(), Memory>
        ensures ok { OnOk result
            (KeepsMarked (λ test q. not (nat_eq q id.0) && test q) self.old self.new) }
        ensures err { OnErr result (KeepsMarked (λ test. test) self.old self.new) }
    {
        if let Some(map) = &mut self.map {
            Arc::make_mut(map)?.remove(&id.0);
        }
        Ok(())
    }

    /// Notes that the items of a level moved from a place on. Only the marks of items without time depend on
    /// their places, and they are renewed once in 256 times, so that a run of changes does not renew them at
    /// each. Where memory is wanting for that, they are renewed another time.
    pub(crate) fn note_moved(&mut self, kind: LevelKind, items: &[Item], place: usize)
        ensures { KeepsMarked (λ test. test) self.old self.new }
    {
        if kind != LevelKind::Item || place >= items.len() {
            return;
        }
        if self.far < FAR_FROM_MARK {
            self.far += 1;
            return;
        }
        if let Some(map) = &mut self.map {
            if let Ok(own) = Arc::make_mut(map) {
                renew(own, items);
                self.far = 0;
            }
        }
    }

    /// The same marks again, which shares their map. The only refusal is want of memory.
    pub(crate) fn copy(&self) -> Result<Marks, Memory>
        ensures { IfOk result (KeepsMarked (λ test. test) self.now) }
    {
        let map = match &self.map {
            Some(map) => Some(map.clone()?),
            None => None,
        };
        Ok(Marks { map, far: self.far })
    }
}

/// The map of the marks of these items, for copies to share. The only refusal is want of memory.
fn map_of(alloc: Global, items: &[Item]) -> Result<Arc<HashMap<u32, u64>>, Memory>
    ensures { IfOk result (λ map. (q : ℕ) → is_marked (arc_value map) q ≡ is_id_of items.now q) }
{
    let mut map = HashMap::with_capacity(alloc, items.len())?;
    for place in 0..items.len() {
        let item = &items[place];
        map.insert(item.id.0, mark_of(place, item.time))?;
    }
    Ok(Arc::new(alloc, map)?)
}

/// Marks the items of an ITEM level by where they stand now.
fn renew(map: &mut HashMap<u32, u64>, items: &[Item])
    ensures { (q : ℕ) → is_marked map.new q ≡ is_marked map.old q }
{
    for place in 0..items.len() {
        if let Some(mark) = map.get_mut(&items[place].id.0) {
            *mark = place as u64;
        }
    }
}
