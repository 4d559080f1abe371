//! For each id of a bundle the level of its item.
//!
//! A bundle that is built of many items has a map from ids to levels. In another one the levels are asked
//! in turn.
ghost use Rattle.std.specs.Prelude.{◌≡◌, ◌<◌, ◌≤◌, ℕ, length, nat_eq, IfOk, OnOk, OnErr, Option, Some, None, if◌then◌else◌};
ghost use Rattle.std.specs.Arc.{arc_value};
ghost use Rattle.std.specs.Option.{option_or};
ghost use Rattle.std.specs.List.{list_any};
ghost use Rattle.emu_names.specs.declared.limits.TheConstants.{LEVELS};
ghost use Rattle.level_items.specs.Levels.{ids_of};
ghost use Rattle.bundle_state.specs.Bundle.{level_of_id};
ghost use Rattle.bundle_state.specs.Inner.Placed.{ArePlaced, level_in};

use emu_names::{ItemId, Memory};
use level_items::{Handle, Item, LevelList};
use std::alloc::Global;
use std::collections::HashMap;
use std::sync::Arc;

/// A bundle that is built of so many items has no map.
const FEW_ITEMS: usize = 128;

/// The number of the level of each id, where the bundle was built of many items; copies share them. A
/// number fits a byte, since there are at most 64 levels.
#[derive(Drop)]
pub(crate) struct Places {
    pub(crate) map: Option<Arc<HashMap<u32, u8>>>,
}

impl Places {
    /// The places of the items of these levels. The only refusal is want of memory.
    pub(crate) fn of(alloc: Global, levels: &[Handle<LevelList>]) -> Result<Places, Memory>
        requires { length levels.now ≤ LEVELS }
        ensures { IfOk result (ArePlaced (level_of_id levels.now)) }
    {
        let count = count_of(levels);
        if count <= FEW_ITEMS {
            return Ok(Places { map: None });
        }
        let map = Some(map_of(alloc, levels, count)?);
        Ok(Places { map })
    }

    /// The number of the level of the item with this id, where these are the levels.
    pub(crate) fn level_of(&self, levels: &[Handle<LevelList>], id: ItemId) -> Option<usize>
        requires { ArePlaced (level_of_id levels.now) self.now }
        ensures { result ≡ level_of_id levels.now id.0 }
    {
        match &self.map {
            Some(map) => {
                let level = map.as_ref().get(&id.0)?;
                Some(usize::from(*level))
            }
            None => level_with(levels, id),
        }
    }

    /// The same places again, which shares the map. The only refusal is want of memory.
    pub(crate) fn copy(&self) -> Result<Places, Memory>
        ensures { IfOk result (λ made. (level : ℕ → Option ℕ) → ArePlaced level self.now → ArePlaced level made) }
    {
        let map = match &self.map {
            Some(map) => Some(map.clone()?),
            None => None,
        };
        Ok(Places { map })
    }
}

/// The number of the level of the item with this id, which each level is asked for.
fn level_with(levels: &[Handle<LevelList>], id: ItemId) -> Option<usize>
    ensures { result ≡ level_of_id levels.now id.0 }
{
    for level in 0..levels.len() {
        if levels[level].as_ref().find(id).is_some() {
            return Some(level);
        }
    }
    None
}

/// How many items there are on these levels; of it nothing is promised.
fn count_of(levels: &[Handle<LevelList>]) -> usize {
    let mut count: usize = 0;
    for list in levels {
        count = count.saturating_add(list.as_ref().len());
    }
    count
}

/// The map of the items of these levels, with room for so many. The only refusal is want of memory.
fn map_of(
    alloc: Global,
    levels: &[Handle<LevelList>],
    count: usize,
) -> Result<Arc<HashMap<u32, u8>>, Memory>
    requires { length levels.now ≤ LEVELS }
    ensures { IfOk result (λ map. (q : ℕ) → level_in (arc_value map) q ≡ level_of_id levels.now q) }
{
    let mut map = HashMap::with_capacity(alloc, count)?;
    for level in 0..levels.len() {
        put_all(&mut map, levels[level].as_ref().as_slice(), level)?;
    }
    Ok(Arc::new(alloc, map)?)
}

/// Keeps the level of all ids of these items. The only refusal is want of memory.
fn put_all(map: &mut HashMap<u32, u8>, items: &[Item], level: usize) -> Result<(), Memory>
    requires { level < LEVELS }
    ensures { OnOk result ((q : ℕ) → level_in map.new q
        ≡ option_or (level_in map.old q)
        (if list_any (nat_eq q) (ids_of items.now) then Some level else None)) }
{
    for item in items {
        map.entry(item.id.0)?.or_insert(level as u8);
    }
    Ok(())
}
