//! Where the items stand that the items of a bundle link to. These places are looked up once, when a bundle is
//! indexed: whoever makes rows of dominance looks up no id.
ghost use Rattle.std.specs.Prelude.{◌≡◌, ◌<◌, length, IfOk, IsSome, OnOk, Some};
ghost use Rattle.bundle_state.specs.Bundle.{level_of_id};
ghost use Rattle.bundle_state.specs.Valid.{KeepsBundleRules};
ghost use Rattle.hier_closure.specs.Dominance.{ids_at};
ghost use Rattle.hier_closure.specs.Inner.Stands.{AddsChildren, AreStandsIn, AreStandsOf, IsCut, cut, id_at};

use crate::children::place_from;
use bundle_state::Bundle;
use emu_names::{ItemId, Memory, Series, Shared};
use std::alloc::Global;

/// Where an item stands.
#[derive(Clone, Copy)]
pub struct Stand {
    /// The number of its level.
    pub level: u32,
    /// Its position on the level, counted from 0.
    pub position: u32,
}

/// Where the items stand that the items of a level link to.
#[derive(Drop)]
pub struct LevelStands {
    /// How many places there are for the items before each item, and last how many there are in all.
    pub starts: Series<u32>,
    /// The places, item by item.
    pub stands: Series<Stand>,
}

/// Where the items stand that the items of each level of a bundle link to. Copies share the lists.
pub type BundleStands = Shared<Series<LevelStands>>;

impl LevelStands {
    /// Where the items stand that the item at a position links to.
    pub(crate) fn of_item(&self, position: usize) -> &[Stand]
        requires { IsCut self.now position }
        ensures { result.now ≡ cut self.now position }
    {
        let _count = self.starts.len();
        let from = *self.starts.get(position) as usize;
        let to = *self.starts.get(position + 1) as usize;
        let (_, rest) = self.stands.as_slice().split_at(from);
        let (own, _) = rest.split_at(to - from);
        own
    }
}

/// The number in 32 bits. The only refusal is want of memory, of which more would be in use.
fn narrowed(number: usize) -> Result<u32, Memory>
    ensures { IfOk result (λ short. short ≡ number) }
{
    match u32::try_from(number) {
        Ok(short) => Ok(short),
        Err(_) => Err(Memory),
    }
}

/// Where the next item is looked for first: behind the last one.
fn near_of(stands: &[Stand]) -> (usize, usize) {
    match stands.last() {
        Some(stand) => (stand.level as usize, stand.position as usize + 1),
        None => (0, 0),
    }
}

/// Where an item of the bundle stands, which is looked for at a place first. The only refusal is want of memory.
fn stand_of(bundle: &Bundle, near: (usize, usize), id: ItemId) -> Result<Stand, Memory>
    requires rules { KeepsBundleRules bundle.now }
    requires there { IsSome (level_of_id bundle.now.levels id.0) }
    ensures { IfOk result (λ stand. id_at bundle.now stand ≡ Some id.0) }
{
    let Some((level, position)) = place_from(bundle, near, id) else {
        return Err(Memory);
    };
    let on = narrowed(level)?;
    let at = narrowed(position)?;
    Ok(Stand {
        level: on,
        position: at,
    })
}

/// Puts the places of the items that an item links to last. The only refusal is want of memory.
fn put_children(stands: &mut Series<Stand>, bundle: &Bundle, item: ItemId) -> Result<(), Memory>
    requires { KeepsBundleRules bundle.now }
    ensures { OnOk result (AddsChildren bundle.now item.0 stands.old stands.new) }
{
    for child in bundle.links().children(item) {
        let near = near_of(stands.as_slice());
        let stand = stand_of(bundle, near, child)?;
        stands.push(stand)?;
    }
    Ok(())
}

/// Where the items stand that the items of a level link to. The only refusal is want of memory.
fn level_stands(alloc: Global, bundle: &Bundle, level: usize) -> Result<LevelStands, Memory>
    requires rules { KeepsBundleRules bundle.now }
    requires level { level < length bundle.now.levels }
    ensures { IfOk result (λ made. AreStandsOf bundle.now (ids_at bundle.now.levels level) made) }
{
    let items = bundle.level(level).as_slice();
    let mut starts = Series::new(alloc);
    let mut stands = Series::new(alloc);
    starts.push(0)?;
    for item in items {
        put_children(&mut stands, bundle, item.id)?;
        let short = narrowed(stands.len())?;
        starts.push(short)?;
    }
    Ok(LevelStands { starts, stands })
}

/// Where the items stand that the items of each level of a bundle link to. The only refusal is want of memory.
pub fn stands_in(alloc: Global, bundle: &Bundle) -> Result<BundleStands, Memory>
    ensures { IfOk result (λ all. AreStandsIn bundle.now all) }
{
    let _items = bundle.item_count();
    let mut all = Series::new(alloc);
    for level in 0..bundle.level_count() {
        let one = level_stands(alloc, bundle, level)?;
        all.push(one)?;
    }
    Shared::new(alloc, all)
}
