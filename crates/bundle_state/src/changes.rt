//! Changes of levels, links and places that go together: all of them, or none.
ghost use Rattle.std.specs.Prelude.{◌≡◌, ◌<◌, length, nat_eq, None, Some, IfSome, IsTrue, OnErr, OnOk, if◌then◌else◌};
ghost use Rattle.std.specs.List.{list_any, slice_get};
ghost use Rattle.emu_names.specs.Inner.Gives.{FindsFault};
ghost use Rattle.emu_names.specs.declared.limits.TheConstants.{LEVELS};
ghost use Rattle.level_items.specs.Levels.{are_labels_for};
ghost use Rattle.link_graph.specs.Link.{names_item};
ghost use Rattle.bundle_state.specs.Bundle.{level_of_id};
ghost use Rattle.bundle_state.specs.Inner.Placed.{ArePlaced};
ghost use Rattle.bundle_state.specs.Changed.{change_level, links_without, put_fault, with_item, without_item};

use crate::places::Places;
use emu_names::{Fault, ItemId, Memory};
use level_items::{Handle, Item, SharedLevels};
use link_graph::Links;
use std::sync::Arc;

/// Puts an item whose id is free on a level, and keeps its place. The refusals are those of the level's
/// list, and a refusal or want of memory changes nothing.
pub(crate) fn put_item(
    levels: &mut SharedLevels,
    places: &mut Places,
    level: usize,
    position: Option<u32>,
    item: Item,
) -> Result<(), Fault>
    requires level { level < length levels.old }
    requires number { level < LEVELS }
    requires labels { IfSome (slice_get levels.old level)
        (λ l. IsTrue (are_labels_for l.attributes item.labels)) }
    requires free { level_of_id levels.old item.id.0 ≡ None }
    requires placed { ArePlaced (level_of_id levels.old) places.old }
    ensures fault { FindsFault result (put_fault level position item levels.old) }
    ensures inserted { OnOk result
        (levels.new ≡ change_level (with_item position item) level levels.old) }
    ensures placed { OnOk result (ArePlaced
        (λ q. if nat_eq q item.id.0 then Some level else level_of_id levels.old q) places.new) }
    ensures kept { OnErr result (levels.new ≡ levels.old) }
    ensures places { OnErr result (ArePlaced (level_of_id levels.old) places.new) }
{
    let Some(map) = &mut places.map else {
        return levels.insert(level, position, item);
    };
    let id = item.id;
    let own = Arc::make_mut(map)?;
    own.insert(id.0, level as u8)?;
    match levels.insert(level, position, item) {
        Ok(()) => Ok(()),
        Err(fault) => {
            own.remove(&id.0);
            Err(fault)
        }
    }
}

/// Takes an item from its level, and forgets its place. The only refusal is want of memory, which changes nothing.
fn take_item(
    levels: &mut SharedLevels,
    places: &mut Places,
    id: ItemId,
    level: usize,
    position: usize,
) -> Result<(), Memory>
    requires level { level < length levels.old }
    requires position { IfSome (slice_get levels.old level) (λ l. position < length l.items) }
    requires placed { ArePlaced (level_of_id levels.old) places.old }
    ensures removed { OnOk result
        (levels.new ≡ change_level (without_item position) level levels.old) }
    ensures forgotten { OnOk result (ArePlaced
        (λ q. if nat_eq q id.0 then None else level_of_id levels.old q) places.new) }
    ensures kept { OnErr result (levels.new ≡ levels.old) }
    ensures places { OnErr result (ArePlaced (level_of_id levels.old) places.new) }
{
    let Some(map) = &mut places.map else {
        return levels.remove(level, position);
    };
    let own = Arc::make_mut(map)?;
    levels.remove(level, position)?;
    own.remove(&id.0);
    Ok(())
}

/// Whether a link names an item.
fn has_links(links: &Links, id: ItemId) -> bool
    ensures { result ≡ list_any (names_item id) links.now }
{
    links.parents(id).next().is_some() || links.children(id).next().is_some()
}

/// Takes an item from its level, and all links that name it; where there are none the links stay shared.
/// The only refusal is want of memory, which changes nothing.
pub(crate) fn take_out(
    levels: &mut SharedLevels,
    places: &mut Places,
    links: &mut Handle<Links>,
    id: ItemId,
    level: usize,
    position: usize,
) -> Result<(), Memory>
    requires level { level < length levels.old }
    requires position { IfSome (slice_get levels.old level) (λ l. position < length l.items) }
    requires placed { ArePlaced (level_of_id levels.old) places.old }
    ensures removed { OnOk result
        (levels.new ≡ change_level (without_item position) level levels.old) }
    ensures forgotten { OnOk result (ArePlaced
        (λ q. if nat_eq q id.0 then None else level_of_id levels.old q) places.new) }
    ensures unlinked { OnOk result (links.new ≡ links_without id links.old) }
    ensures kept { OnErr result (levels.new ≡ levels.old) }
    ensures places { OnErr result (ArePlaced (level_of_id levels.old) places.new) }
    ensures linked { OnErr result (links.new ≡ links.old) }
{
    if !has_links(links.as_ref(), id) {
        return take_item(levels, places, id, level, position);
    }
    let own = Arc::make_mut(&mut links.inside)?;
    take_item(levels, places, id, level, position)?;
    own.remove_item(id);
    Ok(())
}
