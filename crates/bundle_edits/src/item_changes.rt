//! Edits of one item or link of a bundle.
ghost use Rattle.std.specs.Prelude.{◌≡◌, ◌<◌, length, IfOk, IfSome, IsTrue, Some};
ghost use Rattle.std.specs.List.{slice_get};
ghost use Rattle.emu_names.specs.Inner.Gives.{GivesOrBroken, FindsFault};
ghost use Rattle.emu_names.specs.declared.limits.TheConstants.{BUNDLE_ITEMS};
ghost use Rattle.level_items.specs.Levels.{are_labels_for, is_short};
ghost use Rattle.bundle_state.specs.Bundle.{item_count};
ghost use Rattle.bundle_state.specs.Built.{FitsConfig};
ghost use Rattle.bundle_state.specs.Changed.{item_added, item_removed, item_retimed, label_set, link_added, link_inserted, link_removed};
ghost use Rattle.bundle_state.specs.Inner.Changed.{attributes_with};
ghost use Rattle.bundle_state.specs.Made.{made_item};
ghost use Rattle.bundle_edits.specs.Changes.{room_fault, id_fault, given_item_fault, put_on, item_put, labelled, label_given};

use crate::bundle_change::Counts;
use crate::names::{no_attribute, no_level};
use bundle_state::{Bundle, label_passed, made_item, new_labels_pass};
use db_config::{AttributeDef, Config, LevelDef};
use emu_names::limits::{ALL_ITEMS, BUNDLE_ITEMS};
use emu_names::{Broken, Fault, ItemId, Text, What};
use level_items::{AnnotItem, Item, Time, time_passes};
use std::alloc::Global;

/// Tests whether there is room for one item more, in the bundle and in the whole database.
pub(crate) fn room_passes(counts: Counts, bundle: &Bundle) -> Result<(), Fault>
    ensures { FindsFault result (room_fault counts bundle.now.levels) }
{
    if bundle.item_count() >= BUNDLE_ITEMS {
        return Err(Fault::Broken(Broken::TooMany(What::BundleItems)));
    }
    if counts.items as usize >= ALL_ITEMS {
        return Err(Fault::Broken(Broken::TooMany(What::AllItems)));
    }
    Ok(())
}

/// Tests whether no item of the bundle has this id.
pub(crate) fn id_passes(bundle: &Bundle, id: ItemId) -> Result<(), Fault>
    ensures { FindsFault result (id_fault id bundle.now.levels) }
{
    match bundle.place(id) {
        Some(_) => Err(Fault::Broken(Broken::IdTaken(id))),
        None => Ok(()),
    }
}

/// Tests a new item of a level, its position and its neighbours aside.
fn given_item_passes(
    alloc: Global,
    counts: Counts,
    bundle: &Bundle,
    def: &LevelDef,
    item: &AnnotItem,
    is_tested: bool,
) -> Result<(), Fault>
    ensures { FindsFault result
        (given_item_fault is_tested counts bundle.now.levels def.now item.now) }
{
    room_passes(counts, bundle)?;
    id_passes(bundle, item.id)?;
    time_passes(def.kind, item.time)?;
    new_labels_pass(
        alloc,
        def.attributes.as_slice(),
        item.labels.as_slice(),
        is_tested,
    )
}

/// A new item as a level of this definition has it, its position and its neighbours aside.
fn item_passed(
    alloc: Global,
    counts: Counts,
    bundle: &Bundle,
    def: &LevelDef,
    item: &AnnotItem,
    is_tested: bool,
) -> Result<Item, Fault>
    ensures passed { FindsFault result
        (given_item_fault is_tested counts bundle.now.levels def.now item.now) }
    ensures made { IfOk result (λ made. made ≡ made_item def.now.attributes item.now) }
{
    given_item_passes(alloc, counts, bundle, def, item, is_tested)?;
    let made = made_item(alloc, def.attributes.as_slice(), item)?;
    Ok(made)
}

/// This bundle with an item put on the level of a number.
pub(crate) fn with_item(
    config: &Config,
    mut next: Bundle,
    number: usize,
    position: Option<u32>,
    item: Item,
) -> Result<Bundle, Fault>
    requires fits { FitsConfig config.now next }
    requires level { number < length next.levels }
    requires labels { IfSome (slice_get next.levels number)
        (λ l. IsTrue (are_labels_for l.attributes item.labels)) }
    requires room { item_count next.levels < BUNDLE_ITEMS }
    ensures { GivesOrBroken result (item_added number position item next) }
{
    match next.add_item(config, number, position, item) {
        Ok(()) => Ok(next),
        Err(fault) => {
            drop(next);
            Err(fault)
        }
    }
}

/// The bundle with a new item on the level of this number, which has this definition.
fn put_on(
    alloc: Global,
    config: &Config,
    counts: Counts,
    bundle: Bundle,
    number: usize,
    def: &LevelDef,
    position: Option<u32>,
    item: &AnnotItem,
    is_tested: bool,
) -> Result<Bundle, Fault>
    requires fits { FitsConfig config.now bundle }
    requires level { slice_get config.now.levels number ≡ Some def.now }
    ensures { GivesOrBroken result
        (put_on is_tested counts position item.now bundle (number, def.now)) }
{
    match item_passed(alloc, counts, &bundle, def, item, is_tested) {
        Ok(made) => with_item(config, bundle, number, position, made),
        Err(fault) => {
            drop(bundle);
            Err(fault)
        }
    }
}

/// The bundle with a new item on the level of this name. Whether its labels are legal counts where
/// `is_tested` is true.
pub(crate) fn put_item(
    alloc: Global,
    config: &Config,
    counts: Counts,
    bundle: Bundle,
    level: &Text,
    position: Option<u32>,
    item: &AnnotItem,
    is_tested: bool,
) -> Result<Bundle, Fault>
    requires { FitsConfig config.now bundle }
    ensures { GivesOrBroken result
        (item_put is_tested config.now counts level.now position item.now bundle) }
{
    match config.level_named(level.as_str()) {
        Some(number) => {
            let def = config.parts().levels.get(number);
            put_on(
                alloc, config, counts, bundle, number, def, position, item, is_tested,
            )
        }
        None => {
            drop(bundle);
            Err(no_level(alloc, level))
        }
    }
}

/// The bundle without an item, and without the links that name it.
pub(crate) fn take_item(mut next: Bundle, id: ItemId) -> Result<Bundle, Fault>
    ensures { GivesOrBroken result (item_removed id next) }
{
    match next.remove_item(id) {
        Ok(()) => Ok(next),
        Err(fault) => {
            drop(next);
            Err(fault)
        }
    }
}

/// This bundle with another label of an item, for the attribute of this number on its level.
fn with_label(mut next: Bundle, id: ItemId, number: usize, label: Text) -> Result<Bundle, Fault>
    requires attribute { IfSome (attributes_with id.0 next.levels) (λ count. number < count) }
    requires label { IsTrue (is_short label) }
    ensures { GivesOrBroken result (label_set id number label next) }
{
    match next.set_label(id, number, label) {
        Ok(()) => Ok(next),
        Err(fault) => {
            drop(next);
            Err(fault)
        }
    }
}

/// The bundle with another label of an item, for the attribute of this number on its level, which has
/// this definition.
fn label_item(
    alloc: Global,
    bundle: Bundle,
    id: ItemId,
    number: usize,
    def: &AttributeDef,
    label: &Text,
    is_tested: bool,
) -> Result<Bundle, Fault>
    requires { IfSome (attributes_with id.0 bundle.levels) (λ count. number < count) }
    ensures { GivesOrBroken result (labelled is_tested id label.now bundle (number, def.now)) }
{
    match label_passed(alloc, def, label, is_tested) {
        Ok(own) => with_label(bundle, id, number, own),
        Err(fault) => {
            drop(bundle);
            Err(fault)
        }
    }
}

/// The bundle with another label of an item for the attribute of a name. Whether it is legal counts where
/// `is_tested` is true.
pub(crate) fn give_label(
    alloc: Global,
    config: &Config,
    bundle: Bundle,
    id: ItemId,
    attribute: &Text,
    label: &Text,
    is_tested: bool,
) -> Result<Bundle, Fault>
    requires { FitsConfig config.now bundle }
    ensures { GivesOrBroken result
        (label_given is_tested config.now id attribute.now label.now bundle) }
{
    let Some((level, _position)) = bundle.place(id) else {
        drop(bundle);
        return Err(Fault::Broken(Broken::NoItem(id)));
    };
    let def = config.parts().levels.get(level);
    match config.attribute_in(level, attribute.as_str()) {
        Some(number) => {
            let own = def.attributes.get(number);
            label_item(alloc, bundle, id, number, own, label, is_tested)
        }
        None => {
            drop(bundle);
            Err(no_attribute(alloc, attribute))
        }
    }
}

/// This bundle with another time of an item, which keeps its place.
pub(crate) fn with_time(mut next: Bundle, id: ItemId, time: Time) -> Result<Bundle, Fault>
    ensures { GivesOrBroken result (item_retimed id time next) }
{
    match next.retime(id, time) {
        Ok(()) => Ok(next),
        Err(fault) => {
            drop(next);
            Err(fault)
        }
    }
}

/// The bundle with a link more, put last.
pub(crate) fn link(
    config: &Config,
    mut next: Bundle,
    from: ItemId,
    to: ItemId,
) -> Result<Bundle, Fault>
    requires { FitsConfig config.now next }
    ensures { GivesOrBroken result (link_added from to next) }
{
    match next.add_link(config, from, to) {
        Ok(()) => Ok(next),
        Err(fault) => {
            drop(next);
            Err(fault)
        }
    }
}

/// The bundle with a link more, put at a place.
pub(crate) fn link_at(
    config: &Config,
    mut next: Bundle,
    place: u32,
    from: ItemId,
    to: ItemId,
) -> Result<Bundle, Fault>
    requires { FitsConfig config.now next }
    ensures { GivesOrBroken result (link_inserted place from to next) }
{
    match next.add_link_at(config, place, from, to) {
        Ok(()) => Ok(next),
        Err(fault) => {
            drop(next);
            Err(fault)
        }
    }
}

/// The bundle without a link.
pub(crate) fn unlink(mut next: Bundle, from: ItemId, to: ItemId) -> Result<Bundle, Fault>
    ensures { GivesOrBroken result (link_removed from to next) }
{
    match next.remove_link(from, to) {
        Ok(()) => Ok(next),
        Err(fault) => {
            drop(next);
            Err(fault)
        }
    }
}
