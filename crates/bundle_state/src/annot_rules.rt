//! The rule that the levels of an annotation break first, found in the order in which they are read.
ghost use Rattle.std.specs.Prelude.{◌≡◌, ℕ, [], ◌∷◌, ◌++◌, nat_eq, nat_lt, None, OnOk};
ghost use Rattle.std.specs.List.{list_any};
ghost use Rattle.std.specs.Option.{option_copied};
ghost use Rattle.emu_names.specs.Inner.Gives.{FindsFault};
ghost use Rattle.emu_names.specs.declared.limits.TheConstants.{BUNDLE_ITEMS};
ghost use Rattle.emu_names.specs.Texts.{same_text};
ghost use Rattle.bundle_state.specs.Lookups.{level_for, has_attribute};
ghost use Rattle.bundle_state.specs.Rules.{label_names, level_names};
ghost use Rattle.bundle_state.specs.Faults.{is_rate, labels_fault, item_fault, items_fault, same_kind, known_level_fault, level_fault, levels_fault, given_ids, given_count, annot_fault};

use crate::used_ids::UsedIds;
use db_config::{AttributeDef, LevelDef};
use emu_names::limits::{BUNDLE_ITEMS, LABEL_BYTES, TOP_RATE};
use emu_names::{Broken, Fault, ItemId, LevelKind, Text, What};
use level_items::{Annot, AnnotItem, AnnotLabel, AnnotLevel, order_passes, time_passes};
use std::alloc::Global;

fn has_attribute(defs: &[AttributeDef], name: &Text) -> bool
    ensures { result ≡ has_attribute defs.now name.now }
{
    for def in defs {
        if def.name.as_str() == name.as_str() {
            return true;
        }
    }
    false
}

/// Whether a label among these has the name.
pub(crate) fn are_labelled(labels: &[AnnotLabel], name: &Text) -> bool
    ensures { result ≡ list_any (same_text name.now) (label_names labels.now) }
{
    for label in labels {
        if name.as_str() == label.name.as_str() {
            return true;
        }
    }
    false
}

/// Tests a label that stands behind those of `before`.
fn label_passes(
    alloc: Global,
    defs: &[AttributeDef],
    before: &[AnnotLabel],
    label: &AnnotLabel,
) -> Result<(), Fault>
    ensures { FindsFault result (labels_fault defs.now (label_names before.now) (label.now ∷ [])) }
{
    if !has_attribute(defs, &label.name) {
        return Err(Fault::Broken(Broken::NoAttribute(label.name.copy(alloc)?)));
    }
    if are_labelled(before, &label.name) {
        return Err(Fault::Broken(Broken::TwoLabels(label.name.copy(alloc)?)));
    }
    if label.value.as_str().len() > LABEL_BYTES {
        return Err(Fault::Broken(Broken::LabelTooLong));
    }
    Ok(())
}

/// Tests the labels of an item.
fn labels_pass(alloc: Global, defs: &[AttributeDef], labels: &[AnnotLabel]) -> Result<(), Fault>
    ensures { FindsFault result (labels_fault defs.now [] labels.now) }
{
    for place in 0..labels.len() {
        match label_passes(alloc, defs, &labels[..place], &labels[place]) {
            Ok(()) => {}
            Err(fault) => return Err(fault),
        }
    }
    Ok(())
}

/// Tests an item whose id is free, behind the item before it.
fn item_passes(
    alloc: Global,
    def: &LevelDef,
    before: Option<&AnnotItem>,
    item: &AnnotItem,
) -> Result<(), Fault>
    ensures { FindsFault result (item_fault def.now [] (option_copied before.entry) item.now) }
{
    time_passes(def.kind, item.time)?;
    labels_pass(alloc, def.attributes.as_slice(), item.labels.as_slice())?;
    match before {
        Some(before) => order_passes(def.kind, before.id, before.time, item.time),
        None => Ok(()),
    }
}

/// Tests the items of a level, and takes their ids.
fn items_pass(
    alloc: Global,
    def: &LevelDef,
    taken: &mut UsedIds,
    items: &[AnnotItem],
) -> Result<(), Fault>
    ensures fault { FindsFault result (items_fault def.now taken.old None items.now) }
    ensures taken { OnOk result
        ((q : ℕ) → list_any (nat_eq q) taken.new ≡ list_any (nat_eq q) (taken.old ++ given_ids items.now)) }
{
    let mut before: Option<&AnnotItem> = None;
    for item in items {
        if !taken.take(item.id)? {
            return Err(Fault::Broken(Broken::IdTaken(item.id)));
        }
        match item_passes(alloc, def, before, item) {
            Ok(()) => before = Some(item),
            Err(fault) => return Err(fault),
        }
    }
    Ok(())
}

fn same_kind(a: LevelKind, b: LevelKind) -> bool
    ensures { result ≡ same_kind a b }
{
    match (a, b) {
        (LevelKind::Item, LevelKind::Item) => true,
        (LevelKind::Segment, LevelKind::Segment) => true,
        (LevelKind::Event, LevelKind::Event) => true,
        _ => false,
    }
}

/// The level of the configuration that has the name.
fn level_for<'a>(defs: &'a [LevelDef], name: &Text) -> Option<&'a LevelDef>
    ensures { option_copied result ≡ level_for name.now defs.now }
{
    for def in defs {
        if def.name.as_str() == name.as_str() {
            return Some(def);
        }
    }
    None
}

/// Whether a level among these has the name.
fn are_given(levels: &[AnnotLevel], name: &Text) -> bool
    ensures { result ≡ list_any (same_text name.now) (level_names levels.now) }
{
    for level in levels {
        if name.as_str() == level.name.as_str() {
            return true;
        }
    }
    false
}

/// Tests a level that the configuration has, behind the levels of `before`.
fn known_level_passes(
    alloc: Global,
    def: &LevelDef,
    before: &[AnnotLevel],
    taken: &mut UsedIds,
    level: &AnnotLevel,
) -> Result<(), Fault>
    ensures fault { FindsFault result
        (known_level_fault def.now (level_names before.now) taken.old level.now) }
    ensures taken { OnOk result
        ((q : ℕ) → list_any (nat_eq q) taken.new ≡ list_any (nat_eq q) (taken.old ++ given_ids level.now.items)) }
{
    if are_given(before, &level.name) {
        return Err(Fault::Broken(Broken::TwoLevels(level.name.copy(alloc)?)));
    }
    if !same_kind(def.kind, level.kind) {
        return Err(Fault::Broken(Broken::LevelKind(level.name.copy(alloc)?)));
    }
    items_pass(alloc, def, taken, level.items.as_slice())
}

/// Tests a level behind the levels of `before`, and takes the ids of its items.
fn level_passes(
    alloc: Global,
    defs: &[LevelDef],
    before: &[AnnotLevel],
    taken: &mut UsedIds,
    level: &AnnotLevel,
) -> Result<(), Fault>
    ensures fault { FindsFault result (level_fault defs.now (level_names before.now) taken.old level.now) }
    ensures taken { OnOk result
        ((q : ℕ) → list_any (nat_eq q) taken.new ≡ list_any (nat_eq q) (taken.old ++ given_ids level.now.items)) }
{
    match level_for(defs, &level.name) {
        Some(def) => known_level_passes(alloc, def, before, taken, level),
        None => Err(Fault::Broken(Broken::NoLevel(level.name.copy(alloc)?))),
    }
}

/// Tests the levels of an annotation.
fn levels_pass(alloc: Global, defs: &[LevelDef], levels: &[AnnotLevel]) -> Result<(), Fault>
    ensures { FindsFault result (levels_fault defs.now [] [] levels.now) }
{
    let mut taken = UsedIds::new(alloc);
    for place in 0..levels.len() {
        level_passes(alloc, defs, &levels[..place], &mut taken, &levels[place])?;
    }
    Ok(())
}

/// Whether the levels have over 65,536 items together.
fn are_too_many(levels: &[AnnotLevel]) -> bool
    ensures { result ≡ nat_lt BUNDLE_ITEMS (given_count levels.now) }
{
    let mut room = BUNDLE_ITEMS;
    for level in levels {
        let count = level.items.len();
        if count > room {
            return true;
        }
        room -= count;
    }
    false
}

fn is_rate(rate: u64) -> bool
    ensures { result ≡ is_rate rate }
{
    1 <= rate && rate <= TOP_RATE
}

/// Tests an annotation, its links aside: passes where it breaks no rule, else names the first rule that it breaks.
pub(crate) fn annot_passes(alloc: Global, defs: &[LevelDef], annot: &Annot) -> Result<(), Fault>
    ensures { FindsFault result (annot_fault defs.now annot.now) }
{
    if !is_rate(annot.rate) {
        return Err(Fault::Broken(Broken::RateOut));
    }
    if are_too_many(annot.levels.as_slice()) {
        return Err(Fault::Broken(Broken::TooMany(What::BundleItems)));
    }
    levels_pass(alloc, defs, annot.levels.as_slice())
}
