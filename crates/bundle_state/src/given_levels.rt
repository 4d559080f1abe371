//! The levels that an annotation makes, with one label for each attribute of an item.
ghost use Rattle.std.specs.Prelude.{◌≡◌, map, All, IfOk};
ghost use Rattle.emu_names.specs.Inner.Gives.{GivesOrBroken};
ghost use Rattle.level_items.specs.Levels.{KeepsLevelRule};
ghost use Rattle.bundle_state.specs.Faults.{annot_fault};
ghost use Rattle.bundle_state.specs.Linked.{unless_broken};
ghost use Rattle.bundle_state.specs.Made.{label_named, made_labels, made_item, items_named, made_level, made_levels};

use crate::annot_rules::annot_passes;
use db_config::{AttributeDef, Config, LevelDef};
use emu_names::{Fault, Memory, Text};
use level_items::{
    Annot, AnnotItem, AnnotLabel, AnnotLevel, Handle, Item, Labels, LevelList, SharedLevels,
};
use std::alloc::Global;

/// The label of an attribute, which is empty where it is not given, and else shared with the label that
/// is given. The only refusal is want of memory.
fn label_named(alloc: Global, def: &AttributeDef, labels: &[AnnotLabel]) -> Result<Text, Memory>
    ensures { IfOk result (λ label. label ≡ label_named def.now.name labels.now) }
{
    for label in labels {
        if label.name.as_str() == def.name.as_str() {
            return label.value.copy(alloc);
        }
    }
    Text::new(alloc, "")
}

/// The labels of an item, one for each attribute. The only refusal is want of memory.
fn made_labels(
    alloc: Global,
    defs: &[AttributeDef],
    labels: &[AnnotLabel],
) -> Result<Labels, Memory>
    ensures { IfOk result (λ made. made ≡ made_labels defs.now labels.now) }
{
    let mut made = Labels::with_capacity(alloc, defs.len())?;
    for def in defs {
        made.push(label_named(alloc, def, labels)?)?;
    }
    Ok(made)
}

/// The item of a bundle, with one label for each attribute: the label that is given, which is shared, or the
/// empty one. The only refusal is want of memory.
pub fn made_item(alloc: Global, defs: &[AttributeDef], item: &AnnotItem) -> Result<Item, Memory>
    ensures { IfOk result (λ made. made ≡ made_item defs.now item.now) }
{
    let labels = made_labels(alloc, defs, item.labels.as_slice())?;
    Ok(Item {
        id: item.id,
        time: item.time,
        labels,
    })
}

/// The items of a level that is given. The only refusal is want of memory.
fn made_items(
    alloc: Global,
    defs: &[AttributeDef],
    items: &[AnnotItem],
) -> Result<Vec<Item>, Memory>
    ensures { IfOk result (λ made. made.items ≡ map (made_item defs.now) items.now) }
{
    let mut made = Vec::with_capacity(alloc, items.len())?;
    for item in items {
        made.push(made_item(alloc, defs, item)?)?;
    }
    Ok(made)
}

/// The items that are given for a level of the configuration, or none.
fn items_named<'a>(levels: &'a [AnnotLevel], def: &LevelDef) -> &'a [AnnotItem]
    ensures { result.now ≡ items_named def.now.name levels.now }
{
    for level in levels {
        if level.name.as_str() == def.name.as_str() {
            return level.items.as_slice();
        }
    }
    &[]
}

/// A level of the configuration with the items that are given for it. The only refusal is want of memory.
fn made_level(
    alloc: Global,
    levels: &[AnnotLevel],
    def: &LevelDef,
) -> Result<Handle<LevelList>, Memory>
    requires { KeepsLevelRule (made_level levels.now def.now) }
    ensures { IfOk result (λ made. made ≡ made_level levels.now def.now) }
{
    let items = made_items(alloc, def.attributes.as_slice(), items_named(levels, def))?;
    let list = LevelList::from_items(alloc, def.kind, def.attributes.len(), items)?;
    Handle::new(alloc, list)
}

/// The levels of the configuration. The only refusal is want of memory.
fn made_levels(
    alloc: Global,
    defs: &[LevelDef],
    levels: &[AnnotLevel],
) -> Result<SharedLevels, Memory>
    requires { All KeepsLevelRule (made_levels defs.now levels.now) }
    ensures { IfOk result (λ made. made ≡ made_levels defs.now levels.now) }
{
    let mut made = SharedLevels::new(alloc);
    for def in defs {
        made.push(made_level(alloc, levels, def)?)?;
    }
    Ok(made)
}

/// The levels of an annotation, or the rule that it breaks first, its links aside.
pub(crate) fn levels_for(
    alloc: Global,
    config: &Config,
    annot: &Annot,
) -> Result<SharedLevels, Fault>
    ensures { GivesOrBroken result (unless_broken (annot_fault config.now.levels annot.now)
        (made_levels config.now.levels annot.now.levels)) }
{
    let defs = config.parts().levels.as_slice();
    annot_passes(alloc, defs, annot)?;
    let levels = made_levels(alloc, defs, annot.levels.as_slice())?;
    Ok(levels)
}
