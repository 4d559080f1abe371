//! Parts of a configuration to which a level, an attribute or a link definition is added.
ghost use Rattle.std.specs.Prelude.{◌≡◌, ◌<◌, ◌≤◌, ◌++◌, ◌∷◌, [], length, IfOk, OnOk};
ghost use Rattle.emu_names.specs.declared.limits.TheConstants.{ATTRIBUTES, LEVELS};
ghost use Rattle.emu_names.specs.Inner.Gives.{GivesOrBroken};
ghost use Rattle.config_additions.specs.Added.{level_added, attribute_added, attribute_put, definition_between, definition_put, with_attribute, end_named};

use crate::names::double_of_attribute;
use db_config::{
    AttributeDef, AttributeDefs, ConfigParts, LevelDef, LevelDefs, LinkDef, double_of_level,
    has_levels, level_named,
};
use emu_names::limits::{ATTRIBUTES, LEVELS, LINK_DEFINITIONS};
use emu_names::{Broken, Fault, LinkKind, Memory, Text, What};
use std::alloc::Global;

/// The parts with a level put last, or the rule that it breaks first, or want of memory.
pub(crate) fn level_added(
    alloc: Global,
    parts: &ConfigParts,
    def: &LevelDef,
) -> Result<ConfigParts, Fault>
    ensures { GivesOrBroken result (level_added def.now parts.now) }
{
    if parts.levels.len() >= LEVELS {
        return Err(Fault::Broken(Broken::TooMany(What::Levels)));
    }
    if let Some(name) = double_of_level(alloc, parts.levels.as_slice(), def)? {
        return Err(Fault::Broken(Broken::DoubleName(name)));
    }
    let mut next = parts.copy(alloc)?;
    match push_level(alloc, &mut next.levels, def) {
        Ok(()) => Ok(next),
        Err(_memory) => {
            drop(next);
            Err(Fault::Memory)
        }
    }
}

/// Puts a copy of a level last. The only refusal is want of memory.
fn push_level(alloc: Global, levels: &mut LevelDefs, def: &LevelDef) -> Result<(), Memory>
    ensures { OnOk result (levels.new ≡ levels.old ++ def.now ∷ []) }
{
    let own = def.copy(alloc)?;
    levels.push(own)?;
    Ok(())
}

/// The parts with an attribute put last on the level of a name, or the rule that it breaks first, or want
/// of memory.
#[tactic(auto, using(crate::proofs::Steps::added_at, crate::proofs::Steps::added_nowhere))]
pub(crate) fn attribute_added(
    alloc: Global,
    parts: &ConfigParts,
    level: &Text,
    attribute: &AttributeDef,
) -> Result<ConfigParts, Fault>
    ensures { GivesOrBroken result (attribute_added level.now attribute.now parts.now) }
{
    match level_named(parts.levels.as_slice(), level.as_str()) {
        Some(number) => {
            let def = parts.levels.get(number);
            attribute_put(alloc, parts, number, def, attribute)
        }
        None => Err(Fault::Broken(Broken::NoLevel(level.copy(alloc)?))),
    }
}

/// The parts with an attribute put last on the level of a number, which has this definition, or the rule
/// that it breaks first, or want of memory.
fn attribute_put(
    alloc: Global,
    parts: &ConfigParts,
    number: usize,
    def: &LevelDef,
    attribute: &AttributeDef,
) -> Result<ConfigParts, Fault>
    requires { number < length parts.now.levels }
    ensures { GivesOrBroken result (attribute_put attribute.now parts.now (number, def.now)) }
{
    if def.attributes.len() >= ATTRIBUTES {
        return Err(Fault::Broken(Broken::TooMany(What::Attributes)));
    }
    let levels = parts.levels.as_slice();
    if let Some(name) = double_of_attribute(alloc, levels, def, attribute.name.as_str())? {
        return Err(Fault::Broken(Broken::DoubleName(name)));
    }
    let mut next = parts.copy(alloc)?;
    match with_attribute(alloc, def, attribute) {
        Ok(wider) => {
            next.levels.set(number, wider);
            Ok(next)
        }
        Err(_memory) => {
            drop(next);
            Err(Fault::Memory)
        }
    }
}

/// The level with an attribute put last. The only refusal is want of memory.
fn with_attribute(
    alloc: Global,
    def: &LevelDef,
    attribute: &AttributeDef,
) -> Result<LevelDef, Memory>
    requires { length def.now.attributes < ATTRIBUTES }
    ensures { IfOk result (λ made. made ≡ with_attribute attribute.now def.now) }
{
    let mut made = def.copy(alloc)?;
    match push_attribute(alloc, &mut made.attributes, attribute) {
        Ok(()) => Ok(made),
        Err(memory) => {
            drop(made);
            Err(memory)
        }
    }
}

/// Puts a copy of an attribute last. The only refusal is want of memory.
fn push_attribute(
    alloc: Global,
    attributes: &mut AttributeDefs,
    attribute: &AttributeDef,
) -> Result<(), Memory>
    requires { length attributes.old < ATTRIBUTES }
    ensures { OnOk result (attributes.new ≡ attributes.old ++ attribute.now ∷ []) }
{
    let own = attribute.copy(alloc)?;
    attributes.push(own)?;
    Ok(())
}

/// The parts with a link definition from the level of the one name to that of the other put last, or the
/// rule that it breaks first, but for paths that lead round, or want of memory.
#[tactic(auto, using(crate::proofs::Steps::between_gives, crate::proofs::Steps::no_upper, crate::proofs::Steps::no_lower))]
pub(crate) fn definition_between(
    alloc: Global,
    parts: &ConfigParts,
    kind: LinkKind,
    upper: &Text,
    lower: &Text,
) -> Result<ConfigParts, Fault>
    requires { length parts.now.levels ≤ LEVELS }
    ensures { GivesOrBroken result (definition_between kind upper.now lower.now parts.now) }
{
    let from = end_named(alloc, parts, upper)?;
    let to = end_named(alloc, parts, lower)?;
    let def = LinkDef {
        kind,
        upper: from,
        lower: to,
    };
    definition_put(alloc, parts, def)
}

/// The number of a level that a new link definition names, or that there is none, or want of memory.
fn end_named(alloc: Global, parts: &ConfigParts, name: &Text) -> Result<u32, Fault>
    requires { length parts.now.levels ≤ LEVELS }
    ensures { GivesOrBroken result (end_named name.now parts.now) }
{
    match level_named(parts.levels.as_slice(), name.as_str()) {
        Some(number) => Ok(number as u32),
        None => Err(Fault::Broken(Broken::UnknownLevel(name.copy(alloc)?))),
    }
}

/// The parts with a link definition put last, where there is room for it, and no other has its levels; else
/// the rule that it breaks, or want of memory.
fn definition_put(alloc: Global, parts: &ConfigParts, def: LinkDef) -> Result<ConfigParts, Fault>
    ensures { GivesOrBroken result (definition_put parts.now def) }
{
    if parts.links.len() >= LINK_DEFINITIONS {
        return Err(Fault::Broken(Broken::TooMany(What::LinkDefinitions)));
    }
    if has_levels(&def, parts.links.as_slice()) {
        return Err(Fault::Broken(Broken::DoubleLink));
    }
    let mut next = parts.copy(alloc)?;
    match next.links.push(def) {
        Ok(()) => Ok(next),
        Err(_memory) => {
            drop(next);
            Err(Fault::Memory)
        }
    }
}
