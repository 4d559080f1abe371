//! A configuration with a level, an attribute or a link definition more.
ghost use Rattle.emu_names.specs.Inner.Gives.{GivesOrBroken};
ghost use Rattle.config_additions.specs.Added.{level_added, attribute_added, definition_added};

use crate::additions::{attribute_added, definition_between, level_added};
use db_config::{AttributeDef, Config, LevelDef, PartsFault};
use emu_names::{Broken, Fault, LinkKind, Text};
use std::alloc::Global;

/// The configuration with a level put last.
///
/// Refused are, in this order: a level over 64 (`TooMany`), and the first of the new names, the level's
/// before those of its attributes, that an earlier level or attribute has (`DoubleName`).
#[tactic(auto, using(crate::proofs::Grown::level_valid_by))]
pub fn with_level(alloc: Global, config: &Config, def: &LevelDef) -> Result<Config, Fault>
    ensures { GivesOrBroken result (level_added def.now config.now) }
{
    let parts = level_added(alloc, config.parts(), def)?;
    Ok(Config::from_valid(alloc, parts)?)
}

/// The configuration with an attribute put last on the level of a name.
///
/// Refused are, in this order: a level that is not there (`NoLevel`), an attribute over 16 (`TooMany`),
/// and a name that a level or attribute has (`DoubleName`). One attribute of a level may share its name.
#[tactic(auto, using(crate::proofs::Grown::attribute_valid_by))]
pub fn with_attribute(
    alloc: Global,
    config: &Config,
    level: &Text,
    attribute: &AttributeDef,
) -> Result<Config, Fault>
    ensures { GivesOrBroken result (attribute_added level.now attribute.now config.now) }
{
    let parts = attribute_added(alloc, config.parts(), level, attribute)?;
    Ok(Config::from_valid(alloc, parts)?)
}

/// The configuration with a link definition from the level of the one name to that of the other put
/// last.
///
/// Refused are, in this order: a level that is not there (`UnknownLevel`, of the upper level first), a
/// definition over 64 (`TooMany`), one between levels that have one (`DoubleLink`), and one with which a
/// path of definitions leads from a level to itself (`LevelCycle`).
#[tactic(auto, using(crate::proofs::Grown::between_keeps, crate::proofs::Grown::added_sound, crate::proofs::Grown::added_round, crate::proofs::Grown::added_refused))]
pub fn with_definition(
    alloc: Global,
    config: &Config,
    kind: LinkKind,
    upper: &Text,
    lower: &Text,
) -> Result<Config, Fault>
    ensures { GivesOrBroken result (definition_added kind upper.now lower.now config.now) }
{
    let parts = definition_between(alloc, config.parts(), kind, upper, lower)?;
    match Config::from_kept(alloc, parts) {
        Ok(made) => Ok(made),
        Err(PartsFault::NotValid) => Err(Fault::Broken(Broken::LevelCycle)),
        Err(PartsFault::Memory) => Err(Fault::Memory),
    }
}
