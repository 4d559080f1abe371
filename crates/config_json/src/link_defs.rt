//! Link definitions by the numbers of their levels.
ghost use Rattle.std.specs.Prelude.{◌≡◌, ◌<◌, ◌≤◌, true, IfOk, length};
ghost use Rattle.std.specs.List.{list_all};
ghost use Rattle.db_config.specs.Valid.{is_in_range};
ghost use Rattle.config_json.specs.Read.{level_of_name, placed, all_placed};
ghost use Rattle.config_json.specs.Inner.Faults.{Reads};

use crate::faults::ConfigFault;
use crate::named::NamedLink;
use db_config::{LevelDef, LinkDef, LinkDefs, level_named};
use emu_names::limits::LEVELS;
use emu_names::{Series, Text};
use std::alloc::Global;

/// The number of the level that a link definition names.
fn level_of_name(alloc: Global, levels: &[LevelDef], name: &Text) -> Result<u32, ConfigFault>
    requires { length levels.now ≤ LEVELS }
    ensures level { Reads result (level_of_name levels.now name.now) }
    ensures within { IfOk result (λ level. level < length levels.now) }
{
    match level_named(levels, name.as_str()) {
        Some(level) => Ok(level as u32),
        None => Err(ConfigFault::UnknownLevel(name.copy(alloc)?)),
    }
}

/// A link definition by the numbers of its levels.
fn placed(alloc: Global, levels: &[LevelDef], link: &NamedLink) -> Result<LinkDef, ConfigFault>
    requires { length levels.now ≤ LEVELS }
    ensures definition { Reads result (placed levels.now link.now) }
    ensures range { IfOk result (λ def. is_in_range (length levels.now) def ≡ true) }
{
    let upper = level_of_name(alloc, levels, &link.upper)?;
    let lower = level_of_name(alloc, levels, &link.lower)?;
    Ok(LinkDef {
        kind: link.kind,
        upper,
        lower,
    })
}

/// All link definitions by the numbers of their levels.
pub(crate) fn all_placed(
    alloc: Global,
    levels: &[LevelDef],
    links: &[NamedLink],
) -> Result<LinkDefs, ConfigFault>
    requires { length levels.now ≤ LEVELS }
    ensures definitions { Reads result (all_placed levels.now links.now) }
    ensures range { IfOk result (λ defs. list_all (is_in_range (length levels.now)) defs ≡ true) }
    ensures count { IfOk result (λ defs. length defs ≡ length links.now) }
{
    let mut defs = Series::new(alloc);
    for link in links {
        match placed(alloc, levels, link) {
            Ok(def) => defs.push(def)?,
            Err(fault) => return Err(fault),
        }
    }
    Ok(defs)
}
