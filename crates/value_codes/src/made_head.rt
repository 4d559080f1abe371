//! A configuration that was read, if its names are names and its lists are short enough.
ghost use Rattle.std.specs.Prelude.{◌≡◌, ◌≤◌, ◌+◌, ◌++◌, length, true, IfOk};
ghost use Rattle.std.specs.List.{list_all};
ghost use Rattle.db_config.specs.Made.{are_attributes, are_few_texts, are_groups, are_levels, is_attribute, is_group, is_legal_list, is_level, is_made};
ghost use Rattle.db_config.specs.Valid.{is_config};
ghost use Rattle.value_codes.specs.Inner.Names.{if_so};

use crate::raw_head::{RawAttribute, RawGroup, RawLevel, RawParts, RawTexts};
use crate::raw_key::name_in;
use db_config::{
    AttributeDef, AttributeDefs, Config, ConfigParts, GroupDef, GroupDefs, GroupValues, LevelDef,
    LevelDefs, PartsFault,
};
use emu_names::limits::{ATTRIBUTES, LABEL_GROUPS, LIST_TEXTS};
use emu_names::{Memory, PlainData, Series, Text};
use std::alloc::Global;

/// The texts, if they are few enough. The only refusal is want of memory.
fn texts_in(alloc: Global, raw: &[Text]) -> Result<Option<GroupValues>, Memory>
    ensures { IfOk result (λ made. made ≡ if_so are_few_texts raw.now) }
{
    if raw.len() > LIST_TEXTS {
        return Ok(None);
    }
    let mut values = GroupValues::new(alloc);
    for text in raw {
        values.push(text.copy(alloc)?)?;
    }
    Ok(Some(values))
}

/// The legal labels, if they are few enough where there are some. The only refusal is want of memory.
fn legal_in(alloc: Global, raw: &Option<RawTexts>) -> Result<Option<Option<GroupValues>>, Memory>
    ensures { IfOk result (λ made. made ≡ if_so is_legal_list raw.now) }
{
    match raw {
        None => Ok(Some(None)),
        Some(texts) => match texts_in(alloc, texts.as_slice())? {
            Some(values) => Ok(Some(Some(values))),
            None => Ok(None),
        },
    }
}

/// The label group, if it has few enough values. The only refusal is want of memory.
fn group_in(alloc: Global, raw: &RawGroup) -> Result<Option<GroupDef>, Memory>
    ensures { IfOk result (λ made. made ≡ if_so is_group raw.now) }
{
    match texts_in(alloc, raw.values.as_slice())? {
        Some(values) => {
            let name = raw.name.copy(alloc)?;
            Ok(Some(GroupDef { name, values }))
        }
        None => Ok(None),
    }
}

/// The label groups, if they are few enough and each of them is one. The only refusal is want of memory.
fn groups_in(alloc: Global, raw: &[RawGroup]) -> Result<Option<GroupDefs>, Memory>
    ensures { IfOk result (λ made. made ≡ if_so are_groups raw.now) }
{
    if raw.len() > LABEL_GROUPS {
        return Ok(None);
    }
    let mut groups = GroupDefs::new(alloc);
    for part in raw {
        match group_in(alloc, part)? {
            Some(group) => groups.push(group)?,
            None => return Ok(None),
        }
    }
    Ok(Some(groups))
}

/// The attribute, if it is one. The only refusal is want of memory.
pub fn attribute_in(alloc: Global, raw: &RawAttribute) -> Result<Option<AttributeDef>, Memory>
    ensures { IfOk result (λ made. made ≡ if_so is_attribute raw.now) }
{
    let Some(name) = name_in(alloc, &raw.name)? else {
        return Ok(None);
    };
    let Some(legal) = legal_in(alloc, &raw.legal)? else {
        return Ok(None);
    };
    match groups_in(alloc, raw.groups.as_slice())? {
        Some(groups) => Ok(Some(AttributeDef {
            name,
            legal,
            groups,
        })),
        None => Ok(None),
    }
}

/// Puts attributes last as long as each of them is one, and says whether all are. The only refusal is want of memory.
fn push_attributes(
    alloc: Global,
    defs: &mut AttributeDefs,
    raw: &[RawAttribute],
) -> Result<bool, Memory>
    requires { length defs.old + length raw.now ≤ ATTRIBUTES }
    ensures all { IfOk result (λ all. all ≡ list_all is_attribute raw.now) }
    ensures pushed { result ≡ Ok true → defs.new ≡ defs.old ++ raw.now }
{
    for part in raw {
        match attribute_in(alloc, part)? {
            Some(def) => defs.push(def)?,
            None => return Ok(false),
        }
    }
    Ok(true)
}

/// The attributes, if there are some, few enough, and each of them is one. The only refusal is want of memory.
fn attributes_in(alloc: Global, raw: &[RawAttribute]) -> Result<Option<AttributeDefs>, Memory>
    ensures { IfOk result (λ made. made ≡ if_so are_attributes raw.now) }
{
    let [first, more @ ..] = raw else {
        return Ok(None);
    };
    if raw.len() > ATTRIBUTES {
        return Ok(None);
    }
    let Some(first) = attribute_in(alloc, first)? else {
        return Ok(None);
    };
    let mut defs = AttributeDefs::one(alloc, first)?;
    if push_attributes(alloc, &mut defs, more)? {
        return Ok(Some(defs));
    }
    Ok(None)
}

/// The level, if it is one. The only refusal is want of memory.
pub fn level_in(alloc: Global, raw: &RawLevel) -> Result<Option<LevelDef>, Memory>
    ensures { IfOk result (λ made. made ≡ if_so is_level raw.now) }
{
    let Some(name) = name_in(alloc, &raw.name)? else {
        return Ok(None);
    };
    match attributes_in(alloc, raw.attributes.as_slice())? {
        Some(attributes) => Ok(Some(LevelDef {
            name,
            kind: raw.kind,
            attributes,
        })),
        None => Ok(None),
    }
}

/// The levels, if each of them is one. The only refusal is want of memory.
fn levels_in(alloc: Global, raw: &[RawLevel]) -> Result<Option<LevelDefs>, Memory>
    ensures { IfOk result (λ made. made ≡ if_so are_levels raw.now) }
{
    let mut levels = Series::new(alloc);
    for part in raw {
        match level_in(alloc, part)? {
            Some(level) => levels.push(level)?,
            None => return Ok(None),
        }
    }
    Ok(Some(levels))
}

/// The parts, if their names are names and their lists short enough. The only refusal is want of memory.
fn parts_in(alloc: Global, raw: &RawParts) -> Result<Option<ConfigParts>, Memory>
    ensures { IfOk result (λ made. made ≡ if_so is_made raw.now) }
{
    let Some(name) = name_in(alloc, &raw.name)? else {
        return Ok(None);
    };
    let Some(levels) = levels_in(alloc, raw.levels.as_slice())? else {
        return Ok(None);
    };
    let Some(groups) = groups_in(alloc, raw.groups.as_slice())? else {
        return Ok(None);
    };
    Ok(Some(ConfigParts {
        name,
        uuid: raw.uuid.copy(alloc)?,
        extension: raw.extension.copy(alloc)?,
        tracks: raw.tracks.copy(alloc)?,
        levels,
        groups,
        links: raw.links.copy(alloc)?,
    }))
}

/// The configuration, if the parts are one. The only refusal is want of memory.
pub fn config_in(alloc: Global, raw: &RawParts) -> Result<Option<Config>, Memory>
    ensures { IfOk result (λ made. made ≡ if_so is_config raw.now) }
{
    let Some(parts) = parts_in(alloc, raw)? else {
        return Ok(None);
    };
    match Config::new(alloc, parts) {
        Ok(config) => Ok(Some(config)),
        Err(PartsFault::NotValid) => Ok(None),
        Err(PartsFault::Memory) => Err(Memory),
    }
}
