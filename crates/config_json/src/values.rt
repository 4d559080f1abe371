//! The parts of a configuration as JSON values.
ghost use Rattle.std.specs.Prelude.{◌≡◌, ◌<◌, IfOk, OnOk, length, map, true};
ghost use Rattle.std.specs.List.{list_all};
ghost use Rattle.serde_json.specs.View.{view, members_view};
ghost use Rattle.db_config.specs.Valid.{is_in_range};
ghost use Rattle.config_json.specs.Texts.{attribute_data, group_data, groups_data, level_data, level_word, link_data, link_word, list_data, name_of, texts_data, track_data};
ghost use Rattle.config_json.specs.Inner.Texts.{with_legal};

use db_config::{AttributeDef, GroupDef, GroupValues, LevelDef, LinkDef};
use emu_names::{LevelKind, LinkKind, Memory, Text};
use serde_json::{Map, Value, json};
use std::alloc::Global;

// The word of a level's type.
fn level_word(kind: LevelKind) -> &'static str
    ensures { result.now ≡ level_word kind }
{
    match kind {
        LevelKind::Item => "ITEM",
        LevelKind::Segment => "SEGMENT",
        LevelKind::Event => "EVENT",
    }
}

// The word of a link definition's type.
fn link_word(kind: LinkKind) -> &'static str
    ensures { result.now ≡ link_word kind }
{
    match kind {
        LinkKind::OneToOne => "ONE_TO_ONE",
        LinkKind::OneToMany => "ONE_TO_MANY",
        LinkKind::ManyToMany => "MANY_TO_MANY",
    }
}

// A list of texts.
#[tactic(auto, using(crate::proofs::Shown::texts_more, crate::proofs::Shown::texts_shown))]
fn texts_value(alloc: Global, texts: &[Text]) -> Result<Value, Memory>
    ensures { IfOk result (λ v. view v ≡ texts_data texts.now) }
{
    let mut values = Vec::new(alloc);
    for text in texts {
        let value = json!(in alloc; text.as_str())?;
        values.push(value)?;
    }
    Ok(Value::from(values))
}

// A label group.
fn group_value(alloc: Global, group: &GroupDef) -> Result<Value, Memory>
    ensures { IfOk result (λ v. view v ≡ group_data group.now) }
{
    let texts = texts_value(alloc, group.values.as_slice())?;
    let name = json!(in alloc; group.name.as_str())?;
    let mut members = Map::new(alloc);
    serde_json::put(&mut members, alloc, "name", name)?;
    serde_json::put(&mut members, alloc, "values", texts)?;
    Ok(Value::from(members))
}

/// Label groups.
#[tactic(auto, using(crate::proofs::Shown::groups_more, crate::proofs::Shown::groups_shown))]
pub(crate) fn groups_value(alloc: Global, groups: &[GroupDef]) -> Result<Value, Memory>
    ensures { IfOk result (λ v. view v ≡ groups_data groups.now) }
{
    let mut values = Vec::new(alloc);
    for group in groups {
        let value = group_value(alloc, group)?;
        values.push(value)?;
    }
    Ok(Value::from(values))
}

// Puts the legal labels among the members, where they are given.
fn put_legal(
    members: &mut Map<String, Value>,
    alloc: Global,
    legal: &Option<GroupValues>,
) -> Result<(), Memory>
    ensures { OnOk result (members_view members.new.entries
        ≡ with_legal legal.now (members_view members.old.entries)) }
{
    match legal {
        None => Ok(()),
        Some(labels) => {
            let value = texts_value(alloc, labels.as_slice())?;
            serde_json::put(members, alloc, "legalLabels", value)?;
            Ok(())
        }
    }
}

// An attribute.
#[tactic(auto, using(crate::proofs::Shown::legal_put))]
fn attribute_value(alloc: Global, def: &AttributeDef) -> Result<Value, Memory>
    ensures { IfOk result (λ v. view v ≡ attribute_data def.now) }
{
    let groups = groups_value(alloc, def.groups.as_slice())?;
    let name = json!(in alloc; def.name.as_str())?;
    let word = json!(in alloc; "STRING")?;
    let mut members = Map::new(alloc);
    serde_json::put(&mut members, alloc, "labelGroups", groups)?;
    put_legal(&mut members, alloc, &def.legal)?;
    serde_json::put(&mut members, alloc, "name", name)?;
    serde_json::put(&mut members, alloc, "type", word)?;
    Ok(Value::from(members))
}

// The attributes of a level.
#[tactic(auto, using(crate::proofs::Shown::attributes_more, crate::proofs::Shown::attributes_shown))]
fn attributes_value(alloc: Global, defs: &[AttributeDef]) -> Result<Value, Memory>
    ensures { IfOk result (λ v. view v ≡ list_data (map attribute_data defs.now)) }
{
    let mut values = Vec::new(alloc);
    for def in defs {
        let value = attribute_value(alloc, def)?;
        values.push(value)?;
    }
    Ok(Value::from(values))
}

// A level.
fn level_value(alloc: Global, def: &LevelDef) -> Result<Value, Memory>
    ensures { IfOk result (λ v. view v ≡ level_data def.now) }
{
    let attributes = attributes_value(alloc, def.attributes.as_slice())?;
    let name = json!(in alloc; def.name.as_str())?;
    let word = json!(in alloc; level_word(def.kind))?;
    let mut members = Map::new(alloc);
    serde_json::put(&mut members, alloc, "attributeDefinitions", attributes)?;
    serde_json::put(&mut members, alloc, "name", name)?;
    serde_json::put(&mut members, alloc, "type", word)?;
    Ok(Value::from(members))
}

/// The levels, in order.
#[tactic(auto, using(crate::proofs::Shown::levels_more, crate::proofs::Shown::levels_shown))]
pub(crate) fn levels_value(alloc: Global, defs: &[LevelDef]) -> Result<Value, Memory>
    ensures { IfOk result (λ v. view v ≡ list_data (map level_data defs.now)) }
{
    let mut values = Vec::new(alloc);
    for def in defs {
        let value = level_value(alloc, def)?;
        values.push(value)?;
    }
    Ok(Value::from(values))
}

// The name of the level of a number.
fn name_of<'a>(levels: &'a [LevelDef], number: u32) -> &'a str
    requires { number < length levels.now }
    ensures { result.now ≡ name_of levels.now number }
{
    levels[number as usize].name.as_str()
}

// A link definition, by the names of its levels.
fn link_value(alloc: Global, levels: &[LevelDef], def: &LinkDef) -> Result<Value, Memory>
    requires upper { def.now.upper < length levels.now }
    requires lower { def.now.lower < length levels.now }
    ensures { IfOk result (λ v. view v ≡ link_data levels.now def.now) }
{
    let lower = json!(in alloc; name_of(levels, def.lower))?;
    let upper = json!(in alloc; name_of(levels, def.upper))?;
    let word = json!(in alloc; link_word(def.kind))?;
    let mut members = Map::new(alloc);
    serde_json::put(&mut members, alloc, "sublevelName", lower)?;
    serde_json::put(&mut members, alloc, "superlevelName", upper)?;
    serde_json::put(&mut members, alloc, "type", word)?;
    Ok(Value::from(members))
}

/// The link definitions, in order.
#[tactic(auto, using(crate::proofs::Shown::links_more, crate::proofs::Shown::links_shown))]
pub(crate) fn links_value(
    alloc: Global,
    levels: &[LevelDef],
    defs: &[LinkDef],
) -> Result<Value, Memory>
    requires { list_all (is_in_range (length levels.now)) defs.now ≡ true }
    ensures { IfOk result (λ v. view v ≡ list_data (map (link_data levels.now) defs.now)) }
{
    let mut values = Vec::new(alloc);
    for def in defs {
        let value = link_value(alloc, levels, def)?;
        values.push(value)?;
    }
    Ok(Value::from(values))
}

// A track, by its name.
fn track_value(alloc: Global, name: &Text) -> Result<Value, Memory>
    ensures { IfOk result (λ v. view v ≡ track_data name.now) }
{
    Ok(json!(in alloc; {"name": name.as_str()})?)
}

/// The tracks, in order.
#[tactic(auto, using(crate::proofs::Shown::tracks_more, crate::proofs::Shown::tracks_shown))]
pub(crate) fn tracks_value(alloc: Global, names: &[Text]) -> Result<Value, Memory>
    ensures { IfOk result (λ v. view v ≡ list_data (map track_data names.now)) }
{
    let mut values = Vec::new(alloc);
    for name in names {
        let value = track_value(alloc, name)?;
        values.push(value)?;
    }
    Ok(Value::from(values))
}
