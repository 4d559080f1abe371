//! The lists of a configuration, read from a JSON value.
ghost use Rattle.std.specs.Prelude.{◌≡◌, ◌≤◌, ◌∷◌, [], ℕ, IfOk, length};
ghost use Rattle.json_view.specs.Inner.Seen.{seen_at};
ghost use Rattle.config_json.specs.Inner.Faults.{Reads};
ghost use Rattle.config_json.specs.Read.{value_in, listed_values, values_in, values_member, group_in, listed_groups, groups_member, legal_in, legal_member, attribute_in, listed_attributes, attributes_member, level_in, listed_levels, levels_member, link_in, listed_links, links_member, track_in, listed_tracks, tracks_member};

use crate::faults::{ConfigFault, ConfigWhat};
use crate::forms::{
    filled_len, level_kind_at, link_kind_at, name_at, object_in, owned, string_type, text_member,
};
use crate::named::{NamedLink, NamedLinks};
use db_config::{
    AttributeDef, AttributeDefs, GroupDef, GroupDefs, GroupValues, LevelDef, LevelDefs, TrackNames,
};
use emu_names::limits::{ATTRIBUTES, LABEL_GROUPS, LEVELS, LINK_DEFINITIONS, LIST_TEXTS, TRACKS};
use emu_names::{Series, Text};
use json_view::{View, ViewFault, Wanted};
use std::alloc::Global;

// A text.
#[tactic(auto, unfolding(crate::specs::Read::value_in))]
fn value_in(alloc: Global, view: &View) -> Result<Text, ConfigFault>
    ensures { Reads result (value_in (seen_at view.now)) }
{
    let text = view.text()?;
    Ok(owned(alloc, text)?)
}

// The texts of a list.
#[tactic(auto, using(json_view::proofs::Each::each_steps), unfolding(crate::specs::Read::listed_values))]
fn listed_values(alloc: Global, view: &View) -> Result<GroupValues, ConfigFault>
    ensures { Reads result (listed_values (seen_at view.now)) }
{
    let count = view.list_len()?;
    if count > LIST_TEXTS {
        return Err(ConfigFault::TooMany(ConfigWhat::Texts));
    }
    let mut values = GroupValues::new(alloc);
    for place in 0..count {
        let part = view.at(place)?;
        match value_in(alloc, &part) {
            Ok(value) => values.push(value)?,
            Err(fault) => return Err(fault),
        }
    }
    Ok(values)
}

// A text alone as a list of one.
fn lone_value(alloc: Global, text: &str) -> Result<GroupValues, ConfigFault>
    ensures { Reads result (Ok (text.now ∷ [])) }
{
    let value = owned(alloc, text)?;
    let mut values = GroupValues::new(alloc);
    values.push(value)?;
    Ok(values)
}

// A list of texts; a text alone is a list of one.
#[tactic(auto, unfolding(crate::specs::Read::values_in, json_view::specs::Parts::text_at))]
fn values_in(alloc: Global, view: &View) -> Result<GroupValues, ConfigFault>
    ensures { Reads result (values_in (seen_at view.now)) }
{
    match view.text() {
        Ok(text) => lone_value(alloc, text),
        Err(ViewFault::Shape(_)) => listed_values(alloc, view),
        Err(ViewFault::Memory) => Err(ConfigFault::Memory),
    }
}

// The member `values` of a label group.
#[tactic(auto, unfolding(crate::specs::Read::values_member))]
fn values_member(alloc: Global, view: &View) -> Result<GroupValues, ConfigFault>
    ensures { Reads result (values_member (seen_at view.now)) }
{
    match view.optional("values")? {
        Some(part) => values_in(alloc, &part),
        None => Ok(GroupValues::new(alloc)),
    }
}

// A label group.
#[tactic(auto, unfolding(crate::specs::Read::group_in))]
fn group_in(alloc: Global, view: &View) -> Result<GroupDef, ConfigFault>
    ensures { Reads result (group_in (seen_at view.now)) }
{
    object_in(view)?;
    let name = text_member(alloc, view, "name")?;
    let values = values_member(alloc, view)?;
    Ok(GroupDef { name, values })
}

// The label groups of a list.
#[tactic(auto, using(json_view::proofs::Each::each_steps), unfolding(crate::specs::Read::listed_groups))]
fn listed_groups(alloc: Global, view: &View) -> Result<GroupDefs, ConfigFault>
    ensures { Reads result (listed_groups (seen_at view.now)) }
{
    let count = view.list_len()?;
    if count > LABEL_GROUPS {
        return Err(ConfigFault::TooMany(ConfigWhat::Groups));
    }
    let mut groups = GroupDefs::new(alloc);
    for place in 0..count {
        let part = view.at(place)?;
        match group_in(alloc, &part) {
            Ok(group) => groups.push(group)?,
            Err(fault) => return Err(fault),
        }
    }
    Ok(groups)
}

/// The member `labelGroups`, which may be missing.
#[tactic(auto, unfolding(crate::specs::Read::groups_member))]
pub(crate) fn groups_member(alloc: Global, view: &View) -> Result<GroupDefs, ConfigFault>
    ensures { Reads result (groups_member (seen_at view.now)) }
{
    match view.optional("labelGroups")? {
        Some(part) => listed_groups(alloc, &part),
        None => Ok(GroupDefs::new(alloc)),
    }
}

// Legal labels that are there.
#[tactic(auto, unfolding(crate::specs::Read::legal_in))]
fn legal_in(alloc: Global, view: &View) -> Result<Option<GroupValues>, ConfigFault>
    ensures { Reads result (legal_in (seen_at view.now)) }
{
    match values_in(alloc, view) {
        Ok(values) => Ok(Some(values)),
        Err(fault) => Err(fault),
    }
}

// The member `legalLabels`, which may be missing.
#[tactic(auto, unfolding(crate::specs::Read::legal_member))]
fn legal_member(alloc: Global, view: &View) -> Result<Option<GroupValues>, ConfigFault>
    ensures { Reads result (legal_member (seen_at view.now)) }
{
    match view.optional("legalLabels")? {
        Some(part) => legal_in(alloc, &part),
        None => Ok(None),
    }
}

/// An attribute, or its first fault, at the path of the view.
#[tactic(auto, unfolding(crate::specs::Read::attribute_in))]
pub fn attribute_in(alloc: Global, view: &View) -> Result<AttributeDef, ConfigFault>
    ensures { Reads result (attribute_in (seen_at view.now)) }
{
    object_in(view)?;
    let name = name_at(alloc, view, "name")?;
    string_type(view)?;
    let legal = legal_member(alloc, view)?;
    let groups = groups_member(alloc, view)?;
    Ok(AttributeDef {
        name,
        legal,
        groups,
    })
}

// The attributes of a list with at least one.
#[tactic(auto, using(json_view::proofs::Each::each_steps), unfolding(crate::specs::Read::listed_attributes))]
fn listed_attributes(alloc: Global, view: &View) -> Result<AttributeDefs, ConfigFault>
    ensures { Reads result (listed_attributes (seen_at view.now)) }
{
    let count = filled_len(view)?;
    if count > ATTRIBUTES {
        return Err(ConfigFault::TooMany(ConfigWhat::Attributes));
    }
    let mut defs = Series::new(alloc);
    for place in 0..count {
        let part = view.at(place)?;
        match attribute_in(alloc, &part) {
            Ok(def) => defs.push(def)?,
            Err(fault) => return Err(fault),
        }
    }
    Ok(AttributeDefs::of(defs))
}

// The member `attributeDefinitions` of a level.
#[tactic(auto, unfolding(crate::specs::Read::attributes_member))]
fn attributes_member(alloc: Global, view: &View) -> Result<AttributeDefs, ConfigFault>
    ensures { Reads result (attributes_member (seen_at view.now)) }
{
    let part = view.member("attributeDefinitions", Wanted::FilledList)?;
    listed_attributes(alloc, &part)
}

/// A level, or its first fault, at the path of the view.
#[tactic(auto, unfolding(crate::specs::Read::level_in))]
pub fn level_in(alloc: Global, view: &View) -> Result<LevelDef, ConfigFault>
    ensures { Reads result (level_in (seen_at view.now)) }
{
    object_in(view)?;
    let name = name_at(alloc, view, "name")?;
    let kind = level_kind_at(view)?;
    let attributes = attributes_member(alloc, view)?;
    Ok(LevelDef {
        name,
        kind,
        attributes,
    })
}

// The levels of a list.
#[tactic(auto, using(json_view::proofs::Each::each_steps), unfolding(crate::specs::Read::listed_levels))]
fn listed_levels(alloc: Global, view: &View) -> Result<LevelDefs, ConfigFault>
    ensures levels { Reads result (listed_levels (seen_at view.now)) }
    ensures limit { IfOk result (λ levels. length levels ≤ LEVELS) }
{
    let count = view.list_len()?;
    if count > LEVELS {
        return Err(ConfigFault::TooMany(ConfigWhat::Levels));
    }
    let mut levels = Series::new(alloc);
    for place in 0..count {
        let part = view.at(place)?;
        match level_in(alloc, &part) {
            Ok(level) => levels.push(level)?,
            Err(fault) => return Err(fault),
        }
    }
    Ok(levels)
}

/// The member `levelDefinitions`.
#[tactic(auto, unfolding(crate::specs::Read::levels_member))]
pub(crate) fn levels_member(alloc: Global, view: &View) -> Result<LevelDefs, ConfigFault>
    ensures levels { Reads result (levels_member (seen_at view.now)) }
    ensures limit { IfOk result (λ levels. length levels ≤ LEVELS) }
{
    let part = view.member("levelDefinitions", Wanted::List)?;
    listed_levels(alloc, &part)
}

/// A link definition, which names its levels, or its first fault, at the path of the view. Whether there are
/// such levels is not asked.
#[tactic(auto, unfolding(crate::specs::Read::link_in))]
pub fn link_in(alloc: Global, view: &View) -> Result<NamedLink, ConfigFault>
    ensures { Reads result (link_in (seen_at view.now)) }
{
    object_in(view)?;
    let kind = link_kind_at(view)?;
    let upper = text_member(alloc, view, "superlevelName")?;
    let lower = text_member(alloc, view, "sublevelName")?;
    Ok(NamedLink { kind, upper, lower })
}

// The link definitions of a list.
#[tactic(auto, using(json_view::proofs::Each::each_steps), unfolding(crate::specs::Read::listed_links))]
fn listed_links(alloc: Global, view: &View) -> Result<NamedLinks, ConfigFault>
    ensures links { Reads result (listed_links (seen_at view.now)) }
    ensures limit { IfOk result (λ links. length links ≤ LINK_DEFINITIONS) }
{
    let count = view.list_len()?;
    if count > LINK_DEFINITIONS {
        return Err(ConfigFault::TooMany(ConfigWhat::Links));
    }
    let mut links = Series::new(alloc);
    for place in 0..count {
        let part = view.at(place)?;
        match link_in(alloc, &part) {
            Ok(link) => links.push(link)?,
            Err(fault) => return Err(fault),
        }
    }
    Ok(links)
}

/// The member `linkDefinitions`, which may be missing.
#[tactic(auto, unfolding(crate::specs::Read::links_member))]
pub(crate) fn links_member(alloc: Global, view: &View) -> Result<NamedLinks, ConfigFault>
    ensures links { Reads result (links_member (seen_at view.now)) }
    ensures limit { IfOk result (λ links. length links ≤ LINK_DEFINITIONS) }
{
    match view.optional("linkDefinitions")? {
        Some(part) => listed_links(alloc, &part),
        None => Ok(Series::new(alloc)),
    }
}

// A track, of which its name is kept.
#[tactic(auto, unfolding(crate::specs::Read::track_in))]
fn track_in(alloc: Global, view: &View) -> Result<Text, ConfigFault>
    ensures { Reads result (track_in (seen_at view.now)) }
{
    object_in(view)?;
    Ok(text_member(alloc, view, "name")?)
}

// The tracks of a list.
#[tactic(auto, using(json_view::proofs::Each::each_steps), unfolding(crate::specs::Read::listed_tracks))]
fn listed_tracks(alloc: Global, view: &View) -> Result<TrackNames, ConfigFault>
    ensures tracks { Reads result (listed_tracks (seen_at view.now)) }
    ensures limit { IfOk result (λ tracks. length tracks ≤ TRACKS) }
{
    let count = view.list_len()?;
    if count > TRACKS {
        return Err(ConfigFault::TooMany(ConfigWhat::Tracks));
    }
    let mut tracks = Series::new(alloc);
    for place in 0..count {
        let part = view.at(place)?;
        match track_in(alloc, &part) {
            Ok(track) => tracks.push(track)?,
            Err(fault) => return Err(fault),
        }
    }
    Ok(tracks)
}

/// The member `ssffTrackDefinitions`, which may be missing.
#[tactic(auto, unfolding(crate::specs::Read::tracks_member))]
pub(crate) fn tracks_member(alloc: Global, view: &View) -> Result<TrackNames, ConfigFault>
    ensures tracks { Reads result (tracks_member (seen_at view.now)) }
    ensures limit { IfOk result (λ tracks. length tracks ≤ TRACKS) }
{
    match view.optional("ssffTrackDefinitions")? {
        Some(part) => listed_tracks(alloc, &part),
        None => Ok(Series::new(alloc)),
    }
}
