//! The configuration of a JSON value: its parts are read, and then its rules are tested.
ghost use Rattle.std.specs.Prelude.{◌≡◌, ◌≢◌, ◌≤◌, IfOk, IfErr, length, true};
ghost use Rattle.json_view.specs.Inner.Seen.{seen_at};
ghost use Rattle.config_json.specs.Inner.Faults.{Reads};
ghost use Rattle.db_config.specs.Names.{all_names, are_distinct};
ghost use Rattle.db_config.specs.Valid.{keeps_rules};
ghost use Rattle.config_json.specs.Read.{named_parts, unless_cycle, linked_parts, sound_parts, parts_with, config_of};
ghost use Rattle.config_json.specs.Inner.Read.{AreBounded, named_head, named_lists};

use crate::faults::ConfigFault;
use crate::forms::{name_at, object_in, optional_text};
use crate::link_defs::all_placed;
use crate::named::{NamedHead, NamedLists, NamedParts};
use crate::read_parts::{groups_member, levels_member, links_member, tracks_member};
use db_config::{Config, ConfigParts, LinkDefs, PartsFault, are_apart, double_name};
use emu_names::limits::{LEVELS, LINK_DEFINITIONS, TRACKS};
use json_view::View;
use std::alloc::Global;

// The members that come before the levels.
#[tactic(auto, unfolding(crate::specs::Inner::Read::named_head))]
fn named_head(alloc: Global, view: &View) -> Result<NamedHead, ConfigFault>
    ensures head { Reads result (named_head (seen_at view.now)) }
    ensures limit { IfOk result (λ head. length head.tracks ≤ TRACKS) }
{
    object_in(view)?;
    let name = name_at(alloc, view, "name")?;
    let uuid = optional_text(alloc, view, "UUID")?;
    let extension = optional_text(alloc, view, "mediafileExtension")?;
    let tracks = tracks_member(alloc, view)?;
    Ok(NamedHead {
        name,
        uuid,
        extension,
        tracks,
    })
}

// The levels, and the members that come behind them.
#[tactic(auto, unfolding(crate::specs::Inner::Read::named_lists))]
fn named_lists(alloc: Global, view: &View) -> Result<NamedLists, ConfigFault>
    ensures lists { Reads result (named_lists (seen_at view.now)) }
    ensures levels { IfOk result (λ lists. length lists.levels ≤ LEVELS) }
    ensures links { IfOk result (λ lists. length lists.links ≤ LINK_DEFINITIONS) }
{
    let levels = levels_member(alloc, view)?;
    let links = links_member(alloc, view)?;
    let groups = groups_member(alloc, view)?;
    Ok(NamedLists {
        levels,
        links,
        groups,
    })
}

// The members, with the link definitions by the names of their levels.
#[tactic(auto, using(crate::proofs::Heads::parts_joined))]
fn named_parts(alloc: Global, view: &View) -> Result<NamedParts, ConfigFault>
    ensures parts { Reads result (named_parts (seen_at view.now)) }
    ensures limits { IfOk result AreBounded }
{
    let head = named_head(alloc, view)?;
    let lists = named_lists(alloc, view)?;
    Ok(NamedParts {
        name: head.name,
        uuid: head.uuid,
        extension: head.extension,
        tracks: head.tracks,
        levels: lists.levels,
        links: lists.links,
        groups: lists.groups,
    })
}

// The parts with the link definitions by numbers.
fn with_links(parts: NamedParts, links: LinkDefs) -> ConfigParts
    ensures { result ≡ parts_with parts links }
{
    ConfigParts {
        name: parts.name,
        uuid: parts.uuid,
        extension: parts.extension,
        tracks: parts.tracks,
        levels: parts.levels,
        groups: parts.groups,
        links,
    }
}

// The configuration of parts that keep all rules, unless a path of link definitions leads round.
fn uncycled(alloc: Global, parts: ConfigParts) -> Result<Config, ConfigFault>
    requires { keeps_rules parts ≡ true }
    ensures { Reads result (unless_cycle parts) }
{
    match Config::from_kept(alloc, parts) {
        Ok(config) => Ok(config),
        Err(PartsFault::NotValid) => Err(ConfigFault::LevelCycle),
        Err(PartsFault::Memory) => Err(ConfigFault::Memory),
    }
}

// The link definitions by numbers, of parts whose names are distinct, or the first rule on them that
// is broken.
fn apart_links(alloc: Global, parts: &NamedParts) -> Result<LinkDefs, ConfigFault>
    requires bounded { AreBounded parts.now }
    requires distinct { are_distinct (all_names parts.now.levels) ≡ true }
    ensures links { IfOk result
        (λ links. linked_parts parts.now ≡ unless_cycle (parts_with parts.now links)) }
    ensures kept { IfOk result (λ links. keeps_rules (parts_with parts.now links) ≡ true) }
    ensures fault { IfErr result (λ e. e ≢ ConfigFault.Memory → linked_parts parts.now ≡ Err e) }
{
    let links = all_placed(alloc, parts.levels.as_slice(), parts.links.as_slice())?;
    if !are_apart(links.as_slice()) {
        return Err(ConfigFault::DoubleLink);
    }
    Ok(links)
}

// The link definitions by numbers, or the first rule that the parts break. Paths that lead round are
// not looked for.
#[tactic(auto, using(db_config::proofs::Doubles::no_double), unfolding(crate::specs::Read::sound_parts))]
fn sound_links(alloc: Global, parts: &NamedParts) -> Result<LinkDefs, ConfigFault>
    requires { AreBounded parts.now }
    ensures links { IfOk result
        (λ links. sound_parts parts.now ≡ unless_cycle (parts_with parts.now links)) }
    ensures kept { IfOk result (λ links. keeps_rules (parts_with parts.now links) ≡ true) }
    ensures fault { IfErr result (λ e. e ≢ ConfigFault.Memory → sound_parts parts.now ≡ Err e) }
{
    match double_name(alloc, parts.levels.as_slice())? {
        Some(name) => Err(ConfigFault::DoubleName(name)),
        None => apart_links(alloc, parts),
    }
}

// The configuration of these parts, or the first rule that they break.
fn sound_parts(alloc: Global, parts: NamedParts) -> Result<Config, ConfigFault>
    requires { AreBounded parts }
    ensures { Reads result (sound_parts parts) }
{
    match sound_links(alloc, &parts) {
        Ok(links) => uncycled(alloc, with_links(parts, links)),
        Err(fault) => Err(fault),
    }
}

/// The configuration of a value (EMU-SDMS Manual, "The emuDB format": `_DBconfig.json`), or its first
/// fault.
///
/// The members are read in this order: `name`, `UUID`, `mediafileExtension`, `ssffTrackDefinitions`,
/// `levelDefinitions`, `linkDefinitions`, `labelGroups`; the first part that has another form is the
/// fault (`Shape`), or the first list that passes its limit (`TooMany`), which is tested before its
/// elements are read. Then come, each the first of its kind: a name that stands twice (`DoubleName`), a
/// link definition that names a level that is not there (`UnknownLevel`), two link definitions of the
/// same levels (`DoubleLink`), and a path of link definitions from a level to itself (`LevelCycle`).
#[tactic(auto, unfolding(crate::specs::Read::config_of))]
pub fn read_config(alloc: Global, view: &View) -> Result<Config, ConfigFault>
    ensures { Reads result (config_of (seen_at view.now)) }
{
    let parts = named_parts(alloc, view)?;
    sound_parts(alloc, parts)
}
