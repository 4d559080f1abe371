//! The links that an annotation makes, or the rule that they break first.
ghost use Rattle.std.specs.Prelude.{◌≡◌, ◌<◌, [], length, IfOk, OnOk, Ok, Err};
ghost use Rattle.emu_names.specs.declared.rules.Broken.{Broken as Rule};
ghost use Rattle.emu_names.specs.Inner.Gives.{GivesOrBroken};
ghost use Rattle.bundle_state.specs.Bundle.{level_of_id};
ghost use Rattle.bundle_state.specs.Inner.Placed.{ArePlaced};
ghost use Rattle.bundle_state.specs.Linked.{definition_for, put_link, put_links};

use crate::places::Places;
use db_config::Config;
use emu_names::{Broken, Fault};
use level_items::{AnnotLink, Handle, LevelList};
use link_graph::Links;
use std::alloc::Global;

/// The definition of a link, by the levels of its two items.
pub(crate) fn definition_for(
    config: &Config,
    places: &Places,
    levels: &[Handle<LevelList>],
    given: &AnnotLink,
) -> Result<u32, Fault>
    requires { ArePlaced (level_of_id levels.now) places.now }
    ensures definition { GivesOrBroken result (definition_for config.now.links given.now
        (level_of_id levels.now given.now.from.0) (level_of_id levels.now given.now.to.0)) }
    ensures within { IfOk result (λ number. number < length config.now.links) }
{
    let Some(upper) = places.level_of(levels, given.from) else {
        return Err(Fault::Broken(Broken::NoItem(given.from)));
    };
    let Some(lower) = places.level_of(levels, given.to) else {
        return Err(Fault::Broken(Broken::NoItem(given.to)));
    };
    match config.link_definition(upper, lower) {
        Some(number) => Ok(number),
        None => Err(Fault::Broken(Broken::NoLinkDefinition)),
    }
}

/// Puts a link last, where its pair is not there.
fn put_link(
    config: &Config,
    places: &Places,
    levels: &[Handle<LevelList>],
    links: &mut Links,
    given: &AnnotLink,
) -> Result<(), Fault>
    requires { ArePlaced (level_of_id levels.now) places.now }
    ensures ok { OnOk result
        (put_link config.now.links (level_of_id levels.now) links.old given.now ≡ Ok links.new) }
    ensures broken { (rule : Rule) → result ≡ Err (Fault.Broken rule)
        → put_link config.now.links (level_of_id levels.now) links.old given.now ≡ Err rule }
{
    let number = definition_for(config, places, levels, given)?;
    if links.has(given.from, given.to) {
        return Ok(());
    }
    links.add(number, config.link_kind(number), given.from, given.to)
}

/// The links that are given, one after another.
fn made_links(
    alloc: Global,
    config: &Config,
    places: &Places,
    levels: &[Handle<LevelList>],
    given: &[AnnotLink],
) -> Result<Links, Fault>
    requires { ArePlaced (level_of_id levels.now) places.now }
    ensures { GivesOrBroken result (put_links config.now.links (level_of_id levels.now) given.now []) }
{
    let mut links = Links::with_capacity(alloc, given.len())?;
    for place in 0..given.len() {
        match put_link(config, places, levels, &mut links, &given[place]) {
            Ok(()) => {}
            Err(fault) => return Err(fault),
        }
    }
    Ok(links)
}

/// The same links, which copies share.
pub(crate) fn shared_links(
    alloc: Global,
    config: &Config,
    places: &Places,
    levels: &[Handle<LevelList>],
    given: &[AnnotLink],
) -> Result<Handle<Links>, Fault>
    requires { ArePlaced (level_of_id levels.now) places.now }
    ensures { GivesOrBroken result (put_links config.now.links (level_of_id levels.now) given.now []) }
{
    let links = made_links(alloc, config, places, levels, given)?;
    let shared = Handle::new(alloc, links)?;
    Ok(shared)
}
