//! Links that times give.
ghost use Rattle.std.specs.Prelude.{◌≡◌, IfOk, Some};
ghost use Rattle.std.specs.List.{slice_get};
ghost use Rattle.emu_names.specs.Inner.Gives.{GivesOrBroken, FindsFault};
ghost use Rattle.bundle_state.specs.Built.{FitsConfig};
ghost use Rattle.bundle_edits.specs.Inner.Given.{LeadsTo};
ghost use Rattle.bundle_edits.specs.Changes.{timed_kinds_fault, definition_fault, linked_fault, pair_linked, pairs_linked, levels_linked, times_linked};

use crate::item_changes::link;
use crate::names::no_level;
use bundle_state::Bundle;
use db_config::{Config, LevelDef};
use emu_names::{Broken, Fault, LevelKind, Text};
use level_items::AnnotLink;
use link_builder::{Pairs, timed_pairs};
use link_graph::Links;
use std::alloc::Global;

/// Tests whether items of levels of these kinds can be linked by their times.
fn kinds_pass(upper: LevelKind, lower: LevelKind) -> Result<(), Fault>
    ensures { FindsFault result (timed_kinds_fault upper lower) }
{
    match upper {
        LevelKind::Segment => match lower {
            LevelKind::Item => Err(Fault::Broken(Broken::TimeKind)),
            LevelKind::Segment | LevelKind::Event => Ok(()),
        },
        LevelKind::Item | LevelKind::Event => Err(Fault::Broken(Broken::TimeKind)),
    }
}

/// Tests whether a link definition leads from the one level to the other.
fn definition_passes(config: &Config, upper: usize, lower: usize) -> Result<(), Fault>
    ensures { FindsFault result (definition_fault config.now.links upper lower) }
{
    match config.link_definition(upper, lower) {
        Some(_) => Ok(()),
        None => Err(Fault::Broken(Broken::NoLinkDefinition)),
    }
}

/// Tests whether one of these pairs of items is no link yet.
fn pairs_pass(links: &Links, pairs: &[AnnotLink]) -> Result<(), Fault>
    ensures { FindsFault result (linked_fault pairs.now links.now) }
{
    for pair in pairs {
        if !links.has(pair.from, pair.to) {
            return Ok(());
        }
    }
    Err(Fault::Broken(Broken::NothingToLink))
}

/// The bundle with the link of a pair of items; where it is there, the bundle stays as it is.
fn link_pair(config: &Config, bundle: Bundle, pair: &AnnotLink) -> Result<Bundle, Fault>
    requires { FitsConfig config.now bundle }
    ensures { GivesOrBroken result (pair_linked pair.now bundle) }
{
    if bundle.links().has(pair.from, pair.to) {
        return Ok(bundle);
    }
    link(config, bundle, pair.from, pair.to)
}

/// The bundle with the links of these pairs of items, of which those that are there stay as they are.
fn link_pairs(config: &Config, bundle: Bundle, pairs: &[AnnotLink]) -> Result<Bundle, Fault>
    requires { FitsConfig config.now bundle }
    ensures { GivesOrBroken result (pairs_linked pairs.now bundle) }
{
    let mut next = bundle;
    for pair in pairs {
        next = link_pair(config, next, pair)?;
    }
    Ok(next)
}

/// The pairs of items that the times of two levels give, which have these numbers and definitions; one of
/// them is no link yet.
fn pairs_of(
    alloc: Global,
    config: &Config,
    bundle: &Bundle,
    upper: usize,
    one: &LevelDef,
    lower: usize,
    other: &LevelDef,
) -> Result<Pairs, Fault>
    requires fits { FitsConfig config.now bundle.now }
    requires upper { slice_get config.now.levels upper ≡ Some one.now }
    requires lower { slice_get config.now.levels lower ≡ Some other.now }
    ensures { LeadsTo result (λ pairs. pairs_linked pairs bundle.now)
        (levels_linked bundle.now (upper, one.now) (lower, other.now)) }
{
    kinds_pass(one.kind, other.kind)?;
    definition_passes(config, upper, lower)?;
    let pairs = timed_pairs(alloc, bundle.level(upper), bundle.level(lower))?;
    pairs_pass(bundle.links(), pairs.as_slice())?;
    Ok(pairs)
}

/// The bundle with the links that the times of two levels give, which have these numbers and definitions.
fn link_levels(
    alloc: Global,
    config: &Config,
    bundle: Bundle,
    upper: usize,
    one: &LevelDef,
    lower: usize,
    other: &LevelDef,
) -> Result<Bundle, Fault>
    requires fits { FitsConfig config.now bundle }
    requires upper { slice_get config.now.levels upper ≡ Some one.now }
    requires lower { slice_get config.now.levels lower ≡ Some other.now }
    ensures { GivesOrBroken result (levels_linked bundle (upper, one.now) (lower, other.now)) }
{
    match pairs_of(alloc, config, &bundle, upper, one, lower, other) {
        Ok(pairs) => link_pairs(config, bundle, pairs.as_slice()),
        Err(fault) => {
            drop(bundle);
            Err(fault)
        }
    }
}

/// The bundle with a link from each segment of the upper level to each item of the lower one that it holds.
pub(crate) fn link_times(
    alloc: Global,
    config: &Config,
    bundle: Bundle,
    upper: &Text,
    lower: &Text,
) -> Result<Bundle, Fault>
    requires { FitsConfig config.now bundle }
    ensures { GivesOrBroken result (times_linked config.now upper.now lower.now bundle) }
{
    let Some(one) = config.level_named(upper.as_str()) else {
        drop(bundle);
        return Err(no_level(alloc, upper));
    };
    let Some(other) = config.level_named(lower.as_str()) else {
        drop(bundle);
        return Err(no_level(alloc, lower));
    };
    let defs = &config.parts().levels;
    link_levels(
        alloc,
        config,
        bundle,
        one,
        defs.get(one),
        other,
        defs.get(other),
    )
}
