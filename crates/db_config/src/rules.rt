//! The rules on the link definitions of a configuration, and on all its parts.
ghost use Rattle.std.specs.Prelude.{◌≡◌, ◌≤◌, ℕ, IfOk, length};
ghost use Rattle.std.specs.List.{list_any, list_all};
ghost use Rattle.db_config.specs.Valid.{is_in_range, same_levels, are_apart, are_within_limits, keeps_rules};
ghost use Rattle.db_config.specs.Names.{all_names, are_distinct};

use crate::names::{all_names, are_distinct};
use crate::parts::{ConfigParts, LevelDef, LinkDef};
use emu_names::Memory;
use emu_names::limits::{LEVELS, LINK_DEFINITIONS, TRACKS};
use std::alloc::Global;

/// Whether these parts keep the limits on levels, link definitions and tracks.
fn are_within_limits(parts: &ConfigParts) -> bool
    ensures { result ≡ are_within_limits parts.now }
{
    parts.levels.len() <= LEVELS
        && parts.links.len() <= LINK_DEFINITIONS
        && parts.tracks.len() <= TRACKS
}

/// Whether no two levels or attributes share a name, but a level with one of its own attributes.
fn names_are_distinct(alloc: Global, levels: &[LevelDef]) -> Result<bool, Memory>
    ensures { IfOk result (λ answer. answer ≡ are_distinct (all_names levels.now)) }
{
    let names = all_names(alloc, levels)?;
    Ok(are_distinct(names.as_slice()))
}

/// Whether all definitions name levels that are there.
fn are_in_range(count: usize, links: &[LinkDef]) -> bool
    ensures { result ≡ list_all (is_in_range count) links.now }
{
    for def in links {
        if def.upper as usize >= count || def.lower as usize >= count {
            return false;
        }
    }
    true
}

/// Whether one of the definitions has the levels of this one.
pub fn has_levels(def: &LinkDef, links: &[LinkDef]) -> bool
    ensures { result ≡ list_any (same_levels def.now) links.now }
{
    for other in links {
        if def.upper == other.upper && def.lower == other.lower {
            return true;
        }
    }
    false
}

/// Whether no two definitions have the same two levels.
pub fn are_apart(links: &[LinkDef]) -> bool
    ensures { result ≡ are_apart links.now }
{
    let mut rest = links;
    while let [first, after @ ..] = rest {
        if has_levels(first, after) {
            return false;
        }
        rest = after;
    }
    true
}

/// Whether the parts keep all rules, but for paths that lead round. The only refusal is want of memory.
pub(crate) fn keeps_rules(alloc: Global, parts: &ConfigParts) -> Result<bool, Memory>
    ensures { IfOk result (λ answer. answer ≡ keeps_rules parts.now) }
{
    let distinct = names_are_distinct(alloc, parts.levels.as_slice())?;
    Ok(
        are_within_limits(parts)
            && distinct
            && are_in_range(parts.levels.len(), parts.links.as_slice())
            && are_apart(parts.links.as_slice()),
    )
}
