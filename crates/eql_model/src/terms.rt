//! Which items meet a condition.
ghost use Rattle.std.specs.Prelude.{◌≡◌, ◌<◌, length, map, IfOk, IsSome};
ghost use Rattle.db_config.specs.Lookups.{attribute_at};
ghost use Rattle.bundle_state.specs.Built.{FitsConfig};
ghost use Rattle.hier_closure.specs.Dominance.{ids_at};
ghost use Rattle.eql_resolve.specs.Asked.{term_level};
ghost use Rattle.eql_resolve.specs.Sound.{IsTermOf};
ghost use Rattle.eql_resolve.specs.Inner.View.{term_in, op_in, labels_in};
ghost use Rattle.eql_model.specs.Labels.{passes};
ghost use Rattle.level_items.specs.Levels.{label_of, items_at};
ghost use Rattle.eql_model.specs.Positions.{has_place, has_number};
ghost use Rattle.eql_model.specs.Meaning.{meets};

use crate::flags::Flags;
use crate::labels::{label_flags, match_flags};
use crate::positions::{count_flags, place_flags};
use bundle_state::Bundle;
use db_config::{AttributePlace, Config};
use emu_names::Memory;
use eql_resolve::{AskedTerm, Wanted};
use eql_rows::items_at;
use eql_syntax::{Compare, Place};
use hier_closure::Closure;
use std::alloc::Global;

/// For each item of a level whether its label passes a test. The only refusal is want of memory.
fn test_flags(
    alloc: Global,
    config: &Config,
    bundle: &Bundle,
    place: AttributePlace,
    found: bool,
    wanted: Wanted,
) -> Result<Flags, Memory>
    requires place { IsSome (attribute_at place config.now.levels) }
    requires level { place.level < length bundle.now.levels }
    ensures { IfOk result (λ flags. flags ≡ map (λ item. passes config.now place
        (op_in found wanted.entry) (labels_in wanted.entry) (label_of place.attribute item))
        (items_at bundle.now.levels place.level)) }
{
    let items = items_at(bundle, place.level);
    match wanted {
        Wanted::Labels(labels) => label_flags(alloc, config, place, found, labels, items),
        Wanted::Patterns(patterns) => match_flags(alloc, place.attribute, found, patterns, items),
    }
}

/// For each item of the lower level whether it passes a test of its place. The only refusal is want of
/// memory.
fn position_flags(
    alloc: Global,
    config: &Config,
    bundle: &Bundle,
    levels: (usize, usize),
    place: Place,
    wanted: bool,
) -> Result<Flags, Memory>
    requires fits { FitsConfig config.now bundle.now }
    requires upper { levels.0 < length bundle.now.levels }
    requires lower { levels.1 < length bundle.now.levels }
    ensures { IfOk result (λ flags. flags ≡ map (λ item. has_place bundle.now.links
        (ids_at bundle.now.levels levels.0) (ids_at bundle.now.levels levels.1) place wanted item.id.0)
        (items_at bundle.now.levels levels.1)) }
{
    let (upper, lower) = levels;
    let rows = Closure::between(alloc, config, bundle, upper, lower)?;
    let count = items_at(bundle, upper).len();
    place_flags(alloc, &rows, count, items_at(bundle, lower), place, wanted)
}

/// For each item of the upper level whether it passes a test of the number of items that it dominates.
/// The only refusal is want of memory.
fn number_flags(
    alloc: Global,
    config: &Config,
    bundle: &Bundle,
    levels: (usize, usize),
    compare: Compare,
    number: u32,
) -> Result<Flags, Memory>
    requires fits { FitsConfig config.now bundle.now }
    requires upper { levels.0 < length bundle.now.levels }
    requires lower { levels.1 < length bundle.now.levels }
    ensures { IfOk result (λ flags. flags ≡ map (λ item. has_number bundle.now.links
        (ids_at bundle.now.levels levels.1) compare number item.id.0)
        (items_at bundle.now.levels levels.0)) }
{
    let (upper, lower) = levels;
    let rows = Closure::between(alloc, config, bundle, upper, lower)?;
    let count = items_at(bundle, upper).len();
    count_flags(alloc, &rows, count, compare, number)
}

/// For each item of a condition's level whether it meets the condition. The only refusal is want of
/// memory.
pub(crate) fn term_flags(
    alloc: Global,
    config: &Config,
    bundle: &Bundle,
    term: &AskedTerm,
) -> Result<Flags, Memory>
    requires fits { FitsConfig config.now bundle.now }
    requires term { IsTermOf config.now (term_in term.now) }
    ensures { IfOk result (λ flags. flags ≡ map (meets config.now bundle.now (term_in term.now))
        (items_at bundle.now.levels (term_level (term_in term.now)))) }
{
    match term {
        AskedTerm::Test {
            place,
            found,
            wanted,
            ..
        } => test_flags(alloc, config, bundle, *place, *found, *wanted),
        AskedTerm::Position {
            place,
            upper,
            lower,
            wanted,
            ..
        } => position_flags(
            alloc,
            config,
            bundle,
            (*upper, lower.level),
            *place,
            *wanted,
        ),
        AskedTerm::Number {
            upper,
            lower,
            compare,
            number,
            ..
        } => number_flags(
            alloc,
            config,
            bundle,
            (upper.level, *lower),
            *compare,
            *number,
        ),
    }
}
