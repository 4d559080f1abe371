//! The items that meet conditions, as one row of bits for each condition.
ghost use Rattle.std.specs.Prelude.{◌≡◌, ◌<◌, ◌&&◌, All, length, map, IfOk, IsSome, OnOk};
ghost use Rattle.std.specs.Simd.Lanes.{zip2};
ghost use Rattle.db_config.specs.Lookups.{attribute_at};
ghost use Rattle.bundle_state.specs.Built.{FitsConfig};
ghost use Rattle.eql_resolve.specs.Asked.{term_level};
ghost use Rattle.eql_resolve.specs.Sound.{IsTermOf};
ghost use Rattle.eql_resolve.specs.Inner.View.{labels_in, op_in, term_in};
ghost use Rattle.eql_model.specs.Labels.{is_as, is_matched, is_wanted, passes};
ghost use Rattle.level_items.specs.Levels.{label_of, items_at};
ghost use Rattle.eql_model.specs.Meaning.{meets};
ghost use Rattle.eql_model.specs.Inner.Meaning.{met_row, IsTermOn};
ghost use Rattle.eql_columns.specs.Inner.Rows.{all_bits, IsUnsetFor};

use crate::labels::set_label_bits;
use crate::matchers::Matchers;
use crate::patterns::set_pattern_bits;
use crate::positions::{set_number_bits, set_position_bits};
use crate::rows::{all_set, none_set, turn_unless};
use bundle_index::Indexed;
use db_config::{AttributePlace, Config};
use emu_names::{Memory, Text};
use eql_resolve::{AskedTerm, Wanted};
use label_match::Pattern;
use lane_bits::{BitRow, and_into};
use std::alloc::Global;

/// Sets the bits of the items of a level whose label passes a test of labels, in a row of which no bit is
/// set. The only refusal is want of memory.
fn set_labels_pass(
    alloc: Global,
    config: &Config,
    indexed: &Indexed,
    place: AttributePlace,
    found: bool,
    labels: &[Text],
    matchers: &mut Matchers,
    row: &mut BitRow,
) -> Result<(), Memory>
    requires fits { FitsConfig config.now indexed.now.bundle }
    requires place { IsSome (attribute_at place config.now.levels) }
    requires unset { IsUnsetFor indexed.now.bundle place.level row.old }
    ensures { OnOk result (row.new ≡ map (λ item. is_as found (is_wanted config.now place labels.now
        (label_of place.attribute item))) (items_at indexed.now.bundle.levels place.level)) }
{
    set_label_bits(alloc, config, indexed, place, labels, matchers, row)?;
    turn_unless(found, row);
    Ok(())
}

/// Sets the bits of the items of a level whose label passes a test of patterns, in a row of which no bit is
/// set. The only refusal is want of memory.
fn set_patterns_pass<'q>(
    alloc: Global,
    config: &Config,
    indexed: &Indexed,
    place: AttributePlace,
    found: bool,
    patterns: &'q [Pattern],
    matchers: &mut Matchers<'q>,
    row: &mut BitRow,
) -> Result<(), Memory>
    requires fits { FitsConfig config.now indexed.now.bundle }
    requires place { IsSome (attribute_at place config.now.levels) }
    requires unset { IsUnsetFor indexed.now.bundle place.level row.old }
    ensures { OnOk result (row.new ≡ map (λ item. is_as found (is_matched patterns.now
        (label_of place.attribute item))) (items_at indexed.now.bundle.levels place.level)) }
{
    let _levels = config.level_count();
    set_pattern_bits(alloc, indexed, place, patterns, matchers, row)?;
    turn_unless(found, row);
    Ok(())
}

/// Sets the bits of the items of a level whose label passes a test, in a row of which no bit is set. The
/// only refusal is want of memory.
fn set_test_bits<'q>(
    alloc: Global,
    config: &Config,
    indexed: &Indexed,
    place: AttributePlace,
    found: bool,
    wanted: Wanted<'q>,
    matchers: &mut Matchers<'q>,
    row: &mut BitRow,
) -> Result<(), Memory>
    requires fits { FitsConfig config.now indexed.now.bundle }
    requires place { IsSome (attribute_at place config.now.levels) }
    requires unset { IsUnsetFor indexed.now.bundle place.level row.old }
    ensures { OnOk result (row.new ≡ map (λ item. passes config.now place
        (op_in found wanted.entry) (labels_in wanted.entry) (label_of place.attribute item))
        (items_at indexed.now.bundle.levels place.level)) }
{
    match wanted {
        Wanted::Labels(labels) => {
            set_labels_pass(alloc, config, indexed, place, found, labels, matchers, row)
        }
        Wanted::Patterns(patterns) => {
            set_patterns_pass(
                alloc, config, indexed, place, found, patterns, matchers, row,
            )
        }
    }
}

/// Sets the bits of the items of a condition's level that meet the condition, in a row of which no bit is
/// set. The only refusal is want of memory.
fn set_term_bits<'q>(
    alloc: Global,
    config: &Config,
    indexed: &Indexed,
    term: &AskedTerm<'q>,
    matchers: &mut Matchers<'q>,
    row: &mut BitRow,
) -> Result<(), Memory>
    requires fits { FitsConfig config.now indexed.now.bundle }
    requires term { IsTermOf config.now (term_in term.now) }
    requires unset { IsUnsetFor indexed.now.bundle (term_level (term_in term.now)) row.old }
    ensures { OnOk result (row.new ≡ map (meets config.now indexed.now.bundle (term_in term.now))
        (items_at indexed.now.bundle.levels (term_level (term_in term.now)))) }
{
    match term {
        AskedTerm::Test {
            place,
            found,
            wanted,
            ..
        } => set_test_bits(
            alloc, config, indexed, *place, *found, *wanted, matchers, row,
        ),
        AskedTerm::Position {
            place,
            upper,
            lower,
            wanted,
            ..
        } => set_position_bits(
            alloc,
            config,
            indexed,
            (*upper, lower.level),
            *place,
            *wanted,
            row,
        ),
        AskedTerm::Number {
            upper,
            lower,
            compare,
            number,
            ..
        } => set_number_bits(
            alloc,
            config,
            indexed,
            (upper.level, *lower),
            *compare,
            *number,
            row,
        ),
    }
}

/// Clears the bits of the items of a level that do not meet a condition on it. The only refusal is want
/// of memory.
fn clear_others<'q>(
    alloc: Global,
    config: &Config,
    indexed: &Indexed,
    level: usize,
    term: &AskedTerm<'q>,
    matchers: &mut Matchers<'q>,
    met: &mut BitRow,
) -> Result<(), Memory>
    requires fits { FitsConfig config.now indexed.now.bundle }
    requires term { IsTermOn config.now level (term_in term.now) }
    requires long { length met.old ≡ length (items_at indexed.now.bundle.levels level) }
    ensures { OnOk result (met.new ≡ zip2 (λ a b. a && b) met.old
        (met_row config.now indexed.now.bundle level (term_in term.now))) }
{
    let mut row = none_set(alloc, met.len())?;
    set_term_bits(alloc, config, indexed, term, matchers, &mut row)?;
    and_into(met, &row);
    Ok(())
}

/// How many items a level has.
fn level_count(indexed: &Indexed, level: usize) -> usize
    requires { level < length indexed.now.bundle.levels }
    ensures { result ≡ length (items_at indexed.now.bundle.levels level) }
{
    eql_rows::items_at(indexed.bundle(), level).len()
}

/// How many items the level of an attribute has, by the column of its labels.
fn column_count(config: &Config, indexed: &Indexed, place: AttributePlace) -> usize
    requires fits { FitsConfig config.now indexed.now.bundle }
    requires place { IsSome (attribute_at place config.now.levels) }
    ensures { result ≡ length (items_at indexed.now.bundle.levels place.level) }
{
    let _levels = config.level_count();
    indexed.column(place.level, place.attribute).len()
}

/// How many items the level of a condition has. For a test of labels the column is asked, which the test
/// reads, and not the level.
fn item_count(config: &Config, indexed: &Indexed, term: &AskedTerm) -> usize
    requires fits { FitsConfig config.now indexed.now.bundle }
    requires term { IsTermOf config.now (term_in term.now) }
    ensures { result ≡ length (items_at indexed.now.bundle.levels (term_level (term_in term.now))) }
{
    match term {
        AskedTerm::Test { place, .. } => column_count(config, indexed, *place),
        AskedTerm::Position { lower, .. } => level_count(indexed, lower.level),
        AskedTerm::Number { upper, .. } => level_count(indexed, upper.level),
    }
}

/// For each item of a level whether it meets a condition on that level. The only refusal is want of
/// memory.
fn met_row<'q>(
    alloc: Global,
    config: &Config,
    indexed: &Indexed,
    level: usize,
    term: &AskedTerm<'q>,
    matchers: &mut Matchers<'q>,
) -> Result<BitRow, Memory>
    requires fits { FitsConfig config.now indexed.now.bundle }
    requires term { IsTermOn config.now level (term_in term.now) }
    ensures { IfOk result (λ row. row
        ≡ met_row config.now indexed.now.bundle level (term_in term.now)) }
{
    let mut row = none_set(alloc, item_count(config, indexed, term))?;
    set_term_bits(alloc, config, indexed, term, matchers, &mut row)?;
    Ok(row)
}

/// For each item of a level whether it meets all conditions. Where no item meets the first ones, the
/// others are not asked. The only refusal is want of memory.
///
/// The bundle has the configuration's levels and link definitions, and each condition is one of the configuration, on
/// that level. What the matchers hold changes no answer.
pub fn all_met<'q>(
    alloc: Global,
    config: &Config,
    indexed: &Indexed,
    level: usize,
    terms: &[AskedTerm<'q>],
    matchers: &mut Matchers<'q>,
) -> Result<BitRow, Memory>
    requires fits { FitsConfig config.now indexed.now.bundle }
    requires level { level < length indexed.now.bundle.levels }
    requires terms { All (λ t. IsTermOn config.now level (term_in t)) terms.now }
    ensures { IfOk result (λ met. met ≡ all_bits
        (length (items_at indexed.now.bundle.levels level))
        (map (λ t. met_row config.now indexed.now.bundle level (term_in t)) terms.now)) }
{
    if terms.is_empty() {
        return all_set(alloc, eql_rows::items_at(indexed.bundle(), level).len());
    }
    let mut met = met_row(alloc, config, indexed, level, &terms[0], matchers)?;
    for at in 1..terms.len() {
        if met.first().is_none() {
            return Ok(met);
        }
        clear_others(
            alloc, config, indexed, level, &terms[at], matchers, &mut met,
        )?;
    }
    Ok(met)
}
