//! Tests of labels.
ghost use Rattle.std.specs.Prelude.{◌≡◌, ◌++◌, map, IfOk, OnOk, IsSome};
ghost use Rattle.std.specs.List.{list_any};
ghost use Rattle.emu_names.specs.Texts.{same_text};
ghost use Rattle.db_config.specs.Lookups.{attribute_at};
ghost use Rattle.eql_model.specs.Labels.{stands_for, is_wanted, is_matched, is_as};
ghost use Rattle.level_items.specs.Levels.{label_of};
ghost use Rattle.eql_model.specs.Inner.Labels.{matched_row};

use crate::flags::{Flags, any_at};
use db_config::{AttributePlace, Config};
use emu_names::{Memory, Series, Text};
use eql_rows::label_of;
use label_match::{Matching, Pattern};
use level_items::Item;
use std::alloc::Global;

/// Whether a label is among some labels.
fn is_among(label: &str, labels: &[Text]) -> bool
    ensures { result ≡ list_any (same_text label.now) labels.now }
{
    for other in labels {
        if label == other.as_str() {
            return true;
        }
    }
    false
}

/// Whether a written label stands for a label.
fn stands_for(config: &Config, place: AttributePlace, written: &Text, label: &str) -> bool
    requires { IsSome (attribute_at place config.now.levels) }
    ensures { result ≡ list_any (same_text label.now) (stands_for config.now place written.now) }
{
    match config.group(place, written.as_str()) {
        Some(values) => is_among(label, values.as_slice()),
        None => label == written.as_str(),
    }
}

/// Whether a label is among those that are wanted.
fn is_wanted(config: &Config, place: AttributePlace, written: &[Text], label: &str) -> bool
    requires { IsSome (attribute_at place config.now.levels) }
    ensures { result ≡ is_wanted config.now place written.now label.now }
{
    for one in written {
        if stands_for(config, place, one, label) {
            return true;
        }
    }
    false
}

/// What a test finds, or its opposite.
fn is_as(found: bool, is: bool) -> bool
    ensures { result ≡ is_as found is }
{
    if found { is } else { !is }
}

/// For each item whether its label is wanted, or whether it is not. The only refusal is want of memory.
pub(crate) fn label_flags(
    alloc: Global,
    config: &Config,
    place: AttributePlace,
    found: bool,
    written: &[Text],
    items: &[Item],
) -> Result<Flags, Memory>
    requires { IsSome (attribute_at place config.now.levels) }
    ensures { IfOk result (λ flags. flags ≡ map (λ item. is_as found
        (is_wanted config.now place written.now (label_of place.attribute item))) items.now) }
{
    let mut flags = Series::new(alloc);
    for item in items {
        let is = is_wanted(config, place, written, label_of(item, place.attribute));
        flags.push(is_as(found, is))?;
    }
    Ok(flags)
}

/// Puts the flags of some items last: whether a pattern matches the item's label. The only refusal is
/// want of memory.
fn put_flags(
    flags: &mut Flags,
    matching: &mut Matching,
    attribute: usize,
    items: &[Item],
) -> Result<(), Memory>
    ensures { OnOk result
        (flags.new ≡ flags.old ++ matched_row attribute items.now matching.old) }
{
    for item in items {
        let is = matching.matches(label_of(item, attribute));
        flags.push(is)?;
    }
    Ok(())
}

/// For each item whether a pattern matches its label. The only refusal is want of memory.
fn pattern_flags(
    alloc: Global,
    pattern: &Pattern,
    attribute: usize,
    items: &[Item],
) -> Result<Flags, Memory>
    ensures { IfOk result (λ flags. flags ≡ matched_row attribute items.now pattern.now) }
{
    let mut flags = Series::new(alloc);
    match pattern.matcher(alloc) {
        Ok(mut matching) => put_flags(&mut flags, &mut matching, attribute, items)?,
        Err(_) => return Err(Memory),
    }
    Ok(flags)
}

/// For each pattern and item whether the pattern matches the item's label. The only refusal is want of
/// memory.
fn all_flags(
    alloc: Global,
    patterns: &[Pattern],
    attribute: usize,
    items: &[Item],
) -> Result<Series<Flags>, Memory>
    ensures { IfOk result (λ rows. rows ≡ map (matched_row attribute items.now) patterns.now) }
{
    let mut rows = Series::new(alloc);
    for pattern in patterns {
        rows.push(pattern_flags(alloc, pattern, attribute, items)?)?;
    }
    Ok(rows)
}

/// For each item whether some pattern matches its label, or whether none does. The only refusal is want
/// of memory.
pub(crate) fn match_flags(
    alloc: Global,
    attribute: usize,
    found: bool,
    patterns: &[Pattern],
    items: &[Item],
) -> Result<Flags, Memory>
    ensures { IfOk result (λ flags. flags
        ≡ map (λ item. is_as found (is_matched patterns.now (label_of attribute item))) items.now) }
{
    let rows = all_flags(alloc, patterns, attribute, items)?;
    let mut flags = Series::new(alloc);
    for at in 0..items.len() {
        let is = any_at(rows.as_slice(), at);
        flags.push(is_as(found, is))?;
    }
    Ok(flags)
}
