//! Tests of labels: each wanted label is looked up once, and its number is compared with a whole column.
ghost use Rattle.std.specs.Prelude.{◌≡◌, ◌∷◌, [], length, map, OnOk, IsSome};
ghost use Rattle.db_config.specs.Lookups.{attribute_at};
ghost use Rattle.eql_model.specs.Labels.{is_wanted, stands_for};
ghost use Rattle.level_items.specs.Levels.{label_of, items_at};
ghost use Rattle.eql_columns.specs.Inner.Labels.{label_row, labels_row, AddsLabels, AreLong, HasColumn};
ghost use Rattle.eql_columns.specs.Inner.Rows.{IsUnsetFor};

use crate::groups::set_held;
use crate::matchers::Matchers;
use crate::rows::none_set;
use bundle_index::Indexed;
use db_config::{AttributePlace, Config, GroupValues};
use emu_names::{Memory, Text};
use lane_bits::{BitRow, eq_lanes, or_into};
use std::alloc::Global;

/// How many items there may be for each label of a group, that they are asked for their labels: with more of them it
/// costs less to look the labels up, and to compare each with the whole column.
const ITEMS_A_LABEL: usize = 4;

/// How many items there may be at most: the labels of those that have no key are compared with the whole group.
const ASKED_ITEMS: usize = 256;

/// Sets the bits of the items of a level whose label this is, in a row of which no bit is set.
fn set_label_row(indexed: &Indexed, place: AttributePlace, label: &str, row: &mut BitRow)
    requires column { HasColumn indexed.now.bundle place }
    requires unset { IsUnsetFor indexed.now.bundle place.level row.old }
    ensures { row.new ≡ label_row indexed.now.bundle place label.now }
{
    let column = indexed.column(place.level, place.attribute);
    let Some(number) = indexed.label_number(label) else {
        return;
    };
    eq_lanes(column, number, row);
}

/// Sets the bits of the items of a level whose label this is, beside those that are set. What a spare row has
/// is written over. A label that is not in the bundle is looked up, and costs no more.
fn add_label(
    indexed: &Indexed,
    place: AttributePlace,
    label: &str,
    spare: &mut BitRow,
    row: &mut BitRow,
)
    requires column { HasColumn indexed.now.bundle place }
    requires long { AreLong indexed.now.bundle place.level spare.old row.old }
    ensures long { AreLong indexed.now.bundle place.level spare.new row.new }
    ensures added { AddsLabels indexed.now.bundle place (label.now ∷ []) row.old row.new }
{
    let column = indexed.column(place.level, place.attribute);
    let Some(number) = indexed.label_number(label) else {
        return;
    };
    eq_lanes(column, number, spare);
    or_into(row, spare);
}

/// Sets the bits of the items of a level whose label is one of these, beside those that are set. What a spare
/// row has is written over.
fn add_labels(
    indexed: &Indexed,
    place: AttributePlace,
    labels: &[Text],
    spare: &mut BitRow,
    row: &mut BitRow,
)
    requires column { HasColumn indexed.now.bundle place }
    requires long { AreLong indexed.now.bundle place.level spare.old row.old }
    ensures long { AreLong indexed.now.bundle place.level spare.new row.new }
    ensures added { AddsLabels indexed.now.bundle place labels.now row.old row.new }
{
    for label in labels {
        add_label(indexed, place, label.as_str(), spare, row);
    }
}

/// Sets the bits of the items of a level whose label a written one stands for, beside those that are set. What a
/// spare row has is written over.
fn add_written(
    config: &Config,
    indexed: &Indexed,
    place: AttributePlace,
    written: &Text,
    spare: &mut BitRow,
    row: &mut BitRow,
)
    requires place { IsSome (attribute_at place config.now.levels) }
    requires column { HasColumn indexed.now.bundle place }
    requires long { AreLong indexed.now.bundle place.level spare.old row.old }
    ensures long { AreLong indexed.now.bundle place.level spare.new row.new }
    ensures added { AddsLabels indexed.now.bundle place
        (stands_for config.now place written.now) row.old row.new }
{
    match config.group(place, written.as_str()) {
        Some(values) => add_labels(indexed, place, values.as_slice(), spare, row),
        None => add_label(indexed, place, written.as_str(), spare, row),
    }
}

/// Sets the bits of the items of a level whose label is one of these, in a row of which no bit is set. The only
/// refusal is want of memory.
fn set_labels(
    alloc: Global,
    indexed: &Indexed,
    place: AttributePlace,
    labels: &[Text],
    row: &mut BitRow,
) -> Result<(), Memory>
    requires column { HasColumn indexed.now.bundle place }
    requires unset { IsUnsetFor indexed.now.bundle place.level row.old }
    ensures { OnOk result (row.new ≡ labels_row indexed.now.bundle place labels.now) }
{
    let mut spare = none_set(alloc, row.len())?;
    add_labels(indexed, place, labels, &mut spare, row);
    Ok(())
}

/// Whether the items are asked for their labels, and the labels are not looked up: there are few items for each label,
/// and the bundle keeps keys.
fn are_asked(indexed: &Indexed, column: &[u32], labels: &GroupValues) -> bool {
    !column.is_empty()
        && column.len() <= ASKED_ITEMS
        && column.len() / ITEMS_A_LABEL <= labels.len()
        && indexed.label_key(column[0]) != 0
}

/// Sets the bits of the items of a level whose label is in a group, in a row of which no bit is set. The only
/// refusal is want of memory.
fn set_group(
    alloc: Global,
    indexed: &Indexed,
    place: AttributePlace,
    labels: &GroupValues,
    matchers: &mut Matchers,
    row: &mut BitRow,
) -> Result<(), Memory>
    requires column { HasColumn indexed.now.bundle place }
    requires unset { IsUnsetFor indexed.now.bundle place.level row.old }
    ensures { OnOk result (row.new ≡ labels_row indexed.now.bundle place labels.now) }
{
    let column = indexed.column(place.level, place.attribute);
    if !are_asked(indexed, column, labels) {
        return set_labels(alloc, indexed, place, labels.as_slice(), row);
    }
    let items = eql_rows::items_at(indexed.bundle(), place.level);
    let group = matchers.group(alloc, labels)?;
    set_held(group, indexed, column, place.attribute, items, row);
    Ok(())
}

/// Sets the bits of the items of a level whose label the one written stands for, in a row of which no bit is set.
/// The only refusal is want of memory.
fn set_only_written(
    alloc: Global,
    config: &Config,
    indexed: &Indexed,
    place: AttributePlace,
    written: &Text,
    matchers: &mut Matchers,
    row: &mut BitRow,
) -> Result<(), Memory>
    requires place { IsSome (attribute_at place config.now.levels) }
    requires column { HasColumn indexed.now.bundle place }
    requires unset { IsUnsetFor indexed.now.bundle place.level row.old }
    ensures { OnOk result (row.new
        ≡ labels_row indexed.now.bundle place (stands_for config.now place written.now)) }
{
    match config.group(place, written.as_str()) {
        Some(values) => set_group(alloc, indexed, place, values, matchers, row),
        None => {
            set_label_row(indexed, place, written.as_str(), row);
            Ok(())
        }
    }
}

/// Sets the bits of the items of a level whose label is wanted, in a row of which no bit is set. The only
/// refusal is want of memory.
pub(crate) fn set_label_bits(
    alloc: Global,
    config: &Config,
    indexed: &Indexed,
    place: AttributePlace,
    written: &[Text],
    matchers: &mut Matchers,
    row: &mut BitRow,
) -> Result<(), Memory>
    requires place { IsSome (attribute_at place config.now.levels) }
    requires column { HasColumn indexed.now.bundle place }
    requires unset { IsUnsetFor indexed.now.bundle place.level row.old }
    ensures { OnOk result (row.new ≡ map (λ item. is_wanted config.now place written.now
        (label_of place.attribute item)) (items_at indexed.now.bundle.levels place.level)) }
{
    if written.len() == 1 {
        return set_only_written(alloc, config, indexed, place, &written[0], matchers, row);
    }
    let mut spare = none_set(alloc, row.len())?;
    for one in written {
        add_written(config, indexed, place, one, &mut spare, row);
    }
    Ok(())
}
