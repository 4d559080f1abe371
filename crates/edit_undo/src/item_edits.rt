//! Edits that put an item, its labels or its time back.
ghost use Rattle.std.specs.Prelude.{◌≡◌, ◌<◌, ◌++◌, ◌∷◌, [], IfOk, OnOk};
ghost use Rattle.emu_names.specs.declared.limits.TheConstants.{BUNDLE_ITEMS};
ghost use Rattle.level_items.specs.Levels.{label_of};
ghost use Rattle.edit_undo.specs.Inverse.{position_again, item_again, time_of_item};
ghost use Rattle.edit_undo.specs.Inner.Items.{placed, given_number, boundary_of, if_labelled, labels_from, cut_of};

use crate::annot::{given_item, given_labels};
use crate::link_edits::links_of_item;
use bundle_edits::Edit;
use bundle_state::Bundle;
use db_config::LevelDef;
use emu_names::{BundleKey, ItemId, LevelKind, Memory, Series, Text};
use level_items::{AnnotLabel, Item, Time};
use std::alloc::Global;

/// The list of one edit.
pub(crate) fn one(alloc: Global, edit: Edit) -> Result<Series<Edit>, Memory>
    ensures { IfOk result (λ made. made ≡ edit ∷ []) }
{
    match Vec::with_capacity(alloc, 1) {
        Ok(items) => {
            let mut made = Series::from_vec(items);
            made.push(edit)?;
            Ok(made)
        }
        Err(_) => {
            drop(edit);
            Err(Memory)
        }
    }
}

/// The position that an item is put back at, or none where its time gives the place.
fn position_again(kind: LevelKind, position: usize) -> Option<u32>
    requires { position < BUNDLE_ITEMS }
    ensures { result ≡ position_again kind position }
{
    match kind {
        LevelKind::Item => Some(position as u32),
        LevelKind::Segment | LevelKind::Event => None,
    }
}

/// An item put back with all its labels.
pub(crate) fn item_again(
    alloc: Global,
    key: &BundleKey,
    def: &LevelDef,
    position: usize,
    item: &Item,
) -> Result<Series<Edit>, Memory>
    requires { position < BUNDLE_ITEMS }
    ensures { IfOk result (λ made. made ≡ item_again key.now (placed def.now position item.now)) }
{
    let key = key.copy(alloc)?;
    let level = Text::new(alloc, def.name.as_str())?;
    let item = given_item(alloc, def.attributes.as_slice(), item)?;
    let position = position_again(def.kind, position);
    one(
        alloc,
        Edit::PutItem {
            key,
            level,
            position,
            item,
        },
    )
}

/// The label of an item for an attribute, by the attribute's number.
fn label_of(alloc: Global, item: &Item, number: usize) -> Result<Text, Memory>
    ensures { IfOk result (λ label. label ≡ label_of number item.now) }
{
    match item.labels.as_slice().get(number) {
        Some(label) => label.copy(alloc),
        None => Text::new(alloc, ""),
    }
}

/// The label that an item had for the attribute of a name, which has this number, if there is one.
pub(crate) fn label_again(
    alloc: Global,
    key: &BundleKey,
    attribute: &Text,
    number: Option<usize>,
    item: &Item,
) -> Result<Series<Edit>, Memory>
    ensures { IfOk result (λ made. made ≡ given_number key.now attribute.now item.now number) }
{
    let Some(number) = number else {
        return Ok(Series::new(alloc));
    };
    let key = key.copy(alloc)?;
    let attribute = attribute.copy(alloc)?;
    let label = label_of(alloc, item, number)?;
    one(
        alloc,
        Edit::PutLabel {
            key,
            id: item.id,
            attribute,
            label,
        },
    )
}

/// The time that an item had.
pub(crate) fn time_again(
    alloc: Global,
    key: &BundleKey,
    item: &Item,
) -> Result<Series<Edit>, Memory>
    ensures { IfOk result (λ made. made ≡ time_of_item key.now item.now.id item.now.time) }
{
    let key = key.copy(alloc)?;
    let id = item.id;
    match item.time {
        Time::NoTime => Ok(Series::new(alloc)),
        Time::Span { start, dur } => one(
            alloc,
            Edit::SetSegment {
                key,
                id,
                start,
                dur,
            },
        ),
        Time::Point { at } => one(alloc, Edit::SetPoint { key, id, at }),
    }
}

/// The boundary before an item put where the item began.
pub(crate) fn boundary_again(
    alloc: Global,
    key: &BundleKey,
    id: ItemId,
    item: &Item,
) -> Result<Series<Edit>, Memory>
    ensures { IfOk result (λ made. made ≡ boundary_of key.now id item.now) }
{
    let key = key.copy(alloc)?;
    let start = item.time.first_sample();
    one(alloc, Edit::MoveBoundary { key, id, start })
}

/// Puts the edit last that gives an item a label, unless that is empty.
fn put_label(
    alloc: Global,
    made: &mut Series<Edit>,
    key: &BundleKey,
    id: ItemId,
    label: &AnnotLabel,
) -> Result<(), Memory>
    ensures { OnOk result (made.new ≡ made.old ++ if_labelled key.now id label.now) }
{
    if !label.value.as_str().is_empty() {
        let key = key.copy(alloc)?;
        let attribute = label.name.copy(alloc)?;
        let label = label.value.copy(alloc)?;
        made.push(Edit::PutLabel {
            key,
            id,
            attribute,
            label,
        })?;
    }
    Ok(())
}

/// The labels of an item that are not empty, in the order of the attributes.
#[tactic(auto, using(crate::proofs::Joins::label_step, crate::proofs::Joins::labels_end))]
fn labels_again(
    alloc: Global,
    key: &BundleKey,
    id: ItemId,
    labels: &[AnnotLabel],
) -> Result<Series<Edit>, Memory>
    ensures { IfOk result (λ made. made ≡ labels_from key.now id labels.now) }
{
    let mut made = Series::new(alloc);
    for label in labels {
        put_label(alloc, &mut made, key, id, label)?;
    }
    Ok(made)
}

/// An item that was joined to another one, cut off again with its labels and links.
pub(crate) fn cut_again(
    alloc: Global,
    bundle: &Bundle,
    key: &BundleKey,
    id: ItemId,
    def: &LevelDef,
    item: &Item,
) -> Result<Series<Edit>, Memory>
    ensures { IfOk result (λ made. made ≡ cut_of bundle.now key.now id def.now item.now) }
{
    let own = key.copy(alloc)?;
    let start = item.time.first_sample();
    let new_id = item.id;
    let mut made = one(
        alloc,
        Edit::Split {
            key: own,
            id,
            new_id,
            start,
        },
    )?;
    let labels = given_labels(alloc, def.attributes.as_slice(), item.labels.as_slice())?;
    made.append(labels_again(alloc, key, new_id, labels.as_slice())?)?;
    made.append(links_of_item(alloc, key, new_id, bundle.links())?)?;
    Ok(made)
}
