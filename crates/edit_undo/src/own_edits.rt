//! What takes one edit of a bundle back.
ghost use Rattle.std.specs.Prelude.{◌≡◌, ◌<◌, ◌++◌, ◌∷◌, [], IfOk, Some};
ghost use Rattle.std.specs.List.{slice_get};
ghost use Rattle.emu_names.specs.declared.limits.TheConstants.{BUNDLE_ITEMS};
ghost use Rattle.link_graph.specs.Link.{names_item};
ghost use Rattle.bundle_state.specs.Built.{FitsConfig};
ghost use Rattle.bundle_edits.specs.declared.edit.Edit.TheVariants as edits;
ghost use Rattle.annot_json.specs.Given.{given};
ghost use Rattle.edit_undo.specs.Inverse.{if_there, placed_at, item_of, item_behind, links_again, own_inverse, pairs_out};
ghost use Rattle.edit_undo.specs.Inner.Items.{placed, again_by};
ghost use Rattle.edit_undo.specs.Inner.Turns.{HasTimes, NamedTimes};

use crate::annot::given;
use crate::item_edits::{boundary_again, cut_again, item_again, label_again, one, time_again};
use crate::link_edits::{link_of_pair, links_of_item, times_out};
use bundle_edits::Edit;
use bundle_state::Bundle;
use db_config::{Config, LevelDef};
use emu_names::{BundleKey, ItemId, Memory, Series, Text};
use level_items::Item;
use std::alloc::Global;

/// What an item gives that takes an edit back. It stands at this position of a level of this number.
fn again_by(
    alloc: Global,
    config: &Config,
    bundle: &Bundle,
    edit: &Edit,
    level: usize,
    def: &LevelDef,
    position: usize,
    item: &Item,
) -> Result<Series<Edit>, Memory>
    requires level { slice_get config.now.levels level ≡ Some def.now }
    requires position { position < BUNDLE_ITEMS }
    ensures { IfOk result (λ made. made ≡ again_by bundle.now edit.now (placed def.now position item.now)) }
{
    match edit {
        Edit::RemoveItem { key, .. } => item_again(alloc, key, def, position, item),
        Edit::SetLabel { key, attribute, .. } | Edit::PutLabel { key, attribute, .. } => {
            let number = config.attribute_in(level, attribute.as_str());
            label_again(alloc, key, attribute, number, item)
        }
        Edit::SetSegment { key, .. } | Edit::SetPoint { key, .. } => time_again(alloc, key, item),
        Edit::MoveBoundary { key, id, .. } => boundary_again(alloc, key, *id, item),
        Edit::Merge { key, id } => cut_again(alloc, bundle, key, *id, def, item),
        _ => Ok(Series::new(alloc)),
    }
}

/// What the item at a place gives, if there is one.
fn from_place(
    alloc: Global,
    config: &Config,
    bundle: &Bundle,
    edit: &Edit,
    level: usize,
    position: usize,
) -> Result<Series<Edit>, Memory>
    requires fits { FitsConfig config.now bundle.now }
    ensures { IfOk result (λ made.
        made ≡ if_there (again_by bundle.now edit.now) (placed_at config.now bundle.now (level, position))) }
{
    let _rules = bundle.item_count();
    if level >= config.level_count() {
        return Ok(Series::new(alloc));
    }
    let def = config.parts().levels.get(level);
    let list = bundle.level(level);
    if position >= list.len() {
        return Ok(Series::new(alloc));
    }
    let item = list.get(position);
    again_by(alloc, config, bundle, edit, level, def, position, item)
}

/// What the item with an id gives, if there is one.
fn from_item(
    alloc: Global,
    config: &Config,
    bundle: &Bundle,
    edit: &Edit,
    id: ItemId,
) -> Result<Series<Edit>, Memory>
    requires fits { FitsConfig config.now bundle.now }
    ensures { IfOk result (λ made.
        made ≡ if_there (again_by bundle.now edit.now) (item_of config.now bundle.now id)) }
{
    match bundle.place(id) {
        Some((level, position)) => from_place(alloc, config, bundle, edit, level, position),
        None => Ok(Series::new(alloc)),
    }
}

/// What the item behind the one with an id gives, if there is one.
fn from_behind(
    alloc: Global,
    config: &Config,
    bundle: &Bundle,
    edit: &Edit,
    id: ItemId,
) -> Result<Series<Edit>, Memory>
    requires fits { FitsConfig config.now bundle.now }
    ensures { IfOk result (λ made.
        made ≡ if_there (again_by bundle.now edit.now) (item_behind config.now bundle.now id)) }
{
    let _rules = bundle.item_count();
    match bundle.place(id) {
        Some((level, position)) => { from_place(alloc, config, bundle, edit, level, position + 1) }
        None => Ok(Series::new(alloc)),
    }
}

/// An item that is removed put back, and then its links.
fn of_removed(
    alloc: Global,
    config: &Config,
    bundle: &Bundle,
    edit: &Edit,
    key: &BundleKey,
    id: ItemId,
) -> Result<Series<Edit>, Memory>
    requires fits { FitsConfig config.now bundle.now }
    ensures { IfOk result (λ made.
        made ≡ if_there (again_by bundle.now edit.now) (item_of config.now bundle.now id)
        ++ links_again key.now (names_item id) bundle.now.links) }
{
    let mut made = from_item(alloc, config, bundle, edit, id)?;
    made.append(links_of_item(alloc, key, id, bundle.links())?)?;
    Ok(made)
}

/// The bundle that is dropped added again.
fn of_dropped(
    alloc: Global,
    config: &Config,
    bundle: &Bundle,
    key: &BundleKey,
) -> Result<Series<Edit>, Memory>
    requires fits { FitsConfig config.now bundle.now }
    ensures { IfOk result (λ made. made ≡ edits.AddBundle key.now (given config.now bundle.now) ∷ []) }
{
    let key = key.copy(alloc)?;
    let annot = given(alloc, config, bundle)?;
    one(alloc, Edit::AddBundle { key, annot })
}

/// The links that the times of two levels give, taken out.
fn of_times(
    alloc: Global,
    config: &Config,
    bundle: &Bundle,
    key: &BundleKey,
    upper: &Text,
    lower: &Text,
) -> Result<Series<Edit>, Memory>
    requires fits { FitsConfig config.now bundle.now }
    requires times { NamedTimes config.now bundle.now upper.now lower.now }
    ensures { IfOk result (λ made. made ≡ pairs_out config.now bundle.now key.now upper.now lower.now) }
{
    match config.level_named(upper.as_str()) {
        Some(one) => match config.level_named(lower.as_str()) {
            Some(other) => times_out(alloc, bundle, key, one, other),
            None => Ok(Series::new(alloc)),
        },
        None => Ok(Series::new(alloc)),
    }
}

/// What takes an edit back that changes one item or its links, or the bundle as a whole.
pub(crate) fn own_inverse(
    alloc: Global,
    config: &Config,
    bundle: &Bundle,
    edit: &Edit,
) -> Result<Series<Edit>, Memory>
    requires fits { FitsConfig config.now bundle.now }
    requires times { HasTimes config.now bundle.now edit.now }
    ensures { IfOk result (λ made. made ≡ own_inverse config.now bundle.now edit.now) }
{
    match edit {
        Edit::AddBundle { .. } => Ok(Series::new(alloc)),
        Edit::DropBundle { key } => of_dropped(alloc, config, bundle, key),
        Edit::RemoveItem { key, id } => of_removed(alloc, config, bundle, edit, key, *id),
        Edit::SetLabel { id, .. }
        | Edit::PutLabel { id, .. }
        | Edit::SetSegment { id, .. }
        | Edit::SetPoint { id, .. } => from_item(alloc, config, bundle, edit, *id),
        Edit::MoveBoundary { id, .. } | Edit::Merge { id, .. } => {
            from_behind(alloc, config, bundle, edit, *id)
        }
        Edit::RemoveLink { key, from, to } => {
            link_of_pair(alloc, key, *from, *to, bundle.links())
        }
        Edit::LinkTimes { key, upper, lower } => {
            of_times(alloc, config, bundle, key, upper, lower)
        }
        Edit::AddItem { key, item, .. } | Edit::PutItem { key, item, .. } => {
            let id = item.id;
            let key = key.copy(alloc)?;
            one(alloc, Edit::RemoveItem { key, id })
        }
        Edit::Split { key, id, .. } => {
            let key = key.copy(alloc)?;
            one(alloc, Edit::Merge { key, id: *id })
        }
        Edit::AddLink { key, from, to } | Edit::PutLink { key, from, to, .. } => {
            let key = key.copy(alloc)?;
            one(
                alloc,
                Edit::RemoveLink {
                    key,
                    from: *from,
                    to: *to,
                },
            )
        }
    }
}
