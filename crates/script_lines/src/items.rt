//! The edits of items of a bundle that is there, by the members beside the bundle's key.
ghost use Rattle.json_view.specs.Inner.Gives.{Gives};
ghost use Rattle.json_view.specs.Inner.Seen.{seen_at};
ghost use Rattle.script_lines.specs.Edits.{item_edit, remove_edit, label_edit, segment_edit, boundary_edit, point_edit, split_edit, merge_edit};

use crate::forms::{id_at, position_at, text_member, whole_member};
use crate::labels::{labels_in, time_at};
use edit_rules::Edit;
use emu_names::BundleKey;
use emu_names::limits::TOP_WHOLE;
use json_view::{View, ViewFault};
use level_items::AnnotItem;
use std::alloc::Global;

/// `add_item`: the level, the position where one is given, the id, the time and the labels.
#[tactic(auto, unfolding(crate::specs::Edits::item_edit))]
pub(crate) fn item_edit(alloc: Global, key: BundleKey, view: &View) -> Result<Edit, ViewFault>
    ensures { Gives (λ e. e) result (item_edit key (seen_at view.now)) }
{
    let level = text_member(alloc, view, "level")?;
    let position = position_at(view)?;
    let id = id_at(view, "id")?;
    let time = time_at(view)?;
    let labels = labels_in(alloc, view)?;
    let item = AnnotItem { id, time, labels };
    Ok(Edit::AddItem {
        key,
        level,
        position,
        item,
    })
}

/// `remove_item`: the id of the item.
#[tactic(auto, unfolding(crate::specs::Edits::remove_edit))]
pub(crate) fn remove_edit(key: BundleKey, view: &View) -> Result<Edit, ViewFault>
    ensures { Gives (λ e. e) result (remove_edit key (seen_at view.now)) }
{
    let id = id_at(view, "id")?;
    Ok(Edit::RemoveItem { key, id })
}

/// `set_label`: the id of the item, the attribute and the label.
#[tactic(auto, unfolding(crate::specs::Edits::label_edit))]
pub(crate) fn label_edit(alloc: Global, key: BundleKey, view: &View) -> Result<Edit, ViewFault>
    ensures { Gives (λ e. e) result (label_edit key (seen_at view.now)) }
{
    let id = id_at(view, "id")?;
    let attribute = text_member(alloc, view, "attribute")?;
    let label = text_member(alloc, view, "value")?;
    Ok(Edit::SetLabel {
        key,
        id,
        attribute,
        label,
    })
}

/// `set_segment`: the id of the segment, its first sample, and how many follow it.
#[tactic(auto, unfolding(crate::specs::Edits::segment_edit))]
pub(crate) fn segment_edit(key: BundleKey, view: &View) -> Result<Edit, ViewFault>
    ensures { Gives (λ e. e) result (segment_edit key (seen_at view.now)) }
{
    let id = id_at(view, "id")?;
    let start = whole_member(view, "sampleStart", TOP_WHOLE)?;
    let dur = whole_member(view, "sampleDur", TOP_WHOLE)?;
    Ok(Edit::SetSegment {
        key,
        id,
        start,
        dur,
    })
}

/// `move_boundary`: the id of the segment, and the first sample of the one behind it.
#[tactic(auto, unfolding(crate::specs::Edits::boundary_edit))]
pub(crate) fn boundary_edit(key: BundleKey, view: &View) -> Result<Edit, ViewFault>
    ensures { Gives (λ e. e) result (boundary_edit key (seen_at view.now)) }
{
    let id = id_at(view, "id")?;
    let start = whole_member(view, "sampleStart", TOP_WHOLE)?;
    Ok(Edit::MoveBoundary { key, id, start })
}

/// `set_point`: the id of the point, and its sample.
#[tactic(auto, unfolding(crate::specs::Edits::point_edit))]
pub(crate) fn point_edit(key: BundleKey, view: &View) -> Result<Edit, ViewFault>
    ensures { Gives (λ e. e) result (point_edit key (seen_at view.now)) }
{
    let id = id_at(view, "id")?;
    let at = whole_member(view, "samplePoint", TOP_WHOLE)?;
    Ok(Edit::SetPoint { key, id, at })
}

/// `split`: the id of the segment, the id of its second part, and the first sample of that.
#[tactic(auto, unfolding(crate::specs::Edits::split_edit))]
pub(crate) fn split_edit(key: BundleKey, view: &View) -> Result<Edit, ViewFault>
    ensures { Gives (λ e. e) result (split_edit key (seen_at view.now)) }
{
    let id = id_at(view, "id")?;
    let new_id = id_at(view, "newId")?;
    let start = whole_member(view, "sampleStart", TOP_WHOLE)?;
    Ok(Edit::Split {
        key,
        id,
        new_id,
        start,
    })
}

/// `merge`: the id of the segment that stays.
#[tactic(auto, unfolding(crate::specs::Edits::merge_edit))]
pub(crate) fn merge_edit(key: BundleKey, view: &View) -> Result<Edit, ViewFault>
    ensures { Gives (λ e. e) result (merge_edit key (seen_at view.now)) }
{
    let id = id_at(view, "id")?;
    Ok(Edit::Merge { key, id })
}
