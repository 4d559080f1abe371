//! What an edit has behind its key: the fields of each kind of edits, and how they are read.
ghost use Rattle.std.specs.Prelude.{◌≡◌};
ghost use Rattle.byte_forms.specs.Inner.Reading.{Gives};
ghost use Rattle.edit_code.specs.declared.kinds.Kind.TheVariants as kinds;
ghost use Rattle.edit_code.specs.Fields.{fields_form};

use crate::kinds::Kind;
use byte_forms::{ReadFault, Rest};
use emu_names::{ItemId, Text};
use level_items::{Annot, AnnotItem};
use std::alloc::Global;
use value_codes::Readable;

/// The fields of an edit behind its key, in their order.
#[derive(Drop)]
pub(crate) enum Fields {
    AddBundle {
        annot: Annot,
    },
    DropBundle,
    AddItem {
        level: Text,
        position: Option<u32>,
        item: AnnotItem,
    },
    RemoveItem {
        id: ItemId,
    },
    SetLabel {
        id: ItemId,
        attribute: Text,
        label: Text,
    },
    SetSegment {
        id: ItemId,
        start: u64,
        dur: u64,
    },
    MoveBoundary {
        id: ItemId,
        start: u64,
    },
    SetPoint {
        id: ItemId,
        at: u64,
    },
    Split {
        id: ItemId,
        new_id: ItemId,
        start: u64,
    },
    Merge {
        id: ItemId,
    },
    AddLink {
        from: ItemId,
        to: ItemId,
    },
    RemoveLink {
        from: ItemId,
        to: ItemId,
    },
    LinkTimes {
        upper: Text,
        lower: Text,
    },
    PutItem {
        level: Text,
        position: Option<u32>,
        item: AnnotItem,
    },
    PutLabel {
        id: ItemId,
        attribute: Text,
        label: Text,
    },
    PutLink {
        from: ItemId,
        to: ItemId,
        place: u32,
    },
}

/// Reads the annotation of a bundle that is added.
#[tactic(auto, unfolding(byte_forms::specs::Parts::imaged))]
fn read_add_bundle(alloc: Global, from: &mut Rest<'_>) -> Result<Fields, ReadFault>
    ensures { Gives result from.new ((fields_form kinds.AddBundle).read from.old) }
{
    let annot = Annot::read(alloc, from)?;
    Ok(Fields::AddBundle { annot })
}

/// Reads the level, the position and the item that is put there.
#[tactic(auto, unfolding(byte_forms::specs::Parts::imaged))]
fn read_add_item(alloc: Global, from: &mut Rest<'_>) -> Result<Fields, ReadFault>
    ensures { Gives result from.new ((fields_form kinds.AddItem).read from.old) }
{
    let (level, (position, item)) = Readable::read(alloc, from)?;
    Ok(Fields::AddItem {
        level,
        position,
        item,
    })
}

/// Reads the id of an item that is taken out.
#[tactic(auto, unfolding(byte_forms::specs::Parts::imaged))]
fn read_remove_item(alloc: Global, from: &mut Rest<'_>) -> Result<Fields, ReadFault>
    ensures { Gives result from.new ((fields_form kinds.RemoveItem).read from.old) }
{
    let id = ItemId::read(alloc, from)?;
    Ok(Fields::RemoveItem { id })
}

/// Reads an item's id, the name of an attribute and its label.
#[tactic(auto, unfolding(byte_forms::specs::Parts::imaged))]
fn read_set_label(alloc: Global, from: &mut Rest<'_>) -> Result<Fields, ReadFault>
    ensures { Gives result from.new ((fields_form kinds.SetLabel).read from.old) }
{
    let (id, (attribute, label)) = Readable::read(alloc, from)?;
    Ok(Fields::SetLabel {
        id,
        attribute,
        label,
    })
}

/// Reads a segment's id, and its new start and duration.
#[tactic(auto, unfolding(byte_forms::specs::Parts::imaged))]
fn read_set_segment(alloc: Global, from: &mut Rest<'_>) -> Result<Fields, ReadFault>
    ensures { Gives result from.new ((fields_form kinds.SetSegment).read from.old) }
{
    let (id, (start, dur)) = Readable::read(alloc, from)?;
    Ok(Fields::SetSegment { id, start, dur })
}

/// Reads the id of the segment before a boundary, and the boundary's new place.
#[tactic(auto, unfolding(byte_forms::specs::Parts::imaged))]
fn read_move_boundary(alloc: Global, from: &mut Rest<'_>) -> Result<Fields, ReadFault>
    ensures { Gives result from.new ((fields_form kinds.MoveBoundary).read from.old) }
{
    let (id, start) = Readable::read(alloc, from)?;
    Ok(Fields::MoveBoundary { id, start })
}

/// Reads a point's id, and its new sample.
#[tactic(auto, unfolding(byte_forms::specs::Parts::imaged))]
fn read_set_point(alloc: Global, from: &mut Rest<'_>) -> Result<Fields, ReadFault>
    ensures { Gives result from.new ((fields_form kinds.SetPoint).read from.old) }
{
    let (id, at) = Readable::read(alloc, from)?;
    Ok(Fields::SetPoint { id, at })
}

/// Reads the ids of both parts of a segment that is cut, and the place of the cut.
#[tactic(auto, unfolding(byte_forms::specs::Parts::imaged))]
fn read_split(alloc: Global, from: &mut Rest<'_>) -> Result<Fields, ReadFault>
    ensures { Gives result from.new ((fields_form kinds.Split).read from.old) }
{
    let (id, (new_id, start)) = Readable::read(alloc, from)?;
    Ok(Fields::Split { id, new_id, start })
}

/// Reads the id of a segment that is joined with the next one.
#[tactic(auto, unfolding(byte_forms::specs::Parts::imaged))]
fn read_merge(alloc: Global, from: &mut Rest<'_>) -> Result<Fields, ReadFault>
    ensures { Gives result from.new ((fields_form kinds.Merge).read from.old) }
{
    let id = ItemId::read(alloc, from)?;
    Ok(Fields::Merge { id })
}

/// Reads the ids of two items that are linked.
#[tactic(auto, unfolding(byte_forms::specs::Parts::imaged))]
fn read_add_link(alloc: Global, from: &mut Rest<'_>) -> Result<Fields, ReadFault>
    ensures { Gives result from.new ((fields_form kinds.AddLink).read from.old) }
{
    let (upper, lower) = Readable::read(alloc, from)?;
    Ok(Fields::AddLink {
        from: upper,
        to: lower,
    })
}

/// Reads the ids of two items whose link is taken out.
#[tactic(auto, unfolding(byte_forms::specs::Parts::imaged))]
fn read_remove_link(alloc: Global, from: &mut Rest<'_>) -> Result<Fields, ReadFault>
    ensures { Gives result from.new ((fields_form kinds.RemoveLink).read from.old) }
{
    let (upper, lower) = Readable::read(alloc, from)?;
    Ok(Fields::RemoveLink {
        from: upper,
        to: lower,
    })
}

/// Reads the names of two levels whose items are linked by their times.
#[tactic(auto, unfolding(byte_forms::specs::Parts::imaged))]
fn read_link_times(alloc: Global, from: &mut Rest<'_>) -> Result<Fields, ReadFault>
    ensures { Gives result from.new ((fields_form kinds.LinkTimes).read from.old) }
{
    let (upper, lower) = Readable::read(alloc, from)?;
    Ok(Fields::LinkTimes { upper, lower })
}

/// Reads the level, the position and the item that is put there with any labels.
#[tactic(auto, unfolding(byte_forms::specs::Parts::imaged))]
fn read_put_item(alloc: Global, from: &mut Rest<'_>) -> Result<Fields, ReadFault>
    ensures { Gives result from.new ((fields_form kinds.PutItem).read from.old) }
{
    let (level, (position, item)) = Readable::read(alloc, from)?;
    Ok(Fields::PutItem {
        level,
        position,
        item,
    })
}

/// Reads an item's id, the name of an attribute and any label.
#[tactic(auto, unfolding(byte_forms::specs::Parts::imaged))]
fn read_put_label(alloc: Global, from: &mut Rest<'_>) -> Result<Fields, ReadFault>
    ensures { Gives result from.new ((fields_form kinds.PutLabel).read from.old) }
{
    let (id, (attribute, label)) = Readable::read(alloc, from)?;
    Ok(Fields::PutLabel {
        id,
        attribute,
        label,
    })
}

/// Reads the ids of two items that are linked, and the place of the link.
#[tactic(auto, unfolding(byte_forms::specs::Parts::imaged))]
fn read_put_link(alloc: Global, from: &mut Rest<'_>) -> Result<Fields, ReadFault>
    ensures { Gives result from.new ((fields_form kinds.PutLink).read from.old) }
{
    let (upper, (lower, place)) = Readable::read(alloc, from)?;
    Ok(Fields::PutLink {
        from: upper,
        to: lower,
        place,
    })
}

/// Reads the fields of a kind of edits.
#[tactic(auto, unfolding(byte_forms::specs::Parts::just))]
pub(crate) fn read_fields(
    alloc: Global,
    kind: Kind,
    from: &mut Rest<'_>,
) -> Result<Fields, ReadFault>
    ensures { Gives result from.new ((fields_form kind).read from.old) }
{
    match kind {
        Kind::AddBundle => read_add_bundle(alloc, from),
        Kind::DropBundle => Ok(Fields::DropBundle),
        Kind::AddItem => read_add_item(alloc, from),
        Kind::RemoveItem => read_remove_item(alloc, from),
        Kind::SetLabel => read_set_label(alloc, from),
        Kind::SetSegment => read_set_segment(alloc, from),
        Kind::MoveBoundary => read_move_boundary(alloc, from),
        Kind::SetPoint => read_set_point(alloc, from),
        Kind::Split => read_split(alloc, from),
        Kind::Merge => read_merge(alloc, from),
        Kind::AddLink => read_add_link(alloc, from),
        Kind::RemoveLink => read_remove_link(alloc, from),
        Kind::LinkTimes => read_link_times(alloc, from),
        Kind::PutItem => read_put_item(alloc, from),
        Kind::PutLabel => read_put_label(alloc, from),
        Kind::PutLink => read_put_link(alloc, from),
    }
}
