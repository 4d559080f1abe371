//! The lists of an annotation, read from a JSON value.
ghost use Rattle.std.specs.Prelude.{◌≡◌, codes};
ghost use Rattle.json_view.specs.Inner.Gives.{Gives};
ghost use Rattle.json_view.specs.Lists.{each_of};
ghost use Rattle.json_view.specs.Inner.Seen.{seen_at};
ghost use Rattle.config_json.specs.Forms.{text_member};
ghost use Rattle.annot_json.specs.Read.{label_in, labels_in, span_in, point_in, time_in, item_in, items_in, level_in, levels_in, link_in, links_in};

use crate::forms::{
    level_kind_at, put_last, shared_with, text_member, text_member_like, whole_member,
    with_capacity,
};
use crate::known::{known_value, last_name};
use emu_names::limits::{TOP_ID, TOP_WHOLE};
use emu_names::{ItemId, LevelKind, Text};
use json_view::{View, ViewFault};
use level_items::{
    AnnotItem, AnnotItems, AnnotLabel, AnnotLabels, AnnotLevel, AnnotLevels, AnnotLink, AnnotLinks,
    Time,
};
use std::alloc::Global;

// A label at this place among those of its item, which shares the texts of labels at the same place of
// items before it, where they are the same.
#[tactic(auto, unfolding(crate::specs::Read::label_in))]
fn label_in(
    alloc: Global,
    view: &View,
    before: &[AnnotItem],
    place: usize,
) -> Result<AnnotLabel, ViewFault>
    ensures { Gives (λ l. l) result (label_in (seen_at view.now)) }
{
    view.object()?;
    let name = text_member_like(alloc, view, "name", last_name(before, place))?;
    let value = value_member(alloc, view, before, place)?;
    Ok(AnnotLabel { name, value })
}

// The value of a label at this place, which is shared with that of an item before it where they are the
// same.
#[tactic(auto, unfolding(config_json::specs::Forms::text_member))]
fn value_member(
    alloc: Global,
    view: &View,
    before: &[AnnotItem],
    place: usize,
) -> Result<Text, ViewFault>
    ensures { Gives (λ t. t) result (text_member (codes "value") (seen_at view.now)) }
{
    let text = view.text_member("value")?;
    shared_with(alloc, text, known_value(before, place, text))
}

// The labels of a list, which share the texts of the items before theirs, where they are the same.
#[tactic(auto, using(json_view::proofs::Each::each_steps), unfolding(json_view::specs::Lists::each_of))]
fn each_label(alloc: Global, view: &View, before: &[AnnotItem]) -> Result<AnnotLabels, ViewFault>
    ensures { Gives (λ l. l) result (each_of label_in (seen_at view.now)) }
{
    let count = view.list_len()?;
    let mut labels = with_capacity(alloc, count)?;
    for place in 0..count {
        let part = view.at(place)?;
        match label_in(alloc, &part, before, place) {
            Ok(label) => put_last(&mut labels, label)?,
            Err(fault) => return Err(fault),
        }
    }
    Ok(labels)
}

// The member `labels`, which may be missing.
#[tactic(auto, unfolding(crate::specs::Read::labels_in))]
fn labels_in(alloc: Global, view: &View, before: &[AnnotItem]) -> Result<AnnotLabels, ViewFault>
    ensures { Gives (λ l. l) result (labels_in (seen_at view.now)) }
{
    match view.optional("labels")? {
        Some(part) => each_label(alloc, &part, before),
        None => Ok(AnnotLabels::new(alloc)),
    }
}

// The time of a segment.
#[tactic(auto, unfolding(crate::specs::Read::span_in))]
fn span_in(view: &View) -> Result<Time, ViewFault>
    ensures { Gives (λ t. t) result (span_in (seen_at view.now)) }
{
    let start = whole_member(view, "sampleStart", TOP_WHOLE)?;
    let dur = whole_member(view, "sampleDur", TOP_WHOLE)?;
    Ok(Time::Span { start, dur })
}

// The time of a point.
#[tactic(auto, unfolding(crate::specs::Read::point_in))]
fn point_in(view: &View) -> Result<Time, ViewFault>
    ensures { Gives (λ t. t) result (point_in (seen_at view.now)) }
{
    let at = whole_member(view, "samplePoint", TOP_WHOLE)?;
    Ok(Time::Point { at })
}

// The time of an item of a level of this kind.
fn time_in(view: &View, kind: LevelKind) -> Result<Time, ViewFault>
    ensures { Gives (λ t. t) result (time_in kind (seen_at view.now)) }
{
    match kind {
        LevelKind::Item => Ok(Time::NoTime),
        LevelKind::Segment => span_in(view),
        LevelKind::Event => point_in(view),
    }
}

// An item of a level of this kind, behind these items of the level.
#[tactic(auto, unfolding(crate::specs::Read::item_in))]
fn item_in(
    alloc: Global,
    view: &View,
    kind: LevelKind,
    before: &[AnnotItem],
) -> Result<AnnotItem, ViewFault>
    ensures { Gives (λ i. i) result (item_in kind (seen_at view.now)) }
{
    view.object()?;
    let id = ItemId(whole_member(view, "id", TOP_ID)? as u32);
    let labels = labels_in(alloc, view, before)?;
    let time = time_in(view, kind)?;
    Ok(AnnotItem { id, time, labels })
}

// The items of a list, on a level of this kind.
#[tactic(auto, using(json_view::proofs::Each::each_steps), unfolding(json_view::specs::Lists::each_of))]
fn each_item(alloc: Global, view: &View, kind: LevelKind) -> Result<AnnotItems, ViewFault>
    ensures { Gives (λ i. i) result (each_of (item_in kind) (seen_at view.now)) }
{
    let count = view.list_len()?;
    let mut items = with_capacity(alloc, count)?;
    for place in 0..count {
        let part = view.at(place)?;
        match item_in(alloc, &part, kind, items.as_slice()) {
            Ok(item) => put_last(&mut items, item)?,
            Err(fault) => return Err(fault),
        }
    }
    Ok(items)
}

// The member `items`, which may be missing.
#[tactic(auto, unfolding(crate::specs::Read::items_in))]
fn items_in(alloc: Global, view: &View, kind: LevelKind) -> Result<AnnotItems, ViewFault>
    ensures { Gives (λ i. i) result (items_in kind (seen_at view.now)) }
{
    match view.optional("items")? {
        Some(part) => each_item(alloc, &part, kind),
        None => Ok(AnnotItems::new(alloc)),
    }
}

// A level.
#[tactic(auto, unfolding(crate::specs::Read::level_in))]
fn level_in(alloc: Global, view: &View) -> Result<AnnotLevel, ViewFault>
    ensures { Gives (λ l. l) result (level_in (seen_at view.now)) }
{
    view.object()?;
    let name = text_member(alloc, view, "name")?;
    let kind = level_kind_at(view)?;
    let items = items_in(alloc, view, kind)?;
    Ok(AnnotLevel { name, kind, items })
}

// The levels of a list.
#[tactic(auto, using(json_view::proofs::Each::each_steps), unfolding(json_view::specs::Lists::each_of))]
fn each_level(alloc: Global, view: &View) -> Result<AnnotLevels, ViewFault>
    ensures { Gives (λ l. l) result (each_of level_in (seen_at view.now)) }
{
    let count = view.list_len()?;
    let mut levels = with_capacity(alloc, count)?;
    for place in 0..count {
        let part = view.at(place)?;
        match level_in(alloc, &part) {
            Ok(level) => put_last(&mut levels, level)?,
            Err(fault) => return Err(fault),
        }
    }
    Ok(levels)
}

/// The member `levels`, which may be missing.
#[tactic(auto, unfolding(crate::specs::Read::levels_in))]
pub(crate) fn levels_in(alloc: Global, view: &View) -> Result<AnnotLevels, ViewFault>
    ensures { Gives (λ l. l) result (levels_in (seen_at view.now)) }
{
    match view.optional("levels")? {
        Some(part) => each_level(alloc, &part),
        None => Ok(AnnotLevels::new(alloc)),
    }
}

// A link.
#[tactic(auto, unfolding(crate::specs::Read::link_in))]
fn link_in(view: &View) -> Result<AnnotLink, ViewFault>
    ensures { Gives (λ l. l) result (link_in (seen_at view.now)) }
{
    view.object()?;
    let from = ItemId(whole_member(view, "fromID", TOP_ID)? as u32);
    let to = ItemId(whole_member(view, "toID", TOP_ID)? as u32);
    Ok(AnnotLink { from, to })
}

// The links of a list.
#[tactic(auto, using(json_view::proofs::Each::each_steps), unfolding(json_view::specs::Lists::each_of))]
fn each_link(alloc: Global, view: &View) -> Result<AnnotLinks, ViewFault>
    ensures { Gives (λ l. l) result (each_of link_in (seen_at view.now)) }
{
    let count = view.list_len()?;
    let mut links = with_capacity(alloc, count)?;
    for place in 0..count {
        let part = view.at(place)?;
        match link_in(&part) {
            Ok(link) => put_last(&mut links, link)?,
            Err(fault) => return Err(fault),
        }
    }
    Ok(links)
}

/// The member `links`, which may be missing.
#[tactic(auto, unfolding(crate::specs::Read::links_in))]
pub(crate) fn links_in(alloc: Global, view: &View) -> Result<AnnotLinks, ViewFault>
    ensures { Gives (λ l. l) result (links_in (seen_at view.now)) }
{
    match view.optional("links")? {
        Some(part) => each_link(alloc, &part),
        None => Ok(AnnotLinks::new(alloc)),
    }
}
