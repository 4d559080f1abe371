//! The parts of a bundle as JSON values.
ghost use Rattle.std.specs.Prelude.{◌≡◌, ◌++◌, IfOk, OnOk, map, nat_le, true};
ghost use Rattle.serde_json.specs.View.{view, members_view};
ghost use Rattle.bundle_state.specs.Linked.{pair_of};
ghost use Rattle.std.specs.List.{list_all};
ghost use Rattle.annot_json.specs.Inner.Laws.{has_read_id, has_read_ids};
ghost use Rattle.annot_json.specs.Given.{given_label, given_labels, given_item, given_level};
ghost use Rattle.annot_json.specs.Texts.{whole, list_data, kind_word, label_data, item_data, level_data, link_data};
ghost use Rattle.annot_json.specs.Inner.Texts.{with_time};

use db_config::{AttributeDef, LevelDef};
use emu_names::limits::TOP_ID;
use emu_names::{ItemId, LevelKind, Memory, Text};
use level_items::{Item, LevelList, Time};
use link_graph::{Link, Links};
use serde_json::{Map, Value, json};
use std::alloc::Global;

// The word of a level's type.
fn kind_word(kind: LevelKind) -> &'static str
    ensures { result.now ≡ kind_word kind }
{
    match kind {
        LevelKind::Item => "ITEM",
        LevelKind::Segment => "SEGMENT",
        LevelKind::Event => "EVENT",
    }
}

// A label.
fn label_value(alloc: Global, def: &AttributeDef, label: &Text) -> Result<Value, Memory>
    ensures { IfOk result (λ v. view v ≡ label_data (given_label def.now label.now)) }
{
    Ok(json!(in alloc; {"name": def.name.as_str(), "value": label.as_str()})?)
}

// Puts the labels of an item last.
#[tactic(auto, using(crate::proofs::Shown::put_before))]
fn put_labels(
    alloc: Global,
    values: &mut Vec<Value>,
    defs: &[AttributeDef],
    labels: &[Text],
) -> Result<(), Memory>
    ensures { OnOk result (map view values.new.items
        ≡ map view values.old.items ++ map label_data (given_labels defs.now labels.now)) }
{
    match defs {
        [] => Ok(()),
        [def, defs_after @ ..] => match labels {
            [] => Ok(()),
            [label, labels_after @ ..] => {
                values.push(label_value(alloc, def, label)?)?;
                put_labels(alloc, values, defs_after, labels_after)
            }
        },
    }
}

// The labels of an item.
fn labels_value(alloc: Global, defs: &[AttributeDef], labels: &[Text]) -> Result<Value, Memory>
    ensures { IfOk result (λ v.
        view v ≡ list_data (map label_data (given_labels defs.now labels.now))) }
{
    let mut values = Vec::new(alloc);
    put_labels(alloc, &mut values, defs, labels)?;
    Ok(Value::from(values))
}

// Puts the members of a time.
fn put_time(members: &mut Map<String, Value>, alloc: Global, time: Time) -> Result<(), Memory>
    ensures { OnOk result (members_view members.new.entries
        ≡ with_time time (members_view members.old.entries)) }
{
    match time {
        Time::NoTime => Ok(()),
        Time::Span { start, dur } => {
            serde_json::put(members, alloc, "sampleStart", Value::from(start))?;
            serde_json::put(members, alloc, "sampleDur", Value::from(dur))?;
            Ok(())
        }
        Time::Point { at } => {
            serde_json::put(members, alloc, "samplePoint", Value::from(at))?;
            Ok(())
        }
    }
}

// An id, which is a number that is read.
#[tactic(auto, using(crate::proofs::Shown::id_reads))]
fn id_value(id: ItemId) -> Value
    ensures value { view result ≡ whole id.0 }
    ensures read { nat_le id.0 TOP_ID ≡ true }
{
    prove!(id.0 as u64 <= TOP_ID);
    Value::from(id.0)
}

// An item.
#[tactic(auto, using(crate::proofs::Shown::timed))]
fn item_value(alloc: Global, defs: &[AttributeDef], item: &Item) -> Result<Value, Memory>
    ensures value { IfOk result (λ v. view v ≡ item_data (given_item defs.now item.now)) }
    ensures id { IfOk result (λ _. has_read_id item.now ≡ true) }
{
    let labels = labels_value(alloc, defs, item.labels.as_slice())?;
    let mut members = Map::new(alloc);
    serde_json::put(&mut members, alloc, "id", id_value(item.id))?;
    serde_json::put(&mut members, alloc, "labels", labels)?;
    put_time(&mut members, alloc, item.time)?;
    Ok(Value::from(members))
}

// The items of a level.
#[tactic(auto, using(crate::proofs::Shown::items_more))]
fn items_value(alloc: Global, defs: &[AttributeDef], items: &[Item]) -> Result<Value, Memory>
    ensures value { IfOk result (λ v.
        view v ≡ list_data (map item_data (map (given_item defs.now) items.now))) }
    ensures ids { IfOk result (λ _. list_all has_read_id items.now ≡ true) }
{
    let mut values = Vec::new(alloc);
    for item in items {
        let value = item_value(alloc, defs, item)?;
        values.push(value)?;
    }
    Ok(Value::from(values))
}

/// A level.
pub(crate) fn level_value(alloc: Global, def: &LevelDef, level: &LevelList) -> Result<Value, Memory>
    ensures value { IfOk result (λ v. view v ≡ level_data (given_level def.now level.now)) }
    ensures ids { IfOk result (λ _. has_read_ids level.now ≡ true) }
{
    let items = items_value(alloc, def.attributes.as_slice(), level.as_slice())?;
    let name = json!(in alloc; def.name.as_str())?;
    let word = json!(in alloc; kind_word(def.kind))?;
    let mut members = Map::new(alloc);
    serde_json::put(&mut members, alloc, "items", items)?;
    serde_json::put(&mut members, alloc, "name", name)?;
    serde_json::put(&mut members, alloc, "type", word)?;
    Ok(Value::from(members))
}

// A link.
fn link_value(alloc: Global, link: &Link) -> Result<Value, Memory>
    ensures { IfOk result (λ v. view v ≡ link_data (pair_of link.now)) }
{
    Ok(json!(in alloc; {"fromID": link.from.0, "toID": link.to.0})?)
}

/// The links, in the order of the list.
#[tactic(auto, using(crate::proofs::Shown::link_more, crate::proofs::Shown::links_shown))]
pub(crate) fn links_value(alloc: Global, links: &Links) -> Result<Value, Memory>
    ensures { IfOk result (λ v. view v ≡ list_data (map link_data (map pair_of links.now))) }
{
    let mut values = Vec::new(alloc);
    for place in 0..links.len() {
        let value = link_value(alloc, links.get(place))?;
        values.push(value)?;
    }
    Ok(Value::from(values))
}
