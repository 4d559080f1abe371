//! Whether an annotation is the one that a bundle gives.
ghost use Rattle.std.specs.Prelude.{◌≡◌, [], true, length, map};
ghost use Rattle.bundle_state.specs.Built.{FitsConfig};
ghost use Rattle.bundle_state.specs.Linked.{pair_of};
ghost use Rattle.annot_json.specs.Given.{given, given_item, given_label, given_labels, given_level, given_levels};

use bundle_state::Bundle;
use db_config::{AttributeDef, Config, LevelDef};
use emu_names::{LevelKind, Text};
use level_items::{
    Annot, AnnotItem, AnnotLabel, AnnotLevel, AnnotLink, AnnotLinks, Item, LevelList, Time,
};
use link_graph::{Link, Links};

/// Whether two types of levels are the same.
pub(crate) fn is_same_kind(a: LevelKind, b: LevelKind) -> bool
    ensures { result ≡ true → a ≡ b }
{
    match (a, b) {
        (LevelKind::Item, LevelKind::Item) => true,
        (LevelKind::Segment, LevelKind::Segment) => true,
        (LevelKind::Event, LevelKind::Event) => true,
        _ => false,
    }
}

/// Whether two times are the same.
fn is_same_time(a: Time, b: Time) -> bool
    ensures { result ≡ true → a ≡ b }
{
    match (a, b) {
        (Time::NoTime, Time::NoTime) => true,
        (
            Time::Span { start, dur },
            Time::Span {
                start: from,
                dur: len,
            },
        ) => { start == from && dur == len }
        (Time::Point { at }, Time::Point { at: place }) => at == place,
        _ => false,
    }
}

/// Whether a list has no element.
pub(crate) fn is_none<T>(list: &[T]) -> bool
    ensures { result ≡ true → list.now ≡ [] }
{
    match list {
        [] => true,
        _ => false,
    }
}

/// Whether a label is given with the name of its attribute.
fn is_given_label(def: &AttributeDef, label: &Text, given: &AnnotLabel) -> bool
    ensures { result ≡ true → given.now ≡ given_label def.now label.now }
{
    given.value.as_str() == label.as_str() && given.name.as_str() == def.name.as_str()
}

/// Whether the labels of an item are given, in the order of the attributes.
fn are_given_labels(defs: &[AttributeDef], labels: &[Text], given: &[AnnotLabel]) -> bool
    ensures { result ≡ true → given.now ≡ given_labels defs.now labels.now }
{
    match defs {
        [] => is_none(given),
        [def, defs_after @ ..] => match labels {
            [] => is_none(given),
            [label, labels_after @ ..] => match given {
                [] => false,
                [first, given_after @ ..] => {
                    is_given_label(def, label, first)
                        && are_given_labels(defs_after, labels_after, given_after)
                }
            },
        },
    }
}

/// Whether an item is given, with all its labels.
fn is_given_item(defs: &[AttributeDef], item: &Item, given: &AnnotItem) -> bool
    ensures { result ≡ true → given.now ≡ given_item defs.now item.now }
{
    given.id.0 == item.id.0
        && is_same_time(given.time, item.time)
        && are_given_labels(defs, item.labels.as_slice(), given.labels.as_slice())
}

/// Whether the items of a level are given, in order.
#[tactic(auto, using(crate::proofs::Same::image_more, crate::proofs::Same::image_end))]
fn are_given_items(defs: &[AttributeDef], items: &[Item], given: &[AnnotItem]) -> bool
    ensures { result ≡ true → given.now ≡ map (given_item defs.now) items.now }
{
    if given.len() != items.len() {
        return false;
    }
    for place in 0..items.len() {
        if !is_given_item(defs, &items[place], &given[place]) {
            return false;
        }
    }
    true
}

/// Whether a level is given with its name and type.
fn is_given_level(def: &LevelDef, level: &LevelList, given: &AnnotLevel) -> bool
    ensures { result ≡ true → given.now ≡ given_level def.now level.now }
{
    is_same_kind(given.kind, def.kind)
        && given.name.as_str() == def.name.as_str()
        && are_given_items(
            def.attributes.as_slice(),
            level.as_slice(),
            given.items.as_slice(),
        )
}

/// Whether the levels are given, in the order of the configuration.
#[tactic(auto, using(crate::proofs::Same::level_more, crate::proofs::Same::levels_end))]
fn are_given_levels(defs: &[LevelDef], bundle: &Bundle, given: &[AnnotLevel]) -> bool
    requires { length bundle.now.levels ≡ length defs.now }
    ensures { result ≡ true → given.now ≡ given_levels defs.now bundle.now.levels }
{
    if given.len() != defs.len() {
        return false;
    }
    for place in 0..defs.len() {
        if !is_given_level(&defs[place], bundle.level(place), &given[place]) {
            return false;
        }
    }
    true
}

/// Whether a link is given.
fn is_given_link(link: &Link, given: &AnnotLink) -> bool
    ensures { result ≡ true → given.now ≡ pair_of link.now }
{
    given.from.0 == link.from.0 && given.to.0 == link.to.0
}

/// Whether the links are given, in order.
#[tactic(auto, using(crate::proofs::Same::image_end))]
fn are_given_links(links: &Links, given: &AnnotLinks) -> bool
    ensures { result ≡ true → given.now ≡ map pair_of links.now }
{
    if given.len() != links.len() {
        return false;
    }
    for place in 0..links.len() {
        let link = links.get(place);
        let other = given.get(place);
        if !is_given_link(link, other) {
            return false;
        }
    }
    true
}

/// Whether an annotation is the one that a bundle gives, which fits the configuration.
#[tactic(auto, using(crate::proofs::Same::level_count))]
pub(crate) fn is_given(config: &Config, bundle: &Bundle, annot: &Annot) -> bool
    requires { FitsConfig config.now bundle.now }
    ensures { result ≡ true → annot.now ≡ given config.now bundle.now }
{
    annot.rate == bundle.rate() as u64
        && annot.annotates.as_str() == bundle.annotates().as_str()
        && are_given_levels(
            config.parts().levels.as_slice(),
            bundle,
            annot.levels.as_slice(),
        )
        && are_given_links(bundle.links(), &annot.links)
}
