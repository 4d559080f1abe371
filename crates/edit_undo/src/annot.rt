//! The annotation of a bundle: all its levels, all labels of its items, and its links.
ghost use Rattle.std.specs.Prelude.{◌≡◌, ◌++◌, ◌<◌, IfOk, OnOk, map};
ghost use Rattle.bundle_state.specs.Built.{FitsConfig};
ghost use Rattle.bundle_state.specs.Linked.{pair_of};
ghost use Rattle.annot_json.specs.Given.{given_label, given_labels, given_item, given_level, given_levels, given};

use bundle_state::Bundle;
use db_config::{AttributeDef, Config, LevelDef};
use emu_names::{Memory, Text};
use level_items::{
    Annot, AnnotItem, AnnotItems, AnnotLabel, AnnotLabels, AnnotLevel, AnnotLevels, AnnotLink,
    AnnotLinks, Item, LevelList,
};
use link_graph::Links;
use std::alloc::Global;

/// A label with the name of its attribute.
fn given_label(alloc: Global, def: &AttributeDef, label: &Text) -> Result<AnnotLabel, Memory>
    ensures { IfOk result (λ made. made ≡ given_label def.now label.now) }
{
    let name = Text::new(alloc, def.name.as_str())?;
    let value = label.copy(alloc)?;
    Ok(AnnotLabel { name, value })
}

/// Puts labels last, each with the name of its attribute.
#[tactic(auto, using(crate::proofs::Joins::put_before))]
fn put_labels(
    alloc: Global,
    made: &mut AnnotLabels,
    defs: &[AttributeDef],
    labels: &[Text],
) -> Result<(), Memory>
    ensures { OnOk result (made.new ≡ made.old ++ given_labels defs.now labels.now) }
{
    match defs {
        [] => Ok(()),
        [def, defs_after @ ..] => match labels {
            [] => Ok(()),
            [label, labels_after @ ..] => {
                made.push(given_label(alloc, def, label)?)?;
                put_labels(alloc, made, defs_after, labels_after)
            }
        },
    }
}

/// The labels of an item, in the order of the attributes.
pub(crate) fn given_labels(
    alloc: Global,
    defs: &[AttributeDef],
    labels: &[Text],
) -> Result<AnnotLabels, Memory>
    ensures { IfOk result (λ made. made ≡ given_labels defs.now labels.now) }
{
    let mut made = AnnotLabels::new(alloc);
    put_labels(alloc, &mut made, defs, labels)?;
    Ok(made)
}

/// An item with all its labels.
pub(crate) fn given_item(
    alloc: Global,
    defs: &[AttributeDef],
    item: &Item,
) -> Result<AnnotItem, Memory>
    ensures { IfOk result (λ made. made ≡ given_item defs.now item.now) }
{
    let labels = given_labels(alloc, defs, item.labels.as_slice())?;
    Ok(AnnotItem {
        id: item.id,
        time: item.time,
        labels,
    })
}

/// The items of a level.
#[tactic(auto, using(crate::proofs::Joins::map_more, crate::proofs::Joins::map_end))]
fn given_items(alloc: Global, defs: &[AttributeDef], items: &[Item]) -> Result<AnnotItems, Memory>
    ensures { IfOk result (λ made. made ≡ map (given_item defs.now) items.now) }
{
    let mut made = AnnotItems::new(alloc);
    for item in items {
        made.push(given_item(alloc, defs, item)?)?;
    }
    Ok(made)
}

/// A level with its name and type.
fn given_level(alloc: Global, def: &LevelDef, level: &LevelList) -> Result<AnnotLevel, Memory>
    ensures { IfOk result (λ made. made ≡ given_level def.now level.now) }
{
    let items = given_items(alloc, def.attributes.as_slice(), level.as_slice())?;
    let name = Text::new(alloc, def.name.as_str())?;
    Ok(AnnotLevel {
        name,
        kind: def.kind,
        items,
    })
}

/// The levels, in the order of the configuration.
#[tactic(auto, using(crate::proofs::Joins::level_there, crate::proofs::Joins::level_more, crate::proofs::Joins::levels_end))]
fn given_levels(alloc: Global, config: &Config, bundle: &Bundle) -> Result<AnnotLevels, Memory>
    requires { FitsConfig config.now bundle.now }
    ensures { IfOk result (λ made. made ≡ given_levels config.now.levels bundle.now.levels) }
{
    let defs = config.parts().levels.as_slice();
    let mut made = AnnotLevels::new(alloc);
    for place in 0..defs.len() {
        made.push(given_level(alloc, &defs[place], bundle.level(place))?)?;
    }
    Ok(made)
}

/// The links, in the order of the list.
#[tactic(auto, using(crate::proofs::Joins::pair_more, crate::proofs::Joins::map_end))]
fn given_links(alloc: Global, links: &Links) -> Result<AnnotLinks, Memory>
    ensures { IfOk result (λ made. made ≡ map pair_of links.now) }
{
    let mut made = AnnotLinks::new(alloc);
    for place in 0..links.len() {
        let link = links.get(place);
        made.push(AnnotLink {
            from: link.from,
            to: link.to,
        })?;
    }
    Ok(made)
}

/// The annotation of a bundle, which makes the bundle again. The only refusal is want of memory.
pub(crate) fn given(alloc: Global, config: &Config, bundle: &Bundle) -> Result<Annot, Memory>
    requires { FitsConfig config.now bundle.now }
    ensures { IfOk result (λ made. made ≡ given config.now bundle.now) }
{
    let levels = given_levels(alloc, config, bundle)?;
    let links = given_links(alloc, bundle.links())?;
    Ok(Annot {
        annotates: bundle.annotates().copy(alloc)?,
        rate: bundle.rate() as u64,
        levels,
        links,
    })
}
