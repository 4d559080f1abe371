//! Edits that put links back at their places, and that take links out.
ghost use Rattle.std.specs.Prelude.{◌≡◌, ◌<◌, ◌++◌, IfOk, OnOk, length, reverse, map};
ghost use Rattle.emu_names.specs.declared.limits.TheConstants.{BUNDLE_LINKS};
ghost use Rattle.bundle_edits.specs.Laws.{new_pairs};
ghost use Rattle.edit_undo.specs.Inverse.{links_again, pair_out};
ghost use Rattle.link_graph.specs.Link.{joins, names_item};
ghost use Rattle.edit_undo.specs.Inner.Links.{if_named, if_new, new_out, HaveTimes};

use crate::item_edits::one;
use crate::link_places::has_links;
use crate::reversed::reversed;
use bundle_edits::Edit;
use bundle_state::Bundle;
use emu_names::{BundleKey, ItemId, Memory, Series};
use level_items::AnnotLink;
use link_builder::timed_pairs;
use link_graph::{Link, Links};
use std::alloc::Global;

/// Puts the edit last that puts a link back at its place, where it names an item.
fn put_link(
    alloc: Global,
    made: &mut Series<Edit>,
    key: &BundleKey,
    id: ItemId,
    link: &Link,
    place: usize,
) -> Result<(), Memory>
    requires { place < BUNDLE_LINKS }
    ensures { OnOk result (made.new ≡ made.old ++ if_named key.now id (place, link.now)) }
{
    if link.from == id || link.to == id {
        let key = key.copy(alloc)?;
        made.push(Edit::PutLink {
            key,
            from: link.from,
            to: link.to,
            place: place as u32,
        })?;
    }
    Ok(())
}

/// The links that name an item, found by going over all.
#[tactic(auto, using(crate::proofs::Joins::link_step, crate::proofs::Joins::links_end))]
fn all_named(
    alloc: Global,
    key: &BundleKey,
    id: ItemId,
    links: &Links,
) -> Result<Series<Edit>, Memory>
    ensures { IfOk result (λ made. made ≡ links_again key.now (names_item id) links.now) }
{
    let mut made = Series::new(alloc);
    for place in 0..links.len() {
        put_link(alloc, &mut made, key, id, links.get(place), place)?;
    }
    Ok(made)
}

/// The links that name an item, each put back at the place that it had, places rising.
#[tactic(auto, using(crate::proofs::Places::none_again))]
pub(crate) fn links_of_item(
    alloc: Global,
    key: &BundleKey,
    id: ItemId,
    links: &Links,
) -> Result<Series<Edit>, Memory>
    ensures { IfOk result (λ made. made ≡ links_again key.now (names_item id) links.now) }
{
    if has_links(links, id) {
        return all_named(alloc, key, id, links);
    }
    Ok(Series::new(alloc))
}

/// The link of a pair put back at the place that it had.
#[tactic(auto, using(crate::proofs::Places::none_again, crate::proofs::Places::pair_again))]
pub(crate) fn link_of_pair(
    alloc: Global,
    key: &BundleKey,
    from: ItemId,
    to: ItemId,
    links: &Links,
) -> Result<Series<Edit>, Memory>
    ensures { IfOk result (λ made. made ≡ links_again key.now (joins from to) links.now) }
{
    let _count = links.len();
    match links.place(from, to) {
        Some(place) => {
            let link = links.get(place);
            let key = key.copy(alloc)?;
            one(
                alloc,
                Edit::PutLink {
                    key,
                    from: link.from,
                    to: link.to,
                    place: place as u32,
                },
            )
        }
        None => Ok(Series::new(alloc)),
    }
}

/// Puts the edit last that takes the link of a pair out, where it is none yet.
fn put_pair(
    alloc: Global,
    made: &mut Series<Edit>,
    key: &BundleKey,
    links: &Links,
    pair: &AnnotLink,
) -> Result<(), Memory>
    ensures { OnOk result (made.new ≡ made.old ++ if_new key.now links.now pair.now) }
{
    if !links.has(pair.from, pair.to) {
        let key = key.copy(alloc)?;
        made.push(Edit::RemoveLink {
            key,
            from: pair.from,
            to: pair.to,
        })?;
    }
    Ok(())
}

/// The links of those of some pairs that are none yet, taken out, the last one first.
#[tactic(auto, using(crate::proofs::Joins::pair_step, crate::proofs::Joins::pairs_end))]
fn pairs_out(
    alloc: Global,
    key: &BundleKey,
    links: &Links,
    pairs: &[AnnotLink],
) -> Result<Series<Edit>, Memory>
    ensures { IfOk result (λ made. made ≡ new_out key.now links.now pairs.now) }
{
    let mut first = Series::new(alloc);
    for pair in pairs {
        put_pair(alloc, &mut first, key, links, pair)?;
    }
    reversed(alloc, first)
}

/// The links that the times of two levels give and that are none yet, taken out, the last one first.
pub(crate) fn times_out(
    alloc: Global,
    bundle: &Bundle,
    key: &BundleKey,
    upper: usize,
    lower: usize,
) -> Result<Series<Edit>, Memory>
    requires upper { upper < length bundle.now.levels }
    requires lower { lower < length bundle.now.levels }
    requires times { HaveTimes bundle.now.levels upper lower }
    ensures { IfOk result (λ made. made ≡ map (pair_out key.now) (reverse (new_pairs bundle.now upper lower))) }
{
    let pairs = timed_pairs(alloc, bundle.level(upper), bundle.level(lower))?;
    pairs_out(alloc, key, bundle.links(), pairs.as_slice())
}
