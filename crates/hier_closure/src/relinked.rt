//! The rows of links of a bundle that an edit made: those of the bundle before it, where the edit changed
//! neither the links nor the ids of the items.
ghost use Rattle.std.specs.Prelude.{◌≡◌, ◌<◌, true, false, get_or, length, IfOk};
ghost use Rattle.level_items.specs.Levels.{ids_of};
ghost use Rattle.hier_closure.specs.Dominance.{ids_at};
ghost use Rattle.hier_closure.specs.Inner.Linked.{AreAlike, AreLinkedIn, HaveSameIdsBut, HaveSameIdsOn};
ghost use Rattle.hier_closure.specs.Inner.Stands.{AreStandsIn};

use crate::linked::{LinkedLevels, linked_levels};
use crate::stands::{BundleStands, stands_in};
use bundle_state::Bundle;
use emu_names::{Memory, PlainData, Series};
use lane_bits::BitRow;
use level_items::Item;
use link_graph::Links;
use std::alloc::Global;

/// Whether these are the same links in the same order.
fn are_same_links(links: &Links, others: &Links) -> bool
    ensures { result ≡ true → others.now ≡ links.now }
{
    if links.len() != others.len() {
        return false;
    }
    for place in 0..links.len() {
        if *links.get(place) != *others.get(place) {
            return false;
        }
    }
    true
}

/// Whether these items have the same ids in the same order.
fn have_same_ids(items: &[Item], others: &[Item]) -> bool
    ensures { result ≡ true → ids_of others.now ≡ ids_of items.now }
{
    if items.len() != others.len() {
        return false;
    }
    for at in 0..items.len() {
        if items[at].id != others[at].id {
            return false;
        }
    }
    true
}

/// The items of a level; none where there is no such level.
fn items_of(bundle: &Bundle, level: usize) -> &[Item]
    ensures { ids_of result.now ≡ ids_at bundle.now.levels level }
{
    if level < bundle.level_count() {
        bundle.level(level).as_slice()
    } else {
        &[]
    }
}

/// Whether a level is not marked, or has items with the same ids in both bundles.
#[tactic(auto, using(crate::proofs::Stay::alike_unmarked))]
fn is_alike_at(old: &Bundle, bundle: &Bundle, marked: &BitRow, level: usize) -> bool
    requires { level < length marked.now }
    ensures { result ≡ true → get_or marked.now level false ≡ true
        → ids_at bundle.now.levels level ≡ ids_at old.now.levels level }
{
    if marked.get(level) {
        have_same_ids(items_of(old, level), items_of(bundle, level))
    } else {
        true
    }
}

/// Whether the marked levels have items with the same ids in both bundles.
#[tactic(auto, using(crate::proofs::Stay::alike_more, crate::proofs::Stay::alike_whole))]
fn are_alike_on(old: &Bundle, bundle: &Bundle, marked: &BitRow) -> bool
    ensures { result ≡ true → HaveSameIdsOn marked.now old.now.levels bundle.now.levels }
{
    for level in 0..marked.len() {
        if !is_alike_at(old, bundle, marked, level) {
            return false;
        }
    }
    true
}

/// Whether two bundles have the same links, and items with the same ids on the marked levels.
pub fn are_alike(old: &Bundle, bundle: &Bundle, marked: &BitRow) -> bool
    ensures { result ≡ true → AreAlike marked.now old.now bundle.now }
{
    if !are_same_links(old.links(), bundle.links()) {
        return false;
    }
    are_alike_on(old, bundle, marked)
}

/// The rows of links of a bundle, from those of a bundle with the same ids on all levels but the marked ones: where
/// the two are alike on these levels too, these rows are shared, and they are made anew else. The only refusal is
/// want of memory.
pub fn relinked_levels(
    alloc: Global,
    old: &Bundle,
    all: &Series<LinkedLevels>,
    bundle: &Bundle,
    marked: &BitRow,
    alike: bool,
) -> Result<Series<LinkedLevels>, Memory>
    requires linked { AreLinkedIn old.now all.now }
    requires same { HaveSameIdsBut marked.now old.now.levels bundle.now.levels }
    requires alike { alike ≡ true → AreAlike marked.now old.now bundle.now }
    ensures { IfOk result (λ made. AreLinkedIn bundle.now made) }
{
    let _items = bundle.item_count();
    if alike && !all.is_empty() {
        return all.copy(alloc);
    }
    linked_levels(alloc, bundle)
}

/// Where the items stand that the items of a bundle link to, from the places of a bundle with the same ids on all
/// levels but the marked ones: where there are as many levels, and the links and the ids of the marked ones are the
/// same too, they are shared, and looked up anew else. The only refusal is want of memory.
pub fn stands_again(
    alloc: Global,
    old: &Bundle,
    stands: &BundleStands,
    bundle: &Bundle,
    marked: &BitRow,
    alike: bool,
) -> Result<BundleStands, Memory>
    requires stands { AreStandsIn old.now stands.now }
    requires same { HaveSameIdsBut marked.now old.now.levels bundle.now.levels }
    requires alike { alike ≡ true → AreAlike marked.now old.now bundle.now }
    ensures { IfOk result (λ made. AreStandsIn bundle.now made) }
{
    let _items = bundle.item_count();
    if alike && bundle.level_count() == old.level_count() {
        return stands.copy(alloc);
    }
    stands_in(alloc, bundle)
}
