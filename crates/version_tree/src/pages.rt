//! Pages of bundles in the order of their keys: on which of them a key stands, and the pages with a bundle
//! put at its place or taken out.
ghost use Rattle.std.specs.Prelude.{◌≡◌, ◌≢◌, ◌≤◌, ◌<◌, ◌+◌, ◌-◌, true, false, suc, [], ◌∷◌, length, take, drop, IfOk, option_copied, Some, None};
ghost use Rattle.std.specs.List.{slice_get};
ghost use Rattle.std.specs.List.Sorted.{IsPartitionPoint};
ghost use Rattle.version_tree.specs.declared.sizes.TheConstants.{HALF, PAGE};
ghost use Rattle.version_tree.specs.declared.pages.Neighbour.TheVariants as Neighbour;
ghost use Rattle.version_tree.specs.Inner.Version.{indexed_with, others, put_indexed};
ghost use Rattle.version_tree.specs.Inner.Pages.{IsChangeOf, IsPage, KeepPages, bundles_behind, bundles_on, first_change, pages_behind, pages_of, starts_by};
ghost use Rattle.version_tree.specs.Inner.Under.{CanFitAll, fitted_of};
ghost use Rattle.version_tree.specs.Version.{bundles_of};
ghost use Rattle.version_tree.specs.Inner.Places.{AreOneLess, IsNeighbour, IsPageFor, bundles_but, has_room};

use crate::bundles::{bundle_of, only, under, with, without};
use crate::change::Change;
use crate::page::Page;
use crate::sizes::{HALF, PAGE};
use crate::splice::{joined, spliced};
use bundle_index::Indexed;
use db_config::Config;
use emu_names::{BundleKey, Memory, Series, Shared};
use std::alloc::Global;

/// The page with which the bundles of a page are joined.
#[derive(Clone, Copy, Debug, PartialEq, Eq)]
enum Neighbour {
    /// The page before it.
    Before,
    /// The page behind it.
    Behind,
    /// No page.
    Neither,
}

/// How many pages start by this key or before it, found by halving.
fn pages_started(pages: &[Shared<Page>], key: &BundleKey) -> usize
    requires { KeepPages pages.now }
    ensures within { result ≤ length pages.now }
    ensures splits { IsPartitionPoint (λ p. starts_by key.now p ≡ true)
        (λ p. starts_by key.now p ≡ false) pages.now result }
{
    pages.partition_point(|page| page.as_ref().starts_by(key))
}

/// The place of the page on which the bundle of a key stands, or would stand.
fn page_for(pages: &[Shared<Page>], key: &BundleKey) -> usize
    requires keeps { KeepPages pages.now }
    requires some { 0 < length pages.now }
    ensures { IsPageFor key.now pages.now result }
{
    pages_started(pages, key).saturating_sub(1)
}

/// The bundles of the page at a place.
fn page_at<'a>(pages: &'a [Shared<Page>], place: usize) -> &'a [Shared<Indexed>]
    requires { place < length pages.now }
    ensures { slice_get pages.now place ≡ Some result.now }
{
    pages[place].as_ref().as_slice()
}

/// The bundle of a key.
pub(crate) fn bundle_on<'a>(pages: &'a [Shared<Page>], key: &BundleKey) -> Option<&'a Indexed>
    requires { KeepPages pages.now }
    ensures { option_copied result ≡ indexed_with key.now (bundles_on pages.now) }
{
    if pages.is_empty() {
        return None;
    }
    let place = page_for(pages, key);
    bundle_of(page_at(pages, place), key)
}

/// Whether the page at a place, if there is one, has room for so many bundles more, up to 64.
fn has_room(pages: &[Shared<Page>], place: usize, count: usize) -> bool
    requires { count ≤ PAGE }
    ensures { result ≡ has_room count (slice_get pages.now place) }
{
    match pages.get(place) {
        Some(page) => page.as_ref().as_slice().len() + count <= HALF,
        None => false,
    }
}

/// The page with which so many bundles at a place are joined.
fn neighbour_for(pages: &[Shared<Page>], place: usize, count: usize) -> Neighbour
    requires place { place < length pages.now }
    requires few { count ≤ PAGE }
    ensures { IsNeighbour pages.now place count result }
{
    if place > 0 && has_room(pages, place - 1, count) {
        return Neighbour::Before;
    }
    if has_room(pages, place + 1, count) {
        return Neighbour::Behind;
    }
    Neighbour::Neither
}

/// The bundles of the page before a place, and these behind them, in the place of the two pages. The only
/// refusal is want of memory.
fn change_before(
    alloc: Global,
    pages: &[Shared<Page>],
    place: usize,
    left: &[Shared<Indexed>],
) -> Result<Change, Memory>
    requires keeps { KeepPages pages.now }
    requires size { AreOneLess pages.now place left.now }
    requires first { 0 < place }
    requires room { has_room (length left.now) (slice_get pages.now (place - 1)) ≡ true }
    ensures change { IfOk result (λ change. IsChangeOf pages.now change) }
    ensures bundles { IfOk result (λ change.
        bundles_behind pages.now change ≡ bundles_but pages.now place left.now) }
{
    let bundles = joined(alloc, page_at(pages, place - 1), left)?;
    Ok(Change {
        from: place - 1,
        to: place + 1,
        bundles,
    })
}

/// These bundles, and those of the page behind a place behind them, in the place of the two pages. The only
/// refusal is want of memory.
fn change_behind(
    alloc: Global,
    pages: &[Shared<Page>],
    place: usize,
    left: &[Shared<Indexed>],
) -> Result<Change, Memory>
    requires keeps { KeepPages pages.now }
    requires size { AreOneLess pages.now place left.now }
    requires room { has_room (length left.now) (slice_get pages.now (place + 1)) ≡ true }
    ensures change { IfOk result (λ change. IsChangeOf pages.now change) }
    ensures bundles { IfOk result (λ change.
        bundles_behind pages.now change ≡ bundles_but pages.now place left.now) }
{
    let bundles = joined(alloc, left, page_at(pages, place + 1))?;
    Ok(Change {
        from: place,
        to: place + 2,
        bundles,
    })
}

/// These bundles in the place of a page, with which no neighbour is joined.
fn change_alone(pages: &[Shared<Page>], place: usize, left: Series<Shared<Indexed>>) -> Change
    requires keeps { KeepPages pages.now }
    requires size { AreOneLess pages.now place left }
    requires alone { IsNeighbour pages.now place (length left) Neighbour.Neither }
    ensures change { IsChangeOf pages.now result }
    ensures bundles { bundles_behind pages.now result ≡ bundles_but pages.now place left }
{
    Change {
        from: place,
        to: place + 1,
        bundles: left,
    }
}

/// These bundles in the place of a page, or of that page and the neighbour with which they are joined. The
/// only refusal is want of memory.
fn change_at(
    alloc: Global,
    pages: &[Shared<Page>],
    place: usize,
    left: Series<Shared<Indexed>>,
) -> Result<Change, Memory>
    requires keeps { KeepPages pages.now }
    requires size { AreOneLess pages.now place left }
    ensures change { IfOk result (λ change. IsChangeOf pages.now change) }
    ensures bundles { IfOk result (λ change.
        bundles_behind pages.now change ≡ bundles_but pages.now place left) }
{
    match neighbour_for(pages, place, left.len()) {
        Neighbour::Before => change_before(alloc, pages, place, left.as_slice()),
        Neighbour::Behind => change_behind(alloc, pages, place, left.as_slice()),
        Neighbour::Neither => Ok(change_alone(pages, place, left)),
    }
}

/// The change that puts a bundle at its place, where there are no pages yet. The only refusal is want of
/// memory.
fn first_change(alloc: Global, new: Indexed) -> Result<Change, Memory>
    ensures { IfOk result (λ change. change ≡ first_change new) }
{
    let bundles = only(alloc, new)?;
    Ok(Change {
        from: 0,
        to: 0,
        bundles,
    })
}

/// The change that puts a bundle at its place. The only refusal is want of memory.
fn change_with(alloc: Global, pages: &[Shared<Page>], new: Indexed) -> Result<Change, Memory>
    requires { KeepPages pages.now }
    ensures change { IfOk result (λ change. IsChangeOf pages.now change) }
    ensures bundles { IfOk result (λ change.
        bundles_behind pages.now change ≡ put_indexed new (bundles_on pages.now)) }
{
    if pages.is_empty() {
        return first_change(alloc, new);
    }
    let place = page_for(pages, new.bundle().key());
    let bundles = with(alloc, page_at(pages, place), new)?;
    Ok(Change {
        from: place,
        to: place + 1,
        bundles,
    })
}

/// The change that takes the bundle of a key out, which is there. The only refusal is want of memory.
fn change_without(alloc: Global, pages: &[Shared<Page>], key: &BundleKey) -> Result<Change, Memory>
    requires keeps { KeepPages pages.now }
    requires there { indexed_with key.now (bundles_on pages.now) ≢ None }
    ensures change { IfOk result (λ change. IsChangeOf pages.now change) }
    ensures bundles { IfOk result (λ change.
        bundles_behind pages.now change ≡ others key.now (bundles_on pages.now)) }
{
    let place = page_for(pages, key);
    let left = without(alloc, page_at(pages, place), key)?;
    change_at(alloc, pages, place, left)
}

/// The page of these bundles. The only refusal is want of memory.
fn page_of(alloc: Global, bundles: &[Shared<Indexed>]) -> Result<Shared<Page>, Memory>
    requires { IsPage bundles.now }
    ensures { IfOk result (λ made. made ≡ bundles.now) }
{
    let bundles = joined(alloc, bundles, &[])?;
    Shared::new(alloc, Page::new(bundles))
}

/// The first half of bundles that one page cannot hold, and the others. The only refusal is want of memory.
fn two_pages(alloc: Global, bundles: &[Shared<Indexed>]) -> Result<Series<Shared<Page>>, Memory>
    requires many { PAGE < length bundles.now }
    requires few { length bundles.now ≤ suc PAGE }
    ensures { IfOk result (λ made.
        made ≡ take HALF bundles.now ∷ drop HALF bundles.now ∷ []) }
{
    let (first, second) = bundles.split_at(HALF);
    let first = page_of(alloc, first)?;
    let second = page_of(alloc, second)?;
    let mut made = Series::new(alloc);
    made.push(first)?;
    made.push(second)?;
    Ok(made)
}

/// The list of one page. The only refusal is want of memory.
fn one_page(alloc: Global, bundles: Series<Shared<Indexed>>) -> Result<Series<Shared<Page>>, Memory>
    requires { IsPage bundles }
    ensures { IfOk result (λ made. made ≡ bundles ∷ []) }
{
    let page = Shared::new(alloc, Page::new(bundles))?;
    let mut made = Series::new(alloc);
    made.push(page)?;
    Ok(made)
}

/// Bundles as pages: none for no bundle, one, or two where one cannot hold them. The only refusal is want
/// of memory.
fn cut(alloc: Global, bundles: Series<Shared<Indexed>>) -> Result<Series<Shared<Page>>, Memory>
    requires { length bundles ≤ suc PAGE }
    ensures { IfOk result (λ made. made ≡ pages_of bundles) }
{
    if bundles.is_empty() {
        return Ok(Series::new(alloc));
    }
    if bundles.len() <= PAGE {
        return one_page(alloc, bundles);
    }
    two_pages(alloc, bundles.as_slice())
}

/// The pages that a change leaves. The only refusal is want of memory.
fn changed(
    alloc: Global,
    pages: &[Shared<Page>],
    change: Change,
) -> Result<Series<Shared<Page>>, Memory>
    requires { IsChangeOf pages.now change }
    ensures { IfOk result (λ made. made ≡ pages_behind pages.now change) }
{
    let Change { from, to, bundles } = change;
    let new = cut(alloc, bundles)?;
    spliced(alloc, pages, from, to, new.as_slice())
}

/// The pages with this bundle in the place of that of its key. The only refusal is want of memory.
pub(crate) fn pages_with(
    alloc: Global,
    pages: &[Shared<Page>],
    new: Indexed,
) -> Result<Series<Shared<Page>>, Memory>
    requires { KeepPages pages.now }
    ensures bundles { IfOk result (λ made.
        bundles_on made ≡ put_indexed new (bundles_on pages.now)) }
    ensures keeps { IfOk result (λ made. KeepPages made) }
{
    let change = change_with(alloc, pages, new)?;
    changed(alloc, pages, change)
}

/// The pages but for the bundle of a key, which is there. The only refusal is want of memory.
pub(crate) fn pages_without(
    alloc: Global,
    pages: &[Shared<Page>],
    key: &BundleKey,
) -> Result<Series<Shared<Page>>, Memory>
    requires keeps { KeepPages pages.now }
    requires there { indexed_with key.now (bundles_on pages.now) ≢ None }
    ensures bundles { IfOk result (λ made.
        bundles_on made ≡ others key.now (bundles_on pages.now)) }
    ensures keeps { IfOk result (λ made. KeepPages made) }
{
    let change = change_without(alloc, pages, key)?;
    changed(alloc, pages, change)
}

/// The bundle at a place, counted from 0 through all pages.
pub(crate) fn bundle_at<'a>(pages: &'a [Shared<Page>], place: usize) -> &'a Indexed
    requires { place < length (bundles_on pages.now) }
    ensures { slice_get (bundles_on pages.now) place ≡ Some result.now }
{
    let mut left = place;
    for page in pages {
        let bundles = page.as_ref().as_slice();
        if left < bundles.len() {
            return bundles[left].as_ref();
        }
        left -= bundles.len();
    }
    unreachable!()
}

/// The pages with each of their bundles made to fit a configuration. The only refusal is want of memory.
#[tactic(auto, using(crate::proofs::Fitting::none_made, crate::proofs::Fitting::page_more, crate::proofs::Fitting::pages_whole, crate::proofs::Fitting::page_sized, crate::proofs::Fitting::pages_fitted))]
pub(crate) fn pages_under(
    alloc: Global,
    pages: &[Shared<Page>],
    config: &Config,
) -> Result<Series<Shared<Page>>, Memory>
    requires keeps { KeepPages pages.now }
    requires fit { CanFitAll config.now (bundles_on pages.now) }
    ensures bundles { IfOk result (λ made.
        bundles_of (bundles_on made) ≡ fitted_of config.now (bundles_on pages.now)) }
    ensures keeps { IfOk result KeepPages }
{
    let mut made = Series::new(alloc);
    'pages: for page in pages {
        let bundles = under(alloc, page.as_ref().as_slice(), config)?;
        let next = Shared::new(alloc, Page::new(bundles))?;
        made.push(next)?;
    }
    Ok(made)
}
