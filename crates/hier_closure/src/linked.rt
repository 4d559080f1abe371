//! The rows of links between two levels, as a bundle keeps them where they take little room: between levels of
//! which one is right above the other they are its rows of dominance.
ghost use Rattle.std.specs.Prelude.{◌≡◌, ◌≢◌, ◌<◌, ◌+◌, true, false, [], take, replicate, length, get_or, slice_get, slice_set, IfOk, IfNone, IfSome, IsSome, OnOk, Some};
ghost use Rattle.bundle_state.specs.Bundle.{BundleParts, level_of_id};
ghost use Rattle.bundle_state.specs.Linked.{IsBetween};
ghost use Rattle.bundle_state.specs.Valid.{KeepsBundleRules};
ghost use Rattle.hier_closure.specs.Dominance.{ids_at};
ghost use Rattle.hier_closure.specs.Inner.Linked.{AreLinkedIn, LeadsAside, linked_of};

use crate::children::place_from;
use crate::closure::Closure;
use crate::levels::Rows;
use bundle_state::Bundle;
use emu_names::{ItemId, Memory, PlainData, Series};
use lane_bits::SpanRow;
use link_graph::Link;
use std::alloc::Global;

/// How many places the rows of two levels may hold for each link of the bundle.
const PLACES_PER_LINK: usize = 256;

/// How many places the rows of two levels may hold beside these.
const PLACES_BESIDE: usize = 4_096;

/// What a link hands on to the next one.
#[derive(Clone, Copy)]
struct Pass {
    /// At which position of the upper level an item is looked for first.
    upper: usize,
    /// At which position of the lower level an item is looked for first.
    lower: usize,
    /// How many places the rows hold so far.
    places: usize,
}

/// Two levels of a bundle, and for each item of the upper one, in order, which items of the lower one it
/// links to.
#[derive(Drop)]
pub struct LinkedLevels {
    /// The number of the upper level.
    pub upper: usize,
    /// The number of the lower level.
    pub lower: usize,
    /// A row for each item of the upper level, which copies share.
    pub closure: Closure,
}

impl PlainData for LinkedLevels {
    fn copy(&self, alloc: Global) -> Result<LinkedLevels, Memory> {
        let closure = self.closure.copy(alloc)?;
        Ok(LinkedLevels {
            upper: self.upper,
            lower: self.lower,
            closure,
        })
    }
}

/// A row of which no bit is set. The only refusal is want of memory.
pub(crate) fn unset_row(alloc: Global, width: usize) -> Result<SpanRow, Memory>
    ensures { IfOk result (λ row. row ≡ replicate width false) }
{
    match SpanRow::new(alloc, width) {
        Ok(row) => Ok(row),
        Err(_) => Err(Memory),
    }
}

/// Rows of which no bit is set. The only refusal is want of memory.
fn unset_rows(alloc: Global, count: usize, width: usize) -> Result<Vec<SpanRow>, Memory>
    ensures { IfOk result (λ rows. rows.items ≡ replicate count (replicate width false)) }
{
    let mut rows = Vec::with_capacity(alloc, count)?;
    for _ in 0..count {
        rows.push(unset_row(alloc, width)?)?;
    }
    Ok(rows)
}

/// Sets a bit of a row, and answers how many places more it holds then. The only refusal is want of memory.
fn set_in(alloc: Global, row: &mut SpanRow, at: usize) -> Result<usize, Memory>
    requires { at < length row.old }
    ensures { OnOk result (row.new ≡ slice_set row.old at true) }
{
    let held = row.room();
    match row.set(alloc, at) {
        Ok(()) => Ok(row.room().saturating_sub(held)),
        Err(_) => Err(Memory),
    }
}

/// Sets a bit of one of some rows, and answers how many places more the row holds then. The only refusal is want of
/// memory.
fn set_bit(alloc: Global, rows: &mut [SpanRow], row: usize, at: usize) -> Result<usize, Memory>
    requires row { row < length rows.old }
    requires at { at < length (get_or rows.old row []) }
    ensures { OnOk result
        (rows.new ≡ slice_set rows.old row (slice_set (get_or rows.old row []) at true)) }
{
    set_in(alloc, &mut rows[row], at)
}

/// The position of an item of the bundle, where it is one of this level. It is looked for at a position of
/// the level first.
fn position_on(bundle: &Bundle, level: usize, near: usize, id: ItemId) -> Option<usize>
    requires rules { KeepsBundleRules bundle.now }
    requires there { IsSome (level_of_id bundle.now.levels id.0) }
    ensures there { IfSome result
        (λ position. slice_get (ids_at bundle.now.levels level) position ≡ Some id.0) }
    ensures none { IfNone result (level_of_id bundle.now.levels id.0 ≢ Some level) }
{
    match place_from(bundle, (level, near), id) {
        Some((on, position)) => { if on == level { Some(position) } else { None } }
        None => None,
    }
}

/// Whether a link of the bundle may lead from the one level to the other, as its definition says.
fn may_lead(bundle: &Bundle, upper: usize, lower: usize, link: &Link) -> bool
    ensures { result ≡ false → IsBetween bundle.now.definitions (level_of_id bundle.now.levels) link.now
        → LeadsAside bundle.now upper lower link.now }
{
    match bundle.definition(link.definition) {
        Some(def) => def.upper as usize == upper && def.lower as usize == lower,
        None => true,
    }
}

/// Sets the bit of the link at a place of the bundle's list, if it leads from the one level to the other. The only
/// refusal is want of memory.
fn add_link(
    alloc: Global,
    rows: &mut [SpanRow],
    bundle: &Bundle,
    upper: usize,
    lower: usize,
    pass: Pass,
    place: usize,
) -> Result<Pass, Memory>
    requires rules { KeepsBundleRules bundle.now }
    requires place { place < length bundle.now.links }
    requires made { rows.old ≡ linked_of bundle.now upper lower (take place bundle.now.links) }
    ensures { OnOk result
        (rows.new ≡ linked_of bundle.now upper lower (take (place + 1) bundle.now.links)) }
{
    let link = bundle.links().get(place);
    if !may_lead(bundle, upper, lower, link) {
        return Ok(pass);
    }
    match position_on(bundle, upper, pass.upper, link.from) {
        None => Ok(pass),
        Some(row) => match position_on(bundle, lower, pass.lower, link.to) {
            None => Ok(pass),
            Some(at) => {
                let more = set_bit(alloc, rows, row, at)?;
                Ok(Pass {
                    upper: row,
                    lower: at.saturating_add(1),
                    places: pass.places.saturating_add(more),
                })
            }
        },
    }
}

/// The rows of links between two levels; none where they would take too much room, since they have links to items
/// far apart. The only refusal is want of memory.
fn rows_of(
    alloc: Global,
    bundle: &Bundle,
    upper: usize,
    lower: usize,
) -> Result<Option<Rows>, Memory>
    requires rules { KeepsBundleRules bundle.now }
    requires upper { upper < length bundle.now.levels }
    requires lower { lower < length bundle.now.levels }
    ensures { IfOk result (λ found. IfSome found
        (λ rows. rows ≡ linked_of bundle.now upper lower bundle.now.links)) }
{
    let count = bundle.level(upper).len();
    let width = bundle.level(lower).len();
    let links = bundle.links().len();
    let most = links
        .saturating_mul(PLACES_PER_LINK)
        .saturating_add(PLACES_BESIDE);
    let mut rows = unset_rows(alloc, count, width)?;
    let mut pass = Pass {
        upper: 0,
        lower: 0,
        places: 0,
    };
    for place in 0..links {
        pass = add_link(alloc, &mut rows, bundle, upper, lower, pass, place)?;
        if pass.places > most {
            return Ok(None);
        }
    }
    Ok(Some(Series::from_vec(rows)))
}

/// Puts the rows of links between two levels last, unless rows of the two are there, they would take too much room,
/// or there is no such level. The only refusal is want of memory.
fn put_levels(
    alloc: Global,
    bundle: &Bundle,
    all: &mut Series<LinkedLevels>,
    upper: usize,
    lower: usize,
) -> Result<(), Memory>
    requires { AreLinkedIn bundle.now all.old }
    ensures { OnOk result (AreLinkedIn bundle.now all.new) }
{
    if upper >= bundle.level_count() || lower >= bundle.level_count() {
        return Ok(());
    }
    if rows_at(all.as_slice(), upper, lower).is_some() {
        return Ok(());
    }
    let Some(rows) = rows_of(alloc, bundle, upper, lower)? else {
        return Ok(());
    };
    let closure = Closure::of(alloc, rows)?;
    all.push(LinkedLevels {
        upper,
        lower,
        closure,
    })
}

/// Puts the rows of links between the levels of a link's definition last, unless the number of the definition is
/// among those that were tried. The only refusal is want of memory.
fn put_levels_of(
    alloc: Global,
    bundle: &Bundle,
    all: &mut Series<LinkedLevels>,
    tried: &mut Series<u32>,
    link: &Link,
) -> Result<(), Memory>
    requires { AreLinkedIn bundle.now all.old }
    ensures { OnOk result (AreLinkedIn bundle.now all.new) }
{
    if tried.as_slice().contains(&link.definition) {
        return Ok(());
    }
    tried.push(link.definition)?;
    match bundle.definition(link.definition) {
        Some(def) => put_levels(alloc, bundle, all, def.upper as usize, def.lower as usize),
        None => Ok(()),
    }
}

/// The rows of links of a bundle, for each two levels between which a link leads; none of two whose items are linked
/// so far apart that their rows would take too much room. The only refusal is want of memory.
pub fn linked_levels(alloc: Global, bundle: &Bundle) -> Result<Series<LinkedLevels>, Memory>
    ensures { IfOk result (λ all. AreLinkedIn bundle.now all) }
{
    let _items = bundle.item_count();
    let mut all = Series::new(alloc);
    let mut tried = Series::new(alloc);
    for place in 0..bundle.links().len() {
        put_levels_of(
            alloc,
            bundle,
            &mut all,
            &mut tried,
            bundle.links().get(place),
        )?;
    }
    Ok(all)
}

/// The rows of two levels, where they are there.
pub(crate) fn rows_at(all: &[LinkedLevels], upper: usize, lower: usize) -> Option<&Closure>
    ensures { IfSome result (λ rows. (bundle : BundleParts) → AreLinkedIn bundle all.now
        → rows.now ≡ linked_of bundle upper lower bundle.links) }
{
    for one in all {
        if one.upper == upper && one.lower == lower {
            return Some(&one.closure);
        }
    }
    None
}
