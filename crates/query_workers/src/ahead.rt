//! Bundles whose parts are read before they are asked.
//!
//! The parts of a bundle lie apart in memory, and each is found by another: whoever asks a bundle waits for one after
//! another. So some bundles are looked at together before the first of them is asked, and what is waited for in one
//! comes beside what is waited for in the others. No clause speaks of what is seen.
ghost use Rattle.std.specs.Prelude.{◌<◌, ◌≤◌, length};
ghost use Rattle.emu_names.specs.declared.limits.TheConstants.{BUNDLES};

use db_config::AttributePlace;
use eql_match::bundle_index::Indexed;
use level_items::Item;
use std::alloc::Global;
use version_tree::Version;

/// How many bundles are looked at together.
const AHEAD: usize = 32;

/// The first byte of a text, or 0.
fn first_byte(text: &str) -> u64 {
    match text.as_bytes().first() {
        Some(byte) => *byte as u64,
        None => 0,
    }
}

/// The number at a place, or 0.
fn number_at(numbers: &[u32], place: usize) -> u64 {
    match numbers.get(place) {
        Some(number) => *number as u64,
        None => 0,
    }
}

/// Looks at the names of a bundle and at the keys of its labels: the sum of what is seen.
fn see_names(indexed: &Indexed) -> u64 {
    let key = indexed.bundle().key();
    first_byte(key.session.as_str())
        .wrapping_add(first_byte(key.bundle.as_str()))
        .wrapping_add(indexed.label_key(0))
        .wrapping_add(indexed.label_key(16))
        .wrapping_add(indexed.label_key(32))
}

/// Looks at the numbers of labels, the first, the middle and the last one: their sum.
fn see_numbers(numbers: &[u32]) -> u64 {
    number_at(numbers, 0)
        .wrapping_add(number_at(numbers, numbers.len() / 2))
        .wrapping_add(number_at(numbers, numbers.len().saturating_sub(1)))
}

/// Looks at the item in the middle of some, and at its label for an attribute: the sum of what is seen.
fn see_item(items: &[Item], attribute: usize) -> u64 {
    let Some(item) = items.get(items.len() / 2) else {
        return 0;
    };
    let id = item.id.0 as u64;
    match item.labels.as_slice().get(attribute) {
        Some(label) => id.wrapping_add(first_byte(label.as_str())),
        None => id,
    }
}

/// Looks at what a query reads first in a bundle whose first condition is on this attribute: the sum of what is seen.
fn see(indexed: &Indexed, first: AttributePlace) -> u64 {
    let names = see_names(indexed);
    let bundle = indexed.bundle();
    if first.level >= bundle.level_count() {
        return names;
    }
    let level = bundle.level(first.level);
    if first.attribute >= level.attributes() {
        return names;
    }
    names
        .wrapping_add(see_numbers(indexed.column(first.level, first.attribute)))
        .wrapping_add(see_item(level.as_slice(), first.attribute))
}

/// Looks at bundles: the sum of what is seen.
fn see_all(bundles: &[&Indexed], first: AttributePlace) -> u64 {
    let mut seen = 0u64;
    for indexed in bundles {
        seen = seen.wrapping_add(see(indexed, first));
    }
    seen
}

/// The bundles that are looked at ahead on a walk through a version.
#[derive(Drop)]
pub(crate) struct Ahead<'v> {
    bundles: Vec<&'v Indexed>,
    next: usize,
}

impl<'v> Ahead<'v> {
    /// Before the walk.
    pub(crate) fn new(alloc: Global) -> Ahead<'v> {
        let bundles = match Vec::with_capacity(alloc, AHEAD) {
            Ok(room) => room,
            Err(_) => Vec::new(alloc),
        };
        Ahead { bundles, next: 0 }
    }

    /// Looks at the next bundles of a walk that is at a place and ends before another, for a query whose first condition
    /// is on this attribute, unless they have been looked at. Where there is no memory nothing is looked at.
    pub(crate) fn look(
        &mut self,
        version: &'v Version,
        first: AttributePlace,
        place: usize,
        to: usize,
    )
        requires order { place ≤ to }
        requires within { to ≤ length version.now.bundles }
        requires few { to ≤ BUNDLES }
    {
        if place < self.next {
            return;
        }
        self.bundles.clear();
        let end = to.min(place + AHEAD);
        for at in place..end {
            if self.bundles.push(version.at(at)).is_err() {
                return;
            }
        }
        // where the walk looks next hangs on what is seen, or else a compiler would leave the reads out
        self.next = if see_all(&self.bundles, first) == u64::MAX {
            place
        } else {
            end
        };
    }
}
