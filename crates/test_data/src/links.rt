//! What no clause says: that calls succeed where memory is ample, and are soon done.
ghost use Rattle.std.specs.Prelude.{◌<◌};

use crate::compared::same;
use crate::levels::crosses_threads;
use emu_names::{Broken, Fault, ItemId, LinkKind, Memory, What};
use link_graph::{Ends, Links};
use std::alloc::Global;
use std::process::Abort;
use std::test::Fail;

const ONE: LinkKind = LinkKind::OneToOne;

const FEW: LinkKind = LinkKind::OneToMany;

const MANY: LinkKind = LinkKind::ManyToMany;

/// A link to be added: the definition, its kind, the two ids, and the rule that is broken with its id.
type Row = (u32, LinkKind, u32, u32, u8, u32);

static ROWS: [Row; 12] = [
    (0, FEW, 1, 2, 0, 0),
    (0, FEW, 1, 3, 0, 0),
    // a pair that is there, whatever the definition
    (0, FEW, 1, 2, 22, 0),
    (1, MANY, 1, 2, 22, 0),
    // a second parent, and one by another definition
    (0, FEW, 4, 2, 24, 1),
    (1, FEW, 4, 2, 0, 0),
    // a second child, a second parent, and both
    (2, ONE, 1, 5, 0, 0),
    (2, ONE, 1, 6, 25, 5),
    (2, ONE, 7, 5, 24, 1),
    (2, ONE, 1, 5, 22, 0),
    // any links
    (3, MANY, 8, 5, 0, 0),
    (3, MANY, 8, 6, 0, 0),
];

fn number_of(added: &Result<(), Fault>) -> (u8, u32) {
    match added {
        Ok(()) => (0, 0),
        Err(Fault::Broken(Broken::OneParent(id))) => (24, id.0),
        Err(Fault::Broken(Broken::OneChild(id))) => (25, id.0),
        Err(Fault::Broken(rule)) => (rule.number(), 0),
        Err(Fault::Memory) => (255, 0),
    }
}

/// The rule that adding a link breaks, with its id.
fn add(links: &mut Links, row: &Row) -> (u8, u32) {
    let (definition, kind, from, to, _, _) = *row;
    let added = links.add(definition, kind, ItemId(from), ItemId(to));
    let number = number_of(&added);
    drop(added);
    number
}

/// Adds the links of the table, and compares each answer.
fn add_all(rt: &impl Abort, links: &mut Links) {
    for row in &ROWS {
        let found = add(links, row);
        same(rt, (row.2, row.3, found), (row.2, row.3, (row.4, row.5)));
    }
}

/// What a list of links has: its pairs of ids in order, and the parents and the children of an item.
type State = (&'static [(u32, u32)], u32, &'static [u32], &'static [u32]);

static ADDED: State = (
    &[(1, 2), (1, 3), (4, 2), (1, 5), (8, 5), (8, 6)],
    1,
    &[],
    &[2, 3, 5],
);

static REMOVED: State = (&[(1, 2), (4, 2), (1, 5), (8, 5), (8, 6)], 5, &[1, 8], &[]);

static WITHOUT_ITEM: State = (&[(1, 2), (4, 2), (8, 6)], 2, &[1, 4], &[]);

fn check_ends(rt: &impl Abort, ends: Ends<'_>, ids: &[u32]) {
    let mut place = 0;
    for id in ends {
        assert!(rt; place < ids.len() && id.0 == ids[place]);
        place += 1;
    }
    same(rt, place, ids.len());
}

/// The pair of ids at a place, and where that pair is found.
fn found_at(links: &Links, place: usize) -> Option<((u32, u32), Option<usize>)> {
    if place < links.len() {
        let link = links.get(place).copy();
        Some(((link.from.0, link.to.0), links.place(link.from, link.to)))
    } else {
        None
    }
}

/// Compares the pairs of ids in order, each where it is found.
fn check_pairs(rt: &impl Abort, links: &Links, pairs: &[(u32, u32)]) {
    let ends = (links.len(), links.place(ItemId(2), ItemId(1)));
    same(rt, ends, (pairs.len(), None));
    for place in 0..pairs.len() {
        let wanted = Some((pairs[place], Some(place)));
        same(rt, found_at(links, place), wanted);
    }
}

fn check(rt: &impl Abort, links: &Links, state: &State) {
    let (pairs, id, parents, children) = *state;
    check_pairs(rt, links, pairs);
    check_ends(rt, links.parents(ItemId(id)), parents);
    check_ends(rt, links.children(ItemId(id)), children);
}

/// Links to be taken out, with the rule that is broken.
static REMOVALS: [(u32, u32, u8); 3] = [(3, 1, 23), (1, 3, 0), (1, 3, 23)];

/// The rule that taking a link out breaks.
fn remove(links: &mut Links, from: u32, to: u32) -> u8 {
    let removed = links.remove(ItemId(from), ItemId(to));
    let number = number_of(&removed);
    drop(removed);
    number.0
}

fn remove_all(rt: &impl Abort, links: &mut Links) {
    for &(from, to, rule) in &REMOVALS {
        let found = remove(links, from, to);
        same(rt, (from, to, found), (from, to, rule));
    }
}

/// Compares a copy.
fn check_copy(rt: &impl Abort, alloc: Global, links: &Links, state: &State) -> Result<(), Memory> {
    let copied = links.copy(alloc)?;
    check(rt, &copied, state);
    drop(copied);
    Ok(())
}

#[test]
fn links_are_added_and_taken_out(rt: HostRuntime) -> Result<(), Fail> {
    let mut links = Links::with_capacity(rt.alloc(), 2)?;
    add_all(&rt, &mut links);
    crosses_threads(&links);
    check(&rt, &links, &ADDED);
    remove_all(&rt, &mut links);
    let compared = check_copy(&rt, rt.alloc(), &links, &REMOVED);
    links.remove_item(ItemId(5));
    check(&rt, &links, &WITHOUT_ITEM);
    drop(links);
    Ok(compared?)
}

/// 262,144 links from each of some items to each of some others.
fn full(alloc: Global, lower: u32) -> Result<Links, Fault>
    requires { 0 < lower }
{
    let mut links = Links::with_capacity(alloc, 262_144)?;
    for number in 0..262_144 {
        let from = number / lower;
        let to = 1_000_000 + number % lower;
        links.add(0, MANY, ItemId(from), ItemId(to))?;
    }
    Ok(links)
}

/// Asserts that there are so many ends.
fn expect_ends(rt: &impl Abort, ends: Ends<'_>, wanted: u32) {
    let mut count = 0u32;
    for _ in ends {
        count = count.saturating_add(1);
    }
    same(rt, count, wanted);
}

/// Whether one link more is refused, since there are too many.
fn is_full(links: &mut Links) -> bool {
    let more = links.add(0, MANY, ItemId(1_000_000), ItemId(0));
    let refused = matches!(
        &more,
        Err(Fault::Broken(Broken::TooMany(What::BundleLinks)))
    );
    drop(more);
    refused
}

/// Asserts that each item has the others.
fn expect_all_ends(rt: &impl Abort, links: &Links, upper: u32, lower: u32) {
    for id in 0..upper {
        expect_ends(rt, links.children(ItemId(id)), lower);
    }
    for id in 0..lower {
        let upper_ends = links.parents(ItemId(1_000_000u32.saturating_add(id)));
        expect_ends(rt, upper_ends, upper);
    }
}

/// Asserts that there is no room for more links, that each item has the others, and that an item is taken
/// out with its links.
fn expect_full(rt: &impl Abort, links: &mut Links, upper: u32, lower: u32) {
    assert!(rt; is_full(links));
    expect_all_ends(rt, links, upper, lower);
    links.remove_item(ItemId(0));
    same(rt, links.len(), 262_144usize.saturating_sub(lower as usize));
}

/// How many items there are above, and how many below.
static FULL: [(u32, u32); 3] = [(1, 262_144), (512, 512), (262_144, 1)];

#[test]
fn many_links_are_soon_there(rt: HostRuntime) -> Result<(), Fail> {
    for &(upper, lower) in &FULL {
        assert!(rt; lower > 0);
        let mut links = full(rt.alloc(), lower)?;
        expect_full(&rt, &mut links, upper, lower);
        drop(links);
    }
    Ok(())
}

/// Asserts that links behind those that were taken out have moved up.
fn expect_places(rt: &impl Abort, links: &Links) {
    for step in 0..4_096u32 {
        let number = 65_536 + 48 * step;
        let place = links.place(ItemId(number / 512), ItemId(1_000_000 + number % 512));
        same(rt, (step, place), (step, Some((48 * step) as usize)));
    }
}

/// Takes a quarter of the links out, one by one.
fn take_quarter(rt: &impl Abort, links: &mut Links) {
    for number in 0..65_536 {
        let found = remove(links, number / 512, 1_000_000 + number % 512);
        assert!(rt; found == 0);
    }
}

/// Links are taken out one by one, and the others found, in far less time than the square of their number takes.
#[test]
fn many_links_are_soon_taken_out(rt: HostRuntime) -> Result<(), Fail> {
    let mut links = full(rt.alloc(), 512)?;
    take_quarter(&rt, &mut links);
    same(&rt, links.len(), 196_608);
    expect_places(&rt, &links);
    drop(links);
    Ok(())
}
