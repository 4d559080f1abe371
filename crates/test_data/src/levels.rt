//! Lists worked by hand from the level rule, and each call that allocates on its happy path.
ghost use Rattle.std.specs.Prelude.{◌≡◌, IfOk};

use crate::compared::same;
use emu_names::{Broken, Fault, ItemId, LevelKind, Memory, Text};
use level_items::{Item, Labels, LevelList, Time};
use std::alloc::Global;
use std::process::Abort;
use std::test::Fail;

/// What is asked of a list.
#[derive(Clone, Copy)]
enum Step {
    /// To put an item in, at a position or where it belongs.
    Put(Option<u32>),
    /// To set the time of the item at a position.
    Move(usize),
    /// To take the item at a position out.
    Take(usize),
}

use Step::{Move, Put, Take};

/// The time of a row: none, first sample and duration, or a point.
#[derive(Clone, Copy)]
enum When {
    NoTime,
    Span(u64, u64),
    Point(u64),
}

use When::{NoTime, Point, Span};

/// The time that a row has.
fn time_of(when: When) -> Time {
    match when {
        NoTime => Time::NoTime,
        Span(start, dur) => Time::Span { start, dur },
        Point(at) => Time::Point { at },
    }
}

/// A step, the id and the time that it has, and the word and the number that it is answered.
type Row = (Step, u32, When, &'static str, u64);

static SEGMENTS: [Row; 36] = [
    (Put(None), 1, Span(0, 9), "at", 0),
    (Put(None), 2, Span(10, 0), "at", 1),
    (Put(None), 3, Span(10, 4), "Overlap", 2),
    (Put(None), 3, Span(9, 0), "Overlap", 1),
    (Put(None), 4, Span(1099511627775, 0), "at", 2),
    (Put(None), 5, Span(1099511627776, 0), "TimeOut", 0),
    (Put(None), 1, Span(100, 0), "IdTaken", 1),
    // of two causes the earlier one
    (Put(Some(0)), 1, NoTime, "IdTaken", 1),
    (Put(Some(0)), 5, NoTime, "TimeKind", 0),
    (Put(Some(0)), 5, Point(100), "TimeKind", 0),
    (Put(Some(0)), 5, Span(0, 1099511627776), "TimeOut", 0),
    (
        Put(None),
        5,
        Span(18446744073709551615, 18446744073709551615),
        "TimeOut",
        0,
    ),
    (Put(Some(0)), 5, Span(9, 0), "PositionOut", 0),
    (Put(Some(2)), 5, Span(20, 0), "PositionOut", 0),
    // over both neighbours: the previous one is named
    (Put(None), 5, Span(5, 10), "Overlap", 1),
    // up to the last sample before the next one, and not further
    (Put(None), 5, Span(11, 1099511627764), "Overlap", 4),
    (Put(None), 5, Span(11, 1099511627763), "at", 2),
    (Take(2), 5, NoTime, "taken", 5),
    (Put(None), 5, Span(20, 4), "at", 2),
    // now 1 (0, 9), 2 (10, 0), 5 (20, 4), 4 (2^40 - 1, 0)
    (Move(1), 0, NoTime, "TimeKind", 0),
    (Move(1), 0, Point(12), "TimeKind", 0),
    (Move(1), 0, Span(12, 1099511627764), "TimeOut", 0),
    (Move(1), 0, Span(9, 11), "Overlap", 1),
    (Move(1), 0, Span(10, 10), "Overlap", 5),
    (Move(1), 0, Span(30, 0), "Overlap", 5),
    (Move(1), 0, Span(10, 9), "moved", 0),
    (Move(1), 0, Span(19, 0), "moved", 0),
    (Move(0), 0, Span(18, 0), "moved", 0),
    (Move(0), 0, Span(18, 1), "Overlap", 2),
    (Move(2), 0, Span(0, 0), "Overlap", 2),
    (Take(0), 0, NoTime, "taken", 1),
    (Take(2), 0, NoTime, "taken", 4),
    (Take(0), 0, NoTime, "taken", 2),
    (Put(None), 2, Span(0, 19), "at", 0),
    (Put(None), 1, Span(25, 0), "at", 2),
    (Put(None), 4, Span(30, 0), "at", 3),
];

/// A boundary that is moved, a segment that is cut, and two that are joined again.
static BOUNDARIES: [Row; 10] = [
    (Put(None), 1, Span(3749, 1389), "at", 0),
    (Put(None), 2, Span(5138, 1664), "Overlap", 1),
    (Put(None), 2, Span(5139, 1664), "at", 1),
    (Move(1), 0, Span(5000, 1803), "Overlap", 1),
    (Move(0), 0, Span(3749, 1250), "moved", 0),
    (Move(1), 0, Span(5000, 1803), "moved", 0),
    (Move(1), 0, Span(5000, 999), "moved", 0),
    (Put(None), 3, Span(6000, 803), "at", 2),
    (Take(2), 0, NoTime, "taken", 3),
    (Move(1), 0, Span(5000, 1803), "moved", 0),
];

static POINTS: [Row; 17] = [
    (Put(None), 1, Point(10), "at", 0),
    (Put(None), 2, Point(30), "at", 1),
    (Put(None), 3, Point(20), "at", 1),
    (Put(None), 4, Point(20), "NotRising", 3),
    (Put(None), 4, Point(1099511627776), "TimeOut", 0),
    (Put(None), 4, Point(1099511627775), "at", 3),
    (Put(Some(0)), 5, Point(0), "PositionOut", 0),
    (Put(None), 5, Span(0, 0), "TimeKind", 0),
    (Put(None), 5, NoTime, "TimeKind", 0),
    (Put(None), 5, Point(0), "at", 0),
    // now 5 (0), 1 (10), 3 (20), 2 (30), 4 (2^40 - 1)
    (Move(2), 0, Point(10), "NotRising", 1),
    (Move(2), 0, Point(30), "NotRising", 2),
    (Move(2), 0, Point(40), "NotRising", 2),
    (Move(2), 0, Point(5), "NotRising", 1),
    (Move(2), 0, Point(29), "moved", 0),
    (Move(2), 0, Span(20, 0), "TimeKind", 0),
    (Take(4), 0, NoTime, "taken", 4),
];

static WORDS: [Row; 12] = [
    (Put(Some(1)), 1, NoTime, "PositionOut", 0),
    (Put(Some(0)), 1, NoTime, "at", 0),
    (Put(Some(1)), 2, NoTime, "at", 1),
    (Put(Some(0)), 3, NoTime, "at", 0),
    (Put(None), 4, NoTime, "at", 3),
    (Put(Some(5)), 5, NoTime, "PositionOut", 0),
    (Put(Some(5)), 4, NoTime, "IdTaken", 4),
    (Put(Some(5)), 5, Point(0), "TimeKind", 0),
    (Put(Some(4)), 5, NoTime, "at", 4),
    (Move(0), 0, NoTime, "moved", 0),
    (Move(0), 0, Span(0, 0), "TimeKind", 0),
    (Take(1), 0, NoTime, "taken", 1),
];

/// The word and the number of a rule, with 0 where no id broke it.
fn told(rule: &Broken) -> (&'static str, u64) {
    match rule {
        Broken::IdTaken(id) | Broken::Overlap(id) | Broken::NotRising(id) => {
            (rule.word(), u64::from(id.0))
        }
        _ => (rule.word(), 0),
    }
}

/// Puts an item in on a level without attributes.
fn put(
    alloc: Global,
    list: &mut LevelList,
    position: Option<u32>,
    id: ItemId,
    time: Time,
) -> Result<usize, Fault>
    requires { list.old.attributes ≡ 0 }
    ensures { list.new.attributes ≡ 0 }
{
    let labels = Labels::new(alloc);
    list.insert(position, Item { id, time, labels })
}

/// The word and the number of a fault.
fn refused(fault: Fault) -> (&'static str, u64) {
    let answer = match &fault {
        Fault::Broken(rule) => told(rule),
        Fault::Memory => ("Memory", 0),
    };
    drop(fault);
    answer
}

/// What is answered when an item is taken out.
fn taken(item: Item) -> (&'static str, u64) {
    let id = item.id.0;
    drop(item);
    ("taken", u64::from(id))
}

/// What one step is answered on a level without attributes.
fn answered(alloc: Global, list: &mut LevelList, row: &Row) -> (&'static str, u64)
    requires { list.old.attributes ≡ 0 }
    ensures { list.new.attributes ≡ 0 }
{
    let (step, id, when, _, _) = *row;
    let time = time_of(when);
    match step {
        Put(position) => match put(alloc, list, position, ItemId(id), time) {
            Ok(place) => ("at", place as u64),
            Err(fault) => refused(fault),
        },
        Move(position) if position < list.len() => match list.retime(position, time) {
            Ok(()) => ("moved", 0),
            Err(fault) => refused(fault),
        },
        Take(position) if position < list.len() => match list.remove(position) {
            Ok(item) => taken(item),
            Err(Memory) => ("Memory", 0),
        },
        _ => ("no such position", 0),
    }
}

/// Takes these steps, of which each is answered as its row says, behind the id of the row.
fn take_steps(rt: &impl Abort, alloc: Global, list: &mut LevelList, rows: &[Row])
    requires { list.old.attributes ≡ 0 }
{
    for row in rows {
        let found = answered(alloc, list, row);
        same(rt, (row.1, found), (row.1, (row.3, row.4)));
    }
}

/// The id of the item at a place, and where that id is found.
fn found_at(list: &LevelList, place: usize) -> Option<(u32, Option<usize>)> {
    if place < list.len() {
        let id = list.get(place).id;
        Some((id.0, list.find(id)))
    } else {
        None
    }
}

/// Asserts that these ids stand on the list in this order, each where it is found.
fn stand(rt: &impl Abort, list: &LevelList, ids: &[u32]) {
    let ends = (list.len(), list.find(ItemId(99)));
    same(rt, ends, (ids.len(), None));
    for place in 0..ids.len() {
        same(rt, found_at(list, place), Some((ids[place], Some(place))));
    }
}

/// Asserts the same of a copy.
fn copy_stands(
    rt: &impl Abort,
    alloc: Global,
    list: &LevelList,
    ids: &[u32],
) -> Result<(), Memory> {
    let copied = list.copy(alloc)?;
    stand(rt, &copied, ids);
    drop(copied);
    Ok(())
}

/// Asserts that the list after these steps, and its copy, have these ids.
fn expect_after(
    rt: &impl Abort,
    alloc: Global,
    kind: LevelKind,
    rows: &[Row],
    ids: &[u32],
) -> Result<(), Memory> {
    let mut list = LevelList::new(alloc, kind, 0)?;
    take_steps(rt, alloc, &mut list, rows);
    stand(rt, &list, ids);
    let compared = copy_stands(rt, alloc, &list, ids);
    drop(list);
    compared
}

#[test]
fn lists_keep_the_level_rule(rt: HostRuntime) -> Result<(), Fail> {
    let alloc = rt.alloc();
    expect_after(&rt, alloc, LevelKind::Segment, &SEGMENTS, &[2, 5, 1, 4])?;
    expect_after(&rt, alloc, LevelKind::Segment, &BOUNDARIES, &[1, 2])?;
    expect_after(&rt, alloc, LevelKind::Event, &POINTS, &[5, 1, 3, 2])?;
    expect_after(&rt, alloc, LevelKind::Item, &WORDS, &[3, 2, 4, 5])?;
    Ok(())
}

/// A time for the item of a number, behind those of the items before it.
fn time_at(kind: LevelKind, number: u32) -> Time {
    let start = u64::from(number) * 2;
    match kind {
        LevelKind::Item => Time::NoTime,
        LevelKind::Segment => Time::Span { start, dur: 1 },
        LevelKind::Event => Time::Point { at: start },
    }
}

/// Puts so many items in, one after the other.
fn fill(alloc: Global, list: &mut LevelList, kind: LevelKind, count: u32) -> Result<(), Fault>
    requires { list.old.attributes ≡ 0 }
    ensures { list.new.attributes ≡ 0 }
{
    for number in 0..count {
        put(
            alloc,
            list,
            None,
            ItemId(count - number),
            time_at(kind, number),
        )?;
    }
    Ok(())
}

/// A list of so many items, put in one after the other.
fn row_of(rt: &impl Abort, alloc: Global, kind: LevelKind, count: u32) -> Result<LevelList, Fault>
    ensures { IfOk result (λ list. list.attributes ≡ 0) }
{
    let mut list = LevelList::new(alloc, kind, 0)?;
    match fill(alloc, &mut list, kind, count) {
        Ok(()) => {
            same(rt, list.len(), count as usize);
            Ok(list)
        }
        Err(fault) => {
            drop(list);
            Err(fault)
        }
    }
}

/// Asserts that so many items are found, each so many places further than it was put.
fn expect_found(rt: &impl Abort, list: &LevelList, count: u32, further: usize) {
    for number in 0..count {
        let place = list.find(ItemId(count - number));
        same(rt, place, (number as usize).checked_add(further));
    }
}

static KINDS: [LevelKind; 3] = [LevelKind::Item, LevelKind::Segment, LevelKind::Event];

/// Whether this many items are built and found in far less time than the square of their number takes.
#[test]
fn many_items_are_built_and_found(rt: HostRuntime) -> Result<(), Fail> {
    let alloc = rt.alloc();
    let count = 65_536;
    for &kind in &KINDS {
        let list = row_of(&rt, alloc, kind, count)?;
        expect_found(&rt, &list, count, 0);
        drop(list);
    }
    Ok(())
}

/// Puts two items first and takes one of them out, so that all others stand one place further.
fn change_front(rt: &impl Abort, list: &mut LevelList, alloc: Global) -> Result<(), Fault>
    requires { list.old.attributes ≡ 0 }
    ensures { list.new.attributes ≡ 0 }
{
    put(alloc, list, Some(0), ItemId(1_000_000), Time::NoTime)?;
    put(alloc, list, Some(0), ItemId(1_000_001), Time::NoTime)?;
    assert!(rt; list.len() > 0);
    let item = list.remove(0)?;
    same(rt, taken(item), ("taken", 1_000_001));
    Ok(())
}

/// Whether items without time are found in far less time than a walk takes, also where items before
/// them were put in and taken out.
#[test]
fn items_are_found_behind_a_change(rt: HostRuntime) -> Result<(), Fail> {
    let count = 65_536;
    let mut list = row_of(&rt, rt.alloc(), LevelKind::Item, count)?;
    let changed = change_front(&rt, &mut list, rt.alloc());
    expect_found(&rt, &list, count, 1);
    drop(list);
    Ok(changed?)
}

/// Values that go to other threads and are shared among them.
pub(crate) fn crosses_threads<T: Send + Sync>(_value: &T) {}

/// Puts an item with the labels `V` and none first.
fn expect_put(rt: &impl Abort, alloc: Global, list: &mut LevelList) -> Result<(), Fail>
    requires { list.old.attributes ≡ 2 }
    ensures { list.new.attributes ≡ 2 }
{
    let mut labels = Labels::new(alloc);
    labels.push(Text::new(alloc, "V")?)?;
    labels.push(Text::new(alloc, "")?)?;
    let item = Item {
        id: ItemId(7),
        time: Time::NoTime,
        labels,
    };
    let place = list.insert(None, item)?;
    same(rt, place, 0);
    Ok(())
}

/// Sets the second label of the first item to `m`.
fn set_second(rt: &impl Abort, alloc: Global, list: &mut LevelList) -> Result<(), Memory>
    requires { list.old.attributes ≡ 2 }
{
    let label = Text::new(alloc, "m")?;
    assert!(rt; list.len() > 0);
    list.set_label(0, 1, label)
}

/// Whether there are these two labels.
fn are_labels(labels: &Labels, first: &str, second: &str) -> bool {
    labels.len() == 2 && labels.get(0).as_str() == first && labels.get(1).as_str() == second
}

/// Asserts that a copy has one item with these two labels.
fn expect_copy(
    rt: &impl Abort,
    alloc: Global,
    list: &LevelList,
    first: &str,
    second: &str,
) -> Result<(), Memory> {
    let copied = list.copy(alloc)?;
    crosses_threads(&copied);
    let stands = copied.len() == 1 && are_labels(&copied.get(0).labels, first, second);
    assert!(rt; stands);
    drop(copied);
    Ok(())
}

#[test]
fn labels_are_set_and_copied(rt: HostRuntime) -> Result<(), Fail> {
    let mut list = LevelList::new(rt.alloc(), LevelKind::Item, 2)?;
    let put = expect_put(&rt, rt.alloc(), &mut list);
    let set = set_second(&rt, rt.alloc(), &mut list);
    let compared = expect_copy(&rt, rt.alloc(), &list, "V", "m");
    drop(list);
    put?;
    set?;
    Ok(compared?)
}
