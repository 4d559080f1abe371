//! Where an item may stand on a level: its place, its neighbours, and the rule that it breaks first.
ghost use Rattle.std.specs.Prelude.{◌≡◌, ◌≤◌, length, count_by, IsTrue, IfOk};
ghost use Rattle.level_items.specs.Times.{starts_before};
ghost use Rattle.level_items.specs.Levels.{are_apart, are_in_order, first_of, last_of, new_place};
ghost use Rattle.level_items.specs.Faults.{time_fault, position_fault, order_fault, behind_fault, ahead_fault, neighbour_fault, insert_fault};
ghost use Rattle.emu_names.specs.Inner.Gives.{FindsFault};
ghost use Rattle.level_items.specs.Inner.Marked.{AreMarked, is_id_of};

use crate::items::Item;
use crate::marks::Marks;
use crate::times::Time;
use emu_names::{Broken, Fault, ItemId, LevelKind};

/// Tests a time on a level of this kind: first its form (`TimeKind`), then its end, which lies below
/// sample 2^40 (`TimeOut`).
pub fn time_passes(kind: LevelKind, time: Time) -> Result<(), Fault>
    ensures { FindsFault result (time_fault kind time) }
{
    if !time.fits_kind(kind) {
        return Err(Fault::Broken(Broken::TimeKind));
    }
    if !time.ends_in_time() {
        return Err(Fault::Broken(Broken::TimeOut));
    }
    Ok(())
}

/// Tests a position that is asked for on a level of this kind with so many items.
fn position_passes(kind: LevelKind, count: usize, position: Option<u32>) -> Result<(), Fault>
    ensures { FindsFault result (position_fault kind count position) }
{
    match (kind, position) {
        (_, None) => Ok(()),
        (LevelKind::Item, Some(position)) if position as usize <= count => Ok(()),
        _ => Err(Fault::Broken(Broken::PositionOut)),
    }
}

/// Tests the times of two neighbours on a level of this kind: a segment starts past the last sample of
/// the one before it, else the fault is `Overlap`; a point lies past the one before it, else it is
/// `NotRising`. The fault names `named`.
pub fn order_passes(kind: LevelKind, named: ItemId, earlier: Time, later: Time) -> Result<(), Fault>
    ensures { FindsFault result (order_fault kind named earlier later) }
{
    if earlier.is_before(later) {
        return Ok(());
    }
    match kind {
        LevelKind::Item => Ok(()),
        LevelKind::Segment => Err(Fault::Broken(Broken::Overlap(named))),
        LevelKind::Event => Err(Fault::Broken(Broken::NotRising(named))),
    }
}

/// Tests a time behind the last of these items, which a fault names.
fn behind_passes(kind: LevelKind, before: &[Item], time: Time) -> Result<(), Fault>
    ensures { FindsFault result (behind_fault kind (last_of before.now) time) }
{
    match before.last() {
        Some(previous) => order_passes(kind, previous.id, previous.time, time),
        None => Ok(()),
    }
}

/// Tests a time before the first of these items.
fn ahead_passes(kind: LevelKind, time: Time, behind: &[Item]) -> Result<(), Fault>
    ensures { FindsFault result (ahead_fault kind time (first_of behind.now)) }
{
    match behind.first() {
        Some(next) => order_passes(kind, next.id, time, next.time),
        None => Ok(()),
    }
}

/// Tests a time between these two lists of items, behind the one first.
pub(crate) fn neighbours_pass(
    kind: LevelKind,
    before: &[Item],
    time: Time,
    behind: &[Item],
) -> Result<(), Fault>
    ensures { FindsFault result (neighbour_fault kind before.now time behind.now) }
{
    behind_passes(kind, before, time)?;
    ahead_passes(kind, time, behind)
}

/// The number of items that begin before `time`, found by halving the list.
pub(crate) fn place_in_time(items: &[Item], time: Time) -> usize
    requires { IsTrue (are_apart items.now) }
    ensures { result ≡ count_by (λ i. starts_before i.time time) items.now }
{
    items.partition_point(|item| item.time.starts_before(time))
}

/// The place of a new item whose position passed.
fn new_place(kind: LevelKind, items: &[Item], position: Option<u32>, time: Time) -> usize
    requires { IsTrue (are_in_order kind items.now) }
    ensures { result ≡ new_place kind items.now position time }
{
    match (kind, position) {
        (LevelKind::Item, Some(position)) => position as usize,
        (LevelKind::Item, None) => items.len(),
        _ => place_in_time(items, time),
    }
}

/// The place of a new item, whose id is tested by the marks of the items.
pub(crate) fn place_for(
    kind: LevelKind,
    items: &[Item],
    marks: &Marks,
    position: Option<u32>,
    item: &Item,
) -> Result<usize, Fault>
    requires order { IsTrue (are_in_order kind items.now) }
    requires marked { AreMarked (is_id_of items.now) marks.now }
    ensures fault { FindsFault result (insert_fault kind items.now position item.now) }
    ensures place { IfOk result (λ place. place ≡ new_place kind items.now position item.now.time) }
    ensures within { IfOk result (λ place. place ≤ length items.now) }
{
    if marks.has(items, item.id) {
        return Err(Fault::Broken(Broken::IdTaken(item.id)));
    }
    time_passes(kind, item.time)?;
    position_passes(kind, items.len(), position)?;
    let place = new_place(kind, items, position, item.time);
    neighbours_pass(kind, &items[..place], item.time, &items[place..])?;
    Ok(place)
}
