//! Work on the items of a level list, and the marks by which they are found.
ghost use Rattle.std.specs.Prelude.{◌≡◌, ℕ, ◌+◌, ◌||◌, ◌<◌, ◌≤◌, length, nat_eq, insert, map, position, slice_get, Some, vec_len, vec_capacity, IfOk, IfSome, OnOk, OnErr, IsTrue};
ghost use Rattle.level_items.specs.Levels.{are_different, are_in_order, change_at, ids_of, new_place, relabelled, retimed, widened_item};
ghost use Rattle.level_items.specs.Faults.{insert_fault, retime_fault};
ghost use Rattle.emu_names.specs.Inner.Gives.{FindsFault};
ghost use Rattle.level_items.specs.Inner.Marked.{AreMarked, is_id_of};
ghost use Rattle.level_items.specs.declared.items.Item.{Item};

use crate::items::Item;
use crate::marks::Marks;
use crate::places::{neighbours_pass, place_for, time_passes};
use crate::times::Time;
use emu_names::{Fault, ItemId, LevelKind, Memory, Text};
use std::alloc::Global;

/// The mark of an item that is put at this place: its first sample, or the place where it has no time.
pub(crate) fn mark_of(place: usize, time: Time) -> u64 {
    match time {
        Time::NoTime => place as u64,
        _ => time.first_sample(),
    }
}

/// Where an item with this mark is.
pub(crate) fn place_of_mark(kind: LevelKind, items: &[Item], mark: u64) -> usize {
    match kind {
        LevelKind::Item => mark as usize,
        LevelKind::Segment | LevelKind::Event => {
            items.partition_point(|item| item.time.first_sample() < mark)
        }
    }
}

/// The position of an item, which is looked for in the `far` places on either side of `guess` first.
pub(crate) fn position_near(items: &[Item], guess: usize, far: usize, id: ItemId) -> Option<usize>
    requires { IsTrue (are_different (ids_of items.now)) }
    ensures { result ≡ position (λ i. nat_eq i.id.0 id.0) items.now }
{
    let last = guess.saturating_add(far);
    match position_within(items, guess.saturating_sub(far), last, id) {
        Some(place) => Some(place),
        None => position_of(items, id),
    }
}

/// The position of the first item with this id.
pub(crate) fn position_of(items: &[Item], id: ItemId) -> Option<usize>
    ensures { result ≡ position (λ i. nat_eq i.id.0 id.0) items.now }
{
    items.iter().position(|item| item.id == id)
}

/// The position of an item, where it is one of these places.
fn position_within(items: &[Item], first: usize, last: usize, id: ItemId) -> Option<usize>
    requires { IsTrue (are_different (ids_of items.now)) }
    ensures { IfSome result (λ at. Some at ≡ position (λ i. nat_eq i.id.0 id.0) items.now) }
{
    let mut place = first;
    while place < items.len() && place <= last {
        if items[place].id == id {
            return Some(place);
        }
        place += 1;
    }
    None
}

/// The place of a new item, for which room is made and which is marked. A refusal, or want of memory,
/// changes nothing.
pub(crate) fn make_room(
    kind: LevelKind,
    items: &mut Vec<Item>,
    marks: &mut Marks,
    position: Option<u32>,
    item: &Item,
) -> Result<usize, Fault>
    requires order { IsTrue (are_in_order kind items.old.items) }
    requires marked { AreMarked (is_id_of items.old.items) marks.old }
    ensures fault { FindsFault result (insert_fault kind items.old.items position item.now) }
    ensures place { IfOk result (λ place. place ≡ new_place kind items.old.items position item.now.time) }
    ensures within { IfOk result (λ place. place ≤ vec_len items.new) }
    ensures room { OnOk result (vec_len items.new < vec_capacity items.new) }
    ensures items { items.new.items ≡ items.old.items }
    ensures marked { OnOk result
        (AreMarked (λ q. nat_eq q item.now.id.0 || is_id_of items.old.items q) marks.new) }
    ensures kept { OnErr result (AreMarked (is_id_of items.old.items) marks.new) }
{
    let place = place_for(kind, items, marks, position, item)?;
    items.reserve(1)?;
    marks.grow(*items.allocator(), items)?;
    marks.put(item.id, mark_of(place, item.time))?;
    Ok(place)
}

/// Puts an item in at a place, where there is room.
pub(crate) fn put_in(items: &mut Vec<Item>, place: usize, item: Item)
    requires within { place ≤ vec_len items.old }
    requires room { vec_len items.old < vec_capacity items.old }
    ensures { items.new.items ≡ insert items.old.items place item }
{
    items.insert(place, item).unwrap();
}

/// Tests another time for the item at a position.
pub(crate) fn retime_passes(
    kind: LevelKind,
    items: &[Item],
    position: usize,
    time: Time,
) -> Result<(), Fault>
    requires { position < length items.now }
    ensures { FindsFault result (retime_fault kind items.now position time) }
{
    time_passes(kind, time)?;
    neighbours_pass(kind, &items[..position], time, &items[position + 1..])
}

/// Sets the time of the item at a position.
pub(crate) fn set_time_in(items: &mut [Item], position: usize, time: Time)
    requires { position < length items.old }
    ensures { items.new ≡ change_at (retimed time) position items.old }
{
    items[position].time = time;
}

/// Gives the item at a position labels of its own, of which this one is another. The only refusal is want
/// of memory, which changes nothing.
pub(crate) fn set_label_in(
    alloc: Global,
    items: &mut [Item],
    position: usize,
    attribute: usize,
    label: Text,
) -> Result<(), Memory>
    requires position { position < length items.old }
    requires attribute { (item : Item) → slice_get items.old position ≡ Some item → attribute < length item.labels }
    ensures labelled { OnOk result
        (items.new ≡ change_at (relabelled attribute label) position items.old) }
    ensures kept { OnErr result (items.new ≡ items.old) }
{
    let item = &mut items[position];
    item.labels = item.labels.with(alloc, attribute, label)?;
    Ok(())
}

/// These items on a level of so many attributes, with empty labels for those that they lack. The only
/// refusal is want of memory.
pub(crate) fn widened(alloc: Global, items: &[Item], attributes: usize) -> Result<Vec<Item>, Memory>
    ensures { IfOk result (λ made. made.items ≡ map (widened_item attributes) items.now) }
{
    let mut made = Vec::with_capacity(alloc, items.len())?;
    for item in items {
        made.push(Item {
            id: item.id,
            time: item.time,
            labels: item.labels.padded(alloc, attributes)?,
        })?;
    }
    Ok(made)
}
