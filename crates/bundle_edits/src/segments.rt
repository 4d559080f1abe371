//! Edits of segments that touch: their common boundary, a segment in two, two segments in one.
ghost use Rattle.std.specs.Prelude.{◌≡◌, ◌==◌, ◌+◌, ◌<◌, suc, length, replicate, [], true, IfOk, IfSome, IsTrue, Some, Ok, None};
ghost use Rattle.std.specs.List.{slice_get};
ghost use Rattle.emu_names.specs.Inner.Gives.{GivesOrBroken, FindsFault};
ghost use Rattle.emu_names.specs.declared.limits.TheConstants.{BUNDLE_ITEMS, SAMPLES};
ghost use Rattle.level_items.specs.Levels.{are_labels_for};
ghost use Rattle.bundle_state.specs.Bundle.{item_count};
ghost use Rattle.bundle_state.specs.Built.{FitsConfig};
ghost use Rattle.emu_names.specs.Steps.{onward};
ghost use Rattle.bundle_state.specs.Changed.{item_added, item_removed, item_retimed};
ghost use Rattle.bundle_edits.specs.Changes.{segment_at, segment_of, next_of, cut_fault, last_of, boundary_moved, segment_split, segments_merged};
ghost use Rattle.bundle_edits.specs.Inner.Given.{LeadsTo};

use crate::bundle_change::Counts;
use crate::item_changes::{id_passes, room_passes, take_item, with_item, with_time};
use bundle_state::Bundle;
use db_config::Config;
use emu_names::{Broken, Fault, ItemId, Memory, Text};
use level_items::{Item, Labels, Time};
use std::alloc::Global;

/// A segment of a bundle.
#[derive(Clone, Copy, Debug, PartialEq, Eq)]
pub(crate) struct Segment {
    /// The number of its level.
    level: usize,
    /// Its position there.
    position: usize,
    /// Its id.
    id: ItemId,
    /// Its first sample.
    start: u64,
    /// How many samples follow the first one.
    dur: u64,
}

impl Segment {
    /// The last sample.
    fn last(self) -> u64
        requires { last_of self < SAMPLES }
        ensures { result ≡ last_of self }
    {
        self.start + self.dur
    }
}

/// The segment at a place, if there is one.
fn segment_at(bundle: &Bundle, level: usize, position: usize) -> Option<Segment>
    ensures segment { result ≡ segment_at bundle.now.levels (level, position) }
    ensures ends { IfSome result (λ s. last_of s < SAMPLES) }
{
    if level >= bundle.level_count() {
        return None;
    }
    let list = bundle.level(level);
    let _count = list.len();
    let item = list.as_slice().get(position)?;
    match item.time {
        Time::Span { start, dur } => Some(Segment {
            level,
            position,
            id: item.id,
            start,
            dur,
        }),
        _ => None,
    }
}

/// The segment with an id, or the rule that is broken where there is none.
fn segment_of(bundle: &Bundle, id: ItemId) -> Result<Segment, Fault>
    ensures segment { GivesOrBroken result (segment_of id bundle.now.levels) }
    ensures ends { IfOk result (λ s. last_of s < SAMPLES) }
    ensures place { IfOk result (λ s. s.position < BUNDLE_ITEMS) }
{
    let _count = bundle.item_count();
    let Some((level, position)) = bundle.place(id) else {
        return Err(Fault::Broken(Broken::NoItem(id)));
    };
    match segment_at(bundle, level, position) {
        Some(segment) => Ok(segment),
        None => Err(Fault::Broken(Broken::TimeKind)),
    }
}

/// Whether a segment begins with the sample behind the last one of this one.
fn touch(s: Segment, next: Segment) -> bool
    requires { last_of s < SAMPLES }
    ensures { result ≡ (next.start == suc (last_of s)) }
{
    next.start == s.last() + 1
}

/// The segment that follows this one at once, and touches it.
fn next_of(bundle: &Bundle, s: Segment) -> Result<Segment, Fault>
    requires ends { last_of s < SAMPLES }
    requires place { s.position < BUNDLE_ITEMS }
    ensures segment { GivesOrBroken result (next_of bundle.now.levels s) }
    ensures ends { IfOk result (λ next. last_of next < SAMPLES) }
{
    match segment_at(bundle, s.level, s.position + 1) {
        Some(next) => {
            if touch(s, next) {
                Ok(next)
            } else {
                Err(Fault::Broken(Broken::NoNeighbour(s.id)))
            }
        }
        None => Err(Fault::Broken(Broken::NoNeighbour(s.id))),
    }
}

/// Tests a place before a sample, which has to lie behind the first sample of a segment and at most before
/// this last one.
fn cut_passes(s: Segment, last: u64, start: u64) -> Result<(), Fault>
    ensures { FindsFault result (cut_fault s last start) }
{
    if s.start < start && start <= last {
        return Ok(());
    }
    Err(Fault::Broken(Broken::CutOut))
}

/// The bundle with other times for two items, one after the other.
fn with_times(
    bundle: Bundle,
    first: (ItemId, Time),
    second: (ItemId, Time),
) -> Result<Bundle, Fault>
    ensures { GivesOrBroken result (onward (item_retimed first.0 first.1 bundle)
        (item_retimed second.0 second.1)) }
{
    let next = with_time(bundle, first.0, first.1)?;
    with_time(next, second.0, second.1)
}

/// The new times of a segment and of the one that follows it at once, where their boundary moves: first that
/// of the one that becomes shorter.
fn moved_times(
    bundle: &Bundle,
    id: ItemId,
    start: u64,
) -> Result<((ItemId, Time), (ItemId, Time)), Fault>
    ensures { LeadsTo result (λ times. onward (item_retimed times.0.0 times.0.1 bundle.now)
        (item_retimed times.1.0 times.1.1)) (boundary_moved id start bundle.now) }
{
    let _count = bundle.item_count();
    let s = segment_of(bundle, id)?;
    let next = next_of(bundle, s)?;
    let last = next.last();
    cut_passes(s, last, start)?;
    let before = Time::Span {
        start: s.start,
        dur: start - 1 - s.start,
    };
    let behind = Time::Span {
        start,
        dur: last - start,
    };
    if start <= next.start {
        return Ok(((s.id, before), (next.id, behind)));
    }
    Ok(((next.id, behind), (s.id, before)))
}

/// Moves the boundary between a segment and the one that follows it at once.
pub(crate) fn move_boundary(bundle: Bundle, id: ItemId, start: u64) -> Result<Bundle, Fault>
    ensures { GivesOrBroken result (boundary_moved id start bundle) }
{
    match moved_times(&bundle, id, start) {
        Ok((first, second)) => with_times(bundle, first, second),
        Err(fault) => {
            drop(bundle);
            Err(fault)
        }
    }
}

/// How a segment is cut in two.
#[derive(Drop)]
struct Pieces {
    /// The number of its level.
    level: usize,
    /// Its id.
    id: ItemId,
    /// Its time, which ends earlier.
    before: Time,
    /// The new item behind it.
    behind: Item,
}

/// Ends a segment before the first sample of a new item, which is put behind it.
fn cut(
    config: &Config,
    bundle: Bundle,
    level: usize,
    id: ItemId,
    before: Time,
    behind: Item,
) -> Result<Bundle, Fault>
    requires fits { FitsConfig config.now bundle }
    requires level { level < length config.now.levels }
    requires labels { IfSome (slice_get bundle.levels level)
        (λ l. IsTrue (are_labels_for l.attributes behind.labels)) }
    requires room { item_count bundle.levels < BUNDLE_ITEMS }
    ensures { GivesOrBroken result (onward (item_retimed id before bundle)
        (item_added level None behind)) }
{
    let next = with_time(bundle, id, before)?;
    with_item(config, next, level, None, behind)
}

/// This many empty labels. The only refusal is want of memory.
fn empty_labels(alloc: Global, count: usize) -> Result<Labels, Memory>
    ensures { IfOk result (λ made. made ≡ replicate count []) }
{
    let mut made = Labels::new(alloc);
    for _place in 0..count {
        made.push(Text::new(alloc, "")?)?;
    }
    Ok(made)
}

/// How the segment with an id is cut in two; the second part is a new item without labels.
fn pieces_of(
    alloc: Global,
    config: &Config,
    counts: Counts,
    bundle: &Bundle,
    id: ItemId,
    new_id: ItemId,
    start: u64,
) -> Result<Pieces, Fault>
    requires { FitsConfig config.now bundle.now }
    ensures parts { LeadsTo result (λ c. onward (item_retimed c.id c.before bundle.now)
        (item_added c.level None c.behind)) (segment_split counts id new_id start bundle.now) }
    ensures level { IfOk result (λ c. c.level < length config.now.levels) }
    ensures labels { IfOk result (λ c. IfSome (slice_get bundle.now.levels c.level)
        (λ l. IsTrue (are_labels_for l.attributes c.behind.labels))) }
    ensures room { IfOk result (λ _. item_count bundle.now.levels < BUNDLE_ITEMS) }
{
    let _count = bundle.item_count();
    let s = segment_of(bundle, id)?;
    let last = s.last();
    room_passes(counts, bundle)?;
    id_passes(bundle, new_id)?;
    cut_passes(s, last, start)?;
    let labels = empty_labels(alloc, config.attribute_count(s.level))?;
    let before = Time::Span {
        start: s.start,
        dur: start - 1 - s.start,
    };
    let behind = Time::Span {
        start,
        dur: last - start,
    };
    Ok(Pieces {
        level: s.level,
        id: s.id,
        before,
        behind: Item {
            id: new_id,
            time: behind,
            labels,
        },
    })
}

/// Cuts a segment in two; the second part is a new item without labels.
pub(crate) fn split(
    alloc: Global,
    config: &Config,
    counts: Counts,
    bundle: Bundle,
    id: ItemId,
    new_id: ItemId,
    start: u64,
) -> Result<Bundle, Fault>
    requires { FitsConfig config.now bundle }
    ensures { GivesOrBroken result (segment_split counts id new_id start bundle) }
{
    match pieces_of(alloc, config, counts, &bundle, id, new_id, start) {
        Ok(
            Pieces {
                level,
                id,
                before,
                behind,
            },
        ) => cut(config, bundle, level, id, before, behind),
        Err(fault) => {
            drop(bundle);
            Err(fault)
        }
    }
}

/// Takes one item out of the bundle, and gives another one another time.
fn taken_and_retimed(bundle: Bundle, taken: ItemId, id: ItemId, time: Time) -> Result<Bundle, Fault>
    ensures { GivesOrBroken result (onward (item_removed taken bundle) (item_retimed id time)) }
{
    let next = take_item(bundle, taken)?;
    with_time(next, id, time)
}

/// The item that is taken out where a segment is joined with the one that follows it at once, and the
/// time of the first one then.
fn joined_time(bundle: &Bundle, id: ItemId) -> Result<(ItemId, (ItemId, Time)), Fault>
    ensures { LeadsTo result (λ given. onward (item_removed given.0 bundle.now)
        (item_retimed given.1.0 given.1.1)) (segments_merged id bundle.now) }
{
    let _count = bundle.item_count();
    let s = segment_of(bundle, id)?;
    let next = next_of(bundle, s)?;
    let time = Time::Span {
        start: s.start,
        dur: next.last() - s.start,
    };
    Ok((next.id, (s.id, time)))
}

/// Joins a segment with the one that follows it at once, which is taken out with its links.
pub(crate) fn merge(bundle: Bundle, id: ItemId) -> Result<Bundle, Fault>
    ensures { GivesOrBroken result (segments_merged id bundle) }
{
    match joined_time(&bundle, id) {
        Ok((taken, (id, time))) => taken_and_retimed(bundle, taken, id, time),
        Err(fault) => {
            drop(bundle);
            Err(fault)
        }
    }
}
