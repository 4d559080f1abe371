//! The entries of a tier: the items of a level, and fillers where segments leave samples out.
ghost use Rattle.std.specs.Prelude.{◌≡◌, ◌≤◌, ◌<◌, ◌++◌, IfOk, OnOk, map};
ghost use Rattle.emu_names.specs.declared.limits.TheConstants.{SAMPLES};
ghost use Rattle.level_items.specs.Times.{last_sample};
ghost use Rattle.grid_writing.specs.Filled.{entry_label, entry_of, entry_time, filled, first_label, gap};
ghost use Rattle.grid_writing.specs.Inner.Within.{AreWithin};

use emu_names::{Memory, Series, Text};
use level_items::{Item, Labels, Time};
use std::alloc::Global;

/// What stands on a tier.
#[derive(Drop)]
pub enum Entry {
    /// An item of the level.
    Held {
        /// When it is.
        time: Time,
        /// The label of its first attribute.
        label: Text,
    },
    /// A filler, in the place of samples that no item holds. Its label is empty.
    Filler {
        /// The first sample.
        start: u64,
        /// How many samples follow the first one.
        dur: u64,
    },
}

impl Entry {
    /// When the entry is.
    pub fn time(&self) -> Time
        ensures { result ≡ entry_time self.now }
    {
        match self {
            Entry::Held { time, .. } => *time,
            Entry::Filler { start, dur } => Time::Span {
                start: *start,
                dur: *dur,
            },
        }
    }

    /// The label.
    pub fn label(&self) -> &str
        ensures { result.now ≡ entry_label self.now }
    {
        match self {
            Entry::Held { label, .. } => label.as_str(),
            Entry::Filler { .. } => "",
        }
    }
}

/// The last sample; 0 where there is no time.
pub fn last_sample(time: Time) -> u64
    requires { last_sample time < SAMPLES }
    ensures { result ≡ last_sample time }
{
    match time {
        Time::NoTime => 0,
        Time::Span { start, dur } => start + dur,
        Time::Point { at } => at,
    }
}

/// The label of the first attribute. The only refusal is want of memory.
fn first_label(alloc: Global, labels: &Labels) -> Result<Text, Memory>
    ensures { IfOk result (λ label. label ≡ first_label labels.now) }
{
    match labels.as_slice() {
        [label, ..] => label.copy(alloc),
        [] => Text::new(alloc, ""),
    }
}

/// The entry of an item. The only refusal is want of memory.
fn entry_of(alloc: Global, item: &Item) -> Result<Entry, Memory>
    ensures { IfOk result (λ entry. entry ≡ entry_of item.now) }
{
    let label = first_label(alloc, &item.labels)?;
    Ok(Entry::Held {
        time: item.time,
        label,
    })
}

/// Puts a filler last that goes from one sample up to another, where there is a sample between them. The
/// only refusal is want of memory.
fn put_gap(entries: &mut Series<Entry>, from: u64, to: u64) -> Result<(), Memory>
    ensures { OnOk result (entries.new ≡ entries.old ++ gap from to) }
{
    if from < to {
        entries.push(Entry::Filler {
            start: from,
            dur: to - from - 1,
        })?;
    }
    Ok(())
}

/// The filled list of a SEGMENT level: its items, and a filler wherever they leave samples out below the
/// end. The only refusal is want of memory.
#[tactic(auto, unfolding(crate::specs::Filled::filled))]
pub fn filled(alloc: Global, end: u64, items: &[Item]) -> Result<Series<Entry>, Memory>
    requires within { AreWithin end 0 items.now }
    requires end { end ≤ SAMPLES }
    ensures { IfOk result (λ made. made ≡ filled end items.now) }
{
    let mut entries = Series::new(alloc);
    let mut from = 0;
    for item in items {
        put_gap(&mut entries, from, item.time.first_sample())?;
        entries.push(entry_of(alloc, item)?)?;
        from = last_sample(item.time) + 1;
    }
    put_gap(&mut entries, from, end)?;
    Ok(entries)
}

/// The entries of items, without fillers. The only refusal is want of memory.
pub fn entries_of(alloc: Global, items: &[Item]) -> Result<Series<Entry>, Memory>
    ensures { IfOk result (λ made. made ≡ map entry_of items.now) }
{
    let mut entries = Series::new(alloc);
    for item in items {
        entries.push(entry_of(alloc, item)?)?;
    }
    Ok(entries)
}
