//! When a result is: its first and its last sample, and its borders in microseconds.
ghost use Rattle.std.specs.Prelude.{◌≡◌, ◌<◌, ◌≤◌, ◌^◌, All, length, true, Some, option_map};
ghost use Rattle.std.specs.List.Sorted.{IsNonDecreasingBy};
ghost use Rattle.level_items.specs.Times.{ends_in_time, first_sample, last_sample};
ghost use Rattle.level_items.specs.Levels.{items_at};
ghost use Rattle.eql_rows.specs.Rows.{items_of, end_to_end, start_of, end_of};
ghost use Rattle.eql_rows.specs.Inner.Times.{AreInTime};
ghost use Rattle.eql_rows.specs.Spans.{IsStretchIn};
ghost use Rattle.eql_tuples.specs.Tuples.{from_to};

use crate::span::Span;
use bundle_state::Bundle;
use emu_names::LevelKind;
use level_items::{Item, Time};
use sample_time::{micros_of_end, micros_of_point, micros_of_start};

/// When a row begins and ends, in microseconds and in samples.
#[derive(Clone, Copy)]
pub(crate) struct RowTimes {
    pub(crate) start: Option<u64>,
    pub(crate) end: Option<u64>,
    pub(crate) sample_start: Option<u64>,
    pub(crate) sample_end: Option<u64>,
}

/// The items of a level, whose times end below sample 2^40, and of which neither the first samples nor the last
/// ones fall.
pub fn timed_items(bundle: &Bundle, level: usize) -> &[Item]
    requires { level < length bundle.now.levels }
    ensures items { result.now ≡ items_at bundle.now.levels level }
    ensures in_time { All (λ i. ends_in_time i.time ≡ true) result.now }
    ensures starts { IsNonDecreasingBy (λ i. first_sample i.time) result.now }
    ensures ends { IsNonDecreasingBy (λ i. last_sample i.time) result.now }
{
    bundle.level(level).as_slice()
}

/// The last sample of a time; 0 where there is none.
fn last_sample(time: Time) -> u64
    requires { ends_in_time time ≡ true }
    ensures last { result ≡ last_sample time }
    ensures in_time { result < 2 ^ 40 }
{
    match time {
        Time::NoTime => 0,
        Time::Span { start, dur } => start + dur,
        Time::Point { at } => at,
    }
}

/// The first sample of the item at the one place and the last one of the item at the other. The places are
/// counted from 0, the first is not past the last, and the times of the items end below sample 2^40.
pub fn ends_between(items: &[Item], first: usize, last: usize) -> (u64, u64)
    requires order { first ≤ last }
    requires within { last < length items.now }
    requires in_time { All (λ i. ends_in_time i.time ≡ true) items.now }
    ensures ends { Some result ≡ end_to_end (from_to items.now first last) }
    ensures in_time { AreInTime (Some result) }
{
    let start = items[first].time.first_sample();
    let end = last_sample(items[last].time);
    (start, end)
}

/// The first sample of the first item of a result and the last one of its last item.
pub fn ends_of(bundle: &Bundle, span: Span) -> Option<(u64, u64)>
    requires span { IsStretchIn bundle.now span }
    requires level { span.level < length bundle.now.levels }
    ensures ends { result ≡ end_to_end (items_of bundle.now span) }
    ensures in_time { AreInTime result }
{
    let items = timed_items(bundle, span.level as usize);
    let ends = ends_between(items, span.first as usize, span.last as usize);
    Some(ends)
}

/// The microseconds at which a result begins.
fn start_of(kind: LevelKind, rate: u32, sample: u64) -> u64
    requires sample { sample < 2 ^ 40 }
    requires rate_above { 1 ≤ rate }
    requires rate_below { rate ≤ 1000000 }
    ensures { result ≡ start_of kind rate sample }
{
    match kind {
        LevelKind::Item => micros_of_start(sample, rate),
        LevelKind::Segment => micros_of_start(sample, rate),
        LevelKind::Event => micros_of_point(sample, rate),
    }
}

/// The microseconds at which a result ends.
fn end_of(kind: LevelKind, rate: u32, sample: u64) -> u64
    requires sample { sample < 2 ^ 40 }
    requires rate_above { 1 ≤ rate }
    requires rate_below { rate ≤ 1000000 }
    ensures { result ≡ end_of kind rate sample }
{
    match kind {
        LevelKind::Item => micros_of_end(sample, rate),
        LevelKind::Segment => micros_of_end(sample, rate),
        LevelKind::Event => micros_of_point(sample, rate),
    }
}

/// When a row with these samples is. `rate` is in samples a second.
pub(crate) fn times_of(kind: LevelKind, rate: u32, samples: Option<(u64, u64)>) -> RowTimes
    requires samples { AreInTime samples }
    requires rate_above { 1 ≤ rate }
    requires rate_below { rate ≤ 1000000 }
    ensures start { result.start ≡ option_map (λ s. start_of kind rate s.0) samples }
    ensures end { result.end ≡ option_map (λ s. end_of kind rate s.1) samples }
    ensures sample_start { result.sample_start ≡ option_map (λ s. s.0) samples }
    ensures sample_end { result.sample_end ≡ option_map (λ s. s.1) samples }
{
    match samples {
        Some((first, last)) => RowTimes {
            start: Some(start_of(kind, rate, first)),
            end: Some(end_of(kind, rate, last)),
            sample_start: Some(first),
            sample_end: Some(last),
        },
        None => RowTimes {
            start: None,
            end: None,
            sample_start: None,
            sample_end: None,
        },
    }
}
