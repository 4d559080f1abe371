//! The annotation that a grid gives.
ghost use Rattle.emu_names.specs.declared.limits.TheConstants.{TOP_RATE};
ghost use Rattle.std.specs.Prelude.{◌≡◌, ◌≢◌, ◌+◌, ◌≤◌, ◌<◌, ◌^◌, IfOk, IfErr, Ok, Err, length, All, ◌∷◌, []};
ghost use Rattle.textgrid.specs.Inner.Told.{TellsFault};
ghost use Rattle.textgrid.specs.Levels.{time_fault, span_of, point_of, item_of, segments_from, events_from, entry_count, level_of, levels_from, annot_of};
ghost use Rattle.textgrid.specs.Inner.Levels.{entry_total};
ghost use Rattle.textgrid.specs.Inner.Short.{IsShort, IsShortSpan, IsShortPoint, AreShort, IsShortTier, IsShortGrid};

use crate::fault::GridFault;
use crate::grid::{Grid, GridEntries, GridInterval, GridPoint, GridTier};
use emu_names::{ItemId, LevelKind, Memory, Text};
use level_items::{
    Annot, AnnotItem, AnnotItems, AnnotLabel, AnnotLabels, AnnotLevel, AnnotLevels, AnnotLinks,
    Time,
};
use sample_time::{TimeFault, first_sample_from, nearest_sample};
use std::alloc::Global;

/// The fault of a time of an entry.
fn time_fault(fault: TimeFault, tier: u32, entry: u32) -> GridFault
    ensures { result ≡ time_fault tier entry fault }
{
    match fault {
        TimeFault::NegativeTime => GridFault::NegativeTime { tier, entry },
        TimeFault::TimeTooLarge => GridFault::TimeTooLarge { tier, entry },
    }
}

/// The samples of an interval: from the first one at or behind its begin to the last one before its
/// end.
fn span(interval: &GridInterval, rate: u32, tier: u32, entry: u32) -> Result<Time, GridFault>
    requires rate_above { 1 ≤ rate }
    requires rate_below { rate ≤ TOP_RATE }
    requires begin { IsShort interval.now.xmin }
    requires end { IsShort interval.now.xmax }
    ensures { result ≡ span_of rate tier entry interval.now }
{
    let begin = match first_sample_from(&interval.xmin, rate) {
        Ok(sample) => sample,
        Err(fault) => return Err(time_fault(fault, tier, entry)),
    };
    let end = match first_sample_from(&interval.xmax, rate) {
        Ok(sample) => sample,
        Err(fault) => return Err(time_fault(fault, tier, entry)),
    };
    if begin < end {
        Ok(Time::Span {
            start: begin,
            dur: end - begin - 1,
        })
    } else {
        Err(GridFault::EmptyInterval { tier, entry })
    }
}

/// The sample of a point: the nearest one.
fn point(point: &GridPoint, rate: u32, tier: u32, entry: u32) -> Result<Time, GridFault>
    requires rate_above { 1 ≤ rate }
    requires rate_below { rate ≤ TOP_RATE }
    requires time { IsShort point.now.time }
    ensures { result ≡ point_of rate tier entry point.now }
{
    match nearest_sample(&point.time, rate) {
        Ok(at) => Ok(Time::Point { at }),
        Err(fault) => Err(time_fault(fault, tier, entry)),
    }
}

/// The item of an entry, whose one label has the level's name.
fn item(alloc: Global, level: &Text, id: u32, time: Time, label: &Text) -> Result<AnnotItem, Memory>
    ensures { IfOk result (λ made. made ≡ item_of level.now id time label.now) }
{
    let mut labels = AnnotLabels::new(alloc);
    let name = level.copy(alloc)?;
    let value = label.copy(alloc)?;
    labels.push(AnnotLabel { name, value })?;
    Ok(AnnotItem {
        id: ItemId(id),
        time,
        labels,
    })
}

/// The items of intervals, whose ids go on from `before`.
fn segments(
    alloc: Global,
    rate: u32,
    tier: u32,
    before: u32,
    level: &Text,
    entries: &[GridInterval],
) -> Result<AnnotItems, GridFault>
    requires rate_above { 1 ≤ rate }
    requires rate_below { rate ≤ TOP_RATE }
    requires room { before + length entries.now < 2 ^ 32 }
    requires short { All IsShortSpan entries.now }
    ensures ok { let told = segments_from rate tier before level.now 0 entries.now
        in IfOk result (λ items. told ≡ Ok items) }
    ensures err { TellsFault result (segments_from rate tier before level.now 0 entries.now) }
{
    let mut items = AnnotItems::new(alloc);
    for (index, entry) in entries.iter().enumerate() {
        let number = index as u32 + 1;
        let time = span(entry, rate, tier, number)?;
        let made = item(alloc, level, before + number, time, &entry.text)?;
        items.push(made)?;
    }
    Ok(items)
}

/// The items of points, whose ids go on from `before`.
fn events(
    alloc: Global,
    rate: u32,
    tier: u32,
    before: u32,
    level: &Text,
    entries: &[GridPoint],
) -> Result<AnnotItems, GridFault>
    requires rate_above { 1 ≤ rate }
    requires rate_below { rate ≤ TOP_RATE }
    requires room { before + length entries.now < 2 ^ 32 }
    requires short { All IsShortPoint entries.now }
    ensures ok { let told = events_from rate tier before level.now 0 entries.now
        in IfOk result (λ items. told ≡ Ok items) }
    ensures err { TellsFault result (events_from rate tier before level.now 0 entries.now) }
{
    let mut items = AnnotItems::new(alloc);
    for (index, entry) in entries.iter().enumerate() {
        let number = index as u32 + 1;
        let time = point(entry, rate, tier, number)?;
        let made = item(alloc, level, before + number, time, &entry.mark)?;
        items.push(made)?;
    }
    Ok(items)
}

/// How many entries there are.
fn entry_count(entries: &GridEntries) -> usize
    ensures { result ≡ entry_count entries.now }
{
    match entries {
        GridEntries::Intervals(intervals) => intervals.len(),
        GridEntries::Points(points) => points.len(),
    }
}

/// The level of a tier, whose ids go on from `before`.
fn level(
    alloc: Global,
    rate: u32,
    number: u32,
    before: u32,
    tier: &GridTier,
) -> Result<AnnotLevel, GridFault>
    requires rate_above { 1 ≤ rate }
    requires rate_below { rate ≤ TOP_RATE }
    requires room { before + entry_count tier.now.entries < 2 ^ 32 }
    requires short { AreShort tier.now.entries }
    ensures ok { IfOk result (λ level. level_of rate number before tier.now ≡ Ok level) }
    ensures err { TellsFault result (level_of rate number before tier.now) }
{
    let (kind, items) = match &tier.entries {
        GridEntries::Intervals(intervals) => {
            let list = intervals.as_slice();
            let items = segments(alloc, rate, number, before, &tier.name, list)?;
            (LevelKind::Segment, items)
        }
        GridEntries::Points(points) => {
            let list = points.as_slice();
            let items = events(alloc, rate, number, before, &tier.name, list)?;
            (LevelKind::Event, items)
        }
    };
    let name = tier.name.copy(alloc)?;
    Ok(AnnotLevel { name, kind, items })
}

/// The levels of the tiers.
fn levels(alloc: Global, rate: u32, tiers: &[GridTier]) -> Result<AnnotLevels, GridFault>
    requires rate_above { 1 ≤ rate }
    requires rate_below { rate ≤ TOP_RATE }
    requires tiers { length tiers.now < 2 ^ 32 }
    requires entries { entry_total tiers.now < 2 ^ 32 }
    requires short { All IsShortTier tiers.now }
    ensures ok { IfOk result (λ levels. levels_from rate 0 0 tiers.now ≡ Ok levels) }
    ensures err { TellsFault result (levels_from rate 0 0 tiers.now) }
{
    let mut levels = AnnotLevels::new(alloc);
    let mut before: u32 = 0;
    for (index, tier) in tiers.iter().enumerate() {
        let made = level(alloc, rate, index as u32 + 1, before, tier)?;
        levels.push(made)?;
        before += entry_count(&tier.entries) as u32;
    }
    Ok(levels)
}

/// The annotation of the grid at `rate` samples a second.
///
/// An interval tier becomes a SEGMENT level and a point tier an EVENT level, of the tier's name. Each
/// entry, also one with an empty text, is an item whose one label has the level's name. An interval has
/// the samples from the first one at or behind its begin to the last one before its end, a point the
/// nearest sample. Ids count from 1 through all tiers. There is no sound file and no link.
///
/// Refused is the first entry with a time below 0 (`NegativeTime`), with one whose sample would be past
/// the last one that an annotation may have (`TimeTooLarge`), or without a sample (`EmptyInterval`);
/// of an interval the begin is looked at first.
pub fn to_annot(alloc: Global, rate: u32, grid: &Grid) -> Result<Annot, GridFault>
    requires rate_above { 1 ≤ rate }
    requires rate_below { rate ≤ TOP_RATE }
    requires tiers { length grid.now.tiers < 2 ^ 32 }
    requires entries { entry_total grid.now.tiers < 2 ^ 32 }
    requires short { IsShortGrid grid.now }
    ensures ok { IfOk result (λ annot. annot_of rate grid.now ≡ Ok annot) }
    ensures err { TellsFault result (annot_of rate grid.now) }
{
    let levels = levels(alloc, rate, grid.tiers.as_slice())?;
    let annotates = Text::new(alloc, "")?;
    Ok(Annot {
        annotates,
        rate: rate as u64,
        levels,
        links: AnnotLinks::new(alloc),
    })
}
