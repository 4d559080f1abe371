//! The columns of one level: the numbers of its labels, and its times.
ghost use Rattle.std.specs.Prelude.{◌≡◌, ◌<◌, ℕ, All, IfOk, IsTrue, OnOk, get_or, length, map, take};
ghost use Rattle.level_items.specs.Levels.{KeepsLevelRule, label_of};
ghost use Rattle.level_items.specs.Times.{ends_in_time, last_sample};
ghost use Rattle.bundle_index.specs.Inner.Numbered.{HasGrown, IsColumnOf};
ghost use Rattle.bundle_index.specs.Inner.Index.{has_time, have_times, if_timed, label_count};
ghost use Rattle.bundle_index.specs.Inner.Columns.{AreColumnsOf, AreLabelColumns, starts_of, ends_of};

use crate::labels::Labels;
use emu_names::{Memory, Series};
use level_items::{Item, LevelList, Time};
use std::alloc::Global;

/// The columns of one level. Those of times are empty where the items have none.
#[derive(Drop)]
pub struct LevelColumns {
    /// For each attribute the number of each item's label; none where there is no item.
    pub labels: Series<Series<u32>>,
    /// The first sample of each item.
    pub starts: Series<u64>,
    /// The last sample of each item.
    pub ends: Series<u64>,
}

/// The number at a place, or 0 where there is none.
fn near_at(near: &[u32], place: usize) -> u32 {
    match near.get(place) {
        Some(number) => *number,
        None => 0,
    }
}

/// The numbers of the items' labels for an attribute. The numbers of `near` are tried first, each at its place; of
/// them nothing is promised. The only refusal is want of memory, or of a number for a label.
fn label_column(
    alloc: Global,
    items: &[Item],
    attribute: usize,
    near: &[u32],
    labels: &mut Labels,
) -> Result<Series<u32>, Memory>
    requires { All (λ i. attribute < length i.labels) items.now }
    ensures column { IfOk result (λ column.
        IsColumnOf labels.new column (map (label_of attribute) items.now)) }
    ensures grown { OnOk result (HasGrown labels.old labels.new) }
{
    let mut column = Vec::with_capacity(alloc, items.len())?;
    for item in items {
        let near = near_at(near, column.len());
        let number = labels.number_near(alloc, item.labels.get(attribute).as_str(), near)?;
        column.push(number)?;
    }
    Ok(Series::from_vec(column))
}

/// The numbers of labels for an attribute in columns, or none.
fn near_column(near: Option<&LevelColumns>, attribute: usize) -> &[u32] {
    match near {
        Some(columns) if attribute < columns.labels.len() => {
            columns.labels.get(attribute).as_slice()
        }
        _ => &[],
    }
}

/// The columns of the first `count` attributes of the items, for which the numbers of `near` are tried first. The only
/// refusal is want of memory, or of a number for a label.
fn label_columns(
    alloc: Global,
    items: &[Item],
    count: usize,
    near: Option<&LevelColumns>,
    labels: &mut Labels,
) -> Result<Series<Series<u32>>, Memory>
    requires { All (λ i. length i.labels ≡ count) items.now }
    ensures columns { IfOk result (λ columns. AreLabelColumns labels.new items.now count columns) }
    ensures grown { OnOk result (HasGrown labels.old labels.new) }
{
    let mut columns = Series::new(alloc);
    for attribute in 0..count {
        let column = label_column(
            alloc,
            items,
            attribute,
            near_column(near, attribute),
            labels,
        )?;
        columns.push(column)?;
    }
    Ok(columns)
}

/// The first samples of the items. The only refusal is want of memory.
fn start_column(alloc: Global, items: &[Item]) -> Result<Series<u64>, Memory>
    ensures { IfOk result (λ column. column ≡ starts_of items.now) }
{
    let mut column = Vec::with_capacity(alloc, items.len())?;
    for item in items {
        column.push(item.time.first_sample())?;
    }
    Ok(Series::from_vec(column))
}

/// The last sample of a time; 0 where there is none.
fn last_sample(time: Time) -> u64
    requires { IsTrue (ends_in_time time) }
    ensures { result ≡ last_sample time }
{
    match time {
        Time::NoTime => 0,
        Time::Span { start, dur } => start + dur,
        Time::Point { at } => at,
    }
}

/// The last samples of the items. The only refusal is want of memory.
fn end_column(alloc: Global, items: &[Item]) -> Result<Series<u64>, Memory>
    requires { All (λ i. IsTrue (ends_in_time i.time)) items.now }
    ensures { IfOk result (λ column. column ≡ ends_of items.now) }
{
    let mut column = Vec::with_capacity(alloc, items.len())?;
    for item in items {
        column.push(last_sample(item.time))?;
    }
    Ok(Series::from_vec(column))
}

/// How many labels the first item has, or 0.
fn label_count(items: &[Item]) -> usize
    ensures { result ≡ label_count items.now }
{
    match items.first() {
        Some(item) => item.labels.len(),
        None => 0,
    }
}

/// Whether the first item has a time.
fn have_times(items: &[Item]) -> bool
    ensures { result ≡ have_times items.now }
{
    match items.first() {
        Some(item) => has_time(item.time),
        None => false,
    }
}

/// Whether there is a time.
fn has_time(time: Time) -> bool
    ensures { result ≡ has_time time }
{
    match time {
        Time::NoTime => false,
        Time::Span { .. } | Time::Point { .. } => true,
    }
}

/// The columns of a level with these columns of labels. The only refusal is want of memory.
fn with_times(
    alloc: Global,
    items: &[Item],
    labels: Series<Series<u32>>,
) -> Result<LevelColumns, Memory>
    requires { All (λ i. IsTrue (ends_in_time i.time)) items.now }
    ensures labels { IfOk result (λ columns. columns.labels ≡ labels) }
    ensures starts { IfOk result (λ columns.
        columns.starts ≡ if_timed items.now (starts_of items.now)) }
    ensures ends { IfOk result (λ columns.
        columns.ends ≡ if_timed items.now (ends_of items.now)) }
{
    if !have_times(items) {
        return Ok(LevelColumns {
            labels,
            starts: Series::new(alloc),
            ends: Series::new(alloc),
        });
    }
    let starts = start_column(alloc, items)?;
    let ends = end_column(alloc, items)?;
    Ok(LevelColumns {
        labels,
        starts,
        ends,
    })
}

/// The columns of a level. The numbers of labels in `near` are tried first, as columns of the level before an edit;
/// of them nothing is promised. The only refusal is want of memory, or of a number for a label.
pub fn columns_of(
    alloc: Global,
    level: &LevelList,
    near: Option<&LevelColumns>,
    labels: &mut Labels,
) -> Result<LevelColumns, Memory>
    requires { KeepsLevelRule level.now }
    ensures columns { IfOk result (λ columns. AreColumnsOf labels.new level.now columns) }
    ensures grown { OnOk result (HasGrown labels.old labels.new) }
{
    let items = level.as_slice();
    let made = label_columns(alloc, items, label_count(items), near, labels)?;
    with_times(alloc, items, made)
}
