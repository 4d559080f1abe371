//! Single values, and the entries of tiers, read from the values that are left.
ghost use Rattle.emu_names.specs.declared.limits.TheConstants.{GRID_ENTRIES};
ghost use Rattle.std.specs.Prelude.{◌≡◌, ◌≤◌, IfOk, IfSome};
ghost use Rattle.textgrid.specs.Reading.{number_in, text_in, flag_in, count_in, header_in, title_in, class_in, taken, number_at, text_at, flag_at, count_at, header_at, title_at, class_at, end_at, interval_at, point_at, times_at};
ghost use Rattle.textgrid.specs.Inner.Reading.{Reads, next_at, behind};

use crate::counts::count_of;
use crate::fault::GridWhat;
use crate::grid::{GridInterval, GridIntervals, GridPoint, GridPoints};
use crate::values::{Placed, Value, Values};
use emu_names::{Memory, Text};
use sample_time::Decimal;
use std::alloc::Global;

/// Why reading stops.
#[derive(Clone, Copy)]
pub enum Halt {
    /// At this place, or at the end where there is none, something else has to stand.
    Stopped(Option<u64>, GridWhat),
    /// Memory ran out.
    Memory,
}

impl From<Memory> for Halt {
    ghost use Rattle.textgrid.specs.declared.entries.Halt.TheVariants.{Memory as OutOfMemory};
    ghost use Rattle.std.specs.Prelude.{◌≡◌};

    ghost from_gives = { λ _ e. e ≡ OutOfMemory };

    fn from(_error: Memory) -> Halt {
        Halt::Memory
    }
}

/// The next value.
fn next(values: &mut Values, what: GridWhat) -> Result<Placed, Halt>
    ensures { Reads result (next_at what values.old) values.new }
{
    values.pop().ok_or(Halt::Stopped(None, what))
}

/// The number that a value is.
fn number_in(value: Value) -> Option<Decimal>
    ensures { result ≡ number_in value }
{
    match value {
        Value::Number(number) => Some(number),
        _ => None,
    }
}

/// The text that a value is.
fn text_in(value: Value) -> Option<Text>
    ensures { result ≡ text_in value }
{
    match value {
        Value::Quoted(text) => Some(text),
        _ => None,
    }
}

/// The flag `<exists>`.
fn flag_in(value: Value) -> Option<()>
    ensures { result ≡ flag_in value }
{
    match value {
        Value::Flag(true) => Some(()),
        _ => None,
    }
}

/// The count that a value is.
fn count_in(value: Value) -> Option<u32>
    ensures value { result ≡ count_in value }
    ensures within { IfSome result (λ n. n ≤ GRID_ENTRIES) }
{
    match value {
        Value::Number(number) => count_of(&number),
        _ => None,
    }
}

/// The first text of a file, long or short.
fn header_in(value: Value) -> Option<()>
    ensures { result ≡ header_in value }
{
    let text = text_in(value)?;
    let text = text.as_str();
    if text == "ooTextFile" || text == "ooTextFile short" {
        Some(())
    } else {
        None
    }
}

/// The second text of a file.
fn title_in(value: Value) -> Option<()>
    ensures { result ≡ title_in value }
{
    let text = text_in(value)?;
    if text.as_str() == "TextGrid" {
        Some(())
    } else {
        None
    }
}

/// Whether the class of a tier is that of intervals.
fn class_in(value: Value) -> Option<bool>
    ensures { result ≡ class_in value }
{
    let text = text_in(value)?;
    let text = text.as_str();
    if text == "IntervalTier" {
        Some(true)
    } else if text == "TextTier" {
        Some(false)
    } else {
        None
    }
}

/// A number.
pub fn number(values: &mut Values) -> Result<Decimal, Halt>
    ensures { Reads result (number_at values.old) values.new }
{
    let placed = next(values, GridWhat::Number)?;
    number_in(placed.value).ok_or(Halt::Stopped(Some(placed.at), GridWhat::Number))
}

/// A text.
pub fn text(values: &mut Values) -> Result<Text, Halt>
    ensures { Reads result (text_at values.old) values.new }
{
    let placed = next(values, GridWhat::Text)?;
    text_in(placed.value).ok_or(Halt::Stopped(Some(placed.at), GridWhat::Text))
}

/// The flag `<exists>`.
pub fn flag(values: &mut Values) -> Result<(), Halt>
    ensures { Reads result (flag_at values.old) values.new }
{
    let placed = next(values, GridWhat::Flag)?;
    flag_in(placed.value).ok_or(Halt::Stopped(Some(placed.at), GridWhat::Flag))
}

/// A count.
pub fn count(values: &mut Values) -> Result<u32, Halt>
    ensures value { Reads result (count_at values.old) values.new }
    ensures within { IfOk result (λ n. n ≤ GRID_ENTRIES) }
{
    let placed = next(values, GridWhat::Count)?;
    count_in(placed.value).ok_or(Halt::Stopped(Some(placed.at), GridWhat::Count))
}

/// The first text of a file.
pub fn header(values: &mut Values) -> Result<(), Halt>
    ensures { Reads result (header_at values.old) values.new }
{
    let placed = next(values, GridWhat::Header)?;
    header_in(placed.value).ok_or(Halt::Stopped(Some(placed.at), GridWhat::Header))
}

/// The second text of a file.
pub fn title(values: &mut Values) -> Result<(), Halt>
    ensures { Reads result (title_at values.old) values.new }
{
    let placed = next(values, GridWhat::Header)?;
    title_in(placed.value).ok_or(Halt::Stopped(Some(placed.at), GridWhat::Header))
}

/// The class of a tier: whether it is that of intervals.
pub fn class(values: &mut Values) -> Result<bool, Halt>
    ensures { Reads result (class_at values.old) values.new }
{
    let placed = next(values, GridWhat::TierClass)?;
    class_in(placed.value).ok_or(Halt::Stopped(Some(placed.at), GridWhat::TierClass))
}

/// Nothing more.
pub fn end(values: &mut Values) -> Result<(), Halt>
    ensures { Reads result (end_at values.old) values.new }
{
    match values.pop() {
        Some(placed) => Err(Halt::Stopped(Some(placed.at), GridWhat::End)),
        None => Ok(()),
    }
}

/// An interval.
fn interval(values: &mut Values) -> Result<GridInterval, Halt>
    ensures { Reads result (interval_at values.old) values.new }
{
    let xmin = number(values)?;
    let xmax = number(values)?;
    let text = text(values)?;
    Ok(GridInterval { xmin, xmax, text })
}

/// A point.
fn point(values: &mut Values) -> Result<GridPoint, Halt>
    ensures { Reads result (point_at values.old) values.new }
{
    let time = number(values)?;
    let mark = text(values)?;
    Ok(GridPoint { time, mark })
}

/// So many intervals.
pub fn intervals(alloc: Global, values: &mut Values, count: u32) -> Result<GridIntervals, Halt>
    ensures { Reads result (times_at interval_at count values.old) values.new }
{
    let mut made = GridIntervals::new(alloc);
    for _ in 0..count {
        let entry = interval(values)?;
        made.push(entry)?;
    }
    Ok(made)
}

/// So many points.
pub fn points(alloc: Global, values: &mut Values, count: u32) -> Result<GridPoints, Halt>
    ensures { Reads result (times_at point_at count values.old) values.new }
{
    let mut made = GridPoints::new(alloc);
    for _ in 0..count {
        let entry = point(values)?;
        made.push(entry)?;
    }
    Ok(made)
}
