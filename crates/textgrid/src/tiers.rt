//! Tiers and the whole grid, read from the values that are left.
ghost use Rattle.std.specs.Prelude.{◌≡◌, ◌≤◌, IfOk};
ghost use Rattle.textgrid.specs.Reading.{tier_head_at, entries_at, tier_at, times_at, grid_head_at, grid_at};
ghost use Rattle.textgrid.specs.Inner.Reading.{Reads};

use crate::entries::{
    Halt, class, count, end, flag, header, intervals, number, points, text, title,
};
use crate::grid::{Grid, GridEntries, GridTier, GridTiers};
use crate::values::Values;
use emu_names::Text;
use sample_time::Decimal;
use std::alloc::Global;

/// What stands in a tier before its entries.
#[derive(Drop)]
pub struct TierHead {
    /// Whether its class is that of intervals.
    pub intervals: bool,
    pub name: Text,
    pub xmin: Decimal,
    pub xmax: Decimal,
    /// How many entries follow.
    pub count: u32,
}

/// What stands in a grid before its tiers.
#[derive(Clone, Copy)]
pub struct GridHead {
    pub xmin: Decimal,
    pub xmax: Decimal,
    /// How many tiers follow.
    pub count: u32,
}

/// What stands in a tier before its entries.
fn tier_head(values: &mut Values) -> Result<TierHead, Halt>
    ensures { Reads result (tier_head_at values.old) values.new }
{
    let intervals = class(values)?;
    let name = text(values)?;
    let xmin = number(values)?;
    let xmax = number(values)?;
    let count = count(values)?;
    Ok(TierHead {
        intervals,
        name,
        xmin,
        xmax,
        count,
    })
}

/// So many entries of one class.
fn entries(
    alloc: Global,
    values: &mut Values,
    are_intervals: bool,
    count: u32,
) -> Result<GridEntries, Halt>
    ensures { Reads result (entries_at are_intervals count values.old) values.new }
{
    if are_intervals {
        let list = intervals(alloc, values, count)?;
        Ok(GridEntries::Intervals(list))
    } else {
        let list = points(alloc, values, count)?;
        Ok(GridEntries::Points(list))
    }
}

/// A tier.
fn tier(alloc: Global, values: &mut Values) -> Result<GridTier, Halt>
    ensures { Reads result (tier_at values.old) values.new }
{
    let head = tier_head(values)?;
    let entries = entries(alloc, values, head.intervals, head.count)?;
    Ok(GridTier {
        name: head.name,
        xmin: head.xmin,
        xmax: head.xmax,
        entries,
    })
}

/// So many tiers.
fn tiers(alloc: Global, values: &mut Values, count: u32) -> Result<GridTiers, Halt>
    ensures { Reads result (times_at tier_at count values.old) values.new }
{
    let mut made = GridTiers::new(alloc);
    for _ in 0..count {
        let one = tier(alloc, values)?;
        made.push(one)?;
    }
    Ok(made)
}

/// What stands in a grid before its tiers.
fn grid_head(values: &mut Values) -> Result<GridHead, Halt>
    ensures { Reads result (grid_head_at values.old) values.new }
{
    header(values)?;
    title(values)?;
    let xmin = number(values)?;
    let xmax = number(values)?;
    flag(values)?;
    let count = count(values)?;
    Ok(GridHead { xmin, xmax, count })
}

/// The whole grid.
pub fn grid(alloc: Global, values: &mut Values) -> Result<Grid, Halt>
    ensures { Reads result (grid_at values.old) values.new }
{
    let head = grid_head(values)?;
    let tiers = tiers(alloc, values, head.count)?;
    end(values)?;
    Ok(Grid {
        xmin: head.xmin,
        xmax: head.xmax,
        tiers,
    })
}
