//! A TextGrid as it is read, before it is made an annotation.
ghost use Rattle.std.specs.Prelude.{◌≡◌, IfOk};

use emu_names::{Memory, PlainData, Series, Text};
use sample_time::Decimal;
use std::alloc::Global;

/// An interval of a tier. (Praat manual, "TextGrid file formats": `intervals`.)
#[derive(Drop)]
pub struct GridInterval {
    /// Where it begins, in seconds.
    pub xmin: Decimal,
    /// Where it ends, in seconds.
    pub xmax: Decimal,
    /// Its label.
    pub text: Text,
}

/// The intervals of a tier, in order.
pub type GridIntervals = Series<GridInterval>;

/// A point of a tier. (Praat manual, "TextGrid file formats": `points`.)
#[derive(Drop)]
pub struct GridPoint {
    /// Where it is, in seconds.
    pub time: Decimal,
    /// Its label.
    pub mark: Text,
}

/// The points of a tier, in order.
pub type GridPoints = Series<GridPoint>;

/// The entries of a tier, which are all of one class.
#[derive(Drop)]
pub enum GridEntries {
    /// Those of an interval tier (`IntervalTier`).
    Intervals(GridIntervals),
    /// Those of a point tier (`TextTier`).
    Points(GridPoints),
}

/// A tier. (Praat manual, "TextGrid file formats": `item`.)
#[derive(Drop)]
pub struct GridTier {
    /// Its name.
    pub name: Text,
    /// Where it begins, in seconds.
    pub xmin: Decimal,
    /// Where it ends, in seconds.
    pub xmax: Decimal,
    /// Its entries.
    pub entries: GridEntries,
}

/// The tiers of a TextGrid, in order.
pub type GridTiers = Series<GridTier>;

/// A TextGrid. (Praat manual, "TextGrid file formats".)
#[derive(Drop)]
pub struct Grid {
    /// Where it begins, in seconds.
    pub xmin: Decimal,
    /// Where it ends, in seconds.
    pub xmax: Decimal,
    /// Its tiers.
    pub tiers: GridTiers,
}

impl GridInterval {
    /// The same interval again. The only refusal is want of memory.
    pub fn copy(&self, alloc: Global) -> Result<GridInterval, Memory>
        ensures { IfOk result (λ made. made ≡ self.now) }
    {
        let text = self.text.copy(alloc)?;
        Ok(GridInterval {
            xmin: self.xmin,
            xmax: self.xmax,
            text,
        })
    }
}

impl GridPoint {
    /// The same point again. The only refusal is want of memory.
    pub fn copy(&self, alloc: Global) -> Result<GridPoint, Memory>
        ensures { IfOk result (λ made. made ≡ self.now) }
    {
        let mark = self.mark.copy(alloc)?;
        Ok(GridPoint {
            time: self.time,
            mark,
        })
    }
}

impl GridEntries {
    /// The same entries again. The only refusal is want of memory.
    pub fn copy(&self, alloc: Global) -> Result<GridEntries, Memory>
        ensures { IfOk result (λ made. made ≡ self.now) }
    {
        match self {
            GridEntries::Intervals(intervals) => Ok(GridEntries::Intervals(intervals.copy(alloc)?)),
            GridEntries::Points(points) => Ok(GridEntries::Points(points.copy(alloc)?)),
        }
    }
}

impl GridTier {
    /// The same tier again. The only refusal is want of memory.
    pub fn copy(&self, alloc: Global) -> Result<GridTier, Memory>
        ensures { IfOk result (λ made. made ≡ self.now) }
    {
        let name = self.name.copy(alloc)?;
        let entries = self.entries.copy(alloc)?;
        Ok(GridTier {
            name,
            xmin: self.xmin,
            xmax: self.xmax,
            entries,
        })
    }
}

impl Grid {
    /// The same grid again. The only refusal is want of memory.
    pub fn copy(&self, alloc: Global) -> Result<Grid, Memory>
        ensures { IfOk result (λ made. made ≡ self.now) }
    {
        let tiers = self.tiers.copy(alloc)?;
        Ok(Grid {
            xmin: self.xmin,
            xmax: self.xmax,
            tiers,
        })
    }
}

impl PlainData for GridInterval {
    fn copy(&self, alloc: Global) -> Result<GridInterval, Memory> {
        GridInterval::copy(self, alloc)
    }
}

impl PlainData for GridPoint {
    fn copy(&self, alloc: Global) -> Result<GridPoint, Memory> {
        GridPoint::copy(self, alloc)
    }
}

impl PlainData for GridTier {
    fn copy(&self, alloc: Global) -> Result<GridTier, Memory> {
        GridTier::copy(self, alloc)
    }
}
