//! When items are, in samples.
ghost use Rattle.std.specs.Prelude.{◌≡◌, ◌+◌, ◌^◌, ◌<◌, MatchOption, ◌≤◌};
ghost use Rattle.level_items.specs.Times.{first_sample, last_sample, ends_in_time, fits_kind, is_before, starts_before};

use emu_names::limits::SAMPLES;
use emu_names::{LevelKind, Memory, PlainData};
use std::alloc::Global;

/// When an item is, in samples of its bundle's rate, counted from 0 (EMU-SDMS Manual, "The emuDB
/// format": `sampleStart`, `sampleDur` and `samplePoint`).
#[derive(Clone, Copy, Debug, PartialEq, Eq)]
pub enum Time {
    /// No time of its own, as on an ITEM level.
    NoTime,
    /// From sample `start` to sample `start + dur`, as on a SEGMENT level.
    Span {
        /// The first sample.
        start: u64,
        /// How many samples follow the first one.
        dur: u64,
    },
    /// At one sample, as on an EVENT level.
    Point {
        /// The sample.
        at: u64,
    },
}

impl Time {
    /// The same time again.
    pub fn copy(&self) -> Time
        ensures { result ≡ self.now }
    {
        *self
    }

    /// The first sample; 0 where there is no time.
    pub fn first_sample(self) -> u64
        ensures { result ≡ first_sample self }
    {
        match self {
            Time::NoTime => 0,
            Time::Span { start, .. } => start,
            Time::Point { at } => at,
        }
    }

    /// Whether the time is over before `later` begins.
    pub fn is_before(self, later: Time) -> bool
        ensures { result ≡ is_before self later }
    {
        let next = later.first_sample();
        match self {
            Time::NoTime => 0 < next,
            Time::Span { start, dur } => start < next && dur < next - start,
            Time::Point { at } => at < next,
        }
    }

    /// Whether the time begins before `later` does.
    pub(crate) fn starts_before(self, later: Time) -> bool
        ensures { result ≡ starts_before self later }
    {
        self.first_sample() < later.first_sample()
    }

    /// Whether the time has the form that a level of this kind asks for.
    pub fn fits_kind(self, kind: LevelKind) -> bool
        ensures { result ≡ fits_kind kind self }
    {
        match (kind, self) {
            (LevelKind::Item, Time::NoTime) => true,
            (LevelKind::Segment, Time::Span { .. }) => true,
            (LevelKind::Event, Time::Point { .. }) => true,
            _ => false,
        }
    }

    /// Whether the last sample is below 2^40.
    pub fn ends_in_time(self) -> bool
        ensures { result ≡ ends_in_time self }
    {
        match self {
            Time::NoTime => true,
            Time::Span { start, dur } => start < SAMPLES && dur < SAMPLES - start,
            Time::Point { at } => at < SAMPLES,
        }
    }
}

impl PlainData for Time {
    fn copy(&self, _alloc: Global) -> Result<Time, Memory> {
        Ok(*self)
    }
}
