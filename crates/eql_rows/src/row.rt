//! Segment lists, the answers to queries.
ghost use Rattle.std.specs.Prelude.{◌≡◌};
ghost use Rattle.eql_rows.specs.Inner.Numbers.{numbers_of};

use emu_names::{ItemId, Memory, PlainData, Series, Text};
use std::alloc::Global;

/// A row of a segment list (EMU-SDMS Manual, "The EMU Query Language (EQL)": segment lists).
#[derive(Drop)]
pub struct Row {
    /// The bundle's session.
    pub session: Text,
    /// The bundle's name.
    pub bundle: Text,
    /// The level of the items.
    pub level: Text,
    /// The attribute whose labels are shown.
    pub attribute: Text,
    /// The labels, joined by `->`.
    pub labels: Text,
    /// Where it starts, in microseconds.
    pub start: Option<u64>,
    /// Where it ends, in microseconds.
    pub end: Option<u64>,
    /// Its first sample.
    pub sample_start: Option<u64>,
    /// Its last sample.
    pub sample_end: Option<u64>,
    /// Samples a second.
    pub rate: u32,
    /// The first item.
    pub start_item: ItemId,
    /// The last item.
    pub end_item: ItemId,
    /// The first item's position on its level, counted from 0.
    pub start_pos: u32,
    /// The last item's position on its level.
    pub end_pos: u32,
}

/// What a row has beside texts: when it is, and which items it shows.
#[derive(Clone, Copy)]
pub struct RowNumbers {
    /// Where it starts, in microseconds.
    pub start: Option<u64>,
    /// Where it ends, in microseconds.
    pub end: Option<u64>,
    /// Its first sample.
    pub sample_start: Option<u64>,
    /// Its last sample.
    pub sample_end: Option<u64>,
    /// Samples a second.
    pub rate: u32,
    /// The first item.
    pub start_item: ItemId,
    /// The last item.
    pub end_item: ItemId,
    /// The first item's position on its level, counted from 0.
    pub start_pos: u32,
    /// The last item's position on its level.
    pub end_pos: u32,
}

impl Row {
    /// The numbers of the row.
    pub fn numbers(&self) -> RowNumbers
        ensures { result ≡ numbers_of self.now }
    {
        RowNumbers {
            start: self.start,
            end: self.end,
            sample_start: self.sample_start,
            sample_end: self.sample_end,
            rate: self.rate,
            start_item: self.start_item,
            end_item: self.end_item,
            start_pos: self.start_pos,
            end_pos: self.end_pos,
        }
    }
}

/// The rows of an answer, in order.
pub type SegmentList = Series<Row>;

impl PlainData for Row {
    fn copy(&self, alloc: Global) -> Result<Row, Memory> {
        let session = self.session.copy(alloc)?;
        let bundle = self.bundle.copy(alloc)?;
        let level = self.level.copy(alloc)?;
        let attribute = self.attribute.copy(alloc)?;
        let labels = self.labels.copy(alloc)?;
        Ok(Row {
            session,
            bundle,
            level,
            attribute,
            labels,
            start: self.start,
            end: self.end,
            sample_start: self.sample_start,
            sample_end: self.sample_end,
            rate: self.rate,
            start_item: self.start_item,
            end_item: self.end_item,
            start_pos: self.start_pos,
            end_pos: self.end_pos,
        })
    }
}
