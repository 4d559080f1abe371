//! The rows of several bundles, bundle by bundle.
ghost use Rattle.std.specs.Prelude.{◌≡◌, ◌<◌, ◌==◌, ◌++◌, ◌∷◌, [], length, slice_get, Some, OnErr, OnOk, reverse, IfOk};
ghost use Rattle.std.specs.List.Sorted.{IsPermutation};
ghost use Rattle.segment_list.specs.Merged.{RiseByKey, rows_in_turn};
ghost use Rattle.segment_list.specs.Inner.Merged.{AreApart};

use emu_names::{BundleKey, Memory};
use eql_rows::{Row, SegmentList};
use std::alloc::Global;
use std::marker::Model;

/// The rows of one bundle.
#[derive(Drop)]
pub struct Part {
    /// The bundle's key.
    pub key: BundleKey,
    /// Its rows, in order.
    pub rows: SegmentList,
}

/// The rows of several bundles, which contracts see as the list of the parts.
#[derive(Drop)]
pub struct Parts {
    list: Vec<Part>,
}

impl Model for Parts {
    ghost use Rattle.std.specs.Prelude.{List};
    ghost use Rattle.segment_list.specs.declared.parts.Part.{Part};

    ghost Value = { List Part };

    ghost view = { λ p. p.list.items };
}

impl Parts {
    /// No part. The list grows by `alloc`.
    pub fn new(alloc: Global) -> Parts
        ensures { result ≡ [] }
    {
        Parts {
            list: Vec::new(alloc),
        }
    }

    /// How many parts there are.
    pub fn len(&self) -> usize
        ensures { result ≡ length self.now }
    {
        self.list.len()
    }

    /// Whether there is no part.
    pub fn is_empty(&self) -> bool
        ensures { result ≡ (length self.now == 0) }
    {
        self.list.is_empty()
    }

    /// The part at a place, counted from 0.
    pub fn get(&self, place: usize) -> &Part
        requires { place < length self.now }
        ensures { slice_get self.now place ≡ Some result.now }
    {
        &self.list[place]
    }

    /// Puts a part last. The only refusal is want of memory, which changes nothing.
    pub fn push(&mut self, part: Part) -> Result<(), Memory>
        ensures ok { OnOk result (self.new ≡ self.old ++ part ∷ []) }
        ensures err { OnErr result (self.new ≡ self.old) }
    {
        self.list.push(part)?;
        Ok(())
    }

    /// Puts the parts in the order of their keys. The only refusal is want of memory.
    pub(crate) fn sort(&mut self) -> Result<(), Memory>
        requires { AreApart self.old }
        ensures same { IsPermutation self.old self.new }
        ensures rises { OnOk result (RiseByKey self.new) }
    {
        self.list.sort_by(|a, b| a.key.cmp(&b.key))?;
        Ok(())
    }

    /// All rows, from the last one of the last part to the first one of the first. No row is copied.
    /// The only refusal is want of memory.
    pub(crate) fn into_rows_backwards(self, alloc: Global) -> Result<Vec<Row>, Memory>
        ensures { IfOk result (λ rows. rows.items ≡ reverse (rows_in_turn self)) }
    {
        let mut parts = self.list;
        let mut rows = Vec::new(alloc);
        while let Some(part) = parts.pop() {
            push_backwards(&mut rows, part.rows)?;
        }
        Ok(rows)
    }
}

/// Moves the rows of a list behind others, from the last one to the first. The only refusal is want of
/// memory.
fn push_backwards(out: &mut Vec<Row>, rows: SegmentList) -> Result<(), Memory>
    ensures { OnOk result (out.new.items ≡ out.old.items ++ reverse rows) }
{
    let mut rows = rows;
    while !rows.is_empty() {
        let row = rows.remove(rows.len() - 1);
        out.push(row)?;
    }
    Ok(())
}
