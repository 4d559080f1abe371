//! The rows of a level, as they are kept: one for each item, or one that all items share. Copies share them.
ghost use Rattle.std.specs.Prelude.{◌≡◌, ◌<◌, false, length, slice_get, IfOk, Some};
ghost use Rattle.db_config.specs.Above.{is_above};
ghost use Rattle.hier_closure.specs.Dominance.{closure_of};
ghost use Rattle.hier_closure.specs.Inner.Held.{rows_in};

use crate::levels::Rows;
use bundle_state::Bundle;
use emu_names::{Memory, PlainData, Shared};
use lane_bits::SpanRow;
use std::alloc::Global;

/// The rows of the items of a level.
#[derive(Drop)]
pub(crate) enum Held {
    /// A row for each item.
    Each(Shared<Rows>),
    /// How many items there are, and the row that each of them has.
    Alike(usize, SpanRow),
}

impl Held {
    /// The rows of a level from which no path of definitions leads down to the lower one: no bit is set
    /// in them. The only refusal is want of memory.
    pub(crate) fn unset(
        alloc: Global,
        bundle: &Bundle,
        upper: usize,
        lower: usize,
    ) -> Result<Held, Memory>
        requires upper { upper < length bundle.now.levels }
        requires lower { lower < length bundle.now.levels }
        requires aside { is_above bundle.now.definitions upper lower ≡ false }
        ensures { IfOk result (λ held. rows_in held ≡ closure_of bundle.now lower upper) }
    {
        let _items = bundle.item_count();
        let width = bundle.level(lower).len();
        let count = bundle.level(upper).len();
        match SpanRow::new(alloc, width) {
            Ok(row) => Ok(Held::Alike(count, row)),
            Err(_) => Err(Memory),
        }
    }

    /// The row of an item, by its position.
    pub(crate) fn row(&self, position: usize) -> &SpanRow
        requires { position < length (rows_in self.now) }
        ensures { slice_get (rows_in self.now) position ≡ Some result.now }
    {
        match self {
            Held::Each(rows) => rows.as_ref().get(position),
            Held::Alike(_, row) => row,
        }
    }
    /// The same rows again, of which each item's own get one owner more. The only refusal is want of memory.
    pub(crate) fn copy(&self, alloc: Global) -> Result<Held, Memory>
        ensures { IfOk result (λ held. rows_in held ≡ rows_in self.now) }
    {
        match self {
            Held::Each(rows) => Ok(Held::Each(rows.copy(alloc)?)),
            Held::Alike(count, row) => match row.copy(alloc) {
                Ok(row) => Ok(Held::Alike(*count, row)),
                Err(_) => Err(Memory),
            },
        }
    }
}
