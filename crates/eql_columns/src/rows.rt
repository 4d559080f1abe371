//! Rows of bits, one bit for each item of a level, and what is asked of several of them at each place.
ghost use Rattle.std.specs.Prelude.{◌≡◌, All, false, true, length, map, not, replicate, IfOk};
ghost use Rattle.eql_model.specs.Labels.{is_as};
ghost use Rattle.eql_columns.specs.Inner.Rows.{any_bits};

use emu_names::Memory;
use lane_bits::{BitRow, or_into};
use std::alloc::Global;

/// A row of so many bits, none of which is set. The only refusal is want of memory.
pub fn none_set(alloc: Global, count: usize) -> Result<BitRow, Memory>
    ensures { IfOk result (λ row. row ≡ replicate count false) }
{
    match BitRow::new(alloc, count) {
        Ok(row) => Ok(row),
        Err(_) => Err(Memory),
    }
}

/// Turns each bit of a row.
pub(crate) fn turn(row: &mut BitRow)
    ensures { row.new ≡ map not row.old }
{
    for at in 0..row.len() {
        let bit = row.get(at);
        row.set(at, !bit);
    }
}

/// A row of bits, all of which are set. The only refusal is want of memory.
pub(crate) fn all_set(alloc: Global, count: usize) -> Result<BitRow, Memory>
    ensures { IfOk result (λ row. row ≡ replicate count true) }
{
    let mut row = none_set(alloc, count)?;
    turn(&mut row);
    Ok(row)
}

/// Turns each bit of a row, unless a test is to find.
pub(crate) fn turn_unless(found: bool, row: &mut BitRow)
    ensures { row.new ≡ map (is_as found) row.old }
{
    if found {
        return;
    }
    turn(row);
}

/// Sets the bits that some of these rows have, in a row of which no bit is set.
pub(crate) fn set_any(rows: &[BitRow], any: &mut BitRow)
    requires wide { All (λ row. length row ≡ length any.old) rows.now }
    requires unset { any.old ≡ replicate (length any.old) false }
    ensures { any.new ≡ any_bits (length any.old) rows.now }
{
    for row in rows {
        or_into(any, row);
    }
}
