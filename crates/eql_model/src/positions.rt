//! Tests of where items stand below items of an upper level, and of how many items an item dominates,
//! by rows of bits: one row for each upper item, one bit for each lower one.
ghost use Rattle.std.specs.Prelude.{◌≡◌, ◌<◌, All, length, map, IfOk, get_or, not};
ghost use Rattle.std.specs.List.{items_where_true, list_any, range_with_len};
ghost use Rattle.level_items.specs.Levels.{ids_of};
ghost use Rattle.eql_rows.specs.Inner.Flags.{flag_at};
ghost use Rattle.eql_model.specs.Positions.{is_first, is_last, stands, compares};
ghost use Rattle.eql_model.specs.Inner.Bits.{row_stands, rows_place, row_counts};

use crate::flags::Flags;
use emu_names::{Memory, Series};
use eql_syntax::{Compare, Place};
use hier_closure::Closure;
use lane_bits::SpanRow;
use level_items::Item;
use std::alloc::Global;

/// Whether the item at a position is the first of those with a bit.
fn is_first(row: &SpanRow, lowers: &[Item], at: usize) -> bool
    requires wide { length row.now ≡ length lowers.now }
    requires at { at < length lowers.now }
    ensures { result ≡ is_first (items_where_true row.now (ids_of lowers.now))
        (get_or (ids_of lowers.now) at 0) }
{
    match row.first() {
        Some(first) => lowers[first].id.0 == lowers[at].id.0,
        None => false,
    }
}

/// Whether the item at a position is the last of those with a bit.
fn is_last(row: &SpanRow, lowers: &[Item], at: usize) -> bool
    requires wide { length row.now ≡ length lowers.now }
    requires at { at < length lowers.now }
    ensures { result ≡ is_last (items_where_true row.now (ids_of lowers.now))
        (get_or (ids_of lowers.now) at 0) }
{
    match row.last() {
        Some(last) => lowers[last].id.0 == lowers[at].id.0,
        None => false,
    }
}

/// Whether the item at a position stands at a place among those with a bit.
fn stands(row: &SpanRow, lowers: &[Item], place: Place, at: usize) -> bool
    requires wide { length row.now ≡ length lowers.now }
    requires at { at < length lowers.now }
    ensures { result ≡ stands place (items_where_true row.now (ids_of lowers.now))
        (get_or (ids_of lowers.now) at 0) }
{
    match place {
        Place::Start => is_first(row, lowers, at),
        Place::Medial => !is_first(row, lowers, at) && !is_last(row, lowers, at),
        Place::End => is_last(row, lowers, at),
    }
}

/// The bit of a row.
fn has_bit(row: &SpanRow, at: usize) -> bool
    requires { at < length row.now }
    ensures { result ≡ flag_at at row.now }
{
    row.get(at)
}

/// Whether a row has the bit of the item at a position, and the item stands at a place among those with
/// a bit.
fn row_stands(row: &SpanRow, lowers: &[Item], place: Place, at: usize) -> bool
    requires wide { length row.now ≡ length lowers.now }
    requires at { at < length lowers.now }
    ensures { result ≡ row_stands (ids_of lowers.now) place at row.now }
{
    has_bit(row, at) && stands(row, lowers, place, at)
}

/// Whether some row has the bit of a position.
fn some_bit(rows: &Closure, count: usize, at: usize) -> bool
    requires count { count ≡ length rows.now }
    requires wide { All (λ row. at < length row) rows.now }
    ensures { result ≡ list_any (flag_at at) rows.now }
{
    for upper in 0..count {
        if has_bit(rows.row(upper), at) {
            return true;
        }
    }
    false
}

/// Whether some row makes the item at a position stand at a place.
fn some_stands(rows: &Closure, count: usize, lowers: &[Item], place: Place, at: usize) -> bool
    requires count { count ≡ length rows.now }
    requires wide { All (λ row. length row ≡ length lowers.now) rows.now }
    requires at { at < length lowers.now }
    ensures { result ≡ list_any (row_stands (ids_of lowers.now) place at) rows.now }
{
    for upper in 0..count {
        if row_stands(rows.row(upper), lowers, place, at) {
            return true;
        }
    }
    false
}

/// Whether the item at a position passes a test of its place.
fn has_place(
    rows: &Closure,
    count: usize,
    lowers: &[Item],
    place: Place,
    wanted: bool,
    at: usize,
) -> bool
    requires count { count ≡ length rows.now }
    requires wide { All (λ row. length row ≡ length lowers.now) rows.now }
    requires at { at < length lowers.now }
    ensures { result ≡ rows_place rows.now (ids_of lowers.now) place wanted at }
{
    if wanted {
        some_stands(rows, count, lowers, place, at)
    } else {
        some_bit(rows, count, at) && !some_stands(rows, count, lowers, place, at)
    }
}

/// For each lower item whether it passes a test of its place. The only refusal is want of memory.
pub(crate) fn place_flags(
    alloc: Global,
    rows: &Closure,
    count: usize,
    lowers: &[Item],
    place: Place,
    wanted: bool,
) -> Result<Flags, Memory>
    requires count { count ≡ length rows.now }
    requires wide { All (λ row. length row ≡ length lowers.now) rows.now }
    ensures { IfOk result (λ flags. flags ≡ map (rows_place rows.now (ids_of lowers.now) place wanted)
        (range_with_len 0 (length lowers.now))) }
{
    let mut flags = Series::new(alloc);
    for at in 0..lowers.len() {
        flags.push(has_place(rows, count, lowers, place, wanted, at))?;
    }
    Ok(flags)
}

/// How two numbers compare.
fn compares(compare: Compare, count: usize, number: usize) -> bool
    ensures { result ≡ compares compare count number }
{
    match compare {
        Compare::Eq => count == number,
        Compare::Ne => count != number,
        Compare::Lt => count < number,
        Compare::Le => count <= number,
        Compare::Gt => count > number,
        Compare::Ge => count >= number,
    }
}

/// Whether the number of a row's bits compares so with a number.
pub fn row_counts(row: &SpanRow, compare: Compare, number: u32) -> bool
    ensures { result ≡ row_counts compare number row.now }
{
    compares(compare, row.count(), number as usize)
}

/// For each upper item how the number of its bits compares with a number. The only refusal is want of
/// memory.
pub(crate) fn count_flags(
    alloc: Global,
    rows: &Closure,
    count: usize,
    compare: Compare,
    number: u32,
) -> Result<Flags, Memory>
    requires { count ≡ length rows.now }
    ensures { IfOk result (λ flags. flags ≡ map (row_counts compare number) rows.now) }
{
    let mut flags = Series::new(alloc);
    for upper in 0..count {
        flags.push(row_counts(rows.row(upper), compare, number))?;
    }
    Ok(flags)
}
