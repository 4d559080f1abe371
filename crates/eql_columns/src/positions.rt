//! Tests of where items stand below items of an upper level, and of how many items an item dominates:
//! each row of bits, one for each upper item, is asked for its first bit, its last bit or its count.
ghost use Rattle.std.specs.Prelude.{◌≡◌, ◌<◌, All, false, length, map, replicate, slice_set, IfOk, OnOk};
ghost use Rattle.bundle_state.specs.Built.{FitsConfig};
ghost use Rattle.hier_closure.specs.Dominance.{ids_at};
ghost use Rattle.eql_model.specs.Positions.{has_number, has_place};
ghost use Rattle.eql_model.specs.Inner.Bits.{row_counts};
ghost use Rattle.level_items.specs.Levels.{items_at};
ghost use Rattle.eql_columns.specs.Inner.Rows.{any_bits, IsUnsetFor};
ghost use Rattle.eql_columns.specs.Inner.Places.{AddsPlaced, ArePlaced, PassPlace};

use crate::rows::{none_set, turn};
use bundle_index::Indexed;
use db_config::Config;
use emu_names::Memory;
use eql_syntax::{Compare, Place};
use hier_closure::Closure;
use lane_bits::{BitRow, SpanRow, and_into};
use std::alloc::Global;

/// The row without its first and its last bit. The only refusal is want of memory.
fn inner_bits(alloc: Global, row: &SpanRow, first: usize, last: usize) -> Result<SpanRow, Memory>
    requires first { first < length row.now }
    requires last { last < length row.now }
    ensures { IfOk result (λ inner. inner ≡ slice_set (slice_set row.now first false) last false) }
{
    let mut inner = match row.copy(alloc) {
        Ok(inner) => inner,
        Err(_) => return Err(Memory),
    };
    inner.clear(first);
    inner.clear(last);
    Ok(inner)
}

/// Sets the bit of the first item with a bit of the row.
fn add_first(placed: &mut BitRow, row: &SpanRow)
    requires { length placed.old ≡ length row.now }
    ensures { AddsPlaced Place.Start row.now placed.old placed.new }
{
    let Some(first) = row.first() else {
        return;
    };
    placed.set(first, true);
}

/// Sets the bit of the last item with a bit of the row.
fn add_last(placed: &mut BitRow, row: &SpanRow)
    requires { length placed.old ≡ length row.now }
    ensures { AddsPlaced Place.End row.now placed.old placed.new }
{
    let Some(last) = row.last() else {
        return;
    };
    placed.set(last, true);
}

/// Sets the bits of the items with a bit of the row that are neither the first nor the last one. The only
/// refusal is want of memory.
fn add_inner(alloc: Global, placed: &mut BitRow, row: &SpanRow) -> Result<(), Memory>
    requires { length placed.old ≡ length row.now }
    ensures { OnOk result (AddsPlaced Place.Medial row.now placed.old placed.new) }
{
    let Some(first) = row.first() else {
        return Ok(());
    };
    let Some(last) = row.last() else {
        return Ok(());
    };
    let inner = inner_bits(alloc, row, first, last)?;
    inner.join_into(placed);
    Ok(())
}

/// Sets the bits of the items that stand at a place among those with a bit of the row. Only the end that is
/// asked for is looked for. The only refusal is want of memory.
fn add_placed(alloc: Global, placed: &mut BitRow, row: &SpanRow, place: Place) -> Result<(), Memory>
    requires { length placed.old ≡ length row.now }
    ensures { OnOk result (AddsPlaced place row.now placed.old placed.new) }
{
    match place {
        Place::Start => add_first(placed, row),
        Place::Medial => add_inner(alloc, placed, row)?,
        Place::End => add_last(placed, row),
    }
    Ok(())
}

/// Sets the bits of the lower items that stand at a place among those with a bit of some row, in a row of
/// which no bit is set. The only refusal is want of memory.
fn set_placed(
    alloc: Global,
    rows: &Closure,
    count: usize,
    place: Place,
    placed: &mut BitRow,
) -> Result<(), Memory>
    requires count { count ≡ length rows.now }
    requires wide { All (λ row. length row ≡ length placed.old) rows.now }
    requires unset { placed.old ≡ replicate (length placed.old) false }
    ensures { OnOk result (ArePlaced place rows.now (length placed.old) placed.new) }
{
    for upper in 0..count {
        add_placed(alloc, placed, rows.row(upper), place)?;
    }
    Ok(())
}

/// For each lower item whether some row has its bit. The only refusal is want of memory.
fn bits_below(alloc: Global, rows: &Closure, count: usize, width: usize) -> Result<BitRow, Memory>
    requires count { count ≡ length rows.now }
    requires wide { All (λ row. length row ≡ width) rows.now }
    ensures { IfOk result (λ any. any ≡ any_bits width rows.now) }
{
    let mut any = none_set(alloc, width)?;
    for upper in 0..count {
        rows.row(upper).join_into(&mut any);
    }
    Ok(any)
}

/// Sets the bits of the lower items that pass a test of their place, in a row of which no bit is set. The
/// only refusal is want of memory.
fn set_place_bits(
    alloc: Global,
    rows: &Closure,
    count: usize,
    place: Place,
    wanted: bool,
    passed: &mut BitRow,
) -> Result<(), Memory>
    requires count { count ≡ length rows.now }
    requires wide { All (λ row. length row ≡ length passed.old) rows.now }
    requires unset { passed.old ≡ replicate (length passed.old) false }
    ensures { OnOk result (PassPlace place wanted rows.now (length passed.old) passed.new) }
{
    set_placed(alloc, rows, count, place, passed)?;
    if wanted {
        return Ok(());
    }
    turn(passed);
    let below = bits_below(alloc, rows, count, passed.len())?;
    and_into(passed, &below);
    Ok(())
}

/// Sets the bits of the items of the lower level that pass a test of their place, in a row of which no bit is
/// set. The only refusal is want of memory.
pub(crate) fn set_position_bits(
    alloc: Global,
    config: &Config,
    indexed: &Indexed,
    levels: (usize, usize),
    place: Place,
    wanted: bool,
    row: &mut BitRow,
) -> Result<(), Memory>
    requires fits { FitsConfig config.now indexed.now.bundle }
    requires upper { levels.0 < length indexed.now.bundle.levels }
    requires lower { levels.1 < length indexed.now.bundle.levels }
    requires unset { IsUnsetFor indexed.now.bundle levels.1 row.old }
    ensures { OnOk result (row.new ≡ map (λ item. has_place indexed.now.bundle.links
        (ids_at indexed.now.bundle.levels levels.0) (ids_at indexed.now.bundle.levels levels.1) place wanted item.id.0)
        (items_at indexed.now.bundle.levels levels.1)) }
{
    let (upper, lower) = levels;
    let bundle = indexed.bundle();
    let _items = bundle.item_count();
    let count = eql_rows::items_at(bundle, upper).len();
    if let Some(rows) = indexed.kept_closure(config, upper, lower) {
        return set_place_bits(alloc, rows, count, place, wanted, row);
    }
    let rows = indexed.closure(alloc, config, upper, lower)?;
    set_place_bits(alloc, &rows, count, place, wanted, row)
}

/// Sets the bit of each row of which the number of bits compares so with a number. There is a bit for each.
fn set_count_bits(rows: &Closure, compare: Compare, number: u32, made: &mut BitRow)
    requires { length made.old ≡ length rows.now }
    ensures { made.new ≡ map (row_counts compare number) rows.now }
{
    for upper in 0..made.len() {
        let is = eql_model::row_counts(rows.row(upper), compare, number);
        made.set(upper, is);
    }
}

/// Sets the bits of the items of the upper level that pass a test of the number of items that they dominate,
/// in a row of which no bit is set. The only refusal is want of memory.
pub(crate) fn set_number_bits(
    alloc: Global,
    config: &Config,
    indexed: &Indexed,
    levels: (usize, usize),
    compare: Compare,
    number: u32,
    row: &mut BitRow,
) -> Result<(), Memory>
    requires fits { FitsConfig config.now indexed.now.bundle }
    requires upper { levels.0 < length indexed.now.bundle.levels }
    requires lower { levels.1 < length indexed.now.bundle.levels }
    requires unset { IsUnsetFor indexed.now.bundle levels.0 row.old }
    ensures { OnOk result (row.new ≡ map (λ item. has_number indexed.now.bundle.links
        (ids_at indexed.now.bundle.levels levels.1) compare number item.id.0)
        (items_at indexed.now.bundle.levels levels.0)) }
{
    let (upper, lower) = levels;
    if let Some(rows) = indexed.kept_closure(config, upper, lower) {
        set_count_bits(rows, compare, number, row);
        return Ok(());
    }
    let rows = indexed.closure(alloc, config, upper, lower)?;
    set_count_bits(&rows, compare, number, row);
    Ok(())
}
