//! The row of one item, which joins those of the items that it links to.
ghost use Rattle.std.specs.Prelude.{◌≡◌, ◌<◌, ◌||◌, [], All, get_or, length, map, slice_get, IfOk, OnOk, Some};
ghost use Rattle.std.specs.List.{list_any};
ghost use Rattle.std.specs.Simd.Lanes.{zip2};
ghost use Rattle.bundle_state.specs.Bundle.{place_of};
ghost use Rattle.bundle_state.specs.Valid.{KeepsBundleRules};
ghost use Rattle.hier_closure.specs.Dominance.{is_or_dominates, ids_at};
ghost use Rattle.hier_closure.specs.Inner.Ranks.{IsUnder, AreMadeAtItem};
ghost use Rattle.hier_closure.specs.Inner.Stands.{IsReady, id_at, stand_id};

use crate::closure::Closure;
use crate::stands::Stand;
use bundle_state::Bundle;
use db_config::Config;
use emu_names::{ItemId, Memory};
use lane_bits::SpanRow;
use std::alloc::Global;

/// The row that is kept of the item at a position of a level.
fn kept_row(table: &[Closure], level: usize, position: usize) -> &SpanRow
    requires { position < length (get_or table.now level []) }
    ensures { slice_get (get_or table.now level []) position ≡ Some result.now }
{
    table[level].row(position)
}

/// The level and the position of an item, which is looked for at a position of a level first.
pub(crate) fn place_near(
    bundle: &Bundle,
    near: (usize, usize),
    id: ItemId,
) -> Option<(usize, usize)>
    requires rules { KeepsBundleRules bundle.now }
    requires level { near.0 < length bundle.now.levels }
    ensures { result ≡ place_of bundle.now.levels id.0 }
{
    match bundle.level(near.0).as_slice().get(near.1) {
        Some(item) if item.id == id => Some(near),
        _ => bundle.place(id),
    }
}

/// The level and the position of an item, which is looked for at this place first, if there is such a level.
pub(crate) fn place_from(
    bundle: &Bundle,
    near: (usize, usize),
    id: ItemId,
) -> Option<(usize, usize)>
    requires { KeepsBundleRules bundle.now }
    ensures { result ≡ place_of bundle.now.levels id.0 }
{
    if near.0 < bundle.level_count() {
        place_near(bundle, near, id)
    } else {
        bundle.place(id)
    }
}

/// Sets the bits of a row that stand for the item at a place and for those that it dominates. The only refusal is
/// want of memory.
fn add_stand(
    alloc: Global,
    row: &mut SpanRow,
    config: &Config,
    bundle: &Bundle,
    lower: usize,
    table: &[Closure],
    stand: Stand,
) -> Result<(), Memory>
    requires under { IsUnder config.now bundle.now }
    requires lower { lower < length bundle.now.levels }
    requires wide { length row.old ≡ length (ids_at bundle.now.levels lower) }
    requires ready { IsReady bundle.now lower table.now stand }
    ensures { OnOk result (row.new ≡ zip2 (λ a b. a || b) row.old (map
        (λ b. is_or_dominates bundle.now.links b (stand_id bundle.now stand)) (ids_at bundle.now.levels lower))) }
{
    let level = stand.level as usize;
    let position = stand.position as usize;
    if level == lower {
        return match row.set(alloc, position) {
            Ok(()) => Ok(()),
            Err(_) => Err(Memory),
        };
    }
    if config.is_above(level, lower) {
        return match row.join(alloc, kept_row(table, level, position)) {
            Ok(()) => Ok(()),
            Err(_) => Err(Memory),
        };
    }
    Ok(())
}

/// The row of the items at some places and of those that they dominate. The only refusal is want of memory.
pub(crate) fn joined_row(
    alloc: Global,
    config: &Config,
    bundle: &Bundle,
    lower: usize,
    table: &[Closure],
    stands: &[Stand],
) -> Result<SpanRow, Memory>
    requires under { IsUnder config.now bundle.now }
    requires lower { lower < length bundle.now.levels }
    requires ready { All (IsReady bundle.now lower table.now) stands.now }
    ensures { IfOk result (λ row. row ≡ map (λ b. list_any (is_or_dominates bundle.now.links b)
        (map (stand_id bundle.now) stands.now)) (ids_at bundle.now.levels lower)) }
{
    let mut row = match SpanRow::new(alloc, bundle.level(lower).len()) {
        Ok(row) => row,
        Err(_) => return Err(Memory),
    };
    for at in 0..stands.len() {
        add_stand(alloc, &mut row, config, bundle, lower, table, stands[at])?;
    }
    Ok(row)
}
