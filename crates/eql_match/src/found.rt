//! What a part of a query finds: single items by their bits, or tuples.
ghost use Rattle.std.specs.Prelude.{◌≡◌, ◌<◌, ◌≤◌, ◌++◌, ◌∷◌, [], ◌+◌, All, false, length, map, replicate, IfOk, OnOk};
ghost use Rattle.std.specs.List.{filter, range_with_len};
ghost use Rattle.emu_names.specs.declared.limits.TheConstants.{BUNDLE_ITEMS};
ghost use Rattle.bundle_state.specs.Built.{FitsConfig};
ghost use Rattle.hier_closure.specs.Dominance.{closure_of};
ghost use Rattle.eql_rows.specs.Inner.Flags.{flag_at};
ghost use Rattle.eql_model.specs.Meaning.{single};
ghost use Rattle.level_items.specs.Levels.{items_at};
ghost use Rattle.eql_match.specs.Inner.Found.{above_some, followed, neighbours, tuples_in, with_below, AreDominant, AreSides, IsClearWhere, IsRowOf, IsShort};

use crate::conjunction::singles_where;
use bundle_index::Indexed;
use db_config::Config;
use emu_names::{Memory, Series};
use eql_columns::none_set;
use eql_tuples::{Tuple, Tuples};
use hier_closure::Closure;
use lane_bits::{BitRow, and_into};
use std::alloc::Global;

/// What a part of a query finds.
#[derive(Drop)]
pub(crate) enum Found {
    /// Single items without a mark, by their bits.
    Items(BitRow),
    /// Tuples in order.
    Tuples(Tuples),
}

/// What the set places of a row stand for: single items, or, where the condition is marked, tuples with
/// marks. The only refusal is want of memory.
pub(crate) fn found_where(alloc: Global, met: BitRow, marked: bool) -> Result<Found, Memory>
    requires { length met ≤ BUNDLE_ITEMS }
    ensures tuples { IfOk result (λ made. tuples_in made ≡ map (single marked)
        (filter (λ k. flag_at k met) (range_with_len 0 (length met)))) }
    ensures row { IfOk result (λ made. IsRowOf (length met) marked made) }
{
    if !marked {
        return Ok(Found::Items(met));
    }
    let made = singles_where(alloc, &met, marked)?;
    Ok(Found::Tuples(made))
}

/// What two parts of a query find: the rows of both, or the tuples of both.
#[derive(Drop)]
pub(crate) enum Sides {
    /// Single items without a mark, by their bits.
    Rows(BitRow, BitRow),
    /// Tuples in order.
    Lists(Tuples, Tuples),
}

/// A row beside what another part finds. The only refusal is want of memory.
fn beside_row(alloc: Global, lefts: BitRow, rights: Found) -> Result<Sides, Memory>
    requires { length lefts ≤ BUNDLE_ITEMS }
    ensures { IfOk result (AreSides (Found.Items lefts) rights) }
{
    match rights {
        Found::Items(rights) => Ok(Sides::Rows(lefts, rights)),
        Found::Tuples(rights) => {
            let lefts = singles_where(alloc, &lefts, false)?;
            Ok(Sides::Lists(lefts, rights))
        }
    }
}

/// Tuples beside what another part finds. The only refusal is want of memory.
fn beside_list(alloc: Global, lefts: Tuples, rights: Found) -> Result<Sides, Memory>
    requires { IsShort rights }
    ensures { IfOk result (AreSides (Found.Tuples lefts) rights) }
{
    match rights {
        Found::Items(rights) => {
            let rights = singles_where(alloc, &rights, false)?;
            Ok(Sides::Lists(lefts, rights))
        }
        Found::Tuples(rights) => Ok(Sides::Lists(lefts, rights)),
    }
}

/// What two parts find, side by side: where one of them is a list of tuples, a list is made of the other.
/// The only refusal is want of memory.
pub(crate) fn side_by_side(alloc: Global, lefts: Found, rights: Found) -> Result<Sides, Memory>
    requires lefts { IsShort lefts }
    requires rights { IsShort rights }
    ensures { IfOk result (AreSides lefts rights) }
{
    match lefts {
        Found::Items(lefts) => beside_row(alloc, lefts, rights),
        Found::Tuples(lefts) => beside_list(alloc, lefts, rights),
    }
}

/// The stretch of an item and the one behind it.
fn neighbours(at: usize) -> Tuple
    requires { at < BUNDLE_ITEMS }
    ensures { result ≡ neighbours at }
{
    Tuple {
        first: at as u32,
        last: at as u32 + 1,
        mark: None,
    }
}

/// Puts the stretch of an item and the one behind it last, where a row has the bit of that one. The only
/// refusal is want of memory.
fn put_followed(made: &mut Tuples, rights: &BitRow, at: usize) -> Result<(), Memory>
    requires { at < BUNDLE_ITEMS }
    ensures { OnOk result (made.new ≡ made.old
        ++ map neighbours (filter (λ k. flag_at (k + 1) rights.now) (at ∷ []))) }
{
    if at + 1 >= rights.len() || !rights.get(at + 1) {
        return Ok(());
    }
    made.push(neighbours(at))
}

/// The stretches of each two items that follow each other. The only refusal is want of memory.
pub(crate) fn follow(alloc: Global, lefts: &BitRow, rights: &BitRow) -> Result<Tuples, Memory>
    requires { length lefts.now ≤ BUNDLE_ITEMS }
    ensures { IfOk result (λ made. made ≡ followed lefts.now rights.now) }
{
    let mut made = Series::new(alloc);
    let mut from = 0;
    while let Some(at) = lefts.next(from) {
        from = at + 1;
        put_followed(&mut made, rights, at)?;
    }
    Ok(made)
}

/// Sets the bits of the left items that dominate some right one, in a row of which no bit is set.
fn set_above(rows: &Closure, lefts: &BitRow, rights: &BitRow, made: &mut BitRow)
    requires few { length lefts.now ≤ BUNDLE_ITEMS }
    requires rows { length rows.now ≡ length lefts.now }
    requires wide { All (λ row. length row ≡ length rights.now) rows.now }
    requires unset { made.old ≡ replicate (length lefts.now) false }
    ensures { made.new ≡ above_some rows.now lefts.now rights.now }
{
    let mut from = 0;
    while let Some(at) = lefts.next(from) {
        from = at + 1;
        let bit = rows.row(at).meets(rights);
        made.set(at, bit);
    }
}

/// Sets the bits of the items that some right one dominates beside those that are set, and clears what is no
/// left item.
fn add_below(rows: &Closure, lefts: &BitRow, rights: &BitRow, made: &mut BitRow)
    requires few { length rights.now ≤ BUNDLE_ITEMS }
    requires rows { length rows.now ≡ length rights.now }
    requires wide { All (λ row. length row ≡ length lefts.now) rows.now }
    requires long { length made.old ≡ length lefts.now }
    ensures { made.new ≡ with_below rows.now lefts.now rights.now made.old }
{
    let mut from = 0;
    while let Some(at) = rights.next(from) {
        from = at + 1;
        rows.row(at).join_into(made);
    }
    and_into(made, lefts);
}

/// Sets the bits of the left items that dominate some right one, in a row of which no bit is set. None does
/// where no path of definitions leads down to the right level. The only refusal is want of memory.
fn set_above_right(
    alloc: Global,
    config: &Config,
    indexed: &Indexed,
    levels: (usize, usize),
    lefts: &BitRow,
    rights: &BitRow,
    made: &mut BitRow,
) -> Result<(), Memory>
    requires fits { FitsConfig config.now indexed.now.bundle }
    requires left { levels.0 < length indexed.now.bundle.levels }
    requires right { levels.1 < length indexed.now.bundle.levels }
    requires lefts { length lefts.now ≡ length (items_at indexed.now.bundle.levels levels.0) }
    requires rights { length rights.now ≡ length (items_at indexed.now.bundle.levels levels.1) }
    requires unset { made.old ≡ replicate (length lefts.now) false }
    ensures { OnOk result (made.new
        ≡ above_some (closure_of indexed.now.bundle levels.1 levels.0) lefts.now rights.now) }
{
    let _items = indexed.bundle().item_count();
    if !config.is_above(levels.0, levels.1) {
        return Ok(());
    }
    if let Some(rows) = indexed.kept_closure(config, levels.0, levels.1) {
        set_above(rows, lefts, rights, made);
        return Ok(());
    }
    let rows = indexed.closure_where(alloc, config, levels.0, levels.1, lefts)?;
    set_above(&rows, lefts, rights, made);
    Ok(())
}

/// Sets the bits of the left items that some right one dominates, beside those of the left items that
/// dominate some right one. None is where no path of definitions leads down to the left level. The only
/// refusal is want of memory.
fn add_below_right(
    alloc: Global,
    config: &Config,
    indexed: &Indexed,
    levels: (usize, usize),
    lefts: &BitRow,
    rights: &BitRow,
    made: &mut BitRow,
) -> Result<(), Memory>
    requires fits { FitsConfig config.now indexed.now.bundle }
    requires left { levels.0 < length indexed.now.bundle.levels }
    requires right { levels.1 < length indexed.now.bundle.levels }
    requires lefts { length lefts.now ≡ length (items_at indexed.now.bundle.levels levels.0) }
    requires rights { length rights.now ≡ length (items_at indexed.now.bundle.levels levels.1) }
    requires above { made.old
        ≡ above_some (closure_of indexed.now.bundle levels.1 levels.0) lefts.now rights.now }
    ensures { OnOk result (AreDominant (closure_of indexed.now.bundle levels.1 levels.0)
        (closure_of indexed.now.bundle levels.0 levels.1) lefts.now rights.now made.new) }
{
    let _items = indexed.bundle().item_count();
    if !config.is_above(levels.1, levels.0) {
        return Ok(());
    }
    if let Some(rows) = indexed.kept_closure(config, levels.1, levels.0) {
        add_below(rows, lefts, rights, made);
        return Ok(());
    }
    let rows = indexed.closure_where(alloc, config, levels.1, levels.0, rights)?;
    add_below(&rows, lefts, rights, made);
    Ok(())
}

/// The left items that dominate some right one, or that some right one dominates, by one row in which both
/// are set. The only refusal is want of memory.
fn either_way(
    alloc: Global,
    config: &Config,
    indexed: &Indexed,
    levels: (usize, usize),
    lefts: &BitRow,
    rights: &BitRow,
) -> Result<BitRow, Memory>
    requires fits { FitsConfig config.now indexed.now.bundle }
    requires left { levels.0 < length indexed.now.bundle.levels }
    requires right { levels.1 < length indexed.now.bundle.levels }
    requires lefts { length lefts.now ≡ length (items_at indexed.now.bundle.levels levels.0) }
    requires rights { length rights.now ≡ length (items_at indexed.now.bundle.levels levels.1) }
    ensures { IfOk result (λ made. AreDominant (closure_of indexed.now.bundle levels.1 levels.0)
        (closure_of indexed.now.bundle levels.0 levels.1) lefts.now rights.now made) }
{
    let mut made = none_set(alloc, lefts.len())?;
    set_above_right(alloc, config, indexed, levels, lefts, rights, &mut made)?;
    add_below_right(alloc, config, indexed, levels, lefts, rights, &mut made)?;
    Ok(made)
}

/// Whether a row has no bit.
fn is_clear(row: &BitRow) -> bool
    ensures { IsClearWhere result row.now }
{
    row.first().is_none()
}

/// The left items of which one dominates some right item, or some right item dominates it. None is asked
/// for where one of the two rows has no bit. The only refusal is want of memory.
pub(crate) fn dominating(
    alloc: Global,
    config: &Config,
    indexed: &Indexed,
    levels: (usize, usize),
    lefts: &BitRow,
    rights: &BitRow,
) -> Result<BitRow, Memory>
    requires fits { FitsConfig config.now indexed.now.bundle }
    requires left { levels.0 < length indexed.now.bundle.levels }
    requires right { levels.1 < length indexed.now.bundle.levels }
    requires lefts { length lefts.now ≡ length (items_at indexed.now.bundle.levels levels.0) }
    requires rights { length rights.now ≡ length (items_at indexed.now.bundle.levels levels.1) }
    ensures { IfOk result (λ made. AreDominant (closure_of indexed.now.bundle levels.1 levels.0)
        (closure_of indexed.now.bundle levels.0 levels.1) lefts.now rights.now made) }
{
    if is_clear(lefts) || is_clear(rights) {
        return none_set(alloc, lefts.len());
    }
    either_way(alloc, config, indexed, levels, lefts, rights)
}
