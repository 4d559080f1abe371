//! Which level is above which, worked out once for all levels of a configuration.
ghost use Rattle.std.specs.Prelude.{◌≡◌, ◌<◌, ℕ, List, ◌∷◌, [], false, map, length, IfOk, IsTrue};
ghost use Rattle.std.specs.List.{list_all, range_with_len};
ghost use Rattle.db_config.specs.Above.{is_above, leads_round};
ghost use Rattle.db_config.specs.Inner.Above.{above_row, above_rows};
ghost use Rattle.db_config.specs.Valid.{is_in_range};

use crate::parts::LinkDef;
use emu_names::{Memory, Series};
use std::alloc::Global;

/// One answer for each two levels, by the upper one and then by the lower one.
pub(crate) type Rows = Series<Series<bool>>;

/// Whether a level is above another, by the rows of some definitions.
pub(crate) fn entry(
    rows: &Rows,
    _defs: &[LinkDef],
    count: usize,
    upper: usize,
    lower: usize,
) -> bool
    requires rows { rows.now ≡ above_rows _defs.now count }
    requires upper { upper < count }
    requires lower { lower < count }
    ensures { result ≡ is_above _defs.now upper lower }
{
    *rows.get(upper).get(lower)
}

/// The row of no definition.
fn empty_row(alloc: Global, count: usize) -> Result<Series<bool>, Memory>
    ensures { IfOk result (λ row. row ≡ map (λ _. false) (range_with_len 0 count)) }
{
    let mut row = Series::new(alloc);
    for _ in 0..count {
        row.push(false)?;
    }
    Ok(row)
}

/// The rows of no definition.
fn empty_rows(alloc: Global, count: usize) -> Result<Rows, Memory>
    ensures { IfOk result (λ rows. rows ≡ above_rows [] count) }
{
    let mut rows = Series::new(alloc);
    for _ in 0..count {
        rows.push(empty_row(alloc, count)?)?;
    }
    Ok(rows)
}

/// Whether a level is above another by a definition more than those of the rows.
fn entry_with(
    rows: &Rows,
    def: &LinkDef,
    defs: &[LinkDef],
    count: usize,
    upper: usize,
    lower: usize,
) -> bool
    requires rows { rows.now ≡ above_rows defs.now count }
    requires from { def.now.upper < count }
    requires to { def.now.lower < count }
    requires upper { upper < count }
    requires lower { lower < count }
    ensures { result ≡ is_above (def.now ∷ defs.now) upper lower }
{
    let from = def.upper as usize;
    let to = def.lower as usize;
    entry(rows, defs, count, upper, lower)
        || ((upper == from || entry(rows, defs, count, upper, from))
            && (to == lower || entry(rows, defs, count, to, lower)))
}

/// A row by a definition more than those of the rows.
fn row_with(
    alloc: Global,
    rows: &Rows,
    def: &LinkDef,
    defs: &[LinkDef],
    count: usize,
    upper: usize,
) -> Result<Series<bool>, Memory>
    requires rows { rows.now ≡ above_rows defs.now count }
    requires from { def.now.upper < count }
    requires to { def.now.lower < count }
    requires upper { upper < count }
    ensures { IfOk result (λ row. row ≡ above_row (def.now ∷ defs.now) count upper) }
{
    let mut row = Series::new(alloc);
    for lower in 0..count {
        row.push(entry_with(rows, def, defs, count, upper, lower))?;
    }
    Ok(row)
}

/// The rows by a definition more.
fn rows_with(
    alloc: Global,
    rows: &Rows,
    def: &LinkDef,
    defs: &[LinkDef],
    count: usize,
) -> Result<Rows, Memory>
    requires rows { rows.now ≡ above_rows defs.now count }
    requires from { def.now.upper < count }
    requires to { def.now.lower < count }
    ensures { IfOk result (λ made. made ≡ above_rows (def.now ∷ defs.now) count) }
{
    let mut made = Series::new(alloc);
    for upper in 0..count {
        made.push(row_with(alloc, rows, def, defs, count, upper)?)?;
    }
    Ok(made)
}

/// The rows of these definitions, over so many levels. The only refusal is want of memory.
pub(crate) fn rows_of(alloc: Global, defs: &[LinkDef], count: usize) -> Result<Rows, Memory>
    requires { IsTrue (list_all (is_in_range count) defs.now) }
    ensures { IfOk result (λ rows. rows ≡ above_rows defs.now count) }
{
    match defs {
        [] => empty_rows(alloc, count),
        [first, rest @ ..] => {
            let rows = rows_of(alloc, rest, count)?;
            rows_with(alloc, &rows, first, rest, count)
        }
    }
}

/// Whether a path of the definitions leads from a level to itself.
pub(crate) fn leads_round(rows: &Rows, defs: &[LinkDef], count: usize) -> bool
    requires rows { rows.now ≡ above_rows defs.now count }
    requires range { IsTrue (list_all (is_in_range count) defs.now) }
    ensures { result ≡ leads_round defs.now }
{
    for def in defs {
        let level = def.upper as usize;
        if entry(rows, defs, count, level, level) {
            return true;
        }
    }
    false
}
