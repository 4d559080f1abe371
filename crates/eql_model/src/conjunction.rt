//! The tuples of a conjunction: one for each item that meets all conditions.
ghost use Rattle.std.specs.Prelude.{◌≡◌, ◌<◌, ◌≤◌, ◌++◌, ◌∷◌, [], All, length, map, IfOk, OnOk};
ghost use Rattle.std.specs.List.{filter, list_all, list_any, range_with_len};
ghost use Rattle.emu_names.specs.declared.limits.TheConstants.{BUNDLE_ITEMS};
ghost use Rattle.bundle_state.specs.Built.{FitsConfig};
ghost use Rattle.eql_resolve.specs.Asked.{is_marked_term};
ghost use Rattle.eql_resolve.specs.Inner.View.{term_in};
ghost use Rattle.eql_rows.specs.Inner.Flags.{flag_at};
ghost use Rattle.eql_model.specs.Meaning.{single, singles};
ghost use Rattle.level_items.specs.Levels.{items_at};
ghost use Rattle.eql_model.specs.Inner.Meaning.{met_row, IsTermOn};

use crate::flags::{Flags, all_at};
use crate::terms::term_flags;
use bundle_state::Bundle;
use db_config::Config;
use emu_names::{Memory, Series};
use eql_resolve::AskedTerm;
use eql_rows::items_at;
use eql_tuples::{Tuple, Tuples};
use std::alloc::Global;

/// For each item of a level whether it meets a condition on that level. The only refusal is want of
/// memory.
fn met_row(
    alloc: Global,
    config: &Config,
    bundle: &Bundle,
    level: usize,
    term: &AskedTerm,
) -> Result<Flags, Memory>
    requires fits { FitsConfig config.now bundle.now }
    requires term { IsTermOn config.now level (term_in term.now) }
    ensures { IfOk result (λ flags. flags
        ≡ met_row config.now bundle.now level (term_in term.now)) }
{
    let flags = term_flags(alloc, config, bundle, term)?;
    Ok(flags)
}

/// For each condition and each item of its level whether the item meets it. The only refusal is want of
/// memory.
fn met_rows(
    alloc: Global,
    config: &Config,
    bundle: &Bundle,
    level: usize,
    terms: &[AskedTerm],
) -> Result<Series<Flags>, Memory>
    requires fits { FitsConfig config.now bundle.now }
    requires terms { All (λ t. IsTermOn config.now level (term_in t)) terms.now }
    ensures { IfOk result (λ rows. rows
        ≡ map (λ t. met_row config.now bundle.now level (term_in t)) terms.now) }
{
    let mut rows = Series::new(alloc);
    for term in terms {
        rows.push(met_row(alloc, config, bundle, level, term)?)?;
    }
    Ok(rows)
}

/// The tuple of the item at a position, which is marked or is not.
pub fn single(marked: bool, at: usize) -> Tuple
    requires { at < BUNDLE_ITEMS }
    ensures { result ≡ single marked at }
{
    let position = at as u32;
    Tuple {
        first: position,
        last: position,
        mark: if marked { Some(position) } else { None },
    }
}

/// Puts the tuple of a position last, where all rows have its flag. The only refusal is want of memory.
fn put_single(made: &mut Tuples, rows: &[Flags], marked: bool, at: usize) -> Result<(), Memory>
    requires { at < BUNDLE_ITEMS }
    ensures { OnOk result (made.new ≡ made.old
        ++ map (single marked) (filter (λ k. list_all (flag_at k) rows.now) (at ∷ []))) }
{
    if !all_at(rows, at) {
        return Ok(());
    }
    made.push(single(marked, at))
}

/// The tuples of the positions at which all rows have their flags. The only refusal is want of memory.
fn singles_where(
    alloc: Global,
    rows: &[Flags],
    marked: bool,
    count: usize,
) -> Result<Tuples, Memory>
    requires { count ≤ BUNDLE_ITEMS }
    ensures { IfOk result (λ made. made ≡ map (single marked)
        (filter (λ k. list_all (flag_at k) rows.now) (range_with_len 0 count))) }
{
    let mut made = Series::new(alloc);
    for at in 0..count {
        put_single(&mut made, rows, marked, at)?;
    }
    Ok(made)
}

/// The tuples of the items of a level that meet all conditions. The only refusal is want of memory.
pub(crate) fn conjunction(
    alloc: Global,
    config: &Config,
    bundle: &Bundle,
    level: usize,
    marked: bool,
    terms: &[AskedTerm],
) -> Result<Tuples, Memory>
    requires fits { FitsConfig config.now bundle.now }
    requires level { level < length bundle.now.levels }
    requires terms { All (λ t. IsTermOn config.now level (term_in t)) terms.now }
    requires marked { marked ≡ list_any is_marked_term (map term_in terms.now) }
    ensures { IfOk result (λ made. made ≡ singles config.now bundle.now (map term_in terms.now) 0
        (items_at bundle.now.levels level)) }
{
    let _items = bundle.item_count();
    let rows = met_rows(alloc, config, bundle, level, terms)?;
    let count = items_at(bundle, level).len();
    singles_where(alloc, rows.as_slice(), marked, count)
}
