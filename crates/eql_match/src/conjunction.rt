//! The items that a conjunction finds, and their tuples.
ghost use Rattle.std.specs.Prelude.{◌≡◌, ◌<◌, ◌≤◌, ◌++◌, ◌∷◌, [], All, length, map, IfOk, OnOk};
ghost use Rattle.std.specs.List.{filter, list_any, range_with_len};
ghost use Rattle.emu_names.specs.declared.limits.TheConstants.{BUNDLE_ITEMS};
ghost use Rattle.bundle_state.specs.Built.{FitsConfig};
ghost use Rattle.eql_resolve.specs.Asked.{is_marked_term};
ghost use Rattle.eql_resolve.specs.Inner.View.{term_in};
ghost use Rattle.eql_rows.specs.Inner.Flags.{flag_at};
ghost use Rattle.level_items.specs.Levels.{items_at};
ghost use Rattle.eql_model.specs.Meaning.{single, singles};
ghost use Rattle.eql_model.specs.Inner.Meaning.{IsTermOn};
ghost use Rattle.eql_match.specs.Inner.Found.{tuples_in, IsRowOf};

use crate::found::{Found, found_where};
use bundle_index::Indexed;
use db_config::Config;
use emu_names::{Memory, Series};
use eql_columns::{Matchers, all_met};
use eql_resolve::AskedTerm;
use eql_tuples::Tuples;
use lane_bits::BitRow;
use std::alloc::Global;

/// Puts the tuple of a position last, where a row has its bit. The only refusal is want of memory.
fn put_single(made: &mut Tuples, row: &BitRow, marked: bool, at: usize) -> Result<(), Memory>
    requires row { at < length row.now }
    requires few { at < BUNDLE_ITEMS }
    ensures { OnOk result (made.new ≡ made.old
        ++ map (single marked) (filter (λ k. flag_at k row.now) (at ∷ []))) }
{
    if !row.get(at) {
        return Ok(());
    }
    made.push(eql_model::single(marked, at))
}

/// The tuples of the positions of which a row has the bit. The only refusal is want of memory.
pub(crate) fn singles_where(alloc: Global, row: &BitRow, marked: bool) -> Result<Tuples, Memory>
    requires { length row.now ≤ BUNDLE_ITEMS }
    ensures { IfOk result (λ made. made ≡ map (single marked)
        (filter (λ k. flag_at k row.now) (range_with_len 0 (length row.now)))) }
{
    let Some(first) = row.first() else {
        return Ok(Series::new(alloc));
    };
    let Some(last) = row.last() else {
        return Ok(Series::new(alloc));
    };
    let mut made = Series::from_vec(Vec::with_capacity(alloc, row.count())?);
    for at in first..last + 1 {
        put_single(&mut made, row, marked, at)?;
    }
    Ok(made)
}

/// Whether one of some conditions is marked.
pub(crate) fn are_marked(terms: &[AskedTerm]) -> bool
    ensures { result ≡ list_any is_marked_term (map term_in terms.now) }
{
    for term in terms {
        if term.is_marked() {
            return true;
        }
    }
    false
}

/// The items of a level that meet all conditions, or their tuples, where a condition is marked. The only
/// refusal is want of memory.
pub(crate) fn conjunction<'q>(
    alloc: Global,
    config: &Config,
    indexed: &Indexed,
    level: usize,
    marked: bool,
    terms: &[AskedTerm<'q>],
    matchers: &mut Matchers<'q>,
) -> Result<Found, Memory>
    requires fits { FitsConfig config.now indexed.now.bundle }
    requires level { level < length indexed.now.bundle.levels }
    requires terms { All (λ t. IsTermOn config.now level (term_in t)) terms.now }
    requires marked { marked ≡ list_any is_marked_term (map term_in terms.now) }
    ensures tuples { IfOk result (λ made. tuples_in made ≡ singles config.now indexed.now.bundle
        (map term_in terms.now) 0 (items_at indexed.now.bundle.levels level)) }
    ensures row { IfOk result (λ made.
        IsRowOf (length (items_at indexed.now.bundle.levels level)) marked made) }
{
    let _items = indexed.bundle().item_count();
    let met = all_met(alloc, config, indexed, level, terms, matchers)?;
    found_where(alloc, met, marked)
}
