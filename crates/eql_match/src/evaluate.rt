//! What a query finds in a bundle with its columns.
ghost use Rattle.std.specs.Prelude.{◌≡◌, [], map};
ghost use Rattle.bundle_state.specs.Built.{FitsConfig};
ghost use Rattle.eql_resolve.specs.Asked.{AreOnOneLevel, dominance, is_marked, level_of, sequence, terms};
ghost use Rattle.eql_resolve.specs.Sound.{IsQueryOf};
ghost use Rattle.eql_resolve.specs.Inner.View.{query_in, term_in};
ghost use Rattle.eql_match.specs.Inner.Few.{AreFewAlways};
ghost use Rattle.eql_match.specs.Inner.Found.{tuples_in, AreFoundFor, FindsAll};

use crate::conjunction::{are_marked, conjunction};
use crate::few::is_settled;
use crate::found::{Found, Sides, dominating, follow, side_by_side};
use crate::ways::{dominance, sequence};
use bundle_index::Indexed;
use db_config::Config;
use emu_names::Series;
use eql_columns::Matchers;
use eql_resolve::{AskedQuery, AskedTerm};
use eql_tuples::{MatchFault, Tuple};
use lane_bits::BitRow;
use std::alloc::Global;

/// What a conjunction on a level finds, of which a condition is marked or none is.
fn conjunction_found<'q>(
    alloc: Global,
    config: &Config,
    indexed: &Indexed,
    level: usize,
    marked: bool,
    conditions: &[AskedTerm<'q>],
    matchers: &mut Matchers<'q>,
) -> Result<Found, MatchFault>
    requires fits { FitsConfig config.now indexed.now.bundle }
    requires within { IsQueryOf config.now (terms (map term_in conditions.now)) }
    requires one_level { AreOnOneLevel (terms (map term_in conditions.now)) }
    requires level { level ≡ level_of (terms (map term_in conditions.now)) }
    requires marked { marked ≡ is_marked (terms (map term_in conditions.now)) }
    ensures { FindsAll result config.now indexed.now.bundle (terms (map term_in conditions.now)) }
{
    let _items = indexed.bundle().item_count();
    match conjunction(alloc, config, indexed, level, marked, conditions, matchers) {
        Ok(made) => Ok(made),
        Err(_) => Err(MatchFault::Memory),
    }
}

/// What a sequence of two rows finds.
fn sequence_by_rows(
    alloc: Global,
    config: &Config,
    indexed: &Indexed,
    left: &AskedQuery,
    right: &AskedQuery,
    lefts: &BitRow,
    rights: &BitRow,
) -> Result<Found, MatchFault>
    requires lefts { AreFoundFor (Found.Items lefts.now) config.now indexed.now.bundle (query_in left.now) }
    requires rights { AreFoundFor (Found.Items rights.now) config.now indexed.now.bundle (query_in right.now) }
    ensures { FindsAll result config.now indexed.now.bundle
        (sequence (query_in left.now) (query_in right.now)) }
{
    let _items = indexed.bundle().item_count();
    match follow(alloc, lefts, rights) {
        Ok(made) => Ok(Found::Tuples(made)),
        Err(_) => Err(MatchFault::Memory),
    }
}

/// What a sequence of two lists finds.
fn sequence_by_lists(
    alloc: Global,
    config: &Config,
    indexed: &Indexed,
    left: &AskedQuery,
    right: &AskedQuery,
    lefts: &[Tuple],
    rights: &[Tuple],
) -> Result<Found, MatchFault>
    requires lefts { AreFoundFor (Found.Tuples lefts.now) config.now indexed.now.bundle (query_in left.now) }
    requires rights { AreFoundFor (Found.Tuples rights.now) config.now indexed.now.bundle (query_in right.now) }
    ensures { FindsAll result config.now indexed.now.bundle
        (sequence (query_in left.now) (query_in right.now)) }
{
    match sequence(alloc, lefts, rights) {
        Ok(made) => Ok(Found::Tuples(made)),
        Err(fault) => Err(fault),
    }
}

/// What a sequence finds, from what its two parts do.
fn sequence_found(
    alloc: Global,
    config: &Config,
    indexed: &Indexed,
    left: &AskedQuery,
    right: &AskedQuery,
    lefts: Found,
    rights: Found,
) -> Result<Found, MatchFault>
    requires lefts { AreFoundFor lefts config.now indexed.now.bundle (query_in left.now) }
    requires rights { AreFoundFor rights config.now indexed.now.bundle (query_in right.now) }
    ensures { FindsAll result config.now indexed.now.bundle
        (sequence (query_in left.now) (query_in right.now)) }
{
    let _items = indexed.bundle().item_count();
    let sides = match side_by_side(alloc, lefts, rights) {
        Ok(sides) => sides,
        Err(_) => return Err(MatchFault::Memory),
    };
    match &sides {
        Sides::Rows(lefts, rights) => {
            sequence_by_rows(alloc, config, indexed, left, right, lefts, rights)
        }
        Sides::Lists(lefts, rights) => sequence_by_lists(
            alloc,
            config,
            indexed,
            left,
            right,
            lefts.as_slice(),
            rights.as_slice(),
        ),
    }
}

/// What a sequence or a dominance finds of which the left part finds nothing, and the right one cannot have too
/// many tuples.
fn nothing_joined(
    alloc: Global,
    config: &Config,
    indexed: &Indexed,
    left: &AskedQuery,
    right: &AskedQuery,
    lefts: Found,
) -> Result<Found, MatchFault>
    requires nothing { tuples_in lefts ≡ [] }
    requires few { AreFewAlways (query_in right.now) }
    requires lefts { AreFoundFor lefts config.now indexed.now.bundle (query_in left.now) }
    ensures sequence { FindsAll result config.now indexed.now.bundle
        (sequence (query_in left.now) (query_in right.now)) }
    ensures dominance { FindsAll result config.now indexed.now.bundle
        (dominance (query_in left.now) (query_in right.now)) }
{
    let _items = indexed.bundle().item_count();
    Ok(Found::Tuples(Series::new(alloc)))
}

/// What a dominance of two rows finds.
fn dominance_by_rows(
    alloc: Global,
    config: &Config,
    indexed: &Indexed,
    left: &AskedQuery,
    right: &AskedQuery,
    lefts: &BitRow,
    rights: &BitRow,
) -> Result<Found, MatchFault>
    requires fits { FitsConfig config.now indexed.now.bundle }
    requires left { IsQueryOf config.now (query_in left.now) }
    requires right { IsQueryOf config.now (query_in right.now) }
    requires lefts { AreFoundFor (Found.Items lefts.now) config.now indexed.now.bundle (query_in left.now) }
    requires rights { AreFoundFor (Found.Items rights.now) config.now indexed.now.bundle (query_in right.now) }
    ensures { FindsAll result config.now indexed.now.bundle
        (dominance (query_in left.now) (query_in right.now)) }
{
    let _items = indexed.bundle().item_count();
    let levels = (left.level(), right.level());
    match dominating(alloc, config, indexed, levels, lefts, rights) {
        Ok(made) => Ok(Found::Items(made)),
        Err(_) => Err(MatchFault::Memory),
    }
}

/// What a dominance of two lists finds.
fn dominance_by_lists(
    alloc: Global,
    config: &Config,
    indexed: &Indexed,
    left: &AskedQuery,
    right: &AskedQuery,
    lefts: &[Tuple],
    rights: &[Tuple],
) -> Result<Found, MatchFault>
    requires fits { FitsConfig config.now indexed.now.bundle }
    requires left { IsQueryOf config.now (query_in left.now) }
    requires right { IsQueryOf config.now (query_in right.now) }
    requires left_level { AreOnOneLevel (query_in left.now) }
    requires right_level { AreOnOneLevel (query_in right.now) }
    requires lefts { AreFoundFor (Found.Tuples lefts.now) config.now indexed.now.bundle (query_in left.now) }
    requires rights { AreFoundFor (Found.Tuples rights.now) config.now indexed.now.bundle (query_in right.now) }
    ensures { FindsAll result config.now indexed.now.bundle
        (dominance (query_in left.now) (query_in right.now)) }
{
    let levels = (left.level(), right.level());
    match dominance(alloc, config, indexed, levels, lefts, rights) {
        Ok(made) => Ok(Found::Tuples(made)),
        Err(fault) => Err(fault),
    }
}

/// What a dominance finds, from what its two parts do.
fn dominance_found(
    alloc: Global,
    config: &Config,
    indexed: &Indexed,
    left: &AskedQuery,
    right: &AskedQuery,
    lefts: Found,
    rights: Found,
) -> Result<Found, MatchFault>
    requires fits { FitsConfig config.now indexed.now.bundle }
    requires left { IsQueryOf config.now (query_in left.now) }
    requires right { IsQueryOf config.now (query_in right.now) }
    requires left_level { AreOnOneLevel (query_in left.now) }
    requires right_level { AreOnOneLevel (query_in right.now) }
    requires lefts { AreFoundFor lefts config.now indexed.now.bundle (query_in left.now) }
    requires rights { AreFoundFor rights config.now indexed.now.bundle (query_in right.now) }
    ensures { FindsAll result config.now indexed.now.bundle
        (dominance (query_in left.now) (query_in right.now)) }
{
    let _items = indexed.bundle().item_count();
    let sides = match side_by_side(alloc, lefts, rights) {
        Ok(sides) => sides,
        Err(_) => return Err(MatchFault::Memory),
    };
    match &sides {
        Sides::Rows(lefts, rights) => {
            dominance_by_rows(alloc, config, indexed, left, right, lefts, rights)
        }
        Sides::Lists(lefts, rights) => dominance_by_lists(
            alloc,
            config,
            indexed,
            left,
            right,
            lefts.as_slice(),
            rights.as_slice(),
        ),
    }
}

/// What a query finds. `TooManyTuples` comes exactly where the query or some part of it
/// has over 1,000,000 tuples; the only other refusal is want of memory. Where the left part of a sequence
/// or a dominance finds nothing, and the right one cannot have too many tuples, the right one is not asked.
pub(crate) fn evaluate<'q>(
    alloc: Global,
    config: &Config,
    indexed: &Indexed,
    query: &AskedQuery<'q>,
    matchers: &mut Matchers<'q>,
) -> Result<Found, MatchFault>
    requires fits { FitsConfig config.now indexed.now.bundle }
    requires within { IsQueryOf config.now (query_in query.now) }
    requires one_level { AreOnOneLevel (query_in query.now) }
    ensures { FindsAll result config.now indexed.now.bundle (query_in query.now) }
{
    match query {
        AskedQuery::Terms(conditions) => conjunction_found(
            alloc,
            config,
            indexed,
            query.level(),
            are_marked(conditions.as_slice()),
            conditions.as_slice(),
            matchers,
        ),
        AskedQuery::Sequence(left, right) => {
            let lefts = match evaluate(alloc, config, indexed, left, matchers) {
                Ok(found) => found,
                Err(fault) => return Err(fault),
            };
            if is_settled(&lefts, right) {
                return nothing_joined(alloc, config, indexed, left, right, lefts);
            }
            let rights = match evaluate(alloc, config, indexed, right, matchers) {
                Ok(found) => found,
                Err(fault) => return Err(fault),
            };
            sequence_found(alloc, config, indexed, left, right, lefts, rights)
        }
        AskedQuery::Dominance(left, right) => {
            let lefts = match evaluate(alloc, config, indexed, left, matchers) {
                Ok(found) => found,
                Err(fault) => return Err(fault),
            };
            if is_settled(&lefts, right) {
                return nothing_joined(alloc, config, indexed, left, right, lefts);
            }
            let rights = match evaluate(alloc, config, indexed, right, matchers) {
                Ok(found) => found,
                Err(fault) => return Err(fault),
            };
            dominance_found(alloc, config, indexed, left, right, lefts, rights)
        }
    }
}
