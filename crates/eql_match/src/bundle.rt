//! The results of a query in a bundle with its columns.
ghost use Rattle.std.specs.Prelude.{◌≡◌, false};
ghost use Rattle.std.specs.List.{flat_map, list_all};
ghost use Rattle.std.specs.List.Sorted.{IsStrictlySortedBy};
ghost use Rattle.bundle_state.specs.Built.{FitsConfig};
ghost use Rattle.eql_resolve.specs.Asked.{mark_place, shown_place};
ghost use Rattle.eql_resolve.specs.Sound.{IsQueryOf};
ghost use Rattle.eql_resolve.specs.Inner.Sound.{IsResolvedBy};
ghost use Rattle.eql_resolve.specs.Inner.View.{query_in};
ghost use Rattle.eql_tuples.specs.Shown.{shown};
ghost use Rattle.eql_model.specs.Inner.Results.{Matches};
ghost use Rattle.eql_tuples.specs.Sets.{each_once, is_over, tuple_cmp};
ghost use Rattle.eql_tuples.specs.Inner.Sets.{GivesSet};
ghost use Rattle.eql_match.specs.Inner.Found.{AreFoundFor};
ghost use Rattle.eql_match.specs.Inner.Shown.{is_bare};

use crate::evaluate::evaluate;
use crate::few::is_nothing;
use crate::found::Found;
use bundle_index::Indexed;
use db_config::{AttributePlace, Config};
use emu_names::Series;
use eql_columns::Matchers;
use eql_resolve::{Asked, AskedQuery};
use eql_rows::Spans;
use eql_tuples::{MatchFault, Tuple, Tuples};
use lane_bits::BitRow;
use std::alloc::Global;

/// Whether none of some tuples has a mark.
fn are_bare(tuples: &[Tuple]) -> bool
    ensures { result ≡ list_all is_bare tuples.now }
{
    for tuple in tuples {
        if tuple.mark.is_some() {
            return false;
        }
    }
    true
}

/// The set of what the tuples of a set show: they are it themselves, where no mark is asked for and none
/// of them has one.
fn shown_of(alloc: Global, marked: bool, found: Tuples) -> Result<Tuples, MatchFault>
    requires sorted { IsStrictlySortedBy tuple_cmp found }
    requires room { is_over found ≡ false }
    ensures { GivesSet result (each_once (flat_map (shown marked) found)) }
{
    if !marked && are_bare(found.as_slice()) {
        return Ok(found);
    }
    eql_tuples::shown_once(alloc, marked, found.as_slice())
}

/// The attribute that the results of a query show, of which this is that of the marked condition, where there is one.
fn place_shown(query: &AskedQuery, mark: Option<AttributePlace>) -> AttributePlace
    requires { mark ≡ mark_place (query_in query.now) }
    ensures { result ≡ shown_place (query_in query.now) }
{
    match mark {
        Some(place) => place,
        None => query.first_place(),
    }
}

/// The results of a query of which these are the tuples.
fn spans_of_tuples(
    alloc: Global,
    config: &Config,
    indexed: &Indexed,
    query: &AskedQuery,
    found: Tuples,
) -> Result<Spans, MatchFault>
    requires within { IsQueryOf config.now (query_in query.now) }
    requires found { AreFoundFor (Found.Tuples found) config.now indexed.now.bundle (query_in query.now) }
    ensures { Matches result config.now indexed.now.bundle (query_in query.now) }
{
    let mark = query.mark_place();
    let stretches = match shown_of(alloc, mark.is_some(), found) {
        Ok(stretches) => stretches,
        Err(fault) => return Err(fault),
    };
    match eql_rows::spans_of(
        alloc,
        config,
        place_shown(query, mark),
        stretches.as_slice(),
    ) {
        Ok(spans) => Ok(spans),
        Err(_) => Err(MatchFault::Memory),
    }
}

/// The results of a query without a mark, of which these are the items: they show its first attribute.
fn spans_of_items(
    alloc: Global,
    config: &Config,
    indexed: &Indexed,
    query: &AskedQuery,
    found: &BitRow,
) -> Result<Spans, MatchFault>
    requires within { IsQueryOf config.now (query_in query.now) }
    requires found { AreFoundFor (Found.Items found.now) config.now indexed.now.bundle (query_in query.now) }
    ensures { Matches result config.now indexed.now.bundle (query_in query.now) }
{
    let _items = indexed.bundle().item_count();
    match eql_rows::spans_of_row(alloc, config, query.first_place(), found) {
        Ok(spans) => Ok(spans),
        Err(_) => Err(MatchFault::Memory),
    }
}

/// The results of a query that finds this: none, where it is nothing.
fn spans_of_found(
    alloc: Global,
    config: &Config,
    indexed: &Indexed,
    query: &AskedQuery,
    found: Found,
) -> Result<Spans, MatchFault>
    requires within { IsQueryOf config.now (query_in query.now) }
    requires found { AreFoundFor found config.now indexed.now.bundle (query_in query.now) }
    ensures { Matches result config.now indexed.now.bundle (query_in query.now) }
{
    if is_nothing(&found) {
        return Ok(Series::new(alloc));
    }
    match found {
        Found::Items(row) => spans_of_items(alloc, config, indexed, query, &row),
        Found::Tuples(tuples) => spans_of_tuples(alloc, config, indexed, query, tuples),
    }
}

/// The results of a query in a bundle, in order of first and last position, each once, worked out with the
/// matchers of patterns that were made before. A matcher that is missing is made, and stays there.
///
/// The query was resolved by the configuration, whose levels and link definitions the bundle has.
/// `TooManyTuples` comes exactly where some part of the query has over 1,000,000 tuples in the bundle.
/// The only other refusal is want of memory.
pub fn match_with<'q>(
    alloc: Global,
    config: &Config,
    indexed: &Indexed,
    asked: &Asked<'q>,
    matchers: &mut Matchers<'q>,
) -> Result<Spans, MatchFault>
    requires resolved { IsResolvedBy config.now asked.now }
    requires fits { FitsConfig config.now indexed.now.bundle }
    ensures { Matches result config.now indexed.now.bundle asked.now.query }
{
    let query = asked.query();
    match evaluate(alloc, config, indexed, query, matchers) {
        Ok(found) => spans_of_found(alloc, config, indexed, query, found),
        Err(fault) => Err(fault),
    }
}

/// The results of a query in a bundle, in order of first and last position, each once.
///
/// The query was resolved by the configuration, whose levels and link definitions the bundle has.
/// `TooManyTuples` comes exactly where some part of the query has over 1,000,000 tuples in the bundle.
/// The only other refusal is want of memory.
pub fn match_bundle(
    alloc: Global,
    config: &Config,
    indexed: &Indexed,
    asked: &Asked,
) -> Result<Spans, MatchFault>
    requires resolved { IsResolvedBy config.now asked.now }
    requires fits { FitsConfig config.now indexed.now.bundle }
    ensures { Matches result config.now indexed.now.bundle asked.now.query }
{
    let mut matchers = Matchers::new(alloc);
    match_with(alloc, config, indexed, asked, &mut matchers)
}
