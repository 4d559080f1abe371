//! The answer to a query in one bundle, worked out plainly.
ghost use Rattle.bundle_state.specs.Built.{FitsConfig};
ghost use Rattle.eql_resolve.specs.Asked.{is_marked};
ghost use Rattle.eql_resolve.specs.Inner.Sound.{IsResolvedBy};
ghost use Rattle.eql_model.specs.Inner.Results.{Matches};
ghost use Rattle.eql_model.specs.Inner.Rows.{Answers};

use crate::evaluate::evaluate;
use crate::rows::rows_of;
use bundle_state::Bundle;
use db_config::Config;
use eql_resolve::Asked;
use eql_rows::{SegmentList, Spans, spans_of};
use eql_tuples::{MatchFault, shown_once};
use std::alloc::Global;

/// The results of a query in a bundle, in order of first and last position, each once.
///
/// The query was resolved by the configuration, whose levels and link definitions the bundle has.
/// `TooManyTuples` comes exactly where some part of the query has over 1,000,000 tuples in the bundle.
/// The only other refusal is want of memory.
pub fn match_plain(
    alloc: Global,
    config: &Config,
    bundle: &Bundle,
    asked: &Asked,
) -> Result<Spans, MatchFault>
    requires resolved { IsResolvedBy config.now asked.now }
    requires fits { FitsConfig config.now bundle.now }
    ensures { Matches result config.now bundle.now asked.now.query }
{
    let query = asked.query();
    let marked = query.is_marked();
    let found = match evaluate(alloc, config, bundle, query) {
        Ok(found) => found,
        Err(fault) => return Err(fault),
    };
    let stretches = match shown_once(alloc, marked, found.as_slice()) {
        Ok(stretches) => stretches,
        Err(fault) => return Err(fault),
    };
    match spans_of(alloc, config, query.shown_place(), stretches.as_slice()) {
        Ok(spans) => Ok(spans),
        Err(_) => Err(MatchFault::Memory),
    }
}

/// The rows of a query in a bundle, in order of first and last position, each result once.
///
/// The query was resolved by the configuration, whose levels and link definitions the bundle has.
/// `TooManyTuples` comes exactly where some part of the query has over 1,000,000 tuples in the bundle.
/// The only other refusal is want of memory.
pub fn answer_plain(
    alloc: Global,
    config: &Config,
    bundle: &Bundle,
    asked: &Asked,
) -> Result<SegmentList, MatchFault>
    requires resolved { IsResolvedBy config.now asked.now }
    requires fits { FitsConfig config.now bundle.now }
    ensures { Answers result config.now bundle.now asked.now }
{
    let spans = match match_plain(alloc, config, bundle, asked) {
        Ok(spans) => spans,
        Err(fault) => return Err(fault),
    };
    match rows_of(alloc, config, bundle, asked, spans.as_slice()) {
        Ok(rows) => Ok(rows),
        Err(_) => Err(MatchFault::Memory),
    }
}
