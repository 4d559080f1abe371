//! What is asked of each bundle of a version.
ghost use Rattle.bundle_state.specs.Built.{FitsConfig};
ghost use Rattle.eql_resolve.specs.Inner.Sound.{IsResolvedBy};
ghost use Rattle.eql_match.specs.eql_model.Meaning.{has_too_many};
ghost use Rattle.eql_match.specs.eql_model.Rows.{rows};
ghost use Rattle.eql_match.specs.eql_model.Inner.Rows.{AddsRows};
ghost use Rattle.query_workers.specs.Inner.Questions.{IsAskedOf, rows_for, too_many_for};

use crate::carried::add_carried;
use db_config::{AttributePlace, Config};
use eql_match::bundle_index::Indexed;
use eql_match::eql_columns::Matchers;
use eql_match::eql_tuples::MatchFault;
use eql_match::match_with;
use eql_resolve::Asked;
use session_core::requery::Reached;
use session_core::segment_list::ListingBuilder;
use std::alloc::Global;

/// A query, or one whose results are carried.
#[derive(Clone, Copy)]
pub(crate) enum Question<'q, 'a> {
    /// The rows of its results are asked for.
    Rows(&'q Asked<'a>),
    /// The rows of what its results reach are asked for.
    Carried(&'q Reached<'a>),
}

/// Puts the rows of a query in one bundle last, in order of first and last position, each result once.
/// `TooManyTuples` comes exactly where the bundle has too many. The only other refusal is want of memory, after
/// which nothing is promised of the list.
fn add_found<'a>(
    alloc: Global,
    config: &Config,
    indexed: &Indexed,
    asked: &Asked<'a>,
    matchers: &mut Matchers<'a>,
    list: &mut ListingBuilder,
) -> Result<(), MatchFault>
    requires resolved { IsResolvedBy config.now asked.now }
    requires fits { FitsConfig config.now indexed.now.bundle }
    ensures { AddsRows result (rows config.now indexed.now.bundle asked.now)
        (has_too_many config.now indexed.now.bundle asked.now.query) list.old list.new }
{
    let spans = match match_with(alloc, config, indexed, asked, matchers) {
        Ok(spans) => spans,
        Err(fault) => return Err(fault),
    };
    if spans.is_empty() {
        return Ok(());
    }
    match list.append_of(alloc, config, indexed, asked, &spans) {
        Ok(()) => Ok(()),
        Err(_) => Err(MatchFault::Memory),
    }
}

impl<'a> Question<'_, 'a> {
    /// The attribute of the first condition of the query.
    pub(crate) fn first_place(&self) -> AttributePlace {
        let asked = match self {
            Question::Rows(asked) => asked,
            Question::Carried(reached) => reached.asked(),
        };
        asked.query().first_place()
    }

    /// Puts the rows that are asked for in one bundle behind those of the bundles before it. `TooManyTuples` comes
    /// exactly where the bundle has too many. The only other refusal is want of memory, after which nothing is
    /// promised of the list.
    pub(crate) fn add_rows(
        &self,
        alloc: Global,
        config: &Config,
        indexed: &Indexed,
        matchers: &mut Matchers<'a>,
        list: &mut ListingBuilder,
    ) -> Result<(), MatchFault>
        requires resolved { IsAskedOf config.now self.now }
        requires fits { FitsConfig config.now indexed.now.bundle }
        ensures { AddsRows result (rows_for self.now config.now indexed.now.bundle)
            (too_many_for self.now config.now indexed.now.bundle) list.old list.new }
    {
        match self {
            Question::Rows(asked) => add_found(alloc, config, indexed, asked, matchers, list),
            Question::Carried(reached) => {
                add_carried(alloc, config, indexed, reached, matchers, list)
            }
        }
    }
}
