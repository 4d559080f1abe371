//! What the results of a query reach in an indexed bundle, and its rows.
ghost use Rattle.std.specs.Prelude.{◌≡◌, ◌++◌, map, IfOk, OnOk};
ghost use Rattle.std.specs.List.{filter_map};
ghost use Rattle.bundle_state.specs.Built.{FitsConfig};
ghost use Rattle.eql_resolve.specs.Asked.{result_level};
ghost use Rattle.eql_match.specs.eql_rows.Spans.{AreThere};
ghost use Rattle.eql_match.specs.eql_model.Meaning.{has_too_many};
ghost use Rattle.eql_match.specs.eql_model.Rows.{row_of};
ghost use Rattle.eql_match.specs.eql_model.Inner.Rows.{AddsRows};
ghost use Rattle.session_core.specs.requery.Reach.{reach};
ghost use Rattle.session_core.specs.requery.Carried.{carried_rows};
ghost use Rattle.session_core.specs.requery.Inner.Sound.{IsReachedBy};

use db_config::Config;
use emu_names::Memory;
use eql_match::bundle_index::Indexed;
use eql_match::eql_columns::Matchers;
use eql_match::eql_rows::{Span, Spans};
use eql_match::eql_tuples::MatchFault;
use eql_match::match_with;
use session_core::requery::{Reached, Target, reach_between, reach_near};
use session_core::segment_list::ListingBuilder;
use std::alloc::Global;

/// What results of a query reach in an indexed bundle, in the order of the results (EMU-SDMS Manual, "The EMU
/// Query Language (EQL)": `requery_hier`, `requery_seq`). The only refusal is want of memory.
///
/// The query and its requery were resolved by the configuration, whose levels and link definitions the bundle
/// has, and each result lies on the level of the results.
pub fn reach(
    alloc: Global,
    config: &Config,
    indexed: &Indexed,
    reached: &Reached,
    spans: &[Span],
) -> Result<Spans, Memory>
    requires resolved { IsReachedBy config.now reached.now }
    requires fits { FitsConfig config.now indexed.now.bundle }
    requires spans { AreThere config.now indexed.now.bundle
        (result_level reached.now.asked.query) spans.now }
    ensures { IfOk result (λ made. made
        ≡ filter_map (reach indexed.now.bundle reached.now.target) spans.now) }
{
    let level = reached.asked().query().result_level();
    let bundle = indexed.bundle();
    match reached.target() {
        Target::Level(place) if place.level != level => {
            let down = indexed.closure(alloc, config, level, place.level)?;
            let up = indexed.closure(alloc, config, place.level, level)?;
            reach_between(alloc, config, bundle, place, level, &down, &up, spans)
        }
        target => reach_near(alloc, config, bundle, target, level, spans),
    }
}

/// Puts the rows of what results of a query reach in an indexed bundle last. The only refusal is want of memory,
/// after which nothing is promised of the list.
fn add_reached(
    alloc: Global,
    config: &Config,
    indexed: &Indexed,
    reached: &Reached,
    spans: &[Span],
    list: &mut ListingBuilder,
) -> Result<(), Memory>
    requires resolved { IsReachedBy config.now reached.now }
    requires fits { FitsConfig config.now indexed.now.bundle }
    requires spans { AreThere config.now indexed.now.bundle
        (result_level reached.now.asked.query) spans.now }
    ensures { OnOk result (list.new
        ≡ list.old ++ map (row_of config.now indexed.now.bundle reached.now.asked.time)
        (filter_map (reach indexed.now.bundle reached.now.target) spans.now)) }
{
    if spans.is_empty() {
        return Ok(());
    }
    let made = reach(alloc, config, indexed, reached, spans)?;
    let level = reached.level();
    list.append_at(alloc, config, indexed, level, reached.asked().time(), &made)
}

/// Puts the rows of what the results of a query reach in one bundle last, in the order of the results.
/// `TooManyTuples` comes exactly where the bundle has too many. The only other refusal is want of memory, after
/// which nothing is promised of the list.
pub(crate) fn add_carried<'q>(
    alloc: Global,
    config: &Config,
    indexed: &Indexed,
    reached: &Reached<'q>,
    matchers: &mut Matchers<'q>,
    list: &mut ListingBuilder,
) -> Result<(), MatchFault>
    requires resolved { IsReachedBy config.now reached.now }
    requires fits { FitsConfig config.now indexed.now.bundle }
    ensures { AddsRows result (carried_rows config.now indexed.now.bundle reached.now)
        (has_too_many config.now indexed.now.bundle reached.now.asked.query) list.old list.new }
{
    let spans = match match_with(alloc, config, indexed, reached.asked(), matchers) {
        Ok(spans) => spans,
        Err(fault) => return Err(fault),
    };
    match add_reached(alloc, config, indexed, reached, spans.as_slice(), list) {
        Ok(()) => Ok(()),
        Err(_) => Err(MatchFault::Memory),
    }
}
