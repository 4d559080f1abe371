//! The rows of a query whose results are carried, worked out plainly.
ghost use Rattle.std.specs.Prelude.{◌≡◌, map, IfOk};
ghost use Rattle.std.specs.List.{filter_map};
ghost use Rattle.bundle_state.specs.Built.{FitsConfig};
ghost use Rattle.eql_resolve.specs.Asked.{result_level};
ghost use Rattle.eql_rows.specs.Spans.{AreThere};
ghost use Rattle.eql_model.specs.Rows.{row_of};
ghost use Rattle.requery.specs.Reach.{reach};
ghost use Rattle.requery.specs.Inner.Answers.{Carries};
ghost use Rattle.requery.specs.Inner.Sound.{IsReachedBy};

use crate::reach::{reach_between, reach_near};
use crate::reached::Reached;
use crate::target::Target;
use bundle_state::Bundle;
use db_config::Config;
use emu_names::Memory;
use eql_model::{match_plain, rows_at};
use eql_rows::{SegmentList, Span, Spans};
use eql_tuples::MatchFault;
use hier_closure::Closure;
use std::alloc::Global;

/// What results of a query reach in a bundle, in their order. The only refusal is want of memory.
fn reach_plain(
    alloc: Global,
    config: &Config,
    bundle: &Bundle,
    reached: &Reached,
    spans: &[Span],
) -> Result<Spans, Memory>
    requires resolved { IsReachedBy config.now reached.now }
    requires fits { FitsConfig config.now bundle.now }
    requires spans { AreThere config.now bundle.now
        (result_level reached.now.asked.query) spans.now }
    ensures { IfOk result (λ made. made
        ≡ filter_map (reach bundle.now reached.now.target) spans.now) }
{
    let level = reached.asked().query().result_level();
    match reached.target() {
        Target::Level(place) if place.level != level => {
            let down = Closure::between(alloc, config, bundle, level, place.level)?;
            let up = Closure::between(alloc, config, bundle, place.level, level)?;
            reach_between(alloc, config, bundle, place, level, &down, &up, spans)
        }
        target => reach_near(alloc, config, bundle, target, level, spans),
    }
}

/// The rows of what results of a query reach in a bundle. The only refusal is want of memory.
fn carried(
    alloc: Global,
    config: &Config,
    bundle: &Bundle,
    reached: &Reached,
    spans: &[Span],
) -> Result<SegmentList, Memory>
    requires resolved { IsReachedBy config.now reached.now }
    requires fits { FitsConfig config.now bundle.now }
    requires spans { AreThere config.now bundle.now
        (result_level reached.now.asked.query) spans.now }
    ensures { IfOk result (λ made. made ≡ map (row_of config.now bundle.now reached.now.asked.time)
        (filter_map (reach bundle.now reached.now.target) spans.now)) }
{
    let level = reached.level();
    let made = reach_plain(alloc, config, bundle, reached, spans)?;
    rows_at(
        alloc,
        config,
        bundle,
        level,
        reached.asked().time(),
        made.as_slice(),
    )
}

/// The rows of what the results of a query reach in a bundle, in the order of the results.
///
/// The query and its requery were resolved by the configuration, whose levels and link definitions the bundle
/// has. `TooManyTuples` comes exactly where some part of the query has over 1,000,000 tuples in the bundle.
/// The only other refusal is want of memory.
pub fn requery_plain(
    alloc: Global,
    config: &Config,
    bundle: &Bundle,
    reached: &Reached,
) -> Result<SegmentList, MatchFault>
    requires resolved { IsReachedBy config.now reached.now }
    requires fits { FitsConfig config.now bundle.now }
    ensures { Carries result config.now bundle.now reached.now }
{
    let spans = match match_plain(alloc, config, bundle, reached.asked()) {
        Ok(spans) => spans,
        Err(fault) => return Err(fault),
    };
    match carried(alloc, config, bundle, reached, spans.as_slice()) {
        Ok(rows) => Ok(rows),
        Err(_) => Err(MatchFault::Memory),
    }
}
