//! The rows of results.
ghost use Rattle.std.specs.Prelude.{◌≡◌, ◌<◌, length, map, IfOk, IfSome, option_map};
ghost use Rattle.bundle_state.specs.Built.{FitsConfig};
ghost use Rattle.eql_resolve.specs.Asked.{result_level};
ghost use Rattle.eql_resolve.specs.Inner.Sound.{IsResolvedBy, IsTimeLevel};
ghost use Rattle.eql_rows.specs.Spans.{AreThere, IsStretchIn};
ghost use Rattle.eql_model.specs.Inner.Below.{IsBelow};
ghost use Rattle.eql_rows.specs.Inner.Names.{AreNames};
ghost use Rattle.eql_rows.specs.Inner.Numbers.{numbers_of};
ghost use Rattle.eql_rows.specs.Rows.{kind_of};
ghost use Rattle.eql_model.specs.Rows.{row_of};

use crate::times::{Below, samples_of};
use bundle_state::Bundle;
use db_config::Config;
use emu_names::{Memory, Series};
use eql_resolve::Asked;
use eql_rows::{
    Row, RowNames, RowNumbers, SegmentList, Span, kind_of, names_of, numbers_between, row_between,
};
use hier_closure::Closure;
use std::alloc::Global;

/// The row of a result, which shares the names. The only refusal is want of memory.
fn timed_row(
    alloc: Global,
    config: &Config,
    bundle: &Bundle,
    names: &RowNames,
    below: &Option<Below>,
    span: Span,
) -> Result<Row, Memory>
    requires span { IsStretchIn bundle.now span }
    requires level { span.level < length bundle.now.levels }
    requires names { AreNames config.now bundle.now span.level names.now }
    requires below { IfSome below.now (IsBelow bundle.now span.level) }
    ensures { IfOk result (λ made. made
        ≡ row_of config.now bundle.now (option_map (λ b. b.time) below.now) span) }
{
    let kind = kind_of(config, span.level as usize);
    let samples = samples_of(bundle, kind, below, span);
    row_between(alloc, config, bundle, names, samples, span)
}

/// The numbers of the row of a result. On an ITEM level it has its times by `below`, where it is given.
pub fn numbers_below(
    config: &Config,
    bundle: &Bundle,
    below: &Option<Below>,
    span: Span,
) -> RowNumbers
    requires span { IsStretchIn bundle.now span }
    requires level { span.level < length bundle.now.levels }
    requires below { IfSome below.now (IsBelow bundle.now span.level) }
    ensures { result ≡ numbers_of
        (row_of config.now bundle.now (option_map (λ b. b.time) below.now) span) }
{
    let kind = kind_of(config, span.level as usize);
    let samples = samples_of(bundle, kind, below, span);
    numbers_between(config, bundle, samples, span)
}

/// The rows of some results on a level, in their order. The only refusal is want of memory.
///
/// Each result lies on the level. On an ITEM level the rows have their times by `below`, where it is given.
pub fn rows_below(
    alloc: Global,
    config: &Config,
    bundle: &Bundle,
    below: &Option<Below>,
    level: usize,
    spans: &[Span],
) -> Result<SegmentList, Memory>
    requires level { level < length bundle.now.levels }
    requires below { IfSome below.now (IsBelow bundle.now level) }
    requires spans { AreThere config.now bundle.now level spans.now }
    ensures { IfOk result (λ rows. rows
        ≡ map (row_of config.now bundle.now (option_map (λ b. b.time) below.now)) spans.now) }
{
    let mut rows = Series::new(alloc);
    let Some(first) = spans.first() else {
        return Ok(rows);
    };
    let names = names_of(alloc, config, bundle, level, first.attribute)?;
    for span in spans {
        rows.push(timed_row(alloc, config, bundle, &names, below, *span)?)?;
    }
    Ok(rows)
}

/// The rows of some results on a level, in their order. The only refusal is want of memory.
///
/// The bundle has the configuration's levels and link definitions, and each result lies on the level. On an
/// ITEM level the rows have their times from the SEGMENT level `time`, where there is one.
pub fn rows_at(
    alloc: Global,
    config: &Config,
    bundle: &Bundle,
    level: usize,
    time: Option<usize>,
    spans: &[Span],
) -> Result<SegmentList, Memory>
    requires fits { FitsConfig config.now bundle.now }
    requires level { level < length config.now.levels }
    requires time { IfSome time (IsTimeLevel config.now) }
    requires spans { AreThere config.now bundle.now level spans.now }
    ensures { IfOk result (λ rows. rows ≡ map (row_of config.now bundle.now time) spans.now) }
{
    if spans.is_empty() {
        return Ok(Series::new(alloc));
    }
    let Some(time) = time else {
        return rows_below(alloc, config, bundle, &None, level, spans);
    };
    let rows = Closure::between(alloc, config, bundle, level, time)?;
    let below = Some(Below { time, rows: &rows });
    rows_below(alloc, config, bundle, &below, level, spans)
}

/// The rows of results of a query in a bundle, in their order. The only refusal is want of memory.
///
/// The query was resolved by the configuration, whose levels and link definitions the bundle has, and
/// each result lies on the level of the results.
pub fn rows_of(
    alloc: Global,
    config: &Config,
    bundle: &Bundle,
    asked: &Asked,
    spans: &[Span],
) -> Result<SegmentList, Memory>
    requires resolved { IsResolvedBy config.now asked.now }
    requires fits { FitsConfig config.now bundle.now }
    requires spans { AreThere config.now bundle.now (result_level asked.now.query) spans.now }
    ensures { IfOk result (λ rows. rows
        ≡ map (row_of config.now bundle.now asked.now.time) spans.now) }
{
    let level = asked.query().result_level();
    rows_at(alloc, config, bundle, level, asked.time(), spans)
}
