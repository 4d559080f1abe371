//! The results of a query in a bundle, as stretches on the level of the attribute that is shown.
ghost use Rattle.std.specs.Prelude.{◌≡◌, ◌<◌, ◌≤◌, ◌^◌, length, map, IfOk, IsSome};
ghost use Rattle.emu_names.specs.declared.limits.TheConstants.{BUNDLE_ITEMS};
ghost use Rattle.eql_tuples.specs.Shown.{bare};
ghost use Rattle.eql_rows.specs.Spans.{span_at};
ghost use Rattle.eql_rows.specs.Inner.Spans.{row_spans};
ghost use Rattle.db_config.specs.Lookups.{attribute_at};

use crate::span::{Span, Spans};
use db_config::{AttributePlace, Config};
use emu_names::{Memory, Series};
use eql_tuples::{Tuple, bare};
use lane_bits::BitRow;
use std::alloc::Global;

/// A stretch on the level of the attribute that is shown.
fn span_at(place: AttributePlace, stretch: Tuple) -> Span
    requires level { place.level < 2 ^ 32 }
    requires attribute { place.attribute < 2 ^ 32 }
    ensures { result ≡ span_at place stretch }
{
    Span {
        level: place.level as u32,
        attribute: place.attribute as u32,
        first: stretch.first,
        last: stretch.last,
    }
}

/// Stretches on the level of the attribute that is shown. The only refusal is want of memory.
fn spans_at(alloc: Global, place: AttributePlace, stretches: &[Tuple]) -> Result<Spans, Memory>
    requires level { place.level < 2 ^ 32 }
    requires attribute { place.attribute < 2 ^ 32 }
    ensures { IfOk result (λ made. made ≡ map (span_at place) stretches.now) }
{
    let mut made = Series::from_vec(Vec::with_capacity(alloc, stretches.len())?);
    for stretch in stretches {
        made.push(span_at(place, *stretch))?;
    }
    Ok(made)
}

/// An item as a stretch on the level of the attribute that is shown.
fn item_span(place: AttributePlace, at: usize) -> Span
    requires level { place.level < 2 ^ 32 }
    requires attribute { place.attribute < 2 ^ 32 }
    requires few { at < BUNDLE_ITEMS }
    ensures { result ≡ span_at place (bare at at) }
{
    span_at(place, bare(at as u32, at as u32))
}

/// The items of which a row has the bit, on the level of the attribute that is shown. The only refusal is
/// want of memory.
fn spans_in(alloc: Global, place: AttributePlace, row: &BitRow) -> Result<Spans, Memory>
    requires few { length row.now ≤ BUNDLE_ITEMS }
    requires level { place.level < 2 ^ 32 }
    requires attribute { place.attribute < 2 ^ 32 }
    ensures { IfOk result (λ made. made ≡ row_spans place row.now) }
{
    let mut made = Series::from_vec(Vec::with_capacity(alloc, row.count())?);
    let mut from = 0;
    while let Some(at) = row.next(from) {
        from = at + 1;
        made.push(item_span(place, at))?;
    }
    Ok(made)
}

/// Stretches on the level of an attribute of the configuration. The only refusal is want of memory.
pub fn spans_of(
    alloc: Global,
    config: &Config,
    place: AttributePlace,
    stretches: &[Tuple],
) -> Result<Spans, Memory>
    requires { IsSome (attribute_at place config.now.levels) }
    ensures { IfOk result (λ made. made ≡ map (span_at place) stretches.now) }
{
    let levels = &config.parts().levels;
    let _attributes = levels.get(place.level).attributes.len();
    spans_at(alloc, place, stretches)
}

/// The items of which a row has the bit, as stretches on the level of an attribute of the configuration.
/// The only refusal is want of memory.
pub fn spans_of_row(
    alloc: Global,
    config: &Config,
    place: AttributePlace,
    row: &BitRow,
) -> Result<Spans, Memory>
    requires place { IsSome (attribute_at place config.now.levels) }
    requires few { length row.now ≤ BUNDLE_ITEMS }
    ensures { IfOk result (λ made. made ≡ row_spans place row.now) }
{
    let levels = &config.parts().levels;
    let _attributes = levels.get(place.level).attributes.len();
    spans_in(alloc, place, row)
}
