//! What results reach.
ghost use Rattle.std.specs.Prelude.{◌≡◌, ◌≢◌, ◌<◌, ◌≤◌, length, map, All, IfOk, IsSome};
ghost use Rattle.std.specs.List.{filter_map};
ghost use Rattle.emu_names.specs.declared.limits.TheConstants.{BUNDLE_ITEMS};
ghost use Rattle.level_items.specs.Levels.{items_at};
ghost use Rattle.db_config.specs.Lookups.{attribute_at};
ghost use Rattle.bundle_state.specs.Built.{FitsConfig};
ghost use Rattle.hier_closure.specs.Dominance.{closure_of};
ghost use Rattle.eql_rows.specs.Spans.{AreThere, span_at};
ghost use Rattle.requery.specs.Reach.{moved, origin, reach, stretch_on};
ghost use Rattle.requery.specs.Inner.Sound.{IsTargetIn};
ghost use Rattle.requery.specs.Inner.Ways.{IsNear, LiesIn, stretch_by};

use crate::ends::kin_stretches;
use crate::stretches::{Way, put_found, stretches_by};
use crate::target::{Shift, Target};
use bundle_state::Bundle;
use db_config::{AttributePlace, Config};
use emu_names::{Memory, Series};
use eql_rows::{Span, Spans, items_at, spans_of};
use hier_closure::Closure;
use std::alloc::Global;

/// The stretches of results on the level of an attribute, which is shown. The only refusal is want of memory.
fn on_level(
    alloc: Global,
    config: &Config,
    place: AttributePlace,
    way: &Way,
    spans: &[Span],
) -> Result<Spans, Memory>
    requires place { IsSome (attribute_at place config.now.levels) }
    requires spans { All (LiesIn way.now) spans.now }
    ensures { IfOk result (λ made. made
        ≡ map (span_at place) (filter_map (stretch_by way.now) spans.now)) }
{
    let stretches = stretches_by(alloc, way, spans)?;
    spans_of(alloc, config, place, stretches.as_slice())
}

/// A result moved along a level of so many items; none where the stretch leaves the level.
fn moved(count: usize, shift: Shift, span: Span) -> Option<Span>
    requires { count ≤ BUNDLE_ITEMS }
    ensures { result ≡ moved count shift span }
{
    let start = if shift.from_end {
        span.last
    } else {
        span.first
    };
    let from = u64::from(start) + u64::from(shift.right);
    if shift.length == 0 || from < u64::from(shift.left) {
        return None;
    }
    let first = from - u64::from(shift.left);
    let behind = first + u64::from(shift.length);
    if behind > count as u64 {
        return None;
    }
    Some(Span {
        level: span.level,
        attribute: span.attribute,
        first: first as u32,
        last: (behind - 1) as u32,
    })
}

/// Results moved along their level. The only refusal is want of memory.
fn moved_spans(alloc: Global, count: usize, shift: Shift, spans: &[Span]) -> Result<Spans, Memory>
    requires { count ≤ BUNDLE_ITEMS }
    ensures { IfOk result (λ made. made ≡ filter_map (moved count shift) spans.now) }
{
    let mut made = Series::new(alloc);
    for span in spans {
        put_found(&mut made, moved(count, shift, *span))?;
    }
    Ok(made)
}

/// What results on a level reach that stay on it: the results with the target's attribute, or moved along the
/// level. The only refusal is want of memory.
pub fn reach_near(
    alloc: Global,
    config: &Config,
    bundle: &Bundle,
    target: Target,
    level: usize,
    spans: &[Span],
) -> Result<Spans, Memory>
    requires fits { FitsConfig config.now bundle.now }
    requires target { IsTargetIn config.now target }
    requires near { IsNear level target }
    requires level { level < length config.now.levels }
    requires spans { AreThere config.now bundle.now level spans.now }
    ensures { IfOk result (λ made. made ≡ filter_map (reach bundle.now target) spans.now) }
{
    let _items = bundle.item_count();
    match target {
        Target::Level(place) => on_level(alloc, config, place, &Way::Own, spans),
        Target::Along(shift) => moved_spans(alloc, items_at(bundle, level).len(), shift, spans),
    }
}

/// What results on a level reach on the level of an attribute, which is shown: the stretch from the first to
/// the last item there that dominates some item of the result or is dominated by one, and nothing where there
/// is none. `down` says which items of the results' level dominate which of the other, `up` the other way
/// round. The only refusal is want of memory.
pub fn reach_between(
    alloc: Global,
    config: &Config,
    bundle: &Bundle,
    place: AttributePlace,
    level: usize,
    down: &Closure,
    up: &Closure,
    spans: &[Span],
) -> Result<Spans, Memory>
    requires fits { FitsConfig config.now bundle.now }
    requires place { IsSome (attribute_at place config.now.levels) }
    requires level { level < length config.now.levels }
    requires apart { place.level ≢ level }
    requires down { down.now ≡ closure_of bundle.now place.level level }
    requires up { up.now ≡ closure_of bundle.now level place.level }
    requires spans { AreThere config.now bundle.now level spans.now }
    ensures { IfOk result (λ made. made
        ≡ filter_map (reach bundle.now (Target.Level place)) spans.now) }
{
    let _items = bundle.item_count();
    let count = items_at(bundle, level).len();
    let width = items_at(bundle, place.level).len();
    let way = Way::Kin(kin_stretches(alloc, down, up, count, width)?);
    on_level(alloc, config, place, &way, spans)
}
