//! When a result is: its first and its last sample, and its borders in microseconds.
ghost use Rattle.std.specs.Prelude.{◌≡◌, ◌<◌, length, IfSome, Some, option_map};
ghost use Rattle.eql_model.specs.Rows.{items_below, samples_of};
ghost use Rattle.eql_rows.specs.Rows.{extent};
ghost use Rattle.eql_model.specs.Inner.Below.{IsBelow};
ghost use Rattle.eql_rows.specs.Inner.Times.{AreInTime};
ghost use Rattle.eql_rows.specs.Spans.{IsStretchIn};

use crate::ends::ends_under;
use bundle_state::Bundle;
use emu_names::LevelKind;
use eql_rows::{Span, ends_between, ends_of, timed_items};
use eql_tuples::Tuple;
use hier_closure::Closure;

/// A SEGMENT level from which results have their times, by its number, and which items of the level of the
/// results dominate which of its items.
#[derive(Clone, Copy)]
pub struct Below<'r> {
    pub time: usize,
    pub rows: &'r Closure,
}

/// The samples of the items of the time level that some item of the result dominates: the items of a level
/// stand in the order of their times.
fn extent_below(bundle: &Bundle, below: &Below, span: Span) -> Option<(u64, u64)>
    requires below { IsBelow bundle.now span.level below.now }
    requires span { IsStretchIn bundle.now span }
    ensures extent { result ≡ extent (items_below bundle.now (Some below.now.time) span) }
    ensures in_time { AreInTime result }
{
    let stretch = Tuple {
        first: span.first,
        last: span.last,
        mark: None,
    };
    let items = timed_items(bundle, below.time);
    match ends_under(below.rows, stretch) {
        Some((first, last)) => Some(ends_between(items, first, last)),
        None => None,
    }
}

/// The first and the last sample of a result: those of its items, or on an ITEM level those of the
/// segments below it.
pub(crate) fn samples_of(
    bundle: &Bundle,
    kind: LevelKind,
    below: &Option<Below>,
    span: Span,
) -> Option<(u64, u64)>
    requires below { IfSome below.now (IsBelow bundle.now span.level) }
    requires span { IsStretchIn bundle.now span }
    requires level { span.level < length bundle.now.levels }
    ensures samples { result
        ≡ samples_of bundle.now kind (option_map (λ b. b.time) below.now) span }
    ensures in_time { AreInTime result }
{
    match kind {
        LevelKind::Item => match below {
            Some(below) => extent_below(bundle, below, span),
            None => None,
        },
        LevelKind::Segment => ends_of(bundle, span),
        LevelKind::Event => ends_of(bundle, span),
    }
}
