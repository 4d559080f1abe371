//! The row of a result.
ghost use Rattle.std.specs.Prelude.{◌≡◌, ◌<◌, length, IfOk};
ghost use Rattle.level_items.specs.Levels.{items_at};
ghost use Rattle.eql_rows.specs.Spans.{IsStretchIn};
ghost use Rattle.eql_rows.specs.Inner.Names.{AreNames};
ghost use Rattle.eql_rows.specs.Inner.Numbers.{numbers_of};
ghost use Rattle.eql_rows.specs.Rows.{id_at, items_of, joined_labels, kind_of, row_between};
ghost use Rattle.eql_rows.specs.Inner.Times.{AreInTime};

use crate::items::{id_at, items_at, items_of, joined_labels};
use crate::names::{RowNames, attribute_of, kind_of};
use crate::row::{Row, RowNumbers};
use crate::span::Span;
use crate::times::times_of;
use bundle_state::Bundle;
use db_config::Config;
use emu_names::Memory;
use std::alloc::Global;

/// The numbers of the row of a result whose first and last samples these are, where it has any.
///
/// The result lies on a level of the bundle, and its samples are below 2^40.
pub fn numbers_between(
    config: &Config,
    bundle: &Bundle,
    samples: Option<(u64, u64)>,
    span: Span,
) -> RowNumbers
    requires span { IsStretchIn bundle.now span }
    requires level { span.level < length bundle.now.levels }
    requires samples { AreInTime samples }
    ensures { result ≡ numbers_of (row_between config.now bundle.now samples span) }
{
    let _items = bundle.item_count();
    let kind = kind_of(config, span.level as usize);
    let times = times_of(kind, bundle.rate(), samples);
    let items = items_at(bundle, span.level as usize);
    RowNumbers {
        start: times.start,
        end: times.end,
        sample_start: times.sample_start,
        sample_end: times.sample_end,
        rate: bundle.rate(),
        start_item: id_at(items, span.first as usize),
        end_item: id_at(items, span.last as usize),
        start_pos: span.first,
        end_pos: span.last,
    }
}

/// The row of a result whose first and last samples these are, where it has any; the row shares the names. The
/// only refusal is want of memory.
///
/// The result lies on a level of the bundle, whose names these are, and its samples are below 2^40.
pub fn row_between(
    alloc: Global,
    config: &Config,
    bundle: &Bundle,
    names: &RowNames,
    samples: Option<(u64, u64)>,
    span: Span,
) -> Result<Row, Memory>
    requires span { IsStretchIn bundle.now span }
    requires level { span.level < length bundle.now.levels }
    requires names { AreNames config.now bundle.now span.level names.now }
    requires samples { AreInTime samples }
    ensures { IfOk result (λ made. made ≡ row_between config.now bundle.now samples span) }
{
    let numbers = numbers_between(config, bundle, samples, span);
    let session = names.session.copy(alloc)?;
    let name = names.bundle.copy(alloc)?;
    let level = names.level.copy(alloc)?;
    let attribute = attribute_of(alloc, config, names, span)?;
    let labels = joined_labels(alloc, span.attribute as usize, items_of(bundle, span))?;
    Ok(Row {
        session,
        bundle: name,
        level,
        attribute,
        labels,
        start: numbers.start,
        end: numbers.end,
        sample_start: numbers.sample_start,
        sample_end: numbers.sample_end,
        rate: numbers.rate,
        start_item: numbers.start_item,
        end_item: numbers.end_item,
        start_pos: numbers.start_pos,
        end_pos: numbers.end_pos,
    })
}
