//! The stretches that results have on a level.
ghost use Rattle.std.specs.Prelude.{◌≡◌, ◌<◌, ◌++◌, length, All, IfOk, OnOk, get_or, None};
ghost use Rattle.std.specs.Option.{option_to_list};
ghost use Rattle.std.specs.List.{filter_map};
ghost use Rattle.requery.specs.Inner.Ways.{LiesIn, positions_of, stretch_by, union_over};

use crate::ends::union;
use emu_names::{Memory, Series};
use eql_rows::Span;
use eql_tuples::{Tuple, Tuples};
use std::alloc::Global;

/// Puts what was found last; where nothing was, nothing. The only refusal is want of memory.
pub(crate) fn put_found<T: Drop>(list: &mut Series<T>, found: Option<T>) -> Result<(), Memory>
    ensures { OnOk result (list.new ≡ list.old ++ option_to_list found) }
{
    match found {
        Some(item) => list.push(item),
        None => Ok(()),
    }
}

/// How the stretch of a result on a level is found.
#[derive(Drop)]
pub(crate) enum Way {
    /// The result lies on the level.
    Own,
    /// By the stretch of the kin of each item of the result's level.
    Kin(Vec<Option<Tuple>>),
}

/// The least stretch round those of the items of a result.
fn kin_of(stretches: &[Option<Tuple>], span: Span) -> Option<Tuple>
    requires { span.last < length stretches.now }
    ensures { result ≡ union_over (λ i. get_or stretches.now i None) (positions_of span) }
{
    let mut found = None;
    for item in span.first as usize..span.last as usize + 1 {
        found = union(found, stretches[item]);
    }
    found
}

/// The stretch of a result on the level; none where it has no kin there.
fn stretch_by(way: &Way, span: Span) -> Option<Tuple>
    requires { LiesIn way.now span }
    ensures { result ≡ stretch_by way.now span }
{
    match way {
        Way::Own => Some(Tuple {
            first: span.first,
            last: span.last,
            mark: None,
        }),
        Way::Kin(stretches) => kin_of(stretches.as_slice(), span),
    }
}

/// The stretches of results on the level, in the order of the results. The only refusal is want of memory.
pub(crate) fn stretches_by(alloc: Global, way: &Way, spans: &[Span]) -> Result<Tuples, Memory>
    requires { All (LiesIn way.now) spans.now }
    ensures { IfOk result (λ made. made ≡ filter_map (stretch_by way.now) spans.now) }
{
    let mut made = Series::new(alloc);
    for span in spans {
        put_found(&mut made, stretch_by(way, *span))?;
    }
    Ok(made)
}
