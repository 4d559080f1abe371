//! From which place to which one the items of a stretch dominate those of another level.
ghost use Rattle.std.specs.Prelude.{◌≡◌, false, get_or, length, true};
ghost use Rattle.eql_tuples.specs.Tuples.{fits_in};
ghost use Rattle.eql_model.specs.Inner.Ends.{AreEnds, round_both};
ghost use Rattle.eql_model.specs.Inner.Joins.{is_under};

use eql_tuples::Tuple;
use hier_closure::Closure;
use lane_bits::SpanRow;

/// The lesser of two first places and the greater of two last ones, of which either pair may be missing.
fn round_both(one: Option<(usize, usize)>, other: Option<(usize, usize)>) -> Option<(usize, usize)>
    ensures { result ≡ round_both one other }
{
    let Some(near) = one else {
        return other;
    };
    match other {
        Some(far) => Some((near.0.min(far.0), near.1.max(far.1))),
        None => one,
    }
}

/// The places of the first and the last bit of a row.
fn row_ends(row: &SpanRow) -> Option<(usize, usize)>
    ensures { AreEnds (λ k. get_or row.now k false) result }
{
    match row.first() {
        Some(first) => match row.last() {
            Some(last) => Some((first, last)),
            None => None,
        },
        None => None,
    }
}

/// The places of the first and the last item that some item of the upper stretch dominates.
pub(crate) fn ends_under(rows: &Closure, upper: Tuple) -> Option<(usize, usize)>
    requires { fits_in (length rows.now) upper ≡ true }
    ensures { AreEnds (is_under rows.now upper) result }
{
    let mut found = None;
    for row in upper.first as usize..upper.last as usize + 1 {
        found = round_both(found, row_ends(rows.row(row)));
    }
    found
}
