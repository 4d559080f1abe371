//! From which item to which one the items of a stretch reach on another level.
ghost use Rattle.std.specs.Prelude.{◌≡◌, length, true};
ghost use Rattle.eql_tuples.specs.Tuples.{fits_in};
ghost use Rattle.eql_match.specs.Inner.Reach.{Reaches, Widens};

use eql_tuples::Tuple;
use hier_closure::Closure;
use lane_bits::SpanRow;

/// The places from `reach.0` to before `reach.1`, and those from the first bit of a row to its last.
fn widened(reach: (usize, usize), row: &SpanRow) -> (usize, usize)
    ensures { Widens row.now reach result }
{
    let _len = row.len();
    let Some(first) = row.first() else {
        return reach;
    };
    let Some(last) = row.last() else {
        return reach;
    };
    (reach.0.min(first), reach.1.max(last + 1))
}

/// Places from the first of two to before the second, among which are all that the rows of a stretch
/// have a bit of.
pub(crate) fn reach(rows: &Closure, upper: Tuple) -> (usize, usize)
    requires { fits_in (length rows.now) upper ≡ true }
    ensures { Reaches rows.now upper result }
{
    let mut reach = (usize::MAX, 0);
    for row in upper.first as usize..upper.last as usize + 1 {
        reach = widened(reach, rows.row(row));
    }
    reach
}
