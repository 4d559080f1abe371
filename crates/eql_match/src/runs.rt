//! Runs of tuples in order, found by halving.
ghost use Rattle.std.specs.Prelude.{◌≡◌, not, nat_lt};
ghost use Rattle.std.specs.List.{filter};
ghost use Rattle.eql_match.specs.Inner.Ways.{Rise};

use eql_tuples::Tuple;

/// The tuples that begin at a position or behind it.
fn begun_from(tuples: &[Tuple], low: usize) -> &[Tuple]
    requires { Rise tuples.now }
    ensures filter { result.now ≡ filter (λ t. not (nat_lt t.first low)) tuples.now }
    ensures rise { Rise result.now }
{
    let count = tuples.partition_point(|tuple| (tuple.first as usize) < low);
    tuples.split_at(count).1
}

/// The tuples that begin before a position.
fn begun_before(tuples: &[Tuple], high: usize) -> &[Tuple]
    requires { Rise tuples.now }
    ensures { result.now ≡ filter (λ t. nat_lt t.first high) tuples.now }
{
    let count = tuples.partition_point(|tuple| (tuple.first as usize) < high);
    tuples.split_at(count).0
}

/// The tuples that begin from the first of two positions to before the second.
pub(crate) fn begun_within(tuples: &[Tuple], reach: (usize, usize)) -> &[Tuple]
    requires { Rise tuples.now }
    ensures { result.now ≡ filter (λ t. nat_lt t.first reach.1)
        (filter (λ t. not (nat_lt t.first reach.0)) tuples.now) }
{
    begun_before(begun_from(tuples, reach.0), reach.1)
}
