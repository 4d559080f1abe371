//! How many patterns a query has.
ghost use Rattle.std.specs.Prelude.{◌≡◌, ◌<◌, ◌^◌, length};
ghost use Rattle.eql_syntax.specs.Inner.Tree.{tree_of};
ghost use Rattle.eql_resolve.specs.Prepared.{patterns_under, term_patterns, terms_patterns, patterns_of};

use eql_syntax::{Op, Query, Term, Words};

/// How many of a test's labels are patterns.
pub(crate) fn count_under(op: Op, labels: &Words) -> usize
    ensures { result ≡ length (patterns_under op labels.now) }
{
    match op {
        Op::Is | Op::IsNot => 0,
        Op::Like | Op::NotLike => labels.len(),
    }
}

/// How many patterns a condition has.
pub(crate) fn term_count(term: &Term) -> usize
    ensures { result ≡ length (term_patterns term.now) }
{
    match term {
        Term::Test { op, labels, .. } => count_under(*op, labels),
        Term::Place { .. } => 0,
        Term::Num { .. } => 0,
    }
}

/// How many patterns the conditions have.
pub(crate) fn terms_count(terms: &[Term]) -> usize
    requires { length (terms_patterns terms.now) < 2 ^ 64 }
    ensures { result ≡ length (terms_patterns terms.now) }
{
    let mut count = 0;
    for term in terms {
        count += term_count(term);
    }
    count
}

/// How many patterns a query has.
pub(crate) fn query_count(query: &Query) -> usize
    requires { length (patterns_of (tree_of query.now)) < 2 ^ 64 }
    ensures { result ≡ length (patterns_of (tree_of query.now)) }
{
    match query {
        Query::Terms(terms) => terms_count(terms.as_slice()),
        Query::Sequence(left, right) => query_count(left) + query_count(right),
        Query::Dominance(left, right) => query_count(left) + query_count(right),
    }
}
