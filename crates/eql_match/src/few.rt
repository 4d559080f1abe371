//! Which queries cannot have too many tuples in any bundle, and when one need not be asked.
ghost use Rattle.std.specs.Prelude.{◌≡◌, [], true};
ghost use Rattle.eql_resolve.specs.Inner.View.{query_in};
ghost use Rattle.eql_match.specs.Inner.Few.{AreFewAlways, IsRowAlways};
ghost use Rattle.eql_match.specs.Inner.Found.{tuples_in};

use crate::conjunction::are_marked;
use crate::found::Found;
use eql_resolve::AskedQuery;

/// Whether a query finds single items without a mark in any bundle: a conjunction without a mark does, and
/// so does a dominance of two such parts.
fn finds_items(query: &AskedQuery) -> bool
    ensures { result ≡ true → IsRowAlways (query_in query.now) }
{
    match query {
        AskedQuery::Terms(conditions) => !are_marked(conditions.as_slice()),
        AskedQuery::Sequence(_, _) => false,
        AskedQuery::Dominance(left, right) => finds_items(left) && finds_items(right),
    }
}

/// Whether no bundle has too many tuples of a query, or of a part of it: it is a conjunction, or is made of
/// two parts that find single items.
fn is_few(query: &AskedQuery) -> bool
    ensures { result ≡ true → AreFewAlways (query_in query.now) }
{
    match query {
        AskedQuery::Terms(_) => true,
        AskedQuery::Sequence(left, right) => finds_items(left) && finds_items(right),
        AskedQuery::Dominance(left, right) => finds_items(left) && finds_items(right),
    }
}

/// Whether a query, or a part of one, finds nothing.
pub(crate) fn is_nothing(found: &Found) -> bool
    ensures { result ≡ true → tuples_in found.now ≡ [] }
{
    match found {
        Found::Items(row) => row.first().is_none(),
        Found::Tuples(tuples) => tuples.is_empty(),
    }
}

/// Whether the right part of a query need not be asked, since the left one finds nothing, and the right one
/// cannot have too many tuples.
pub(crate) fn is_settled(lefts: &Found, right: &AskedQuery) -> bool
    ensures { result ≡ true → (tuples_in lefts.now ≡ []) × AreFewAlways (query_in right.now) }
{
    is_nothing(lefts) && is_few(right)
}
