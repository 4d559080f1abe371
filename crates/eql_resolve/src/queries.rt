//! The conjunctions, sequences and dominances of a query, whose levels have to agree.
ghost use Rattle.std.specs.Prelude.{◌≡◌, ◌<◌, length, map, IfOk};
ghost use Rattle.std.specs.List.{list_all};
ghost use Rattle.eql_syntax.specs.Inner.Tree.{tree_of};
ghost use Rattle.eql_resolve.specs.Asked.{is_on, level_of};
ghost use Rattle.eql_resolve.specs.Prepared.{patterns_of};
ghost use Rattle.eql_resolve.specs.Resolve.{are_alike, conjunction_of, sequence_of, are_joined, dominance_of, asked_query};
ghost use Rattle.eql_resolve.specs.Inner.Sound.{IsSound};
ghost use Rattle.eql_resolve.specs.Inner.View.{Gives, term_in, query_in};

use crate::asked::{AskedQuery, AskedTerm};
use crate::counts::query_count;
use crate::faults::AskFault;
use crate::terms::asked_terms;
use db_config::Config;
use eql_syntax::Query;
use label_match::Pattern;
use std::alloc::Global;

/// Whether all conditions are on a level.
fn are_on(level: usize, terms: &[AskedTerm]) -> bool
    ensures { result ≡ list_all (is_on level) (map term_in terms.now) }
{
    for term in terms {
        if term.place().level != level {
            return false;
        }
    }
    true
}

/// Whether there is a condition, and all are on its level.
fn are_alike(terms: &[AskedTerm]) -> bool
    ensures { result ≡ are_alike (map term_in terms.now) }
{
    match terms {
        [first, ..] => are_on(first.place().level, terms),
        [] => false,
    }
}

/// A conjunction of conditions that are on one level.
fn conjunction_of<'a>(terms: Vec<AskedTerm<'a>>) -> Result<AskedQuery<'a>, AskFault>
    ensures { Gives query_in result (conjunction_of (map term_in terms.entry.items)) }
{
    if are_alike(terms.as_slice()) {
        Ok(AskedQuery::Terms(terms))
    } else {
        Err(AskFault::MixedLevels)
    }
}

/// A sequence of two queries that are on one level.
fn sequence_of<'a>(
    alloc: Global,
    left: AskedQuery<'a>,
    right: AskedQuery<'a>,
) -> Result<AskedQuery<'a>, AskFault>
    ensures { Gives query_in result (sequence_of (query_in left.entry) (query_in right.entry)) }
{
    if left.level() != right.level() {
        return Err(AskFault::SequenceLevels);
    }
    let left = Box::new(alloc, left)?;
    let right = Box::new(alloc, right)?;
    Ok(AskedQuery::Sequence(left, right))
}

/// Whether one of the two levels is above the other.
pub fn are_joined(config: &Config, left: usize, right: usize) -> bool
    requires left { left < length config.now.levels }
    requires right { right < length config.now.levels }
    ensures { result ≡ are_joined config.now left right }
{
    config.is_above(left, right) || config.is_above(right, left)
}

/// A dominance of two queries, of which one is on a level above the other's.
fn dominance_of<'a>(
    alloc: Global,
    config: &Config,
    left: AskedQuery<'a>,
    right: AskedQuery<'a>,
) -> Result<AskedQuery<'a>, AskFault>
    requires left { level_of (query_in left) < length config.now.levels }
    requires right { level_of (query_in right) < length config.now.levels }
    ensures { Gives query_in result
        (dominance_of config.now (query_in left.entry) (query_in right.entry)) }
{
    if !are_joined(config, left.level(), right.level()) {
        return Err(AskFault::NoPath);
    }
    let left = Box::new(alloc, left)?;
    let right = Box::new(alloc, right)?;
    Ok(AskedQuery::Dominance(left, right))
}

/// A query with its names replaced, without the level of its times. The patterns are its own.
pub(crate) fn asked_query<'a>(
    alloc: Global,
    config: &Config,
    query: &'a Query,
    patterns: &'a [Pattern],
) -> Result<AskedQuery<'a>, AskFault>
    requires { patterns.now ≡ patterns_of (tree_of query.now) }
    ensures asked { Gives query_in result (asked_query config.now (tree_of query.now)) }
    ensures sound { IfOk result (λ q. IsSound config.now (query_in q)) }
{
    match query {
        Query::Terms(terms) => {
            let terms = asked_terms(alloc, config, terms.as_slice(), patterns)?;
            conjunction_of(terms)
        }
        Query::Sequence(left, right) => {
            let (ours, theirs) = patterns.split_at(query_count(left));
            let left = asked_query(alloc, config, left, ours)?;
            match asked_query(alloc, config, right, theirs) {
                Ok(right) => sequence_of(alloc, left, right),
                Err(fault) => Err(fault),
            }
        }
        Query::Dominance(left, right) => {
            let (ours, theirs) = patterns.split_at(query_count(left));
            let left = asked_query(alloc, config, left, ours)?;
            match asked_query(alloc, config, right, theirs) {
                Ok(right) => dominance_of(alloc, config, left, right),
                Err(fault) => Err(fault),
            }
        }
    }
}
