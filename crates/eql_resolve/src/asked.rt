//! A query with its names replaced by levels and attributes.
ghost use Rattle.std.specs.Prelude.{◌≡◌, map, IfSome};
ghost use Rattle.db_config.specs.declared.parts.ConfigParts.{ConfigParts};
ghost use Rattle.eql_resolve.specs.Asked.{is_marked_term, term_place, first_of, marked_of, first_place, level_of, mark_place, is_marked, shown_place, result_level};
ghost use Rattle.eql_resolve.specs.Inner.Sound.{IsResolvedBy, IsTimeLevel};
ghost use Rattle.eql_resolve.specs.Inner.View.{term_in, query_in};

use db_config::AttributePlace;
use emu_names::Text;
use eql_syntax::{Compare, Place};
use label_match::Pattern;
use std::marker::Model;

/// What the label of an item is compared with.
#[derive(Clone, Copy)]
pub enum Wanted<'a> {
    /// Labels, or names of label groups, as they are written.
    Labels(&'a [Text]),
    /// The patterns of the test, compiled.
    Patterns(&'a [Pattern]),
}

/// One condition of a conjunction. `marked` says that the query's mark stands before it. Levels are
/// numbers in the configuration.
#[derive(Drop)]
pub enum AskedTerm<'a> {
    /// A test of the label of an attribute. It holds where the label is found among what is wanted
    /// (`==`, `=~`), or where it is not (`!=`, `!~`).
    Test {
        marked: bool,
        place: AttributePlace,
        found: bool,
        wanted: Wanted<'a>,
    },
    /// A test of where an item stands among those of its level that an item of the upper level
    /// dominates.
    Position {
        marked: bool,
        place: Place,
        upper: usize,
        lower: AttributePlace,
        wanted: bool,
    },
    /// A test of how many items of the lower level an item dominates.
    Number {
        marked: bool,
        upper: AttributePlace,
        lower: usize,
        compare: Compare,
        number: u32,
    },
}

impl<'a> AskedTerm<'a> {
    /// Whether the query's mark stands before the condition.
    pub fn is_marked(&self) -> bool
        ensures { result ≡ is_marked_term (term_in self.now) }
    {
        match self {
            AskedTerm::Test { marked, .. } => *marked,
            AskedTerm::Position { marked, .. } => *marked,
            AskedTerm::Number { marked, .. } => *marked,
        }
    }

    /// The attribute that the condition shows, which is one of the level that it is on.
    pub fn place(&self) -> AttributePlace
        ensures { result ≡ term_place (term_in self.now) }
    {
        match self {
            AskedTerm::Test { place, .. } => *place,
            AskedTerm::Position { lower, .. } => *lower,
            AskedTerm::Number { upper, .. } => *upper,
        }
    }
}

/// A query with its names replaced.
#[derive(Drop)]
pub enum AskedQuery<'a> {
    /// Items that meet all conditions. There is at least one, and all are on one level.
    Terms(Vec<AskedTerm<'a>>),
    /// The second follows the first at once; both are on one level.
    Sequence(Box<AskedQuery<'a>>, Box<AskedQuery<'a>>),
    /// One of the two dominates the other.
    Dominance(Box<AskedQuery<'a>>, Box<AskedQuery<'a>>),
}

/// The attribute of the first of the conditions.
fn first_of(terms: &[AskedTerm]) -> AttributePlace
    ensures { result ≡ first_of (map term_in terms.now) }
{
    match terms {
        [first, ..] => first.place(),
        [] => AttributePlace {
            level: 0,
            attribute: 0,
        },
    }
}

/// The attribute of the marked one of the conditions.
fn marked_of(terms: &[AskedTerm]) -> Option<AttributePlace>
    ensures { result ≡ marked_of (map term_in terms.now) }
{
    for term in terms {
        if term.is_marked() {
            return Some(term.place());
        }
    }
    None
}

impl<'a> AskedQuery<'a> {
    /// The attribute of the first condition of the leftmost conjunction.
    pub fn first_place(&self) -> AttributePlace
        ensures { result ≡ first_place (query_in self.now) }
    {
        match self {
            AskedQuery::Terms(terms) => first_of(terms.as_slice()),
            AskedQuery::Sequence(left, _) => left.first_place(),
            AskedQuery::Dominance(left, _) => left.first_place(),
        }
    }

    /// The level that the query is on: that of its conditions, of the parts of a sequence, of the left
    /// part of a dominance.
    pub fn level(&self) -> usize
        ensures { result ≡ level_of (query_in self.now) }
    {
        self.first_place().level
    }

    /// The attribute of the marked condition, where there is one.
    pub fn mark_place(&self) -> Option<AttributePlace>
        ensures { result ≡ mark_place (query_in self.now) }
    {
        match self {
            AskedQuery::Terms(terms) => marked_of(terms.as_slice()),
            AskedQuery::Sequence(left, right) => left.mark_place().or(right.mark_place()),
            AskedQuery::Dominance(left, right) => left.mark_place().or(right.mark_place()),
        }
    }

    /// The level of the results, which are the marked items where the query has a mark.
    pub fn result_level(&self) -> usize
        ensures { result ≡ result_level (query_in self.now) }
    {
        self.shown_place().level
    }

    /// Whether a condition of the query is marked.
    #[tactic(auto, using(crate::proofs::Marks::mark_some))]
    pub fn is_marked(&self) -> bool
        ensures { result ≡ is_marked (query_in self.now) }
    {
        self.mark_place().is_some()
    }

    /// The attribute that the results show: that of the marked condition, else that of the first
    /// condition of the leftmost conjunction.
    pub fn shown_place(&self) -> AttributePlace
        ensures { result ≡ shown_place (query_in self.now) }
    {
        match self.mark_place() {
            Some(place) => place,
            None => self.first_place(),
        }
    }
}

/// A query that was resolved by a configuration, and the number of the level on which its results have
/// their times, where there is one. It borrows the labels and the patterns of the query that was
/// prepared.
#[derive(Drop)]
pub struct Asked<'a> {
    query: AskedQuery<'a>,
    time: Option<usize>,
}

impl<'a> Model for Asked<'a> {
    ghost use Rattle.eql_resolve.specs.Asked.{AskedParts};
    ghost use Rattle.eql_resolve.specs.Inner.Codes.{asked_code};
    ghost use Rattle.eql_resolve.specs.Inner.View.{query_in};

    ghost Value = { AskedParts };

    ghost coded = { asked_code };

    ghost view = { λ a. record { query = query_in a.query; time = a.time } };
}

impl<'a> Asked<'a> {
    /// A query that was resolved, with the level of its times.
    pub(crate) fn of(query: AskedQuery<'a>, time: Option<usize>) -> Asked<'a>
        ensures { result ≡ record { query = query_in query.entry; time = time } }
    {
        Asked { query, time }
    }

    /// The same query, with its results' times from this level. It stays resolved by a configuration of
    /// which that is a SEGMENT level, as one that `time_level` gave is.
    pub fn with_time(self, time: Option<usize>) -> Asked<'a>
        ensures parts { result ≡ record { query = self.entry.query; time = time } }
        ensures sound { (c : ConfigParts) → IsResolvedBy c self.entry
            → IfSome time (IsTimeLevel c) → IsResolvedBy c result }
    {
        Asked {
            query: self.query,
            time,
        }
    }

    /// The query with its names replaced.
    pub fn query(&self) -> &AskedQuery<'a>
        ensures { query_in result.now ≡ self.now.query }
    {
        &self.query
    }

    /// The number of the level on which the results have their times, where there is one.
    pub fn time(&self) -> Option<usize>
        ensures { result ≡ self.now.time }
    {
        self.time
    }
}
