//! A query with the requery of its results.
ghost use Rattle.std.specs.Prelude.{◌≡◌};
ghost use Rattle.eql_resolve.specs.Asked.{result_level};
ghost use Rattle.requery.specs.Target.{level_reached};

use crate::target::Target;
use eql_resolve::Asked;
use std::marker::Model;

/// A query that was resolved by a configuration, and where its results are carried. The level of the times is
/// that of the rows that are reached. It borrows what the query does.
#[derive(Drop)]
pub struct Reached<'a> {
    asked: Asked<'a>,
    target: Target,
}

impl<'a> Model for Reached<'a> {
    ghost use Rattle.requery.specs.Target.{ReachedParts};
    ghost use Rattle.requery.specs.Inner.Codes.{reached_code};

    ghost Value = { ReachedParts };

    ghost coded = { reached_code };

    ghost view = { λ r. record { asked = r.asked; target = r.target } };
}

impl<'a> Reached<'a> {
    /// A query, and where its results are carried.
    pub(crate) fn of(asked: Asked<'a>, target: Target) -> Reached<'a>
        ensures { result ≡ record { asked = asked.entry; target = target } }
    {
        Reached { asked, target }
    }

    /// The query.
    pub fn asked(&self) -> &Asked<'a>
        ensures { result.now ≡ self.now.asked }
    {
        &self.asked
    }

    /// The level that is reached.
    pub fn level(&self) -> usize
        ensures { result ≡ level_reached (result_level self.now.asked.query) self.now.target }
    {
        self.target.level_from(self.asked.query().result_level())
    }

    /// Where its results are carried.
    pub fn target(&self) -> Target
        ensures { result ≡ self.now.target }
    {
        self.target
    }
}
