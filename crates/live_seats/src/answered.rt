//! A line that was answered.
ghost use Rattle.std.specs.Prelude.{◌≡◌, IfSome, IsNone, None, Some};
ghost use Rattle.std.specs.Option.{option_map};
ghost use Rattle.query_workers.specs.session_core.declared.line.Request.TheVariants as requests;
ghost use Rattle.live_seats.specs.Inner.Notes.{IsHeardFor, note, noted_of};
ghost use Rattle.live_seats.specs.Inner.Seats.{answered_step};

use crate::notes::{Row, Told};
use query_workers::session_core::{Line, Reply};
use std::marker::Model;

/// A line with its reply, what was noted for it, and, for an `after`, what was heard of the line that it names.
#[derive(Drop)]
pub struct Answered<'a, K: Row> {
    line: &'a Line,
    reply: Reply,
    told: Told<'a, K>,
    heard: Option<Told<'a, K>>,
}

impl<'a, K: Row> Model for Answered<'a, K> {
    ghost use Rattle.std.specs.Prelude.{◌≡◌};
    ghost use Rattle.std.specs.Coded.{codes};
    ghost use Rattle.std.specs.Option.{option_map};
    ghost use Rattle.eql_resolve.specs.Inner.Codes.{tree_code};
    ghost use Rattle.live_laws.specs.Lanes.{Step};
    ghost use Rattle.live_seats.specs.Inner.Notes.{IsHeardFor, noted_of};
    ghost use Rattle.live_seats.specs.Inner.Seats.{answered_step};

    ghost Value = { Step };

    ghost coded = { Prim.hlevel (codes, tree_code) };

    ghost view = { λ a. answered_step a.line.now a.reply a.told.noted (option_map noted_of a.heard) };

    ghost invariant = { λ a. (a.told.line ≡ a.line.now.line) × IsHeardFor a.line.now.request a.heard };
}

impl<'a, K: Row> Answered<'a, K> {
    /// A line with its reply.
    pub(crate) fn new(
        line: &'a Line,
        reply: Reply,
        told: Told<'a, K>,
        heard: Option<Told<'a, K>>,
    ) -> Answered<'a, K>
        requires told { told.line ≡ line.now.line }
        requires heard { IsHeardFor line.now.request heard }
        ensures { result ≡ answered_step line.now reply told.entry.noted (option_map noted_of heard.entry) }
    {
        Answered {
            line,
            reply,
            told,
            heard,
        }
    }

    /// What was noted for the line.
    pub(crate) fn told(&self) -> &Told<'a, K>
        ensures { result.now ≡ note self.now.turn.line.line self.now.noted }
    {
        &self.told
    }

    /// What was heard of the line that it names.
    pub(crate) fn heard(&self) -> Option<&Told<'a, K>>
        ensures none { IsNone result → self.now.heard ≡ None }
        ensures some { IfSome result (λ t.
            (self.now.turn.line.request ≡ requests.After t.now.line) × (self.now.heard ≡ Some t.now.noted)) }
    {
        self.heard.as_ref()
    }

    /// The reply.
    pub fn into_reply(self) -> Reply
        ensures { result ≡ self.entry.turn.reply }
    {
        self.reply
    }
}
