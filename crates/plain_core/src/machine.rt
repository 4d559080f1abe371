//! The core: a configuration, the history behind it, the database that both make, and what each session holds, changed
//! by one event at a time.
ghost use Rattle.emu_names.specs.declared.limits.TheConstants.{HISTORY_EDITS};
ghost use Rattle.edit_undo.specs.edit_rules.Effects.{after, IsLegal};
ghost use Rattle.emu_names.specs.Inner.Gives.{IsFaultOf, broken_in};
ghost use Rattle.session_core.specs.Inner.Kept.{head_line, ruled};
ghost use Rattle.session_core.specs.Steps.{core_fails, core_step, edit_event, finish_step, look_event, option_list, query_fails, query_step, session_places, slot, start, steps};
ghost use Rattle.session_core.specs.Inner.Steps.{place_of};
ghost use Rattle.session_core.specs.Inner.Stops.{StopsAt};
ghost use Rattle.std.specs.Prelude.{◌≡◌, ◌⊎◌, ◌++◌, ◌<◌, ◌≤◌, All, IfErr, IfOk, OnErr, OnOk, Some, length};

use crate::moves::{
    PlainHistory, begin_query, close_look, close_query, open_look, replay, try_given, try_undo,
};
use db_config::Config;
use edit_undo::edit_rules::Database;
use emu_names::{Fault, Memory, SessionNo};
use session_core::{
    Answer, Ask, Command, Event, Events, Head, Held, KeptActs, Line, Replies, Reply, Request, Slots,
};
use std::alloc::Global;
use std::marker::Model;

/// The core of a database: the configuration and the number of entries that it began with, its history, and for each
/// session its open look and its query under way.
///
/// It keeps the database after the history, whose configuration may have more parts by then, and what takes back each
/// entry that came since; each look and each query under way shares the database of its moment, so that a look costs
/// one owner more and not a copy.
#[derive(Drop)]
pub struct Core {
    alloc: Global,
    config: Config,
    entries: PlainHistory,
    base: usize,
    database: Database,
    kept: KeptActs,
    looks: Slots<Held>,
    queries: Slots<Held>,
}

impl Model for Core {
    ghost use Rattle.session_core.specs.Steps.{State};
    ghost use Rattle.std.specs.Coded.{codes};
    ghost use Rattle.eql_resolve.specs.Inner.Codes.{tree_code};

    ghost Value = { State };

    ghost coded = { Prim.hlevel (codes, tree_code) };

    ghost use Rattle.session_core.specs.Inner.Kept.{IsKept, state_of};

    ghost view = { λ a. state_of a.config a.entries a.base a.looks a.queries };

    ghost invariant = { λ a. IsKept a.config a.entries a.base a.database a.kept.acts a.looks a.queries };
}

impl Core {
    /// The core of a configuration and of a history of at most 100,000 entries, with no look open.
    /// A history that breaks a rule is refused by the first rule that it breaks.
    pub fn new(alloc: Global, config: Config, history: PlainHistory) -> Result<Core, Fault>
        requires { length history ≤ HISTORY_EDITS }
        ensures begun { IfOk result (λ core. core ≡ start config history) }
        ensures legal { IfOk result (λ core. IsLegal config history) }
        ensures broken { IfErr result (λ fault. IsFaultOf (broken_in fault) (ruled (after config history))) }
    {
        let opening = config.copy(alloc)?;
        let database = replay(alloc, config, &history)?;
        let looks = Slots::new(alloc)?;
        let queries = Slots::new(alloc)?;
        let kept = KeptActs::new(alloc);
        let base = history.len();
        Ok(Core {
            alloc,
            config: opening,
            entries: history,
            base,
            database,
            kept,
            looks,
            queries,
        })
    }

    /// The configuration that the history begins with.
    pub fn config(&self) -> &Config
        ensures { result.now ≡ self.now.config }
    {
        &self.config
    }

    /// The history, in which no entry breaks a rule.
    pub fn history(&self) -> &PlainHistory
        ensures entries { result.now ≡ self.now.entries }
        ensures legal { IsLegal self.now.config self.now.entries }
    {
        &self.entries
    }

    /// The number of the present state: how many edits it is after.
    pub fn number(&self) -> u64
        ensures { result ≡ length self.now.entries }
    {
        self.entries.len() as u64
    }

    /// Tries an edit, or what takes a line back.
    fn edit(&mut self, line: Line) -> Result<Option<Reply>, Memory>
        ensures ok { IfOk result (λ reply. edit_event self.old line line.request ≡
            (reply, self.new)) }
        ensures err { OnErr result (self.new ≡ self.old) }
    {
        let head = Head {
            line: line.line,
            session: line.session,
            command: line.command,
        };
        match line.request {
            Request::Edit(given) => {
                let reply = try_given(
                    self.alloc,
                    &mut self.entries,
                    &mut self.database,
                    &mut self.kept,
                    head,
                    given,
                )?;
                Ok(Some(reply))
            }
            Request::Undo(earlier) => {
                let reply = try_undo(
                    self.alloc,
                    &mut self.entries,
                    &mut self.database,
                    &mut self.kept,
                    head,
                    earlier,
                )?;
                Ok(Some(reply))
            }
            Request::Query(_) => Ok(None),
            Request::Look(_) => Ok(None),
            Request::Finish => Ok(None),
            Request::After(_) => Ok(None),
        }
    }

    /// Holds the present state for a `look`, unless the session has one open.
    fn hold_look(&mut self, head: Head, ask: Ask) -> Result<Option<Reply>, Memory>
        requires { head.session.0 < session_places }
        ensures ok { IfOk result (λ reply. look_event self.old (head_line head (Request.Look ask))
            (Request.Look ask) ≡ (reply, self.new)) }
        ensures err { OnErr result (self.new ≡ self.old) }
    {
        let n = self.entries.len() as u64;
        let reply = open_look(self.alloc, &self.database, n, &mut self.looks, head, ask)?;
        Ok(Some(reply))
    }

    /// Holds the present state for a query, which gives no reply yet.
    fn hold_query(&mut self, head: Head, ask: Ask) -> Result<Option<Reply>, Memory>
        requires { head.session.0 < session_places }
        ensures ok { IfOk result (λ reply. look_event self.old (head_line head (Request.Query ask))
            (Request.Query ask) ≡ (reply, self.new)) }
        ensures err { OnErr result (self.new ≡ self.old) }
    {
        let n = self.entries.len() as u64;
        begin_query(self.alloc, &self.database, n, &mut self.queries, head, ask)?;
        Ok(None)
    }

    /// Looks at the present state: for a `look`, for a query or for an `after`.
    fn look(&mut self, line: Line) -> Result<Option<Reply>, Memory>
        requires { line.session.0 < session_places }
        ensures ok { IfOk result (λ reply. look_event self.old line line.request ≡
            (reply, self.new)) }
        ensures err { OnErr result (self.new ≡ self.old) }
    {
        let head = Head {
            line: line.line,
            session: line.session,
            command: line.command,
        };
        match line.request {
            Request::Look(ask) => self.hold_look(head, ask),
            Request::Query(ask) => self.hold_query(head, ask),
            Request::After(_) => {
                Ok(Some(head.reply(Some(self.number()), Answer::Done(head.command))))
            }
            Request::Edit(given) => {
                drop(given);
                Ok(None)
            }
            Request::Undo(_) => Ok(None),
            Request::Finish => Ok(None),
        }
    }

    /// Answers the session's open look.
    fn finish(&mut self, line: u32, session: SessionNo) -> Result<Option<Reply>, Memory>
        requires { session.0 < session_places }
        ensures ok { IfOk result
            (λ reply. finish_step self.old line session (slot self.old.looks session.0) ≡
            (reply, self.new)) }
        ensures err { OnErr result (self.new ≡ self.old) }
    {
        let reply = close_look(self.alloc, &mut self.looks, line, session)?;
        Ok(Some(reply))
    }

    /// Answers the session's query under way.
    fn query(&mut self, line: u32, session: SessionNo) -> Result<Option<Reply>, Memory>
        requires { session.0 < session_places }
        ensures ok { IfOk result
            (λ reply. query_step self.old line session (slot self.old.queries session.0) ≡
            (reply, self.new)) }
        ensures err { OnErr result (self.new ≡
            (query_fails self.old line session (slot self.old.queries session.0)).1) }
    {
        close_query(self.alloc, &mut self.queries, line, session)
    }

    /// Takes one event: the reply that it gives, if it gives one. The only refusal is want of
    /// memory, which changes nothing but that it closes a query under way that was to be answered.
    pub fn step(&mut self, event: Event) -> Result<Option<Reply>, Memory>
        requires { place_of event < session_places }
        ensures ok { IfOk result (λ reply. core_step self.old event ≡ (reply, self.new)) }
        ensures err { OnErr result (self.new ≡ (core_fails self.old event).1) }
    {
        match event {
            Event::Edit { line } => self.edit(line),
            Event::Look { line } => self.look(line),
            Event::Piece { session: _ } => Ok(None),
            Event::Finish {
                line,
                session,
                command,
            } => match command {
                Command::Finish => self.finish(line, session),
                Command::Query => self.query(line, session),
                _ => Ok(None),
            },
        }
    }

    /// Takes one event, and puts its reply behind the others.
    fn turn(&mut self, event: Event, replies: &mut Replies) -> Result<(), Memory>
        requires { place_of event < session_places }
        ensures state { OnOk result (self.new ≡ (core_step self.old event).1) }
        ensures replies { OnOk result (replies.new ≡ replies.old ++
            option_list (core_step self.old event).0) }
        ensures err { OnErr result ((self.new ≡ (core_step self.old event).1) ⊎ (self.new ≡
            (core_fails self.old event).1)) }
    {
        if let Some(reply) = self.step(event)? {
            replies.push(reply)?;
        }
        Ok(())
    }

    /// Takes events in order: the replies that they give. The only refusal is want of memory. The
    /// state is then the one after some of the events, from the first on, but that a query under
    /// way is closed where memory ran out at its answer.
    pub fn run(&mut self, mut events: Events) -> Result<Replies, Memory>
        requires { All (λ event. place_of event < session_places) events.items }
        ensures ok { IfOk result (λ replies. (replies, self.new) ≡ steps self.old events.items) }
        ensures err { OnErr result (StopsAt self.old events.items self.new) }
    {
        let mut replies = Replies::new(self.alloc);
        while let Some(event) = events.pop_front() {
            self.turn(event, &mut replies)?;
        }
        Ok(replies)
    }
}
