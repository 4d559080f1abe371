//! An open look, which keeps the version of its moment.
ghost use Rattle.std.specs.Prelude.{◌≡◌, Some, IfOk};
ghost use Rattle.std.specs.Arc.{arc_value};
ghost use Rattle.query_workers.specs.version_tree.Version.{state_of};
ghost use Rattle.query_workers.specs.session_core.Inner.Kept.{held_answer, held_at, query_reply};
ghost use Rattle.query_workers.specs.session_core.Queries.{lacks_memory};
ghost use Rattle.query_workers.specs.session_core.Steps.{reply_of};

use emu_io::OpenGate;
use emu_names::{Memory, SessionNo};
use live_book::Published;
use query_workers::answer_over;
use query_workers::session_core::{Ask, Head, Reply, lacks_memory, memory_reply};
use std::alloc::Global;
use std::marker::Model;
use std::sync::Arc;
use std::thread::Threads;

/// A query, with the version that it is answered over.
#[derive(Drop)]
pub struct Look {
    line: u32,
    n: u64,
    ask: Ask,
    shown: Arc<Published>,
}

impl Model for Look {
    ghost use Rattle.std.specs.Arc.{arc_value};
    ghost use Rattle.std.specs.Coded.{codes};
    ghost use Rattle.eql_resolve.specs.Inner.Codes.{tree_code};
    ghost use Rattle.query_workers.specs.version_tree.Version.{state_of};
    ghost use Rattle.query_workers.specs.session_core.declared.slots.Held.{Held};

    ghost Value = { Held };

    ghost coded = { Prim.hlevel (codes, tree_code) };

    ghost view = { λ l. record {
      line = l.line;
      n = l.n;
      ask = l.ask;
      database = state_of (arc_value l.shown).version;
    } };
}

impl Look {
    /// The query of a line, over a version with so many edits.
    pub(crate) fn new(head: Head, n: u64, ask: Ask, shown: Arc<Published>) -> Look
        ensures { result ≡ held_at head ask n (state_of (arc_value shown).version) }
    {
        Look {
            line: head.line,
            n,
            ask,
            shown,
        }
    }

    /// Whether memory ran out when the query was read.
    pub(crate) fn lacks_memory(&self) -> bool
        ensures { result ≡ lacks_memory self.now.ask }
    {
        lacks_memory(&self.ask)
    }

    /// The query's answer over its version, as the reply to a line of a session. The only refusal is want of
    /// memory.
    pub(crate) fn answered<R: Threads + Sync>(
        &self,
        rt: &R,
        alloc: Global,
        line: u32,
        session: SessionNo,
    ) -> Result<Reply, Memory>
        ensures { IfOk result (λ reply. reply ≡
            reply_of line session (Some self.now.n) (held_answer self.now)) }
    {
        let answer = answer_over(
            rt,
            alloc,
            &self.shown.version,
            &self.ask,
            1,
            line,
            &OpenGate,
        )?;
        Ok(Reply {
            line,
            session,
            n: Some(self.n),
            answer,
        })
    }

    /// The reply to the query's own line. Where memory ran out when it was read, that is the answer, and it
    /// has no number.
    pub(crate) fn reply<R: Threads + Sync>(
        &self,
        rt: &R,
        alloc: Global,
        line: u32,
        session: SessionNo,
    ) -> Result<Reply, Memory>
        ensures { IfOk result (λ reply. reply ≡
            query_reply line session self.now (lacks_memory self.now.ask)) }
    {
        if self.lacks_memory() {
            return Ok(memory_reply(line, session));
        }
        self.answered(rt, alloc, line, session)
    }
}
