//! An open look of a lane: a query of its script, and the version of its moment.
ghost use Rattle.std.specs.Prelude.{◌≡◌, ◌≤◌, Some, IfOk};
ghost use Rattle.std.specs.Arc.{arc_value};
ghost use Rattle.query_workers.specs.session_core.Inner.Kept.{held_answer};
ghost use Rattle.query_workers.specs.session_core.Queries.{lacks_memory};
ghost use Rattle.query_workers.specs.session_core.Steps.{reply_of};
ghost use Rattle.live_seats.specs.Inner.Replies.{look_over};

use emu_io::Gate;
use emu_names::{Memory, SessionNo};
use live_book::Published;
use query_workers::answer_over;
use query_workers::session_core::{Ask, Reply, lacks_memory};
use std::alloc::Global;
use std::marker::Model;
use std::sync::Arc;
use std::thread::Threads;

/// A query, with the version that it is answered over.
#[derive(Drop)]
pub struct Look<'a> {
    line: u32,
    n: u64,
    ask: &'a Ask,
    shown: Arc<Published>,
}

impl<'a> Model for Look<'a> {
    ghost use Rattle.std.specs.Arc.{arc_value};
    ghost use Rattle.std.specs.Coded.{codes};
    ghost use Rattle.eql_resolve.specs.Inner.Codes.{tree_code};
    ghost use Rattle.version_tree.specs.Version.{state_of};
    ghost use Rattle.query_workers.specs.session_core.declared.slots.Held.{Held};

    ghost Value = { Held };

    ghost coded = { Prim.hlevel (codes, tree_code) };

    ghost view = { λ l. record {
      line = l.line;
      n = l.n;
      ask = l.ask.now;
      database = state_of (arc_value l.shown).version;
    } };
}

impl<'a> Look<'a> {
    /// The query of a line, over a version with so many edits.
    pub(crate) fn new(line: u32, n: u64, ask: &'a Ask, shown: Arc<Published>) -> Look<'a>
        ensures { result ≡ look_over line n ask.entry.now (arc_value shown) }
    {
        Look {
            line,
            n,
            ask,
            shown,
        }
    }

    /// Whether memory ran out when the query was read.
    pub(crate) fn lacks_memory(&self) -> bool
        ensures { result ≡ lacks_memory self.now.ask }
    {
        lacks_memory(self.ask)
    }

    /// The query's answer over its version, as the reply to a line of a session. The only refusal is want of memory.
    pub(crate) fn answered<R: Threads + Sync, G: Gate + Sync>(
        &self,
        rt: &R,
        alloc: Global,
        workers: u32,
        line: u32,
        session: SessionNo,
        gate: &G,
    ) -> Result<Reply, Memory>
        requires { (1 ≤ workers) × (workers ≤ 8) }
        ensures { IfOk result (λ reply. reply ≡
            reply_of line session (Some self.now.n) (held_answer self.now)) }
    {
        let answer = answer_over(
            rt,
            alloc,
            &self.shown.version,
            self.ask,
            workers,
            line,
            gate,
        )?;
        Ok(Reply {
            line,
            session,
            n: Some(self.n),
            answer,
        })
    }
}
