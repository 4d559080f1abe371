//! A run in order over a book.
ghost use Rattle.std.specs.Prelude.{◌≡◌, ◌<◌, None, IfOk, IfErr, replicate};
ghost use Rattle.query_workers.specs.session_core.Steps.{session_places, start};
ghost use Rattle.live_book.specs.Histories.{IsHistory};
ghost use Rattle.session_run.specs.Inner.Orders.{Answers, state_of};

use crate::looks::Look;
use crate::turns::take_line;
use edit_rules::Entries;
use emu_disk::Disk;
use live_book::{Book, Published};
use query_workers::session_core::{KeptActs, Line, Reply, Slots};
use std::alloc::Global;
use std::marker::Model;
use std::sync::Wait;
use std::thread::Threads;
use version_gate::Pass;

/// A run in order: a book, a pass of its gate, for each session its open look, which keeps the version of
/// its moment, and what takes back each act that it accepted. It is no `Drop`, since its book is none: end it by
/// [`InOrder::close`].
pub struct InOrder<D: Disk> {
    alloc: Global,
    book: Book<D>,
    pass: Pass<Published>,
    looks: Slots<Look>,
    kept: KeptActs,
}

impl<D: Disk> Model for InOrder<D> {
    ghost use Rattle.std.specs.Prelude.{◌≡◌};
    ghost use Rattle.std.specs.Coded.{codes};
    ghost use Rattle.eql_resolve.specs.Inner.Codes.{tree_code};
    ghost use Rattle.query_workers.specs.session_core.Inner.Kept.{AreHeld};
    ghost use Rattle.session_run.specs.Inner.Orders.{OrderParts};
    ghost use Rattle.session_run.specs.Inner.Taken.{KeepsActs, run_of};

    ghost Value = { OrderParts D };

    ghost coded = { Prim.hlevel (codes, tree_code) };

    ghost view = { λ run. run_of run.book run.looks run.kept.acts };

    ghost invariant = { λ run. (run.pass.gate ≡ run.book.gate)
        × AreHeld run.book.config run.book.history run.looks
        × KeepsActs run.book.config run.book.history run.kept.acts };
}

/// The run of a book, with no look open and no act accepted. The pass is one of the book's gate. The only refusal is want of
/// memory, and the book is handed back then.
pub fn new_in_order<D: Disk>(
    alloc: Global,
    book: Book<D>,
    pass: Pass<Published>,
) -> Result<InOrder<D>, Book<D>>
    requires gate { pass.gate ≡ book.gate }
    ensures begun { IfOk result (λ run. state_of run ≡ start book.config book.history) }
    ensures book { IfOk result (λ run. run.book ≡ book) }
    ensures looks { IfOk result (λ run. run.looks ≡ replicate session_places None) }
    ensures refused { IfErr result (λ back. back ≡ book) }
{
    match Slots::new(alloc) {
        Ok(looks) => Ok(InOrder {
            alloc,
            book,
            pass,
            looks,
            kept: KeptActs::new(alloc),
        }),
        Err(_) => Err(book),
    }
}

impl<D: Disk> InOrder<D> {
    /// Answers a line, over all entries so far. An accepted edit counts itself. An `undo` is the edit that takes back the
    /// earlier line that it names, as it was made when that line was accepted.
    ///
    /// The reply and the state behind it are those of the core's turn, in which memory may have run out; where
    /// there is a journal, its limit is kept, and the disk may have failed. The book is changed by the commit
    /// of the act that the line wants alone. It may wait for passes that read, and it looks again until its pass finds the
    /// version of all entries: it keeps its promise if it returns.
    pub fn answer<R: Threads + Wait + Sync>(&mut self, rt: &R, line: Line) -> Reply
        requires place { line.session.0 < session_places }
        ensures { Answers D.may_leave D.moment D.left_since D.faults self.old line result self.new }
    {
        take_line(
            rt,
            self.alloc,
            &mut self.book,
            &mut self.pass,
            &mut self.looks,
            &mut self.kept,
            line,
        )
    }

    /// All entries of the book, in order.
    pub fn history(&self) -> &Entries
        ensures entries { result.now ≡ self.now.book.history }
        ensures legal { IsHistory self.now.book.config self.now.book.history }
    {
        self.book.history()
    }

    /// Ends the run, and hands its book back as it is.
    pub fn close(self) -> Book<D>
        ensures { result ≡ self.book }
    {
        let InOrder {
            alloc: _,
            book,
            pass: _,
            looks: _,
            kept: _,
        } = self;
        book
    }
}
