//! A run between two lines: the book in order, the requests so far, and the line's number.
ghost use Rattle.std.specs.Prelude.{◌≡◌, ◌+◌, ◌<◌, [], None, IfOk, IfErr, OnOk};
ghost use Rattle.emu_names.specs.declared.limits.TheConstants.{SCRIPT_LINES};
ghost use Rattle.live_run.specs.live_book.Kept.{KeepsIn};
ghost use Rattle.book_opening.specs.Inner.Opens.{AreAtFront};
ghost use Rattle.script_lines.specs.Known.{Known};
ghost use Rattle.script_runs.specs.Inner.Reached.{IsBegun};
ghost use Rattle.script_runs.specs.Inner.Turns.{IsUnreadFor, ReadsNext};

use edit_journal::Journal;
use emu_disk::Disk;
use emu_names::Memory;
use emu_names::limits::{LINE_BYTES, SCRIPT_LINES};
use label_match::PatternMaker;
use live_run::{Book, Line, Published, Reply};
use program_output::Ended;
use script_lines::{LineFault, LineSet, ReadLine, read_line};
use session_run::{InOrder, new_in_order};
use std::alloc::Global;
use std::sync::Wait;
use std::thread::Threads;
use version_gate::Passes;

/// A run between two lines. It is no `Drop`, since its book is none: end it by [`close`].
pub struct Running<D: Disk> {
    /// The book in order.
    pub core: InOrder<D>,
    /// The requests so far, as the lines behind them may name them.
    pub earlier: LineSet,
    /// The number of the lines so far.
    pub number: u32,
}

/// The next line of a script, behind `number` lines, or the limit or the fault that ends the script
/// there, or want of memory. Where it asks a query, the maker makes the patterns of that; of a line
/// that passes a limit it is asked nothing.
pub(crate) fn read_next<P: PatternMaker>(
    alloc: Global,
    number: u32,
    wants_config: bool,
    earlier: &LineSet,
    line: &[u8],
    patterns: &mut P,
) -> Result<ReadLine, Ended>
    ensures next { ReadsNext result line.now (number + 1) wants_config earlier.now
        (P.refusals patterns.old) (P.refusals patterns.new) }
    ensures known { IfOk result (Known (number + 1) wants_config earlier.now) }
    ensures why { IfErr result IsUnreadFor }
    ensures room { OnOk result (number < SCRIPT_LINES) }
{
    if number >= SCRIPT_LINES || line.len() > LINE_BYTES {
        return Err(Ended::Limit);
    }
    match read_line(alloc, line, number + 1, wants_config, earlier, patterns) {
        Ok(read) => Ok(read),
        Err(LineFault::Memory) => Err(Ended::Memory),
        Err(fault) => Err(Ended::AtFault(number + 1, fault)),
    }
}

/// The run over a book, behind so many lines, or the book for want of memory.
pub(crate) fn begin<D: Disk>(
    alloc: Global,
    book: Book<D>,
    passes: Passes<Published>,
    number: u32,
) -> Result<Running<D>, Book<D>>
    requires { AreAtFront 1 book passes }
    ensures ok { IfOk result (λ running. KeepsIn D.may_leave book.config book.history None book.journal →
        IsBegun D.may_leave book.config book.history number running) }
    ensures stored { IfOk result (λ running. running.core.book.journal ≡ book.journal) }
    ensures earlier { IfOk result (λ running. running.earlier ≡ []) }
    ensures err { IfErr result (λ given. given ≡ book) }
{
    let mut passes = passes;
    match passes.pop() {
        None => unreachable!(),
        Some(pass) => match new_in_order(alloc, book, pass) {
            Ok(core) => Ok(Running {
                core,
                earlier: LineSet::new(alloc),
                number,
            }),
            Err(book) => Err(book),
        },
    }
}

/// Ends a run, and gives up the journal of its book.
pub(crate) fn close<R: Wait, D: Disk>(rt: &R, running: Running<D>) -> Option<Journal<D>>
    ensures { result ≡ running.core.book.journal }
{
    let Running {
        core,
        earlier: _earlier,
        number: _,
    } = running;
    core.close().into_journal(rt)
}

impl<D: Disk> Running<D> {
    ghost use Rattle.std.specs.Prelude.{◌≡◌, ◌<◌, All, IfOk, OnErr};
    ghost use Rattle.emu_names.specs.declared.limits.TheConstants.{SCRIPT_LINES};
    ghost use Rattle.script_runs.specs.Inner.Taken.{TakesLine};
    ghost use Rattle.live_run.specs.session_core.Steps.{session_places};

    /// Answers a request. The only refusal is want of memory before the request is done, which
    /// changes nothing.
    pub(crate) fn take<R: Threads + Wait + Sync>(
        &mut self,
        rt: &R,
        line: Line,
    ) -> Result<Reply, Memory>
        requires room { self.old.number < SCRIPT_LINES }
        requires place { line.session.0 < session_places }
        requires rises { All (λ it. it.line < line.line) self.old.earlier }
        ensures ok { IfOk result (λ reply. TakesLine D.may_leave D.moment D.left_since D.faults self.old
            line reply self.new) }
        ensures err { OnErr result (self.new ≡ self.old) }
    {
        self.earlier.add(line.line, line.session, line.command)?;
        let reply = self.core.answer(rt, line);
        self.number += 1;
        Ok(reply)
    }
}
