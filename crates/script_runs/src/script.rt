//! The lines of a script, run one after another.
ghost use Rattle.std.specs.Prelude.{◌≡◌, ◌≤◌, ℕ, List, [], true, ◌∷◌, ◌++◌, All, Option, None, Some, IfErr, OnOk, if◌then◌else◌};
ghost use Rattle.db_config.specs.declared.parts.ConfigParts.{ConfigParts as Configuration};
ghost use Rattle.live_run.specs.live_book.Kept.{KeepsIn};
ghost use Rattle.live_run.specs.live_book.Commits.{has_journal};
ghost use Rattle.book_opening.specs.Inner.Opens.{AreAtFront, IsEmpty};
ghost use Rattle.script_runs.specs.Bases.{Base, store_of};
ghost use Rattle.script_runs.specs.Inner.Bases.{fresh_base};
ghost use Rattle.script_runs.specs.Cuts.{cut};
ghost use Rattle.program_output.specs.Inner.Written.{EndHasCause};
ghost use Rattle.script_runs.specs.Inner.Reached.{DuringStart, IsBeginOf, IsBegun, IsEndFor, IsRunFailed, IsRunKept, LeavesSince, Reached, RunsLine, RunsLines, RunsScript};
ghost use Rattle.script_runs.specs.Inner.Turns.{IsLineRead, IsUnreadFor, ReadsConfig};

use crate::cut::next_line;
use crate::running::{Running, begin, close, read_next};
use book_opening::{MadeBook, NoBook, OpenFault, new_book};
use db_config::Config;
use edit_journal::Journal;
use emu_disk::Disk;
use emu_io::Sink;
use label_match::PatternMaker;
use live_run::{Book, Published};
use program_output::{Ended, write_config, write_reply};
use script_lines::{LineFault, LineSet, ReadLine};
use std::alloc::Global;
use std::sync::Wait;
use std::thread::Threads;
use version_gate::Passes;

/// How many passes a run asks for.
pub(crate) const READERS: u32 = 1;

/// How a run ended, and the journal of its book.
pub(crate) struct RunEnd<D: Disk> {
    /// Why it ended before its script, if it did.
    pub(crate) ended: Result<(), Ended>,
    /// The journal, where there is a store.
    pub(crate) journal: Option<Journal<D>>,
}

/// Runs one line behind that of the configuration, and writes its reply.
fn one_line<R: Threads + Wait + Sync, K: Sink, D: Disk, P: PatternMaker>(
    rt: &R,
    alloc: Global,
    running: &mut Running<D>,
    line: &[u8],
    out: &mut K,
    patterns: &mut P,
) -> Result<(), Ended>
    requires { All (λ it. it.line ≤ running.old.number) running.old.earlier }
    ensures rises { OnOk result (All (λ it. it.line ≤ running.new.number) running.new.earlier) }
    ensures ran { (base : Base) (begin : D) (config : Configuration) (lines : List (List ℕ))
        (refusals : ℕ) (before : Option (List ℕ)) →
        Reached D.Disk base begin config lines running.old refusals
        (P.refusals patterns.old) before (K.written out.old) →
        RunsLine result D.Disk base begin running.new config lines line.now refusals
        (P.refusals patterns.new) before (K.written out.new) }
    ensures stored { has_journal running.new.core.book.journal ≡ has_journal running.old.core.book.journal }
    ensures cause { IfErr result (λ end. EndHasCause end (K.faults out.old) (K.faults out.new)) }
    ensures later { K.faults out.old ≤ K.faults out.new }
{
    match read_next(
        alloc,
        running.number,
        false,
        &running.earlier,
        line,
        patterns,
    ) {
        Err(end) => Err(end),
        Ok(ReadLine::Blank) => {
            running.number += 1;
            Ok(())
        }
        Ok(ReadLine::Config(_)) => unreachable!(),
        Ok(ReadLine::Request(request)) => match running.take(rt, request) {
            Ok(reply) => write_reply(alloc, out, &reply),
            Err(_) => Err(Ended::Memory),
        },
    }
}

/// Runs the lines behind that of the configuration, one after another.
fn run_rest<R: Threads + Wait + Sync, K: Sink, D: Disk, P: PatternMaker>(
    rt: &R,
    alloc: Global,
    running: &mut Running<D>,
    past: bool,
    bytes: &[u8],
    out: &mut K,
    patterns: &mut P,
) -> Result<(), Ended>
    requires { All (λ it. it.line ≤ running.old.number) running.old.earlier }
    ensures ran { (base : Base) (begin : D) (config : Configuration) (lines : List (List ℕ))
        (refusals : ℕ) (before : Option (List ℕ)) →
        Reached D.Disk base begin config lines running.old refusals
        (P.refusals patterns.old) before (K.written out.old) →
        RunsLines result base (IsRunKept D.Disk base begin running.new.core.book.journal)
        past (lines ++ cut past bytes.now) refusals (P.refusals patterns.new) before
        (K.written out.new) }
    ensures stored { has_journal running.new.core.book.journal ≡ has_journal running.old.core.book.journal }
    ensures cause { IfErr result (λ end. EndHasCause end (K.faults out.old) (K.faults out.new)) }
    ensures later { K.faults out.old ≤ K.faults out.new }
{
    let mut rest = bytes;
    'lines: loop {
        match next_line(past, rest) {
            None => return Ok(()),
            Some((line, after)) => {
                match one_line(rt, alloc, running, line, out, patterns) {
                    Ok(()) => {}
                    Err(end) => return Err(end),
                }
                rest = after;
            }
        }
    }
}

/// Runs the lines that are left of a script, to its end or to its limit.
fn run_lines<R: Threads + Wait + Sync, K: Sink, D: Disk, P: PatternMaker>(
    rt: &R,
    alloc: Global,
    running: &mut Running<D>,
    past: bool,
    rest: &[u8],
    out: &mut K,
    patterns: &mut P,
) -> Result<(), Ended>
    requires { All (λ it. it.line ≤ running.old.number) running.old.earlier }
    ensures ran { (base : Base) (begin : D) (config : Configuration)
        (lines : List (List ℕ)) (refusals : ℕ) (before : Option (List ℕ)) →
        Reached D.Disk base begin config lines running.old refusals
        (P.refusals patterns.old) before (K.written out.old) →
        RunsScript result base (IsRunKept D.Disk base begin running.new.core.book.journal)
        (IsRunFailed D.Disk begin running.new.core.book.journal) past
        (lines ++ cut past rest.now) refusals (P.refusals patterns.new) before
        (K.written out.new) }
    ensures stored { has_journal running.new.core.book.journal ≡ has_journal running.old.core.book.journal }
    ensures cause { IfErr result (λ end. EndHasCause end (K.faults out.old) (K.faults out.new)) }
    ensures later { K.faults out.old ≤ K.faults out.new }
{
    match run_rest(rt, alloc, running, past, rest, out, patterns) {
        Ok(()) => {}
        Err(end) => return Err(end),
    }
    if past {
        return Err(Ended::Limit);
    }
    Ok(())
}

/// Replies to the line of the configuration, and runs the lines behind it.
fn run_begun<R: Threads + Wait + Sync, K: Sink, D: Disk, P: PatternMaker>(
    rt: &R,
    alloc: Global,
    running: &mut Running<D>,
    past: bool,
    rest: &[u8],
    out: &mut K,
    patterns: &mut P,
) -> Result<(), Ended>
    requires { All (λ it. it.line ≤ running.old.number) running.old.earlier }
    ensures ran { (base : Base) (begin : D) (config : Configuration)
        (line : List ℕ) (refusals : ℕ) → base ≡ fresh_base (has_journal running.old.core.book.journal) →
        IsBeginOf D.faults base running.old.core.book.journal (D.faults begin) →
        LeavesSince D.Disk begin running.old.core.book.journal (DuringStart (D.may_leave begin) config) →
        IsLineRead line 1 true [] refusals (P.refusals patterns.old) (Ok (ReadLine.Config config)) →
        IsBegun D.may_leave config [] 1 running.old →
        RunsScript result base (IsRunKept D.Disk base begin running.new.core.book.journal)
        (IsRunFailed D.Disk begin running.new.core.book.journal) past
        (line ∷ cut past rest.now) refusals (P.refusals patterns.new) (K.written out.old)
        (K.written out.new) }
    ensures stored { has_journal running.new.core.book.journal ≡ has_journal running.old.core.book.journal }
    ensures cause { IfErr result (λ end. EndHasCause end (K.faults out.old) (K.faults out.new)) }
    ensures later { K.faults out.old ≤ K.faults out.new }
{
    match write_config(alloc, out) {
        Ok(()) => {}
        Err(end) => return Err(end),
    }
    run_lines(rt, alloc, running, past, rest, out, patterns)
}

/// Runs the script behind the line of its configuration over the new book of that, and ends the book.
fn run_made<R: Threads + Wait + Sync, K: Sink, D: Disk, P: PatternMaker>(
    rt: &R,
    alloc: Global,
    made: MadeBook<D>,
    past: bool,
    rest: &[u8],
    out: &mut K,
    patterns: &mut P,
) -> RunEnd<D>
    requires passes { AreAtFront 1 made.book made.passes }
    ensures ran { (base : Base) (begin : D) (line : List ℕ) (refusals : ℕ) →
        base ≡ fresh_base (has_journal made.book.journal) →
        IsBeginOf D.faults base made.book.journal (D.faults begin) →
        LeavesSince D.Disk begin made.book.journal (DuringStart (D.may_leave begin) made.book.config) →
        IsLineRead line 1 true [] refusals (P.refusals patterns.old)
        (Ok (ReadLine.Config made.book.config)) →
        made.book.history ≡ [] → KeepsIn D.may_leave made.book.config [] None made.book.journal →
        RunsScript result.ended base (IsRunKept D.Disk base begin result.journal)
        (IsRunFailed D.Disk begin result.journal) past
        (line ∷ cut past rest.now) refusals (P.refusals patterns.new) (K.written out.old)
        (K.written out.new) }
    ensures stored { has_journal result.journal ≡ has_journal made.book.journal }
    ensures cause { IfErr result.ended (λ end.
        EndHasCause end (K.faults out.old) (K.faults out.new)) }
    ensures later { K.faults out.old ≤ K.faults out.new }
{
    let MadeBook { book, passes } = made;
    match begin(alloc, book, passes, 1) {
        Ok(running) => {
            let mut running = running;
            let ended = run_begun(rt, alloc, &mut running, past, rest, out, patterns);
            RunEnd {
                ended,
                journal: close(rt, running),
            }
        }
        Err(book) => RunEnd {
            ended: Err(Ended::Memory),
            journal: book.into_journal(rt),
        },
    }
}

/// Why a run ends that has no book of its script's configuration.
pub(crate) fn no_book(fault: OpenFault) -> Ended
    ensures { IsEndFor fault result }
{
    match fault {
        OpenFault::StoreFull => Ended::NoRoom,
        OpenFault::Disk => Ended::Disk,
        OpenFault::Damaged(_) => Ended::Memory,
        OpenFault::Memory => Ended::Memory,
    }
}

/// Runs the lines behind that of the configuration, which was read: over a new book, which has the journal.
fn run_configured<R: Threads + Wait + Sync, K: Sink, D: Disk, P: PatternMaker>(
    rt: &R,
    alloc: Global,
    journal: Option<Journal<D>>,
    config: Config,
    past: bool,
    rest: &[u8],
    out: &mut K,
    patterns: &mut P,
) -> RunEnd<D>
    requires { IsEmpty D.may_leave journal }
    ensures ran { (base : Base) (begin : D) (line : List ℕ) (refusals : ℕ) →
        base ≡ fresh_base (has_journal journal) → IsBeginOf D.faults base journal (D.faults begin) →
        LeavesSince D.Disk begin journal (D.may_leave begin) →
        IsLineRead line 1 true [] refusals (P.refusals patterns.old) (Ok (ReadLine.Config config)) →
        RunsScript result.ended base (IsRunKept D.Disk base begin result.journal)
        (IsRunFailed D.Disk begin result.journal) past (line ∷ cut past rest.now) refusals
        (P.refusals patterns.new) (K.written out.old) (K.written out.new) }
    ensures stored { has_journal result.journal ≡ has_journal journal }
    ensures cause { IfErr result.ended (λ end.
        EndHasCause end (K.faults out.old) (K.faults out.new)) }
    ensures later { K.faults out.old ≤ K.faults out.new }
{
    match new_book(rt, alloc, config, journal, READERS) {
        Ok(made) => run_made(rt, alloc, made, past, rest, out, patterns),
        Err(refused) => {
            let NoBook { fault, journal } = refused;
            RunEnd {
                ended: Err(no_book(fault)),
                journal,
            }
        }
    }
}

/// Reads the line of a script's configuration.
fn read_config<P: PatternMaker>(
    alloc: Global,
    line: &[u8],
    patterns: &mut P,
) -> Result<Config, Ended>
    ensures read { ReadsConfig result line.now (P.refusals patterns.old) (P.refusals patterns.new) }
    ensures why { IfErr result IsUnreadFor }
{
    match read_next(alloc, 0, true, &LineSet::new(alloc), line, patterns) {
        Err(end) => Err(end),
        Ok(ReadLine::Config(config)) => Ok(config),
        Ok(ReadLine::Blank) => unreachable!(),
        Ok(ReadLine::Request(_)) => unreachable!(),
    }
}

/// Runs a script that gives its configuration: the line of that, and the lines behind it. The journal, if there is
/// one, has no bodies.
pub(crate) fn run_script<R: Threads + Wait + Sync, K: Sink, D: Disk, P: PatternMaker>(
    rt: &R,
    alloc: Global,
    journal: Option<Journal<D>>,
    past: bool,
    bytes: &[u8],
    out: &mut K,
    patterns: &mut P,
) -> RunEnd<D>
    requires { IsEmpty D.may_leave journal }
    ensures ran { (base : Base) (begin : D) → base ≡ fresh_base (has_journal journal) →
        IsBeginOf D.faults base journal (D.faults begin) →
        LeavesSince D.Disk begin journal (D.may_leave begin) →
        RunsScript result.ended base (IsRunKept D.Disk base begin result.journal)
        (IsRunFailed D.Disk begin result.journal) past (cut past bytes.now)
        (P.refusals patterns.old) (P.refusals patterns.new) (K.written out.old) (K.written out.new) }
    ensures stored { has_journal result.journal ≡ has_journal journal }
    ensures cause { IfErr result.ended (λ end.
        EndHasCause end (K.faults out.old) (K.faults out.new)) }
    ensures later { K.faults out.old ≤ K.faults out.new }
{
    match next_line(past, bytes) {
        None => RunEnd {
            ended: Err(empty(past)),
            journal,
        },
        Some((line, rest)) => match read_config(alloc, line, patterns) {
            Err(end) => RunEnd {
                ended: Err(end),
                journal,
            },
            Ok(config) => run_configured(rt, alloc, journal, config, past, rest, out, patterns),
        },
    }
}

/// Runs a script over the book of an opened store, and ends the book.
pub(crate) fn run_over<R: Threads + Wait + Sync, K: Sink, D: Disk, P: PatternMaker>(
    rt: &R,
    alloc: Global,
    book: Book<D>,
    passes: Passes<Published>,
    past: bool,
    bytes: &[u8],
    out: &mut K,
    patterns: &mut P,
) -> RunEnd<D>
    requires passes { AreAtFront 1 book passes }
    requires stored { has_journal book.journal ≡ true }
    ensures ran { (begin : D) →
        IsBeginOf D.faults (store_of book.config book.history) book.journal (D.faults begin) →
        LeavesSince D.Disk begin book.journal (D.may_leave begin) →
        KeepsIn D.may_leave book.config book.history None book.journal →
        RunsScript result.ended (store_of book.config book.history)
        (IsRunKept D.Disk (store_of book.config book.history) begin result.journal)
        (IsRunFailed D.Disk begin result.journal) past (cut past bytes.now)
        (P.refusals patterns.old) (P.refusals patterns.new)
        (K.written out.old) (K.written out.new) }
    ensures stored { has_journal result.journal ≡ true }
    ensures cause { IfErr result.ended (λ end.
        EndHasCause end (K.faults out.old) (K.faults out.new)) }
    ensures later { K.faults out.old ≤ K.faults out.new }
{
    match begin(alloc, book, passes, 0) {
        Ok(running) => {
            let mut running = running;
            let ended = run_lines(rt, alloc, &mut running, past, bytes, out, patterns);
            RunEnd {
                ended,
                journal: close(rt, running),
            }
        }
        Err(book) => RunEnd {
            ended: Err(Ended::Memory),
            journal: book.into_journal(rt),
        },
    }
}

/// What ends a script without a line, which has to give a configuration.
fn empty(past: bool) -> Ended
    ensures { result ≡ (if past then Ended.Limit else Ended.AtFault 1 LineFault.ConfigPlace) }
{
    if past {
        Ended::Limit
    } else {
        Ended::AtFault(1, LineFault::ConfigPlace)
    }
}
