//! The command `run`: the store is opened, if there is one, the script is read, run and answered, and the disk is
//! given back.
ghost use Rattle.std.specs.Prelude.{◌≡◌, ◌≢◌, ◌≤◌, ℕ, List, Bool, true, false, None, Option};
ghost use Rattle.live_run.specs.live_book.Kept.{KeepsIn, faults_in};
ghost use Rattle.live_run.specs.live_book.Commits.{has_journal};
ghost use Rattle.book_opening.specs.Inner.Opens.{AreAtFront, IsEmpty, IsOpenedAs, LeavesFrom, journal_in};
ghost use Rattle.script_runs.specs.Bases.{store_of};
ghost use Rattle.script_runs.specs.Inner.Bases.{fresh_base};
ghost use Rattle.script_runs.specs.Inner.Reached.{LeavesSince};
ghost use Rattle.script_runs.specs.Inner.Ran.{HasDisk, IsUnread, RunsOver, SaysUnopened};
ghost use Rattle.script_runs.specs.Told.{SaysBy};

use crate::script::{READERS, RunEnd, run_over, run_script};
use book_opening::{NoStore, OpenFault, Opened, open_store};
use edit_journal::Journal;
use emu_disk::Disk;
use emu_io::{ReadFault, Sink, Source, read_front};
use emu_names::limits::SCRIPT_BYTES;
use label_match::PatternMaker;
use live_run::{Book, Published};
use program_output::{Status, close_run, damaged};
use std::alloc::Global;
use std::sync::Wait;
use std::thread::Threads;
use version_gate::Passes;

/// How a run ended, and its disk.
#[derive(Drop)]
pub struct Ran<D: Disk> {
    /// How it ended.
    pub status: Status,
    /// The disk.
    pub disk: D,
}

/// How a run ended, and the journal of its store.
pub(crate) struct Left<D: Disk> {
    /// How it ended.
    pub(crate) status: Status,
    /// The journal, where there is a store.
    pub(crate) journal: Option<Journal<D>>,
}

/// How a run ends whose script could not be read.
pub(crate) fn unread(fault: ReadFault) -> Status
    ensures { IsUnread fault result }
{
    match fault {
        ReadFault::Failed => Status::Read,
        ReadFault::Memory => Status::Memory,
    }
}

/// Runs the script of the source, which has to give its configuration, and writes its replies and perhaps a last
/// line. The journal, if there is one, has no bodies.
fn run_fresh<R: Threads + Wait + Sync, S: Source, K: Sink, D: Disk, P: PatternMaker>(
    rt: &R,
    alloc: Global,
    journal: Option<Journal<D>>,
    script: &mut S,
    out: &mut K,
    patterns: &mut P,
) -> Left<D>
    requires { IsEmpty D.may_leave journal }
    ensures says { (store : Bool) (begin disk : D) →
        RunsOver D.Disk store (fresh_base store) journal result.journal begin disk →
        LeavesSince D.Disk begin journal (D.may_leave begin) →
        SaysBy S.Source K.Sink D.Disk P.PatternMaker store script.old script.new
        out.old out.new begin disk patterns.old patterns.new result.status }
    ensures stored { has_journal result.journal ≡ has_journal journal }
{
    match read_front(alloc, script, SCRIPT_BYTES) {
        Err(fault) => Left {
            status: unread(fault),
            journal,
        },
        Ok(front) => {
            let bytes = front.bytes.as_slice();
            let RunEnd { ended, journal } = run_script(
                rt, alloc, journal, front.past, bytes, out, patterns,
            );
            Left {
                status: close_run(alloc, ended, out),
                journal,
            }
        }
    }
}

/// Runs the script of the source over the book of an opened store, and writes its replies and perhaps a last line.
fn run_opened<R: Threads + Wait + Sync, S: Source, K: Sink, D: Disk, P: PatternMaker>(
    rt: &R,
    alloc: Global,
    book: Book<D>,
    passes: Passes<Published>,
    script: &mut S,
    out: &mut K,
    patterns: &mut P,
) -> Left<D>
    requires passes { AreAtFront 1 book passes }
    requires stored { has_journal book.journal ≡ true }
    ensures says { (begin disk : D) → KeepsIn D.may_leave book.config book.history None book.journal →
        RunsOver D.Disk true (store_of book.config book.history) book.journal result.journal begin disk →
        LeavesSince D.Disk begin book.journal (D.may_leave begin) →
        SaysBy S.Source K.Sink D.Disk P.PatternMaker true script.old script.new
        out.old out.new begin disk patterns.old patterns.new result.status }
    ensures stored { has_journal result.journal ≡ true }
{
    match read_front(alloc, script, SCRIPT_BYTES) {
        Err(fault) => Left {
            status: unread(fault),
            journal: book.into_journal(rt),
        },
        Ok(front) => {
            let bytes = front.bytes.as_slice();
            let RunEnd { ended, journal } = run_over(
                rt, alloc, book, passes, front.past, bytes, out, patterns,
            );
            Left {
                status: close_run(alloc, ended, out),
                journal,
            }
        }
    }
}

/// Writes why the store was not opened, where that has a last line, and answers how the run ends.
pub(crate) fn unopened<K: Sink>(alloc: Global, fault: OpenFault, out: &mut K) -> Status
    requires { fault ≢ OpenFault.StoreFull }
    ensures { SaysUnopened fault result (K.written out.old) (K.written out.new) (K.faults out.old)
        (K.faults out.new) }
{
    match fault {
        OpenFault::Disk => Status::Disk,
        OpenFault::Damaged(at) => damaged(alloc, at, out),
        OpenFault::StoreFull => unreachable!(),
        OpenFault::Memory => Status::Memory,
    }
}

/// The disk of a run's store.
pub(crate) fn give_back<D: Disk>(left: Left<D>) -> Ran<D>
    requires { has_journal left.journal ≡ true }
    ensures disk { HasDisk left.journal result.disk }
    ensures status { result.status ≡ left.status }
{
    let Left { status, journal } = left;
    match journal {
        Some(journal) => Ran {
            status,
            disk: journal.into_disk(),
        },
        None => unreachable!(),
    }
}

/// Runs the script of the source over an opened store.
fn run_over_store<R: Threads + Wait + Sync, S: Source, K: Sink, D: Disk, P: PatternMaker>(
    rt: &R,
    alloc: Global,
    opened: Opened<D>,
    script: &mut S,
    out: &mut K,
    patterns: &mut P,
) -> Ran<D>
    requires { (reads : Option (List ℕ)) ×
        IsOpenedAs D.may_leave reads 1 opened }
    ensures says { (begin : D) →
        IsOpenedAs D.may_leave (D.reads begin) 1 opened →
        D.faults begin ≤ faults_in D.faults (journal_in opened) →
        LeavesFrom D.moment D.left_since begin (journal_in opened) (D.may_leave begin) →
        SaysBy S.Source K.Sink D.Disk P.PatternMaker true script.old script.new
        out.old out.new begin result.disk patterns.old patterns.new result.status }
{
    match opened {
        Opened::Stored { book, passes } => {
            give_back(run_opened(rt, alloc, book, passes, script, out, patterns))
        }
        Opened::Bare { journal } => {
            give_back(run_fresh(rt, alloc, Some(journal), script, out, patterns))
        }
    }
}

/// Runs the script of the source with a store: opens it, and goes on with what it has.
pub fn run_stored<R: Threads + Wait + Sync, S: Source, K: Sink, D: Disk, P: PatternMaker>(
    rt: &R,
    alloc: Global,
    script: &mut S,
    out: &mut K,
    disk: D,
    patterns: &mut P,
) -> Ran<D>
    ensures says { SaysBy S.Source K.Sink D.Disk P.PatternMaker true script.old script.new
        out.old out.new disk result.disk patterns.old patterns.new result.status }
{
    match open_store(rt, alloc, disk, READERS) {
        Ok(opened) => run_over_store(rt, alloc, opened, script, out, patterns),
        Err(refused) => {
            let NoStore { fault, disk } = refused;
            Ran {
                status: unopened(alloc, fault, out),
                disk,
            }
        }
    }
}

/// Runs the script of the source without a store; the disk is not called.
pub fn run_alone<R: Threads + Wait + Sync, S: Source, K: Sink, D: Disk, P: PatternMaker>(
    rt: &R,
    alloc: Global,
    script: &mut S,
    out: &mut K,
    disk: D,
    patterns: &mut P,
) -> Ran<D>
    ensures says { SaysBy S.Source K.Sink D.Disk P.PatternMaker false script.old script.new
        out.old out.new disk result.disk patterns.old patterns.new result.status }
    ensures untouched { result.disk ≡ disk }
{
    let journal: Option<Journal<D>> = None;
    let Left { status, journal } = run_fresh(rt, alloc, journal, script, out, patterns);
    match journal {
        None => Ran { status, disk },
        Some(_) => unreachable!(),
    }
}
