//! The command `live`: the store is opened, if there is one, the script is read whole, its sessions are run at once,
//! and what they were answered is written when all have ended.
ghost use Rattle.std.specs.Prelude.{◌≡◌, ◌≢◌, ◌≤◌, ℕ, List, [], Bool, true, false, Some, None, Option};
ghost use Rattle.emu_io.specs.Inner.Fronts.{IsFrontOf, TakesFront};
ghost use Rattle.live_run.specs.live_book.Kept.{KeepsIn, faults_in};
ghost use Rattle.live_run.specs.live_book.Commits.{has_journal};
ghost use Rattle.book_opening.specs.Inner.Opens.{AreAtFront, IsEmpty, IsOpenedAs, journal_in};
ghost use Rattle.live_run.specs.session_core.InOrder.{ComeInOrder};
ghost use Rattle.script_runs.specs.Bases.{store_of};
ghost use Rattle.script_runs.specs.Inner.Bases.{fresh_base};
ghost use Rattle.script_runs.specs.Inner.Ran.{RunsOver};
ghost use Rattle.script_runs.specs.Scripts.{Parsed};
ghost use Rattle.script_runs.specs.Inner.Lives.{IsSpread};
ghost use Rattle.script_runs.specs.Inner.Answered.{EndsOver, WasRead};
ghost use Rattle.script_runs.specs.Told.{SaysLiveBy, SaysLiveTold, SourceTold};

use crate::answers::answer;
use crate::in_order::{Left, Ran, give_back, unopened, unread};
use crate::reading::{Reading, read_script};
use crate::script::no_book;
use crate::spread::Spread;
use book_opening::{MadeBook, NoBook, NoStore, Opened, new_book, open_store};
use db_config::Config;
use edit_journal::Journal;
use emu_disk::Disk;
use emu_io::{Gate, Sink, Source, read_front};
use emu_names::limits::SCRIPT_BYTES;
use label_match::PatternMaker;
use live_run::{Book, Lines, LiveEnd, Published, run_live};
use program_output::close_run;
use std::alloc::Global;
use std::sync::Wait;
use std::thread::Threads;
use version_gate::Passes;

/// Runs the sessions of a script over a book, and writes what they were answered.
fn live_over<R: Threads + Wait + Sync, K: Sink, D: Disk + Send, G: Gate + Sync>(
    rt: &R,
    alloc: Global,
    book: Book<D>,
    passes: Passes<Published>,
    given: bool,
    lines: &Lines,
    spread: Spread,
    out: &mut K,
    gate: &G,
) -> Left<D>
    requires passes { AreAtFront spread.readers book passes }
    requires sound { KeepsIn D.may_leave book.config book.history None book.journal }
    requires lines { ComeInOrder [] lines.now }
    requires spread { IsSpread spread }
    ensures ends { EndsOver result.status D.may_leave D.faults book given lines.now result.journal
        (K.written out.old) (K.written out.new) (K.faults out.old) (K.faults out.new) }
    ensures stored { has_journal result.journal ≡ has_journal book.journal }
{
    let LiveEnd { book, ended } = run_live(rt, alloc, book, passes, lines, spread.workers, gate);
    let status = answer(alloc, given, &ended, out);
    drop(ended);
    Left {
        status,
        journal: book.into_journal(rt),
    }
}

/// Runs a script that gives its configuration: over a new book, which has the journal.
fn live_configured<R: Threads + Wait + Sync, K: Sink, D: Disk + Send, G: Gate + Sync>(
    rt: &R,
    alloc: Global,
    journal: Option<Journal<D>>,
    config: Config,
    lines: &Lines,
    spread: Spread,
    out: &mut K,
    gate: &G,
) -> Left<D>
    requires empty { IsEmpty D.may_leave journal }
    requires lines { ComeInOrder [] lines.now }
    requires spread { IsSpread spread }
    ensures says { (store : Bool) (begin disk : D) (told : SourceTold) (refusals refusals_after : ℕ) (parsed : Parsed) →
        RunsOver D.Disk store (fresh_base store) journal result.journal begin disk →
        WasRead true told.left told.left_after refusals refusals_after parsed →
        parsed.config ≡ Some config → parsed.requests ≡ lines.now →
        SaysLiveTold K.Sink D.Disk store told refusals refusals_after out.old out.new begin disk result.status }
    ensures stored { has_journal result.journal ≡ has_journal journal }
{
    match new_book(rt, alloc, config, journal, spread.readers) {
        Ok(made) => {
            let MadeBook { book, passes } = made;
            live_over(rt, alloc, book, passes, true, lines, spread, out, gate)
        }
        Err(refused) => {
            let NoBook { fault, journal } = refused;
            Left {
                status: close_run(alloc, Err(no_book(fault)), out),
                journal,
            }
        }
    }
}

/// Runs a script that was read and gives its configuration.
fn live_read<R: Threads + Wait + Sync, K: Sink, D: Disk + Send, G: Gate + Sync>(
    rt: &R,
    alloc: Global,
    journal: Option<Journal<D>>,
    reading: Reading,
    spread: Spread,
    out: &mut K,
    gate: &G,
) -> Left<D>
    requires empty { IsEmpty D.may_leave journal }
    requires lines { ComeInOrder [] reading.lines }
    requires given { reading.config ≢ None }
    requires spread { IsSpread spread }
    ensures says { (store : Bool) (begin disk : D) (told : SourceTold) (refusals refusals_after : ℕ) (parsed : Parsed) →
        RunsOver D.Disk store (fresh_base store) journal result.journal begin disk →
        WasRead true told.left told.left_after refusals refusals_after parsed →
        reading.config ≡ parsed.config → reading.lines ≡ parsed.requests →
        SaysLiveTold K.Sink D.Disk store told refusals refusals_after out.old out.new begin disk result.status }
    ensures stored { has_journal result.journal ≡ has_journal journal }
{
    let Reading { config, lines, .. } = reading;
    match config {
        Some(config) => live_configured(rt, alloc, journal, config, &lines, spread, out, gate),
        None => unreachable!(),
    }
}

/// Reads a script that has to give its configuration, and runs it. The journal, if there is one, has no bodies.
fn read_fresh<R: Threads + Wait + Sync, K: Sink, D: Disk + Send, P: PatternMaker, G: Gate + Sync>(
    rt: &R,
    alloc: Global,
    journal: Option<Journal<D>>,
    past: bool,
    bytes: &[u8],
    spread: Spread,
    out: &mut K,
    patterns: &mut P,
    gate: &G,
) -> Left<D>
    requires empty { IsEmpty D.may_leave journal }
    requires spread { IsSpread spread }
    ensures says { (store : Bool) (begin disk : D) (told : SourceTold) →
        RunsOver D.Disk store (fresh_base store) journal result.journal begin disk →
        IsFrontOf told.left SCRIPT_BYTES bytes.now past → TakesFront told.left told.left_after bytes.now past →
        SaysLiveTold K.Sink D.Disk store told (P.refusals patterns.old) (P.refusals patterns.new)
        out.old out.new begin disk result.status }
    ensures stored { has_journal result.journal ≡ has_journal journal }
{
    match read_script(alloc, true, past, bytes, patterns) {
        Err(end) => Left {
            status: close_run(alloc, Err(end), out),
            journal,
        },
        Ok(reading) => live_read(rt, alloc, journal, reading, spread, out, gate),
    }
}

/// Runs the script of the source, which has to give its configuration. The journal, if there is one, has no bodies.
fn live_fresh<
    R: Threads + Wait + Sync,
    S: Source,
    K: Sink,
    D: Disk + Send,
    P: PatternMaker,
    G: Gate + Sync,
>(
    rt: &R,
    alloc: Global,
    journal: Option<Journal<D>>,
    spread: Spread,
    script: &mut S,
    out: &mut K,
    patterns: &mut P,
    gate: &G,
) -> Left<D>
    requires empty { IsEmpty D.may_leave journal }
    requires spread { IsSpread spread }
    ensures says { (store : Bool) (begin disk : D) →
        RunsOver D.Disk store (fresh_base store) journal result.journal begin disk →
        SaysLiveBy S.Source K.Sink D.Disk P.PatternMaker store script.old script.new
        out.old out.new begin disk patterns.old patterns.new result.status }
    ensures stored { has_journal result.journal ≡ has_journal journal }
{
    match read_front(alloc, script, SCRIPT_BYTES) {
        Err(fault) => Left {
            status: unread(fault),
            journal,
        },
        Ok(front) => {
            let bytes = front.bytes.as_slice();
            read_fresh(
                rt, alloc, journal, front.past, bytes, spread, out, patterns, gate,
            )
        }
    }
}

/// Reads a script over the book of an opened store, and runs it.
fn read_opened<R: Threads + Wait + Sync, K: Sink, D: Disk + Send, P: PatternMaker, G: Gate + Sync>(
    rt: &R,
    alloc: Global,
    book: Book<D>,
    passes: Passes<Published>,
    past: bool,
    bytes: &[u8],
    spread: Spread,
    out: &mut K,
    patterns: &mut P,
    gate: &G,
) -> Left<D>
    requires passes { AreAtFront spread.readers book passes }
    requires sound { KeepsIn D.may_leave book.config book.history None book.journal }
    requires stored { has_journal book.journal ≡ true }
    requires spread { IsSpread spread }
    ensures says { (begin disk : D) (told : SourceTold) →
        RunsOver D.Disk true (store_of book.config book.history) book.journal result.journal begin disk →
        IsFrontOf told.left SCRIPT_BYTES bytes.now past → TakesFront told.left told.left_after bytes.now past →
        SaysLiveTold K.Sink D.Disk true told (P.refusals patterns.old) (P.refusals patterns.new)
        out.old out.new begin disk result.status }
    ensures stored { has_journal result.journal ≡ true }
{
    match read_script(alloc, false, past, bytes, patterns) {
        Err(end) => Left {
            status: close_run(alloc, Err(end), out),
            journal: book.into_journal(rt),
        },
        Ok(reading) => {
            let lines = &reading.lines;
            live_over(rt, alloc, book, passes, false, lines, spread, out, gate)
        }
    }
}

/// Runs the script of the source over the book of an opened store.
fn live_opened<
    R: Threads + Wait + Sync,
    S: Source,
    K: Sink,
    D: Disk + Send,
    P: PatternMaker,
    G: Gate + Sync,
>(
    rt: &R,
    alloc: Global,
    book: Book<D>,
    passes: Passes<Published>,
    spread: Spread,
    script: &mut S,
    out: &mut K,
    patterns: &mut P,
    gate: &G,
) -> Left<D>
    requires passes { AreAtFront spread.readers book passes }
    requires sound { KeepsIn D.may_leave book.config book.history None book.journal }
    requires stored { has_journal book.journal ≡ true }
    requires spread { IsSpread spread }
    ensures says { (begin disk : D) →
        RunsOver D.Disk true (store_of book.config book.history) book.journal result.journal begin disk →
        SaysLiveBy S.Source K.Sink D.Disk P.PatternMaker true script.old script.new
        out.old out.new begin disk patterns.old patterns.new result.status }
    ensures stored { has_journal result.journal ≡ true }
{
    match read_front(alloc, script, SCRIPT_BYTES) {
        Err(fault) => Left {
            status: unread(fault),
            journal: book.into_journal(rt),
        },
        Ok(front) => {
            let bytes = front.bytes.as_slice();
            read_opened(
                rt, alloc, book, passes, front.past, bytes, spread, out, patterns, gate,
            )
        }
    }
}

/// Runs the script of the source over an opened store.
fn live_over_store<
    R: Threads + Wait + Sync,
    S: Source,
    K: Sink,
    D: Disk + Send,
    P: PatternMaker,
    G: Gate + Sync,
>(
    rt: &R,
    alloc: Global,
    opened: Opened<D>,
    spread: Spread,
    script: &mut S,
    out: &mut K,
    patterns: &mut P,
    gate: &G,
) -> Ran<D>
    requires opened { (reads : Option (List ℕ)) ×
        IsOpenedAs D.may_leave reads spread.readers opened }
    requires spread { IsSpread spread }
    ensures says { (begin : D) →
        IsOpenedAs D.may_leave (D.reads begin) spread.readers opened →
        D.faults begin ≤ faults_in D.faults (journal_in opened) →
        SaysLiveBy S.Source K.Sink D.Disk P.PatternMaker true script.old script.new
        out.old out.new begin result.disk patterns.old patterns.new result.status }
{
    match opened {
        Opened::Stored { book, passes } => {
            give_back(live_opened(rt, alloc, book, passes, spread, script, out, patterns, gate))
        }
        Opened::Bare { journal } => {
            give_back(live_fresh(
                rt,
                alloc,
                Some(journal),
                spread,
                script,
                out,
                patterns,
                gate,
            ))
        }
    }
}

/// Runs the script of the source with a store: opens it, and goes on with what it has.
pub fn live_stored<
    R: Threads + Wait + Sync,
    S: Source,
    K: Sink,
    D: Disk + Send,
    P: PatternMaker,
    G: Gate + Sync,
>(
    rt: &R,
    alloc: Global,
    spread: Spread,
    script: &mut S,
    out: &mut K,
    disk: D,
    patterns: &mut P,
    gate: &G,
) -> Ran<D>
    requires { IsSpread spread }
    ensures says { SaysLiveBy S.Source K.Sink D.Disk P.PatternMaker true script.old script.new
        out.old out.new disk result.disk patterns.old patterns.new result.status }
{
    match open_store(rt, alloc, disk, spread.readers) {
        Ok(opened) => live_over_store(rt, alloc, opened, spread, script, out, patterns, gate),
        Err(refused) => {
            let NoStore { fault, disk } = refused;
            Ran {
                status: unopened(alloc, fault, out),
                disk,
            }
        }
    }
}

/// Runs the script of the source without a store; the disk is not called.
pub fn live_alone<
    R: Threads + Wait + Sync,
    S: Source,
    K: Sink,
    D: Disk + Send,
    P: PatternMaker,
    G: Gate + Sync,
>(
    rt: &R,
    alloc: Global,
    spread: Spread,
    script: &mut S,
    out: &mut K,
    disk: D,
    patterns: &mut P,
    gate: &G,
) -> Ran<D>
    requires { IsSpread spread }
    ensures says { SaysLiveBy S.Source K.Sink D.Disk P.PatternMaker false script.old script.new
        out.old out.new disk result.disk patterns.old patterns.new result.status }
    ensures untouched { result.disk ≡ disk }
{
    let journal: Option<Journal<D>> = None;
    let Left { status, journal } = live_fresh(
        rt, alloc, journal, spread, script, out, patterns, gate,
    );
    match journal {
        None => Ran { status, disk },
        Some(_) => unreachable!(),
    }
}
