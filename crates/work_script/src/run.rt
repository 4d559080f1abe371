//! The run of the script of work, by several sessions at once.
ghost use Rattle.std.specs.Prelude.{◌≡◌, ◌≤◌, ◌<◌, ◌+◌, ◌^◌, ℕ, false, [], None, IfOk, IfSome, length};
ghost use Rattle.emu_names.specs.declared.limits.TheConstants.{BUNDLES};
ghost use Rattle.edit_rules.specs.Database.{counts_of};
ghost use Rattle.edit_rules.specs.Effects.{database_after};
ghost use Rattle.live_run.specs.live_book.Commits.{has_journal};
ghost use Rattle.live_run.specs.live_book.Kept.{BookParts, KeepsIn};
ghost use Rattle.live_run.specs.Inner.Runs.{EndsLive};
ghost use Rattle.book_opening.specs.Inner.Opens.{AreAtFront};
ghost use Rattle.live_run.specs.session_core.InOrder.{ComeInOrder};
ghost use Rattle.work_script.specs.Inner.Lines.{IsScript};
ghost use Rattle.work_script.specs.Inner.Replies.{HasAllRows, IsSummedUp};
ghost use Rattle.work_script.specs.Script.{work_config};
ghost use Rattle.work_script.specs.Summary.{IsSummary, IsWorkText};

use crate::config::work_config;
use crate::lines::work_lines;
use crate::summary::{Summary, are_taken, rows_at, summary_text};
use book_opening::{MadeBook, NoBook, new_book};
use edit_journal::Journal;
use edit_rules::Counts;
use emu_disk::Disk;
use emu_io::Gate;
use emu_names::{Memory, Text};
use label_match::PatternMaker;
use live_run::{Book, Ended, Lines, LiveEnd, Published, Reply, run_live};
use std::alloc::Global;
use std::sync::Wait;
use std::thread::Threads;
use version_gate::Passes;

/// How many passes the sessions have.
const READERS: u32 = 16;

/// By how many workers each query is answered.
const WORKERS: u32 = 4;

/// How many bundles and items the state after all entries of a book has. The only refusal is want of memory.
#[tactic(auto, using(crate::proofs::Summed::counted_after))]
fn counts_in<D: Disk>(book: &Book<D>) -> Result<Counts, Memory>
    ensures { IfOk result (λ counts. counts ≡ counts_of (database_after book.now.config book.now.history).bundles) }
{
    let shown = book.in_force()?;
    Ok(shown.version.counts())
}

/// The rows of the last four lines up to this one, each over the state after so many edits, beside these counts;
/// nothing where a line was refused, or was answered over another state.
fn rows_beside(counts: Counts, replies: &[Reply], last: u32, edits: u64) -> Option<Summary>
    requires { 4 ≤ last }
    ensures { IfSome result (HasAllRows counts replies.now last edits) }
{
    if !are_taken(replies) {
        return None;
    }
    Some(Summary {
        bundles: counts.bundles,
        items: counts.items,
        first: rows_at(replies, last - 3, edits)?,
        second: rows_at(replies, last - 2, edits)?,
        third: rows_at(replies, last - 1, edits)?,
        fourth: rows_at(replies, last, edits)?,
    })
}

/// The summary of a run: of the state after all its entries, and of the replies to the last four lines, which were
/// given over that state. The only refusal is want of memory: so is a line answered that was refused, which in a run
/// of the script nothing else causes.
fn sum_up<D: Disk>(book: &Book<D>, ended: &Ended, lines: &Lines) -> Result<Summary, Memory>
    requires { (3 ≤ length lines.now) × (length lines.now < 2 ^ 31) }
    ensures { IfOk result (IsSummedUp book.now.config book.now.history ended.now.replies
        (length lines.now + 1)) }
{
    let counts = counts_in(book)?;
    let last = lines.len() as u32 + 1;
    match rows_beside(counts, ended.replies.as_slice(), last, book.number()) {
        Some(summary) => Ok(summary),
        None => Err(Memory),
    }
}

/// The summary of a run that has ended over a book without entries. The only refusal is want of memory.
fn summary_of<D: Disk>(
    book: &Book<D>,
    ended: &Result<Ended, Memory>,
    lines: &Lines,
) -> Result<Summary, Memory>
    requires { (3 ≤ length lines.now) × (length lines.now < 2 ^ 31) }
    ensures { (before : BookParts D) (number count : ℕ) → before.config ≡ work_config → before.history ≡ [] →
        EndsLive D.may_leave D.faults before lines.now ended.now book.now →
        IsScript number count lines.now → IfOk result (IsSummary number count) }
{
    match ended {
        Ok(ended) => sum_up(book, ended, lines),
        Err(_) => Err(Memory),
    }
}

/// Runs the lines over a new book without a store, and sums up what was found. The only refusal is want of memory.
fn run_over<R: Threads + Wait + Sync, D: Disk + Send, G: Gate + Sync>(
    rt: &R,
    alloc: Global,
    book: Book<D>,
    passes: Passes<Published>,
    lines: &Lines,
    gate: &G,
) -> Result<Summary, Memory>
    requires passes { AreAtFront READERS book passes }
    requires sound { KeepsIn D.may_leave book.config book.history None book.journal }
    requires config { book.config ≡ work_config }
    requires history { book.history ≡ [] }
    requires unstored { has_journal book.journal ≡ false }
    requires lines { ComeInOrder [] lines.now }
    requires few { (3 ≤ length lines.now) × (length lines.now < 2 ^ 31) }
    ensures { (number count : ℕ) → IsScript number count lines.now → IfOk result (IsSummary number count) }
{
    let LiveEnd { book, ended } = run_live(rt, alloc, book, passes, lines, WORKERS, gate);
    let summary = summary_of(&book, &ended, lines);
    match book.into_journal(rt) {
        None => summary,
        Some(_) => unreachable!(),
    }
}

/// Makes the script of a number, with so many bundles, runs its sessions at once over a new book without a store,
/// and answers the line of the summary: the numbers of bundles, of items, and of the rows of each query. The only
/// refusal is want of memory. It may wait for its own lanes and for passes that read.
///
/// There are 1 to 10,000 bundles. The gate is told of the pieces of each query, and of each line that is answered.
pub fn work<R: Threads + Wait + Sync, D: Disk + Send, P: PatternMaker, G: Gate + Sync>(
    rt: &R,
    alloc: Global,
    number: u64,
    bundles: u32,
    patterns: &mut P,
    gate: &G,
) -> Result<Text, Memory>
    requires { bundles ≤ BUNDLES }
    ensures text { IfOk result (IsWorkText number bundles) }
{
    let config = work_config(alloc)?;
    let lines = work_lines(alloc, number, bundles, patterns)?;
    let journal: Option<Journal<D>> = None;
    match new_book(rt, alloc, config, journal, READERS) {
        Ok(made) => {
            let MadeBook { book, passes } = made;
            summary_text(alloc, run_over(rt, alloc, book, passes, &lines, gate)?)
        }
        Err(refused) => {
            let NoBook {
                fault: _fault,
                journal,
            } = refused;
            match journal {
                None => Err(Memory),
                Some(_) => unreachable!(),
            }
        }
    }
}
