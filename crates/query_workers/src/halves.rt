//! The rows that are asked for in a run of bundles of a version, by several threads.
ghost use Rattle.std.specs.Prelude.{◌≡◌, ◌≤◌, ◌<◌, ◌+◌, ◌++◌, ◌||◌, Bool, List, length};
ghost use Rattle.std.specs.Thread.{IsSync};
ghost use Rattle.emu_names.specs.declared.limits.TheConstants.{BUNDLES};
ghost use Rattle.eql_match.specs.eql_rows.declared.row.Row.{Row};
ghost use Rattle.eql_match.specs.eql_model.Inner.Rows.{GivesRows};
ghost use Rattle.query_workers.specs.Inner.Questions.{IsAskedOf};
ghost use Rattle.query_workers.specs.Inner.Runs.{GivesRun, IsRun, refusal};

use crate::question::Question;
use crate::walk::walk_with_text;
use emu_io::Gate;
use eql_match::eql_tuples::MatchFault;
use session_core::segment_list::Listing;
use std::alloc::Global;
use std::thread::{Threads, join};
use version_tree::Version;

/// The most workers that a query may have.
const WORKERS: usize = 8;

/// The fewest bundles that pay for a thread of their own.
const PART: usize = 32;

/// How many runs so many bundles are cut into for so many workers: two, which are matched side by side in any case,
/// and more where each of them has [`PART`] bundles at least.
pub(crate) fn runs_for(workers: usize, bundles: usize) -> usize
    ensures { result ≤ workers }
{
    workers.min((bundles / PART).max(2))
}

/// The place that cuts the places from one to before another, so that the first part has as large a share of
/// them as `near` is of all workers.
fn middle(from: usize, to: usize, near: usize, workers: usize) -> usize
    requires order { from ≤ to }
    requires within { to ≤ BUNDLES }
    requires some { 0 < workers }
    requires share { near ≤ workers }
    requires few { workers ≤ WORKERS }
    ensures low { from ≤ result }
    ensures high { result ≤ to }
{
    from + (to - from) * near / workers
}

/// The refusal of two runs of which the first one found no memory: too many tuples, where the second one has
/// them.
fn fault_beside(right: &Result<Listing, MatchFault>) -> MatchFault
    ensures { (more : List Row) (many : Bool) → GivesRows right.now more many
        → (rows : List Row) (other : Bool)
        → GivesRows (refusal result) rows (other || many) }
{
    match right {
        Err(MatchFault::TooManyTuples) => MatchFault::TooManyTuples,
        _ => MatchFault::Memory,
    }
}

/// The rows of a second run, behind those of the first one.
fn behind(list: Listing, right: Result<Listing, MatchFault>) -> Result<Listing, MatchFault>
    ensures { (more : List Row) (many : Bool) → GivesRows right more many
        → GivesRows result (list ++ more) many }
{
    match right {
        Err(fault) => Err(fault),
        Ok(more) => match list.append(more) {
            Ok(whole) => Ok(whole),
            Err(_) => Err(MatchFault::Memory),
        },
    }
}

/// The rows of two runs, one behind the other. Where either has too many tuples, that is answered.
fn both(
    left: Result<Listing, MatchFault>,
    right: Result<Listing, MatchFault>,
) -> Result<Listing, MatchFault>
    ensures { (rows more : List Row) (some many : Bool)
        → GivesRows left rows some → GivesRows right more many
        → GivesRows result (rows ++ more) (some || many) }
{
    match left {
        Ok(list) => behind(list, right),
        Err(MatchFault::TooManyTuples) => Err(MatchFault::TooManyTuples),
        Err(MatchFault::Memory) => Err(fault_beside(&right)),
    }
}

/// The rows that are asked for in the bundles of a version from one place to before another, in their order.
/// `TooManyTuples` comes exactly where some of these bundles has too many. The only other refusal is want of
/// memory.
///
/// There are 1 to 8 workers: the places are cut in two, and each part is matched by its share of the workers,
/// the one beside the other, which also makes the rows and their text. A part of one worker, or of one bundle,
/// is gone through by one thread. Where no thread can be made the caller does that work.
#[cycle(cut)]
pub(crate) fn halves<R: Threads + Sync, G: Gate + Sync>(
    rt: &R,
    alloc: Global,
    version: &Version,
    question: &Question,
    line: u32,
    gate: &G,
    workers: usize,
    from: usize,
    to: usize,
) -> Result<Listing, MatchFault>
    requires asked { IsAskedOf version.now.config question.now }
    requires run { IsRun version.now from to }
    requires few { workers ≤ WORKERS }
    ensures { GivesRun result question.now version.now from to }
{
    let workers = workers.min(to - from);
    if workers <= 1 {
        return walk_with_text(alloc, version, question, line, gate, from, to);
    }
    let near = workers / 2;
    let far = workers - near;
    let cut = middle(from, to, near, workers);
    let left = move || -> Result<Listing, MatchFault>
        requires { IsSync R.row × IsSync G.row × IsAskedOf version.now.config question.now
            × IsRun version.now from cut × (near ≤ WORKERS) }
        ensures { GivesRun result question.entry.now version.entry.now from cut }
    { halves(rt, alloc, version, question, line, gate, near, from, cut) };
    let right = move || -> Result<Listing, MatchFault>
        requires { IsSync R.row × IsSync G.row × IsAskedOf version.now.config question.now
            × IsRun version.now cut to × (far ≤ WORKERS) }
        ensures { GivesRun result question.entry.now version.entry.now cut to }
    { halves(rt, alloc, version, question, line, gate, far, cut, to) };
    let (first, second) = join(rt, left, right);
    both(first, second)
}
