//! The rows that are asked for in each bundle of a version, bundle by bundle.
ghost use Rattle.std.specs.Prelude.{◌≤◌};
ghost use Rattle.eql_resolve.specs.Inner.Sound.{IsResolvedBy};
ghost use Rattle.eql_match.specs.eql_model.Inner.Rows.{ListsRows};
ghost use Rattle.session_core.specs.requery.Inner.Answers.{ListsCarried};
ghost use Rattle.session_core.specs.requery.Inner.Sound.{IsReachedBy};
ghost use Rattle.version_tree.specs.Version.{bundles_of};
ghost use Rattle.query_workers.specs.Inner.Questions.{IsAskedOf};
ghost use Rattle.query_workers.specs.Inner.Runs.{GivesRun, GivesOver, IsRun};

use crate::ahead::Ahead;
use crate::halves::{halves, runs_for};
use crate::question::Question;
use emu_io::{Gate, Moment};
use eql_match::eql_columns::Matchers;
use eql_match::eql_tuples::MatchFault;
use eql_resolve::Asked;
use session_core::requery::Reached;
use session_core::segment_list::{Listing, ListingBuilder, finished};
use std::alloc::Global;
use std::thread::Threads;
use version_tree::Version;

/// The rows that are asked for in the bundles of a version from one place to before another, in their order.
/// `TooManyTuples` comes exactly where some of these bundles has too many. The only other refusal is want of
/// memory.
///
/// Before each bundle the gate is told that the line, counted from 1, is at the piece of the bundle's place
/// in the version.
fn walk<G: Gate + Sync>(
    alloc: Global,
    version: &Version,
    question: &Question,
    line: u32,
    gate: &G,
    from: usize,
    to: usize,
) -> Result<ListingBuilder, MatchFault>
    requires asked { IsAskedOf version.now.config question.now }
    requires run { IsRun version.now from to }
    ensures { GivesRun result question.now version.now from to }
{
    let config = version.config();
    let mut list = ListingBuilder::new(alloc);
    let mut matchers = Matchers::new(alloc);
    let first = question.first_place();
    let mut ahead = Ahead::new(alloc);
    for place in from..to {
        ahead.look(version, first, place, to);
        gate.at(line, Moment::Piece(place as u32));
        let indexed = version.at(place);
        match question.add_rows(alloc, config, indexed, &mut matchers, &mut list) {
            Ok(()) => {}
            Err(fault) => {
                drop(list);
                drop(matchers);
                return Err(fault);
            }
        }
    }
    drop(matchers);
    Ok(list)
}

/// The same rows as their text, which the thread makes that goes through the bundles.
pub(crate) fn walk_with_text<G: Gate + Sync>(
    alloc: Global,
    version: &Version,
    question: &Question,
    line: u32,
    gate: &G,
    from: usize,
    to: usize,
) -> Result<Listing, MatchFault>
    requires asked { IsAskedOf version.now.config question.now }
    requires run { IsRun version.now from to }
    ensures { GivesRun result question.now version.now from to }
{
    finished(alloc, walk(alloc, version, question, line, gate, from, to))
}

/// The rows that are asked for over a version, one bundle after another in the order of their keys.
fn walk_all<R: Threads + Sync, G: Gate + Sync>(
    rt: &R,
    alloc: Global,
    version: &Version,
    question: &Question,
    workers: u32,
    line: u32,
    gate: &G,
) -> Result<Listing, MatchFault>
    requires workers { (1 ≤ workers) × (workers ≤ 8) }
    requires asked { IsAskedOf version.now.config question.now }
    ensures { GivesOver result question.now version.now (bundles_of version.now.bundles) }
{
    let count = version.len();
    let runs = runs_for(workers as usize, count);
    halves(rt, alloc, version, question, line, gate, runs, 0, count)
}

/// The segment list of a query over a version: the rows of one bundle after another in the order of their
/// keys (EMU-SDMS Manual, "The EMU Query Language (EQL)": segment lists). `TooManyTuples` comes exactly
/// where some part of the query has over 1,000,000 tuples in some bundle. The only other refusal is want of
/// memory.
///
/// Before each bundle the gate is told that the line, counted from 1, is at the piece of the bundle's place
/// in the version, by the thread that matches the bundle. The query was resolved by the version's
/// configuration. There are 1 to 8 workers, which match the bundles beside one another, and the list is the
/// same for every number of them. A version of few bundles is cut into fewer runs than there are workers. Where no
/// thread can be made the calling thread does the work.
pub fn answer<R: Threads + Sync, G: Gate + Sync>(
    rt: &R,
    alloc: Global,
    version: &Version,
    asked: &Asked,
    workers: u32,
    line: u32,
    gate: &G,
) -> Result<Listing, MatchFault>
    requires workers { (1 ≤ workers) × (workers ≤ 8) }
    requires resolved { IsResolvedBy version.now.config asked.now }
    ensures { ListsRows result version.now.config (bundles_of version.now.bundles) asked.now }
{
    walk_all(
        rt,
        alloc,
        version,
        &Question::Rows(asked),
        workers,
        line,
        gate,
    )
}

/// The segment list of a query over a version whose results are carried: the rows of what the results reach,
/// in their order, one bundle after another in the order of their keys (EMU-SDMS Manual, "The EMU Query
/// Language (EQL)": `requery_hier`, `requery_seq`). All else is as `answer` says it.
pub fn answer_requery<R: Threads + Sync, G: Gate + Sync>(
    rt: &R,
    alloc: Global,
    version: &Version,
    reached: &Reached,
    workers: u32,
    line: u32,
    gate: &G,
) -> Result<Listing, MatchFault>
    requires workers { (1 ≤ workers) × (workers ≤ 8) }
    requires resolved { IsReachedBy version.now.config reached.now }
    ensures { ListsCarried result version.now.config (bundles_of version.now.bundles) reached.now }
{
    walk_all(
        rt,
        alloc,
        version,
        &Question::Carried(reached),
        workers,
        line,
        gate,
    )
}
