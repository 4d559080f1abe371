//! The answer to a query over a store.
ghost use Rattle.std.specs.Prelude.{◌≡◌, ◌≤◌, IfOk};
ghost use Rattle.std.specs.Option.{option_copied};
ghost use Rattle.reply_texts.specs.session_core.Answers.{answer_over};
ghost use Rattle.query_workers.specs.version_tree.Version.{state_of};
ghost use Rattle.store_texts.specs.Asked.{asked_text};
ghost use Rattle.store_texts.specs.Inner.Asked.{TellsAsked};
ghost use Rattle.store_texts.specs.Commands.{Tells};

use crate::faults::{CommandFault, Refused};
use crate::segments::segments_line;
use emu_io::Gate;
use emu_names::{Memory, Text};
use eql_resolve::made_of;
use label_match::PatternMaker;
use query_workers::answer_over;
use query_workers::version_tree::Version;
use reply_texts::session_core::{Answer, Ask};
use std::alloc::Global;
use std::thread::Threads;

/// The number that the gate is told in the place of a line's, since no line asks the query.
const NO_LINE: u32 = 0;

/// The name of the level of the times, where one is given. The only refusal is want of memory.
fn time_name(alloc: Global, time: Option<&str>) -> Result<Option<Text>, Memory>
    ensures { IfOk result (λ name. name ≡ option_copied time.entry) }
{
    match time {
        Some(name) => Ok(Some(Text::new(alloc, name)?)),
        None => Ok(None),
    }
}

/// An answer as a text of its own line, with the number of edits of the state that it is over.
fn told(alloc: Global, number: u64, answer: Answer) -> Result<Text, CommandFault>
    ensures { Tells result (asked_text number answer) }
{
    match answer {
        Answer::Segments(rows) => Ok(segments_line(alloc, number, &rows)?),
        Answer::Refused(refusal) => Err(CommandFault::Refused(Refused::Request(refusal))),
        Answer::Done(_) => Ok(Text::new(alloc, "")?),
    }
}

/// The answer to what was made of a query's text.
fn made_text<R: Threads + Sync, G: Gate + Sync>(
    rt: &R,
    alloc: Global,
    version: &Version,
    ask: &Ask,
    workers: u32,
    gate: &G,
) -> Result<Text, CommandFault>
    requires workers { (1 ≤ workers) × (workers ≤ 8) }
    ensures { Tells result (asked_text version.now.number (answer_over (state_of version.now) ask.now)) }
{
    match answer_over(rt, alloc, version, ask, workers, NO_LINE, gate) {
        Ok(answer) => told(alloc, version.number(), answer),
        Err(_) => Err(CommandFault::Memory),
    }
}

/// The segment list of a query over a version, on a line of its own with the version's number of edits.
/// Refused is what the core refuses: the fault of the text or of its patterns, the fault of its names and
/// levels under the configuration, and `TooManyTuples`. The only other failure is want of memory.
///
/// `time` is the name of the level of the times, where one is given. There are 1 to 8 workers. The gate is
/// told line 0 before each bundle.
#[tactic(auto, using(crate::proofs::Asks::tells_asked))]
pub fn ask_text<R: Threads + Sync, P: PatternMaker, G: Gate + Sync>(
    rt: &R,
    alloc: Global,
    version: &Version,
    patterns: &mut P,
    eql: &str,
    time: Option<&str>,
    workers: u32,
    gate: &G,
) -> Result<Text, CommandFault>
    requires workers { (1 ≤ workers) × (workers ≤ 8) }
    ensures { TellsAsked result eql.now (option_copied time.entry) version.now
        (P.refusals patterns.old) (P.refusals patterns.new) }
{
    let Ok(time) = time_name(alloc, time) else {
        return Err(CommandFault::Memory);
    };
    let Ok(prepared) = made_of(alloc, patterns, eql) else {
        return Err(CommandFault::Memory);
    };
    let ask = Ask {
        prepared,
        time,
        requery: None,
    };
    made_text(rt, alloc, version, &ask, workers, gate)
}
