//! The answer to what a line or a caller asks over a version.
ghost use Rattle.std.specs.Prelude.{◌≡◌, ◌≤◌, IfOk};
ghost use Rattle.std.specs.Option.{option_copied};
ghost use Rattle.eql_resolve.specs.Resolve.{asked as asked_of};
ghost use Rattle.eql_resolve.specs.Inner.Sound.{IsResolvedBy};
ghost use Rattle.eql_match.specs.eql_model.Rows.{segment_list, any_has_too_many};
ghost use Rattle.session_core.specs.requery.Asks.{reached as reached_of};
ghost use Rattle.session_core.specs.requery.Carried.{carried_list};
ghost use Rattle.session_core.specs.requery.Inner.Sound.{IsReachedBy};
ghost use Rattle.version_tree.specs.Version.{bundles_of, state_of};
ghost use Rattle.session_core.specs.Answers.{answer_over, listed_answer, reached_answer, resolved_answer};

use crate::walk::{answer, answer_requery};
use emu_io::Gate;
use emu_names::{Memory, Text};
use eql_resolve::{AskFault, Asked, Prepared, resolve};
use session_core::requery::{Reached, Requery, resolve_requery};
use session_core::{Answer, Ask, Refusal, answer_listed, refuse_text};
use std::alloc::Global;
use std::thread::Threads;
use version_tree::Version;

/// The answer to a query whose names were found.
fn answer_asked<R: Threads + Sync, G: Gate + Sync>(
    rt: &R,
    alloc: Global,
    version: &Version,
    asked: &Asked,
    workers: u32,
    line: u32,
    gate: &G,
) -> Result<Answer, Memory>
    requires workers { (1 ≤ workers) × (workers ≤ 8) }
    requires resolved { IsResolvedBy version.now.config asked.now }
    ensures { IfOk result (λ given. given
        ≡ listed_answer (segment_list version.now.config (bundles_of version.now.bundles) asked.now)
        (any_has_too_many version.now.config (bundles_of version.now.bundles) asked.now)) }
{
    answer_listed(answer(rt, alloc, version, asked, workers, line, gate))
}

/// The answer to a query that was prepared, with the name of the level of the times where it is given.
fn answer_prepared<R: Threads + Sync, G: Gate + Sync>(
    rt: &R,
    alloc: Global,
    version: &Version,
    prepared: &Prepared,
    time: Option<&Text>,
    workers: u32,
    line: u32,
    gate: &G,
) -> Result<Answer, Memory>
    requires { (1 ≤ workers) × (workers ≤ 8) }
    ensures { IfOk result (λ given. given ≡ resolved_answer (state_of version.now)
        (asked_of version.now.config prepared.now.query (option_copied time.entry))) }
{
    match resolve(alloc, version.config(), prepared, time) {
        Ok(asked) => answer_asked(rt, alloc, version, &asked, workers, line, gate),
        Err(AskFault::Memory) => Err(Memory),
        Err(fault) => Ok(Answer::Refused(Refusal::Resolve(fault))),
    }
}

/// The answer to a query whose names were found and whose results are carried.
fn answer_reached<R: Threads + Sync, G: Gate + Sync>(
    rt: &R,
    alloc: Global,
    version: &Version,
    reached: &Reached,
    workers: u32,
    line: u32,
    gate: &G,
) -> Result<Answer, Memory>
    requires workers { (1 ≤ workers) × (workers ≤ 8) }
    requires resolved { IsReachedBy version.now.config reached.now }
    ensures { IfOk result (λ given. given
        ≡ listed_answer (carried_list version.now.config (bundles_of version.now.bundles) reached.now)
        (any_has_too_many version.now.config (bundles_of version.now.bundles) reached.now.asked)) }
{
    answer_listed(answer_requery(rt, alloc, version, reached, workers, line, gate))
}

/// The answer to a query that was prepared and whose results are carried, with the name of the level of the
/// times where it is given.
fn answer_carried<R: Threads + Sync, G: Gate + Sync>(
    rt: &R,
    alloc: Global,
    version: &Version,
    prepared: &Prepared,
    requery: &Requery,
    time: Option<&Text>,
    workers: u32,
    line: u32,
    gate: &G,
) -> Result<Answer, Memory>
    requires { (1 ≤ workers) × (workers ≤ 8) }
    ensures { IfOk result (λ given. given ≡ reached_answer (state_of version.now)
        (reached_of version.now.config prepared.now.query requery.now (option_copied time.entry))) }
{
    match resolve_requery(alloc, version.config(), prepared, requery, time) {
        Ok(reached) => answer_reached(rt, alloc, version, &reached, workers, line, gate),
        Err(AskFault::Memory) => Err(Memory),
        Err(fault) => Ok(Answer::Refused(Refusal::Resolve(fault))),
    }
}

/// The answer to a query over a version, which is that of the core over the version's database. There are 1
/// to 8 workers, and the gate is told of the pieces, with the number of the line that asks. The only failure
/// is want of memory.
pub fn answer_over<R: Threads + Sync, G: Gate + Sync>(
    rt: &R,
    alloc: Global,
    version: &Version,
    ask: &Ask,
    workers: u32,
    line: u32,
    gate: &G,
) -> Result<Answer, Memory>
    requires { (1 ≤ workers) × (workers ≤ 8) }
    ensures { IfOk result (λ given. given ≡ answer_over (state_of version.now) ask.now) }
{
    match &ask.prepared {
        Ok(prepared) => {
            let time = ask.time.as_ref();
            match &ask.requery {
                Some(requery) => answer_carried(
                    rt, alloc, version, prepared, requery, time, workers, line, gate,
                ),
                None => answer_prepared(rt, alloc, version, prepared, time, workers, line, gate),
            }
        }
        Err(fault) => Ok(refuse_text(*fault)),
    }
}
