//! The answer to a query over a database, one bundle after another.
ghost use Rattle.std.specs.Prelude.{◌≡◌, IfOk};
ghost use Rattle.std.specs.Option.{option_copied};
ghost use Rattle.bundle_state.specs.Built.{FitsConfig};
ghost use Rattle.eql_resolve.specs.Resolve.{asked as asked_of};
ghost use Rattle.eql_resolve.specs.Inner.Sound.{IsResolvedBy};
ghost use Rattle.requery.specs.eql_model.Meaning.{has_too_many};
ghost use Rattle.requery.specs.eql_model.Rows.{rows, segment_list, any_has_too_many};
ghost use Rattle.requery.specs.eql_model.Inner.Rows.{AddsRows, ListsRows};
ghost use Rattle.requery.specs.Asks.{reached as reached_of};
ghost use Rattle.requery.specs.Carried.{carried_list, carried_rows};
ghost use Rattle.requery.specs.Inner.Answers.{ListsCarried};
ghost use Rattle.requery.specs.Inner.Sound.{IsReachedBy};
ghost use Rattle.session_core.specs.Answers.{answer_over, listed_answer, reached_answer, resolved_answer};

use bundle_state::Bundle;
use db_config::Config;
use edit_undo::edit_rules::Database;
use emu_names::{Memory, Text};
use eql_resolve::{AskFault, Asked, Prepared, resolve};
use requery::eql_model::answer_plain;
use requery::eql_rows::SegmentList;
use requery::eql_tuples::MatchFault;
use requery::{Reached, Requery, requery_plain, resolve_requery};
use segment_list::with_text;
use session_core::{Answer, Ask, Refusal, answer_listed, refuse_text};
use std::alloc::Global;

/// Puts the rows of a query in one bundle behind those of the bundles before it. `TooManyTuples` comes
/// exactly where the bundle has too many.
fn add_bundle(
    alloc: Global,
    list: &mut SegmentList,
    config: &Config,
    bundle: &Bundle,
    asked: &Asked,
) -> Result<(), MatchFault>
    requires resolved { IsResolvedBy config.now asked.now }
    requires fits { FitsConfig config.now bundle.now }
    ensures { AddsRows result (rows config.now bundle.now asked.now)
        (has_too_many config.now bundle.now asked.now.query) list.old list.new }
{
    match answer_plain(alloc, config, bundle, asked) {
        Ok(more) => match list.append(more) {
            Ok(()) => Ok(()),
            Err(_) => Err(MatchFault::Memory),
        },
        Err(fault) => Err(fault),
    }
}

/// The rows of a query in all bundles, one bundle after another in the order of their keys.
/// `TooManyTuples` comes exactly where some bundle has too many. The only other refusal is want of memory.
fn list_rows(alloc: Global, database: &Database, asked: &Asked) -> Result<SegmentList, MatchFault>
    requires { IsResolvedBy database.now.config asked.now }
    ensures { ListsRows result database.now.config database.now.bundles asked.now }
{
    let config = database.config();
    let mut list = SegmentList::new(alloc);
    for place in 0..database.len() {
        match add_bundle(alloc, &mut list, config, database.at(place), asked) {
            Ok(()) => {}
            Err(fault) => return Err(fault),
        }
    }
    Ok(list)
}

/// Puts the rows of what the results of a query reach in one bundle behind those of the bundles before it.
/// `TooManyTuples` comes exactly where the bundle has too many.
fn add_carried(
    alloc: Global,
    list: &mut SegmentList,
    config: &Config,
    bundle: &Bundle,
    reached: &Reached,
) -> Result<(), MatchFault>
    requires resolved { IsReachedBy config.now reached.now }
    requires fits { FitsConfig config.now bundle.now }
    ensures { AddsRows result (carried_rows config.now bundle.now reached.now)
        (has_too_many config.now bundle.now reached.now.asked.query) list.old list.new }
{
    match requery_plain(alloc, config, bundle, reached) {
        Ok(more) => match list.append(more) {
            Ok(()) => Ok(()),
            Err(_) => Err(MatchFault::Memory),
        },
        Err(fault) => Err(fault),
    }
}

/// The rows of what the results of a query reach in all bundles, one bundle after another in the order of
/// their keys. `TooManyTuples` comes exactly where some bundle has too many. The only other refusal is want of
/// memory.
fn list_carried(
    alloc: Global,
    database: &Database,
    reached: &Reached,
) -> Result<SegmentList, MatchFault>
    requires { IsReachedBy database.now.config reached.now }
    ensures { ListsCarried result database.now.config database.now.bundles reached.now }
{
    let config = database.config();
    let mut list = SegmentList::new(alloc);
    for place in 0..database.len() {
        match add_carried(alloc, &mut list, config, database.at(place), reached) {
            Ok(()) => {}
            Err(fault) => return Err(fault),
        }
    }
    Ok(list)
}

/// The answer to a query whose names were found.
fn answer_asked(alloc: Global, database: &Database, asked: &Asked) -> Result<Answer, Memory>
    requires { IsResolvedBy database.now.config asked.now }
    ensures { IfOk result (λ given. given
        ≡ listed_answer (segment_list database.now.config database.now.bundles asked.now)
        (any_has_too_many database.now.config database.now.bundles asked.now)) }
{
    answer_listed(with_text(alloc, list_rows(alloc, database, asked)))
}

/// The answer to a query that was prepared, with the name of the level of the times where it is given.
fn answer_prepared(
    alloc: Global,
    database: &Database,
    prepared: &Prepared,
    time: Option<&Text>,
) -> Result<Answer, Memory>
    ensures { IfOk result (λ given. given ≡ resolved_answer database.now
        (asked_of database.now.config prepared.now.query (option_copied time.entry))) }
{
    match resolve(alloc, database.config(), prepared, time) {
        Ok(asked) => answer_asked(alloc, database, &asked),
        Err(AskFault::Memory) => Err(Memory),
        Err(fault) => Ok(Answer::Refused(Refusal::Resolve(fault))),
    }
}

/// The answer to a query whose names were found and whose results are carried.
fn answer_reached(alloc: Global, database: &Database, reached: &Reached) -> Result<Answer, Memory>
    requires { IsReachedBy database.now.config reached.now }
    ensures { IfOk result (λ given. given
        ≡ listed_answer (carried_list database.now.config database.now.bundles reached.now)
        (any_has_too_many database.now.config database.now.bundles reached.now.asked)) }
{
    answer_listed(with_text(alloc, list_carried(alloc, database, reached)))
}

/// The answer to a query that was prepared and whose results are carried, with the name of the level of the
/// times where it is given.
fn answer_carried(
    alloc: Global,
    database: &Database,
    prepared: &Prepared,
    requery: &Requery,
    time: Option<&Text>,
) -> Result<Answer, Memory>
    ensures { IfOk result (λ given. given ≡ reached_answer database.now
        (reached_of database.now.config prepared.now.query requery.now (option_copied time.entry))) }
{
    match resolve_requery(alloc, database.config(), prepared, requery, time) {
        Ok(reached) => answer_reached(alloc, database, &reached),
        Err(AskFault::Memory) => Err(Memory),
        Err(fault) => Ok(Answer::Refused(Refusal::Resolve(fault))),
    }
}

/// The answer to a query over a database, which is the first of these: the fault of its text or of its
/// patterns (`Prepare`); the fault of its names and levels under the configuration (`Resolve`);
/// `TooManyTuples`, exactly where some part of the query has over 1,000,000 tuples in some bundle; its
/// segment list, the rows of one bundle after another in the order of their keys, or where its results are
/// carried the rows of what they reach (EMU-SDMS Manual, "The EMU Query Language (EQL)"). A fault that is want
/// of memory is answered `Memory`. The only failure is want of memory.
pub fn answer(alloc: Global, database: &Database, ask: &Ask) -> Result<Answer, Memory>
    ensures { IfOk result (λ given. given ≡ answer_over database.now ask.now) }
{
    match &ask.prepared {
        Ok(prepared) => match &ask.requery {
            Some(requery) => {
                answer_carried(alloc, database, prepared, requery, ask.time.as_ref())
            }
            None => answer_prepared(alloc, database, prepared, ask.time.as_ref()),
        },
        Err(fault) => Ok(refuse_text(*fault)),
    }
}
