//! The names of a query, looked up in a configuration.
ghost use Rattle.std.specs.Prelude.{IfOk, IfSome};
ghost use Rattle.std.specs.Option.{option_copied};
ghost use Rattle.eql_resolve.specs.Asked.{result_level};
ghost use Rattle.eql_resolve.specs.Resolve.{timed, asked, untimed};
ghost use Rattle.eql_resolve.specs.Inner.Sound.{IsSound, IsResolvedBy, IsTimeOf};
ghost use Rattle.eql_resolve.specs.Inner.View.{Gives, query_in};

use crate::asked::{Asked, AskedQuery};
use crate::faults::AskFault;
use crate::prepared::Prepared;
use crate::queries::asked_query;
use crate::times::time_level;
use db_config::Config;
use emu_names::Text;
use std::alloc::Global;

/// A query whose names are replaced, with the level that gives its results their times.
fn timed<'a>(
    config: &Config,
    query: AskedQuery<'a>,
    time: Option<&Text>,
) -> Result<Asked<'a>, AskFault>
    requires { IsSound config.now (query_in query) }
    ensures asked { Gives (λ a. a) result
        (timed config.now (query_in query.entry) (option_copied time.entry)) }
    ensures sound { IfOk result (IsResolvedBy config.now) }
    ensures times { IfOk result
        (λ a. IfSome a.time (IsTimeOf config.now (result_level a.query))) }
{
    match time_level(config, query.result_level(), time) {
        Ok(time) => Ok(Asked::of(query, time)),
        Err(fault) => Err(fault),
    }
}

/// What a prepared query asks of a database, with the name of a level for the times where one is given.
///
/// Names are looked up from the left, the operands before their operator and the time last; the first
/// fault is the answer. `UnknownName` comes where neither an attribute nor a level has a name, `NoPath`
/// where the first level of a function is not above its second and where neither level of a dominance is
/// above the other, `MixedLevels` where the conditions of a conjunction are on two levels,
/// `SequenceLevels` where the parts of a sequence are. With a time, `BadTimeLevel` comes unless the
/// results are on an ITEM level and the time names a SEGMENT level below it; without one,
/// `AmbiguousTime` where the results are on an ITEM level with two or more SEGMENT levels below it.
#[tactic(auto, unfolding(crate::specs::Resolve::asked))]
pub fn resolve<'a>(
    alloc: Global,
    config: &Config,
    prepared: &'a Prepared,
    time: Option<&Text>,
) -> Result<Asked<'a>, AskFault>
    ensures asked { Gives (λ a. a) result
        (asked config.now prepared.now.query (option_copied time.entry)) }
    ensures sound { IfOk result (IsResolvedBy config.now) }
    ensures times { IfOk result
        (λ a. IfSome a.time (IsTimeOf config.now (result_level a.query))) }
{
    match asked_query(alloc, config, prepared.query(), prepared.patterns()) {
        Ok(query) => timed(config, query, time),
        Err(fault) => Err(fault),
    }
}

/// What a prepared query asks of a database, without a level for the times of its results: the faults are
/// those of `resolve` but for the time's.
#[tactic(auto, unfolding(crate::specs::Resolve::untimed))]
pub fn resolve_untimed<'a>(
    alloc: Global,
    config: &Config,
    prepared: &'a Prepared,
) -> Result<Asked<'a>, AskFault>
    ensures asked { Gives (λ a. a) result (untimed config.now prepared.now.query) }
    ensures sound { IfOk result (IsResolvedBy config.now) }
{
    match asked_query(alloc, config, prepared.query(), prepared.patterns()) {
        Ok(query) => Ok(Asked::of(query, None)),
        Err(fault) => Err(fault),
    }
}
