//! The name of a requery, looked up in a configuration.
ghost use Rattle.std.specs.Prelude.{◌≡◌, ◌<◌, length, IfOk};
ghost use Rattle.std.specs.Option.{option_copied};
ghost use Rattle.eql_resolve.specs.Asked.{result_level};
ghost use Rattle.eql_resolve.specs.Inner.Sound.{IsResolvedBy};
ghost use Rattle.eql_resolve.specs.Inner.View.{Gives};
ghost use Rattle.requery.specs.Asks.{aimed, are_related, level_target, reached, target_of};
ghost use Rattle.requery.specs.Inner.Sound.{IsReachedBy, IsTargetIn};

use crate::reached::Reached;
use crate::target::{Requery, Shift, Target};
use db_config::Config;
use emu_names::Text;
use eql_resolve::{AskFault, Asked, Prepared, are_joined, named, resolve_untimed, time_level};
use std::alloc::Global;

/// Whether two levels are the same, or one of them is above the other.
fn are_related(config: &Config, level: usize, other: usize) -> bool
    requires level { level < length config.now.levels }
    requires other { other < length config.now.levels }
    ensures { result ≡ are_related config.now level other }
{
    level == other || are_joined(config, level, other)
}

/// The level or attribute of a name, which has to be related to the level of the results.
fn level_target(
    alloc: Global,
    config: &Config,
    level: usize,
    name: &Text,
) -> Result<Target, AskFault>
    requires { level < length config.now.levels }
    ensures target { Gives (λ t. t) result (level_target config.now level name.now) }
    ensures there { IfOk result (IsTargetIn config.now) }
{
    let place = named(alloc, config, name)?;
    if are_related(config, level, place.level) {
        Ok(Target::Level(place))
    } else {
        Err(AskFault::NoPath)
    }
}

/// The target of a requery of results on a level.
fn target_of(
    alloc: Global,
    config: &Config,
    level: usize,
    requery: &Requery,
) -> Result<Target, AskFault>
    requires { level < length config.now.levels }
    ensures target { Gives (λ t. t) result (target_of config.now level requery.now) }
    ensures there { IfOk result (IsTargetIn config.now) }
{
    match requery {
        Requery::Level(name) => level_target(alloc, config, level, name),
        Requery::Along {
            from_end,
            right,
            left,
            length,
        } => Ok(Target::Along(Shift {
            from_end: *from_end,
            right: *right,
            left: *left,
            length: *length,
        })),
    }
}

/// A query with the target of its results, and with the level of the times of what is reached.
fn aimed<'a>(
    config: &Config,
    asked: Asked<'a>,
    target: Target,
    time: Option<&Text>,
) -> Result<Reached<'a>, AskFault>
    requires asked { IsResolvedBy config.now asked }
    requires target { IsTargetIn config.now target }
    ensures aimed { Gives (λ r. r) result
        (aimed config.now asked.entry target (option_copied time.entry)) }
    ensures sound { IfOk result (IsReachedBy config.now) }
{
    let level = target.level_from(asked.query().result_level());
    match time_level(config, level, time) {
        Ok(time) => Ok(Reached::of(asked.with_time(time), target)),
        Err(fault) => Err(fault),
    }
}

/// What a prepared query asks of a database whose results are carried, with the name of a level for the times
/// of what they reach where one is given.
///
/// The faults are, in this order, those of `resolve` but for the time's; of the name of the requery
/// `UnknownName`, then `NoPath` where its level is not that of the results and neither is above the other;
/// and the time's, `BadTimeLevel` and `AmbiguousTime`, for the level that is reached.
#[tactic(auto, unfolding(crate::specs::Asks::reached))]
pub fn resolve_requery<'a>(
    alloc: Global,
    config: &Config,
    prepared: &'a Prepared,
    requery: &Requery,
    time: Option<&Text>,
) -> Result<Reached<'a>, AskFault>
    ensures reached { Gives (λ r. r) result
        (reached config.now prepared.now.query requery.now (option_copied time.entry)) }
    ensures sound { IfOk result (IsReachedBy config.now) }
{
    let asked = match resolve_untimed(alloc, config, prepared) {
        Ok(asked) => asked,
        Err(fault) => return Err(fault),
    };
    match target_of(alloc, config, asked.query().result_level(), requery) {
        Ok(target) => aimed(config, asked, target, time),
        Err(fault) => Err(fault),
    }
}
