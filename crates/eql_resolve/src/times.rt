//! The level that gives results their times.
ghost use Rattle.std.specs.Prelude.{◌≡◌, ◌<◌, length, IfOk, IfSome};
ghost use Rattle.std.specs.Option.{option_copied};
ghost use Rattle.eql_resolve.specs.Resolve.{is_item_level, is_segment_level, gives_times, segments_below, one_alone, time_named, time_level};
ghost use Rattle.eql_resolve.specs.Inner.Sound.{IsTimeOf};
ghost use Rattle.eql_resolve.specs.Inner.View.{Gives};

use crate::faults::AskFault;
use db_config::Config;
use emu_names::{LevelKind, Text};

/// Whether a level is an ITEM level.
fn is_item_level(config: &Config, level: usize) -> bool
    requires { level < length config.now.levels }
    ensures { result ≡ is_item_level config.now level }
{
    match config.kind(level) {
        LevelKind::Item => true,
        LevelKind::Segment | LevelKind::Event => false,
    }
}

/// Whether a level is a SEGMENT level.
fn is_segment_level(config: &Config, level: usize) -> bool
    requires { level < length config.now.levels }
    ensures { result ≡ is_segment_level config.now level }
{
    match config.kind(level) {
        LevelKind::Segment => true,
        LevelKind::Item | LevelKind::Event => false,
    }
}

/// Whether the one level is a SEGMENT level below the other.
fn gives_times(config: &Config, upper: usize, level: usize) -> bool
    requires upper { upper < length config.now.levels }
    requires level { level < length config.now.levels }
    ensures { result ≡ gives_times config.now upper level }
{
    is_segment_level(config, level) && config.is_above(upper, level)
}

/// The one SEGMENT level below a level, where there is one.
fn segment_below(config: &Config, level: usize) -> Result<Option<usize>, AskFault>
    requires { level < length config.now.levels }
    ensures { Gives (λ t. t) result (one_alone (segments_below config.now level)) }
{
    let mut found = None;
    for other in 0..config.level_count() {
        if gives_times(config, level, other) {
            if found.is_some() {
                return Err(AskFault::AmbiguousTime);
            }
            found = Some(other);
        }
    }
    Ok(found)
}

/// The level of this name, for the times of results on a level.
fn time_named(config: &Config, level: usize, name: &Text) -> Result<Option<usize>, AskFault>
    requires { level < length config.now.levels }
    ensures { Gives (λ t. t) result (time_named config.now level name.now) }
{
    match config.level_named(name.as_str()) {
        Some(time) if is_item_level(config, level) && gives_times(config, level, time) => {
            Ok(Some(time))
        }
        _ => Err(AskFault::BadTimeLevel),
    }
}

/// The level that gives results on a level their times, where they have them from another level. With a
/// name, `BadTimeLevel` comes unless the level is an ITEM level and the name that of a SEGMENT level below
/// it; without one, `AmbiguousTime` where it is an ITEM level with two or more SEGMENT levels below it.
#[tactic(auto, using(crate::proofs::TimeLevel::time_below))]
pub fn time_level(
    config: &Config,
    level: usize,
    time: Option<&Text>,
) -> Result<Option<usize>, AskFault>
    requires { level < length config.now.levels }
    ensures found { Gives (λ t. t) result (time_level config.now level (option_copied time.entry)) }
    ensures below { IfOk result (λ t. IfSome t (IsTimeOf config.now level)) }
{
    match time {
        Some(name) => time_named(config, level, name),
        None if is_item_level(config, level) => segment_below(config, level),
        None => Ok(None),
    }
}
