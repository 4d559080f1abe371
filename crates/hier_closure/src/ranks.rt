//! Which levels lie between two levels, and the rank of a level: a level comes behind all those that are
//! below it.
ghost use Rattle.std.specs.Prelude.{◌≡◌, ◌<◌, length};
ghost use Rattle.hier_closure.specs.Inner.Ranks.{any_between, is_between, rank_of};

use db_config::Config;

/// How many levels are below a level.
pub(crate) fn rank_of(config: &Config, level: usize) -> usize
    requires { level < length config.now.levels }
    ensures { result ≡ rank_of config.now.links (length config.now.levels) level }
{
    let mut rank = 0;
    for lower in 0..config.level_count() {
        if config.is_above(level, lower) {
            rank += 1;
        }
    }
    rank
}

/// Whether a level is below the one of two levels and above the other.
pub(crate) fn is_between(config: &Config, upper: usize, lower: usize, level: usize) -> bool
    requires upper { upper < length config.now.levels }
    requires lower { lower < length config.now.levels }
    requires level { level < length config.now.levels }
    ensures { result ≡ is_between config.now.links upper lower level }
{
    config.is_above(upper, level) && config.is_above(level, lower)
}

/// Whether some level is below the one of two levels and above the other.
pub(crate) fn any_between(config: &Config, upper: usize, lower: usize) -> bool
    requires upper { upper < length config.now.levels }
    requires lower { lower < length config.now.levels }
    ensures { result ≡ any_between config.now.links (length config.now.levels) upper lower }
{
    for level in 0..config.level_count() {
        if is_between(config, upper, lower, level) {
            return true;
        }
    }
    false
}
