//! The tuples of a sequence and of a dominance in a bundle.
ghost use Rattle.std.specs.Prelude.{◌≡◌, ◌<◌, length, IfOk};
ghost use Rattle.bundle_state.specs.Built.{FitsConfig};
ghost use Rattle.hier_closure.specs.Dominance.{ids_at};
ghost use Rattle.eql_tuples.specs.Inner.Sets.{GivesSet};
ghost use Rattle.eql_tuples.specs.Tuples.{both, follows, joined, left_with};
ghost use Rattle.eql_model.specs.Covers.{one_covers};
ghost use Rattle.eql_model.specs.Inner.Joins.{both_ways};
ghost use Rattle.eql_model.specs.Meaning.{LieOn};

use crate::joins::{Join, joined};
use bundle_state::Bundle;
use db_config::Config;
use emu_names::Memory;
use eql_tuples::{MatchFault, Tuple, Tuples};
use hier_closure::Closure;
use std::alloc::Global;

/// The set of the stretches of each two tuples that follow each other. `TooManyTuples` comes exactly
/// where it has over 1,000,000 tuples.
pub(crate) fn sequence(
    alloc: Global,
    lefts: &[Tuple],
    rights: &[Tuple],
) -> Result<Tuples, MatchFault>
    ensures { GivesSet result (joined follows both lefts.now rights.now) }
{
    joined(alloc, &Join::Sequence, lefts, rights)
}

/// Which items of each of two levels dominate which of the other. The only refusal is want of memory.
fn dominance_of(
    alloc: Global,
    config: &Config,
    bundle: &Bundle,
    levels: (usize, usize),
) -> Result<Join, Memory>
    requires fits { FitsConfig config.now bundle.now }
    requires left { levels.0 < length bundle.now.levels }
    requires right { levels.1 < length bundle.now.levels }
    ensures { IfOk result (λ made. made ≡ both_ways bundle.now levels.0 levels.1) }
{
    let (left, right) = levels;
    let down = Closure::between(alloc, config, bundle, left, right)?;
    let up = Closure::between(alloc, config, bundle, right, left)?;
    Ok(Join::Dominance { down, up })
}

/// The set of the left one of each two tuples of which one covers the other, with the mark of either.
/// The tuples lie on these two levels. `TooManyTuples` comes exactly where the set has over 1,000,000
/// tuples.
pub(crate) fn covered(
    alloc: Global,
    config: &Config,
    bundle: &Bundle,
    levels: (usize, usize),
    lefts: &[Tuple],
    rights: &[Tuple],
) -> Result<Tuples, MatchFault>
    requires fits { FitsConfig config.now bundle.now }
    requires left { levels.0 < length bundle.now.levels }
    requires right { levels.1 < length bundle.now.levels }
    requires lefts { LieOn bundle.now.levels levels.0 lefts.now }
    requires rights { LieOn bundle.now.levels levels.1 rights.now }
    ensures { GivesSet result (joined (one_covers bundle.now.links (ids_at bundle.now.levels levels.0)
        (ids_at bundle.now.levels levels.1)) left_with lefts.now rights.now) }
{
    let join = match dominance_of(alloc, config, bundle, levels) {
        Ok(join) => join,
        Err(_) => return Err(MatchFault::Memory),
    };
    joined(alloc, &join, lefts, rights)
}
