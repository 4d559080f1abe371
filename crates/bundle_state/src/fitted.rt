//! The levels of a bundle under a configuration that has more of them, or more attributes.
ghost use Rattle.std.specs.Prelude.{◌≡◌, ◌≤◌, IfOk, IfSome, option_copied};
ghost use Rattle.level_items.specs.Levels.{widened};
ghost use Rattle.bundle_state.specs.Fitted.{fitted_level, fitted_levels, CanFitLevel, CanFitLevels};

use db_config::LevelDef;
use emu_names::{Memory, PlainData};
use level_items::{Handle, LevelList, SharedLevels};
use std::alloc::Global;

/// One level for each definition. Levels to which nothing is added stay shared. The only refusal is want of memory.
#[tactic(auto, using(crate::proofs::FittedKept::fitted_next, crate::proofs::FittedKept::can_fit_next, crate::proofs::FittedKept::fitted_whole))]
pub(crate) fn fitted_levels(
    alloc: Global,
    defs: &[LevelDef],
    levels: &[Handle<LevelList>],
) -> Result<SharedLevels, Memory>
    requires { CanFitLevels defs.now levels.now }
    ensures { IfOk result (λ made. made ≡ fitted_levels defs.now levels.now) }
{
    let mut made = SharedLevels::new(alloc);
    for number in 0..defs.len() {
        let level = fitted_level(alloc, &defs[number], levels.get(number))?;
        made.push(level)?;
    }
    Ok(made)
}

/// The level of a definition, or an empty one where there is none. The only refusal is want of memory.
fn fitted_level(
    alloc: Global,
    def: &LevelDef,
    level: Option<&Handle<LevelList>>,
) -> Result<Handle<LevelList>, Memory>
    requires { IfSome (option_copied level) (CanFitLevel def.now) }
    ensures { IfOk result (λ made. made ≡ fitted_level def.now (option_copied level.entry)) }
{
    match level {
        Some(level) => wider_level(alloc, level, def.attributes.len()),
        None => Handle::new(
            alloc,
            LevelList::new(alloc, def.kind, def.attributes.len())?,
        ),
    }
}

/// A level with so many attributes, which is shared where it has them already. The only refusal is want of memory.
#[tactic(auto, using(level_items::proofs::Wider::widened_same))]
fn wider_level(
    alloc: Global,
    level: &Handle<LevelList>,
    attributes: usize,
) -> Result<Handle<LevelList>, Memory>
    requires { level.now.attributes ≤ attributes }
    ensures { IfOk result (λ made. made ≡ widened attributes level.now) }
{
    let list = level.as_ref();
    let _count = list.len();
    if list.attributes() == attributes {
        return level.copy(alloc);
    }
    Handle::new(alloc, list.widened(alloc, attributes)?)
}
