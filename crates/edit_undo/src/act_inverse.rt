//! The act that takes an act back.
ghost use Rattle.std.specs.Prelude.{IfSome, option_copied};
ghost use Rattle.bundle_state.specs.Built.{FitsConfig};
ghost use Rattle.edit_undo.specs.Inverse.{inverse_of};
ghost use Rattle.edit_undo.specs.Before.{IsBefore};
ghost use Rattle.edit_undo.specs.Inner.Answers.{GivesInverse};

use crate::faults::{InverseFault, NoUndo};
use crate::turns::{as_act, reversed_inverse};
use bundle_state::Bundle;
use db_config::Config;
use edit_rules::Act;
use std::alloc::Global;

/// The act that takes an act back which breaks no rule: of the configuration `config` and the bundle of the act's
/// key before it, which may be missing. There is none for an edit of the configuration (`NoInverse`), and where it
/// would have over 65,536 edits (`TooManyEdits`).
pub fn inverse(
    alloc: Global,
    config: &Config,
    old: Option<&Bundle>,
    act: &Act,
) -> Result<Act, InverseFault>
    requires fits { IfSome (option_copied old) (λ b. FitsConfig config.now b) }
    requires before { IsBefore config.now (option_copied old) act.now }
    ensures { GivesInverse result (inverse_of config.now (option_copied old.entry) act.now) }
{
    match act {
        Act::Edits(edits) => {
            let made = reversed_inverse(alloc, config, old, edits)?;
            Ok(as_act(alloc, made)?)
        }
        Act::Config(_) => Err(InverseFault::NoUndo(NoUndo::NoInverse)),
    }
}
