//! What takes an act back.
ghost use Rattle.std.specs.Prelude.{◌≡◌, IfOk, IfSome, Ok, option_copied};
ghost use Rattle.bundle_state.specs.Built.{FitsConfig};
ghost use Rattle.version_steps.specs.edit_rules.declared.acts.Act.TheVariants as Act;
ghost use Rattle.version_steps.specs.edit_rules.Database.{DatabaseParts, KeepsDatabaseRules, bundle_with};
ghost use Rattle.version_steps.specs.edit_rules.Effects.{effect};
ghost use Rattle.version_steps.specs.edit_rules.Inner.Acts.{AreTogether};
ghost use Rattle.edit_undo.specs.Inverse.{bundle_for, inverse_at};
ghost use Rattle.version_steps.specs.version_tree.Version.{state_of};
ghost use Rattle.live_book.specs.Inner.Inverses.{IsTogether};

use bundle_state::Bundle;
use edit_undo::{InverseFault, NoUndo, inverse};
use emu_names::{BundleKey, Memory};
use std::alloc::Global;
use version_steps::edit_rules::{Act, Edits};
use version_steps::version_tree::Version;

/// The bundle of a key.
fn bundle_of<'a>(version: &'a Version, key: &BundleKey) -> Option<&'a Bundle>
    ensures bundle { option_copied result ≡ bundle_with key.now (state_of version.now).bundles }
    ensures fits { IfSome (option_copied result) (λ b. FitsConfig version.now.config b) }
{
    match version.get(key) {
        Some(indexed) => Some(indexed.bundle()),
        None => None,
    }
}

/// The bundle of the key of some edits, where a version has it.
#[tactic(auto, using(crate::proofs::Inverses::first_key))]
fn bundle_for_edits<'a>(version: &'a Version, edits: &Edits) -> Option<&'a Bundle>
    ensures bundle { option_copied result ≡ bundle_for (Act.Edits edits.now) (state_of version.now).bundles }
    ensures fits { IfSome (option_copied result) (λ b. FitsConfig version.now.config b) }
    ensures together { AreTogether edits.now }
{
    let _count = edits.len();
    bundle_of(version, edits.get(0).key())
}

/// The bundle of the key of an act, where a version has it. Whoever asks may rely on the rule of lists.
fn bundle_for<'a>(version: &'a Version, act: &Act) -> Option<&'a Bundle>
    ensures bundle { option_copied result ≡ bundle_for act.now (state_of version.now).bundles }
    ensures fits { IfSome (option_copied result) (λ b. FitsConfig version.now.config b) }
    ensures together { IsTogether act.now }
{
    match act {
        Act::Edits(edits) => bundle_for_edits(version, edits),
        Act::Config(_) => None,
    }
}

/// What takes back an act that breaks no rule over a version, or why nothing does. The only refusal is want of memory.
pub(crate) fn inverse_over(
    alloc: Global,
    version: &Version,
    act: &Act,
) -> Result<Result<Act, NoUndo>, Memory>
    requires keeps { KeepsDatabaseRules (state_of version.now) }
    requires breaks_none { (next : DatabaseParts) × (effect (state_of version.now) act.now ≡ Ok next) }
    ensures { IfOk result (λ inverse. inverse ≡ inverse_at (state_of version.now) act.now) }
{
    let old = bundle_for(version, act);
    match inverse(alloc, version.config(), old, act) {
        Ok(back) => Ok(Ok(back)),
        Err(InverseFault::NoUndo(why)) => Ok(Err(why)),
        Err(InverseFault::Memory) => Err(Memory),
    }
}
