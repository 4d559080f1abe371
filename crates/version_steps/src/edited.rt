//! The version behind a list of edits of one bundle.
ghost use Rattle.std.specs.Prelude.{◌≡◌, IfOk, IfErr, IfSome, IsTrue, option_copied, Ok, Some, None};
ghost use Rattle.std.specs.List.{list_all};
ghost use Rattle.bundle_state.specs.Built.{FitsConfig};
ghost use Rattle.edit_rules.specs.Acts.{has_key};
ghost use Rattle.edit_rules.specs.Inner.Acts.{AreTogether};
ghost use Rattle.edit_rules.specs.Database.{bundle_with, KeepsDatabaseRules};
ghost use Rattle.edit_rules.specs.Effects.{in_turn};
ghost use Rattle.edit_rules.specs.Inner.Effects.{GivesOrBreach, IsFirstBreach};
ghost use Rattle.version_tree.specs.Version.{state_of};
ghost use Rattle.version_tree.specs.Inner.Version.{next_number, state_put};
ghost use Rattle.version_steps.specs.Inner.Steps.{AreTouchedBy, changed_in};

use crate::marks::touched_by;
use crate::thinning::thinned;
use bundle_index::Indexed;
use bundle_state::Bundle;
use db_config::Config;
use edit_rules::{ChangeFault, Edits, change};
use emu_names::{BundleKey, Memory};
use std::alloc::Global;
use version_tree::Version;

/// The bundle of a key.
fn bundle_of<'a>(version: &'a Version, key: &BundleKey) -> Option<&'a Bundle>
    ensures bundle { option_copied result ≡ bundle_with key.now (state_of version.now).bundles }
    ensures fits { IfSome (option_copied result) (λ b. FitsConfig version.now.config b) }
{
    match version.get(key) {
        Some(indexed) => Some(indexed.bundle()),
        None => None,
    }
}

/// What edits make of the bundle of their key.
#[tactic(auto, using(crate::proofs::StepChanges::counted_by, crate::proofs::StepChanges::change_as))]
fn change_in(
    alloc: Global,
    version: &Version,
    key: &BundleKey,
    edits: &Edits,
) -> Result<Option<Bundle>, ChangeFault>
    requires { KeepsDatabaseRules (state_of version.now) }
    ensures { GivesOrBreach result (changed_in (state_of version.now) key.now edits.now) }
{
    let old = bundle_of(version, key);
    change(alloc, version.config(), version.counts(), old, edits)
}

/// What edits made of an indexed bundle, with its columns: those of the levels that the edits touched are made
/// anew, once for all of them, and all others are shared. The only refusal is want of memory.
fn reindexed(
    alloc: Global,
    config: &Config,
    old: &Indexed,
    edits: &Edits,
    bundle: Bundle,
) -> Result<Indexed, Memory>
    requires { AreTouchedBy config.now old.now.bundle.levels edits.now bundle.levels }
    ensures { IfOk result (λ made. made.bundle ≡ bundle) }
{
    let row = touched_by(alloc, config, old.bundle(), edits.as_slice())?;
    let indexed = old.changed_on(alloc, bundle, &row)?;
    thinned(alloc, indexed, edits.as_slice())
}

/// The bundle that edits made, with its columns. The only refusal is want of memory.
fn indexed_in(
    alloc: Global,
    version: &Version,
    key: &BundleKey,
    edits: &Edits,
    bundle: Bundle,
) -> Result<Indexed, Memory>
    requires keeps { KeepsDatabaseRules (state_of version.now) }
    requires together { AreTogether edits.now }
    requires made { changed_in (state_of version.now) key.now edits.now ≡ Ok (Some bundle) }
    ensures { IfOk result (λ made. made.bundle ≡ bundle) }
{
    match version.get(key) {
        Some(old) => reindexed(alloc, version.config(), old, edits, bundle),
        None => Indexed::new(alloc, bundle),
    }
}

/// The version with a bundle that has its columns, behind which the rules are kept.
#[tactic(auto, using(crate::proofs::StepChanges::put_fits, crate::proofs::StepChanges::put_room))]
pub(crate) fn with_indexed(
    alloc: Global,
    version: &Version,
    indexed: Indexed,
) -> Result<Version, Memory>
    requires { KeepsDatabaseRules
        (state_put indexed.bundle.key (Some indexed.bundle) version.now) }
    ensures state { IfOk result (λ next. state_of next
        ≡ state_put indexed.bundle.key (Some indexed.bundle) version.now) }
    ensures number { IfOk result (λ next. next.number ≡ next_number version.now.number) }
{
    let next = version.with(alloc, indexed)?;
    Ok(next)
}

/// The version with the bundle that edits made.
fn with_bundle(
    alloc: Global,
    version: &Version,
    key: &BundleKey,
    edits: &Edits,
    bundle: Bundle,
) -> Result<Version, Memory>
    requires keeps { KeepsDatabaseRules (state_of version.now) }
    requires key { IsTrue (list_all (has_key key.now) edits.now) }
    requires together { AreTogether edits.now }
    requires made { changed_in (state_of version.now) key.now edits.now ≡ Ok (Some bundle) }
    ensures state { IfOk result (λ next.
        in_turn 1 (state_of version.now) edits.now ≡ Ok (state_of next)) }
    ensures number { IfOk result (λ next. next.number ≡ next_number version.now.number) }
{
    let indexed = indexed_in(alloc, version, key, edits, bundle)?;
    let next = with_indexed(alloc, version, indexed)?;
    Ok(next)
}

/// The version without the bundle that edits take out.
#[tactic(auto, using(crate::proofs::StepChanges::taken_there, crate::proofs::StepChanges::taken_effect))]
fn without_bundle(
    alloc: Global,
    version: &Version,
    key: &BundleKey,
    edits: &Edits,
) -> Result<Version, Memory>
    requires keeps { KeepsDatabaseRules (state_of version.now) }
    requires key { IsTrue (list_all (has_key key.now) edits.now) }
    requires together { AreTogether edits.now }
    requires made { changed_in (state_of version.now) key.now edits.now ≡ Ok None }
    ensures state { IfOk result (λ next.
        in_turn 1 (state_of version.now) edits.now ≡ Ok (state_of next)) }
    ensures number { IfOk result (λ next. next.number ≡ next_number version.now.number) }
{
    let next = version.without(alloc, key)?;
    Ok(next)
}

/// The version behind a list of edits, or the first of them that breaks a rule, with the rule, or want of memory.
#[tactic(auto, using(crate::proofs::StepChanges::first_breach))]
pub(crate) fn next_edited(
    alloc: Global,
    version: &Version,
    edits: &Edits,
) -> Result<Version, ChangeFault>
    requires { KeepsDatabaseRules (state_of version.now) }
    ensures state { IfOk result (λ next.
        in_turn 1 (state_of version.now) edits.now ≡ Ok (state_of next)) }
    ensures number { IfOk result (λ next. next.number ≡ next_number version.now.number) }
    ensures broken { IfErr result (λ fault.
        IsFirstBreach fault (in_turn 1 (state_of version.now) edits.now)) }
{
    let _count = edits.len();
    let key = edits.key();
    match change_in(alloc, version, key, edits) {
        Ok(Some(bundle)) => Ok(with_bundle(alloc, version, key, edits, bundle)?),
        Ok(None) => Ok(without_bundle(alloc, version, key, edits)?),
        Err(fault) => Err(fault),
    }
}
