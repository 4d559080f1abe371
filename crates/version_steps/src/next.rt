//! The version behind one more act.
ghost use Rattle.std.specs.Prelude.{◌≡◌, IfOk, IfErr, Ok, Some};
ghost use Rattle.edit_rules.specs.Database.{KeepsDatabaseRules};
ghost use Rattle.edit_rules.specs.Effects.{config_effect, effect};
ghost use Rattle.edit_rules.specs.Inner.Effects.{IsFirstBreach};
ghost use Rattle.version_tree.specs.Version.{state_of};
ghost use Rattle.version_tree.specs.Inner.Version.{next_number};
ghost use Rattle.version_steps.specs.Inner.Drafts.{IsAddedBy, MayServe};

use crate::added::{next_added, of_first};
use crate::edited::next_edited;
use bundle_index::Indexed;
use edit_rules::{Act, ChangeFault, ConfigEdit, change_config};
use emu_names::Fault;
use std::alloc::Global;
use version_tree::Version;

/// The version behind an edit of its configuration, or the rule that the edit breaks first, or want of memory.
#[tactic(auto, using(crate::proofs::Configuring::configured, crate::proofs::Configuring::not_configured, crate::proofs::Configuring::counted_on))]
fn next_configured(
    alloc: Global,
    version: &Version,
    edit: &ConfigEdit,
) -> Result<Version, ChangeFault>
    ensures state { IfOk result (λ next.
        config_effect (state_of version.now) edit.now ≡ Ok (state_of next)) }
    ensures number { IfOk result (λ next. next.number ≡ next_number version.now.number) }
    ensures broken { IfErr result (λ fault.
        IsFirstBreach fault (config_effect (state_of version.now) edit.now)) }
{
    match change_config(alloc, version.config(), edit) {
        Ok(config) => Ok(version.with_config(alloc, config)?),
        Err(fault) => Err(of_first(fault)),
    }
}

/// The version behind one more act, or the first of its edits that breaks a rule, with the rule, or want of memory.
pub fn next_version(alloc: Global, version: &Version, act: &Act) -> Result<Version, ChangeFault>
    requires { KeepsDatabaseRules (state_of version.now) }
    ensures state { IfOk result (λ next.
        effect (state_of version.now) act.now ≡ Ok (state_of next)) }
    ensures number { IfOk result (λ next. next.number ≡ next_number version.now.number) }
    ensures broken { IfErr result (λ fault.
        IsFirstBreach fault (effect (state_of version.now) act.now)) }
{
    match act {
        Act::Edits(edits) => next_edited(alloc, version, edits),
        Act::Config(edit) => next_configured(alloc, version, edit),
    }
}

/// The version behind one more act that adds a bundle, of what was made of its annotation.
fn next_served(
    alloc: Global,
    version: &Version,
    act: &Act,
    made: Result<Indexed, Fault>,
) -> Result<Version, ChangeFault>
    requires keeps { KeepsDatabaseRules (state_of version.now) }
    requires made { IsAddedBy version.now.config act.now (Some made) }
    ensures state { IfOk result (λ next.
        effect (state_of version.now) act.now ≡ Ok (state_of next)) }
    ensures number { IfOk result (λ next. next.number ≡ next_number version.now.number) }
    ensures broken { IfErr result (λ fault.
        IsFirstBreach fault (effect (state_of version.now) act.now)) }
{
    match act {
        Act::Edits(edits) => next_added(alloc, version, edits, made),
        Act::Config(_) => unreachable!(),
    }
}

/// The version behind one more act, of what was made for it ahead under the version's configuration, if anything was; or the
/// first of its edits that breaks a rule, with the rule, or want of memory.
pub fn next_drafted(
    alloc: Global,
    version: &Version,
    act: &Act,
    added: Option<Result<Indexed, Fault>>,
) -> Result<Version, ChangeFault>
    requires keeps { KeepsDatabaseRules (state_of version.now) }
    requires added { MayServe version.now.config act.now added }
    ensures state { IfOk result (λ next.
        effect (state_of version.now) act.now ≡ Ok (state_of next)) }
    ensures number { IfOk result (λ next. next.number ≡ next_number version.now.number) }
    ensures broken { IfErr result (λ fault.
        IsFirstBreach fault (effect (state_of version.now) act.now)) }
{
    match added {
        Some(made) => next_served(alloc, version, act, made),
        None => next_version(alloc, version, act),
    }
}
