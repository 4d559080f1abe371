//! The version behind an edit that adds a bundle, of what was made of its annotation before.
ghost use Rattle.std.specs.Prelude.{◌≡◌, IfOk, IfErr, Ok, Some};
ghost use Rattle.edit_rules.specs.declared.acts.Act.TheVariants as acts;
ghost use Rattle.edit_rules.specs.Database.{KeepsDatabaseRules};
ghost use Rattle.edit_rules.specs.Effects.{edit_effect, in_turn};
ghost use Rattle.edit_rules.specs.Inner.Effects.{IsFirstBreach, is_placed};
ghost use Rattle.version_tree.specs.Version.{state_of};
ghost use Rattle.version_tree.specs.Inner.Version.{next_number};
ghost use Rattle.version_steps.specs.Inner.Drafts.{GivesAdded, IsAddedBy, IsAddedByEdit, IsFirstFault, fitting, room_for, unless_broken};
ghost use Rattle.version_steps.specs.Inner.Steps.{changed_alone};

use crate::edited::with_indexed;
use bundle_index::Indexed;
use edit_rules::{Breach, ChangeFault, Counts, Edit, Edits};
use emu_names::limits::{ALL_ITEMS, BUNDLES};
use emu_names::{Broken, Fault, Memory, What};
use std::alloc::Global;
use version_tree::Version;

/// The rule that refuses a new bundle by the items that all bundles would have with it, if it does.
fn too_many_items(counts: Counts, new: &Indexed) -> Option<Broken>
    ensures { unless_broken result (Ok new.now) ≡ fitting counts (Ok new.now) }
{
    if counts.items as usize + new.bundle().item_count() > ALL_ITEMS {
        return Some(Broken::TooMany(What::AllItems));
    }
    None
}

/// The rule that refuses what was made of an annotation by the number of bundles or items with it, if one
/// does.
fn too_many(counts: Counts, made: &Result<Indexed, Fault>) -> Option<Broken>
    ensures { unless_broken result made.now ≡ room_for counts made.now }
{
    if counts.bundles as usize >= BUNDLES {
        return Some(Broken::TooMany(What::Bundles));
    }
    match made {
        Ok(new) => too_many_items(counts, new),
        Err(_fault) => None,
    }
}

/// The rule that refuses what was made of the annotation of an edit, by what stands in a version, if one
/// does.
#[tactic(auto, using(crate::proofs::Drafting::taken, crate::proofs::Drafting::added))]
fn refused_in(version: &Version, edit: &Edit, made: &Result<Indexed, Fault>) -> Option<Broken>
    requires { IsAddedByEdit version.now.config edit.now (Some made.now) }
    ensures { GivesAdded (unless_broken result made.now) (changed_alone (state_of version.now) edit.now) }
{
    match version.get(edit.key()) {
        Some(_old) => Some(Broken::BundleTaken),
        None => too_many(version.counts(), made),
    }
}

/// The bundle that an edit adds to a version, of what was made of its annotation.
fn added_in(version: &Version, edit: &Edit, made: Result<Indexed, Fault>) -> Result<Indexed, Fault>
    requires { IsAddedByEdit version.now.config edit.now (Some made) }
    ensures { GivesAdded result (changed_alone (state_of version.now) edit.now) }
{
    match refused_in(version, edit, &made) {
        Some(rule) => {
            drop(made);
            Err(Fault::Broken(rule))
        }
        None => made,
    }
}

/// The version with the bundle that an edit adds.
#[tactic(auto, using(crate::proofs::Drafting::added_effect))]
fn with_added(
    alloc: Global,
    version: &Version,
    edit: &Edit,
    indexed: Indexed,
) -> Result<Version, Memory>
    requires keeps { KeepsDatabaseRules (state_of version.now) }
    requires made { changed_alone (state_of version.now) edit.now ≡ Ok (Some indexed.bundle) }
    ensures state { IfOk result (λ next.
        edit_effect (state_of version.now) edit.now ≡ Ok (state_of next)) }
    ensures number { IfOk result (λ next. next.number ≡ next_number version.now.number) }
{
    let next = with_indexed(alloc, version, indexed)?;
    Ok(next)
}

/// The version behind one more edit that adds a bundle, of what was made of its annotation.
#[tactic(auto, using(crate::proofs::Drafting::first_added))]
fn next_of_edit(
    alloc: Global,
    version: &Version,
    edit: &Edit,
    made: Result<Indexed, Fault>,
) -> Result<Version, Fault>
    requires keeps { KeepsDatabaseRules (state_of version.now) }
    requires made { IsAddedByEdit version.now.config edit.now (Some made) }
    ensures state { IfOk result (λ next.
        edit_effect (state_of version.now) edit.now ≡ Ok (state_of next)) }
    ensures number { IfOk result (λ next. next.number ≡ next_number version.now.number) }
    ensures broken { IfErr result (λ fault.
        IsFirstFault fault (edit_effect (state_of version.now) edit.now)) }
{
    match added_in(version, edit, made) {
        Ok(indexed) => Ok(with_added(alloc, version, edit, indexed)?),
        Err(fault) => Err(fault),
    }
}

/// A fault of the first edit.
pub(crate) fn of_first(fault: Fault) -> ChangeFault
    ensures { result ≡ is_placed 1 fault }
{
    match fault {
        Fault::Broken(rule) => ChangeFault::Broken(Breach { place: 1, rule }),
        Fault::Memory => ChangeFault::Memory,
    }
}

/// The version behind a list of one edit that adds a bundle, of what was made of its annotation.
#[tactic(auto, using(crate::proofs::Drafting::added_some, crate::proofs::Drafting::added_first, crate::proofs::Drafting::alone_state, crate::proofs::Drafting::alone_broken))]
pub(crate) fn next_added(
    alloc: Global,
    version: &Version,
    edits: &Edits,
    made: Result<Indexed, Fault>,
) -> Result<Version, ChangeFault>
    requires keeps { KeepsDatabaseRules (state_of version.now) }
    requires made { IsAddedBy version.now.config (acts.Edits edits.now) (Some made) }
    ensures state { IfOk result (λ next.
        in_turn 1 (state_of version.now) edits.now ≡ Ok (state_of next)) }
    ensures number { IfOk result (λ next. next.number ≡ next_number version.now.number) }
    ensures broken { IfErr result (λ fault.
        IsFirstBreach fault (in_turn 1 (state_of version.now) edits.now)) }
{
    match next_of_edit(alloc, version, edits.get(0), made) {
        Ok(next) => Ok(next),
        Err(fault) => Err(of_first(fault)),
    }
}
