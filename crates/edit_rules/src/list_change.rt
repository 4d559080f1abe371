//! What a list of edits makes of the bundle that it names.
ghost use Rattle.std.specs.Prelude.{◌≡◌, ◌≤◌, ◌<◌, length, IsTrue, IfOk, IfSome, Some, option_copied};
ghost use Rattle.std.specs.List.{list_all};
ghost use Rattle.emu_names.specs.declared.limits.TheConstants.{ALL_ITEMS, BUNDLES};
ghost use Rattle.bundle_state.specs.Built.{FitsConfig};
ghost use Rattle.bundle_edits.specs.Changes.{bundle_changed, changed};
ghost use Rattle.edit_rules.specs.Inner.Acts.{is_inner};
ghost use Rattle.edit_rules.specs.Effects.{at_place};
ghost use Rattle.emu_names.specs.declared.limits.TheConstants.{LIST_EDITS};
ghost use Rattle.edit_rules.specs.Turns.{with_own, changed_in_turn};
ghost use Rattle.edit_rules.specs.Inner.Turns.{beside, IsCounted, own_in_turn};
ghost use Rattle.edit_rules.specs.Inner.Effects.{GivesOrBreach, is_placed, kept};

use crate::acts::{Breach, ChangeFault, Edits};
use bundle_edits::{Counts, Edit, change_own};
use bundle_state::Bundle;
use db_config::Config;
use emu_names::{Broken, Fault};
use std::alloc::Global;

/// A fault of the edit at a place.
pub(crate) fn at_place(place: u32, fault: Fault) -> ChangeFault
    ensures { result ≡ is_placed place fault }
{
    match fault {
        Fault::Broken(rule) => ChangeFault::Broken(Breach { place, rule }),
        Fault::Memory => ChangeFault::Memory,
    }
}

/// The counts of all bundles, of those of all others and this one.
fn with_own(others: Counts, bundle: &Bundle) -> Counts
    requires few { others.items ≤ ALL_ITEMS }
    requires bundles { others.bundles < BUNDLES }
    ensures { result ≡ with_own others (Some bundle.now) }
{
    Counts {
        bundles: others.bundles + 1,
        items: others.items + bundle.item_count() as u32,
    }
}

/// What the edit at a place makes of a bundle.
fn step(
    alloc: Global,
    config: &Config,
    others: Counts,
    place: u32,
    bundle: Bundle,
    edit: &Edit,
) -> Result<Bundle, ChangeFault>
    requires fits { FitsConfig config.now bundle }
    requires few { others.items ≤ ALL_ITEMS }
    requires bundles { others.bundles < BUNDLES }
    ensures next { GivesOrBreach result (at_place place
        (bundle_changed config.now (with_own others (Some bundle)) edit.now bundle)) }
    ensures fits { IfOk result (λ next. FitsConfig config.now next) }
{
    let _count = bundle.item_count();
    let counts = with_own(others, &bundle);
    match change_own(alloc, config, counts, bundle, edit) {
        Ok(next) => Ok(next),
        Err(fault) => Err(at_place(place, fault)),
    }
}

/// What edits make of a bundle one after another.
fn change_in_turn(
    alloc: Global,
    config: &Config,
    others: Counts,
    bundle: Bundle,
    edits: &[Edit],
) -> Result<Bundle, ChangeFault>
    requires fits { FitsConfig config.now bundle }
    requires count { length edits.now ≤ LIST_EDITS }
    requires few { others.items ≤ ALL_ITEMS }
    requires bundles { others.bundles < BUNDLES }
    ensures { GivesOrBreach result (own_in_turn config.now others 1 bundle edits.now) }
{
    let mut next = bundle;
    let mut rest = edits;
    let mut place = 1;
    while let [first, after @ ..] = rest {
        next = step(alloc, config, others, place, next, first)?;
        place += 1;
        rest = after;
    }
    Ok(next)
}

/// The counts without a bundle.
fn beside(counts: Counts, bundle: &Bundle) -> Counts
    requires { IsCounted counts (Some bundle.now) }
    ensures { result ≡ beside counts (Some bundle.now) }
{
    Counts {
        bundles: counts.bundles - 1,
        items: counts.items - bundle.item_count() as u32,
    }
}

/// What a list of one edit makes.
fn change_one(
    alloc: Global,
    config: &Config,
    counts: Counts,
    old: Option<&Bundle>,
    edit: &Edit,
) -> Result<Option<Bundle>, ChangeFault>
    requires { IfSome (option_copied old) (λ b. FitsConfig config.now b) }
    ensures { GivesOrBreach result (at_place 1 (changed config.now counts (option_copied old.entry) edit.now)) }
{
    match bundle_edits::change(alloc, config, counts, old, edit) {
        Ok(next) => Ok(next),
        Err(fault) => Err(at_place(1, fault)),
    }
}

/// The bundle that edits keep.
fn kept(made: Result<Bundle, ChangeFault>) -> Result<Option<Bundle>, ChangeFault>
    ensures { result ≡ kept made }
{
    match made {
        Ok(next) => Ok(Some(next)),
        Err(fault) => Err(fault),
    }
}

/// What several edits make of a bundle: the bundle is copied once.
fn change_many(
    alloc: Global,
    config: &Config,
    counts: Counts,
    bundle: &Bundle,
    edits: &[Edit],
) -> Result<Option<Bundle>, ChangeFault>
    requires fits { FitsConfig config.now bundle.now }
    requires counted { IsCounted counts (Some bundle.now) }
    requires inner { IsTrue (list_all is_inner edits.now) }
    requires count { length edits.now ≤ LIST_EDITS }
    ensures { GivesOrBreach result (changed_in_turn config.now (beside counts (Some bundle.now)) 1
        (Some bundle.now) edits.now) }
{
    let others = beside(counts, bundle);
    let copy = bundle.copy(alloc)?;
    kept(change_in_turn(alloc, config, others, copy, edits))
}

/// What several edits make of the bundle of their key, which may be missing.
fn change_several(
    alloc: Global,
    config: &Config,
    counts: Counts,
    old: Option<&Bundle>,
    edits: &[Edit],
) -> Result<Option<Bundle>, ChangeFault>
    requires fits { IfSome (option_copied old) (λ b. FitsConfig config.now b) }
    requires counted { IsCounted counts (option_copied old) }
    requires inner { IsTrue (list_all is_inner edits.now) }
    requires some { 1 ≤ length edits.now }
    requires count { length edits.now ≤ LIST_EDITS }
    ensures { GivesOrBreach result (changed_in_turn config.now (beside counts (option_copied old.entry)) 1
        (option_copied old.entry) edits.now) }
{
    match old {
        None => Err(ChangeFault::Broken(Breach {
            place: 1,
            rule: Broken::NoBundle,
        })),
        Some(bundle) => change_many(alloc, config, counts, bundle, edits),
    }
}

/// What a list of edits makes of the bundle of its key, or the edit that breaks a rule first and the rule, or
/// want of memory. `old` is that bundle, where there is one, and it is None behind an edit that takes it out.
pub fn change(
    alloc: Global,
    config: &Config,
    counts: Counts,
    old: Option<&Bundle>,
    edits: &Edits,
) -> Result<Option<Bundle>, ChangeFault>
    requires fits { IfSome (option_copied old) (λ b. FitsConfig config.now b) }
    requires counted { IsCounted counts (option_copied old) }
    ensures { GivesOrBreach result (changed_in_turn config.now (beside counts (option_copied old.entry)) 1
        (option_copied old.entry) edits.now) }
{
    let count = edits.len();
    if count > 1 {
        return change_several(alloc, config, counts, old, edits.as_slice());
    }
    change_one(alloc, config, counts, old, edits.get(0))
}
