//! What takes a list of edits back.
ghost use Rattle.std.specs.Prelude.{◌≡◌, ◌≢◌, ◌≤◌, ◌++◌, ◌∷◌, [], length, reverse, IsTrue, IsOk, IfOk, IfSome, OnOk, Some, Ok, option_copied};
ghost use Rattle.std.specs.List.{list_all};
ghost use Rattle.emu_names.specs.declared.limits.TheConstants.{LIST_EDITS};
ghost use Rattle.bundle_state.specs.Built.{FitsConfig};
ghost use Rattle.bundle_edits.specs.Changes.{bundle_changed};
ghost use Rattle.edit_rules.specs.declared.acts.Act.TheVariants as acts;
ghost use Rattle.edit_rules.specs.Inner.Acts.{is_inner, AreTogether};
ghost use Rattle.edit_undo.specs.Inverse.{uncounted, missing_inverse, own_inverse, edits_inverse};
ghost use Rattle.edit_undo.specs.Before.{BreakNoRule};
ghost use Rattle.edit_undo.specs.Inner.Answers.{GivesInverse, if_room, few_reversed};
ghost use Rattle.edit_undo.specs.Inner.Turns.{HasTimes, CanBeList, own_turns};

use crate::faults::{InverseFault, NoUndo};
use crate::item_edits::one;
use crate::own_edits::own_inverse;
use crate::reversed::put_reversed;
use bundle_edits::{Counts, Edit, change_own};
use bundle_state::Bundle;
use db_config::Config;
use edit_rules::{Act, Edits};
use emu_names::limits::LIST_EDITS;
use emu_names::{Fault, Memory, Series};
use std::alloc::Global;

/// The bundle behind an edit that breaks no rule. The only refusal is want of memory.
fn step(alloc: Global, config: &Config, bundle: Bundle, edit: &Edit) -> Result<Bundle, Memory>
    requires fits { FitsConfig config.now bundle }
    requires passes { IsOk (bundle_changed config.now uncounted edit.now bundle) }
    ensures next { IfOk result (λ next. bundle_changed config.now uncounted edit.now bundle ≡ Ok next) }
    ensures fits { IfOk result (λ next. FitsConfig config.now next) }
{
    let _rules = bundle.item_count();
    let counts = Counts {
        bundles: 0,
        items: 0,
    };
    match change_own(alloc, config, counts, bundle, edit) {
        Ok(next) => Ok(next),
        Err(Fault::Memory) => Err(Memory),
        Err(Fault::Broken(_)) => unreachable!(),
    }
}

/// What takes an edit back, put behind edits, the last one first, unless they are too many with it.
fn with_inverse(
    alloc: Global,
    config: &Config,
    bundle: &Bundle,
    edit: &Edit,
    made: Series<Edit>,
) -> Result<Series<Edit>, InverseFault>
    requires fits { FitsConfig config.now bundle.now }
    requires times { HasTimes config.now bundle.now edit.now }
    requires few { length made ≤ LIST_EDITS }
    ensures { GivesInverse result (if_room made (own_inverse config.now bundle.now edit.now)) }
{
    let group = own_inverse(alloc, config, bundle, edit)?;
    put_all(made, group)
}

/// Edits put behind others, the last one first, unless they are too many with them.
fn put_all(made: Series<Edit>, group: Series<Edit>) -> Result<Series<Edit>, InverseFault>
    requires few { length made ≤ LIST_EDITS }
    ensures { GivesInverse result (if_room made group) }
{
    if group.len() > LIST_EDITS - made.len() {
        return Err(InverseFault::NoUndo(NoUndo::TooManyEdits));
    }
    let mut all = made;
    put_reversed(&mut all, group)?;
    Ok(all)
}

/// What takes edits back that are made one after another, the last one first.
fn in_turn(
    alloc: Global,
    config: &Config,
    bundle: Bundle,
    edits: &[Edit],
) -> Result<Series<Edit>, InverseFault>
    requires fits { FitsConfig config.now bundle }
    requires inner { IsTrue (list_all is_inner edits.now) }
    requires passes { IsOk (own_turns config.now bundle edits.now) }
    ensures { GivesInverse result (few_reversed (edits_inverse config.now (Some bundle) edits.now)) }
{
    let mut made = Series::new(alloc);
    let mut next = bundle;
    let mut rest = edits;
    while let [first, after @ ..] = rest {
        made = with_inverse(alloc, config, &next, first, made)?;
        next = step(alloc, config, next, first)?;
        rest = after;
    }
    Ok(made)
}

/// What takes several edits of a bundle back that is there, the last one first.
fn of_several(
    alloc: Global,
    config: &Config,
    bundle: &Bundle,
    edits: &[Edit],
) -> Result<Series<Edit>, InverseFault>
    requires fits { FitsConfig config.now bundle.now }
    requires before { BreakNoRule config.now (Some bundle.now) edits.now }
    requires together { AreTogether edits.now }
    requires several { 2 ≤ length edits.now }
    ensures made { GivesInverse result (few_reversed (edits_inverse config.now (Some bundle.now) edits.now)) }
    ensures list { IfOk result (λ made. CanBeList (reverse made)) }
{
    let _rules = bundle.item_count();
    let copy = bundle.copy(alloc)?;
    in_turn(alloc, config, copy, edits)
}

/// What takes one edit of a bundle back that is there, the last one first.
fn of_one(
    alloc: Global,
    config: &Config,
    bundle: &Bundle,
    edit: &Edit,
) -> Result<Series<Edit>, InverseFault>
    requires fits { FitsConfig config.now bundle.now }
    requires before { BreakNoRule config.now (Some bundle.now) (edit.now ∷ []) }
    ensures made { GivesInverse result (few_reversed (edits_inverse config.now (Some bundle.now) (edit.now ∷ []))) }
    ensures list { IfOk result (λ made. CanBeList (reverse made)) }
{
    let _rules = bundle.item_count();
    with_inverse(alloc, config, bundle, edit, Series::new(alloc))
}

/// What takes an edit back that adds its bundle.
fn of_missing(alloc: Global, edit: &Edit) -> Result<Series<Edit>, Memory>
    requires { missing_inverse edit.now ≢ [] }
    ensures { IfOk result (λ made. made ≡ missing_inverse edit.now) }
{
    match edit {
        Edit::AddBundle { key, .. } => {
            let key = key.copy(alloc)?;
            one(alloc, Edit::DropBundle { key })
        }
        _ => unreachable!(),
    }
}

/// What takes a list of edits back, over the bundle of their key before it, which may be missing; the last edit
/// first.
pub(crate) fn reversed_inverse(
    alloc: Global,
    config: &Config,
    old: Option<&Bundle>,
    edits: &Edits,
) -> Result<Series<Edit>, InverseFault>
    requires fits { IfSome (option_copied old) (λ b. FitsConfig config.now b) }
    requires before { BreakNoRule config.now (option_copied old) edits.now }
    ensures made { GivesInverse result (few_reversed (edits_inverse config.now (option_copied old.entry) edits.now)) }
    ensures list { IfOk result (λ made. CanBeList (reverse made)) }
{
    let count = edits.len();
    match old {
        Some(bundle) => {
            if count > 1 {
                return of_several(alloc, config, bundle, edits.as_slice());
            }
            of_one(alloc, config, bundle, edits.get(0))
        }
        None => Ok(of_missing(alloc, edits.get(0))?),
    }
}

/// The act of edits that stand in the reverse order. The only refusal is want of memory.
pub(crate) fn as_act(alloc: Global, made: Series<Edit>) -> Result<Act, Memory>
    requires { CanBeList (reverse made) }
    ensures { IfOk result (λ act. act ≡ acts.Edits (reverse made)) }
{
    let mut left = made;
    let last = left.len() - 1;
    let first = left.remove(last);
    let mut edits = Edits::one(alloc, first)?;
    while !left.is_empty() {
        let last = left.len() - 1;
        edits.push(left.remove(last))?;
    }
    Ok(Act::Edits(edits))
}
