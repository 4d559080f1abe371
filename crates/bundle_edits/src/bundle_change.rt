//! What an edit makes of the bundle that it names.
ghost use Rattle.std.specs.Prelude.{◌≡◌, IfSome, option_copied};
ghost use Rattle.emu_names.specs.Inner.Gives.{GivesOrBroken};
ghost use Rattle.bundle_state.specs.Built.{FitsConfig};
ghost use Rattle.emu_names.specs.Steps.{onward};
ghost use Rattle.bundle_edits.specs.Changes.{unless_too_many, bundle_added, bundle_changed, if_kept, missing_changed, changed};
ghost use Rattle.bundle_edits.specs.Inner.Given.{kept};

use crate::edit::Edit;
use crate::item_changes::{give_label, link, link_at, put_item, take_item, unlink, with_time};
use crate::segments::{merge, move_boundary, split};
use crate::timed_links::link_times;
use bundle_state::Bundle;
use db_config::Config;
use emu_names::limits::{ALL_ITEMS, BUNDLES};
use emu_names::{Broken, BundleKey, Fault, What};
use level_items::{Annot, Time};
use std::alloc::Global;

/// How many bundles a database has, and how many items all of them have together.
#[derive(Clone, Copy, Debug, PartialEq, Eq)]
pub struct Counts {
    /// The bundles.
    pub bundles: u32,
    /// The items.
    pub items: u32,
}

/// A new bundle, unless all bundles would have too many items with it.
fn unless_too_many(counts: Counts, new: Bundle) -> Result<Option<Bundle>, Fault>
    ensures { GivesOrBroken result (unless_too_many counts new) }
{
    if counts.items as usize + new.item_count() > ALL_ITEMS {
        drop(new);
        return Err(Fault::Broken(Broken::TooMany(What::AllItems)));
    }
    Ok(Some(new))
}

/// The bundle of an annotation.
fn add_bundle(
    alloc: Global,
    config: &Config,
    counts: Counts,
    key: &BundleKey,
    annot: &Annot,
) -> Result<Option<Bundle>, Fault>
    ensures { GivesOrBroken result (bundle_added config.now counts key.now annot.now) }
{
    if counts.bundles as usize >= BUNDLES {
        return Err(Fault::Broken(Broken::TooMany(What::Bundles)));
    }
    let key = key.copy(alloc)?;
    let new = Bundle::build(alloc, config, key, annot)?;
    unless_too_many(counts, new)
}

/// What an edit makes where no bundle has its key.
fn change_missing(
    alloc: Global,
    config: &Config,
    counts: Counts,
    edit: &Edit,
) -> Result<Option<Bundle>, Fault>
    ensures { GivesOrBroken result (missing_changed config.now counts edit.now) }
{
    match edit {
        Edit::AddBundle { key, annot } => add_bundle(alloc, config, counts, key, annot),
        _ => Err(Fault::Broken(Broken::NoBundle)),
    }
}

/// What an edit makes of a bundle that is there.
pub fn change_own(
    alloc: Global,
    config: &Config,
    counts: Counts,
    bundle: Bundle,
    edit: &Edit,
) -> Result<Bundle, Fault>
    requires { FitsConfig config.now bundle }
    ensures { GivesOrBroken result (bundle_changed config.now counts edit.now bundle) }
{
    match edit {
        Edit::AddBundle { .. } => {
            drop(bundle);
            Err(Fault::Broken(Broken::BundleTaken))
        }
        Edit::DropBundle { .. } => Ok(bundle),
        Edit::AddItem {
            level,
            position,
            item,
            ..
        } => put_item(alloc, config, counts, bundle, level, *position, item, true),
        Edit::RemoveItem { id, .. } => take_item(bundle, *id),
        Edit::SetLabel {
            id,
            attribute,
            label,
            ..
        } => give_label(alloc, config, bundle, *id, attribute, label, true),
        Edit::SetSegment { id, start, dur, .. } => {
            let time = Time::Span {
                start: *start,
                dur: *dur,
            };
            with_time(bundle, *id, time)
        }
        Edit::MoveBoundary { id, start, .. } => move_boundary(bundle, *id, *start),
        Edit::SetPoint { id, at, .. } => with_time(bundle, *id, Time::Point { at: *at }),
        Edit::Split {
            id,
            new_id,
            start,
            ..
        } => split(alloc, config, counts, bundle, *id, *new_id, *start),
        Edit::Merge { id, .. } => merge(bundle, *id),
        Edit::AddLink { from, to, .. } => link(config, bundle, *from, *to),
        Edit::RemoveLink { from, to, .. } => unlink(bundle, *from, *to),
        Edit::LinkTimes { upper, lower, .. } => link_times(alloc, config, bundle, upper, lower),
        Edit::PutItem {
            level,
            position,
            item,
            ..
        } => put_item(alloc, config, counts, bundle, level, *position, item, false),
        Edit::PutLabel {
            id,
            attribute,
            label,
            ..
        } => give_label(alloc, config, bundle, *id, attribute, label, false),
        Edit::PutLink {
            from,
            to,
            place,
            ..
        } => link_at(config, bundle, *place, *from, *to),
    }
}

/// The bundle, where the edit keeps it.
fn if_kept(edit: &Edit, made: Result<Bundle, Fault>) -> Result<Option<Bundle>, Fault>
    ensures { result ≡ kept edit.now made }
{
    match made {
        Ok(next) => match edit {
            Edit::DropBundle { .. } => Ok(None),
            _ => Ok(Some(next)),
        },
        Err(fault) => Err(fault),
    }
}

/// What an edit makes of a copy of a bundle that is there.
fn change_copy(
    alloc: Global,
    config: &Config,
    counts: Counts,
    bundle: &Bundle,
    edit: &Edit,
) -> Result<Option<Bundle>, Fault>
    requires { FitsConfig config.now bundle.now }
    ensures { GivesOrBroken result (onward (bundle_changed config.now counts edit.now bundle.now)
        (if_kept edit.now)) }
{
    let copy = bundle.copy(alloc)?;
    if_kept(edit, change_own(alloc, config, counts, copy, edit))
}

/// What an edit makes of the bundle of its key, or the rule that it breaks first, or want of memory.
/// `old` is that bundle, where there is one, and it is None behind an edit that takes the bundle out.
pub fn change(
    alloc: Global,
    config: &Config,
    counts: Counts,
    old: Option<&Bundle>,
    edit: &Edit,
) -> Result<Option<Bundle>, Fault>
    requires { IfSome (option_copied old) (λ b. FitsConfig config.now b) }
    ensures { GivesOrBroken result (changed config.now counts (option_copied old.entry) edit.now) }
{
    match old {
        None => change_missing(alloc, config, counts, edit),
        Some(bundle) => change_copy(alloc, config, counts, bundle, edit),
    }
}
