//! The bundles that the last acts dropped, as a hint of which nothing is promised.
ghost use Rattle.std.specs.Prelude.{◌≡◌, ◌<◌, length, Ok, Some, IfSome};
ghost use Rattle.std.specs.List.{slice_get};
ghost use Rattle.bundle_index.specs.Index.{IndexParts};
ghost use Rattle.version_steps.specs.Inner.Drafts.{IsAddedBy, MayServe};

use crate::dropped::DroppedBundle;
use bundle_index::Indexed;
use db_config::Config;
use edit_rules::Act;
use emu_names::{Fault, Series};
use std::alloc::Global;

/// The most bundles that are kept.
const KEPT_BUNDLES: usize = 64;

/// The most items that they have together.
const KEPT_ITEMS: usize = 262_144;

/// The bundles that the last acts dropped, the last one last: at most 64, of at most 262,144 items together. An act
/// that adds one of them again is served by it.
#[derive(Drop)]
pub struct Dropped {
    /// None until there is a first one.
    bundles: Option<Series<DroppedBundle>>,
}

/// How many of the first bundles are let go of, since there are too many or they have too many items.
fn count_past(bundles: &Series<DroppedBundle>) -> usize {
    let count = bundles.len();
    let mut left = KEPT_ITEMS;
    for behind in 0..count {
        let items = bundles.get(count - 1 - behind).item_count();
        if behind >= KEPT_BUNDLES || items > left {
            return count - behind;
        }
        left -= items;
    }
    0
}

/// Puts a bundle last, and lets go of the first ones where there are too many; where memory is wanting, of the bundle.
fn put_last(bundles: &mut Series<DroppedBundle>, bundle: DroppedBundle) {
    let _put = bundles.push(bundle);
    for _place in 0..count_past(bundles) {
        if !bundles.is_empty() {
            drop(bundles.remove(0));
        }
    }
}

/// The place of the last bundle that serves for an act under a configuration.
#[tactic(auto, using(crate::proofs::Dropping::added_at))]
fn place_for(bundles: &Series<DroppedBundle>, config: &Config, act: &Act) -> Option<usize>
    ensures within { IfSome result (λ place. place < length bundles.now) }
    ensures added { IfSome result (λ place. (x : IndexParts) → slice_get bundles.now place ≡ Some x
        → IsAddedBy config.now act.now (Some (Ok x))) }
{
    let count = bundles.len();
    for behind in 0..count {
        let place = count - 1 - behind;
        if bundles.get(place).is_added_by(config, act) {
            return Some(place);
        }
    }
    None
}

/// Gives the last bundle up that serves for an act under a configuration, if there is one.
fn taken_for(
    bundles: &mut Series<DroppedBundle>,
    config: &Config,
    act: &Act,
) -> Option<Result<Indexed, Fault>>
    ensures { MayServe config.now act.now result }
{
    match place_for(bundles, config, act) {
        Some(place) => Some(Ok(bundles.remove(place).into_indexed())),
        None => None,
    }
}

impl Dropped {
    /// None.
    pub fn new() -> Dropped {
        Dropped { bundles: None }
    }

    /// Keeps a bundle that was dropped. Where memory is wanting it is not kept.
    pub fn put(&mut self, alloc: Global, bundle: DroppedBundle) {
        match &mut self.bundles {
            Some(bundles) => put_last(bundles, bundle),
            None => {
                let mut bundles = Series::new(alloc);
                put_last(&mut bundles, bundle);
                self.bundles = Some(bundles);
            }
        }
    }

    /// Whether a bundle serves for an act under a configuration.
    pub fn has_for(&self, config: &Config, act: &Act) -> bool {
        match &self.bundles {
            Some(bundles) => place_for(bundles, config, act).is_some(),
            None => false,
        }
    }

    /// Gives the last bundle up that serves for an act under a configuration, if there is one.
    pub fn take_for(&mut self, config: &Config, act: &Act) -> Option<Result<Indexed, Fault>>
        ensures { MayServe config.now act.now result }
    {
        match &mut self.bundles {
            Some(bundles) => taken_for(bundles, config, act),
            None => None,
        }
    }
}

/// What may be sent to a thread and shared by threads.
fn crosses<T: Send + Sync>() {}

/// The bundles that were dropped may be sent to a thread, as the book is that keeps them.
pub fn dropped_cross_threads() {
    crosses::<Dropped>();
}
