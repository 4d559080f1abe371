//! A bundle that an act dropped, which may serve where an act adds it again.
ghost use Rattle.std.specs.Prelude.{◌≡◌, true, Ok, Some, IfOk};
ghost use Rattle.bundle_state.specs.Built.{built, FitsConfig};
ghost use Rattle.edit_rules.specs.declared.acts.Act.TheVariants as acts;
ghost use Rattle.version_steps.specs.Inner.Drafts.{IsAddedBy, IsAddedByEdit};

use crate::forms::are_alike;
use crate::given::is_given;
use bundle_index::Indexed;
use bundle_state::Bundle;
use db_config::Config;
use edit_rules::{Act, Edit, Edits};
use emu_names::{BundleKey, Memory, Shared};
use lane_bits::BitRow;
use level_items::Annot;
use std::alloc::Global;
use std::marker::Model;
use version_tree::Version;

/// A bundle with its columns that an act dropped, beside the configuration of the version in which it stood.
/// Contracts see the bundle with its columns.
#[derive(Drop)]
pub struct DroppedBundle {
    indexed: Indexed,
    config: Shared<Config>,
}

impl Model for DroppedBundle {
    ghost use Rattle.bundle_index.specs.Index.{IndexParts};
    ghost use Rattle.bundle_state.specs.Built.{FitsConfig};

    ghost Value = { IndexParts };

    ghost view = { λ d. d.indexed };

    ghost invariant = { λ d. FitsConfig d.config d.indexed.bundle };
}

/// The same bundle with its columns again, which shares all that it has. The only refusal is want of memory.
#[tactic(auto, using(crate::proofs::Same::same_levels))]
fn indexed_again(alloc: Global, indexed: &Indexed) -> Result<Indexed, Memory>
    ensures { IfOk result (λ made. made.bundle ≡ indexed.now.bundle) }
{
    let bundle = indexed.bundle().copy(alloc)?;
    match BitRow::new(alloc, 0) {
        Ok(marked) => indexed.changed_on(alloc, bundle, &marked),
        Err(_) => {
            drop(bundle);
            Err(Memory)
        }
    }
}

/// The bundle that an edit drops from a version, where it drops one and memory is not wanting.
fn dropped_by_edit(alloc: Global, version: &Version, edit: &Edit) -> Option<DroppedBundle> {
    match edit {
        Edit::DropBundle { key } => DroppedBundle::of(alloc, version, key),
        _ => None,
    }
}

/// The bundle that an act drops from a version, where the act is one edit that drops a bundle and memory is not
/// wanting.
pub fn dropped_by(alloc: Global, version: &Version, act: &Act) -> Option<DroppedBundle> {
    match act {
        Act::Edits(edits) => match edits.as_slice() {
            [edit] => dropped_by_edit(alloc, version, edit),
            _ => None,
        },
        Act::Config(_) => None,
    }
}

/// Whether these are the same keys.
fn is_same_key(a: &BundleKey, b: &BundleKey) -> bool
    ensures { result ≡ true → a.now ≡ b.now }
{
    a.bundle.as_str() == b.bundle.as_str() && a.session.as_str() == b.session.as_str()
}

/// Whether a bundle, which fits a configuration, is what an annotation makes under another one.
#[tactic(auto, using(crate::proofs::Same::fits_alike, crate::proofs::Same::made_again))]
fn is_made_of(
    own: &Config,
    config: &Config,
    bundle: &Bundle,
    key: &BundleKey,
    annot: &Annot,
) -> bool
    requires { FitsConfig own.now bundle.now }
    ensures { result ≡ true → built config.now key.now annot.now ≡ Ok bundle.now }
{
    let _parts = config.parts();
    let _count = bundle.item_count();
    if !is_same_key(key, bundle.key()) {
        return false;
    }
    if !are_alike(own, config) {
        return false;
    }
    is_given(config, bundle, annot)
}

impl DroppedBundle {
    /// The bundle of a key in a version, where there is one and memory is not wanting.
    fn of(alloc: Global, version: &Version, key: &BundleKey) -> Option<DroppedBundle> {
        match version.get(key) {
            Some(indexed) => DroppedBundle::beside(alloc, version, indexed),
            None => None,
        }
    }

    /// A bundle of a version, where memory is not wanting.
    fn beside(alloc: Global, version: &Version, indexed: &Indexed) -> Option<DroppedBundle>
        requires { FitsConfig version.now.config indexed.now.bundle }
    {
        match indexed_again(alloc, indexed) {
            Ok(indexed) => match version.shared_config(alloc) {
                Ok(config) => Some(DroppedBundle { indexed, config }),
                Err(Memory) => {
                    drop(indexed);
                    None
                }
            },
            Err(Memory) => None,
        }
    }

    /// How many items the bundle has.
    pub fn item_count(&self) -> usize {
        self.indexed.bundle().item_count()
    }

    /// Whether the bundle is what an edit adds under a configuration.
    fn is_added_by_edit(&self, config: &Config, edit: &Edit) -> bool
        ensures { result ≡ true → IsAddedByEdit config.now edit.now (Some (Ok self.now)) }
    {
        match edit {
            Edit::AddBundle { key, annot } => is_made_of(
                self.config.as_ref(),
                config,
                self.indexed.bundle(),
                key,
                annot,
            ),
            _ => false,
        }
    }

    /// Whether the bundle is what edits add under a configuration, which are one that adds a bundle.
    fn is_added_by_edits(&self, config: &Config, edits: &Edits) -> bool
        ensures { result ≡ true → IsAddedBy config.now (acts.Edits edits.now) (Some (Ok self.now)) }
    {
        match edits.as_slice() {
            [edit] => self.is_added_by_edit(config, edit),
            _ => false,
        }
    }

    /// Whether an act is one edit that adds this bundle, as its annotation makes it under a configuration. It takes no
    /// memory, and a time that goes with the size of the bundle at most.
    pub fn is_added_by(&self, config: &Config, act: &Act) -> bool
        ensures { result ≡ true → IsAddedBy config.now act.now (Some (Ok self.now)) }
    {
        match act {
            Act::Edits(edits) => self.is_added_by_edits(config, edits),
            Act::Config(_) => false,
        }
    }

    /// The bundle with its columns.
    pub fn into_indexed(self) -> Indexed
        ensures { result ≡ self }
    {
        let DroppedBundle {
            indexed,
            config: _config,
        } = self;
        indexed
    }
}
