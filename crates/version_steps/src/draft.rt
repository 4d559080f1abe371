//! What an act needs of the configuration alone, made before the book is asked.
ghost use Rattle.std.specs.Prelude.{◌≡◌, IfOk};
ghost use Rattle.bundle_state.specs.Built.{built};
ghost use Rattle.edit_rules.specs.declared.acts.Act.TheVariants as acts;
ghost use Rattle.version_steps.specs.Drafts.{entry_of};
ghost use Rattle.version_steps.specs.Inner.Drafts.{GivesIndexed, IsAddedBy, IsAddedByEdit, IsDraftOf};

use bundle_index::Indexed;
use bundle_state::Bundle;
use db_config::Config;
use edit_rules::{Act, Edit, Edits, Entry};
use emu_names::{BundleKey, Fault, Memory, SessionNo};
use level_items::Annot;
use std::alloc::Global;
use version_tree::Version;

/// An entry that is to be committed, and the part of its work that is the same after every history that leads to a
/// configuration.
#[derive(Drop)]
pub struct Draft {
    /// The entry.
    pub entry: Entry,
    /// How many edits led to the version under whose configuration the rest was made.
    pub number: u64,
    /// Of one edit that adds a bundle: this bundle with its columns, or why its annotation makes none.
    pub added: Option<Result<Indexed, Fault>>,
}

/// The bundle of an annotation with its columns, or the rule that the annotation breaks first, or want of
/// memory.
fn indexed_of(
    alloc: Global,
    config: &Config,
    key: &BundleKey,
    annot: &Annot,
) -> Result<Indexed, Fault>
    ensures { GivesIndexed result (built config.now key.now annot.now) }
{
    let key = key.copy(alloc)?;
    let bundle = Bundle::build(alloc, config, key, annot)?;
    let indexed = Indexed::new(alloc, bundle)?;
    Ok(indexed)
}

/// What an edit adds, where it adds a bundle.
fn added_by_edit(alloc: Global, config: &Config, edit: &Edit) -> Option<Result<Indexed, Fault>>
    ensures { IsAddedByEdit config.now edit.now result }
{
    match edit {
        Edit::AddBundle { key, annot } => Some(indexed_of(alloc, config, key, annot)),
        _ => None,
    }
}

/// What edits add, where they are one that adds a bundle.
#[tactic(auto, using(crate::proofs::Drafting::some_there, crate::proofs::Drafting::added_alone, crate::proofs::Drafting::added_several))]
fn added_by_edits(alloc: Global, config: &Config, edits: &Edits) -> Option<Result<Indexed, Fault>>
    ensures { IsAddedBy config.now (acts.Edits edits.now) result }
{
    let count = edits.len();
    if count > 1 {
        return None;
    }
    added_by_edit(alloc, config, edits.get(0))
}

/// What an act adds, where it is one edit that adds a bundle.
fn added_by(alloc: Global, config: &Config, act: &Act) -> Option<Result<Indexed, Fault>>
    ensures { IsAddedBy config.now act.now result }
{
    match act {
        Act::Edits(edits) => added_by_edits(alloc, config, edits),
        Act::Config(_) => None,
    }
}

impl Draft {
    /// The draft of an act of a line of a session, over a version. The only refusal is want of memory.
    pub fn new(
        alloc: Global,
        version: &Version,
        session: SessionNo,
        line: u32,
        act: &Act,
    ) -> Result<Draft, Memory>
        ensures { IfOk result (IsDraftOf version.now (entry_of session line act.now)) }
    {
        let copied = act.copy(alloc)?;
        let added = added_by(alloc, version.config(), act);
        Ok(Draft {
            entry: Entry {
                session,
                line,
                act: copied,
            },
            number: version.number(),
            added,
        })
    }
}
