//! Acts that change a database.
ghost use Rattle.std.specs.Prelude.{◌≡◌, Ok, IfErr, OnErr, OnOk};
ghost use Rattle.edit_rules.specs.Effects.{in_turn, config_effect, effect};
ghost use Rattle.edit_rules.specs.Inner.Effects.{FindsBreach, IsFirstBreach};

use crate::acts::{Act, ChangeFault, ConfigEdit, Edits};
use crate::config_change::change_config;
use crate::database::Database;
use crate::list_change::{at_place, change};
use std::alloc::Global;

/// Changes a database as a list of edits does.
fn apply_edits(alloc: Global, database: &mut Database, edits: &Edits) -> Result<(), ChangeFault>
    ensures ok { OnOk result (in_turn 1 database.old edits.now ≡ Ok database.new) }
    ensures broken { IfErr result (λ fault. IsFirstBreach fault (in_turn 1 database.old edits.now)) }
    ensures err { OnErr result (database.new ≡ database.old) }
{
    let _count = database.len();
    let place = database.place_of(edits.key());
    let old = database.bundle_at(&place);
    let next = change(alloc, database.config(), database.counts(), old, edits)?;
    database.put(alloc, place, next)?;
    Ok(())
}

/// Changes a database as an edit of its configuration does.
#[tactic(auto, using(crate::proofs::Fits::extends_by, crate::proofs::Fits::valid_by, crate::proofs::Fits::done_by, crate::proofs::Fits::refused_by))]
fn apply_config(
    alloc: Global,
    database: &mut Database,
    edit: &ConfigEdit,
) -> Result<(), ChangeFault>
    ensures ok { OnOk result (config_effect database.old edit.now ≡ Ok database.new) }
    ensures broken { IfErr result (λ fault. IsFirstBreach fault (config_effect database.old edit.now)) }
    ensures err { OnErr result (database.new ≡ database.old) }
{
    let _count = database.len();
    match change_config(alloc, database.config(), edit) {
        Ok(config) => Ok(database.refit(alloc, config)?),
        Err(fault) => Err(at_place(1, fault)),
    }
}

/// Changes a database as an act does, or names the edit that breaks a rule first and the rule. After a refusal,
/// and after want of memory, the database is as before.
pub fn apply(alloc: Global, database: &mut Database, act: &Act) -> Result<(), ChangeFault>
    ensures ok { OnOk result (effect database.old act.now ≡ Ok database.new) }
    ensures broken { IfErr result (λ fault. IsFirstBreach fault (effect database.old act.now)) }
    ensures err { OnErr result (database.new ≡ database.old) }
{
    match act {
        Act::Edits(edits) => apply_edits(alloc, database, edits),
        Act::Config(edit) => apply_config(alloc, database, edit),
    }
}

/// Whether an act breaks no rule; else the edit that breaks one first and the rule, or want of memory.
pub fn check(alloc: Global, database: &Database, act: &Act) -> Result<(), ChangeFault>
    ensures { FindsBreach result (effect database.now act.now) }
{
    let mut copy = database.copy(alloc)?;
    apply(alloc, &mut copy, act)
}
