//! What the types of an entry keep: names are names, and what is added to the configuration has its lengths.
ghost use Rattle.std.specs.Prelude.{◌≡◌, true};
ghost use Rattle.edit_code.specs.Edits.{first_key};
ghost use Rattle.edit_code.specs.Names.{is_act, is_addition, is_entry};
ghost use Rattle.value_codes.specs.Names.{is_key};

use db_config::{attribute_is, level_is};
use edit_rules::{Act, ConfigEdit, Edits, Entry};
use value_codes::key_is;

/// The key of edits has names.
fn edits_are(edits: &Edits)
    ensures { is_key (first_key edits.now) ≡ true }
{
    let _count = edits.len();
    key_is(edits.get(0).key());
}

/// What is added to the configuration is a level, an attribute or a link definition.
fn addition_is(edit: &ConfigEdit)
    ensures { is_addition edit.now ≡ true }
{
    match edit {
        ConfigEdit::AddLevel { level } => level_is(level),
        ConfigEdit::AddAttribute { attribute, .. } => attribute_is(attribute),
        ConfigEdit::AddLinkDefinition { .. } => {}
    }
}

/// The parts of an act are such.
fn act_is(act: &Act)
    ensures { is_act act.now ≡ true }
{
    match act {
        Act::Edits(edits) => edits_are(edits),
        Act::Config(edit) => addition_is(edit),
    }
}

/// The parts of an entry are such.
pub(crate) fn entry_is(entry: &Entry)
    ensures { is_entry entry.now ≡ true }
{
    act_is(&entry.act);
}
