//! What an edit of the configuration makes of it.
ghost use Rattle.emu_names.specs.Inner.Gives.{GivesOrBroken};
ghost use Rattle.edit_rules.specs.Acts.{config_changed};

use crate::acts::ConfigEdit;
use config_additions::{with_attribute, with_definition, with_level};
use db_config::Config;
use emu_names::Fault;
use std::alloc::Global;

/// The configuration behind an edit of it, or the rule that the edit breaks first, or want of memory.
pub fn change_config(alloc: Global, config: &Config, edit: &ConfigEdit) -> Result<Config, Fault>
    ensures { GivesOrBroken result (config_changed edit.now config.now) }
{
    match edit {
        ConfigEdit::AddLevel { level } => with_level(alloc, config, level),
        ConfigEdit::AddAttribute { level, attribute } => {
            with_attribute(alloc, config, level, attribute)
        }
        ConfigEdit::AddLinkDefinition { kind, upper, lower } => {
            with_definition(alloc, config, *kind, upper, lower)
        }
    }
}
