//! The text of a configuration.
ghost use Rattle.std.specs.Prelude.{◌≡◌, ◌≤◌, IfOk, OnOk, Some, false};
ghost use Rattle.serde_json.specs.Data.{depth, no_members, object};
ghost use Rattle.serde_json.specs.Read.{read, max_depth};
ghost use Rattle.serde_json.specs.View.{view, members_view};
ghost use Rattle.serde_json.specs.Written.{compact_text, has_float};
ghost use Rattle.config_json.specs.Texts.{config_data, printed};
ghost use Rattle.config_json.specs.Inner.Texts.{reread};

use crate::values::{groups_value, levels_value, links_value, tracks_value};
use db_config::Config;
use emu_names::{Memory, Text};
use serde_json::{Map, Value, json};
use std::alloc::Global;

// Puts the members of a configuration.
fn put_members(
    members: &mut Map<String, Value>,
    alloc: Global,
    config: &Config,
) -> Result<(), Memory>
    requires { members_view members.old.entries ≡ no_members }
    ensures { OnOk result (object (members_view members.new.entries) ≡ config_data config.now) }
{
    let parts = config.parts();
    let uuid = json!(in alloc; parts.uuid.as_str())?;
    serde_json::put(members, alloc, "UUID", uuid)?;
    let groups = groups_value(alloc, parts.groups.as_slice())?;
    serde_json::put(members, alloc, "labelGroups", groups)?;
    let levels = levels_value(alloc, parts.levels.as_slice())?;
    serde_json::put(members, alloc, "levelDefinitions", levels)?;
    let links = links_value(alloc, parts.levels.as_slice(), parts.links.as_slice())?;
    serde_json::put(members, alloc, "linkDefinitions", links)?;
    let extension = json!(in alloc; parts.extension.as_str())?;
    serde_json::put(members, alloc, "mediafileExtension", extension)?;
    let name = json!(in alloc; parts.name.as_str())?;
    serde_json::put(members, alloc, "name", name)?;
    let tracks = tracks_value(alloc, parts.tracks.as_slice())?;
    serde_json::put(members, alloc, "ssffTrackDefinitions", tracks)?;
    Ok(())
}

// The configuration.
fn config_value(alloc: Global, config: &Config) -> Result<Value, Memory>
    ensures { IfOk result (λ v. view v ≡ config_data config.now) }
{
    let mut members = Map::new(alloc);
    match put_members(&mut members, alloc, config) {
        Ok(()) => Ok(Value::from(members)),
        Err(memory) => {
            drop(members);
            Err(memory)
        }
    }
}

// The text of a value, compact.
fn text_of(alloc: Global, value: &Value) -> Result<Text, Memory>
    ensures text { IfOk result (λ text. has_float (view value.now) ≡ false
        → text ≡ compact_text (view value.now)) }
    ensures reads { IfOk result (λ text. depth (view value.now) ≤ max_depth
        → read text ≡ Some (view value.now)) }
{
    let text = value.to_string(alloc)?;
    Text::new(alloc, text.as_str())
}

/// The text of a configuration (EMU-SDMS Manual, "The emuDB format": `_DBconfig.json`). It is one JSON object,
/// printed compact, with the members of each object in the order of their names' bytes, and no line feed
/// behind it. All lists are there, and legal labels where they are given. Read again it is the same
/// configuration. The only refusal is want of memory.
pub fn print_config(alloc: Global, config: &Config) -> Result<Text, Memory>
    ensures text { IfOk result (λ text. text ≡ printed config.now) }
    ensures reads { IfOk result (λ text. read text ≡ Some (config_data config.now)) }
    ensures again { IfOk result (λ text. reread text ≡ Some config.now) }
{
    // Asked for what it promises: the configuration keeps its rules.
    let _parts = config.parts();
    let value = config_value(alloc, config)?;
    text_of(alloc, &value)
}
