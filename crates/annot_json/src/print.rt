//! The text of a bundle.
ghost use Rattle.std.specs.Prelude.{◌≡◌, ◌≤◌, IfOk, Some, map, false, true};
ghost use Rattle.serde_json.specs.Data.{depth};
ghost use Rattle.serde_json.specs.Read.{read, max_depth};
ghost use Rattle.serde_json.specs.View.{view};
ghost use Rattle.serde_json.specs.Written.{compact_text, has_float};
ghost use Rattle.bundle_state.specs.Built.{FitsConfig};
ghost use Rattle.std.specs.List.{list_all};
ghost use Rattle.annot_json.specs.Inner.Laws.{has_read_ids, remade};
ghost use Rattle.annot_json.specs.Given.{given_levels};
ghost use Rattle.annot_json.specs.Texts.{list_data, level_data, bundle_data, printed};

use crate::values::{level_value, links_value};
use bundle_state::Bundle;
use db_config::Config;
use emu_names::{Memory, Text};
use serde_json::{Map, Value, json};
use std::alloc::Global;

// The levels, in the order of the configuration.
#[tactic(auto, using(crate::proofs::Shown::level_there, crate::proofs::Shown::levels_more))]
fn levels_value(alloc: Global, config: &Config, bundle: &Bundle) -> Result<Value, Memory>
    requires { FitsConfig config.now bundle.now }
    ensures value { IfOk result (λ v.
        view v ≡ list_data (map level_data (given_levels config.now.levels bundle.now.levels))) }
    ensures ids { IfOk result (λ _. list_all has_read_ids bundle.now.levels ≡ true) }
{
    let defs = config.parts().levels.as_slice();
    let mut values = Vec::new(alloc);
    for place in 0..defs.len() {
        let value = level_value(alloc, &defs[place], bundle.level(place))?;
        values.push(value)?;
    }
    Ok(Value::from(values))
}

// The bundle.
fn bundle_value(alloc: Global, config: &Config, bundle: &Bundle) -> Result<Value, Memory>
    requires { FitsConfig config.now bundle.now }
    ensures value { IfOk result (λ v. view v ≡ bundle_data config.now bundle.now) }
    ensures ids { IfOk result (λ _. list_all has_read_ids bundle.now.levels ≡ true) }
{
    let levels = levels_value(alloc, config, bundle)?;
    let links = links_value(alloc, bundle.links())?;
    let annotates = json!(in alloc; bundle.annotates().as_str())?;
    let name = json!(in alloc; bundle.key().bundle.as_str())?;
    let mut members = Map::new(alloc);
    serde_json::put(&mut members, alloc, "annotates", annotates)?;
    serde_json::put(&mut members, alloc, "levels", levels)?;
    serde_json::put(&mut members, alloc, "links", links)?;
    serde_json::put(&mut members, alloc, "name", name)?;
    serde_json::put(
        &mut members,
        alloc,
        "sampleRate",
        Value::from(bundle.rate()),
    )?;
    Ok(Value::from(members))
}

// The text of a value, compact.
fn text_of(alloc: Global, value: &Value) -> Result<Text, Memory>
    ensures text { IfOk result (λ text. has_float (view value.now) ≡ false
        → text ≡ compact_text (view value.now)) }
    ensures reads { IfOk result (λ text. depth (view value.now) ≤ max_depth
        → read text ≡ Some (view value.now)) }
{
    let text = value.to_string(alloc)?;
    Text::new(alloc, text.as_str())
}

/// The text of a bundle that fits the configuration (EMU-SDMS Manual, "The emuDB format":
/// `_annot.json`): all levels in the order of the configuration, all labels of an item in the order of
/// the level's attributes, the links in the order of the list. It is one JSON object, printed compact,
/// with the members of each object in the order of their names' bytes, and no line feed behind it. Read
/// and built with the bundle's key it makes the same bundle. The only refusal is want of memory.
pub fn print_annot(alloc: Global, config: &Config, bundle: &Bundle) -> Result<Text, Memory>
    requires { FitsConfig config.now bundle.now }
    ensures text { IfOk result (λ text. text ≡ printed config.now bundle.now) }
    ensures reads { IfOk result (λ text. read text ≡ Some (bundle_data config.now bundle.now)) }
    ensures again { IfOk result (λ text.
        remade config.now bundle.now.key text ≡ Some bundle.now) }
{
    // Asked for what they promise: the configuration is valid, and the bundle keeps its rules.
    let _parts = config.parts();
    let _count = bundle.item_count();
    let value = bundle_value(alloc, config, bundle)?;
    text_of(alloc, &value)
}
