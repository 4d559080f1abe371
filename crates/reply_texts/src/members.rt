//! Members of objects that are made.
ghost use Rattle.std.specs.Prelude.{◌≡◌, [], ◌∷◌, OnOk};
ghost use Rattle.serde_json.specs.View.{members_view};
ghost use Rattle.reply_texts.specs.Members.{with_all};
ghost use Rattle.reply_texts.specs.Refusals.{number_at, text_at};

use emu_names::Memory;
use serde_json::{Map, Value, json};
use std::alloc::Global;

/// Puts a number at a name.
pub fn put_whole(
    members: &mut Map<String, Value>,
    alloc: Global,
    name: &str,
    n: u64,
) -> Result<(), Memory>
    ensures { OnOk result (members_view members.new.entries
        ≡ with_all (number_at name.now n ∷ []) (members_view members.old.entries)) }
{
    serde_json::put(members, alloc, name, Value::from(n))?;
    Ok(())
}

/// Puts a text at a name.
pub fn put_text(
    members: &mut Map<String, Value>,
    alloc: Global,
    name: &str,
    text: &str,
) -> Result<(), Memory>
    ensures { OnOk result (members_view members.new.entries
        ≡ with_all (text_at name.now text.now ∷ []) (members_view members.old.entries)) }
{
    let value = json!(in alloc; text)?;
    serde_json::put(members, alloc, name, value)?;
    Ok(())
}
