//! Lines as JSON values.
ghost use Rattle.std.specs.Prelude.{◌≡◌, IfOk};
ghost use Rattle.serde_json.specs.View.{view};
ghost use Rattle.store_texts.specs.Texts.{damaged_data, done_data, entry_data, from_data, mark_data};

use edit_rules::Noted;
use emu_names::{Memory, SessionNo};
use serde_json::{Value, json};
use std::alloc::Global;

/// The object of the last line for a damaged store.
pub(crate) fn damaged_value(alloc: Global, at: u64) -> Result<Value, Memory>
    ensures { IfOk result (λ v. view v ≡ damaged_data at) }
{
    Ok(json!(in alloc; {"at": at, "cause": "Damaged", "status": 7u8})?)
}

/// The object of the line of a command that has added bundles.
pub(crate) fn done_value(alloc: Global, n: u64, command: &str) -> Result<Value, Memory>
    ensures { IfOk result (λ v. view v ≡ done_data n command.now) }
{
    Ok(json!(in alloc; {"n": n, "ok": command})?)
}

/// The object of the line that says how many entries stood before a run.
pub(crate) fn from_value(alloc: Global, n: u64) -> Result<Value, Memory>
    ensures { IfOk result (λ v. view v ≡ from_data n) }
{
    Ok(json!(in alloc; {"from": n})?)
}

/// The object of a new entry's place, line and session.
pub(crate) fn mark_value(
    alloc: Global,
    at: u64,
    line: u32,
    session: SessionNo,
) -> Result<Value, Memory>
    ensures { IfOk result (λ v. view v ≡ mark_data at line session.0) }
{
    Ok(json!(in alloc; {"at": at, "line": line, "s": session.0})?)
}

/// The object of an entry at its place.
pub(crate) fn entry_value(alloc: Global, at: u64, entry: &Noted) -> Result<Value, Memory>
    ensures { IfOk result (λ v. view v ≡ entry_data at entry.now) }
{
    Ok(json!(in alloc; {
        "at": at,
        "do": entry.word(),
        "line": entry.line(),
        "s": entry.session().0
    })?)
}
