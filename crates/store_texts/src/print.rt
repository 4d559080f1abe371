//! Lines of JSON: last lines of refusals and of a damaged store, what was done, and entries.
ghost use Rattle.std.specs.Prelude.{◌≡◌, ◌++◌, ◌∷◌, [], IfOk};
ghost use Rattle.reply_texts.specs.Members.{line_text};
ghost use Rattle.store_texts.specs.Causes.{refused_text};
ghost use Rattle.store_texts.specs.Texts.{damaged_text, done_text, entry_data, from_text, mark_text};

use crate::causes::refused_value;
use crate::faults::Refused;
use crate::values::{damaged_value, done_value, entry_value, from_value, mark_value};
use edit_rules::Noted;
use emu_names::{Memory, SessionNo, Text};
use reply_texts::print_value;
use std::alloc::Global;

/// A text on a line of its own. The only refusal is want of memory.
pub(crate) fn text_line(alloc: Global, text: &Text) -> Result<Text, Memory>
    ensures { IfOk result (λ line. line ≡ text.now ++ 10 ∷ []) }
{
    let mut line = String::from_str(alloc, text.as_str())?;
    line.push_str("\n")?;
    Text::from_string(line)
}

/// The last line of a command that is refused, with the status 10: an object with the cause and, each where
/// the refusal has it, the members `at`, `entry`, `file`, `id`, `name`, `path`, `place`, `tier`, `wanted` and `what`.
/// The only refusal is want of memory.
pub fn print_refused(alloc: Global, refused: &Refused) -> Result<Text, Memory>
    ensures { IfOk result (λ text. text ≡ refused_text refused.now) }
{
    let value = refused_value(alloc, refused)?;
    print_value(alloc, &value)
}

/// The last line for a store that stands for no history, with the status 7; `at` is the place of the damage
/// in bytes, counted from 0. The only refusal is want of memory.
pub fn print_damaged(alloc: Global, at: u64) -> Result<Text, Memory>
    ensures { IfOk result (λ text. text ≡ damaged_text at) }
{
    let value = damaged_value(alloc, at)?;
    print_value(alloc, &value)
}

/// The line of a command that has added bundles, after which the store has `n` entries. The only refusal is
/// want of memory.
pub fn print_done(alloc: Global, n: u64, command: &str) -> Result<Text, Memory>
    ensures { IfOk result (λ text. text ≡ done_text n command.now) }
{
    let value = done_value(alloc, n, command)?;
    print_value(alloc, &value)
}

/// The line that says how many entries stood before a live run. The only refusal is want of memory.
pub fn print_from(alloc: Global, n: u64) -> Result<Text, Memory>
    ensures { IfOk result (λ text. text ≡ from_text n) }
{
    let value = from_value(alloc, n)?;
    print_value(alloc, &value)
}

/// The line of a new entry of a live run: its place in the history, counted from 1, its line and its session. The only
/// refusal is want of memory.
pub fn print_mark(alloc: Global, at: u64, line: u32, session: SessionNo) -> Result<Text, Memory>
    ensures { IfOk result (λ text. text ≡ mark_text at line session.0) }
{
    let value = mark_value(alloc, at, line, session)?;
    print_value(alloc, &value)
}

/// The line of an entry at its place.
pub(crate) fn entry_line(alloc: Global, at: u64, entry: &Noted) -> Result<Text, Memory>
    ensures { IfOk result (λ text. text ≡ line_text (entry_data at entry.now)) }
{
    let value = entry_value(alloc, at, entry)?;
    print_value(alloc, &value)
}
