//! The text of a history.
ghost use Rattle.std.specs.Prelude.{◌≡◌, ◌++◌, IfOk, OnOk, string_bytes};
ghost use Rattle.reply_texts.specs.Members.{line_text};
ghost use Rattle.store_texts.specs.Texts.{entry_data, lines_from, history_text};

use crate::print::entry_line;
use edit_rules::{Entries, Noted};
use emu_names::{Memory, Text};
use std::alloc::Global;

/// Writes the line of an entry at its place. The only refusal is want of memory.
fn push_entry(out: &mut String, alloc: Global, at: u64, entry: &Noted) -> Result<(), Memory>
    ensures { OnOk result (string_bytes out.new
        ≡ string_bytes out.old ++ line_text (entry_data at entry.now)) }
{
    let line = entry_line(alloc, at, entry)?;
    out.push_str(line.as_str())?;
    Ok(())
}

/// Writes a line for each entry. The only refusal is want of memory.
fn push_entries(out: &mut String, alloc: Global, entries: &[Noted]) -> Result<(), Memory>
    ensures { OnOk result (string_bytes out.new ≡ string_bytes out.old ++ lines_from 1 entries.now) }
{
    for (place, entry) in entries.iter().enumerate() {
        push_entry(out, alloc, place as u64 + 1, entry)?;
    }
    Ok(())
}

/// The text of a history: a line for each entry, with its place counted from 1, the name of its command, its
/// line and its session. The only refusal is want of memory.
#[tactic(auto, unfolding(crate::specs::Texts::history_text))]
pub fn history_text(alloc: Global, entries: &Entries) -> Result<Text, Memory>
    ensures { IfOk result (λ text. text ≡ history_text entries.now) }
{
    let mut out = String::new(alloc);
    push_entries(&mut out, alloc, entries.as_slice())?;
    Text::from_string(out)
}
