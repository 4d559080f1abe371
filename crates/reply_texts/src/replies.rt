//! The text of a reply, put together from its pieces.
ghost use Rattle.std.specs.Prelude.{◌≡◌, ◌++◌, OnOk, codes, string_bytes};
ghost use Rattle.session_core.specs.segment_list.Inner.Texts.{rows_text};
ghost use Rattle.reply_texts.specs.Inner.Pieces.{answer_piece, done_piece, edits_piece, head_piece, number_behind, refused_piece};
ghost use Rattle.reply_texts.specs.Texts.{command_word};

use crate::print::refusal_value;
use emu_names::Memory;
use itoa::Buffer;
use session_core::segment_list::Listing;
use session_core::{Answer, Command, Refusal};
use std::alloc::Global;

/// The word of a command.
fn word_of_command(command: Command) -> &'static str
    ensures { result.now ≡ command_word command }
{
    match command {
        Command::Config => "config",
        Command::AddBundle => "add_bundle",
        Command::AddTextgrid => "add_textgrid",
        Command::DropBundle => "drop_bundle",
        Command::AddItem => "add_item",
        Command::RemoveItem => "remove_item",
        Command::SetLabel => "set_label",
        Command::SetSegment => "set_segment",
        Command::MoveBoundary => "move_boundary",
        Command::SetPoint => "set_point",
        Command::Split => "split",
        Command::Merge => "merge",
        Command::AddLink => "add_link",
        Command::RemoveLink => "remove_link",
        Command::LinkTimes => "link_times",
        Command::Edits => "edits",
        Command::AddLevel => "add_level",
        Command::AddAttribute => "add_attribute",
        Command::AddLinkDefinition => "add_link_definition",
        Command::Undo => "undo",
        Command::Query => "query",
        Command::Look => "look",
        Command::Finish => "finish",
        Command::After => "after",
    }
}

/// Writes a number behind a text. The only refusal is want of memory.
fn push_number(out: &mut String, before: &str, n: u64) -> Result<(), Memory>
    ensures { OnOk result (string_bytes out.new ≡ string_bytes out.old ++ number_behind before.now n) }
{
    out.push_str(before)?;
    let mut digits = Buffer::new();
    out.push_str(digits.format(n))?;
    Ok(())
}

/// Writes the number of edits, where there is one. The only refusal is want of memory.
fn push_edits(out: &mut String, n: Option<u64>) -> Result<(), Memory>
    ensures { OnOk result (string_bytes out.new ≡ string_bytes out.old ++ edits_piece n) }
{
    match n {
        Some(n) => push_number(out, ",\"n\":", n),
        None => Ok(()),
    }
}

/// Writes what every reply begins with: its line, and the number of edits where it has one. The only
/// refusal is want of memory.
pub(crate) fn push_head(out: &mut String, line: u32, n: Option<u64>) -> Result<(), Memory>
    ensures { OnOk result (string_bytes out.new ≡ string_bytes out.old ++ head_piece line n) }
{
    push_number(out, "{\"line\":", line as u64)?;
    push_edits(out, n)?;
    Ok(())
}

/// Writes the command that was done. The only refusal is want of memory.
fn push_done(out: &mut String, command: Command) -> Result<(), Memory>
    ensures { OnOk result (string_bytes out.new ≡ string_bytes out.old ++ done_piece command) }
{
    out.push_str(",\"ok\":\"")?;
    out.push_str(word_of_command(command))?;
    out.push_str("\"")?;
    Ok(())
}

/// Writes the rows of a segment list. The only refusal is want of memory.
fn push_segments(out: &mut String, rows: &Listing) -> Result<(), Memory>
    ensures { OnOk result (string_bytes out.new
        ≡ string_bytes out.old ++ (codes ",\"segments\":" ++ rows_text rows.now)) }
{
    out.push_str(",\"segments\":")?;
    rows.push_text(out)?;
    Ok(())
}

/// Writes a refusal. The only refusal of its own is want of memory.
fn push_refused(out: &mut String, alloc: Global, refusal: &Refusal) -> Result<(), Memory>
    ensures { OnOk result (string_bytes out.new ≡ string_bytes out.old ++ refused_piece refusal.now) }
{
    let value = refusal_value(alloc, refusal)?;
    let text = value.to_string(alloc)?;
    out.push_str(",\"refused\":")?;
    out.push_str(text.as_str())?;
    Ok(())
}

/// Writes what was done, the rows, or the refusal. The only refusal of its own is want of memory.
pub(crate) fn push_answer(out: &mut String, alloc: Global, answer: &Answer) -> Result<(), Memory>
    ensures { OnOk result (string_bytes out.new ≡ string_bytes out.old ++ answer_piece answer.now) }
{
    match answer {
        Answer::Done(command) => push_done(out, *command),
        Answer::Segments(rows) => push_segments(out, rows),
        Answer::Refused(refusal) => push_refused(out, alloc, refusal),
    }
}
