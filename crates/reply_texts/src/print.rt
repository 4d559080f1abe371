//! The texts of replies and of values.
ghost use Rattle.std.specs.Prelude.{◌≡◌, IfOk, false};
ghost use Rattle.serde_json.specs.View.{view};
ghost use Rattle.serde_json.specs.Written.{has_float};
ghost use Rattle.reply_texts.specs.Inner.Rows.{IsBeforeRows, after_rows};
ghost use Rattle.reply_texts.specs.Members.{line_text};
ghost use Rattle.reply_texts.specs.Texts.{refusal_data, reply_text};

use crate::refusals::put_refusal;
use crate::replies::{push_answer, push_head};
use emu_names::{Memory, Text};
use serde_json::{Map, Value};
use session_core::{Refusal, Reply};
use std::alloc::Global;

/// A value on a line of its own (RFC 8259, with no white space). The only refusal is want of memory.
#[tactic(auto, unfolding(crate::specs::Members::line_text))]
pub fn print_value(alloc: Global, value: &Value) -> Result<Text, Memory>
    ensures { IfOk result (λ text. has_float (view value.now) ≡ false
        → text ≡ line_text (view value.now)) }
{
    let mut line = value.to_string(alloc)?;
    line.push_str("\n")?;
    Text::from_string(line)
}

/// A refusal as the object of a reply.
pub(crate) fn refusal_value(alloc: Global, refusal: &Refusal) -> Result<Value, Memory>
    ensures { IfOk result (λ v. view v ≡ refusal_data refusal.now) }
{
    let mut members = Map::new(alloc);
    put_refusal(&mut members, alloc, "rule", refusal)?;
    Ok(Value::from(members))
}

/// The text of a reply: one line, with its line feed. The only refusal is want of memory.
pub fn print_reply(alloc: Global, reply: &Reply) -> Result<Text, Memory>
    ensures { IfOk result (λ text. text ≡ reply_text reply.now) }
{
    let mut out = String::new(alloc);
    push_head(&mut out, reply.line, reply.n)?;
    push_answer(&mut out, alloc, &reply.answer)?;
    out.push_str("}\n")?;
    Text::from_string(out)
}

/// The text of a reply that lists rows, up to the opening of their list. Behind it come the texts of the rows, with a
/// comma between each two, and [`after_rows`]. The only refusal is want of memory.
pub fn print_before_rows(alloc: Global, reply: &Reply) -> Result<Text, Memory>
    ensures { IfOk result (λ text. IsBeforeRows text reply.now) }
{
    let mut out = String::new(alloc);
    push_head(&mut out, reply.line, reply.n)?;
    out.push_str(",\"segments\":[")?;
    Text::from_string(out)
}

/// What a reply that lists rows has behind them.
pub fn after_rows() -> &'static str
    ensures { result.now ≡ after_rows }
{
    "]}\n"
}
