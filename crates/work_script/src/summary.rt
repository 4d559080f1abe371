//! The summary of a run of the script of work.
ghost use Rattle.std.specs.Prelude.{◌≡◌, IfOk, IfSome};
ghost use Rattle.std.specs.List.{list_all};
ghost use Rattle.work_script.specs.Inner.Replies.{GivesRows, HasRows, is_taken};
ghost use Rattle.work_script.specs.Summary.{summary_text};

use emu_names::{Memory, Text};
use live_run::{Answer, Reply};
use std::alloc::Global;

/// What was found in a run of the script of work.
#[derive(Clone, Copy, Debug, PartialEq, Eq)]
pub struct Summary {
    /// How many bundles there are.
    pub bundles: u32,
    /// How many items they have together.
    pub items: u32,
    /// How many rows the first query has.
    pub first: u64,
    /// How many rows the second query has.
    pub second: u64,
    /// How many rows the third query has.
    pub third: u64,
    /// How many rows the fourth query has.
    pub fourth: u64,
}

/// Whether an answer is no refusal.
fn is_taken(answer: &Answer) -> bool
    ensures { result ≡ is_taken answer.now }
{
    match answer {
        Answer::Done(_) | Answer::Segments(_) => true,
        Answer::Refused(_) => false,
    }
}

/// Whether no line was refused.
pub(crate) fn are_taken(replies: &[Reply]) -> bool
    ensures { result ≡ list_all (λ r. is_taken r.answer) replies.now }
{
    for reply in replies {
        if !is_taken(&reply.answer) {
            return false;
        }
    }
    true
}

/// How many rows a reply has, where it answers this line over the state after so many edits.
fn rows_of(reply: &Reply, line: u32, edits: u64) -> Option<u64>
    ensures { IfSome result (GivesRows reply.now line edits) }
{
    if reply.line != line || reply.n != Some(edits) {
        return None;
    }
    match &reply.answer {
        Answer::Segments(rows) => Some(rows.len() as u64),
        Answer::Done(_) | Answer::Refused(_) => None,
    }
}

/// How many rows a line was answered over the state after so many edits, where it was answered rows over that state.
pub(crate) fn rows_at(replies: &[Reply], line: u32, edits: u64) -> Option<u64>
    ensures { IfSome result (HasRows replies.now line edits) }
{
    for reply in replies {
        if let Some(count) = rows_of(reply, line, edits) {
            return Some(count);
        }
    }
    None
}

/// The line of a summary. The only refusal is want of memory.
pub(crate) fn summary_text(alloc: Global, summary: Summary) -> Result<Text, Memory>
    ensures { IfOk result (λ text. text ≡ summary_text summary) }
{
    let text = format!(in alloc;
        "{{\"bundles\":{},\"items\":{},\"rows\":[{},{},{},{}]}}\n",
        summary.bundles, summary.items, summary.first, summary.second, summary.third, summary.fourth
    )?;
    Text::from_string(text)
}
