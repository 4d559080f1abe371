//! Where a request comes from, and the replies to it that are no answers of a query.
ghost use Rattle.session_core.specs.Undos.{undo_refusal};
ghost use Rattle.session_core.specs.declared.line.Request.{Request};
ghost use Rattle.session_core.specs.Inner.Kept.{grid_told, head_line, head_reply};
ghost use Rattle.session_core.specs.Inner.Told.{commit_reply, or_memory};
ghost use Rattle.session_core.specs.Answers.{memory, place_shown, rule_refusal};
ghost use Rattle.session_core.specs.Steps.{reply_of};
ghost use Rattle.std.specs.Prelude.{◌≡◌, None};

use crate::line::{Answer, Command, Refusal, Reply};
use edit_undo::NoUndo;
use edit_undo::edit_rules::{Breach, EditFault};
use emu_names::{Memory, SessionNo};
use textgrid::GridFault;

/// Where a request comes from, and its command.
#[derive(Clone, Copy)]
pub struct Head {
    /// The line's number.
    pub line: u32,
    /// The line's session.
    pub session: SessionNo,
    /// The line's command.
    pub command: Command,
}

impl Head {
    /// The reply to the line.
    pub fn reply(&self, n: Option<u64>, answer: Answer) -> Reply
        ensures { result ≡ head_reply self.now n answer }
    {
        Reply {
            line: self.line,
            session: self.session,
            n,
            answer,
        }
    }
}

/// The place of the edit that breaks a rule, where it is told: the act of the command is a list of edits.
fn place_shown(command: Command, place: u32) -> Option<u32>
    ensures { result ≡ place_shown command place }
{
    match command {
        Command::Edits | Command::Undo => Some(place),
        _ => None,
    }
}

/// The refusal of an act by the rule that it breaks. The place of the edit is told where the act of the command is a
/// list of edits, also a list of one.
pub fn refuse_rule(command: Command, breach: Breach) -> Refusal
    ensures { result ≡ rule_refusal command breach }
{
    let place = place_shown(command, breach.place);
    Refusal::Rule {
        rule: breach.rule,
        place,
    }
}

/// The refusal of an `undo` of a line that nothing takes back.
pub fn refuse_undo(reason: NoUndo) -> Refusal
    ensures { result ≡ undo_refusal reason }
{
    match reason {
        NoUndo::NoInverse => Refusal::NoInverse,
        NoUndo::TooManyEdits => Refusal::TooManyEdits,
    }
}

/// The reply to a line whose TextGrid has a fault. Want of memory is answered as such, with no number.
pub fn refuse_grid(head: Head, n: u64, fault: GridFault) -> Reply
    ensures { result ≡ grid_told head n fault }
{
    match fault {
        GridFault::Memory => head.reply(None, Answer::Refused(Refusal::Memory)),
        _ => head.reply(Some(n), Answer::Refused(Refusal::Grid(fault))),
    }
}

/// The reply to a line at which memory ran out.
pub fn memory_reply(line: u32, session: SessionNo) -> Reply
    ensures { result ≡ reply_of line session None memory }
{
    Reply {
        line,
        session,
        n: None,
        answer: Answer::Refused(Refusal::Memory),
    }
}

/// The reply that was made for a line, or that memory ran out at it.
pub fn or_memory(head: Head, made: Result<Reply, Memory>) -> Reply
    ensures { result ≡ or_memory head made }
{
    match made {
        Ok(reply) => reply,
        Err(_) => memory_reply(head.line, head.session),
    }
}

/// The reply to a line whose act was committed with this answer.
pub fn commit_reply(head: Head, made: Result<u64, EditFault>) -> Reply
    ensures { (request : Request) → result ≡ commit_reply (head_line head request) made }
{
    match made {
        Ok(n) => head.reply(Some(n), Answer::Done(head.command)),
        Err(EditFault::HistoryFull(n)) => {
            head.reply(Some(n), Answer::Refused(Refusal::HistoryFull))
        }
        Err(EditFault::Broken(breach, n)) => {
            head.reply(Some(n), Answer::Refused(refuse_rule(head.command, breach)))
        }
        Err(EditFault::StoreFull(n)) => head.reply(Some(n), Answer::Refused(Refusal::StoreFull)),
        Err(EditFault::Disk) => head.reply(None, Answer::Refused(Refusal::Disk)),
        Err(EditFault::Memory) => head.reply(None, Answer::Refused(Refusal::Memory)),
    }
}
