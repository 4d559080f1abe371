//! What one line does to the parts of a run in order.
ghost use Rattle.std.specs.Prelude.{◌≡◌, ◌<◌, length, Ok, IfOk, OnErr};
ghost use Rattle.edit_rules.specs.Effects.{after};
ghost use Rattle.query_workers.specs.session_core.declared.line.Request.{Request};
ghost use Rattle.query_workers.specs.session_core.Inner.Kept.{AreHeld, head_line, held_at, look_closed};
ghost use Rattle.query_workers.specs.session_core.Inner.Told.{commit_reply, or_memory};
ghost use Rattle.query_workers.specs.session_core.Steps.{session_places, slot};
ghost use Rattle.query_workers.specs.session_core.Undos.{latest_of};
ghost use Rattle.live_book.specs.Inner.Inverses.{numbered};
ghost use Rattle.session_run.specs.Inner.Taken.{CommitsAct, EditsBook, IsAnsweredAt, IsLookedAt, IsTaken, KeepsActs, UndoesBook, acts_behind};

use crate::looks::Look;
use crate::shown::look_at;
use edit_rules::Act;
use emu_disk::Disk;
use emu_names::Memory;
use live_book::{Book, EditFault, Kept, Published};
use query_workers::session_core::{
    Answer, Ask, Head, KeptActs, Line, Refusal, Reply, Request, Slots, commit_reply, memory_reply,
    or_memory, refuse_grid, refuse_undo,
};
use std::alloc::Global;
use std::sync::Wait;
use std::thread::Threads;
use textgrid::GridFault;
use version_gate::Pass;

/// The reply to a line whose act was committed with this answer. What takes an accepted act back is kept.
fn keep_made(kept: &mut KeptActs, head: Head, made: Result<Kept, EditFault>) -> Reply
    requires { 0 < kept.old.room }
    ensures reply { (request : Request) → result ≡ commit_reply (head_line head request) (numbered made) }
    ensures acts { kept.new.acts ≡ acts_behind kept.old.acts head made }
{
    match made {
        Ok(done) => {
            kept.keep(head.session, head.line, done.inverse);
            commit_reply(head, Ok(done.n))
        }
        Err(fault) => commit_reply(head, Err(fault)),
    }
}

/// Commits an act of a line, and keeps what takes it back where it is accepted, for which room is made first: the reply.
fn commit_act<D: Disk, R: Wait>(
    rt: &R,
    alloc: Global,
    book: &mut Book<D>,
    kept: &mut KeptActs,
    head: Head,
    act: &Act,
) -> Reply
    ensures { CommitsAct D.may_leave D.moment D.left_since D.faults
        book.old kept.old.acts head act.now result book.new kept.new.acts }
{
    match kept.make_room() {
        Err(Memory) => memory_reply(head.line, head.session),
        Ok(()) => {
            let made = book.commit_kept(rt, alloc, head.session, head.line, act);
            keep_made(kept, head, made)
        }
    }
}

/// Commits the act of a line, unless its TextGrid has a fault: the reply.
fn try_edit<D: Disk, R: Wait>(
    rt: &R,
    alloc: Global,
    book: &mut Book<D>,
    kept: &mut KeptActs,
    head: Head,
    given: Result<Act, GridFault>,
) -> Reply
    ensures { EditsBook D.may_leave D.moment D.left_since D.faults
        book.old kept.old.acts head given result book.new kept.new.acts }
{
    match given {
        Ok(act) => commit_act(rt, alloc, book, kept, head, &act),
        Err(fault) => refuse_grid(head, book.number(), fault),
    }
}

/// Commits what takes back an earlier line of the session, where that was accepted and something takes it back: the
/// reply. What takes it back is what was kept of it.
fn undo<D: Disk, R: Wait>(
    rt: &R,
    alloc: Global,
    book: &mut Book<D>,
    kept: &mut KeptActs,
    head: Head,
    earlier: u32,
) -> Reply
    ensures { UndoesBook D.may_leave D.moment D.left_since D.faults book.old kept.old.acts head
        (latest_of head.session.0 earlier kept.old.acts) result book.new kept.new.acts }
{
    match kept.find(head.session, earlier) {
        None => head.reply(None, Answer::Refused(Refusal::NotAccepted)),
        Some(Err(reason)) => head.reply(None, Answer::Refused(refuse_undo(*reason))),
        Some(Ok(act)) => match act.copy(alloc) {
            Err(Memory) => memory_reply(head.line, head.session),
            Ok(act) => commit_act(rt, alloc, book, kept, head, &act),
        },
    }
}

/// A query over the state after all entries.
fn hold<D: Disk, R: Wait>(
    rt: &R,
    book: &mut Book<D>,
    pass: &mut Pass<Published>,
    head: Head,
    ask: Ask,
) -> Result<Look, Memory>
    requires { pass.old.gate ≡ book.old.gate }
    ensures same { book.new ≡ book.old }
    ensures gate { pass.new.gate ≡ pass.old.gate }
    ensures look { IfOk result (λ look. look ≡ held_at head ask (length book.old.history) look.database) }
    ensures state { IfOk result (λ look. after book.old.config book.old.history ≡ Ok look.database) }
{
    let shown = look_at(rt, book, pass)?;
    Ok(Look::new(head, book.number(), ask, shown))
}

/// Answers a query over the state after all entries: the reply. The only refusal is want of memory.
fn answer_query<D: Disk, R: Threads + Wait + Sync>(
    rt: &R,
    alloc: Global,
    book: &mut Book<D>,
    pass: &mut Pass<Published>,
    head: Head,
    ask: Ask,
) -> Result<Reply, Memory>
    requires { pass.old.gate ≡ book.old.gate }
    ensures same { book.new ≡ book.old }
    ensures gate { pass.new.gate ≡ pass.old.gate }
    ensures ok { IfOk result (λ reply. IsAnsweredAt book.old.config book.old.history head ask reply) }
{
    let look = hold(rt, book, pass, head, ask)?;
    look.reply(rt, alloc, head.line, head.session)
}

/// Holds the state after all entries for a look, if the session has none open: the reply. Want of memory
/// changes no look.
fn open_look<D: Disk, R: Wait>(
    rt: &R,
    book: &mut Book<D>,
    pass: &mut Pass<Published>,
    looks: &mut Slots<Look>,
    head: Head,
    ask: Ask,
) -> Result<Reply, Memory>
    requires gate { pass.old.gate ≡ book.old.gate }
    requires place { head.session.0 < length looks.old }
    ensures same { book.new ≡ book.old }
    ensures gate { pass.new.gate ≡ pass.old.gate }
    ensures ok { IfOk result (λ reply.
        IsLookedAt book.old.config book.old.history head ask looks.old reply looks.new) }
    ensures err { OnErr result (looks.new ≡ looks.old) }
{
    let place = head.session.0 as usize;
    let n = book.history().len() as u64;
    match looks.get(place) {
        Some(_) => Ok(head.reply(None, Answer::Refused(Refusal::LookOpen))),
        None => {
            let look = hold(rt, book, pass, head, ask)?;
            looks.put(place, Some(look));
            Ok(head.reply(Some(n), Answer::Done(head.command)))
        }
    }
}

/// Answers the session's open look and closes it: the reply. Want of memory, also that at which its query was
/// read, leaves it open.
fn close_look<R: Threads + Sync>(
    rt: &R,
    alloc: Global,
    looks: &mut Slots<Look>,
    head: Head,
) -> Result<Reply, Memory>
    requires { head.session.0 < length looks.old }
    ensures ok { IfOk result (λ reply. (reply, looks.new) ≡
        look_closed head.line head.session looks.old (slot looks.old head.session.0)) }
    ensures err { OnErr result (looks.new ≡ looks.old) }
{
    let place = head.session.0 as usize;
    match looks.get(place) {
        None => Ok(head.reply(None, Answer::Refused(Refusal::NoLook))),
        Some(look) => {
            if look.lacks_memory() {
                return Ok(memory_reply(head.line, head.session));
            }
            let reply = look.answered(rt, alloc, head.line, head.session)?;
            looks.put(place, None);
            Ok(reply)
        }
    }
}

/// Answers a line.
pub(crate) fn take_line<D: Disk, R: Threads + Wait + Sync>(
    rt: &R,
    alloc: Global,
    book: &mut Book<D>,
    pass: &mut Pass<Published>,
    looks: &mut Slots<Look>,
    kept: &mut KeptActs,
    line: Line,
) -> Reply
    requires gate { pass.old.gate ≡ book.old.gate }
    requires held { AreHeld book.old.config book.old.history looks.old }
    requires acts { KeepsActs book.old.config book.old.history kept.old.acts }
    requires place { line.session.0 < session_places }
    ensures gate { pass.new.gate ≡ book.new.gate }
    ensures taken { IsTaken D.may_leave D.moment D.left_since D.faults
        book.old looks.old kept.old.acts line result book.new looks.new kept.new.acts }
{
    let head = Head {
        line: line.line,
        session: line.session,
        command: line.command,
    };
    match line.request {
        Request::Edit(given) => try_edit(rt, alloc, book, kept, head, given),
        Request::Undo(earlier) => undo(rt, alloc, book, kept, head, earlier),
        Request::Query(ask) => or_memory(head, answer_query(rt, alloc, book, pass, head, ask)),
        Request::Look(ask) => or_memory(head, open_look(rt, book, pass, looks, head, ask)),
        Request::Finish => or_memory(head, close_look(rt, alloc, looks, head)),
        Request::After(_) => head.reply(Some(book.number()), Answer::Done(head.command)),
    }
}
