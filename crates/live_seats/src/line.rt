//! One line of a lane.
ghost use Rattle.std.specs.Prelude.{◌≡◌, ◌<◌, ◌≤◌, List, Option, Some, None, IfOk, OnErr, length};
ghost use Rattle.std.specs.Arc.{arc_value};
ghost use Rattle.std.specs.Option.{option_map};
ghost use mathlib.Core.List.{IsPrefix};
ghost use Rattle.version_tree.specs.Version.{state_of};
ghost use Rattle.query_workers.specs.session_core.declared.kept_acts.KeptAct.{KeptAct};
ghost use Rattle.query_workers.specs.session_core.declared.line.Request.TheVariants as requests;
ghost use Rattle.query_workers.specs.session_core.declared.slots.Held.{Held};
ghost use Rattle.query_workers.specs.session_core.Answers.{answer_over, reply_to};
ghost use Rattle.query_workers.specs.session_core.Steps.{session_places, slot};
ghost use Rattle.query_workers.specs.session_core.Inner.Told.{commit_reply, head_of};
ghost use Rattle.version_gate.specs.Lists.{EndsIn, entry};
ghost use Rattle.live_book.specs.Inner.Inverses.{numbered};
ghost use Rattle.live_book.specs.Inner.Live.{Count};
ghost use Rattle.live_seats.specs.Inner.Notes.{IsHeardFor, noted_of};
ghost use Rattle.live_seats.specs.Inner.Replies.{Finishes, GoesOn, IsGridRefused, IsQueried, IsTried, LooksAt, RepliesTo, kept_with};
ghost use Rattle.live_seats.specs.Inner.Seats.{IsAsked, TakesLine};

use crate::answered::Answered;
use crate::around::Around;
use crate::looks::Look;
use crate::notes::{Row, Told, hear, tell};
use edit_undo::edit_rules::Act;
use emu_disk::Disk;
use emu_io::{Gate, Moment};
use emu_names::Memory;
use live_book::{EditFault, Kept, Opening, Published, Share};
use query_workers::answer_over;
use query_workers::session_core::{
    Answer, Ask, Head, KeptActs, Line, Refusal, Reply, Request, Slots, commit_reply, lacks_memory,
    memory_reply, or_memory, refuse_grid, refuse_undo,
};
use std::sync::Wait;
use std::sync::ledger::Ledger;
use std::thread::Threads;
use textgrid::GridFault;
use version_gate::{LookFault, Pass, Snapshot};

/// Looks until the pass gives a version with at least this number of entries. The only refusal is want of memory.
fn look_past<R: Wait>(
    rt: &R,
    pass: &mut Pass<Published>,
    least: u64,
) -> Result<Snapshot<Published>, Memory>
    ensures gate { pass.new.gate ≡ pass.old.gate }
    ensures learnt { IsPrefix pass.old.list pass.new.list }
    ensures last { IfOk result (λ s. EndsIn pass.new.list (entry s.number (arc_value s.version))) }
    ensures least { IfOk result (λ s. least ≤ s.number) }
{
    for _ in rt.forever() {
        match pass.look() {
            Ok(snapshot) => {
                if least <= snapshot.number {
                    return Ok(snapshot);
                }
            }
            Err(LookFault::NoEntry) => {}
            Err(LookFault::Memory) => return Err(Memory),
        }
    }
    unreachable!()
}

/// The head of a line.
fn head(line: &Line) -> Head
    ensures { result ≡ head_of line.now }
{
    Head {
        line: line.line,
        session: line.session,
        command: line.command,
    }
}

/// Tries an act for a line, when the lock is free.
fn try_act<R: Wait, K: Opening + Row, N: Ledger, D: Disk, G: Gate>(
    rt: &R,
    around: &Around<'_, '_, K, N, D, G>,
    pass: &mut Pass<Published>,
    share: &mut Share<K, N>,
    line: &Line,
    act: &Act,
) -> Result<Kept, EditFault>
    requires gate { pass.old.gate ≡ K.opened.gate }
    requires part { 0 < share.old.parts }
    ensures gate { pass.new.gate ≡ pass.old.gate }
    ensures tried { IsTried K.opened pass.old.list pass.new.list share.old share.new line.now act.now result }
{
    let _seen = pass.seen();
    around.live.edit_kept(rt, around.alloc, pass, share, line.session, line.line, act)
}

/// Keeps what takes an accepted act back, in room that was made for it: the number of the answer.
fn keep(kept: &mut KeptActs, line: &Line, made: Result<Kept, EditFault>) -> Result<u64, EditFault>
    requires { 0 < kept.old.room }
    ensures number { result ≡ numbered made }
    ensures kept { kept.new.acts ≡ kept_with kept.old.acts line.now made }
{
    match made {
        Ok(accepted) => {
            kept.keep(line.session, line.line, accepted.inverse);
            Ok(accepted.n)
        }
        Err(fault) => Err(fault),
    }
}

/// The reply to a line whose act was tried with this answer; what takes an accepted act back is kept, in room that was
/// made for it.
fn reply_to_act(kept: &mut KeptActs, line: &Line, made: Result<Kept, EditFault>) -> Reply
    requires { 0 < kept.old.room }
    ensures told { result ≡ commit_reply line.now (numbered made) }
    ensures kept { kept.new.acts ≡ kept_with kept.old.acts line.now made }
{
    let number = keep(kept, line, made);
    commit_reply(head(line), number)
}

/// Refuses a TextGrid with a fault, over a version that the pass looks at: the reply. The only refusal is want of
/// memory.
fn answer_grid<R: Wait>(
    rt: &R,
    pass: &mut Pass<Published>,
    line: &Line,
    fault: GridFault,
) -> Result<Reply, Memory>
    ensures gate { pass.new.gate ≡ pass.old.gate }
    ensures learnt { IsPrefix pass.old.list pass.new.list }
    ensures refused { IfOk result (IsGridRefused pass.new.list line.now fault) }
{
    let Snapshot { number, version: _ } = look_past(rt, pass, 0)?;
    Ok(refuse_grid(head(line), number, fault))
}

/// The answer to a query over a version, as the reply to its line. The only refusal is want of memory.
fn answer_at<R: Threads + Sync, K: Opening + Row, N: Ledger, D: Disk, G: Gate + Sync>(
    rt: &R,
    around: &Around<'_, '_, K, N, D, G>,
    line: &Line,
    ask: &Ask,
    seen: &Snapshot<Published>,
) -> Result<Reply, Memory>
    ensures { IfOk result (λ reply. reply ≡ reply_to line.now (Some seen.now.number)
        (answer_over (state_of (arc_value seen.now.version).version) ask.now)) }
{
    let answer = answer_over(
        rt,
        around.alloc,
        &seen.version.version,
        ask,
        around.workers,
        line.line,
        around.gate,
    )?;
    Ok(Reply {
        line: line.line,
        session: line.session,
        n: Some(seen.number),
        answer,
    })
}

/// Answers a query over a version that the pass looks at: the reply. The only refusal is want of memory, also that at
/// which the query was read.
fn answer_query<R: Threads + Wait + Sync, K: Opening + Row, N: Ledger, D: Disk, G: Gate + Sync>(
    rt: &R,
    around: &Around<'_, '_, K, N, D, G>,
    pass: &mut Pass<Published>,
    line: &Line,
    ask: &Ask,
) -> Result<Reply, Memory>
    ensures gate { pass.new.gate ≡ pass.old.gate }
    ensures learnt { IsPrefix pass.old.list pass.new.list }
    ensures answered { IfOk result (IsQueried pass.new.list line.now ask.now) }
{
    if lacks_memory(ask) {
        return Err(Memory);
    }
    let seen = look_past(rt, pass, 0)?;
    answer_at(rt, around, line, ask, &seen)
}

/// Holds a version that the pass looks at for a look, if the session has none open: the reply. Want of memory changes
/// no look.
fn open_look<'a, R: Wait>(
    rt: &R,
    pass: &mut Pass<Published>,
    looks: &mut Slots<Look<'a>>,
    line: &Line,
    ask: &'a Ask,
) -> Result<Reply, Memory>
    requires place { line.now.session.0 < length looks.old }
    ensures gate { pass.new.gate ≡ pass.old.gate }
    ensures learnt { IsPrefix pass.old.list pass.new.list }
    ensures ok { IfOk result (LooksAt pass.new.list line.now ask.entry.now looks.old
        (slot looks.old line.now.session.0) looks.new) }
    ensures err { OnErr result (looks.new ≡ looks.old) }
{
    let place = line.session.0 as usize;
    match looks.get(place) {
        Some(_) => Ok(head(line).reply(None, Answer::Refused(Refusal::LookOpen))),
        None => {
            let Snapshot { number, version } = look_past(rt, pass, 0)?;
            looks.put(place, Some(Look::new(line.line, number, ask, version)));
            Ok(head(line).reply(Some(number), Answer::Done(line.command)))
        }
    }
}

/// Answers the session's open look and closes it: the reply. Want of memory, also that at which its query was read,
/// leaves it open.
fn close_look<R: Threads + Sync, K: Opening + Row, N: Ledger, D: Disk, G: Gate + Sync>(
    rt: &R,
    around: &Around<'_, '_, K, N, D, G>,
    looks: &mut Slots<Look<'_>>,
    line: &Line,
) -> Result<Reply, Memory>
    requires place { line.now.session.0 < length looks.old }
    ensures ok { IfOk result (Finishes line.now looks.old looks.new) }
    ensures err { OnErr result (looks.new ≡ looks.old) }
{
    let place = line.session.0 as usize;
    match looks.get(place) {
        None => Ok(head(line).reply(None, Answer::Refused(Refusal::NoLook))),
        Some(look) => {
            if look.lacks_memory() {
                return Ok(memory_reply(line.line, line.session));
            }
            let reply = look.answered(
                rt,
                around.alloc,
                around.workers,
                line.line,
                line.session,
                around.gate,
            )?;
            looks.put(place, None);
            Ok(reply)
        }
    }
}

/// Goes on from a number that was heard of a line: the reply. The only refusal is want of memory.
fn go_on<R: Wait>(
    rt: &R,
    pass: &mut Pass<Published>,
    line: &Line,
    heard: u64,
) -> Result<Reply, Memory>
    ensures gate { pass.new.gate ≡ pass.old.gate }
    ensures learnt { IsPrefix pass.old.list pass.new.list }
    ensures went { IfOk result (GoesOn pass.new.list line.now heard) }
{
    let Snapshot { number, version: _ } = look_past(rt, pass, heard)?;
    Ok(head(line).reply(Some(number), Answer::Done(line.command)))
}

/// Answers the act of a line: the reply. Room to keep what takes it back is made before; for want of it the line is
/// answered want of memory.
fn take_act<R: Wait, K: Opening + Row, N: Ledger, D: Disk, G: Gate>(
    rt: &R,
    around: &Around<'_, '_, K, N, D, G>,
    pass: &mut Pass<Published>,
    share: &mut Share<K, N>,
    kept: &mut KeptActs,
    line: &Line,
    act: &Act,
) -> Reply
    requires gate { pass.old.gate ≡ K.opened.gate }
    requires part { 0 < share.old.parts }
    requires place { line.now.session.0 < session_places }
    requires asks { line.now.request ≡ requests.Edit (Ok act.now) }
    ensures gate { pass.new.gate ≡ pass.old.gate }
    ensures replies { (looks : List (Option Held)) → RepliesTo K.opened pass.old.list pass.new.list share.old share.new
        looks looks kept.old.acts kept.new.acts line.now result None }
{
    match kept.make_room() {
        Ok(()) => {
            let made = try_act(rt, around, pass, share, line, act);
            reply_to_act(kept, line, made)
        }
        Err(Memory) => memory_reply(line.line, line.session),
    }
}

/// Answers an edit, or refuses the fault of its TextGrid: the reply.
fn take_edit<R: Wait, K: Opening + Row, N: Ledger, D: Disk, G: Gate>(
    rt: &R,
    around: &Around<'_, '_, K, N, D, G>,
    pass: &mut Pass<Published>,
    share: &mut Share<K, N>,
    kept: &mut KeptActs,
    line: &Line,
    given: &Result<Act, GridFault>,
) -> Reply
    requires gate { pass.old.gate ≡ K.opened.gate }
    requires part { 0 < share.old.parts }
    requires place { line.now.session.0 < session_places }
    requires asks { line.now.request ≡ requests.Edit given.now }
    ensures gate { pass.new.gate ≡ pass.old.gate }
    ensures replies { (looks : List (Option Held)) → RepliesTo K.opened pass.old.list pass.new.list share.old share.new
        looks looks kept.old.acts kept.new.acts line.now result None }
{
    match given {
        Ok(act) => take_act(rt, around, pass, share, kept, line, act),
        Err(fault) => or_memory(head(line), answer_grid(rt, pass, line, *fault)),
    }
}

/// Answers an `undo` of an earlier line by what is kept of that, where there is room to keep what takes the `undo`
/// back: the reply.
fn answer_undo<R: Wait, K: Opening + Row, N: Ledger, D: Disk, G: Gate>(
    rt: &R,
    around: &Around<'_, '_, K, N, D, G>,
    pass: &mut Pass<Published>,
    share: &mut Share<K, N>,
    kept: &mut KeptActs,
    line: &Line,
    earlier: u32,
) -> Reply
    requires gate { pass.old.gate ≡ K.opened.gate }
    requires part { 0 < share.old.parts }
    requires room { 0 < kept.old.room }
    requires place { line.now.session.0 < session_places }
    requires asks { line.now.request ≡ requests.Undo earlier }
    ensures gate { pass.new.gate ≡ pass.old.gate }
    ensures replies { (looks : List (Option Held)) → RepliesTo K.opened pass.old.list pass.new.list share.old share.new
        looks looks kept.old.acts kept.new.acts line.now result None }
{
    match kept.find(line.session, earlier) {
        None => head(line).reply(None, Answer::Refused(Refusal::NotAccepted)),
        Some(Err(reason)) => head(line).reply(None, Answer::Refused(refuse_undo(*reason))),
        Some(Ok(act)) => {
            let made = try_act(rt, around, pass, share, line, act);
            reply_to_act(kept, line, made)
        }
    }
}

/// Answers an `undo` of an earlier line: the reply. Room to keep what takes it back is made before; for want of it the
/// line is answered want of memory.
fn take_undo<R: Wait, K: Opening + Row, N: Ledger, D: Disk, G: Gate>(
    rt: &R,
    around: &Around<'_, '_, K, N, D, G>,
    pass: &mut Pass<Published>,
    share: &mut Share<K, N>,
    kept: &mut KeptActs,
    line: &Line,
    earlier: u32,
) -> Reply
    requires gate { pass.old.gate ≡ K.opened.gate }
    requires part { 0 < share.old.parts }
    requires place { line.now.session.0 < session_places }
    requires asks { line.now.request ≡ requests.Undo earlier }
    ensures gate { pass.new.gate ≡ pass.old.gate }
    ensures replies { (looks : List (Option Held)) → RepliesTo K.opened pass.old.list pass.new.list share.old share.new
        looks looks kept.old.acts kept.new.acts line.now result None }
{
    match kept.make_room() {
        Ok(()) => answer_undo(rt, around, pass, share, kept, line, earlier),
        Err(Memory) => memory_reply(line.line, line.session),
    }
}

/// Answers an `after`, once a number is noted for the line that it names: the reply, and what was heard.
fn take_after<'a, R: Wait, K: Opening + Row, N: Ledger, D: Disk, G: Gate>(
    rt: &R,
    around: &Around<'a, '_, K, N, D, G>,
    pass: &mut Pass<Published>,
    line: &Line,
    earlier: u32,
) -> (Reply, Told<'a, K>)
    requires cell { earlier < length K.cells }
    requires place { line.now.session.0 < session_places }
    requires asks { line.now.request ≡ requests.After earlier }
    ensures gate { pass.new.gate ≡ pass.old.gate }
    ensures named { result.1.line ≡ earlier }
    ensures replies { (count : Count) (looks : List (Option Held)) (acts : List KeptAct) →
        RepliesTo K.opened pass.old.list pass.new.list count count looks looks acts acts line.now result.0
        (Some result.1.noted) }
{
    let (told, heard) = hear(rt, around.cells, earlier);
    let reply = or_memory(head(line), go_on(rt, pass, line, heard));
    (reply, told)
}

/// The reply to a line of a session of the lane, and for an `after` what was heard.
fn reply_to_line<
    'a,
    R: Threads + Wait + Sync,
    K: Opening + Row,
    N: Ledger,
    D: Disk,
    G: Gate + Sync,
>(
    rt: &R,
    around: &Around<'a, '_, K, N, D, G>,
    pass: &mut Pass<Published>,
    share: &mut Share<K, N>,
    looks: &mut Slots<Look<'a>>,
    kept: &mut KeptActs,
    line: &'a Line,
) -> (Reply, Option<Told<'a, K>>)
    requires gate { pass.old.gate ≡ K.opened.gate }
    requires part { 0 < share.old.parts }
    requires asked { IsAsked (length K.cells) line.now }
    requires places { length looks.old ≡ session_places }
    ensures gate { pass.new.gate ≡ pass.old.gate }
    ensures heard { IsHeardFor line.entry.now.request result.1 }
    ensures replies { RepliesTo K.opened pass.old.list pass.new.list share.old share.new looks.old looks.new
        kept.old.acts kept.new.acts line.entry.now result.0 (option_map noted_of result.1) }
{
    match &line.request {
        Request::Edit(given) => {
            let reply = take_edit(rt, around, pass, share, kept, line, given);
            (reply, None)
        }
        Request::Undo(earlier) => {
            let reply = take_undo(rt, around, pass, share, kept, line, *earlier);
            (reply, None)
        }
        Request::Query(ask) => {
            let made = answer_query(rt, around, pass, line, ask);
            (or_memory(head(line), made), None)
        }
        Request::Look(ask) => {
            let made = open_look(rt, pass, looks, line, ask);
            (or_memory(head(line), made), None)
        }
        Request::Finish => {
            let made = close_look(rt, around, looks, line);
            (or_memory(head(line), made), None)
        }
        Request::After(earlier) => {
            let (reply, told) = take_after(rt, around, pass, line, *earlier);
            (reply, Some(told))
        }
    }
}

/// Answers a line of a session of the lane: what its reply is right for is told beside each history that the pass's
/// lists show. Then it notes how many entries the pass has seen, and only then tells the gate. Where the pass's look is
/// refused it looks again, an `after` waits for the line that it names, and an edit or an `undo` waits for the lock: it
/// keeps its promise if it returns.
pub(crate) fn take_line<
    'a,
    R: Threads + Wait + Sync,
    K: Opening + Row,
    N: Ledger,
    D: Disk,
    G: Gate + Sync,
>(
    rt: &R,
    around: &Around<'a, '_, K, N, D, G>,
    pass: &mut Pass<Published>,
    share: &mut Share<K, N>,
    looks: &mut Slots<Look<'a>>,
    kept: &mut KeptActs,
    line: &'a Line,
) -> Answered<'a, K>
    requires gate { pass.old.gate ≡ K.opened.gate }
    requires part { 0 < share.old.parts }
    requires asked { IsAsked (length K.cells) line.now }
    requires places { length looks.old ≡ session_places }
    ensures gate { pass.new.gate ≡ pass.old.gate }
    ensures taken { TakesLine K.opened pass.old.list pass.new.list share.old share.new looks.old looks.new
        kept.old.acts kept.new.acts line.entry.now result }
{
    let (reply, heard) = reply_to_line(rt, around, pass, share, looks, kept, line);
    let told = tell(rt, around.cells, line.line, pass.seen());
    around.gate.at(line.line, Moment::Answered);
    Answered::new(line, reply, told, heard)
}
