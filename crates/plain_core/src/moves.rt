//! What one event does to the parts of the core, each part on its own.
ghost use Rattle.edit_undo.specs.edit_rules.Database.{DatabaseParts};
ghost use Rattle.edit_undo.specs.edit_rules.Effects.{after, effect};
ghost use Rattle.edit_undo.specs.edit_rules.Inner.Effects.{GivesOrBreach};
ghost use Rattle.edit_undo.specs.Inverse.{bundle_for, inverse_at};
ghost use Rattle.edit_undo.specs.Before.{IsBefore};
ghost use Rattle.bundle_state.specs.Built.{FitsConfig};
ghost use Rattle.emu_names.specs.Inner.Gives.{GivesOrBroken};
ghost use Rattle.session_core.specs.Undos.{latest_of};
ghost use Rattle.session_core.specs.Inner.Kept.{edit_accepted, edit_tried, given_tried, undo_tried, held_answer, held_at, look_closed, looked, query_closed, query_dropped, query_reply, ruled};
ghost use Rattle.session_core.specs.Queries.{lacks_memory};
ghost use Rattle.session_core.specs.Steps.{is_full as is_full_list, put_slot, slot};
ghost use Rattle.std.specs.Prelude.{◌≡◌, ◌<◌, None, Ok, Some, IfOk, IfSome, OnErr, OnOk, length, option_copied};

use crate::queries::answer;
use bundle_state::Bundle;
use db_config::Config;
use edit_undo::edit_rules::{Act, ChangeFault, Database, Entry, apply};
use edit_undo::{InverseFault, NoUndo, inverse};
use emu_names::limits::HISTORY_EDITS;
use emu_names::{Fault, Memory, Series, SessionNo};
use session_core::{
    Answer, Ask, Head, Held, KeptActs, Refusal, Reply, Slots, lacks_memory, memory_reply,
    refuse_grid, refuse_rule, refuse_undo,
};
use std::alloc::Global;
use textgrid::GridFault;

/// A history with all acts whole: its entries, in order.
pub type PlainHistory = Series<Entry>;

/// The database after a history, or the rule that it breaks first, or want of memory.
#[tactic(auto, using(crate::proofs::Ruled::ruled_made, crate::proofs::Ruled::ruled_broken))]
pub fn replay(alloc: Global, config: Config, history: &PlainHistory) -> Result<Database, Fault>
    ensures { GivesOrBroken result (ruled (after config history.now)) }
{
    let mut database = Database::new(alloc, config)?;
    for entry in history.as_slice() {
        match apply(alloc, &mut database, &entry.act) {
            Ok(()) => {}
            Err(ChangeFault::Broken(breach)) => return Err(Fault::Broken(breach.rule)),
            Err(ChangeFault::Memory) => return Err(Fault::Memory),
        }
    }
    Ok(database)
}

/// Whether a history has no room for one entry more.
fn is_full(entries: &PlainHistory) -> bool
    ensures { result ≡ is_full_list entries.now }
{
    HISTORY_EDITS <= entries.len()
}

/// The database that an act leaves, which shares what the act does not change.
fn changed(alloc: Global, database: &Database, act: &Act) -> Result<Database, ChangeFault>
    ensures { GivesOrBreach result (effect database.now act.now) }
{
    let mut next = database.copy(alloc)?;
    apply(alloc, &mut next, act)?;
    Ok(next)
}

/// The bundle that an act changes which breaks no rule, where it is there.
fn bundle_of<'a>(database: &'a Database, act: &Act) -> Option<&'a Bundle>
    requires { (next : DatabaseParts) × (effect database.now act.now ≡ Ok next) }
    ensures bundle { option_copied result ≡ bundle_for act.now database.now.bundles }
    ensures fits { IfSome (option_copied result) (λ b. FitsConfig database.now.config b) }
    ensures before { IsBefore database.now.config (option_copied result) act.now }
{
    let _count = database.len();
    match act {
        Act::Edits(edits) => {
            let _edits = edits.len();
            database.bundle(edits.key())
        }
        Act::Config(_) => None,
    }
}

/// What takes back an act that breaks no rule, or why nothing does. The only refusal is want of memory.
fn take_back(alloc: Global, database: &Database, act: &Act) -> Result<Result<Act, NoUndo>, Memory>
    requires { (next : DatabaseParts) × (effect database.now act.now ≡ Ok next) }
    ensures { IfOk result (λ made. made ≡ inverse_at database.now act.now) }
{
    let old = bundle_of(database, act);
    match inverse(alloc, database.config(), old, act) {
        Ok(back) => Ok(Ok(back)),
        Err(InverseFault::NoUndo(reason)) => Ok(Err(reason)),
        Err(InverseFault::Memory) => Err(Memory),
    }
}

/// Puts an act that leaves this database last in the history, and keeps what takes it back: the reply. Want of
/// memory changes nothing.
fn accept(
    alloc: Global,
    entries: &mut PlainHistory,
    database: &mut Database,
    kept: &mut KeptActs,
    head: Head,
    act: Act,
    next: Database,
) -> Result<Reply, Memory>
    requires { effect database.old act ≡ Ok next }
    ensures ok { IfOk result (λ reply. (reply, entries.new, database.new, kept.new.acts) ≡
        edit_accepted head act entries.old database.old kept.old.acts next) }
    ensures history { OnErr result (entries.new ≡ entries.old) }
    ensures present { OnErr result (database.new ≡ database.old) }
    ensures kept { OnErr result (kept.new.acts ≡ kept.old.acts) }
{
    let inverse = take_back(alloc, database, &act)?;
    kept.make_room()?;
    entries.push(Entry {
        session: head.session,
        line: head.line,
        act,
    })?;
    let n = entries.len() as u64;
    kept.keep(head.session, head.line, inverse);
    *database = next;
    Ok(head.reply(Some(n), Answer::Done(head.command)))
}

/// Tries an act: the reply to it. Want of memory changes nothing.
fn try_edit(
    alloc: Global,
    entries: &mut PlainHistory,
    database: &mut Database,
    kept: &mut KeptActs,
    head: Head,
    act: Act,
) -> Result<Reply, Memory>
    ensures ok { IfOk result (λ reply. (reply, entries.new, database.new, kept.new.acts) ≡
        edit_tried head act entries.old database.old kept.old.acts) }
    ensures history { OnErr result (entries.new ≡ entries.old) }
    ensures present { OnErr result (database.new ≡ database.old) }
    ensures kept { OnErr result (kept.new.acts ≡ kept.old.acts) }
{
    let n = entries.len() as u64;
    if is_full(entries) {
        drop(act);
        return Ok(head.reply(Some(n), Answer::Refused(Refusal::HistoryFull)));
    }
    match changed(alloc, database, &act) {
        Ok(next) => accept(alloc, entries, database, kept, head, act, next),
        Err(ChangeFault::Broken(breach)) => {
            let refusal = refuse_rule(head.command, breach);
            Ok(head.reply(Some(n), Answer::Refused(refusal)))
        }
        Err(ChangeFault::Memory) => Err(Memory),
    }
}

/// Tries what takes back an earlier line of the session, where that was accepted: the reply. Want of memory changes
/// nothing.
pub fn try_undo(
    alloc: Global,
    entries: &mut PlainHistory,
    database: &mut Database,
    kept: &mut KeptActs,
    head: Head,
    earlier: u32,
) -> Result<Reply, Memory>
    ensures ok { IfOk result (λ reply. (reply, entries.new, database.new, kept.new.acts) ≡
        undo_tried head entries.old database.old kept.old.acts
        (latest_of head.session.0 earlier kept.old.acts)) }
    ensures history { OnErr result (entries.new ≡ entries.old) }
    ensures present { OnErr result (database.new ≡ database.old) }
    ensures kept { OnErr result (kept.new.acts ≡ kept.old.acts) }
{
    match kept.find(head.session, earlier) {
        None => Ok(head.reply(None, Answer::Refused(Refusal::NotAccepted))),
        Some(Err(reason)) => Ok(head.reply(None, Answer::Refused(refuse_undo(*reason)))),
        Some(Ok(act)) => {
            let act = act.copy(alloc)?;
            try_edit(alloc, entries, database, kept, head, act)
        }
    }
}

/// Tries the act of a line, unless its TextGrid has a fault: the reply. Want of memory changes nothing.
pub fn try_given(
    alloc: Global,
    entries: &mut PlainHistory,
    database: &mut Database,
    kept: &mut KeptActs,
    head: Head,
    given: Result<Act, GridFault>,
) -> Result<Reply, Memory>
    ensures ok { IfOk result (λ reply. (reply, entries.new, database.new, kept.new.acts) ≡
        given_tried head given entries.old database.old kept.old.acts) }
    ensures history { OnErr result (entries.new ≡ entries.old) }
    ensures present { OnErr result (database.new ≡ database.old) }
    ensures kept { OnErr result (kept.new.acts ≡ kept.old.acts) }
{
    match given {
        Ok(act) => try_edit(alloc, entries, database, kept, head, act),
        Err(fault) => {
            let n = entries.len() as u64;
            Ok(refuse_grid(head, n, fault))
        }
    }
}

/// A query that holds the present state, which it shares.
fn hold(alloc: Global, database: &Database, n: u64, head: Head, ask: Ask) -> Result<Held, Memory>
    ensures { IfOk result (λ held. held ≡ held_at head ask n database.now) }
{
    let database = database.copy(alloc)?;
    Ok(Held {
        line: head.line,
        n,
        ask,
        database,
    })
}

/// Holds the present state for a look, if the session has none open: the reply to it. Want of
/// memory changes nothing.
pub fn open_look(
    alloc: Global,
    database: &Database,
    n: u64,
    looks: &mut Slots<Held>,
    head: Head,
    ask: Ask,
) -> Result<Reply, Memory>
    requires { head.session.0 < length looks.old }
    ensures ok { IfOk result (λ reply. (reply, looks.new) ≡
        looked head ask n database.now looks.old (slot looks.old head.session.0)) }
    ensures err { OnErr result (looks.new ≡ looks.old) }
{
    let place = head.session.0 as usize;
    match looks.get(place) {
        Some(_) => Ok(head.reply(None, Answer::Refused(Refusal::LookOpen))),
        None => {
            let held = hold(alloc, database, n, head, ask)?;
            looks.put(place, Some(held));
            Ok(head.reply(Some(n), Answer::Done(head.command)))
        }
    }
}

/// Puts a query under way, which holds the present state. Want of memory changes nothing.
pub fn begin_query(
    alloc: Global,
    database: &Database,
    n: u64,
    queries: &mut Slots<Held>,
    head: Head,
    ask: Ask,
) -> Result<(), Memory>
    requires { head.session.0 < length queries.old }
    ensures ok { OnOk result (queries.new ≡
        put_slot queries.old head.session.0 (Some (held_at head ask n database.now))) }
    ensures err { OnErr result (queries.new ≡ queries.old) }
{
    let held = hold(alloc, database, n, head, ask)?;
    queries.put(head.session.0 as usize, Some(held));
    Ok(())
}

/// The answer to a query over the state that it holds.
fn answer_held(alloc: Global, held: &Held) -> Result<Answer, Memory>
    ensures { IfOk result (λ given. given ≡ held_answer held.now) }
{
    answer(alloc, &held.database, &held.ask)
}

/// The reply to a query under way, over the state that it holds. Where memory ran out when the query was read,
/// that is answered, with no number.
fn query_reply(alloc: Global, line: u32, session: SessionNo, held: &Held) -> Result<Reply, Memory>
    ensures { IfOk result (λ reply. reply ≡
        query_reply line session held.now (lacks_memory held.now.ask)) }
{
    if lacks_memory(&held.ask) {
        return Ok(memory_reply(line, session));
    }
    Ok(Reply {
        line,
        session,
        n: Some(held.n),
        answer: answer_held(alloc, held)?,
    })
}

/// Answers the session's open look and closes it: the reply. Want of memory, also that at which its query was
/// read, leaves it open.
pub fn close_look(
    alloc: Global,
    looks: &mut Slots<Held>,
    line: u32,
    session: SessionNo,
) -> Result<Reply, Memory>
    requires { session.0 < length looks.old }
    ensures ok { IfOk result (λ reply. (reply, looks.new) ≡
        look_closed line session looks.old (slot looks.old session.0)) }
    ensures err { OnErr result (looks.new ≡ looks.old) }
{
    let place = session.0 as usize;
    match looks.get(place) {
        None => Ok(Reply {
            line,
            session,
            n: None,
            answer: Answer::Refused(Refusal::NoLook),
        }),
        Some(held) => {
            if lacks_memory(&held.ask) {
                return Ok(memory_reply(line, session));
            }
            let answer = answer_held(alloc, held)?;
            let n = Some(held.n);
            looks.put(place, None);
            Ok(Reply {
                line,
                session,
                n,
                answer,
            })
        }
    }
}

/// Answers the session's query under way and closes it: the reply, if there is one. Want of memory
/// closes it too.
pub fn close_query(
    alloc: Global,
    queries: &mut Slots<Held>,
    line: u32,
    session: SessionNo,
) -> Result<Option<Reply>, Memory>
    requires { session.0 < length queries.old }
    ensures ok { IfOk result (λ reply. (reply, queries.new) ≡
        query_closed line session queries.old (slot queries.old session.0)) }
    ensures err { OnErr result (queries.new ≡
        query_dropped session queries.old (slot queries.old session.0)) }
{
    match queries.take(session.0 as usize) {
        None => Ok(None),
        Some(held) => Ok(Some(query_reply(alloc, line, session, &held)?)),
    }
}
