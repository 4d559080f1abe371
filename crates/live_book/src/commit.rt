//! One commit: what it makes before it calls the disk, the entry in the store, and the new version.
ghost use Rattle.std.specs.Prelude.{◌≡◌, ◌⊎◌, ◌+◌, ◌≤◌, ◌<◌, ◌++◌, [], ◌∷◌, ℕ, suc, true, List, None, Some, Ok, Err, length, IfOk, IfErr, OnOk, OnErr, IsErrOf};
ghost use Rattle.std.specs.Arc.{arc_value};
ghost use Rattle.emu_names.specs.Count.{Rose};
ghost use Rattle.emu_names.specs.declared.limits.TheConstants.{HISTORY_EDITS};
ghost use Rattle.db_config.specs.declared.parts.ConfigParts.{ConfigParts};
ghost use Rattle.version_steps.specs.edit_rules.declared.acts.Entry.{Entry};
ghost use Rattle.edit_code.specs.Codes.{entry_code};
ghost use Rattle.edit_journal.specs.Store.{limit};
ghost use Rattle.live_book.specs.Histories.{IsCoded, entry_size};
ghost use Rattle.version_gate.specs.Lists.{entry};
ghost use Rattle.live_book.specs.Published.{IsStateAfter};
ghost use Rattle.live_book.specs.Kept.{KeepsIn, IsAsBefore, CrashLeaves, faults_in};
ghost use Rattle.live_book.specs.Inner.Kept.{IsBook, book_of, config_in, present_in, since_behind};
ghost use Rattle.live_book.specs.Commits.{entry_of, has_journal, IsAnswer, IsWelcome, DuringCommit, Commits};
ghost use Rattle.live_book.specs.Inner.Inverses.{numbered, KeepsInverse};
ghost use Rattle.version_steps.specs.Inner.Drafts.{MayServe};
ghost use Rattle.live_book.specs.Inner.Drafts.{serving};
ghost use Rattle.live_book.specs.Inner.Prepared.{IsFrameOf, IsReady, IsTest, HasRoomFor, HoldsSome, ForStoreIn, refusal_of, entries_behind};

use crate::inverse::inverse_over;
use crate::kept::Kept;
use crate::parts::Parts;
use crate::published::Published;
use crate::store::{append_in, is_too_much};
use edit_code::{entry_len, write_entry};
use edit_journal::{Frame, Journal};
use edit_undo::NoUndo;
use emu_disk::{Disk, Failed};
use emu_names::limits::HISTORY_EDITS;
use emu_names::{Fault, Memory, SessionNo};
use std::alloc::Global;
use std::sync::{Arc, Wait};
use version_steps::bundle_index::Indexed;
use version_steps::edit_rules::{Act, ChangeFault, EditFault, Entries, Entry};
use version_steps::version_tree::Version;
use version_steps::{Dropped, DroppedBundle, dropped_by, next_drafted};

/// What a commit has ready before it calls the disk.
#[derive(Drop)]
pub(crate) struct Ready {
    /// The entry.
    pub(crate) entry: Entry,
    /// Its frame, where there is a store.
    pub(crate) frame: Option<Frame>,
    /// The next version, to be published.
    pub(crate) next: Arc<Published>,
    /// The same, to be kept.
    pub(crate) kept: Arc<Published>,
}

/// The entry of an act of a line of a session. The only refusal is want of memory.
pub(crate) fn own_entry(
    alloc: Global,
    session: SessionNo,
    line: u32,
    act: &Act,
) -> Result<Entry, Memory>
    ensures { IfOk result (λ entry. entry ≡ entry_of session line act.now) }
{
    let act = act.copy(alloc)?;
    Ok(Entry { session, line, act })
}

/// What was made ahead over the version of a number, unless the configuration in force may be another one.
pub(crate) fn serving<D: Disk>(
    parts: &Parts<D>,
    number: u64,
    added: Option<Result<Indexed, Fault>>,
) -> Option<Result<Indexed, Fault>>
    ensures { result ≡ serving parts.now.since number added }
{
    if parts.since as u64 <= number {
        added
    } else {
        drop(added);
        None
    }
}

/// After how many entries the configuration behind an act has been in force, where so many stood before it.
fn since_behind(act: &Act, since: usize, count: usize) -> usize
    requires { count < HISTORY_EDITS }
    ensures { result ≡ since_behind act.now since count }
{
    match act {
        Act::Edits(_) => since,
        Act::Config(_) => count + 1,
    }
}

/// The refusal of an act after so many entries.
fn refusal(fault: ChangeFault, number: u64) -> EditFault
    ensures { result ≡ refusal_of fault number }
{
    match fault {
        ChangeFault::Broken(breach) => EditFault::Broken(breach, number),
        ChangeFault::Memory => EditFault::Memory,
    }
}

/// The frame of an entry's code, for which a store has room.
#[tactic(auto, using(crate::proofs::Codes::entry_some, crate::proofs::Codes::own_entry))]
fn make_frame(alloc: Global, entry: &Entry) -> Result<Frame, Memory>
    requires { entry_size entry.now + 14 ≤ limit }
    ensures frame { IfOk result (λ frame. frame ≡ entry_code entry.now) }
    ensures coded { OnOk result (IsCoded entry.now) }
{
    let _len = entry_len(entry);
    let code = write_entry(alloc, entry)?;
    let frame = Frame::new(alloc, code.as_slice())?;
    Ok(frame)
}

/// The frame of an entry's code, where there is a store.
#[tactic(auto, using(crate::proofs::Storing::room_size, crate::proofs::Storing::frame_some, crate::proofs::Storing::frame_none, crate::proofs::Storing::none_stored))]
fn frame_for<D: Disk>(
    alloc: Global,
    journal: &Option<Journal<D>>,
    entry: &Entry,
) -> Result<Option<Frame>, Memory>
    requires { HasRoomFor D.may_leave (has_journal journal.now) entry.now journal.now }
    ensures frame { IfOk result (λ frame. IsFrameOf entry.now journal.now frame) }
    ensures coded { has_journal journal.now ≡ true → OnOk result (IsCoded entry.now) }
{
    match journal {
        None => Ok(None),
        Some(_) => {
            let frame = make_frame(alloc, entry)?;
            Ok(Some(frame))
        }
    }
}

/// The next version with its last entry, twice.
fn published_twice(
    alloc: Global,
    version: Version,
    entry: &Entry,
) -> Result<(Arc<Published>, Arc<Published>), Memory>
    ensures { IfOk result (λ pair.
        (arc_value pair.0 ≡ record { version = version; last = Some entry.now })
        × (arc_value pair.1 ≡ record { version = version; last = Some entry.now })) }
{
    let last = Some(entry.copy(alloc)?);
    let next = Arc::new(alloc, Published { version, last })?;
    let kept = Arc::try_clone(&next)?;
    Ok((next, kept))
}

/// The next version, where nothing but want of memory or a fault of the disk refuses an entry.
#[tactic(auto, using(crate::proofs::Committing::some_history, crate::proofs::Committing::no_disk))]
fn tested<D: Disk>(
    alloc: Global,
    parts: &Parts<D>,
    entry: &Entry,
    added: Option<Result<Indexed, Fault>>,
) -> Result<Version, EditFault>
    requires book { IsBook D.may_leave parts.now }
    requires added { MayServe (present_in parts.now) entry.now.act added }
    ensures welcome { OnOk result (
        IsWelcome (has_journal parts.now.journal) (config_in parts.now) parts.now.entries entry.now) }
    ensures state { IfOk result (λ version.
        IsStateAfter (config_in parts.now) (parts.now.entries ++ entry.now ∷ []) version) }
    ensures refused { IfErr result (λ fault. IsAnswer (has_journal parts.now.journal)
        (config_in parts.now) parts.now.entries entry.now (Err fault)) }
    ensures no_disk { IsErrOf result EditFault.Disk → ⊥ }
{
    let count = parts.entries.len();
    if count >= HISTORY_EDITS {
        drop(added);
        return Err(EditFault::HistoryFull(count as u64));
    }
    match next_drafted(alloc, &parts.current.version, &entry.act, added) {
        Err(fault) => Err(refusal(fault, count as u64)),
        Ok(version) => {
            if is_too_much(&parts.journal, entry) {
                Err(EditFault::StoreFull(count as u64))
            } else {
                Ok(version)
            }
        }
    }
}

/// The frame of an entry, where there is a store, and the next version twice.
fn made_for<D: Disk>(
    alloc: Global,
    journal: &Option<Journal<D>>,
    version: Version,
    entry: &Entry,
) -> Result<(Option<Frame>, Arc<Published>, Arc<Published>), Memory>
    requires { HasRoomFor D.may_leave (has_journal journal.now) entry.now journal.now }
    ensures frame { IfOk result (λ made. IsFrameOf entry.now journal.now made.0) }
    ensures coded { has_journal journal.now ≡ true → OnOk result (IsCoded entry.now) }
    ensures next { IfOk result (λ made.
        arc_value made.1 ≡ record { version = version; last = Some entry.now }) }
    ensures kept { IfOk result (λ made.
        arc_value made.2 ≡ record { version = version; last = Some entry.now }) }
{
    let frame = frame_for(alloc, journal, entry)?;
    let (next, kept) = published_twice(alloc, version, entry)?;
    Ok((frame, next, kept))
}

/// All that an accepted entry needs: its frame, and the next version twice.
fn make_ready<D: Disk>(
    alloc: Global,
    journal: &Option<Journal<D>>,
    version: Version,
    entry: Entry,
) -> Result<Ready, Memory>
    requires room { HasRoomFor D.may_leave (has_journal journal.now) entry journal.now }
    ensures entry { IfOk result (λ ready. ready.entry ≡ entry) }
    ensures ready { IfOk result (λ ready. (config : ConfigParts) (history : List Entry)
        → IsStateAfter config (history ++ entry ∷ []) version
        → IsReady journal.now config history ready) }
{
    match made_for(alloc, journal, version, &entry) {
        Ok((frame, next, kept)) => Ok(Ready {
            entry,
            frame,
            next,
            kept,
        }),
        Err(fault) => {
            drop(entry);
            Err(fault)
        }
    }
}

/// Publishes the next version, and keeps it, with the number of entries since which its configuration is in force.
fn show<D: Disk, R: Wait>(
    rt: &R,
    parts: &mut Parts<D>,
    next: Arc<Published>,
    kept: Arc<Published>,
    since: usize,
)
    requires number { suc parts.old.publisher.number ≡ length parts.old.entries }
    ensures opening { parts.new.opening ≡ parts.old.opening }
    ensures current { parts.new.current ≡ kept }
    ensures since { parts.new.since ≡ since }
    ensures entries { parts.new.entries ≡ parts.old.entries }
    ensures opened { parts.new.opened ≡ parts.old.opened }
    ensures journal { parts.new.journal ≡ parts.old.journal }
    ensures gate { parts.new.publisher.gate ≡ parts.old.publisher.gate }
    ensures number { parts.new.publisher.number ≡ length parts.old.entries }
    ensures list { parts.new.publisher.list ≡ parts.old.publisher.list
        ++ entry (length parts.old.entries) (arc_value next) ∷ [] }
{
    let number = parts.entries.len() as u64;
    let _staged = parts.publisher.stage(number, next);
    parts.publisher.publish(rt);
    parts.current = kept;
    parts.since = since;
}

/// Puts an entry behind the history and into the store, or into neither.
fn enter<D: Disk>(
    entries: &mut Entries,
    journal: &mut Option<Journal<D>>,
    entry: &Entry,
    frame: &Option<Frame>,
) -> Result<(), EditFault>
    requires frame { IsFrameOf entry.now journal.old frame.now }
    requires kept { HasRoomFor D.may_leave (has_journal journal.old) entry.now journal.old }
    ensures entries { entries.new ≡ entries_behind entries.old entry.now result }
    ensures ok { ForStoreIn D.may_leave journal.old entry.now (λ config history lost.
        OnOk result (KeepsIn D.may_leave config (history ++ entry.now ∷ []) None journal.new)) }
    ensures err { ForStoreIn D.may_leave journal.old entry.now (λ config history lost.
        OnErr result (IsAsBefore D.may_leave config history lost entry.now journal.new)) }
    ensures still { IsErrOf result EditFault.Memory → journal.new ≡ journal.old }
    ensures any_moment { ForStoreIn D.may_leave journal.old entry.now (λ config history lost.
        CrashLeaves D.moment D.left_since journal.old journal.new (
        DuringCommit result config history lost entry.now)) }
    ensures later { faults_in D.faults journal.old ≤ faults_in D.faults journal.new }
    ensures disk { IsErrOf result EditFault.Disk
        → Rose (faults_in D.faults journal.old) (faults_in D.faults journal.new) }
    ensures only { IsErrOf result EditFault.Disk → has_journal journal.old ≡ true }
    ensures stored { has_journal journal.new ≡ has_journal journal.old }
    ensures no_other { OnErr result (
        IsErrOf result EditFault.Disk ⊎ IsErrOf result EditFault.Memory) }
{
    let count = entries.len();
    entries.push(entry)?;
    match append_in(journal, entry, frame) {
        Ok(()) => Ok(()),
        Err(Failed) => {
            entries.truncate(count);
            Err(EditFault::Disk)
        }
    }
}

/// Stores an entry for which all is ready, and publishes its version. Where the disk fails, all is as
/// before.
fn put<D: Disk, R: Wait>(rt: &R, parts: &mut Parts<D>, ready: Ready) -> Result<u64, EditFault>
    requires book { IsBook D.may_leave parts.old }
    requires ready { IsReady parts.old.journal (config_in parts.old) parts.old.entries ready }
    requires welcome { IsWelcome (has_journal parts.old.journal) (config_in parts.old)
        parts.old.entries ready.entry }
    ensures book { IsBook D.may_leave parts.new }
    ensures commits { Commits D.may_leave D.moment D.left_since D.faults (book_of parts.old) ready.entry
        result (book_of parts.new) }
{
    let Ready {
        entry,
        frame,
        next,
        kept,
    } = ready;
    let count = parts.entries.len();
    let since = since_behind(&entry.act, parts.since, count);
    match enter(&mut parts.entries, &mut parts.journal, &entry, &frame) {
        Err(fault) => {
            drop(entry);
            drop(frame);
            Err(fault)
        }
        Ok(()) => {
            drop(entry);
            drop(frame);
            show(rt, parts, next, kept, since);
            Ok(parts.entries.len() as u64)
        }
    }
}

/// Stores and publishes an entry that was tested, with the version behind it. Where memory is wanting or the disk
/// fails, all is as before.
fn put_tested<D: Disk, R: Wait>(
    rt: &R,
    alloc: Global,
    parts: &mut Parts<D>,
    entry: Entry,
    version: Version,
) -> Result<u64, EditFault>
    requires book { IsBook D.may_leave parts.old }
    requires welcome { IsWelcome (has_journal parts.old.journal) (config_in parts.old)
        parts.old.entries entry }
    requires state { IsStateAfter (config_in parts.old) (parts.old.entries ++ entry ∷ []) version }
    ensures book { IsBook D.may_leave parts.new }
    ensures commits { Commits D.may_leave D.moment D.left_since D.faults (book_of parts.old) entry
        result (book_of parts.new) }
{
    match make_ready(alloc, &parts.journal, version, entry) {
        Err(Memory) => Err(EditFault::Memory),
        Ok(ready) => put(rt, parts, ready),
    }
}

/// Accepts an entry, or says why not.
pub(crate) fn commit_in<D: Disk, R: Wait>(
    rt: &R,
    alloc: Global,
    parts: &mut Parts<D>,
    entry: Entry,
) -> Result<u64, EditFault>
    requires book { IsBook D.may_leave parts.old }
    ensures book { IsBook D.may_leave parts.new }
    ensures commits { Commits D.may_leave D.moment D.left_since D.faults (book_of parts.old) entry
        result (book_of parts.new) }
{
    match tested(alloc, parts, &entry, None) {
        Err(fault) => {
            drop(entry);
            Err(fault)
        }
        Ok(version) => put_tested(rt, alloc, parts, entry, version),
    }
}

/// An answer with what takes the act back, where it was accepted.
fn with_inverse(
    made: Result<u64, EditFault>,
    inverse: Result<Act, NoUndo>,
) -> Result<Kept, EditFault>
    ensures number { numbered result ≡ made }
    ensures inverse { IfOk result (λ kept. kept.inverse ≡ inverse) }
{
    match made {
        Ok(n) => Ok(Kept { n, inverse }),
        Err(fault) => {
            drop(inverse);
            Err(fault)
        }
    }
}

/// Stores and publishes an entry that was tested, with what takes it back over the version before it.
fn keep_tested<D: Disk, R: Wait>(
    rt: &R,
    alloc: Global,
    parts: &mut Parts<D>,
    entry: Entry,
    version: Version,
) -> Result<Kept, EditFault>
    requires book { IsBook D.may_leave parts.old }
    requires welcome { IsWelcome (has_journal parts.old.journal) (config_in parts.old)
        parts.old.entries entry }
    requires state { IsStateAfter (config_in parts.old) (parts.old.entries ++ entry ∷ []) version }
    ensures book { IsBook D.may_leave parts.new }
    ensures commits { Commits D.may_leave D.moment D.left_since D.faults (book_of parts.old) entry
        (numbered result) (book_of parts.new) }
    ensures inverse { KeepsInverse (config_in parts.old) parts.old.entries entry.act result }
{
    match inverse_over(alloc, &parts.current.version, &entry.act) {
        Err(Memory) => {
            drop(version);
            drop(entry);
            Err(EditFault::Memory)
        }
        Ok(inverse) => {
            let made = put_tested(rt, alloc, parts, entry, version);
            with_inverse(made, inverse)
        }
    }
}

/// Accepts an entry, or says why not, with what was made ahead for it, if anything was; and what takes it back.
fn commit_kept_in<D: Disk, R: Wait>(
    rt: &R,
    alloc: Global,
    parts: &mut Parts<D>,
    entry: Entry,
    added: Option<Result<Indexed, Fault>>,
) -> Result<Kept, EditFault>
    requires book { IsBook D.may_leave parts.old }
    requires added { MayServe (present_in parts.old) entry.act added }
    ensures book { IsBook D.may_leave parts.new }
    ensures commits { Commits D.may_leave D.moment D.left_since D.faults (book_of parts.old) entry
        (numbered result) (book_of parts.new) }
    ensures inverse { KeepsInverse (config_in parts.old) parts.old.entries entry.act result }
{
    match tested(alloc, parts, &entry, added) {
        Err(fault) => {
            drop(entry);
            Err(fault)
        }
        Ok(version) => keep_tested(rt, alloc, parts, entry, version),
    }
}

/// What was made ahead of an act, or a bundle that was dropped and serves for it, where nothing was made.
fn served<D: Disk>(
    parts: &Parts<D>,
    dropped: &mut Dropped,
    act: &Act,
    added: Option<Result<Indexed, Fault>>,
) -> Option<Result<Indexed, Fault>>
    requires { MayServe (present_in parts.now) act.now added }
    ensures { MayServe (present_in parts.now) act.now result }
{
    match added {
        Some(made) => Some(made),
        None => dropped.take_for(parts.current.version.config(), act),
    }
}

/// Keeps the bundle that an act dropped, where it was accepted.
fn note(
    alloc: Global,
    dropped: &mut Dropped,
    bundle: Option<DroppedBundle>,
    made: &Result<Kept, EditFault>,
) {
    match bundle {
        Some(bundle) if made.is_ok() => dropped.put(alloc, bundle),
        _ => {}
    }
}

/// Accepts an entry, or says why not, and what takes it back, as [`commit_kept_in`] does. Where nothing was made
/// ahead, a bundle that was dropped serves if it may; and the bundle that the entry drops is kept beside.
pub(crate) fn commit_noted_in<D: Disk, R: Wait>(
    rt: &R,
    alloc: Global,
    parts: &mut Parts<D>,
    dropped: &mut Dropped,
    entry: Entry,
    added: Option<Result<Indexed, Fault>>,
) -> Result<Kept, EditFault>
    requires book { IsBook D.may_leave parts.old }
    requires added { MayServe (present_in parts.old) entry.act added }
    ensures book { IsBook D.may_leave parts.new }
    ensures commits { Commits D.may_leave D.moment D.left_since D.faults (book_of parts.old) entry
        (numbered result) (book_of parts.new) }
    ensures inverse { KeepsInverse (config_in parts.old) parts.old.entries entry.act result }
{
    let added = served(parts, dropped, &entry.act, added);
    let bundle = dropped_by(alloc, &parts.current.version, &entry.act);
    let made = commit_kept_in(rt, alloc, parts, entry, added);
    note(alloc, dropped, bundle, &made);
    made
}
