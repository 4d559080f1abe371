//! One entry more in the store of a book.
ghost use Rattle.std.specs.Prelude.{◌≡◌, ◌≤◌, ◌++◌, [], ◌∷◌, List, Option, None, Some, true, false, Err, IfSome, OnOk, OnErr, IsErrOf};
ghost use Rattle.emu_names.specs.Count.{HasCause};
ghost use Rattle.db_config.specs.declared.parts.ConfigParts.{ConfigParts};
ghost use Rattle.version_steps.specs.edit_rules.declared.acts.Entry.{Entry};
ghost use Rattle.edit_code.specs.Codes.{entry_code};
ghost use Rattle.edit_journal.specs.Held.{count_in, LeavesIn};
ghost use Rattle.live_book.specs.Kept.{MayFollow, Keeps, KeepsIn, IsAsBefore, CrashLeaves, faults_in};
ghost use Rattle.live_book.specs.Inner.Kept.{DuringStore};
ghost use Rattle.live_book.specs.Commits.{has_journal, IsTooMuch};
ghost use Rattle.live_book.specs.Inner.Prepared.{IsFrameOf, IsTest, ForStore, ForStoreIn, HasRoomFor, HoldsSome};

use edit_code::entry_len;
use edit_journal::{Frame, Journal, JournalFault};
use emu_disk::{Disk, Failed};
use emu_names::limits::STORE_BYTES;
use version_steps::edit_rules::Entry;

/// Whether there is a store, and this entry would bring it past its limit.
#[tactic(auto, using(crate::proofs::Storing::no_store, crate::proofs::Storing::is_over, crate::proofs::Storing::small_of))]
pub(crate) fn is_too_much<D: Disk>(journal: &Option<Journal<D>>, entry: &Entry) -> bool
    requires { HoldsSome D.may_leave journal.now }
    ensures { (config : ConfigParts) (history : List Entry) (lost : Option Entry)
        → KeepsIn D.may_leave config history lost journal.now
        → IsTest result (IsTooMuch (has_journal journal.now) config history entry.now) }
{
    match journal {
        None => false,
        Some(journal) => STORE_BYTES - journal.end() < 6 + entry_len(entry),
    }
}

/// Appends an entry's frame to a journal that holds a history.
#[tactic(auto, using(crate::proofs::Storing::held_of, crate::proofs::Storing::append_ok, crate::proofs::Storing::append_err, crate::proofs::Storing::append_moment, crate::proofs::Storing::not_full))]
fn append<D: Disk>(journal: &mut Journal<D>, entry: &Entry, frame: &Frame) -> Result<(), Failed>
    requires frame { frame.now ≡ entry_code entry.now }
    requires kept { HasRoomFor D.may_leave true entry.now (Some journal.old) }
    ensures ok { ForStore D.may_leave journal.old entry.now (λ config history lost.
        OnOk result (Keeps D.may_leave config (history ++ entry.now ∷ []) None journal.new)) }
    ensures err { ForStore D.may_leave journal.old entry.now (λ config history lost.
        OnErr result (IsAsBefore D.may_leave config history lost entry.now (Some journal.new))) }
    ensures any_moment { ForStore D.may_leave journal.old entry.now (λ config history lost.
        LeavesIn D.moment D.left_since journal.old journal.new (
        DuringStore config history lost entry.now)) }
    ensures cause { HasCause (count_in D.faults journal.old) (count_in D.faults journal.new) result }
{
    match journal.append(frame) {
        Ok(()) => Ok(()),
        Err(JournalFault::Disk) => Err(Failed),
        Err(JournalFault::StoreFull) => unreachable!(),
        Err(JournalFault::Damaged(_)) => unreachable!(),
        Err(JournalFault::Memory) => unreachable!(),
    }
}

/// Appends an entry's frame to the journal, if there is one.
pub(crate) fn append_in<D: Disk>(
    journal: &mut Option<Journal<D>>,
    entry: &Entry,
    frame: &Option<Frame>,
) -> Result<(), Failed>
    requires frame { IsFrameOf entry.now journal.old frame.now }
    requires kept { HasRoomFor D.may_leave (has_journal journal.old) entry.now journal.old }
    ensures ok { ForStoreIn D.may_leave journal.old entry.now (λ config history lost.
        OnOk result (KeepsIn D.may_leave config (history ++ entry.now ∷ []) None journal.new)) }
    ensures err { ForStoreIn D.may_leave journal.old entry.now (λ config history lost.
        OnErr result (IsAsBefore D.may_leave config history lost entry.now journal.new)) }
    ensures any_moment { ForStoreIn D.may_leave journal.old entry.now (λ config history lost.
        CrashLeaves D.moment D.left_since journal.old journal.new (
        DuringStore config history lost entry.now)) }
    ensures cause { HasCause (faults_in D.faults journal.old) (faults_in D.faults journal.new) result }
    ensures stored { has_journal journal.new ≡ has_journal journal.old }
    ensures only { OnErr result (has_journal journal.old ≡ true) }
{
    match journal {
        None => Ok(()),
        Some(journal) => match frame {
            None => unreachable!(),
            Some(frame) => append(journal, entry, frame),
        },
    }
}
