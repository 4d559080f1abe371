//! The journal: a list of bodies on a disk, which grows by one body at a time, safe from a crash at
//! any moment.
ghost use Rattle.std.specs.Prelude.{◌≡◌, ◌⊎◌, ◌+◌, ◌<◌, ◌≤◌, ◌↔◌, ◌++◌, [], ◌∷◌, List, ℕ, Option, None, Some, length, IsTrue, OnOk, OnErr, IsErrOf};
ghost use Rattle.emu_names.specs.Count.{HasCause, Rose};
ghost use Rattle.emu_disk.specs.Disk.{put, HasPlace, TornBy, Follows, LeavesOnly};
ghost use Rattle.edit_journal.specs.Inner.Staged.{staged_of};
ghost use Rattle.edit_journal.specs.Store.{limit, start, StandsFor};
ghost use Rattle.edit_journal.specs.Held.{disk_of, count_in, Holds};
ghost use Rattle.edit_journal.specs.Inner.Held.{end_of, has_failed, IsHeld};
ghost use Rattle.edit_journal.specs.Held.{LeavesIn};
ghost use Rattle.edit_journal.specs.Inner.Held.{ForHeld, ForSettled, ForStaged, EachImage, PassesLimit};
ghost use Rattle.edit_journal.specs.Inner.Held.{IsStagedIn, MayHave, DuringAppend, IsAsBefore};

use crate::fault::JournalFault;
use crate::frame::Frame;
use emu_disk::{Disk, Failed};
use emu_names::limits::STORE_BYTES;

// What the store has behind its list.
#[derive(Clone, Copy, PartialEq, Eq)]
pub(crate) enum Gate {
    // No gate yet: it has at most nine bytes.
    Missing,
    // A gate that is closed after every crash.
    Closed,
    // A gate that an append had begun to open before it failed.
    InDoubt,
}

/// A list of bodies on a disk, which the journal owns.
#[derive(Drop)]
pub struct Journal<D: Disk> {
    pub(crate) disk: D,
    pub(crate) end: u64,
    pub(crate) gate: Gate,
    pub(crate) failed: bool,
}

// Writes, and syncs.
fn write_safely<D: Disk>(disk: &mut D, at: u64, bytes: &[u8]) -> Result<(), Failed>
    requires { HasPlace (D.reads disk.old) at }
    ensures done { OnOk result (
        Follows (λ d c. c ≡ put at bytes.now d) (D.may_leave disk.old) (D.may_leave disk.new)) }
    ensures crash { Follows (TornBy at bytes.now) (D.may_leave disk.old) (D.may_leave disk.new) }
    ensures any_moment { LeavesOnly D.moment D.left_since disk.old disk.new (λ c.
        (d : List ℕ) × D.may_leave disk.old d × TornBy at bytes.now d c) }
    ensures cause { HasCause (D.faults disk.old) (D.faults disk.new) result }
{
    disk.write_at(at, bytes)?;
    disk.sync()
}

impl<D: Disk> Journal<D> {
    /// The place of the last gate, in bytes from 0.
    pub fn end(&self) -> u64
        ensures value { result ≡ end_of self.now }
        ensures place { ForHeld D.may_leave self.now (λ texts lost. result ≡ length (start texts)) }
    {
        self.end
    }

    /// Whether the last append answered [`JournalFault::Disk`].
    pub fn failed_last(&self) -> bool
        ensures { result ≡ has_failed self.now }
    {
        self.failed
    }

    /// Gives the disk up.
    pub fn into_disk(self) -> D
        ensures { result ≡ disk_of self }
    {
        let Journal {
            disk,
            end: _,
            gate: _,
            failed: _,
        } = self;
        disk
    }

    /// Each image of the disk stands for the bodies that the journal holds, or also for the one in
    /// doubt.
    pub fn stands(&self)
        requires { IsHeld D.may_leave self.now }
        ensures { ForHeld D.may_leave self.now (λ texts lost.
            EachImage D.may_leave self.now (MayHave texts lost)) }
    {}

    // Writes the head and a closed gate.
    fn begin(&mut self) -> Result<(), Failed>
        requires missing { self.old.gate ≡ Gate.Missing }
        ensures ok { ForHeld D.may_leave self.old (λ texts lost.
            OnOk result (Holds D.may_leave texts None self.new)) }
        ensures err { ForHeld D.may_leave self.old (λ texts lost.
            OnErr result (Holds D.may_leave texts lost self.new)) }
        ensures any_moment { ForHeld D.may_leave self.old (λ texts lost.
            LeavesIn D.moment D.left_since self.old self.new (MayHave texts lost)) }
        ensures gate { OnOk result (self.new.gate ≡ Gate.Closed) }
        ensures end { self.new.end ≡ self.old.end }
        ensures cause { HasCause (count_in D.faults self.old) (count_in D.faults self.new) result }
    {
        write_safely(&mut self.disk, 0, b"EMUSTORE\0")?;
        self.gate = Gate::Closed;
        Ok(())
    }

    // Closes the gate that is in doubt.
    fn shut(&mut self) -> Result<(), Failed>
        requires held { IsHeld D.may_leave self.old }
        requires in_doubt { self.old.gate ≡ Gate.InDoubt }
        ensures ok { ForHeld D.may_leave self.old (λ texts lost.
            OnOk result (Holds D.may_leave texts None self.new)) }
        ensures err { ForHeld D.may_leave self.old (λ texts lost.
            OnErr result (Holds D.may_leave texts lost self.new)) }
        ensures any_moment { ForHeld D.may_leave self.old (λ texts lost.
            LeavesIn D.moment D.left_since self.old self.new (MayHave texts lost)) }
        ensures gate { OnOk result (self.new.gate ≡ Gate.Closed) }
        ensures end { self.new.end ≡ self.old.end }
        ensures cause { HasCause (count_in D.faults self.old) (count_in D.faults self.new) result }
    {
        write_safely(&mut self.disk, self.end, &[0])?;
        self.gate = Gate::Closed;
        Ok(())
    }

    // Sees that the list ends at a gate that is closed after every crash.
    fn settle(&mut self) -> Result<(), Failed>
        requires held { IsHeld D.may_leave self.old }
        ensures ok { ForHeld D.may_leave self.old (λ texts lost.
            OnOk result (Holds D.may_leave texts None self.new)) }
        ensures err { ForHeld D.may_leave self.old (λ texts lost.
            OnErr result (Holds D.may_leave texts lost self.new)) }
        ensures any_moment { ForHeld D.may_leave self.old (λ texts lost.
            LeavesIn D.moment D.left_since self.old self.new (MayHave texts lost)) }
        ensures gate { OnOk result (self.new.gate ≡ Gate.Closed) }
        ensures end { self.new.end ≡ self.old.end }
        ensures cause { HasCause (count_in D.faults self.old) (count_in D.faults self.new) result }
    {
        match self.gate {
            Gate::Missing => self.begin(),
            Gate::InDoubt => self.shut(),
            Gate::Closed => Ok(()),
        }
    }

    // Writes the body and a closed gate behind the gate.
    fn stage(&mut self, frame: &Frame) -> Result<(), Failed>
        requires held { IsHeld D.may_leave self.old }
        requires closed { self.old.gate ≡ Gate.Closed }
        requires fits { self.old.end + 6 + length frame.now ≤ limit }
        ensures ok { ForSettled D.may_leave self.old (λ texts.
            OnOk result (IsStagedIn D.may_leave texts frame.now self.new)) }
        ensures err { ForSettled D.may_leave self.old (λ texts.
            OnErr result (Holds D.may_leave texts None self.new)) }
        ensures any_moment { ForSettled D.may_leave self.old (λ texts.
            LeavesIn D.moment D.left_since self.old self.new (StandsFor texts)) }
        ensures gate { self.new.gate ≡ Gate.Closed }
        ensures end { self.new.end ≡ self.old.end }
        ensures cause { HasCause (count_in D.faults self.old) (count_in D.faults self.new) result }
    {
        write_safely(&mut self.disk, self.end + 1, frame.staged())
    }

    // Opens the gate before the body that is staged.
    fn open_gate(&mut self, frame: &Frame) -> Result<(), Failed>
        requires held { IsHeld D.may_leave self.old }
        requires closed { self.old.gate ≡ Gate.Closed }
        requires fits { self.old.end + 6 + length frame.now ≤ limit }
        ensures ok { ForStaged D.may_leave frame.now self.old (λ texts.
            OnOk result (Holds D.may_leave (texts ++ frame.now ∷ []) None self.new)) }
        ensures err { ForStaged D.may_leave frame.now self.old (λ texts.
            OnErr result (Holds D.may_leave texts (Some frame.now) self.new)) }
        ensures any_moment { ForStaged D.may_leave frame.now self.old (λ texts.
            LeavesIn D.moment D.left_since self.old self.new (MayHave texts (Some frame.now))) }
        ensures cause { HasCause (count_in D.faults self.old) (count_in D.faults self.new) result }
    {
        self.gate = Gate::InDoubt;
        write_safely(&mut self.disk, self.end, &[1])?;
        self.gate = Gate::Closed;
        self.end += 5 + frame.len();
        Ok(())
    }

    // Appends a body for which there is room.
    fn put(&mut self, frame: &Frame) -> Result<(), Failed>
        requires held { IsHeld D.may_leave self.old }
        requires fits { self.old.end + 6 + length frame.now ≤ limit }
        ensures held { IsHeld D.may_leave self.new }
        ensures ok { ForHeld D.may_leave self.old (λ texts lost.
            OnOk result (Holds D.may_leave (texts ++ frame.now ∷ []) None self.new)) }
        ensures err { ForHeld D.may_leave self.old (λ texts lost.
            OnErr result (IsAsBefore D.may_leave texts lost frame.now self.new)) }
        ensures any_moment { ForHeld D.may_leave self.old (λ texts lost.
            LeavesIn D.moment D.left_since self.old self.new (
            DuringAppend texts lost frame.now)) }
        ensures cause { HasCause (count_in D.faults self.old) (count_in D.faults self.new) result }
    {
        self.settle()?;
        self.stage(frame)?;
        self.open_gate(frame)
    }

    /// Appends a body. It takes no memory, and refuses `StoreFull` before any call of the disk.
    /// Where the disk fails the list is as it was, and the journal goes on.
    ///
    /// It makes four calls of the disk: it writes the length, the bytes and a closed gate behind
    /// the gate, syncs, opens the gate, and syncs. Where the store has no gate yet it first writes
    /// the head and a closed gate, and syncs; where an append before it failed after it had begun
    /// to open the gate, it first closes the gate, and syncs.
    pub fn append(&mut self, frame: &Frame) -> Result<(), JournalFault>
        requires { IsHeld D.may_leave self.old }
        ensures held { IsHeld D.may_leave self.new }

        // After Ok the body is the list's last, and every crash leaves it.
        ensures ok { ForHeld D.may_leave self.old (λ texts lost.
            OnOk result (Holds D.may_leave (texts ++ frame.now ∷ []) None self.new)) }
        ensures safe { ForHeld D.may_leave self.old (λ texts lost.
            OnOk result (EachImage D.may_leave self.new (StandsFor (texts ++ frame.now ∷ [])))) }

        // After a refusal the list is as before.
        ensures err { ForHeld D.may_leave self.old (λ texts lost.
            OnErr result (IsAsBefore D.may_leave texts lost frame.now self.new)) }

        // A crash at any moment of the call leaves the list from before, with the new body or
        // without; or with the body in doubt.
        ensures any_moment { ForHeld D.may_leave self.old (λ texts lost.
            LeavesIn D.moment D.left_since self.old self.new (
            DuringAppend texts lost frame.now)) }

        ensures full { ForHeld D.may_leave self.old (λ texts lost.
            IsErrOf result JournalFault.StoreFull ↔ PassesLimit texts frame.now) }
        ensures untouched { IsErrOf result JournalFault.StoreFull →
            disk_of self.new ≡ disk_of self.old }
        ensures full_same { IsErrOf result JournalFault.StoreFull →
            ForHeld D.may_leave self.old (λ texts lost. Holds D.may_leave texts lost self.new) }
        ensures disk { IsErrOf result JournalFault.Disk →
            Rose (count_in D.faults self.old) (count_in D.faults self.new) }
        ensures failed { IsTrue (has_failed self.new) ↔ IsErrOf result JournalFault.Disk }
        ensures later { count_in D.faults self.old ≤ count_in D.faults self.new }
        ensures no_other { OnErr result (
            IsErrOf result JournalFault.StoreFull ⊎ IsErrOf result JournalFault.Disk) }
    {
        if STORE_BYTES - self.end < 6 + frame.len() {
            self.failed = false;
            return Err(JournalFault::StoreFull);
        }
        match self.put(frame) {
            Ok(()) => {
                self.failed = false;
                Ok(())
            }
            Err(Failed) => {
                self.failed = true;
                Err(JournalFault::Disk)
            }
        }
    }
}
