//! Passes, which look at the published versions, and the notes that tell them how far to look.
ghost use Rattle.std.specs.Prelude.{◌≡◌, ◌⊎◌, ◌≤◌, ℕ, [], IsSome, IfSome, IfOk, OnErr};
ghost use Rattle.std.specs.Arc.{arc_value};
ghost use mathlib.Core.List.{IsPrefix};
ghost use Rattle.logbook.specs.Pages.{Book};
ghost use Rattle.version_gate.specs.Lists.{Front, Numbered, EndsIn, entry};
ghost use Rattle.version_gate.specs.Inner.Snapshots.{entry_of};
ghost use Rattle.version_gate.specs.Inner.Seats.{Knows};
ghost use Rattle.left_right.specs.Sides.{view as seat_view};

use crate::entry::Snapshot;
use crate::fault::LookFault;
use crate::published::{Reached, begins};
use crate::rule::{Enter, Gates, Known};
use crate::shown::Shown;
use left_right::reader::Reader;
use std::marker::Model;

/// A place at the two copies from which one thread at a time reads.
pub type SeatOf<T> = Reader<Shown<T>, Known, Gates>;

/// One thread's way to the published versions. It may go to another thread. Contracts see its gate,
/// and its list: the published versions up to the last one that it has seen or learnt.
#[derive(Drop)]
pub struct Pass<T: Drop> {
    seat: Option<SeatOf<T>>,
    seen: Reached<T>,
    number: u64,
}

impl<T: Drop> Model for Pass<T> {
    ghost use Rattle.std.specs.Prelude.{◌≡◌, [], IsSomeAnd};
    ghost use Rattle.left_right.specs.Sides.{view as seat_view};
    ghost use Rattle.version_gate.specs.Lists.{Front, Numbered};
    ghost use Rattle.version_gate.specs.Inner.Seats.{Knows};

    ghost Value = { Front T };

    ghost view = { λ p. record { gate = p.seen.book; list = p.seen.log } };

    ghost invariant = { λ p. IsSomeAnd p.seat (λ r. Knows p.seen.book (seat_view r.place))
        × (p.seen.names ≡ [])
        × Numbered p.number p.seen.log };
}

/// What a publisher told: the published list of that moment, which a pass may learn in any thread.
#[derive(Drop)]
pub struct Note<T: Drop> {
    seen: Reached<T>,
    number: u64,
}

impl<T: Drop> Model for Note<T> {
    ghost use Rattle.std.specs.Prelude.{◌≡◌, []};
    ghost use Rattle.version_gate.specs.Lists.{Front, Numbered};

    ghost Value = { Front T };

    ghost view = { λ n. record { gate = n.seen.book; list = n.seen.log } };

    ghost invariant = { λ n. (n.seen.names ≡ []) × Numbered n.number n.seen.log };
}

impl<T: Drop> Note<T> {
    /// A note of this list, which ends with this number.
    pub(crate) fn new(seen: Reached<T>, number: u64) -> Note<T>
        requires names { seen.names ≡ [] }
        requires numbered { Numbered number seen.log }
        ensures { (result.gate ≡ seen.book) × (result.list ≡ seen.log) }
    {
        Note { seen, number }
    }
}

impl<T: Drop> Pass<T> {
    /// A pass from this seat, which has seen this list.
    pub(crate) fn new(seat: SeatOf<T>, seen: Reached<T>, number: u64) -> Pass<T>
        requires names { seen.names ≡ [] }
        requires seated { Knows seen.book (seat_view seat.place) }
        requires numbered { Numbered number seen.log }
        ensures { (result.gate ≡ seen.book) × (result.list ≡ seen.log) }
    {
        Pass {
            seat: Some(seat),
            seen,
            number,
        }
    }

    /// Gives the last version of a list that was published, and that begins with all that this pass
    /// has seen or learnt. It takes no lock and waits for nobody. `NoEntry` and `Memory` leave the
    /// pass as it was: look again.
    pub fn look(&mut self) -> Result<Snapshot<T>, LookFault>
        ensures gate { self.new.gate ≡ self.old.gate }
        ensures holds { IsPrefix self.old.list self.new.list }
        ensures last { IfOk result (λ s.
            EndsIn self.new.list (entry s.number (arc_value s.version))) }
        ensures number { IfOk result (λ s. Numbered s.number self.new.list) }
        ensures refused { OnErr result (self.new ≡ self.old) }
    {
        let shown = self.glimpse()?;
        if shown.number() < self.number {
            return Err(LookFault::NoEntry);
        }
        let (snapshot, seen) = shown.into_parts();
        self.follow(seen, snapshot.number);
        Ok(snapshot)
    }

    /// Takes in what a publisher told: from now on a look gives no version older than the last one
    /// of the note.
    pub fn learn(&mut self, note: Note<T>)
        requires gate { note.gate ≡ self.old.gate }
        ensures gate { self.new.gate ≡ self.old.gate }
        ensures own { IsPrefix self.old.list self.new.list }
        ensures learnt { IsPrefix note.list self.new.list }
        ensures longer { (self.new.list ≡ self.old.list) ⊎ (self.new.list ≡ note.list) }
    {
        let Note { seen, number } = note;
        if number <= self.number {
            begins(&seen, &self.seen);
            return;
        }
        self.follow(seen, number);
    }

    // Enters, copies the version that is there, and leaves.
    fn glimpse(&mut self) -> Result<Shown<T>, LookFault>
        ensures same { self.new ≡ self.old }
        ensures gate { IfOk result (λ s. s.gate ≡ self.old.gate) }
    {
        let Some(reader) = self.seat.take() else {
            unreachable!()
        };
        match reader.enter_as::<Enter>() {
            Ok(reading) => {
                let copied = reading.get().copy();
                self.seat = Some(reading.leave());
                Ok(copied?)
            }
            Err(reader) => {
                self.seat = Some(reader);
                Err(LookFault::NoEntry)
            }
        }
    }

    // Takes in a list that is no shorter.
    fn follow(&mut self, seen: Reached<T>, number: u64)
        requires gate { seen.book ≡ self.old.gate }
        requires names { seen.names ≡ [] }
        requires numbered { Numbered number seen.log }
        requires order { (n : ℕ) × Numbered n self.old.list × (n ≤ number) }
        ensures gate { self.new.gate ≡ self.old.gate }
        ensures own { IsPrefix self.old.list self.new.list }
        ensures list { self.new.list ≡ seen.log }
    {
        begins(&self.seen, &seen);
        self.seen = seen;
        self.number = number;
    }

    /// The number of the last version that this pass has seen or learnt.
    pub fn seen(&self) -> u64
        ensures { Numbered result self.now.list }
    {
        self.number
    }
}
