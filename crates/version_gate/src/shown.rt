//! The value that lies in the two copies: a version, with the list that it ends.
ghost use Rattle.std.specs.Prelude.{◌≡◌, [], IfOk};
ghost use Rattle.version_gate.specs.Lists.{EndsIn, Numbered, Front};
ghost use Rattle.version_gate.specs.Inner.Snapshots.{entry_of};

use crate::entry::Snapshot;
use crate::fault::Memory;
use crate::published::Reached;
use left_right::Absorb;
use std::alloc::AllocError;
use std::marker::Model;

/// A published version with the list up to it. Contracts see the gate and that list.
#[derive(Drop)]
pub struct Shown<T: Drop> {
    snapshot: Snapshot<T>,
    seen: Reached<T>,
}

impl<T: Drop> Model for Shown<T> {
    ghost use Rattle.std.specs.Prelude.{◌≡◌, []};
    ghost use Rattle.version_gate.specs.Lists.{Front, EndsIn, Numbered};
    ghost use Rattle.version_gate.specs.Inner.Snapshots.{entry_of};

    ghost Value = { Front T };

    ghost view = { λ s. record { gate = s.seen.book; list = s.seen.log } };

    ghost invariant = { λ s. (s.seen.names ≡ []) × EndsIn s.seen.log (entry_of s.snapshot)
        × Numbered s.snapshot.number s.seen.log };
}

impl<T: Drop> Shown<T> {
    /// The version at the end of what was seen.
    pub fn new(snapshot: Snapshot<T>, seen: Reached<T>) -> Shown<T>
        requires names { seen.names ≡ [] }
        requires last { EndsIn seen.log (entry_of snapshot) }
        requires numbered { Numbered snapshot.number seen.log }
        ensures gate { result.gate ≡ seen.book }
        ensures list { result.list ≡ seen.log }
    {
        Shown { snapshot, seen }
    }

    /// The same version once more.
    pub fn copy(&self) -> Result<Shown<T>, Memory>
        ensures { IfOk result (λ s. s ≡ self.now) }
    {
        Ok(Shown {
            snapshot: self.snapshot.copy()?,
            seen: self.seen.again(),
        })
    }

    /// Its number.
    pub fn number(&self) -> u64
        ensures { Numbered result self.now.list }
    {
        self.snapshot.number
    }

    /// The version and the list that it ends.
    pub fn into_parts(self) -> (Snapshot<T>, Reached<T>)
        ensures names { result.1.names ≡ [] }
        ensures gate { result.1.book ≡ self.gate }
        ensures list { result.1.log ≡ self.list }
        ensures last { EndsIn self.list (entry_of result.0) }
        ensures numbered { Numbered result.0.number self.list }
    {
        let Shown { snapshot, seen } = self;
        (snapshot, seen)
    }
}

// An operation is the next value, so that of several the last one counts.
impl<T: Drop> Absorb<Shown<T>> for Shown<T> {
    type State = Shown<T>;

    ghost state = { λ s. s };

    ghost applied = { λ s t. t };

    fn absorb_first(&mut self, operation: &Shown<T>, _other: &Shown<T>) -> Result<(), AllocError> {
        match operation.copy() {
            Ok(next) => {
                *self = next;
                Ok(())
            }
            Err(Memory) => Err(AllocError),
        }
    }

    fn absorb_second(&mut self, operation: Shown<T>, _other: &Shown<T>) -> Result<(), Shown<T>> {
        *self = operation;
        Ok(())
    }
}
