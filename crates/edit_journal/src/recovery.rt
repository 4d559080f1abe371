//! Recovery: the list of bodies of a store that a crash may have left.
ghost use Rattle.std.specs.Prelude.{◌≡◌, ◌<◌, ◌≤◌, [], ◌∷◌, ◌++◌, List, ℕ, None, Ok, Err, false, length, take, IfOk, IfErr, IsErrOf};
ghost use Rattle.emu_names.specs.Count.{Rose};
ghost use Rattle.emu_disk.specs.Disk.{Within, LeavesOnly};
ghost use Rattle.edit_journal.specs.Store.{limit, head, start, placed, bodies, IsSized};
ghost use Rattle.edit_journal.specs.Held.{disk_of, texts_of, Holds, Tells};
ghost use Rattle.edit_journal.specs.Inner.Held.{end_of, has_failed, IsHeld, Reads};
ghost use Rattle.edit_journal.specs.Inner.Recovery.{ForDamage, IsFound, IsFoundOn};

use crate::body::{Bodies, Body, BodyBytes};
use crate::fault::{JournalFault, NoJournal};
use crate::journal::{Gate, Journal};
use crate::next::{Next, next_at};
use emu_disk::{Disk, Failed};
use emu_names::limits::STORE_BYTES;
use std::alloc::Global;

const BUFFER: usize = 4096;

/// A journal that was recovered, and the bodies of its store.
#[derive(Drop)]
pub struct Recovered<D: Disk> {
    pub journal: Journal<D>,
    pub bodies: Bodies,
}

// The bodies of a store, the place of its last gate, and what stands there.
#[derive(Drop)]
pub(crate) struct Found {
    pub(crate) bodies: Bodies,
    pub(crate) end: u64,
    pub(crate) gate: Gate,
}

impl<D: Disk> Journal<D> {
    /// The journal of a disk, and the bodies of its store. It begins with a sync, reads all and
    /// writes nothing. `Damaged` comes exactly where the bytes stand for no list of bodies, and
    /// says where the damage is: at 0 where more than 9 bytes do not begin with `EMUSTORE`; where
    /// the store ends and a gate should stand; at an open gate whose length is cut, is 0 or passes
    /// the end; and at 268,435,456 where the store is longer than that. A store of at most 9 bytes
    /// has no body. After a fault the disk is handed back.
    pub fn recover(alloc: Global, disk: D) -> Result<Recovered<D>, NoJournal<D>>
        ensures bodies { IfOk result (λ r. Reads (D.reads disk) (Ok r.bodies)) }
        ensures holds { IfOk result (λ r. Holds D.may_leave (texts_of r.bodies) None r.journal) }
        ensures held { IfOk result (λ r. IsHeld D.may_leave r.journal) }
        ensures failed { IfOk result (λ r. has_failed r.journal ≡ false) }

        // Each body has the place of its gate, and the journal's end is the place of the last gate.
        ensures places { IfOk result (λ r. r.bodies ≡ placed 8 (texts_of r.bodies)) }
        ensures end { IfOk result (λ r. end_of r.journal ≡ length (start (texts_of r.bodies))) }

        ensures damaged { IfErr result (λ e.
            (at : ℕ) → e.fault ≡ JournalFault.Damaged at → Reads (D.reads disk) (Err at)) }
        ensures disk { IfErr result (λ e.
            e.fault ≡ JournalFault.Disk → Rose (D.faults disk) (D.faults e.disk)) }
        ensures not_full { IfErr result (λ e. e.fault ≡ JournalFault.StoreFull → ⊥) }

        // It writes nothing: the disk reads as before, and no image is new at any moment.
        ensures same { IfOk result (λ r. D.reads (disk_of r.journal) ≡ D.reads disk) }
        ensures same_err { IfErr result (λ e. D.reads e.disk ≡ D.reads disk) }
        ensures any_moment { IfOk result (λ r.
            LeavesOnly D.moment D.left_since disk (disk_of r.journal) (D.may_leave disk)) }
        ensures any_moment_err { IfErr result (λ e.
            LeavesOnly D.moment D.left_since disk e.disk (D.may_leave disk)) }
        ensures later { IfOk result (λ r. D.faults disk ≤ D.faults (disk_of r.journal)) }
        ensures later_err { IfErr result (λ e. D.faults disk ≤ D.faults e.disk) }
    {
        let mut disk = disk;
        match read_store(alloc, &mut disk) {
            Ok(found) => {
                let journal = Journal {
                    disk,
                    end: found.end,
                    gate: found.gate,
                    failed: false,
                };
                Ok(Recovered {
                    journal,
                    bodies: found.bodies,
                })
            }
            Err(fault) => Err(NoJournal { fault, disk }),
        }
    }
}

// Syncs, reads all, and finds the bodies.
fn read_store<D: Disk>(alloc: Global, disk: &mut D) -> Result<Found, JournalFault>
    ensures ok { IfOk result (λ found. IsFoundOn (D.reads disk.old) (D.may_leave disk.new) found) }
    ensures damaged { ForDamage result (λ at. Reads (D.reads disk.old) (Err at)) }
    ensures disk { IsErrOf result JournalFault.Disk → Rose (D.faults disk.old) (D.faults disk.new) }
    ensures not_full { IsErrOf result JournalFault.StoreFull → ⊥ }
    ensures same { D.reads disk.new ≡ D.reads disk.old }
    ensures any_moment { LeavesOnly D.moment D.left_since disk.old disk.new (D.may_leave disk.old) }
    ensures later { D.faults disk.old ≤ D.faults disk.new }
{
    match disk.sync() {
        Ok(()) => read_safe(alloc, disk),
        Err(Failed) => Err(JournalFault::Disk),
    }
}

// Reads all, and finds the bodies, where each image of the disk is what a read gives.
fn read_safe<D: Disk>(alloc: Global, disk: &mut D) -> Result<Found, JournalFault>
    ensures ok { IfOk result (λ found.
        (bytes : List ℕ) × Tells (D.reads disk.old) bytes × IsFound bytes found) }
    ensures damaged { ForDamage result (λ at. Reads (D.reads disk.old) (Err at)) }
    ensures disk { IsErrOf result JournalFault.Disk → Rose (D.faults disk.old) (D.faults disk.new) }
    ensures not_full { IsErrOf result JournalFault.StoreFull → ⊥ }
    ensures same { D.reads disk.new ≡ D.reads disk.old }
    ensures crash { Within (D.may_leave disk.old) (D.may_leave disk.new) }
    ensures any_moment { LeavesOnly D.moment D.left_since disk.old disk.new (D.may_leave disk.old) }
    ensures later { D.faults disk.old ≤ D.faults disk.new }
{
    match read_all(alloc, disk) {
        Ok(bytes) => find(alloc, &bytes),
        Err(fault) => Err(fault),
    }
}

// Reads all bytes, at most as many as a store may have.
fn read_all<D: Disk>(alloc: Global, disk: &mut D) -> Result<Vec<u8>, JournalFault>
    ensures told { IfOk result (λ v. Tells (D.reads disk.old) v.items) }
    ensures fits { IfOk result (λ v. length v.items ≤ limit) }
    ensures damaged { ForDamage result (λ at. Reads (D.reads disk.old) (Err at)) }
    ensures disk { IsErrOf result JournalFault.Disk → Rose (D.faults disk.old) (D.faults disk.new) }
    ensures not_full { IsErrOf result JournalFault.StoreFull → ⊥ }
    ensures same { D.reads disk.new ≡ D.reads disk.old }
    ensures crash { Within (D.may_leave disk.old) (D.may_leave disk.new) }
    ensures any_moment { LeavesOnly D.moment D.left_since disk.old disk.new (D.may_leave disk.old) }
    ensures later { D.faults disk.old ≤ D.faults disk.new }
{
    let mut bytes = Vec::new(alloc);
    let mut buffer = [0u8; BUFFER];
    'reads: while bytes.len() <= STORE_BYTES as usize {
        let count = match disk.read(bytes.len() as u64, &mut buffer) {
            Ok(count) => count,
            Err(Failed) => return Err(JournalFault::Disk),
        };
        if count == 0 {
            return Ok(bytes);
        }
        bytes.extend_from_slice(&buffer[..count])?;
    }
    Err(JournalFault::Damaged(STORE_BYTES))
}

// Finds the bodies of a store.
fn find(alloc: Global, bytes: &[u8]) -> Result<Found, JournalFault>
    requires { length bytes.now ≤ limit }
    ensures ok { IfOk result (λ found. IsFound bytes.now found) }
    ensures damaged { ForDamage result (λ at. bodies bytes.now ≡ Err at) }
    ensures no_disk { IsErrOf result JournalFault.Disk → ⊥ }
    ensures not_full { IsErrOf result JournalFault.StoreFull → ⊥ }
{
    if bytes.len() <= 9 {
        return Ok(Found {
            bodies: Bodies::new(alloc),
            end: 8,
            gate: Gate::Missing,
        });
    }
    if &bytes[..8] != b"EMUSTORE".as_slice() {
        return Err(JournalFault::Damaged(0));
    }
    find_list(alloc, bytes)
}

// Finds the bodies of a store that begins with `EMUSTORE` and has a gate.
fn find_list(alloc: Global, bytes: &[u8]) -> Result<Found, JournalFault>
    requires fits { length bytes.now ≤ limit }
    requires long { 9 < length bytes.now }
    requires begun { take 8 bytes.now ≡ head }
    ensures ok { IfOk result (λ found. IsFound bytes.now found) }
    ensures damaged { ForDamage result (λ at. bodies bytes.now ≡ Err at) }
    ensures no_disk { IsErrOf result JournalFault.Disk → ⊥ }
    ensures not_full { IsErrOf result JournalFault.StoreFull → ⊥ }
{
    let mut bodies = Bodies::new(alloc);
    let mut rest = &bytes[8..];
    let mut at = 8u64;
    'gates: loop {
        match next_at(rest) {
            Next::Closed => {
                return Ok(Found {
                    bodies,
                    end: at,
                    gate: Gate::Closed,
                });
            }
            Next::Damaged => return Err(JournalFault::Damaged(at)),
            Next::Open(body, behind) => {
                let bytes = BodyBytes::from_slice(alloc, body)?;
                bodies.push(Body { at, bytes })?;
                at += 5 + body.len() as u64;
                rest = behind;
            }
        }
    }
}
