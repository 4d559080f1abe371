//! A disk in memory that takes all its room when it is made, for callers that are to succeed
//! without memory.
ghost use Rattle.std.specs.Prelude.{◌≡◌, ◌+◌, ◌-◌, ◌*◌, ◌<◌, ◌≤◌, ◌^◌, ℕ, List, [], ◌∷◌, ◌++◌, Some, length, take, vec_capacity, vec_len, IsOk, IfOk, OnOk, OnErr};
ghost use Rattle.emu_names.specs.Count.{HasCause};
ghost use Rattle.emu_disk.specs.Disk.{put, told, IsReadOf, HasPlace, TornBy, Shorter, Scrambled};
ghost use Rattle.emu_disk.specs.Disk.{Becomes, Follows, Within, Only, GoesOn};
ghost use Rattle.emu_disk.specs.Inner.Sure.{replay, total};
ghost use Rattle.emu_disk.specs.Inner.Laws.{held_now, held_only_now, some_same};

use crate::bytes::{copy_from, extend, overlay};
use crate::disk::{Disk, Failed};
use crate::faults::fault;
use crate::shortage::Memory;
use std::alloc::Global;

// A change: the place and the number of the bytes that a write put, or the length after a cut.
#[derive(Clone, Copy)]
enum Mark {
    Wrote { at: u32, len: u32 },
    Cut { len: u32 },
}

// Adds a change for which there is room.
fn push(marks: &mut Vec<Mark>, mark: Mark)
    requires { vec_len marks.old < vec_capacity marks.old }
    ensures marks { marks.new.items ≡ marks.old.items ++ mark ∷ [] }
    ensures capacity { vec_capacity marks.old ≤ vec_capacity marks.new }
{
    marks.push(mark).unwrap();
}

/// A disk in memory with room for a given number of bytes to be written, all writes together. It
/// fails only at a write that passes this room. Each change is safe at once.
///
/// It takes 26 bytes of memory for each byte of room, since it keeps what it held after each
/// change.
#[derive(Drop)]
pub struct SureDisk {
    bytes: Vec<u8>,
    written: Vec<u8>,
    marks: Vec<Mark>,
    room: usize,
    faults: u64,
    ghost replays: { bytes.items ≡ replay marks.items written.items [] },
    ghost all: { total marks.items ≡ length written.items },
    ghost few: { length marks.items + length bytes.items ≤ 2 * length written.items },
    ghost short: { length bytes.items ≤ length written.items },
    ghost fits: { length written.items ≤ room },
    ghost small: { room < 2 ^ 32 },
    ghost room_bytes: { room ≤ vec_capacity bytes },
    ghost room_written: { room ≤ vec_capacity written },
    ghost room_marks: { 2 * room ≤ vec_capacity marks },
}

impl SureDisk {
    ghost use Rattle.emu_disk.specs.Inner.Roomy.{bytes_of, room_of, faults_of};

    /// A disk of no byte, with room for so many bytes to be written. Room of 2^32 bytes or more is
    /// refused as want of memory.
    pub fn new(alloc: Global, room: usize) -> Result<SureDisk, Memory>
        ensures bytes { IfOk result (λ disk. bytes_of disk ≡ []) }
        ensures room { IfOk result (λ disk. room_of disk ≡ room) }
        ensures faults { IfOk result (λ disk. faults_of disk ≡ 0) }
    {
        if room > u32::MAX as usize {
            return Err(Memory);
        }
        Ok(SureDisk {
            bytes: Vec::with_capacity(alloc, room)?,
            written: Vec::with_capacity(alloc, room)?,
            marks: Vec::with_capacity(alloc, 2 * room)?,
            room,
            faults: 0,
        })
    }

    /// The bytes that a read gives.
    pub fn bytes(&self) -> &[u8]
        ensures { result.now ≡ bytes_of self.now }
    {
        &self.bytes
    }
}

impl Disk for SureDisk {
    ghost use Rattle.emu_disk.specs.Inner.Roomy.{bytes_of, reads_of, room_of, images_of, moment_of, past_of, faults_of};

    ghost reads = { reads_of };

    ghost may_leave = { images_of };

    ghost moment = { moment_of };

    ghost left_since = { past_of };

    ghost faults = { faults_of };

    ghost as_read = { λ m xs is. some_same (bytes_of m) xs is };

    ghost counts_now = { λ m t c le is.
        held_now m.marks.items m.written.items m.bytes.items m.replays t c le is };

    ghost only_now = { λ m c held.
        held_only_now m.marks.items m.written.items m.bytes.items m.replays c held };

    fn read(&mut self, at: u64, buf: &mut [u8]) -> Result<usize, Failed>
        ensures sure { IsOk result }
        ensures room { room_of self.new ≡ room_of self.old }
        ensures bound { IfOk result (λ n. n ≤ length buf.new) }
        ensures bytes { IfOk result (λ n. IsReadOf (reads_of self.old) at n buf.new) }
        ensures same { reads_of self.new ≡ reads_of self.old }
        ensures crash { Within (images_of self.old) (images_of self.new) }
        ensures all { Within (images_of self.new) (images_of self.old) }
        ensures time { GoesOn moment_of past_of images_of self.old self.new }
        ensures cause { HasCause (faults_of self.old) (faults_of self.new) result }
    {
        Ok(copy_from(&self.bytes, at, buf))
    }

    fn write_at(&mut self, at: u64, bytes: &[u8]) -> Result<(), Failed>
        requires { HasPlace (reads_of self.old) at }
        ensures sure { length bytes.now ≤ room_of self.old → IsOk result }
        ensures past { OnErr result (room_of self.old < length bytes.now) }
        ensures room { OnOk result (room_of self.new + length bytes.now ≡ room_of self.old) }
        ensures kept { OnErr result (room_of self.new ≡ room_of self.old) }
        ensures same { OnErr result (bytes_of self.new ≡ bytes_of self.old) }
        ensures written { OnOk result (
            reads_of self.new ≡ told (put at bytes.now) (reads_of self.old)) }
        ensures torn { OnErr result (
            Becomes (TornBy at bytes.now) (reads_of self.old) (reads_of self.new)) }
        ensures crash { Follows (TornBy at bytes.now) (images_of self.old) (images_of self.new) }
        ensures time { GoesOn moment_of past_of images_of self.old self.new }
        ensures cause { HasCause (faults_of self.old) (faults_of self.new) result }
    {
        if bytes.len() > self.room - self.written.len() {
            return Err(fault(&mut self.faults));
        }
        if bytes.is_empty() {
            return Ok(());
        }
        overlay(&mut self.bytes, at as usize, bytes);
        extend(&mut self.written, bytes);
        let wrote = Mark::Wrote {
            at: at as u32,
            len: bytes.len() as u32,
        };
        push(&mut self.marks, wrote);
        Ok(())
    }

    fn cut(&mut self, len: u64) -> Result<(), Failed>
        ensures sure { IsOk result }
        ensures room { room_of self.new ≡ room_of self.old }
        ensures cut { OnOk result (reads_of self.new ≡ told (take len) (reads_of self.old)) }
        ensures left { OnErr result (
            Becomes (Scrambled len) (reads_of self.old) (reads_of self.new)) }
        ensures crash { OnOk result (
            Follows (Shorter len) (images_of self.old) (images_of self.new)) }
        ensures scrambled { OnErr result (
            Follows (Scrambled len) (images_of self.old) (images_of self.new)) }
        ensures time { GoesOn moment_of past_of images_of self.old self.new }
        ensures cause { HasCause (faults_of self.old) (faults_of self.new) result }
    {
        if len < self.bytes.len() as u64 {
            push(&mut self.marks, Mark::Cut { len: len as u32 });
            self.bytes.truncate(len as usize);
        }
        Ok(())
    }

    fn sync(&mut self) -> Result<(), Failed>
        ensures sure { IsOk result }
        ensures room { room_of self.new ≡ room_of self.old }
        ensures durable { OnOk result (Only (reads_of self.old) (images_of self.new)) }
        ensures same { reads_of self.new ≡ reads_of self.old }
        ensures crash { Within (images_of self.old) (images_of self.new) }
        ensures all { OnErr result (Within (images_of self.new) (images_of self.old)) }
        ensures time { GoesOn moment_of past_of images_of self.old self.new }
        ensures cause { HasCause (faults_of self.old) (faults_of self.new) result }
    {
        Ok(())
    }
}
