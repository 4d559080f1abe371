//! A disk in memory for tests: it keeps its calls, fails where it is told to, and shows what a
//! crash may leave.
ghost use Rattle.std.specs.Prelude.{◌≡◌, ◌≤◌, ◌++◌, ℕ, List, [], Option, Some, None, length, take, IfOk, OnOk, OnErr};
ghost use Rattle.emu_names.specs.Count.{HasCause};
ghost use Rattle.emu_disk.specs.Disk.{put, told, IsReadOf, HasPlace, TornBy, Shorter, Scrambled};
ghost use Rattle.emu_disk.specs.Disk.{Becomes, Follows, Within, Only, GoesOn};
ghost use Rattle.emu_disk.specs.Inner.Laws.{as_read_of, image_now, image_only_now};

use crate::call::Call;
use crate::disk::{Disk, Failed};
use crate::faults::fault;
use crate::log::Log;
use crate::plan::Plan;
use crate::replay::{Fate, Replay};
use crate::shortage::Memory;
use std::alloc::Global;

/// A disk in memory. It keeps a list of all its calls, fails at the calls that it is told to, and
/// shows what a crash may leave. A call for which it gets no memory fails too, and then changes
/// nothing.
///
/// Of a write that fails the first half of the bytes lands. A cut that fails cuts nothing.
#[derive(Drop)]
pub struct MemoryDisk {
    alloc: Global,
    log: Log,
    plan: Plan,
    faults: u64,
}

impl MemoryDisk {
    ghost use Rattle.emu_disk.specs.Inner.Planned.{bytes_of, calls_of, first_of, failing_of, images_of, stop_of, made_of, faults_of};

    /// A disk with these bytes, all of them safe. No call is to fail.
    pub fn new(alloc: Global, bytes: &[u8]) -> Result<MemoryDisk, Memory>
        ensures bytes { IfOk result (λ disk. bytes_of disk ≡ bytes.now) }
        ensures first { IfOk result (λ disk. first_of disk ≡ bytes.now) }
        ensures calls { IfOk result (λ disk. calls_of disk ≡ []) }
        ensures failing { IfOk result (λ disk. failing_of disk ≡ []) }
        ensures stop { IfOk result (λ disk. stop_of disk ≡ None) }
        ensures made { IfOk result (λ disk. made_of disk ≡ 0) }
        ensures faults { IfOk result (λ disk. faults_of disk ≡ 0) }
    {
        let log = Log {
            first: bytes.to_vec(alloc)?,
            calls: Vec::new(alloc),
            bytes: bytes.to_vec(alloc)?,
        };
        let plan = Plan {
            failing: Vec::new(alloc),
            stop: None,
            made: 0,
        };
        Ok(MemoryDisk {
            alloc,
            log,
            plan,
            faults: 0,
        })
    }

    /// Lets the calls at these places fail too, counted from 0 over all its calls.
    pub fn fail_at(&mut self, places: &[u64]) -> Result<(), Memory>
        ensures ok { OnOk result (failing_of self.new ≡ failing_of self.old ++ places.now) }
        ensures err { OnErr result (failing_of self.new ≡ failing_of self.old) }
        ensures bytes { bytes_of self.new ≡ bytes_of self.old }
        ensures calls { calls_of self.new ≡ calls_of self.old }
        ensures first { first_of self.new ≡ first_of self.old }
        ensures stop { stop_of self.new ≡ stop_of self.old }
        ensures made { made_of self.new ≡ made_of self.old }
        ensures faults { faults_of self.new ≡ faults_of self.old }
    {
        self.plan.failing.extend_from_slice(places)?;
        Ok(())
    }

    /// Lets every call fail once it has had so many calls.
    pub fn stop_after(&mut self, calls: u64)
        ensures stop { stop_of self.new ≡ Some calls }
        ensures bytes { bytes_of self.new ≡ bytes_of self.old }
        ensures calls { calls_of self.new ≡ calls_of self.old }
        ensures first { first_of self.new ≡ first_of self.old }
        ensures failing { failing_of self.new ≡ failing_of self.old }
        ensures made { made_of self.new ≡ made_of self.old }
        ensures faults { faults_of self.new ≡ faults_of self.old }
    {
        self.plan.stop = Some(calls);
    }

    /// The bytes that a read gives.
    pub fn bytes(&self) -> &[u8]
        ensures { result.now ≡ bytes_of self.now }
    {
        &self.log.bytes
    }

    /// An image that a crash may leave now. Each write and cut since the last sync that succeeded
    /// meets its fate, in order; those behind the list's end are whole.
    pub fn image(&self, alloc: Global, fates: &[Fate]) -> Result<Vec<u8>, Memory>
        ensures { IfOk result (λ image. images_of self.now image.items) }
    {
        let mut replay = Replay {
            bytes: self.log.first.to_vec(alloc)?,
            image: self.log.first.to_vec(alloc)?,
            changes: 0,
        };
        for call in &self.log.calls {
            replay.step(alloc, call, fates)?;
        }
        Ok(replay.image)
    }

    /// The calls that it kept, in order.
    pub fn calls(&self) -> &[Call]
        ensures { result.now ≡ calls_of self.now }
    {
        &self.log.calls
    }
}

impl Disk for MemoryDisk {
    ghost use Rattle.emu_disk.specs.Inner.Planned.{reads_of, images_of, past_of, moment_of, faults_of, IsMade};

    ghost reads = { reads_of };

    ghost may_leave = { images_of };

    ghost moment = { moment_of };

    ghost left_since = { past_of };

    ghost faults = { faults_of };

    ghost as_read = { λ m xs is.
        as_read_of m.log.first.items m.log.calls.items m.log.bytes.items xs m.log.replays is };

    ghost counts_now = { λ m t c le image.
        image_now m.log.first.items m.log.calls.items t c le image };

    ghost only_now = { λ m c was. image_only_now m.log.first.items m.log.calls.items c was };

    fn read(&mut self, at: u64, buf: &mut [u8]) -> Result<usize, Failed>
        ensures made { IsMade (λ done. Call.Read at (length buf.old) done)
            result self.old self.new }
        ensures bound { IfOk result (λ n. n ≤ length buf.new) }
        ensures bytes { IfOk result (λ n. IsReadOf (reads_of self.old) at n buf.new) }
        ensures same { reads_of self.new ≡ reads_of self.old }
        ensures crash { Within (images_of self.old) (images_of self.new) }
        ensures all { Within (images_of self.new) (images_of self.old) }
        ensures time { GoesOn moment_of past_of images_of self.old self.new }
        ensures cause { HasCause (faults_of self.old) (faults_of self.new) result }
    {
        let done = self.plan.turn();
        match self.log.read(at, buf, done) {
            Ok(count) => Ok(count),
            Err(Failed) => Err(fault(&mut self.faults)),
        }
    }

    fn write_at(&mut self, at: u64, bytes: &[u8]) -> Result<(), Failed>
        requires { HasPlace (reads_of self.old) at }
        ensures made { IsMade (λ done. Call.Write at bytes.now done) result self.old self.new }
        ensures written { OnOk result (
            reads_of self.new ≡ told (put at bytes.now) (reads_of self.old)) }
        ensures torn { OnErr result (
            Becomes (TornBy at bytes.now) (reads_of self.old) (reads_of self.new)) }
        ensures crash { Follows (TornBy at bytes.now) (images_of self.old) (images_of self.new) }
        ensures time { GoesOn moment_of past_of images_of self.old self.new }
        ensures cause { HasCause (faults_of self.old) (faults_of self.new) result }
    {
        let done = self.plan.turn();
        match self.log.write(self.alloc, at, bytes, done) {
            Ok(()) => Ok(()),
            Err(Failed) => Err(fault(&mut self.faults)),
        }
    }

    fn cut(&mut self, len: u64) -> Result<(), Failed>
        ensures made { IsMade (λ done. Call.Cut len done) result self.old self.new }
        ensures cut { OnOk result (reads_of self.new ≡ told (take len) (reads_of self.old)) }
        ensures left { OnErr result (
            Becomes (Scrambled len) (reads_of self.old) (reads_of self.new)) }
        ensures crash { OnOk result (
            Follows (Shorter len) (images_of self.old) (images_of self.new)) }
        ensures scrambled { OnErr result (
            Follows (Scrambled len) (images_of self.old) (images_of self.new)) }
        ensures time { GoesOn moment_of past_of images_of self.old self.new }
        ensures cause { HasCause (faults_of self.old) (faults_of self.new) result }
    {
        let done = self.plan.turn();
        match self.log.cut(len, done) {
            Ok(()) => Ok(()),
            Err(Failed) => Err(fault(&mut self.faults)),
        }
    }

    fn sync(&mut self) -> Result<(), Failed>
        ensures made { IsMade (λ done. Call.Sync done) result self.old self.new }
        ensures durable { OnOk result (Only (reads_of self.old) (images_of self.new)) }
        ensures same { reads_of self.new ≡ reads_of self.old }
        ensures crash { Within (images_of self.old) (images_of self.new) }
        ensures all { OnErr result (Within (images_of self.new) (images_of self.old)) }
        ensures time { GoesOn moment_of past_of images_of self.old self.new }
        ensures cause { HasCause (faults_of self.old) (faults_of self.new) result }
    {
        let done = self.plan.turn();
        match self.log.sync(done) {
            Ok(()) => Ok(()),
            Err(Failed) => Err(fault(&mut self.faults)),
        }
    }
}
