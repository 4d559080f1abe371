//! A source in memory that never fails, and a sink in memory that fails only past its room.
ghost use Rattle.std.specs.Prelude.{◌≡◌, [], ◌↔◌, ◌+◌, ◌<◌, ◌≤◌, length, min, IsErr, IfOk, IsOk, OnOk, OnErr};
ghost use Rattle.std.specs.Io.{ReadsAtMost, WritesAtMost};
ghost use Rattle.std.specs.Io.KnownBytes.{ReadConsumes, WriteAppends};
ghost use Rattle.emu_names.specs.Count.{HasCause};
ghost use Rattle.emu_names.specs.Inner.Count.{next_count};

use crate::copying::copy_front;
use emu_io::{Failed, Memory, Sink, Source};
use std::alloc::Global;
use std::marker::Model;

/// A source of given bytes that never fails. It gives as many bytes as the buffer takes.
#[derive(Drop)]
pub struct SureSource {
    bytes: Vec<u8>,
    at: usize,
}

impl Model for SureSource {
    ghost use Rattle.std.specs.Prelude.{ℕ, List, ◌≤◌, drop, length};

    ghost Value = { List ℕ };

    ghost view = { λ s. drop s.at s.bytes.items };

    ghost invariant = { λ s. s.at ≤ length s.bytes.items };
}

impl SureSource {
    /// The source of `bytes`.
    pub fn new(bytes: Vec<u8>) -> SureSource
        ensures { result ≡ bytes.items }
    {
        SureSource { bytes, at: 0 }
    }

    /// The bytes that are left to read.
    pub fn left(&self) -> &[u8]
        ensures { result.now ≡ self.now }
    {
        &self.bytes[self.at..]
    }
}

impl Source for SureSource {
    ghost use Rattle.std.specs.Prelude.{Some};

    ghost left = { λ s. Some s };

    ghost faults = { λ _. 0 };

    fn read(&mut self, buf: &mut [u8]) -> Result<usize, Failed>
        ensures bound { ReadsAtMost result buf.new }
        ensures bytes { ReadConsumes (Some self.old) (Some self.new) result buf.new }
        ensures cause { HasCause 0 0 result }

        // It never fails, and gives as much as there is and fits.
        ensures sure { IsOk result }
        ensures amount { IfOk result (λ n. n ≡ min (length self.old) (length buf.old)) }
    {
        let count = copy_front(&self.bytes[self.at..], buf);
        self.at += count;
        Ok(count)
    }
}

/// A sink in memory that takes its room when it is made, and fails only at a write that passes
/// this room. Such a write appends nothing.
#[derive(Drop)]
pub struct SureSink {
    bytes: Vec<u8>,
    room: usize,
    faults: u64,
}

impl Model for SureSink {
    ghost use Rattle.std.specs.Prelude.{◌≤◌, length};
    ghost use Rattle.std.specs.Vec.{vec_capacity};
    ghost use Rattle.memory_io.specs.Inner.InMemory.{RoomySink};

    ghost Value = { RoomySink };

    ghost view = { λ s. record { written = s.bytes.items; room = s.room; faults = s.faults } };

    ghost invariant = { λ s. (length s.bytes.items ≤ s.room) × (s.room ≤ vec_capacity s.bytes) };
}

impl SureSink {
    /// An empty sink with room for `room` bytes. The only refusal is want of memory.
    pub fn new(alloc: Global, room: usize) -> Result<SureSink, Memory>
        ensures written { IfOk result (λ made. made.written ≡ []) }
        ensures room { IfOk result (λ made. made.room ≡ room) }
        ensures faults { IfOk result (λ made. made.faults ≡ 0) }
    {
        let bytes = Vec::with_capacity(alloc, room)?;
        Ok(SureSink {
            bytes,
            room,
            faults: 0,
        })
    }

    /// The bytes that were written.
    pub fn bytes(&self) -> &[u8]
        ensures value { result.now ≡ self.now.written }
        ensures fits { length self.now.written ≤ self.now.room }
    {
        &self.bytes
    }

    /// How often a write failed.
    pub fn faults(&self) -> u64
        ensures { result ≡ self.now.faults }
    {
        self.faults
    }
}

impl Sink for SureSink {
    ghost use Rattle.std.specs.Prelude.{Some};

    ghost written = { λ s. Some s.written };

    ghost faults = { λ s. s.faults };

    fn write(&mut self, buf: &[u8]) -> Result<usize, Failed>
        ensures bound { WritesAtMost result buf.now }
        ensures some { IfOk result (λ n. 0 < length buf.now → 0 < n) }
        ensures bytes { WriteAppends (Some self.old.written) (Some self.new.written)
            result buf.now }
        ensures cause { HasCause self.old.faults self.new.faults result }

        // It fails exactly where the room is passed, and else takes all.
        ensures past { IsErr result ↔ (self.old.room < length self.old.written + length buf.now) }
        ensures whole { IfOk result (λ n. n ≡ length buf.now) }
        ensures kept { self.new.room ≡ self.old.room }
        ensures faultless { OnOk result (self.new.faults ≡ self.old.faults) }
        ensures faulty { OnErr result (self.new.faults ≡ next_count self.old.faults) }
    {
        if buf.len() > self.room - self.bytes.len() {
            self.faults = self.faults.saturating_add(1);
            return Err(Failed);
        }
        self.bytes.extend_from_slice(buf).unwrap();
        Ok(buf.len())
    }
}
