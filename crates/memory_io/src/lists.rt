//! A source and a sink in memory that fail at the calls that their maker lists.
ghost use Rattle.std.specs.Prelude.{◌≡◌, [], ◌↔◌, ◌<◌, length, min, Contains, IsErr, IfOk, OnErr, OnOk};
ghost use Rattle.std.specs.Io.{ReadsAtMost, WritesAtMost};
ghost use Rattle.std.specs.Io.KnownBytes.{ReadConsumes, WriteAppends};
ghost use Rattle.emu_names.specs.Count.{HasCause};
ghost use Rattle.emu_names.specs.Inner.Count.{next_count};

use crate::copying::copy_front;
use emu_io::{Failed, Sink, Source};
use std::alloc::Global;
use std::marker::Model;

/// A source of given bytes, which fails at listed reads. It gives as many bytes as the buffer
/// takes.
#[derive(Drop)]
pub struct ListSource {
    bytes: Vec<u8>,
    at: usize,
    calls: u64,
    fails: Vec<u64>,
    faults: u64,
}

impl Model for ListSource {
    ghost use Rattle.std.specs.Prelude.{◌≤◌, drop, length};
    ghost use Rattle.memory_io.specs.Inner.InMemory.{ListedSource};

    ghost Value = { ListedSource };

    ghost view = { λ s. record {
      left = drop s.at s.bytes.items;
      calls = s.calls;
      fails = s.fails.items;
      faults = s.faults;
    } };

    ghost invariant = { λ s. s.at ≤ length s.bytes.items };
}

impl ListSource {
    /// The source of `bytes`, whose reads fail at the numbers in `fails`, counted from 1.
    pub fn new(bytes: Vec<u8>, fails: Vec<u64>) -> ListSource
        ensures left { result.left ≡ bytes.items }
        ensures calls { result.calls ≡ 0 }
        ensures fails { result.fails ≡ fails.items }
        ensures faults { result.faults ≡ 0 }
    {
        ListSource {
            bytes,
            at: 0,
            calls: 0,
            fails,
            faults: 0,
        }
    }

    /// The bytes that are left to read.
    pub fn left(&self) -> &[u8]
        ensures { result.now ≡ self.now.left }
    {
        &self.bytes[self.at..]
    }

    /// How often a read failed.
    pub fn faults(&self) -> u64
        ensures { result ≡ self.now.faults }
    {
        self.faults
    }
}

impl Source for ListSource {
    ghost use Rattle.std.specs.Prelude.{Some};

    ghost left = { λ s. Some s.left };

    ghost faults = { λ s. s.faults };

    fn read(&mut self, buf: &mut [u8]) -> Result<usize, Failed>
        ensures bound { ReadsAtMost result buf.new }
        ensures bytes { ReadConsumes (Some self.old.left) (Some self.new.left) result buf.new }
        ensures cause { HasCause self.old.faults self.new.faults result }

        // It fails exactly at the listed calls, and else gives as much as there is and fits.
        ensures listed { IsErr result ↔ Contains self.old.fails (next_count self.old.calls) }
        ensures amount { IfOk result (λ n. n ≡ min (length self.old.left) (length buf.old)) }
        ensures counted { self.new.calls ≡ next_count self.old.calls }
        ensures kept { self.new.fails ≡ self.old.fails }
        ensures faultless { OnOk result (self.new.faults ≡ self.old.faults) }
        ensures faulty { OnErr result (self.new.faults ≡ next_count self.old.faults) }
    {
        self.calls = self.calls.saturating_add(1);
        if self.fails.contains(&self.calls) {
            self.faults = self.faults.saturating_add(1);
            return Err(Failed);
        }
        let count = copy_front(&self.bytes[self.at..], buf);
        self.at += count;
        Ok(count)
    }
}

/// A sink in memory, which fails at listed writes. It takes all bytes of a write that does not
/// fail. Where memory for them runs out, that counts as a fault too.
#[derive(Drop)]
pub struct ListSink {
    bytes: Vec<u8>,
    calls: u64,
    fails: Vec<u64>,
    faults: u64,
}

impl Model for ListSink {
    ghost use Rattle.memory_io.specs.Inner.InMemory.{ListedSink};

    ghost Value = { ListedSink };

    ghost view = { λ s. record {
      written = s.bytes.items;
      calls = s.calls;
      fails = s.fails.items;
      faults = s.faults;
    } };
}

impl ListSink {
    /// An empty sink, whose writes fail at the numbers in `fails`, counted from 1.
    pub fn new(alloc: Global, fails: Vec<u64>) -> ListSink
        ensures written { result.written ≡ [] }
        ensures calls { result.calls ≡ 0 }
        ensures fails { result.fails ≡ fails.items }
        ensures faults { result.faults ≡ 0 }
    {
        ListSink {
            bytes: Vec::new(alloc),
            calls: 0,
            fails,
            faults: 0,
        }
    }

    /// The bytes that were written.
    pub fn bytes(&self) -> &[u8]
        ensures { result.now ≡ self.now.written }
    {
        &self.bytes
    }

    /// How often a write failed.
    pub fn faults(&self) -> u64
        ensures { result ≡ self.now.faults }
    {
        self.faults
    }
}

impl Sink for ListSink {
    ghost use Rattle.std.specs.Prelude.{Some};

    ghost written = { λ s. Some s.written };

    ghost faults = { λ s. s.faults };

    fn write(&mut self, buf: &[u8]) -> Result<usize, Failed>
        ensures bound { WritesAtMost result buf.now }
        ensures some { IfOk result (λ n. 0 < length buf.now → 0 < n) }
        ensures bytes { WriteAppends (Some self.old.written) (Some self.new.written)
            result buf.now }
        ensures cause { HasCause self.old.faults self.new.faults result }

        // It fails at the listed calls, and else, unless memory runs out, takes all.
        ensures listed { Contains self.old.fails (next_count self.old.calls) → IsErr result }
        ensures whole { IfOk result (λ n. n ≡ length buf.now) }
        ensures counted { self.new.calls ≡ next_count self.old.calls }
        ensures kept { self.new.fails ≡ self.old.fails }
        ensures faultless { OnOk result (self.new.faults ≡ self.old.faults) }
        ensures faulty { OnErr result (self.new.faults ≡ next_count self.old.faults) }
    {
        self.calls = self.calls.saturating_add(1);
        if self.fails.contains(&self.calls) || self.bytes.extend_from_slice(buf).is_err() {
            self.faults = self.faults.saturating_add(1);
            return Err(Failed);
        }
        Ok(buf.len())
    }
}
