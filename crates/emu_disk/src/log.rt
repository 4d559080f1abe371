//! The calls of a disk in memory, and what a read gives after them.
ghost use Rattle.std.specs.Prelude.{◌≡◌, ◌⊎◌, ◌≤◌, length, take, true, false, IfOk, OnOk, OnErr};
ghost use Rattle.emu_disk.specs.Disk.{put, IsRead};
ghost use Rattle.emu_disk.specs.Inner.Memory.{content, effect};

use crate::bytes::{copy_from, keep_front, overlay};
use crate::call::{Call, Written};
use crate::disk::Failed;
use crate::replay::part;
use std::alloc::{AllocError, Global};

// The bytes at first, the calls since then, and what a read gives after them.
#[derive(Drop)]
pub(crate) struct Log {
    pub(crate) first: Vec<u8>,
    pub(crate) calls: Vec<Call>,
    pub(crate) bytes: Vec<u8>,
    ghost replays: { bytes.items ≡ content first.items calls.items },
}

impl Log {
    ghost use Rattle.emu_disk.specs.Inner.Moves.{Adds, Stays, Keeps};

    // Adds a call that changes no byte.
    fn note(&mut self, call: Call) -> Result<(), AllocError>
        requires { effect call self.old.bytes.items ≡ self.old.bytes.items }
        ensures ok { OnOk result (Adds call self.old self.new) }
        ensures err { OnErr result (Stays self.old self.new) }
        ensures bytes { self.new.bytes.items ≡ self.old.bytes.items }
    {
        self.calls.push(call)?;
        Ok(())
    }

    // Adds a call that puts these bytes at a place.
    fn put(&mut self, call: Call, at: u64, bytes: &[u8]) -> Result<(), AllocError>
        requires within { at ≤ length self.old.bytes.items }
        requires puts { effect call self.old.bytes.items ≡ put at bytes.now self.old.bytes.items }
        ensures ok { OnOk result (Adds call self.old self.new) }
        ensures err { OnErr result (Stays self.old self.new) }
    {
        self.bytes.reserve(bytes.len())?;
        self.calls.push(call)?;
        overlay(&mut self.bytes, at as usize, bytes);
        Ok(())
    }

    // Adds a call that keeps the first bytes, at most as many as there are.
    fn shorten(&mut self, call: Call, len: u64) -> Result<(), AllocError>
        requires { effect call self.old.bytes.items ≡ take len self.old.bytes.items }
        ensures ok { OnOk result (Adds call self.old self.new) }
        ensures err { OnErr result (Stays self.old self.new) }
    {
        self.calls.push(call)?;
        keep_front(&mut self.bytes, len);
        Ok(())
    }

    pub(crate) fn read(&mut self, at: u64, buf: &mut [u8], done: bool) -> Result<usize, Failed>
        ensures due { OnOk result (done ≡ true) }
        ensures failed { OnErr result ((done ≡ false) ⊎ Stays self.old self.new) }
        ensures bytes { IfOk result (λ n. IsRead self.old.bytes.items at n buf.new) }
        ensures moves { Keeps (λ done. Call.Read at (length buf.old) done)
            result self.old self.new }
    {
        self.note(Call::Read {
            at,
            len: buf.len() as u64,
            done,
        })?;
        if !done {
            return Err(Failed);
        }
        Ok(copy_from(&self.bytes, at, buf))
    }

    pub(crate) fn write(
        &mut self,
        alloc: Global,
        at: u64,
        bytes: &[u8],
        done: bool,
    ) -> Result<(), Failed>
        requires { at ≤ length self.old.bytes.items }
        ensures due { OnOk result (done ≡ true) }
        ensures failed { OnErr result ((done ≡ false) ⊎ Stays self.old self.new) }
        ensures moves { Keeps (λ done. Call.Write at bytes.now done) result self.old self.new }
    {
        let landed = part(bytes, done);
        let bytes = Written::new(bytes.to_vec(alloc)?);
        self.put(Call::Write { at, bytes, done }, at, landed)?;
        if done { Ok(()) } else { Err(Failed) }
    }

    pub(crate) fn cut(&mut self, len: u64, done: bool) -> Result<(), Failed>
        ensures due { OnOk result (done ≡ true) }
        ensures failed { OnErr result ((done ≡ false) ⊎ Stays self.old self.new) }
        ensures moves { Keeps (λ done. Call.Cut len done) result self.old self.new }
    {
        if !done {
            self.note(Call::Cut { len, done: false })?;
            return Err(Failed);
        }
        self.shorten(Call::Cut { len, done: true }, len)?;
        Ok(())
    }

    pub(crate) fn sync(&mut self, done: bool) -> Result<(), Failed>
        ensures due { OnOk result (done ≡ true) }
        ensures failed { OnErr result ((done ≡ false) ⊎ Stays self.old self.new) }
        ensures moves { Keeps (λ done. Call.Sync done) result self.old self.new }
    {
        self.note(Call::Sync { done })?;
        if done { Ok(()) } else { Err(Failed) }
    }
}
