//! What calls do to bytes, and an image that a crash may leave, picked by fates.
ghost use Rattle.std.specs.Prelude.{◌≡◌, OnOk};
ghost use Rattle.emu_disk.specs.Disk.{put, TornBy, Shorter, Scrambled};
ghost use Rattle.emu_disk.specs.Inner.Memory.{landed, kept, effect, Step, CutLeaves, SyncLeaves};

use crate::bytes::{keep_front, write_over};
use crate::call::Call;
use std::alloc::{AllocError, Global};

/// What becomes of a write or a cut that no later sync has made safe. Of a cut all but `Whole` is
/// as `Lost`.
#[derive(Clone, Copy, Debug, PartialEq, Eq)]
pub enum Fate {
    /// Nothing is left of it.
    Lost,
    /// The first half of its bytes.
    Half,
    /// All of it.
    Whole,
    /// This byte in its whole range.
    Filled(u8),
}

// What a read gives after some calls, an image at that moment, and the number of changes since the
// last sync.
#[derive(Drop)]
pub(crate) struct Replay {
    pub(crate) bytes: Vec<u8>,
    pub(crate) image: Vec<u8>,
    pub(crate) changes: usize,
}

impl Replay {
    /// Goes on with a call.
    pub(crate) fn step(
        &mut self,
        alloc: Global,
        call: &Call,
        fates: &[Fate],
    ) -> Result<(), AllocError>
        ensures bytes { OnOk result (self.new.bytes.items ≡ effect call.now self.old.bytes.items) }
        ensures image { OnOk result (
            Step call.now self.old.bytes.items self.old.image.items self.new.image.items) }
    {
        match call {
            Call::Read { .. } => Ok(()),
            Call::Write { at, bytes, done } => {
                self.write(alloc, *at, bytes.as_slice(), *done, fates)
            }
            Call::Cut { len, done } => {
                self.cut(*len, *done, fates);
                Ok(())
            }
            Call::Sync { done } => self.sync(alloc, *done),
        }
    }

    fn write(
        &mut self,
        alloc: Global,
        at: u64,
        bytes: &[u8],
        done: bool,
        fates: &[Fate],
    ) -> Result<(), AllocError>
        ensures bytes { OnOk result (
            self.new.bytes.items ≡ put at (landed done bytes.now) self.old.bytes.items) }
        ensures image { OnOk result (
            TornBy at bytes.now self.old.image.items self.new.image.items) }
    {
        write_over(&mut self.bytes, at, part(bytes, done))?;
        let fate = fates.get(self.changes).copied().unwrap_or(Fate::Whole);
        tear(alloc, &mut self.image, at, bytes, fate)?;
        self.changes = self.changes.saturating_add(1);
        Ok(())
    }

    fn cut(&mut self, len: u64, done: bool, fates: &[Fate])
        ensures bytes { self.new.bytes.items ≡ kept done len self.old.bytes.items }
        ensures image { CutLeaves done len self.old.image.items self.new.image.items }
    {
        let fate = fates.get(self.changes).copied().unwrap_or(Fate::Whole);
        shorten(&mut self.image, len, fate);
        keep(&mut self.bytes, len, done);
        self.changes = self.changes.saturating_add(1);
    }

    fn sync(&mut self, alloc: Global, done: bool) -> Result<(), AllocError>
        ensures bytes { OnOk result (self.new.bytes.items ≡ self.old.bytes.items) }
        ensures image { OnOk result (
            SyncLeaves done self.old.bytes.items self.old.image.items self.new.image.items) }
    {
        if done {
            self.image = self.bytes.to_vec(alloc)?;
            self.changes = 0;
        }
        Ok(())
    }
}

/// The bytes of a write that land.
pub(crate) fn part(bytes: &[u8], done: bool) -> &[u8]
    ensures { result.now ≡ landed done bytes.now }
{
    if done {
        bytes
    } else {
        &bytes[..bytes.len() / 2]
    }
}

// Keeps the bytes that a cut keeps.
fn keep(bytes: &mut Vec<u8>, len: u64, done: bool)
    ensures { bytes.new.items ≡ kept done len bytes.old.items }
{
    if done {
        keep_front(bytes, len);
    }
}

// Leaves of a write what its fate is.
fn tear(
    alloc: Global,
    image: &mut Vec<u8>,
    at: u64,
    bytes: &[u8],
    fate: Fate,
) -> Result<(), AllocError>
    ensures { OnOk result (TornBy at bytes.now image.old.items image.new.items) }
{
    match fate {
        Fate::Lost => Ok(()),
        Fate::Half => write_over(image, at, part(bytes, false)),
        Fate::Whole => write_over(image, at, bytes),
        Fate::Filled(byte) => write_over(image, at, &vec![in alloc; byte; bytes.len()]?),
    }
}

// Leaves of a cut what its fate is.
fn shorten(image: &mut Vec<u8>, len: u64, fate: Fate)
    ensures done { Shorter len image.old.items image.new.items }
    ensures failed { Scrambled len image.old.items image.new.items }
{
    match fate {
        Fate::Whole => keep_front(image, len),
        _ => {}
    }
}
