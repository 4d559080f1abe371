//! Reading a source as far as a limit, and writing all of a text.
ghost use Rattle.std.specs.Prelude.{◌≡◌, ◌≤◌, ℕ, List, length, IsTrue, IsErrOf, IfOk, OnOk, OnErr};
ghost use Rattle.std.specs.Io.KnownBytes.{Appends, Consumes};
ghost use Rattle.emu_names.specs.Count.{Rose};
ghost use Rattle.emu_io.specs.Fronts.{WritesFront};
ghost use Rattle.emu_io.specs.Inner.Fronts.{TakesFront, IsFrontOf};

use crate::faults::{Failed, ReadFault};
use crate::traits::{Sink, Source};
use std::alloc::Global;

/// How many bytes one read asks for.
const CHUNK: usize = 4_096;

/// The front of what a source had left.
#[derive(Debug, Drop)]
pub struct Front {
    /// The bytes.
    pub bytes: Vec<u8>,
    /// Whether the source had more bytes than these.
    pub past: bool,
}

/// Reads to the end of the source, or until it gave more than `most` bytes, of which the first
/// `most` are answered then. `Failed` comes only where a read failed in this call. After a refusal
/// the source has lost what was read.
pub fn read_front<S: Source>(alloc: Global, source: &mut S, most: usize) -> Result<Front, ReadFault>
    ensures taken { IfOk result (λ front.
        TakesFront (S.left source.old) (S.left source.new) front.bytes.items front.past) }
    ensures front { IfOk result (λ front.
        IsFrontOf (S.left source.old) most front.bytes.items front.past) }
    ensures fits { IfOk result (λ front. length front.bytes.items ≤ most) }
    ensures full { IfOk result (λ front. IsTrue front.past → length front.bytes.items ≡ most) }
    ensures lost { OnErr result (
        (bytes : List ℕ) × Consumes (S.left source.old) (S.left source.new) bytes) }
    ensures failed { IsErrOf result ReadFault.Failed →
        Rose (S.faults source.old) (S.faults source.new) }
    ensures later { S.faults source.old ≤ S.faults source.new }
{
    let mut bytes = Vec::new(alloc);
    let mut buffer = [0; CHUNK];
    'turns: loop {
        let count = source.read(&mut buffer)?;
        if count == 0 {
            return Ok(Front { bytes, past: false });
        }
        let room = most - bytes.len();
        if count > room {
            bytes.extend_from_slice(&buffer[..room])?;
            return Ok(Front { bytes, past: true });
        }
        bytes.extend_from_slice(&buffer[..count])?;
    }
}

/// Writes all of `bytes`. `Failed` comes only where a write failed in this call, and then the sink
/// has taken a front of `bytes`.
pub fn write_all<K: Sink>(sink: &mut K, bytes: &[u8]) -> Result<(), Failed>
    ensures ok { OnOk result (Appends (K.written sink.old) (K.written sink.new) bytes.now) }
    ensures front { WritesFront (K.written sink.old) (K.written sink.new) bytes.now }
    ensures failed { OnErr result (Rose (K.faults sink.old) (K.faults sink.new)) }
    ensures later { K.faults sink.old ≤ K.faults sink.new }
{
    let mut at = 0;
    'turns: while at < bytes.len() {
        at += sink.write(&bytes[at..])?;
    }
    Ok(())
}
