//! The command `live`: the store is opened, if there is one, the script is read whole, its sessions are run at once,
//! and what they were answered is written when all have ended.
ghost use Rattle.std.specs.Prelude.{◌≡◌, false};
ghost use Rattle.script_runs.specs.Inner.Lives.{IsSpread};
ghost use Rattle.script_runs.specs.Told.{CompletesBy, SaysLiveBy};

use emu_disk::Disk;
use emu_io::{Gate, Sink, Source};
use label_match::PatternMaker;
use script_runs::{Ran, Spread, live_alone, live_stored};
use std::alloc::Global;
use std::sync::Wait;
use std::thread::Threads;

/// Runs the sessions of the script of the source at once, with a store or without, and writes what they were answered
/// when all have ended. With a store, that is opened before the script is read; where it has a configuration, the
/// script gives none. The script is read whole before its first line is run. The disk is handed back. It may wait for
/// its own lanes and for passes that read. Its promise is the same over however many passes and workers it is spread.
///
/// - `Fine`: the input was read to its end, and every request has its reply.
/// - `Script`: a line is no request; no line was run, and the last line names it.
/// - `Read`: the script could not be read; no line was run.
/// - `Write`: the output could not be written; the lines may have been run.
/// - `Disk`: the disk failed while the store was opened or its configuration written; nothing was written.
/// - `Damaged`: the store stands for no configuration and history; the last line names the place.
/// - `Memory`: memory ran out.
/// - `Limit`: a line has over 16,777,216 bytes, there are over 200,000 lines, or the script has over 268,435,456
///   bytes; no line was run. Or the code of the script's configuration has over 268,435,442 bytes.
pub fn live<
    R: Threads + Wait + Sync,
    S: Source,
    K: Sink,
    D: Disk + Send,
    P: PatternMaker,
    G: Gate + Sync,
>(
    rt: &R,
    alloc: Global,
    store: bool,
    spread: Spread,
    script: &mut S,
    out: &mut K,
    disk: D,
    patterns: &mut P,
    gate: &G,
) -> Ran<D>
    requires { IsSpread spread }
    ensures says { SaysLiveBy S.Source K.Sink D.Disk P.PatternMaker store script.old script.new
        out.old out.new disk result.disk patterns.old patterns.new result.status }
    ensures complete { CompletesBy S.Source K.Sink D.Disk P.PatternMaker store script.old script.new
        out.old out.new disk result.disk patterns.old patterns.new result.status }
    ensures untouched { store ≡ false → result.disk ≡ disk }
{
    if store {
        live_stored(rt, alloc, spread, script, out, disk, patterns, gate)
    } else {
        live_alone(rt, alloc, spread, script, out, disk, patterns, gate)
    }
}
