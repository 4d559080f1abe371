//! The command `run`: the store is opened, if there is one, the script is read, run and answered, and the disk is
//! given back.
ghost use Rattle.std.specs.Prelude.{◌≡◌, false};
ghost use Rattle.script_runs.specs.Told.{CompletesBy, SaysBy};

use emu_disk::Disk;
use emu_io::{Sink, Source};
use label_match::PatternMaker;
use script_runs::{Ran, run_alone, run_stored};
use std::alloc::Global;
use std::sync::Wait;
use std::thread::Threads;

/// Runs the script of the source in its order, with a store or without, and writes each reply before the next line is
/// run. The maker makes the patterns of each line's query when the line is read. With a store, that is opened before
/// the script is read; where it has a configuration, the script gives none. The disk is handed back. It may wait for
/// passes that read.
///
/// - `Fine`: the input was read to its end, and every request has its reply.
/// - `Script`: a line is no request; the lines before it were run, and the last line names it.
/// - `Read`: the script could not be read. It is read before its first line is run.
/// - `Write`: the output could not be written.
/// - `Disk`: the disk failed while the store was opened or its configuration written; nothing was written.
/// - `Damaged`: the store stands for no configuration and history; the last line names the place.
/// - `Memory`: memory ran out.
/// - `Limit`: a line has over 16,777,216 bytes, there are over 200,000 lines, or the script has over 268,435,456
///   bytes; the lines before were run. Or the code of the script's configuration has over 268,435,442 bytes.
pub fn run<R: Threads + Wait + Sync, S: Source, K: Sink, D: Disk, P: PatternMaker>(
    rt: &R,
    alloc: Global,
    store: bool,
    script: &mut S,
    out: &mut K,
    disk: D,
    patterns: &mut P,
) -> Ran<D>
    ensures says { SaysBy S.Source K.Sink D.Disk P.PatternMaker store script.old script.new
        out.old out.new disk result.disk patterns.old patterns.new result.status }
    ensures complete { CompletesBy S.Source K.Sink D.Disk P.PatternMaker store script.old script.new
        out.old out.new disk result.disk patterns.old patterns.new result.status }
    ensures untouched { store ≡ false → result.disk ≡ disk }
{
    if store {
        run_stored(rt, alloc, script, out, disk, patterns)
    } else {
        run_alone(rt, alloc, script, out, disk, patterns)
    }
}
