//! The command `work`: a script that is made from a number is run, its sessions at once and without a store, and one
//! line sums up what was found.
ghost use Rattle.std.specs.Prelude.{◌≤◌};
ghost use Rattle.emu_names.specs.declared.limits.TheConstants.{BUNDLES};
ghost use Rattle.emu_cli.specs.Calls.{EndsWork};
ghost use Rattle.script_runs.specs.program_output.declared.ending.Ending.{Ending as Ends};
ghost use Rattle.script_runs.specs.Told.{FinishesBy};

use emu_disk::Disk;
use emu_io::{Gate, Sink};
use label_match::PatternMaker;
use script_runs::{Ending, Status, finish};
use std::alloc::Global;
use std::sync::Wait;
use std::thread::Threads;
use work_script::work;

/// How the command ends before its line is written: with the line, or memory ran out.
fn work_end<R: Threads + Wait + Sync, D: Disk + Send, P: PatternMaker, G: Gate + Sync>(
    rt: &R,
    alloc: Global,
    number: u64,
    bundles: u32,
    patterns: &mut P,
    gate: &G,
) -> Ending
    requires { bundles ≤ BUNDLES }
    ensures { EndsWork number bundles result }
{
    match work::<R, D, P, G>(rt, alloc, number, bundles, patterns, gate) {
        Ok(text) => Ending::Fine(text),
        Err(_) => Ending::Memory,
    }
}

/// Runs the script of a number, with so many bundles, and writes the line that sums it up. `D` is the disk of a book
/// that has none.
pub(crate) fn perform_work<
    R: Threads + Wait + Sync,
    K: Sink,
    D: Disk + Send,
    P: PatternMaker,
    G: Gate + Sync,
>(
    rt: &R,
    alloc: Global,
    number: u64,
    bundles: u32,
    out: &mut K,
    patterns: &mut P,
    gate: &G,
) -> Status
    requires { bundles ≤ BUNDLES }
    ensures { (ending : Ends) × EndsWork number bundles ending × FinishesBy K.Sink out.old out.new result ending }
{
    let ending = work_end::<R, D, P, G>(rt, alloc, number, bundles, patterns, gate);
    finish(out, &ending)
}
