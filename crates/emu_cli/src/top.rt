//! The top call.
ghost use Rattle.std.specs.Prelude.{◌≡◌, ◌≤◌, true, false};
ghost use Rattle.script_runs.specs.program_output.declared.ending.Ending.{Ending as Ends};
ghost use Rattle.emu_cli.specs.Ends.{is_of_store};
ghost use Rattle.cli_words.specs.Inner.Gives.{IsInRange};
ghost use Rattle.script_runs.specs.program_output.Texts.{usage_text};
ghost use Rattle.emu_cli.specs.Calls.{AskForRun, AsksForStore, CallCompletesBy, CallEndsBy, CallSaysBy, CommandCodeCompletesBy, CommandCompletesBy, EndsOnStoreBy, RunCompletesBy, WorkCodeCompletes, texts_of};
ghost use Rattle.emu_cli.specs.Inner.Calls.{EndsApart, WorkCompletes, live_asked, run_asked};
ghost use Rattle.script_runs.specs.program_output.Statuses.{WritesLast};
ghost use Rattle.script_runs.specs.Told.{FinishesBy};

use crate::at_once::live;
use crate::in_order::run;
use crate::work_command::perform_work;
use crate::{StoreEnd, is_of_store, on_store};
use cli_words::{Words, WordsFault, read_words};
use emu_disk::Disk;
use emu_io::{Folder, Gate, Sink, Source};
use label_match::PatternMaker;
use script_runs::{Ran, Spread, Status, code, finish, usage};
use std::alloc::Global;
use std::sync::Wait;
use std::thread::Threads;

/// Over how many passes the sessions of a live run look at the state: one for each session.
const LIVE_READERS: u32 = 16;

/// How a call ended, and its disk.
#[derive(Drop)]
pub struct Exit<D: Disk> {
    /// The program's status.
    pub status: u8,
    /// The disk.
    pub disk: D,
}

/// Whether a run that is asked for is one with a store; nothing where no run is asked for.
fn run_asked(asked: &Words) -> Option<bool>
    ensures { result ≡ run_asked asked.now }
{
    match asked {
        Words::Run { store } => Some(*store),
        Words::Live { .. } | Words::Ask { .. } | Words::Load { .. } | Words::Import { .. } => None,
        Words::Export { .. } | Words::TextGrid { .. } | Words::History => None,
        Words::Config | Words::Work { .. } => None,
    }
}

/// Whether a live run that is asked for is one with a store; nothing where no live run is asked for.
fn live_asked(asked: &Words) -> Option<bool>
    ensures { result ≡ live_asked asked.now }
{
    match asked {
        Words::Live { store, .. } => Some(*store),
        Words::Run { .. } | Words::Ask { .. } | Words::Load { .. } | Words::Import { .. } => None,
        Words::Export { .. } | Words::TextGrid { .. } | Words::History => None,
        Words::Config | Words::Work { .. } => None,
    }
}

/// How many workers a live run has that is asked for: 1 to 8.
fn workers_asked(asked: &Words) -> u32
    requires ranges { IsInRange asked.now }
    ensures few { (1 ≤ result) × (result ≤ 8) }
{
    match asked {
        Words::Live { workers, .. } => *workers,
        _ => 1,
    }
}

/// Runs a command on the store, and writes its text.
fn perform_on_store<
    R: Threads + Wait + Sync,
    K: Sink,
    F: Folder,
    D: Disk,
    P: PatternMaker,
    G: Gate + Sync,
>(
    rt: &R,
    alloc: Global,
    command: &Words,
    out: &mut K,
    folder: &mut F,
    disk: D,
    patterns: &mut P,
    gate: &G,
) -> Ran<D>
    requires kind { is_of_store command.now ≡ true }
    requires ranges { IsInRange command.now }
    ensures { (ending : Ends) × EndsOnStoreBy F.Folder D.Disk P.PatternMaker folder.old folder.new
        disk result.disk patterns.old patterns.new command.now ending
        × FinishesBy K.Sink out.old out.new result.status ending }
{
    let StoreEnd { ending, disk } = on_store(rt, alloc, command, folder, disk, patterns, gate);
    Ran {
        status: finish(out, &ending),
        disk,
    }
}

/// Runs a command that is no run and none on the store: `work`, or none that the program does.
fn perform_apart<
    R: Threads + Wait + Sync,
    K: Sink,
    D: Disk + Send,
    P: PatternMaker,
    G: Gate + Sync,
>(rt: &R, alloc: Global, command: &Words, out: &mut K, patterns: &mut P, gate: &G) -> Status
    requires ranges { IsInRange command.now }
    ensures { EndsApart command.now (FinishesBy K.Sink out.old out.new result)
        (WritesLast result Status.Usage
        (K.written out.old) (K.written out.new) (K.faults out.old) (K.faults out.new) usage_text) }
{
    match command {
        Words::Work { number, bundles } => {
            perform_work::<R, K, D, P, G>(rt, alloc, *number, *bundles, out, patterns, gate)
        }
        Words::Run { .. } | Words::Live { .. } | Words::Ask { .. } | Words::Load { .. } => {
            usage(alloc, out)
        }
        Words::Import { .. } | Words::Export { .. } | Words::TextGrid { .. } => usage(alloc, out),
        Words::History | Words::Config => usage(alloc, out),
    }
}

/// Runs a command that is no run: on the store, `work`, or none that the program does.
fn perform_other<
    R: Threads + Wait + Sync,
    K: Sink,
    F: Folder,
    D: Disk + Send,
    P: PatternMaker,
    G: Gate + Sync,
>(
    rt: &R,
    alloc: Global,
    command: &Words,
    out: &mut K,
    folder: &mut F,
    disk: D,
    patterns: &mut P,
    gate: &G,
) -> Ran<D>
    requires ranges { IsInRange command.now }
    ensures store { is_of_store command.now ≡ true → (ending : Ends)
        × EndsOnStoreBy F.Folder D.Disk P.PatternMaker folder.old folder.new
        disk result.disk patterns.old patterns.new command.now ending
        × FinishesBy K.Sink out.old out.new result.status ending }
    ensures apart { is_of_store command.now ≡ false → EndsApart command.now
        (FinishesBy K.Sink out.old out.new result.status)
        (WritesLast result.status Status.Usage
        (K.written out.old) (K.written out.new) (K.faults out.old) (K.faults out.new) usage_text) }
    ensures untouched { is_of_store command.now ≡ false → result.disk ≡ disk }
{
    if is_of_store(command) {
        perform_on_store(rt, alloc, command, out, folder, disk, patterns, gate)
    } else {
        Ran {
            status: perform_apart::<R, K, D, P, G>(rt, alloc, command, out, patterns, gate),
            disk,
        }
    }
}

/// Runs the program on its words, and answers how it ends.
fn perform<
    R: Threads + Wait + Sync,
    S: Source,
    K: Sink,
    F: Folder,
    D: Disk + Send,
    P: PatternMaker,
    G: Gate + Sync,
>(
    rt: &R,
    alloc: Global,
    words: &[String],
    script: &mut S,
    out: &mut K,
    folder: &mut F,
    disk: D,
    patterns: &mut P,
    gate: &G,
) -> Ran<D>
    ensures says { CallEndsBy S.Source K.Sink F.Folder D.Disk P.PatternMaker (texts_of words.now)
        script.old script.new out.old out.new folder.old folder.new disk result.disk
        patterns.old patterns.new result.status }
    ensures complete { RunCompletesBy S.Source K.Sink F.Folder D.Disk P.PatternMaker (texts_of words.now)
        script.old script.new out.old out.new folder.old folder.new disk result.disk
        patterns.old patterns.new result.status }
    ensures commands { CommandCompletesBy K.Sink F.Folder D.Disk (texts_of words.now)
        out.old out.new folder.old folder.new disk result.disk result.status }
    ensures works { WorkCompletes (texts_of words.now) (K.faults out.old) (K.faults out.new) result.status }
    ensures untouched { (AskForRun (texts_of words.now) true → ⊥) →
        (AsksForStore (texts_of words.now) → ⊥) → result.disk ≡ disk }
{
    match read_words(alloc, words) {
        Ok(asked) => match run_asked(&asked) {
            Some(store) => run(rt, alloc, store, script, out, disk, patterns),
            None => match live_asked(&asked) {
                Some(stored) => {
                    let spread = Spread {
                        readers: LIVE_READERS,
                        workers: workers_asked(&asked),
                    };
                    live(rt, alloc, stored, spread, script, out, disk, patterns, gate)
                }
                None => perform_other(rt, alloc, &asked, out, folder, disk, patterns, gate),
            },
        },
        Err(WordsFault::Usage) => Ran {
            status: usage(alloc, out),
            disk,
        },
        Err(WordsFault::Memory) => Ran {
            status: Status::Memory,
            disk,
        },
    }
}

/// Runs the program on its words, and hands the disk back.
///
/// `run` runs the script of the source, in its order, and `live` its sessions at once, with `--store` over the store on
/// the disk. `history`, `config`, `export`, `textgrid` and `ask` read the store; `import` and `load` add bundles to it from
/// files of the folder. `work` makes a script from a number, runs its sessions at once without a store, and sums up what was found.
/// The gate is told of the pieces of the query of `ask`, and in a live run and in `work` of those of each query and of
/// each line that is answered. The status is
///
/// - 0: the input was read to its end, and every request has its reply; or the command's text was written.
/// - 2: the words are no command.
/// - 3: a line of the script is no request; the lines before it were run, of a live run none, and the last line names
///   it.
/// - 4: the script or the folder could not be read.
/// - 5: the output could not be written.
/// - 6: the disk failed, while the store was opened, its configuration written, or a bundle stored by `load` or
///   `import`.
/// - 7: the store stands for no configuration and history; the last line names the place.
/// - 8: memory ran out.
/// - 9: a line has over 16,777,216 bytes, there are over 200,000 lines, or the script has over 268,435,456 bytes; or
///   the store has no room for the script's configuration.
/// - 10: the command is refused, and the last line says why.
pub fn emu<
    R: Threads + Wait + Sync,
    S: Source,
    K: Sink,
    F: Folder,
    D: Disk + Send,
    P: PatternMaker,
    G: Gate + Sync,
>(
    rt: &R,
    alloc: Global,
    words: &[String],
    script: &mut S,
    out: &mut K,
    folder: &mut F,
    disk: D,
    patterns: &mut P,
    gate: &G,
) -> Exit<D>
    ensures says { CallSaysBy S.Source K.Sink F.Folder D.Disk P.PatternMaker (texts_of words.now)
        script.old script.new out.old out.new folder.old folder.new disk result.disk
        patterns.old patterns.new result.status }
    ensures complete { CallCompletesBy S.Source K.Sink F.Folder D.Disk P.PatternMaker (texts_of words.now)
        script.old script.new out.old out.new folder.old folder.new disk result.disk
        patterns.old patterns.new result.status }
    ensures commands { CommandCodeCompletesBy K.Sink F.Folder D.Disk (texts_of words.now)
        out.old out.new folder.old folder.new disk result.disk result.status }
    ensures works { WorkCodeCompletes (texts_of words.now) (K.faults out.old) (K.faults out.new) result.status }
    ensures untouched { (AskForRun (texts_of words.now) true → ⊥) →
        (AsksForStore (texts_of words.now) → ⊥) → result.disk ≡ disk }
{
    let Ran { status, disk } = perform(rt, alloc, words, script, out, folder, disk, patterns, gate);
    Exit {
        status: code(status),
        disk,
    }
}
