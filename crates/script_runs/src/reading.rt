//! A script that is read whole before its first line is run.
ghost use Rattle.std.specs.Prelude.{◌≡◌, ◌≤◌, ◌++◌, ℕ, Bool, List, All, IfErr, OnOk};
ghost use Rattle.emu_names.specs.declared.limits.TheConstants.{SCRIPT_LINES};
ghost use Rattle.script_runs.specs.Cuts.{cut};
ghost use Rattle.script_runs.specs.Inner.Reads.{HasRead, ReadsLines, ReadsScript, read_end};
ghost use Rattle.script_runs.specs.Inner.Turns.{IsUnreadFor};

use crate::cut::next_line;
use crate::running::read_next;
use db_config::Config;
use label_match::PatternMaker;
use live_run::{Line, Lines};
use program_output::Ended;
use script_lines::{LineFault, LineSet, ReadLine};
use std::alloc::Global;

/// What was read of a script so far.
#[derive(Drop)]
pub(crate) struct Reading {
    /// How many lines.
    pub(crate) number: u32,
    /// Whether the next line has to give a configuration.
    pub(crate) wants: bool,
    /// The configuration, where the script gave one.
    pub(crate) config: Option<Config>,
    /// The requests.
    pub(crate) lines: Lines,
    /// The same, as the lines behind them may name them.
    pub(crate) earlier: LineSet,
}

impl Reading {
    ghost use Rattle.std.specs.Prelude.{◌≡◌, ◌≤◌, ◌<◌, ◌+◌, ◌∷◌, ◌++◌, [], ℕ, Bool, List, All, IfErr, OnErr, OnOk};
    ghost use Rattle.emu_names.specs.declared.limits.TheConstants.{SCRIPT_LINES};
    ghost use Rattle.script_runs.specs.Inner.Reads.{HasRead, IsReading, ReadsLine};
    ghost use Rattle.script_runs.specs.Scripts.{earlier_line, read_from};
    ghost use Rattle.script_runs.specs.Inner.Turns.{IsUnreadFor};
    ghost use Rattle.program_output.specs.declared.ended.Ended.TheVariants.{Memory as OutOfMemory};

    /// Nothing is read; the script has to give a configuration, or not.
    fn new(alloc: Global, wants: bool) -> Reading
        ensures same { IsReading result (read_from wants) }
        ensures none { result.earlier ≡ [] }
    {
        Reading {
            number: 0,
            wants,
            config: None,
            lines: Lines::new(alloc),
            earlier: LineSet::new(alloc),
        }
    }

    /// Puts a request last.
    fn add(&mut self, line: Line) -> Result<(), Ended>
        requires room { self.old.number < SCRIPT_LINES }
        requires rises { All (λ it. it.line < line.line) self.old.earlier }
        ensures number { OnOk result (self.new.number ≡ self.old.number + 1) }
        ensures wants { OnOk result (self.new.wants ≡ self.old.wants) }
        ensures config { OnOk result (self.new.config ≡ self.old.config) }
        ensures lines { OnOk result (self.new.lines ≡ self.old.lines ++ line ∷ []) }
        ensures earlier { OnOk result (self.new.earlier ≡ self.old.earlier ++ earlier_line line ∷ []) }
        ensures why { IfErr result (λ end. end ≡ OutOfMemory) }
    {
        self.earlier.add(line.line, line.session, line.command)?;
        self.lines.push(line)?;
        self.number += 1;
        Ok(())
    }

    /// Reads one line more.
    fn take<P: PatternMaker>(
        &mut self,
        alloc: Global,
        line: &[u8],
        patterns: &mut P,
    ) -> Result<(), Ended>
        requires { All (λ it. it.line ≤ self.old.number) self.old.earlier }
        ensures read { (wants : Bool) (lines : List (List ℕ)) (refusals : ℕ) →
            HasRead wants lines self.old refusals (P.refusals patterns.old) →
            ReadsLine result wants lines line.now self.new refusals (P.refusals patterns.new) }
        ensures rises { OnOk result (All (λ it. it.line ≤ self.new.number) self.new.earlier) }
        ensures few { OnOk result (self.new.number ≤ SCRIPT_LINES) }
        ensures why { IfErr result IsUnreadFor }
    {
        match read_next(
            alloc,
            self.number,
            self.wants,
            &self.earlier,
            line,
            patterns,
        ) {
            Err(end) => Err(end),
            Ok(ReadLine::Blank) => {
                self.number += 1;
                Ok(())
            }
            Ok(ReadLine::Config(config)) => {
                self.config = Some(config);
                self.wants = false;
                self.number += 1;
                Ok(())
            }
            Ok(ReadLine::Request(request)) => self.add(request),
        }
    }
}

/// Reads the lines that are left of a script, one after another.
fn read_rest<P: PatternMaker>(
    alloc: Global,
    reading: &mut Reading,
    past: bool,
    bytes: &[u8],
    patterns: &mut P,
) -> Result<(), Ended>
    requires rises { All (λ it. it.line ≤ reading.old.number) reading.old.earlier }
    requires few { reading.old.number ≤ SCRIPT_LINES }
    ensures read { (wants : Bool) (lines : List (List ℕ)) (refusals : ℕ) →
        HasRead wants lines reading.old refusals (P.refusals patterns.old) →
        ReadsLines result wants past (lines ++ cut past bytes.now) reading.new refusals
        (P.refusals patterns.new) }
    ensures few { OnOk result (reading.new.number ≤ SCRIPT_LINES) }
    ensures why { IfErr result IsUnreadFor }
{
    let mut rest = bytes;
    'lines: loop {
        match next_line(past, rest) {
            None => return Ok(()),
            Some((line, after)) => {
                match reading.take(alloc, line, patterns) {
                    Ok(()) => {}
                    Err(end) => return Err(end),
                }
                rest = after;
            }
        }
    }
}

/// What a script is whose lines were all read, or what ends it behind them.
fn at_end(past: bool, reading: Reading) -> Result<Reading, Ended>
    requires { reading.number ≤ SCRIPT_LINES }
    ensures { result ≡ read_end past reading.wants reading }
{
    if past {
        return Err(Ended::Limit);
    }
    if reading.wants {
        return Err(Ended::AtFault(reading.number + 1, LineFault::ConfigPlace));
    }
    Ok(reading)
}

/// Reads a script whole. The first line at fault, or a limit that is passed, ends it; want of memory may come in place
/// of each.
pub(crate) fn read_script<P: PatternMaker>(
    alloc: Global,
    wants: bool,
    past: bool,
    bytes: &[u8],
    patterns: &mut P,
) -> Result<Reading, Ended>
    ensures read { ReadsScript result wants past (cut past bytes.now) (P.refusals patterns.old)
        (P.refusals patterns.new) }
    ensures why { IfErr result IsUnreadFor }
{
    let mut reading = Reading::new(alloc, wants);
    match read_rest(alloc, &mut reading, past, bytes, patterns) {
        Ok(()) => at_end(past, reading),
        Err(end) => Err(end),
    }
}
