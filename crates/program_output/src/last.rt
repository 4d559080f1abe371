//! The last lines of runs that end early.
ghost use Rattle.std.specs.Prelude.{◌≢◌, ◌≤◌, IfErr};
ghost use Rattle.store_texts.specs.Texts.{damaged_text};
ghost use Rattle.program_output.specs.Inner.Written.{IsTold};
ghost use Rattle.program_output.specs.Statuses.{Finishes, WritesLast};
ghost use Rattle.program_output.specs.Inner.Statuses.{Closes};
ghost use Rattle.program_output.specs.Texts.{fault_text, limit_text, usage_text};

use crate::ended::Ended;
use crate::ending::Ending;
use crate::lines::{print_fault, print_last};
use crate::output::write_text;
use crate::status::Status;
use emu_io::Sink;
use emu_names::Text;
use script_lines::LineFault;
use std::alloc::Global;
use store_texts::print_damaged;

/// Writes the last line of a run that ends with `status`, and answers how the run ends.
fn write_last<K: Sink>(out: &mut K, text: &Text, status: Status) -> Status
    ensures last { WritesLast result status (K.written out.old) (K.written out.new)
        (K.faults out.old) (K.faults out.new) text.now }
    ensures later { K.faults out.old ≤ K.faults out.new }
{
    match write_text(out, text) {
        Ok(()) => status,
        Err(Ended::Write) => Status::Write,
        Err(_) => Status::Memory,
    }
}

/// Writes that the words are no command.
pub fn usage<K: Sink>(alloc: Global, out: &mut K) -> Status
    ensures last { WritesLast result Status.Usage (K.written out.old) (K.written out.new)
        (K.faults out.old) (K.faults out.new) usage_text }
{
    match print_last(alloc, "Usage", 2) {
        Ok(text) => write_last(out, &text, Status::Usage),
        Err(_) => Status::Memory,
    }
}

/// Writes that the store stands for no configuration and history, and where it is damaged.
pub fn damaged<K: Sink>(alloc: Global, at: u64, out: &mut K) -> Status
    ensures last { WritesLast result Status.Damaged (K.written out.old) (K.written out.new)
        (K.faults out.old) (K.faults out.new) (damaged_text at) }
{
    match print_damaged(alloc, at) {
        Ok(text) => write_last(out, &text, Status::Damaged),
        Err(_) => Status::Memory,
    }
}

/// Writes that a limit is passed.
fn over<K: Sink>(alloc: Global, out: &mut K) -> Status
    ensures last { WritesLast result Status.Limit (K.written out.old) (K.written out.new)
        (K.faults out.old) (K.faults out.new) limit_text }
    ensures later { K.faults out.old ≤ K.faults out.new }
{
    match print_last(alloc, "Limit", 9) {
        Ok(text) => write_last(out, &text, Status::Limit),
        Err(_) => Status::Memory,
    }
}

/// Writes that a line is at fault.
fn at_fault<K: Sink>(alloc: Global, line: u32, fault: &LineFault, out: &mut K) -> Status
    requires { fault.now ≢ LineFault.Memory }
    ensures last { WritesLast result Status.Script (K.written out.old) (K.written out.new)
        (K.faults out.old) (K.faults out.new) (fault_text line fault.now) }
    ensures later { K.faults out.old ≤ K.faults out.new }
{
    match print_fault(alloc, line, fault) {
        Ok(text) => write_last(out, &text, Status::Script),
        Err(_) => Status::Memory,
    }
}

/// Writes the last line of a run that ended so, if it has one, and answers how the run ends.
pub fn close_run<K: Sink>(alloc: Global, ended: Result<(), Ended>, out: &mut K) -> Status
    requires { IfErr ended IsTold }
    ensures closes { Closes ended result (K.written out.old) (K.written out.new) (K.faults out.old)
        (K.faults out.new) }
    ensures later { K.faults out.old ≤ K.faults out.new }
{
    match ended {
        Ok(()) => Status::Fine,
        Err(Ended::Limit) => over(alloc, out),
        Err(Ended::AtFault(line, fault)) => at_fault(alloc, line, &fault, out),
        Err(Ended::NoRoom) => over(alloc, out),
        Err(Ended::Disk) => Status::Disk,
        Err(Ended::Write) => Status::Write,
        Err(Ended::Memory) => Status::Memory,
    }
}

/// Writes the text with which a command on the store ends, if it has one, and answers how it ends.
pub fn finish<K: Sink>(out: &mut K, ending: &Ending) -> Status
    ensures { Finishes result (K.written out.old) (K.written out.new) (K.faults out.old) (K.faults out.new)
        ending.now }
{
    match ending {
        Ending::Fine(text) => write_last(out, text, Status::Fine),
        Ending::Refused(text) => write_last(out, text, Status::Refused),
        Ending::Damaged(text) => write_last(out, text, Status::Damaged),
        Ending::Read => Status::Read,
        Ending::Disk => Status::Disk,
        Ending::Memory => Status::Memory,
    }
}
