//! Last lines of runs, as texts.
ghost use Rattle.std.specs.Prelude.{◌≡◌, IfOk, OnOk, codes};
ghost use Rattle.serde_json.specs.View.{members_view, view};
ghost use Rattle.store_texts.specs.reply_texts.Members.{with_all};
ghost use Rattle.program_output.specs.Texts.{fault_data, fault_members, fault_text, last_data, last_text};

use emu_names::{Memory, Text};
use script_lines::LineFault;
use serde_json::{Map, Value};
use std::alloc::Global;
use store_texts::reply_texts::{print_value, put_config, put_shape, put_text, put_whole};

/// Puts what is said of a line's fault.
fn put_fault(
    members: &mut Map<String, Value>,
    alloc: Global,
    fault: &LineFault,
) -> Result<(), Memory>
    ensures { OnOk result (members_view members.new.entries
        ≡ with_all (fault_members fault.now) (members_view members.old.entries)) }
{
    match fault {
        LineFault::NotJson => put_text(members, alloc, "cause", "NotJson"),
        LineFault::Shape(shape) => put_shape(members, alloc, "cause", shape),
        LineFault::Config(fault) => put_config(members, alloc, "cause", fault),
        LineFault::NoSuchCommand => put_text(members, alloc, "cause", "NoSuchCommand"),
        LineFault::ConfigPlace => put_text(members, alloc, "cause", "ConfigPlace"),
        LineFault::BadAfter => put_text(members, alloc, "cause", "BadAfter"),
        LineFault::BadUndo => put_text(members, alloc, "cause", "BadUndo"),
        LineFault::Memory => put_text(members, alloc, "cause", "Memory"),
    }
}

/// The object of the last line of a run that a line at fault ends.
fn fault_value(alloc: Global, line: u32, fault: &LineFault) -> Result<Value, Memory>
    ensures { IfOk result (λ v. view v ≡ fault_data line fault.now) }
{
    let mut members = Map::new(alloc);
    put_whole(&mut members, alloc, "line", line as u64)?;
    put_whole(&mut members, alloc, "status", 3)?;
    put_fault(&mut members, alloc, fault)?;
    Ok(Value::from(members))
}

/// The last line of a run that the fault of this line ends. The only refusal is want of memory.
pub(crate) fn print_fault(alloc: Global, line: u32, fault: &LineFault) -> Result<Text, Memory>
    ensures { IfOk result (λ text. text ≡ fault_text line fault.now) }
{
    let value = fault_value(alloc, line, fault)?;
    print_value(alloc, &value)
}

/// The object of the last line of a run that ends for a cause that lies in no line.
fn last_value(alloc: Global, cause: &str, status: u8) -> Result<Value, Memory>
    ensures { IfOk result (λ v. view v ≡ last_data cause.now status) }
{
    let mut members = Map::new(alloc);
    put_whole(&mut members, alloc, "status", status as u64)?;
    put_text(&mut members, alloc, "cause", cause)?;
    Ok(Value::from(members))
}

/// The last line of a run that ends with this status for this cause, where no line is named. The only refusal is
/// want of memory.
pub(crate) fn print_last(alloc: Global, cause: &str, status: u8) -> Result<Text, Memory>
    ensures { IfOk result (λ text. text ≡ last_text cause.now status) }
{
    let value = last_value(alloc, cause, status)?;
    print_value(alloc, &value)
}
