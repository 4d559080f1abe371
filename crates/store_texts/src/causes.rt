//! What the last line says of each refusal of a command.
ghost use Rattle.std.specs.Prelude.{◌≡◌, IfOk, OnOk};
ghost use Rattle.serde_json.specs.View.{members_view, view};
ghost use Rattle.reply_texts.specs.Members.{with_all};
ghost use Rattle.store_texts.specs.Causes.{fault_members, refused_data, refused_members};

use crate::faults::{FileFault, Refused};
use emu_names::Memory;
use reply_texts::{put_config, put_grid, put_name, put_refusal, put_shape, put_text, put_whole};
use serde_json::{Map, Value};
use std::alloc::Global;

/// Puts the fault of a file or a folder, but for its path.
fn put_fault(
    members: &mut Map<String, Value>,
    alloc: Global,
    fault: &FileFault,
) -> Result<(), Memory>
    ensures { OnOk result (members_view members.new.entries
        ≡ with_all (fault_members fault.now) (members_view members.old.entries)) }
{
    match fault {
        FileFault::Absent => put_text(members, alloc, "cause", "Absent"),
        FileFault::TooLarge => put_text(members, alloc, "cause", "TooLarge"),
        FileFault::BadName => put_text(members, alloc, "cause", "BadName"),
        FileFault::NotJson => put_text(members, alloc, "cause", "NotJson"),
        FileFault::Shape(shape) => put_shape(members, alloc, "cause", shape),
        FileFault::Config(fault) => put_config(members, alloc, "cause", fault),
        FileFault::Grid(fault) => put_grid(members, alloc, "cause", *fault),
    }
}

/// Puts why a command is refused.
fn put_refused(
    members: &mut Map<String, Value>,
    alloc: Global,
    refused: &Refused,
) -> Result<(), Memory>
    ensures { OnOk result (members_view members.new.entries
        ≡ with_all (refused_members refused.now) (members_view members.old.entries)) }
{
    match refused {
        Refused::NoConfiguration => put_text(members, alloc, "cause", "NoConfiguration"),
        Refused::StoreHasConfiguration => {
            put_text(members, alloc, "cause", "StoreHasConfiguration")
        }
        Refused::BadName => put_text(members, alloc, "cause", "BadName"),
        Refused::NoBundle => put_text(members, alloc, "cause", "NoBundle"),
        Refused::TooManyEntries(name) => {
            put_name(members, alloc, "cause", "TooManyEntries", name)
        }
        Refused::Request(refusal) => put_refusal(members, alloc, "cause", refusal),
        Refused::File(file, fault) => {
            put_text(members, alloc, "file", file.as_str())?;
            put_fault(members, alloc, fault)
        }
    }
}

/// The object of the last line of a command that is refused.
pub(crate) fn refused_value(alloc: Global, refused: &Refused) -> Result<Value, Memory>
    ensures { IfOk result (λ v. view v ≡ refused_data refused.now) }
{
    let mut members = Map::new(alloc);
    put_whole(&mut members, alloc, "status", 10)?;
    put_refused(&mut members, alloc, refused)?;
    Ok(Value::from(members))
}
