//! How a command on the store ends.
ghost use Rattle.emu_cli.specs.Ends.{IsEndOf, IsRefusedBy};

use emu_names::Text;
use emudb_files::store_texts::{CommandFault, Refused, print_refused};
use script_runs::Ending;
use std::alloc::Global;

/// How a refused command ends.
pub(crate) fn refuse(alloc: Global, refused: &Refused) -> Ending
    ensures { IsRefusedBy refused.now result }
{
    match print_refused(alloc, refused) {
        Ok(text) => Ending::Refused(text),
        Err(_) => Ending::Memory,
    }
}

/// How a command ends that made a text, or was stopped.
pub(crate) fn end_of(alloc: Global, made: Result<Text, CommandFault>) -> Ending
    ensures { IsEndOf made result }
{
    match made {
        Ok(text) => Ending::Fine(text),
        Err(CommandFault::Refused(refused)) => refuse(alloc, &refused),
        Err(CommandFault::Read) => Ending::Read,
        Err(CommandFault::Disk) => Ending::Disk,
        Err(CommandFault::Memory) => Ending::Memory,
    }
}
