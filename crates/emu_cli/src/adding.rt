//! The commands that add bundles to the store: `import` and `load`.
ghost use Rattle.emu_cli.specs.Ends.{EndsDone};
ghost use Rattle.emu_cli.specs.Inner.Ends.{TellsDone};

use crate::ending::end_of;
use emu_names::Text;
use emudb_files::store_texts::{CommandFault, print_done};
use script_runs::Ending;
use std::alloc::Global;

/// The text of a command that has added bundles, if memory holds it.
fn done_text(
    alloc: Global,
    command: &str,
    made: Result<u64, CommandFault>,
) -> Result<Text, CommandFault>
    ensures { TellsDone command.now made result }
{
    match made {
        Ok(n) => Ok(print_done(alloc, n, command)?),
        Err(fault) => Err(fault),
    }
}

/// How a command ends that added bundles, so that there are so many entries, or was stopped.
pub(crate) fn done_end(alloc: Global, command: &str, made: Result<u64, CommandFault>) -> Ending
    ensures { EndsDone command.now made result }
{
    let text = done_text(alloc, command, made);
    end_of(alloc, text)
}
