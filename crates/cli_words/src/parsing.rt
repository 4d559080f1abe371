//! The words, parsed by the command.
ghost use Rattle.std.specs.Prelude.{◌≡◌, [], IfOk, IsErrOf, map, string_bytes};
ghost use Rattle.clap.specs.Words.{fault_of, subcommand_of, subcommand_rows_of};
ghost use Rattle.cli_words.specs.Inner.Apps.{emu};

use crate::command::command;
use crate::words::WordsFault;
use clap::ArgMatches;
use clap::error::ErrorKind;
use std::alloc::Global;

/// What the command finds in the words: the subcommand with its arguments, `Usage` where it refuses one, or that memory
/// ran out.
pub(crate) fn parsed<'a>(alloc: Global, words: &'a [String]) -> Result<ArgMatches<'a>, WordsFault>
    ensures fits { IfOk result (λ m. fault_of emu (map (λ w. string_bytes w) words.entry.now) ≡ []) }
    ensures rows { IfOk result (λ m.
        subcommand_rows_of m ≡ subcommand_of emu (map (λ w. string_bytes w) words.entry.now)) }
    ensures usage { IsErrOf result WordsFault.Usage
        → fault_of emu (map (λ w. string_bytes w) words.entry.now) ≡ [] → ⊥ }
{
    let Ok(command) = command(alloc) else {
        return Err(WordsFault::Memory);
    };
    match command.try_get_matches_from(words) {
        Ok(matches) => Ok(matches),
        Err(error) => {
            if error.kind() == ErrorKind::OutOfMemory {
                Err(WordsFault::Memory)
            } else {
                Err(WordsFault::Usage)
            }
        }
    }
}
