//! The text of the configuration of a store.
ghost use Rattle.std.specs.Prelude.{◌≡◌, IfOk};
ghost use Rattle.query_workers.specs.version_tree.Version.{state_of};
ghost use Rattle.store_texts.specs.Commands.{config_shown};

use crate::print::text_line;
use config_json::print_config;
use emu_names::{Memory, Text};
use query_workers::version_tree::Version;
use std::alloc::Global;

/// The configuration of a version on a line of its own (EMU-SDMS Manual, "The emuDB format": `_DBconfig.json`), as
/// `print_config` of `config_json` says. The only refusal is want of memory.
#[tactic(auto, unfolding(crate::specs::Commands::config_shown))]
pub fn config_text(alloc: Global, version: &Version) -> Result<Text, Memory>
    ensures { IfOk result (λ text. text ≡ config_shown (state_of version.now)) }
{
    let text = print_config(alloc, version.config())?;
    text_line(alloc, &text)
}
