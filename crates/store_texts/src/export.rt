//! The texts of a bundle of a store: its annotation, and its TextGrid.
ghost use Rattle.std.specs.Prelude.{◌≡◌, ◌++◌, ◌∷◌, [], IfOk, Some};
ghost use Rattle.bundle_state.specs.Built.{FitsConfig};
ghost use Rattle.annot_json.specs.Texts.{printed};
ghost use Rattle.grid_writing.specs.Written.{written};
ghost use Rattle.query_workers.specs.version_tree.Version.{state_of};
ghost use Rattle.store_texts.specs.Commands.{Tells, exported, grid_exported, grid_or_refused, gridded_at, key_of_words, name_of, shown_at};

use crate::faults::{CommandFault, Refused};
use crate::print::text_line;
use annot_json::print_annot;
use bundle_state::Bundle;
use db_config::Config;
use emu_names::{BundleKey, Memory, Name, NameFault, Text};
use grid_writing::{WriteFault, write_textgrid};
use query_workers::version_tree::Version;
use std::alloc::Global;

/// A word as a name, or none where it is none. The only refusal is want of memory.
fn name_of(alloc: Global, word: &str) -> Result<Option<Name>, Memory>
    ensures { IfOk result (λ name. name ≡ name_of word.now) }
{
    match Name::new(alloc, word) {
        Ok(name) => Ok(Some(name)),
        Err(NameFault::BadName) => Ok(None),
        Err(NameFault::Memory) => Err(Memory),
    }
}

/// Two words as a bundle's key, or none where one of them is no name. The only refusal is want of memory.
fn key_of_words(alloc: Global, session: &str, bundle: &str) -> Result<Option<BundleKey>, Memory>
    ensures { IfOk result (λ key. key ≡ key_of_words session.now bundle.now) }
{
    let Some(session) = name_of(alloc, session)? else {
        return Ok(None);
    };
    match name_of(alloc, bundle)? {
        Some(bundle) => Ok(Some(BundleKey { session, bundle })),
        None => Ok(None),
    }
}

/// The annotation of a bundle on a line of its own. The only refusal is want of memory.
fn annot_line(alloc: Global, config: &Config, bundle: &Bundle) -> Result<Text, Memory>
    requires { FitsConfig config.now bundle.now }
    ensures { IfOk result (λ text. text ≡ printed config.now bundle.now ++ 10 ∷ []) }
{
    let text = print_annot(alloc, config, bundle)?;
    text_line(alloc, &text)
}

/// The annotation of the bundle of a key on a line of its own.
fn bundle_line(alloc: Global, version: &Version, key: &BundleKey) -> Result<Text, CommandFault>
    ensures { Tells result (shown_at (state_of version.now) (Some key.now)) }
{
    match version.get(key) {
        Some(indexed) => Ok(annot_line(alloc, version.config(), indexed.bundle())?),
        None => Err(CommandFault::Refused(Refused::NoBundle)),
    }
}

/// The annotation of the bundle with these names on a line of its own. `NoBundle` comes exactly where no
/// bundle of the version has them, also where a word is no name. The only other failure is want of memory.
#[tactic(auto, unfolding(crate::specs::Commands::exported))]
pub fn export_text(
    alloc: Global,
    version: &Version,
    session: &str,
    bundle: &str,
) -> Result<Text, CommandFault>
    ensures { Tells result (exported (state_of version.now) session.now bundle.now) }
{
    match key_of_words(alloc, session, bundle)? {
        Some(key) => bundle_line(alloc, version, &key),
        None => Err(CommandFault::Refused(Refused::NoBundle)),
    }
}

/// A bundle as a TextGrid. `TooManyEntries` comes exactly where a level has too many entries.
fn grid_of(alloc: Global, config: &Config, bundle: &Bundle) -> Result<Text, CommandFault>
    requires { FitsConfig config.now bundle.now }
    ensures { Tells result (grid_or_refused (written config.now bundle.now)) }
{
    match write_textgrid(alloc, config, bundle) {
        Ok(text) => Ok(text),
        Err(WriteFault::TooManyEntries(name)) => {
            Err(CommandFault::Refused(Refused::TooManyEntries(name)))
        }
        Err(WriteFault::Memory) => Err(CommandFault::Memory),
    }
}

/// The bundle of a key as a TextGrid.
fn grid_at(alloc: Global, version: &Version, key: &BundleKey) -> Result<Text, CommandFault>
    ensures { Tells result (gridded_at (state_of version.now) (Some key.now)) }
{
    match version.get(key) {
        Some(indexed) => grid_of(alloc, version.config(), indexed.bundle()),
        None => Err(CommandFault::Refused(Refused::NoBundle)),
    }
}

/// The SEGMENT and EVENT levels of the bundle with these names as a TextGrid, as `write_textgrid` of
/// `grid_writing` says. `NoBundle` comes exactly where no bundle of the version has them, also where a word is
/// no name, and `TooManyEntries` exactly where a level of it has too many entries. The only other failure is
/// want of memory.
#[tactic(auto, unfolding(crate::specs::Commands::grid_exported))]
pub fn textgrid_text(
    alloc: Global,
    version: &Version,
    session: &str,
    bundle: &str,
) -> Result<Text, CommandFault>
    ensures { Tells result (grid_exported (state_of version.now) session.now bundle.now) }
{
    match key_of_words(alloc, session, bundle)? {
        Some(key) => grid_at(alloc, version, &key),
        None => Err(CommandFault::Refused(Refused::NoBundle)),
    }
}
