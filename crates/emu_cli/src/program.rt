//! The commands on the store, by what the words ask for.
ghost use Rattle.std.specs.Prelude.{◌≡◌, true};
ghost use Rattle.cli_words.specs.Inner.Gives.{IsInRange};
ghost use Rattle.emu_cli.specs.Ends.{EndsOnStore, folder_told, is_of_store, refusals_told};

use crate::store::{StoreEnd, import_store, load_store, read_store};
use cli_words::Words;
use emu_disk::Disk;
use emu_io::{Folder, Gate};
use label_match::PatternMaker;
use std::alloc::Global;
use std::sync::Wait;
use std::thread::Threads;

/// Whether a command is one on the store.
pub fn is_of_store(command: &Words) -> bool
    ensures { result ≡ is_of_store command.now }
{
    match command {
        Words::Load { .. } | Words::Import { .. } => true,
        Words::History | Words::Export { .. } | Words::Ask { .. } => true,
        Words::TextGrid { .. } | Words::Config => true,
        Words::Run { .. } | Words::Live { .. } => false,
        Words::Work { .. } => false,
    }
}

/// Runs a command on the store, up to the text that it writes.
pub fn on_store<R: Threads + Wait + Sync, F: Folder, D: Disk, P: PatternMaker, G: Gate + Sync>(
    rt: &R,
    alloc: Global,
    command: &Words,
    folder: &mut F,
    disk: D,
    patterns: &mut P,
    gate: &G,
) -> StoreEnd<D>
    requires kind { is_of_store command.now ≡ true }
    requires ranges { IsInRange command.now }
    ensures { EndsOnStore D.Disk (folder_told F.Folder folder.old folder.new)
        (refusals_told P.PatternMaker patterns.old patterns.new) command.now
        result.ending disk result.disk }
{
    match command {
        Words::Load { name } => load_store(rt, alloc, name.as_str(), folder, disk),
        Words::Import {
            session,
            bundle,
            rate,
            file,
        } => import_store(
            rt,
            alloc,
            folder,
            session.as_str(),
            bundle.as_str(),
            *rate,
            file.as_str(),
            disk,
        ),
        _ => read_store(rt, alloc, command, disk, patterns, gate),
    }
}
