//! The commands that read the store: `history`, `config`, `export`, `textgrid`, `ask`.
ghost use Rattle.std.specs.Prelude.{◌≡◌, IfOk, true};
ghost use Rattle.std.specs.Option.{option_copied};
ghost use Rattle.version_tree.specs.edit_rules.Effects.{database_after};
ghost use Rattle.emudb_files.specs.store_texts.Commands.{Tells, config_shown, exported, grid_exported};
ghost use Rattle.emu_cli.specs.Ends.{EndsBook, IsMadeText, reads_book, refusals_told};

use crate::ending::end_of;
use cli_words::Words;
use emu_disk::Disk;
use emu_io::Gate;
use emu_names::{Memory, Text};
use emudb_files::store_texts::{
    CommandFault, ask_text, config_text, export_text, history_text, textgrid_text,
};
use label_match::PatternMaker;
use script_runs::{Book, Ending};
use std::alloc::Global;
use std::thread::Threads;

/// How many workers answer the query of `ask`.
const ASK_WORKERS: u32 = 1;

/// The configuration of a book, on a line of its own.
#[tactic(auto, using(crate::proofs::Told::config_after))]
fn config_of<D: Disk>(alloc: Global, book: &Book<D>) -> Result<Text, Memory>
    ensures { IfOk result (λ text. text
        ≡ config_shown (database_after book.now.config book.now.history)) }
{
    let shown = book.in_force()?;
    config_text(alloc, &shown.version)
}

/// The annotation of a bundle of a book, on a line of its own.
#[tactic(auto, using(crate::proofs::Told::exported_after))]
fn export_of<D: Disk>(
    alloc: Global,
    book: &Book<D>,
    session: &str,
    bundle: &str,
) -> Result<Text, CommandFault>
    ensures { Tells result (exported (database_after book.now.config book.now.history)
        session.now bundle.now) }
{
    let shown = book.in_force()?;
    export_text(alloc, &shown.version, session, bundle)
}

/// The TextGrid of a bundle of a book.
#[tactic(auto, using(crate::proofs::Told::gridded_after))]
fn grid_of<D: Disk>(
    alloc: Global,
    book: &Book<D>,
    session: &str,
    bundle: &str,
) -> Result<Text, CommandFault>
    ensures { Tells result (grid_exported (database_after book.now.config book.now.history)
        session.now bundle.now) }
{
    let shown = book.in_force()?;
    textgrid_text(alloc, &shown.version, session, bundle)
}

/// The answer to a query over a book.
#[tactic(auto, using(crate::proofs::Told::asked_after))]
fn answer_of<R: Threads + Sync, D: Disk, P: PatternMaker, G: Gate + Sync>(
    rt: &R,
    alloc: Global,
    book: &Book<D>,
    patterns: &mut P,
    eql: &str,
    time: Option<&str>,
    gate: &G,
) -> Result<Text, CommandFault>
    ensures { IsMadeText (Words.Ask eql.now (option_copied time.entry))
        (refusals_told P.PatternMaker patterns.old patterns.new)
        book.now.config book.now.history result }
{
    let Ok(shown) = book.in_force() else {
        return Err(CommandFault::Memory);
    };
    ask_text(
        rt,
        alloc,
        &shown.version,
        patterns,
        eql,
        time,
        ASK_WORKERS,
        gate,
    )
}

/// The text of a command that reads a book.
fn text_of<R: Threads + Sync, D: Disk, P: PatternMaker, G: Gate + Sync>(
    rt: &R,
    alloc: Global,
    command: &Words,
    book: &Book<D>,
    patterns: &mut P,
    gate: &G,
) -> Result<Text, CommandFault>
    requires { reads_book command.now ≡ true }
    ensures made { IsMadeText command.now (refusals_told P.PatternMaker patterns.old patterns.new)
        book.now.config book.now.history result }
{
    match command {
        Words::History => Ok(history_text(alloc, book.history())?),
        Words::Config => Ok(config_of(alloc, book)?),
        Words::Export { session, bundle } => {
            export_of(alloc, book, session.as_str(), bundle.as_str())
        }
        Words::TextGrid { session, bundle } => {
            grid_of(alloc, book, session.as_str(), bundle.as_str())
        }
        Words::Ask { eql, time } => {
            answer_of(
                rt,
                alloc,
                book,
                patterns,
                eql.as_str(),
                level_of(time),
                gate,
            )
        }
        _ => unreachable!(),
    }
}

/// The name of the level of the times, where one is given.
fn level_of(time: &Option<Text>) -> Option<&str>
    ensures { option_copied result ≡ time.now }
{
    match time {
        Some(level) => Some(level.as_str()),
        None => None,
    }
}

/// How a command ends that reads a book.
pub(crate) fn read_book<R: Threads + Sync, D: Disk, P: PatternMaker, G: Gate + Sync>(
    rt: &R,
    alloc: Global,
    command: &Words,
    book: &Book<D>,
    patterns: &mut P,
    gate: &G,
) -> Ending
    requires { reads_book command.now ≡ true }
    ensures { EndsBook (IsMadeText command.now (refusals_told P.PatternMaker patterns.old patterns.new))
        book.now.config book.now.history result }
{
    let made = text_of(rt, alloc, command, book, patterns, gate);
    end_of(alloc, made)
}
