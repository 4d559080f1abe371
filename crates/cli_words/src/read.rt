//! The words of a command line, read.
ghost use Rattle.std.specs.Prelude.{◌≡◌, ◌∷◌, [], IfOk, Some, codes, false, map, option_map, string_bytes};
ghost use Rattle.std.specs.List.{list_any};
ghost use Rattle.clap.specs.Words.{first_of, found_of, rows_of, subcommand_rows_of};
ghost use Rattle.cli_words.specs.Lines.{is_true};
ghost use Rattle.cli_words.specs.Forms.{ask, export, import, live, load, run, textgrid, words_of, work};
ghost use Rattle.cli_words.specs.Inner.Gives.{IsInRange, ReadsWords};
ghost use Rattle.cli_words.specs.Inner.Readings.{IsPair, ends_options, read_by, read_found, read_named};
ghost use Rattle.cli_words.specs.declared.words.Words.TheVariants.{Run};

use crate::numbers::{number_in, number_of};
use crate::parsing::parsed;
use crate::words::{WORKERS, WORKERS_UNASKED, Words, WordsFault};
use clap::ArgMatches;
use emu_names::Text;
use emu_names::limits::{BUNDLES, TOP_RATE};
use std::alloc::Global;

/// The value under a name, where there is one.
fn value<'a>(matches: &ArgMatches<'a>, name: &str) -> Option<&'a str>
    ensures { option_map (λ s. s.now) result ≡ first_of name.now (rows_of (found_of matches.now)) }
{
    matches.get_str(name)
}

/// Whether the flag `--store` is set.
fn has_store(matches: &ArgMatches) -> bool
    ensures { result ≡ is_true (first_of (codes "store") (rows_of (found_of matches.now))) }
{
    match value(matches, "store") {
        Some(text) => text == "true",
        None => false,
    }
}

/// `run`, read.
fn read_run(matches: &ArgMatches) -> Result<Words, WordsFault>
    ensures { ReadsWords result (read_by run (rows_of (found_of matches.now))) }
{
    Ok(Words::Run {
        store: has_store(matches),
    })
}

/// `live`, read.
fn read_live(matches: &ArgMatches) -> Result<Words, WordsFault>
    ensures { ReadsWords result (read_by live (rows_of (found_of matches.now))) }
{
    let store = has_store(matches);
    let Some(text) = value(matches, "workers") else {
        return Ok(Words::Live {
            store,
            workers: WORKERS_UNASKED,
        });
    };
    match number_in(text, 1, WORKERS) {
        Some(number) => Ok(Words::Live {
            store,
            workers: number as u32,
        }),
        None => Err(WordsFault::Usage),
    }
}

/// `ask`, read.
fn read_ask(alloc: Global, matches: &ArgMatches) -> Result<Words, WordsFault>
    ensures { ReadsWords result (read_by ask (rows_of (found_of matches.now))) }
{
    let Some(eql) = value(matches, "eql") else {
        return Err(WordsFault::Usage);
    };
    let eql = Text::new(alloc, eql)?;
    match value(matches, "time") {
        Some(level) => {
            let level = Text::new(alloc, level)?;
            Ok(Words::Ask {
                eql,
                time: Some(level),
            })
        }
        None => Ok(Words::Ask { eql, time: None }),
    }
}

/// `load`, read.
fn read_load(alloc: Global, matches: &ArgMatches) -> Result<Words, WordsFault>
    ensures { ReadsWords result (read_by load (rows_of (found_of matches.now))) }
{
    let Some(name) = value(matches, "name") else {
        return Err(WordsFault::Usage);
    };
    let name = Text::new(alloc, name)?;
    Ok(Words::Load { name })
}

/// `import`, read.
fn read_import(alloc: Global, matches: &ArgMatches) -> Result<Words, WordsFault>
    ensures { ReadsWords result (read_by import (rows_of (found_of matches.now))) }
{
    let Some(session) = value(matches, "session") else {
        return Err(WordsFault::Usage);
    };
    let Some(bundle) = value(matches, "bundle") else {
        return Err(WordsFault::Usage);
    };
    let Some(rate) = value(matches, "rate") else {
        return Err(WordsFault::Usage);
    };
    let Some(file) = value(matches, "file") else {
        return Err(WordsFault::Usage);
    };
    let Some(rate) = number_in(rate, 1, TOP_RATE) else {
        return Err(WordsFault::Usage);
    };
    let rate = rate as u32;
    let session = Text::new(alloc, session)?;
    let bundle = Text::new(alloc, bundle)?;
    let file = Text::new(alloc, file)?;
    Ok(Words::Import {
        session,
        bundle,
        rate,
        file,
    })
}

/// The texts under the names `session` and `bundle`.
fn bundle_named(alloc: Global, matches: &ArgMatches) -> Result<(Text, Text), WordsFault>
    ensures { IsPair result (first_of (codes "session") (rows_of (found_of matches.now)))
        (first_of (codes "bundle") (rows_of (found_of matches.now))) }
{
    let Some(session) = value(matches, "session") else {
        return Err(WordsFault::Usage);
    };
    let Some(bundle) = value(matches, "bundle") else {
        return Err(WordsFault::Usage);
    };
    Ok((Text::new(alloc, session)?, Text::new(alloc, bundle)?))
}

/// `export`, read.
fn read_export(alloc: Global, matches: &ArgMatches) -> Result<Words, WordsFault>
    ensures { ReadsWords result (read_by export (rows_of (found_of matches.now))) }
{
    let (session, bundle) = bundle_named(alloc, matches)?;
    Ok(Words::Export { session, bundle })
}

/// `textgrid`, read.
fn read_textgrid(alloc: Global, matches: &ArgMatches) -> Result<Words, WordsFault>
    ensures { ReadsWords result (read_by textgrid (rows_of (found_of matches.now))) }
{
    let (session, bundle) = bundle_named(alloc, matches)?;
    Ok(Words::TextGrid { session, bundle })
}

/// `work`, read.
fn read_work(matches: &ArgMatches) -> Result<Words, WordsFault>
    ensures { ReadsWords result (read_by work (rows_of (found_of matches.now))) }
{
    let Some(number) = value(matches, "number") else {
        return Err(WordsFault::Usage);
    };
    let Some(bundles) = value(matches, "bundles") else {
        return Err(WordsFault::Usage);
    };
    let Some(number) = number_of(number) else {
        return Err(WordsFault::Usage);
    };
    match number_in(bundles, 1, BUNDLES as u64) {
        Some(bundles) => Ok(Words::Work {
            number,
            bundles: bundles as u32,
        }),
        None => Err(WordsFault::Usage),
    }
}

/// The subcommand of a name, read.
fn read_named(alloc: Global, name: &str, matches: &ArgMatches) -> Result<Words, WordsFault>
    ensures { ReadsWords result (read_named name.now (rows_of (found_of matches.now))) }
{
    match name {
        "run" => read_run(matches),
        "live" => read_live(matches),
        "ask" => read_ask(alloc, matches),
        "load" => read_load(alloc, matches),
        "import" => read_import(alloc, matches),
        "export" => read_export(alloc, matches),
        "textgrid" => read_textgrid(alloc, matches),
        "history" => Ok(Words::History),
        "config" => Ok(Words::Config),
        "work" => read_work(matches),
        _ => Err(WordsFault::Usage),
    }
}

/// Whether the word `--` stands among the words: `clap` ends the options there, and no command line has it.
fn has_dashes(words: &[String]) -> bool
    ensures { result ≡ list_any ends_options (map (λ w. string_bytes w) words.now) }
{
    let mut rest = words;
    while let [word, after @ ..] = rest {
        if word.as_str() == "--" {
            return true;
        }
        rest = after;
    }
    false
}

/// What the subcommand that was found asks for.
fn read_found(alloc: Global, matches: &ArgMatches) -> Result<Words, WordsFault>
    ensures { ReadsWords result (read_found (subcommand_rows_of matches.now)) }
{
    match matches.subcommand() {
        Some((name, matches)) => read_named(alloc, name, matches),
        None => Err(WordsFault::Usage),
    }
}

/// What the words behind the program's name ask for. `Usage` comes exactly where they are no command line
/// (`words_of`); the only other refusal is that memory ran out. The numbers are in their ranges (`IsInRange`).
pub fn read_words(alloc: Global, words: &[String]) -> Result<Words, WordsFault>
    ensures ranges { IfOk result IsInRange }
    ensures read { ReadsWords result (words_of (map (λ w. string_bytes w) words.now)) }
{
    if has_dashes(words) {
        return Err(WordsFault::Usage);
    }
    match parsed(alloc, words) {
        Ok(matches) => read_found(alloc, &matches),
        Err(fault) => Err(fault),
    }
}

/// A law: the one word `run` asks for a run without a store.
pub fn run_alone()
    ensures { words_of (codes "run" ∷ []) ≡ Some (Run false) }
{}
