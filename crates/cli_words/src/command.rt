//! The command of the program, as `clap` parses it.
ghost use Rattle.std.specs.Prelude.{◌≡◌, IfOk, false, map};
ghost use Rattle.clap.specs.Words.{app_of, rule_of, with_rule, with_subcommand};
ghost use Rattle.clap.specs.declared.builder.command.Command.TheViews.{out-Command as fields_of};
ghost use Rattle.cli_words.specs.Forms.{command_lines};
ghost use Rattle.cli_words.specs.Inner.Apps.{IsApp, bare, emu, flag, leaf, option, positional};
ghost use Rattle.cli_words.specs.Inner.Table.{row_app, taken_rule};

use clap::{Arg, ArgAction, Command};
use std::alloc::{AllocError, Global};

/// What a subcommand takes, under its name.
#[derive(Clone, Copy)]
enum Taken {
    /// `--name`.
    Flag(&'static str),
    /// `--name VALUE`.
    Value(&'static str),
    /// A positional word.
    Word(&'static str),
}

/// A subcommand: its name, and what it takes: flags, then options, then positional words in their order.
struct Row {
    name: &'static str,
    takes: &'static [Taken],
}

/// The subcommands of the program.
static ROWS: [Row; 10] = [
    Row {
        name: "run",
        takes: &[Taken::Flag("store")],
    },
    Row {
        name: "live",
        takes: &[Taken::Flag("store"), Taken::Value("workers")],
    },
    Row {
        name: "ask",
        takes: &[Taken::Value("time"), Taken::Word("eql")],
    },
    Row {
        name: "load",
        takes: &[Taken::Word("name")],
    },
    Row {
        name: "import",
        takes: &[
            Taken::Word("session"),
            Taken::Word("bundle"),
            Taken::Word("rate"),
            Taken::Word("file"),
        ],
    },
    Row {
        name: "export",
        takes: &[Taken::Word("session"), Taken::Word("bundle")],
    },
    Row {
        name: "textgrid",
        takes: &[Taken::Word("session"), Taken::Word("bundle")],
    },
    Row {
        name: "history",
        takes: &[],
    },
    Row {
        name: "config",
        takes: &[],
    },
    Row {
        name: "work",
        takes: &[Taken::Word("number"), Taken::Word("bundles")],
    },
];

/// `--name`.
fn flag<'a>(alloc: Global, name: &'a str) -> Arg<'a>
    ensures rule { rule_of result ≡ flag name.entry.now }
    ensures own { result.global ≡ false }
{
    Arg::new(alloc, name).long(name).action(ArgAction::SetTrue)
}

/// `--name VALUE`.
fn option<'a>(alloc: Global, name: &'a str) -> Arg<'a>
    ensures rule { rule_of result ≡ option name.entry.now }
    ensures own { result.global ≡ false }
{
    Arg::new(alloc, name).long(name).action(ArgAction::Set)
}

/// A positional word.
fn positional<'a>(alloc: Global, name: &'a str) -> Arg<'a>
    ensures rule { rule_of result ≡ positional name.entry.now }
    ensures own { result.global ≡ false }
{
    Arg::new(alloc, name).required(true).action(ArgAction::Set)
}

/// The command without subcommands: it wants one, and has no help and no version.
fn bare<'a>(alloc: Global) -> Command<'a>
    ensures { IsApp bare result }
{
    Command::new(alloc, "emu")
        .no_binary_name(true)
        .disable_help_flag(true)
        .disable_help_subcommand(true)
        .disable_version_flag(true)
        .subcommand_required(true)
}

/// The argument for what a subcommand takes.
fn argument<'a>(alloc: Global, taken: Taken) -> Arg<'a>
    ensures rule { rule_of result ≡ taken_rule taken }
    ensures own { result.global ≡ false }
{
    match taken {
        Taken::Flag(name) => flag(alloc, name),
        Taken::Value(name) => option(alloc, name),
        Taken::Word(name) => positional(alloc, name),
    }
}

/// The command that takes one thing more.
fn with_taken<'a>(
    alloc: Global,
    command: Command<'a>,
    taken: Taken,
) -> Result<Command<'a>, AllocError>
    requires { (fields_of command).has_globals ≡ false }
    ensures { IfOk result (IsApp (with_rule (app_of command.entry) (taken_rule taken))) }
{
    command.arg(argument(alloc, taken))
}

/// The subcommand of a row.
fn subcommand<'a>(alloc: Global, row: &Row) -> Result<Command<'a>, AllocError>
    ensures { IfOk result (IsApp (row_app row.now)) }
{
    let takes = row.takes;
    let mut command = Command::new(alloc, row.name);
    for &taken in takes {
        command = with_taken(alloc, command, taken)?;
    }
    Ok(command)
}

/// The command with the subcommand of one row more.
fn with_row<'a>(alloc: Global, command: Command<'a>, row: &Row) -> Result<Command<'a>, AllocError>
    requires { (fields_of command).has_globals ≡ false }
    ensures { IfOk result (IsApp (with_subcommand (app_of command.entry) (row_app row.now).top)) }
{
    let sub = subcommand(alloc, row)?;
    command.subcommand(sub)
}

/// The subcommands of the program, a row each.
fn rows() -> &'static [Row]
    ensures { map row_app result.now ≡ map leaf command_lines }
{
    &ROWS
}

/// The whole command.
pub(crate) fn command<'a>(alloc: Global) -> Result<Command<'a>, AllocError>
    ensures { IfOk result (IsApp emu) }
{
    let rows = rows();
    let mut command = bare(alloc);
    for row in rows {
        command = with_row(alloc, command, row)?;
    }
    Ok(command)
}
