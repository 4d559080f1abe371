//! The history of a store, read of its bodies.
ghost use Rattle.std.specs.Prelude.{◌≡◌, ◌<◌, ◌++◌, [], ◌∷◌, ℕ, List, length, IfOk, IfErr, Ok, OnOk, IsTrue};
ghost use Rattle.db_config.specs.declared.parts.ConfigParts.{ConfigParts};
ghost use Rattle.db_config.specs.Valid.{is_valid};
ghost use Rattle.live_book.specs.edit_code.Codes.{IsEntryCode, IsHeadCode};
ghost use Rattle.edit_journal.specs.Held.{texts_of};
ghost use Rattle.version_tree.specs.edit_rules.Database.{KeepsDatabaseRules};
ghost use Rattle.version_tree.specs.edit_rules.Effects.{effect};
ghost use Rattle.version_tree.specs.Version.{state_of};
ghost use Rattle.version_tree.specs.Inner.Version.{first_version, next_number};
ghost use Rattle.live_book.specs.Histories.{IsNoEntry, IsNoHead, IsNoNext};
ghost use Rattle.book_opening.specs.Inner.Opens.{IsReplay, IsWrong, IsWrongIn};
ghost use Rattle.book_opening.specs.Inner.Prepared.{BreaksRule, IsHistoryOf, IsWrongTail};

use crate::fault::OpenFault;
use db_config::Config;
use edit_journal::Body;
use emu_names::limits::HISTORY_EDITS;
use emu_names::{Memory, Shared};
use live_book::edit_code::{CodeFault, read_entry, read_head};
use live_book::next_version;
use std::alloc::Global;
use version_tree::Version;
use version_tree::edit_rules::{ChangeFault, Entries, Entry};

/// Entries that were read, the configuration before them, and the version after them.
#[derive(Drop)]
pub(crate) struct Replayed {
    pub(crate) opening: Shared<Config>,
    pub(crate) version: Version,
    pub(crate) entries: Entries,
}

/// The configuration of a body.
fn config_of(alloc: Global, body: &Body) -> Result<Config, OpenFault>
    ensures ok { IfOk result (λ config. IsHeadCode body.now.bytes config) }
    ensures err { IfErr result (λ fault. IsWrong (λ at.
        (at ≡ body.now.at) × IsNoHead body.now.bytes) fault) }
{
    match read_head(alloc, body.bytes.as_slice()) {
        Ok(config) => Ok(config),
        Err(CodeFault::NotAnEntry(_)) => Err(OpenFault::Damaged(body.at)),
        Err(CodeFault::Memory) => Err(OpenFault::Memory),
    }
}

/// The entry of a body.
fn entry_of(alloc: Global, body: &Body) -> Result<Entry, OpenFault>
    ensures ok { IfOk result (λ entry. IsEntryCode body.now.bytes entry) }
    ensures err { IfErr result (λ fault. IsWrong (λ at.
        (at ≡ body.now.at) × IsNoEntry body.now.bytes) fault) }
{
    match read_entry(alloc, body.bytes.as_slice()) {
        Ok(entry) => Ok(entry),
        Err(CodeFault::NotAnEntry(_)) => Err(OpenFault::Damaged(body.at)),
        Err(CodeFault::Memory) => Err(OpenFault::Memory),
    }
}

/// The version behind an entry that stands in a body.
fn version_behind(
    alloc: Global,
    version: &Version,
    entry: &Entry,
    body: &Body,
) -> Result<Version, OpenFault>
    requires { KeepsDatabaseRules (state_of version.now) }
    ensures state { IfOk result (λ next.
        effect (state_of version.now) entry.now.act ≡ Ok (state_of next)) }
    ensures number { IfOk result (λ next. next.number ≡ next_number version.now.number) }
    ensures err { IfErr result (λ fault. IsWrong (λ at.
        (at ≡ body.now.at) × BreaksRule version.now entry.now.act) fault) }
{
    match next_version(alloc, version, &entry.act) {
        Ok(next) => Ok(next),
        Err(ChangeFault::Broken(_)) => Err(OpenFault::Damaged(body.at)),
        Err(ChangeFault::Memory) => Err(OpenFault::Memory),
    }
}

/// Puts an entry behind those that were read, and its version in the place of theirs.
fn put(replayed: &mut Replayed, entry: Entry, version: Version) -> Result<(), Memory>
    ensures entries { OnOk result (replayed.new.entries ≡ replayed.old.entries ++ entry ∷ []) }
    ensures version { OnOk result (replayed.new.version ≡ version) }
    ensures opening { OnOk result (replayed.new.opening ≡ replayed.old.opening) }
{
    let pushed = replayed.entries.push(&entry);
    drop(entry);
    match pushed {
        Ok(()) => {
            replayed.version = version;
            Ok(())
        }
        Err(fault) => {
            drop(version);
            Err(fault)
        }
    }
}

/// Adds the entry of a body.
fn add(alloc: Global, replayed: &mut Replayed, body: &Body) -> Result<(), OpenFault>
    requires { (config : ConfigParts) × (texts : List (List ℕ)) × IsReplay config texts replayed.old }
    ensures ok { (config : ConfigParts) (texts : List (List ℕ)) → IsReplay config texts replayed.old
        → OnOk result (IsReplay config (texts ++ body.now.bytes ∷ []) replayed.new) }
    ensures err { (config : ConfigParts) (texts : List (List ℕ)) → IsReplay config texts replayed.old
        → IfErr result (λ fault. IsWrong (λ at.
        (at ≡ body.now.at) × IsNoNext config replayed.old.entries body.now.bytes) fault) }
{
    if replayed.entries.len() >= HISTORY_EDITS {
        return Err(OpenFault::Damaged(body.at));
    }
    let entry = entry_of(alloc, body)?;
    match version_behind(alloc, &replayed.version, &entry, body) {
        Ok(version) => Ok(put(replayed, entry, version)?),
        Err(fault) => Err(fault),
    }
}

/// Adds the entries of bodies, behind the version of a configuration.
fn add_all(
    alloc: Global,
    opening: Shared<Config>,
    version: Version,
    bodies: &[Body],
) -> Result<Replayed, OpenFault>
    requires first { version ≡ first_version opening }
    requires valid { IsTrue (is_valid opening) }
    ensures ok { IfOk result (λ r. IsReplay opening (texts_of bodies.now) r) }
    ensures err { IfErr result (λ fault. IsWrong (IsWrongTail opening bodies.now) fault) }
{
    let mut replayed = Replayed {
        opening,
        version,
        entries: Entries::new(alloc),
    };
    'bodies: for body in bodies {
        add(alloc, &mut replayed, body)?;
    }
    Ok(replayed)
}

/// The configuration of a body, and the history of those behind it.
fn replay_behind(alloc: Global, head: &Body, rest: &[Body]) -> Result<Replayed, OpenFault>
    ensures ok { IfOk result (λ r. IsHistoryOf (head.now.bytes ∷ texts_of rest.now) r) }
    ensures err { IfErr result (λ fault. IsWrong (IsWrongIn (head.now ∷ rest.now)) fault) }
{
    let config = config_of(alloc, head)?;
    let version = Version::new(alloc, config)?;
    let opening = version.shared_config(alloc)?;
    add_all(alloc, opening, version, rest)
}

/// The configuration and the history of bodies, of which there is one.
pub(crate) fn replay(alloc: Global, bodies: &[Body]) -> Result<Replayed, OpenFault>
    requires { 0 < length bodies.now }
    ensures ok { IfOk result (λ r. IsHistoryOf (texts_of bodies.now) r) }
    ensures err { IfErr result (λ fault. IsWrong (IsWrongIn bodies.now) fault) }
{
    match bodies {
        [head, rest @ ..] => replay_behind(alloc, head, rest),
        [] => unreachable!(),
    }
}
