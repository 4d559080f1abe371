//! The codes of entries and of configurations.
ghost use Rattle.std.specs.Prelude.{◌≡◌, ◌<◌, ◌^◌, length, min, IfOk, IfErr, true};
ghost use Rattle.db_config.specs.declared.parts.ConfigParts.{ConfigParts};
ghost use Rattle.edit_rules.specs.declared.acts.Entry.{Entry};
ghost use Rattle.edit_code.specs.Codes.{entry_code, head_code, IsEntryCode, IsHeadCode};
ghost use Rattle.edit_code.specs.Inner.Codes.{HasCode, HasHeadCode, entry_of, head_of, Answers, AnswersIf, IsReadAs, IsPlace, whole};
ghost use Rattle.edit_code.specs.Edits.{entry_form};
ghost use Rattle.edit_code.specs.Names.{is_entry};
ghost use Rattle.value_codes.specs.Heads.{head_form};

use crate::entries::{entry_size, put_entry, read_raw};
use crate::fault::CodeFault;
use crate::sound::entry_is;
use byte_forms::{CodeBytes, ReadFault, Rest};
use db_config::Config;
use edit_rules::Entry;
use emu_names::Memory;
use std::alloc::Global;
use value_codes::{Coded, RawParts, Readable, config_in};

/// The code of an entry that has one. The only refusal is want of memory.
#[tactic(auto, unfolding(crate::specs::Codes::entry_code, crate::specs::Inner::Codes::HasCode))]
pub fn write_entry(alloc: Global, entry: &Entry) -> Result<CodeBytes, Memory>
    requires { HasCode entry.now }
    ensures code { IfOk result (λ bytes. bytes ≡ entry_code entry.now) }
    ensures is { IfOk result (λ bytes. IsEntryCode bytes entry.now) }
{
    entry_is(entry);
    let mut code = CodeBytes::new(alloc);
    put_entry(entry, &mut code)?;
    Ok(code)
}

/// The code of a configuration that has one. The only refusal is want of memory.
#[tactic(auto, unfolding(crate::specs::Codes::head_code, crate::specs::Inner::Codes::HasHeadCode))]
pub fn write_head(alloc: Global, config: &Config) -> Result<CodeBytes, Memory>
    requires { HasHeadCode config.now }
    ensures code { IfOk result (λ bytes. bytes ≡ head_code config.now) }
    ensures is { IfOk result (λ bytes. IsHeadCode bytes config.now) }
{
    let parts = config.parts();
    let mut code = CodeBytes::new(alloc);
    parts.put(&mut code)?;
    Ok(code)
}

/// How many bytes the code of an entry has, or 2^32 where it has as many or more. It takes no memory.
#[tactic(auto, unfolding(crate::specs::Codes::entry_code, crate::specs::Inner::Codes::HasCode))]
pub fn entry_len(entry: &Entry) -> u64
    ensures len { result ≡ min (2 ^ 32) (length (entry_code entry.now)) }
    ensures has { result < 2 ^ 32 → HasCode entry.now }
{
    entry_size(entry)
}

/// How many bytes the code of a configuration has, or 2^32 where it has as many or more. It takes no memory.
#[tactic(auto, unfolding(crate::specs::Codes::head_code, crate::specs::Inner::Codes::HasHeadCode))]
pub fn head_len(config: &Config) -> u64
    ensures len { result ≡ min (2 ^ 32) (length (head_code config.now)) }
    ensures has { result < 2 ^ 32 → HasHeadCode config.now }
{
    config.parts().size()
}

/// The configuration's parts in whose form all of the bytes are, or the place where they stop being in it.
fn read_parts(alloc: Global, bytes: &[u8]) -> Result<RawParts, CodeFault>
    ensures { Answers result (whole bytes.now (head_form.read bytes.now)) }
{
    let mut from = Rest::new(bytes);
    match RawParts::read(alloc, &mut from) {
        Ok(parts) => {
            let left = from.len();
            if left > 0 {
                return Err(CodeFault::NotAnEntry(bytes.len().saturating_sub(left) as u64));
            }
            Ok(parts)
        }
        Err(ReadFault::Left(left)) => {
            Err(CodeFault::NotAnEntry(bytes.len().saturating_sub(left) as u64))
        }
        Err(ReadFault::Memory) => Err(CodeFault::Memory),
    }
}

/// The entry in whose form all of the bytes are, or none where its data are none; or the place where the bytes stop
/// being in the form.
fn read_all(alloc: Global, bytes: &[u8]) -> Result<Option<Entry>, CodeFault>
    ensures { AnswersIf is_entry result (whole bytes.now (entry_form.read bytes.now)) }
{
    let mut from = Rest::new(bytes);
    match read_raw(alloc, &mut from) {
        Ok(made) => {
            let left = from.len();
            if left > 0 {
                return Err(CodeFault::NotAnEntry(bytes.len().saturating_sub(left) as u64));
            }
            Ok(made)
        }
        Err(ReadFault::Left(left)) => {
            Err(CodeFault::NotAnEntry(bytes.len().saturating_sub(left) as u64))
        }
        Err(ReadFault::Memory) => Err(CodeFault::Memory),
    }
}

/// The entry whose code the bytes are, or the place where they are none.
#[tactic(auto, unfolding(crate::specs::Inner::Codes::entry_of))]
fn entry_of(alloc: Global, bytes: &[u8]) -> Result<Entry, CodeFault>
    ensures { Answers result (entry_of bytes.now) }
{
    match read_all(alloc, bytes)? {
        Some(entry) => Ok(entry),
        None => Err(CodeFault::NotAnEntry(bytes.len() as u64)),
    }
}

/// The configuration whose code the bytes are, or the place where they are none.
#[tactic(auto, unfolding(crate::specs::Inner::Codes::head_of))]
fn head_of(alloc: Global, bytes: &[u8]) -> Result<Config, CodeFault>
    ensures { Answers result (head_of bytes.now) }
{
    let raw = read_parts(alloc, bytes)?;
    match config_in(alloc, &raw)? {
        Some(config) => Ok(config),
        None => Err(CodeFault::NotAnEntry(bytes.len() as u64)),
    }
}

/// The entry whose code the bytes are. `NotAnEntry` comes exactly where they are the code of none, with the place of
/// the first byte that, with those before it, begins no bytes in the form of a code, or else their length.
pub fn read_entry(alloc: Global, bytes: &[u8]) -> Result<Entry, CodeFault>
    ensures reads { Answers result (entry_of bytes.now) }
    ensures found { IfOk result (λ e. IsEntryCode bytes.now e) }
    ensures only { (e : Entry) → IsEntryCode bytes.now e → IsReadAs e result }
    ensures place { IfErr result (λ fault. IsPlace entry_form IsEntryCode bytes.now fault) }
{
    entry_of(alloc, bytes)
}

/// The configuration whose code the bytes are. `NotAnEntry` comes exactly where they are the code of none, with the
/// place of the first byte that, with those before it, begins no bytes in the form of a code, or else their length.
pub fn read_head(alloc: Global, bytes: &[u8]) -> Result<Config, CodeFault>
    ensures reads { Answers result (head_of bytes.now) }
    ensures found { IfOk result (λ c. IsHeadCode bytes.now c) }
    ensures only { (c : ConfigParts) → IsHeadCode bytes.now c → IsReadAs c result }
    ensures place { IfErr result (λ fault. IsPlace head_form IsHeadCode bytes.now fault) }
{
    head_of(alloc, bytes)
}
