//! One file of a folder, and what it holds.
ghost use Rattle.std.specs.Prelude.{◌≡◌, ◌≢◌, ◌≤◌, IfOk, IfErr, None, Some, Ok};
ghost use Rattle.emu_names.specs.declared.limits.TheConstants.{TOP_RATE};
ghost use Rattle.serde_json.specs.View.{view};
ghost use Rattle.json_view.specs.Inner.Gives.{Gives};
ghost use Rattle.json_view.specs.Paths.{root_path};
ghost use Rattle.json_view.specs.Seen.{seen};
ghost use Rattle.config_json.specs.Inner.Faults.{Reads as ReadsConfig};
ghost use Rattle.config_json.specs.Read.{config_of};
ghost use Rattle.annot_json.specs.Read.{annot_of};
ghost use Rattle.textgrid.specs.Inner.Told.{TellsFault};
ghost use Rattle.emudb_files.specs.Files.{at_path, json_of};
ghost use Rattle.emudb_files.specs.Wanted.{bytes_in, entries_in, annot_in, config_in, grid_in, grid_annot};
ghost use Rattle.emudb_files.specs.Answers.{HasReadCause, Reads};
ghost use Rattle.emudb_files.specs.Inner.Answers.{IsRefusalOf, Makes};

use crate::faults::{folder_fault, refuse};
use annot_json::read_annot;
use config_json::{ConfigFault, read_config};
use db_config::Config;
use emu_io::{FileBytes, Folder, FolderEntries};
use json_view::{View, ViewFault};
use level_items::Annot;
use serde_json::Value;
use std::alloc::Global;
use std::str;
use store_texts::{CommandFault, FileFault};
use textgrid::{GridFault, read_textgrid, to_annot};

/// The most bytes of a TextGrid, which is more than a file may have. Behind them memory is said to run out.
const GRID_BYTES: usize = 4_294_967_295;

/// The bytes of the file at a path.
fn bytes_in<F: Folder>(alloc: Global, folder: &mut F, path: &str) -> Result<FileBytes, CommandFault>
    ensures reads { Reads (F.content folder.old) (bytes_in path.now) result }
    ensures cause { HasReadCause (F.faults folder.old) (F.faults folder.new)
        (F.misses folder.old) (F.misses folder.new) result }
    ensures same { F.content folder.new ≡ F.content folder.old }
{
    match folder.read_file(alloc, path) {
        Ok(bytes) => Ok(bytes),
        Err(fault) => Err(folder_fault(alloc, path, fault)),
    }
}

/// The entries of the folder at a path.
pub(crate) fn entries_in<F: Folder>(
    alloc: Global,
    folder: &mut F,
    path: &str,
) -> Result<FolderEntries, CommandFault>
    ensures reads { Reads (F.content folder.old) (entries_in path.now) result }
    ensures cause { HasReadCause (F.faults folder.old) (F.faults folder.new)
        (F.misses folder.old) (F.misses folder.new) result }
    ensures same { F.content folder.new ≡ F.content folder.old }
{
    match folder.list(alloc, path) {
        Ok(entries) => Ok(entries),
        Err(fault) => Err(folder_fault(alloc, path, fault)),
    }
}

/// The JSON value that bytes are, or the refusal of the file of this path.
#[tactic(auto, using(crate::proofs::Json::json_text, crate::proofs::Json::no_text))]
fn json_of(alloc: Global, path: &str, bytes: &[u8]) -> Result<Value, CommandFault>
    ensures value { IfOk result (λ v. json_of bytes.now ≡ Some (view v)) }
    ensures none { IfErr result (λ e. e ≢ CommandFault.Memory → json_of bytes.now ≡ None) }
    ensures fault { IfErr result (IsRefusalOf path.now FileFault.NotJson) }
{
    let Ok(text) = str::from_utf8(bytes) else {
        return Err(refuse(alloc, path, FileFault::NotJson));
    };
    match Value::from_str(alloc, text) {
        Ok(value) => Ok(value),
        Err(error) => {
            if error.is_memory() {
                return Err(CommandFault::Memory);
            }
            Err(refuse(alloc, path, FileFault::NotJson))
        }
    }
}

/// The configuration of a value.
fn read_value_config(alloc: Global, value: &Value) -> Result<Config, ConfigFault>
    ensures { ReadsConfig result (config_of (seen (view value.now) root_path)) }
{
    let whole = View::root(alloc, value)?;
    read_config(alloc, &whole)
}

/// The configuration of a value, or the refusal of the file of this path.
fn config_of(alloc: Global, path: &str, value: &Value) -> Result<Config, CommandFault>
    ensures { Makes (at_path path.now FileFault.Config (config_of (seen (view value.now) root_path)))
        result }
{
    match read_value_config(alloc, value) {
        Ok(config) => Ok(config),
        Err(ConfigFault::Memory) => Err(CommandFault::Memory),
        Err(fault) => Err(refuse(alloc, path, FileFault::Config(fault))),
    }
}

/// The configuration in the file at a path.
pub(crate) fn config_in<F: Folder>(
    alloc: Global,
    folder: &mut F,
    path: &str,
) -> Result<Config, CommandFault>
    ensures reads { Reads (F.content folder.old) (config_in path.now) result }
    ensures cause { HasReadCause (F.faults folder.old) (F.faults folder.new)
        (F.misses folder.old) (F.misses folder.new) result }
    ensures same { F.content folder.new ≡ F.content folder.old }
{
    let bytes = bytes_in(alloc, folder, path)?;
    let value = json_of(alloc, path, bytes.as_slice())?;
    config_of(alloc, path, &value)
}

/// The annotation of a value.
fn read_value_annot(alloc: Global, value: &Value) -> Result<Annot, ViewFault>
    ensures { Gives (λ a. a) result (annot_of (seen (view value.now) root_path)) }
{
    let whole = View::root(alloc, value)?;
    read_annot(alloc, &whole)
}

/// The annotation of a value, or the refusal of the file of this path.
fn annot_of(alloc: Global, path: &str, value: &Value) -> Result<Annot, CommandFault>
    ensures { Makes (at_path path.now FileFault.Shape (annot_of (seen (view value.now) root_path)))
        result }
{
    match read_value_annot(alloc, value) {
        Ok(annot) => Ok(annot),
        Err(ViewFault::Memory) => Err(CommandFault::Memory),
        Err(ViewFault::Shape(shape)) => Err(refuse(alloc, path, FileFault::Shape(shape))),
    }
}

/// The annotation in the file at a path.
pub(crate) fn annot_in<F: Folder>(
    alloc: Global,
    folder: &mut F,
    path: &str,
) -> Result<Annot, CommandFault>
    ensures reads { Reads (F.content folder.old) (annot_in path.now) result }
    ensures cause { HasReadCause (F.faults folder.old) (F.faults folder.new)
        (F.misses folder.old) (F.misses folder.new) result }
    ensures same { F.content folder.new ≡ F.content folder.old }
{
    let bytes = bytes_in(alloc, folder, path)?;
    let value = json_of(alloc, path, bytes.as_slice())?;
    annot_of(alloc, path, &value)
}

/// The annotation of a TextGrid's bytes at a rate, or the TextGrid's first fault.
fn read_grid(alloc: Global, rate: u32, bytes: &[u8]) -> Result<Annot, GridFault>
    requires least { 1 ≤ rate }
    requires most { rate ≤ TOP_RATE }
    ensures ok { IfOk result (λ annot. grid_annot rate bytes.now ≡ Ok annot) }
    ensures err { TellsFault result (grid_annot rate bytes.now) }
{
    if bytes.len() > GRID_BYTES {
        return Err(GridFault::Memory);
    }
    let grid = read_textgrid(alloc, bytes)?;
    to_annot(alloc, rate, &grid)
}

/// The annotation of a TextGrid's bytes, or the refusal of the file of this path.
fn grid_of(alloc: Global, path: &str, rate: u32, bytes: &[u8]) -> Result<Annot, CommandFault>
    requires least { 1 ≤ rate }
    requires most { rate ≤ TOP_RATE }
    ensures { Makes (at_path path.now FileFault.Grid (grid_annot rate bytes.now)) result }
{
    match read_grid(alloc, rate, bytes) {
        Ok(annot) => Ok(annot),
        Err(GridFault::Memory) => Err(CommandFault::Memory),
        Err(fault) => Err(refuse(alloc, path, FileFault::Grid(fault))),
    }
}

/// The annotation of the TextGrid in the file at a path.
pub(crate) fn grid_in<F: Folder>(
    alloc: Global,
    folder: &mut F,
    rate: u32,
    path: &str,
) -> Result<Annot, CommandFault>
    requires least { 1 ≤ rate }
    requires most { rate ≤ TOP_RATE }
    ensures reads { Reads (F.content folder.old) (grid_in rate path.now) result }
    ensures cause { HasReadCause (F.faults folder.old) (F.faults folder.new)
        (F.misses folder.old) (F.misses folder.new) result }
    ensures same { F.content folder.new ≡ F.content folder.old }
{
    let bytes = bytes_in(alloc, folder, path)?;
    grid_of(alloc, path, rate, bytes.as_slice())
}
