//! Why a command on a store gives no text.
use config_json::ConfigFault;
use emu_names::{Memory, Text};
use json_view::Shape;
use reply_texts::session_core::Refusal;
use std::alloc::{AllocError, AllocFailed};
use textgrid::GridFault;

/// What is wrong with a file or a folder.
#[derive(Drop)]
pub enum FileFault {
    /// Rule 64: it is not there.
    Absent,
    /// Rule 65: it passes its limit.
    TooLarge,
    /// Rule 66: its name has a part that has to be a name and is none.
    BadName,
    /// It is not JSON (RFC 8259), nested at most 127 deep.
    NotJson,
    /// A part of it is missing or has another form.
    Shape(Shape),
    /// It is no configuration.
    Config(ConfigFault),
    /// It is no TextGrid, or none that gives an annotation.
    Grid(GridFault),
}

/// Why a command on a store is refused, with the status 10.
#[derive(Drop)]
pub enum Refused {
    /// Rule 62: the store has no configuration.
    NoConfiguration,
    /// Rule 63: the store has a configuration, and another one was to be put into it.
    StoreHasConfiguration,
    /// Rule 66: a word that has to be a name is none.
    BadName,
    /// No bundle has these names.
    NoBundle,
    /// Rule 61: the tier of the level of this name would have more than 65,536 entries.
    TooManyEntries(Text),
    /// The refusal of a query or of an edit.
    Request(Refusal),
    /// The file or the folder of this path has this fault.
    File(Text, FileFault),
}

/// Why a command on a store gives no text.
#[derive(Drop)]
pub enum CommandFault {
    /// The command is refused.
    Refused(Refused),
    /// A file or a folder could not be read.
    Read,
    /// The disk failed.
    Disk,
    /// Memory ran out.
    Memory,
}

impl From<Memory> for CommandFault {
    ghost use Rattle.std.specs.Prelude.{◌≡◌};
    ghost use Rattle.store_texts.specs.declared.faults.CommandFault.TheVariants.{Memory as OutOfMemory};

    ghost from_gives = { λ _ e. e ≡ OutOfMemory };

    fn from(_error: Memory) -> CommandFault {
        CommandFault::Memory
    }
}

impl From<AllocError> for CommandFault {
    ghost use Rattle.std.specs.Prelude.{◌≡◌};
    ghost use Rattle.store_texts.specs.declared.faults.CommandFault.TheVariants.{Memory as OutOfMemory};

    ghost from_gives = { λ _ e. e ≡ OutOfMemory };

    fn from(_error: AllocError) -> CommandFault {
        CommandFault::Memory
    }
}

impl<T: Drop> From<AllocFailed<T>> for CommandFault {
    ghost use Rattle.std.specs.Prelude.{◌≡◌};
    ghost use Rattle.store_texts.specs.declared.faults.CommandFault.TheVariants.{Memory as OutOfMemory};

    ghost from_gives = { λ _ e. e ≡ OutOfMemory };

    fn from(_error: AllocFailed<T>) -> CommandFault {
        CommandFault::Memory
    }
}
