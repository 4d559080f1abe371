//! What a line of a script may be, and why it may be none.
use config_json::ConfigFault;
use db_config::Config;
use json_view::{Shape, ViewFault};
use session_core::Line;
use std::alloc::{AllocError, AllocFailed};

/// What a line is.
#[derive(Drop)]
pub enum ReadLine {
    /// White space alone: it is counted and has no reply.
    Blank,
    /// The configuration, which is the first line.
    Config(Config),
    /// A request.
    Request(Line),
}

/// Why a line is no request.
#[derive(Drop)]
pub enum LineFault {
    /// It is not JSON (RFC 8259), nested at most 127 deep.
    NotJson,
    /// A part of it is missing or has another form.
    Shape(Shape),
    /// No command has this name, or in a list of edits none whose edits may stand there.
    NoSuchCommand,
    /// A configuration stands where none may stand, or something else where it should.
    ConfigPlace,
    /// The configuration passes a limit or breaks a rule of configurations, or what is to be added to it passes a
    /// limit. A part of it that has another form is a `Shape` of the line, as everywhere.
    Config(ConfigFault),
    /// An `after` names no earlier request.
    BadAfter,
    /// An `undo` names no earlier request of its session that asked for a change.
    BadUndo,
    /// Memory ran out.
    Memory,
}

impl From<ViewFault> for LineFault {
    ghost use Rattle.std.specs.Prelude.{◌≡◌};
    ghost use Rattle.script_lines.specs.Inner.Faults.{as_line_fault};

    ghost from_gives = { λ v e. e ≡ as_line_fault v };

    fn from(fault: ViewFault) -> LineFault {
        match fault {
            ViewFault::Shape(shape) => LineFault::Shape(shape),
            ViewFault::Memory => LineFault::Memory,
        }
    }
}

impl From<ConfigFault> for LineFault {
    ghost use Rattle.std.specs.Prelude.{◌≡◌};
    ghost use Rattle.script_lines.specs.Faults.{config_line_fault};

    ghost from_gives = { λ v e. e ≡ config_line_fault v };

    fn from(fault: ConfigFault) -> LineFault {
        match fault {
            ConfigFault::Shape(shape) => LineFault::Shape(shape),
            ConfigFault::Memory => LineFault::Memory,
            ConfigFault::TooMany(what) => LineFault::Config(ConfigFault::TooMany(what)),
            ConfigFault::DoubleName(name) => LineFault::Config(ConfigFault::DoubleName(name)),
            ConfigFault::UnknownLevel(name) => LineFault::Config(ConfigFault::UnknownLevel(name)),
            ConfigFault::DoubleLink => LineFault::Config(ConfigFault::DoubleLink),
            ConfigFault::LevelCycle => LineFault::Config(ConfigFault::LevelCycle),
        }
    }
}

impl From<emu_names::Memory> for LineFault {
    ghost use Rattle.std.specs.Prelude.{◌≡◌};
    ghost use Rattle.script_lines.specs.declared.faults.LineFault.TheVariants.{Memory as OutOfMemory};

    ghost from_gives = { λ _ e. e ≡ OutOfMemory };

    fn from(_error: emu_names::Memory) -> LineFault {
        LineFault::Memory
    }
}

impl From<AllocError> for LineFault {
    ghost use Rattle.std.specs.Prelude.{◌≡◌};
    ghost use Rattle.script_lines.specs.declared.faults.LineFault.TheVariants.{Memory as OutOfMemory};

    ghost from_gives = { λ _ e. e ≡ OutOfMemory };

    fn from(_error: AllocError) -> LineFault {
        LineFault::Memory
    }
}

impl<T: Drop> From<AllocFailed<T>> for LineFault {
    ghost use Rattle.std.specs.Prelude.{◌≡◌};
    ghost use Rattle.script_lines.specs.declared.faults.LineFault.TheVariants.{Memory as OutOfMemory};

    ghost from_gives = { λ _ e. e ≡ OutOfMemory };

    fn from(_error: AllocFailed<T>) -> LineFault {
        LineFault::Memory
    }
}
