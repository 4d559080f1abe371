//! Why a value is no configuration.
ghost use Rattle.std.specs.Prelude.{◌≡◌, IfOk};
ghost use Rattle.config_json.specs.Faults.{what_word};

use emu_names::{Memory, Text};
use json_view::{Shape, ViewFault};
use std::alloc::Global;
use thiserror::Error;

/// A list of a configuration that has a limit.
#[derive(Clone, Copy, Debug, PartialEq, Eq)]
pub enum ConfigWhat {
    /// The levels, of which there are at most 64.
    Levels,
    /// The link definitions, of which there are at most 64.
    Links,
    /// The attributes of a level, of which there are at most 16.
    Attributes,
    /// The label groups of one list, of which there are at most 256.
    Groups,
    /// Legal labels, or the values of a label group, of which there are at most 4,096.
    Texts,
    /// The tracks, of which there are at most 1,024.
    Tracks,
}

impl ConfigWhat {
    /// The same again.
    pub fn copy(&self) -> ConfigWhat
        ensures { result ≡ self.now }
    {
        *self
    }

    /// The word that a refusal prints for it, as `Levels`.
    pub fn word(&self) -> &'static str
        ensures { result.now ≡ what_word self.now }
    {
        match self {
            ConfigWhat::Levels => "Levels",
            ConfigWhat::Links => "Links",
            ConfigWhat::Attributes => "Attributes",
            ConfigWhat::Groups => "Groups",
            ConfigWhat::Texts => "Texts",
            ConfigWhat::Tracks => "Tracks",
        }
    }
}

/// Why a value is no configuration.
#[derive(Debug, Drop, Error)]
pub enum ConfigFault {
    /// A part of it is missing or has another form.
    #[error("{}: {} wanted", .0.path.as_str(), .0.wanted.word())]
    Shape(Shape),
    /// A list passes its limit.
    #[error("too many: {}", .0.word())]
    TooMany(ConfigWhat),
    /// A level or an attribute has this name, which an earlier one has.
    #[error("the name {0} stands twice")]
    DoubleName(Text),
    /// A link definition names this level, which is not there.
    #[error("there is no level {0}")]
    UnknownLevel(Text),
    /// Two link definitions have the same two levels.
    #[error("two link definitions have the same levels")]
    DoubleLink,
    /// A path of link definitions leads from a level to itself.
    #[error("link definitions lead from a level to itself")]
    LevelCycle,
    /// Memory ran out.
    #[error("out of memory")]
    Memory,
}

impl ConfigFault {
    /// The same fault again. The only refusal is want of memory.
    pub fn copy(&self, alloc: Global) -> Result<ConfigFault, Memory>
        ensures { IfOk result (λ made. made ≡ self.now) }
    {
        match self {
            ConfigFault::Shape(shape) => Ok(ConfigFault::Shape(shape.copy(alloc)?)),
            ConfigFault::TooMany(what) => Ok(ConfigFault::TooMany(*what)),
            ConfigFault::DoubleName(name) => Ok(ConfigFault::DoubleName(name.copy(alloc)?)),
            ConfigFault::UnknownLevel(name) => Ok(ConfigFault::UnknownLevel(name.copy(alloc)?)),
            ConfigFault::DoubleLink => Ok(ConfigFault::DoubleLink),
            ConfigFault::LevelCycle => Ok(ConfigFault::LevelCycle),
            ConfigFault::Memory => Ok(ConfigFault::Memory),
        }
    }
}

impl From<ViewFault> for ConfigFault {
    ghost use Rattle.std.specs.Prelude.{◌≡◌};
    ghost use Rattle.config_json.specs.Inner.Faults.{as_config_fault};

    ghost from_gives = { λ v e. e ≡ as_config_fault v };

    fn from(fault: ViewFault) -> ConfigFault {
        match fault {
            ViewFault::Shape(shape) => ConfigFault::Shape(shape),
            ViewFault::Memory => ConfigFault::Memory,
        }
    }
}

impl From<Memory> for ConfigFault {
    ghost use Rattle.std.specs.Prelude.{◌≡◌};
    ghost use Rattle.config_json.specs.declared.faults.ConfigFault.TheVariants.{Memory as OutOfMemory};

    ghost from_gives = { λ _ e. e ≡ OutOfMemory };

    fn from(_error: Memory) -> ConfigFault {
        ConfigFault::Memory
    }
}
