//! Why a text is not prepared, and why a database cannot be asked a query.
ghost use Rattle.std.specs.Prelude.{◌≡◌, IfOk};

use emu_names::{Memory, Text};
use eql_syntax::QueryFault;
use std::alloc::{AllocError, AllocFailed, Global};
use thiserror::Error;

/// Why a text is no query that can be asked. Patterns are counted from 0, in the order of the text.
#[derive(Clone, Copy, Debug, PartialEq, Eq, Error)]
pub enum PrepareFault {
    /// The text is no query.
    #[error("{0}")]
    Query(QueryFault),
    /// Rule 30: the text of this pattern is no regular expression, or is nested too deep.
    #[error("pattern {0} is no regular expression")]
    BadPattern(u32),
    /// Rule 31: this pattern is too large once it is compiled.
    #[error("pattern {0} is too large")]
    PatternTooLarge(u32),
    /// Rule 44: memory ran out.
    #[error("out of memory")]
    Memory,
}

impl PrepareFault {
    /// The same fault again.
    pub fn copy(&self) -> PrepareFault
        ensures { result ≡ self.now }
    {
        *self
    }
}

impl From<Memory> for PrepareFault {
    ghost use Rattle.std.specs.Prelude.{◌≡◌};
    ghost use Rattle.eql_resolve.specs.declared.faults.PrepareFault.TheVariants.{Memory as OutOfMemory};

    ghost from_gives = { λ _ e. e ≡ OutOfMemory };

    fn from(_error: Memory) -> PrepareFault {
        PrepareFault::Memory
    }
}

impl<T: Drop> From<AllocFailed<T>> for PrepareFault {
    ghost use Rattle.std.specs.Prelude.{◌≡◌};
    ghost use Rattle.eql_resolve.specs.declared.faults.PrepareFault.TheVariants.{Memory as OutOfMemory};

    ghost from_gives = { λ _ e. e ≡ OutOfMemory };

    fn from(_error: AllocFailed<T>) -> PrepareFault {
        PrepareFault::Memory
    }
}

/// Why a database cannot be asked a query.
#[derive(Debug, Drop, Error)]
pub enum AskFault {
    /// Rule 32: no attribute and no level has this name.
    #[error("there is no level or attribute {0}")]
    UnknownName(Text),
    /// Rule 33: the conditions of a conjunction are on more than one level.
    #[error("the conditions are on two levels")]
    MixedLevels,
    /// Rule 34: the two parts of a sequence are on two levels.
    #[error("the parts of a sequence are on two levels")]
    SequenceLevels,
    /// Rule 35: no path of link definitions leads down from the one level to the other.
    #[error("no path leads between the levels")]
    NoPath,
    /// Rule 36: more than one SEGMENT level could give the results their times.
    #[error("two levels could give the times")]
    AmbiguousTime,
    /// Rule 37: the level that was named for the times cannot give them.
    #[error("the level cannot give the times")]
    BadTimeLevel,
    /// Rule 44: memory ran out.
    #[error("out of memory")]
    Memory,
}

impl AskFault {
    /// The same fault again. The only refusal is want of memory.
    pub fn copy(&self, alloc: Global) -> Result<AskFault, Memory>
        ensures { IfOk result (λ made. made ≡ self.now) }
    {
        match self {
            AskFault::UnknownName(name) => Ok(AskFault::UnknownName(name.copy(alloc)?)),
            AskFault::MixedLevels => Ok(AskFault::MixedLevels),
            AskFault::SequenceLevels => Ok(AskFault::SequenceLevels),
            AskFault::NoPath => Ok(AskFault::NoPath),
            AskFault::AmbiguousTime => Ok(AskFault::AmbiguousTime),
            AskFault::BadTimeLevel => Ok(AskFault::BadTimeLevel),
            AskFault::Memory => Ok(AskFault::Memory),
        }
    }
}

impl From<Memory> for AskFault {
    ghost use Rattle.std.specs.Prelude.{◌≡◌};
    ghost use Rattle.eql_resolve.specs.declared.faults.AskFault.TheVariants.{Memory as OutOfMemory};

    ghost from_gives = { λ _ e. e ≡ OutOfMemory };

    fn from(_error: Memory) -> AskFault {
        AskFault::Memory
    }
}

impl From<AllocError> for AskFault {
    ghost use Rattle.std.specs.Prelude.{◌≡◌};
    ghost use Rattle.eql_resolve.specs.declared.faults.AskFault.TheVariants.{Memory as OutOfMemory};

    ghost from_gives = { λ _ e. e ≡ OutOfMemory };

    fn from(_error: AllocError) -> AskFault {
        AskFault::Memory
    }
}

impl<T: Drop> From<AllocFailed<T>> for AskFault {
    ghost use Rattle.std.specs.Prelude.{◌≡◌};
    ghost use Rattle.eql_resolve.specs.declared.faults.AskFault.TheVariants.{Memory as OutOfMemory};

    ghost from_gives = { λ _ e. e ≡ OutOfMemory };

    fn from(_error: AllocFailed<T>) -> AskFault {
        AskFault::Memory
    }
}
