//! Why a text was not made a pattern.
ghost use Rattle.std.specs.Prelude.{◌≡◌};

use std::alloc::{AllocError, AllocFailed};
use thiserror::Error;

/// Memory ran out. What the call was lent is as it was before.
#[derive(Clone, Copy, Debug, PartialEq, Eq, Error)]
#[error("out of memory")]
pub struct Memory;

impl Memory {
    /// The same again.
    pub fn copy(&self) -> Memory
        ensures { result ≡ self.now }
    {
        *self
    }
}

impl From<AllocError> for Memory {
    fn from(_error: AllocError) -> Memory {
        Memory
    }
}

impl<T: Drop> From<AllocFailed<T>> for Memory {
    fn from(_error: AllocFailed<T>) -> Memory {
        Memory
    }
}

/// Why a text was not made a pattern.
#[derive(Clone, Copy, Debug, PartialEq, Eq, Error)]
pub enum PatternFault {
    /// The text, or the text set between `^(?:` and `)$`, is no regular expression or is nested too
    /// deep.
    #[error("the text is no pattern of labels")]
    Syntax,
    /// The compiled pattern would be too large.
    #[error("the pattern is too large")]
    Size,
    /// Memory ran out.
    #[error("out of memory")]
    Memory,
}

impl PatternFault {
    /// The same fault again.
    pub fn copy(&self) -> PatternFault
        ensures { result ≡ self.now }
    {
        *self
    }
}

impl From<AllocError> for PatternFault {
    ghost use Rattle.std.specs.Prelude.{◌≡◌};
    ghost use Rattle.label_match.specs.declared.faults.PatternFault.TheVariants.{Memory as OutOfMemory};

    ghost from_gives = { λ _ e. e ≡ OutOfMemory };

    fn from(_error: AllocError) -> PatternFault {
        PatternFault::Memory
    }
}
