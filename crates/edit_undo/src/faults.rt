//! Why an act has no inverse.
ghost use Rattle.std.specs.Prelude.{◌≡◌};

use emu_names::Memory;
use thiserror::Error;

/// Why an act cannot be taken back.
#[derive(Clone, Copy, Debug, PartialEq, Eq, Error)]
pub enum NoUndo {
    /// It is an edit of the configuration.
    #[error("an edit of the configuration is not taken back")]
    NoInverse,
    /// More than 65,536 edits would take it back.
    #[error("too many edits would take it back")]
    TooManyEdits,
}

impl NoUndo {
    /// The same again.
    pub fn copy(&self) -> NoUndo
        ensures { result ≡ self.now }
    {
        *self
    }
}

/// Why no inverse is made.
#[derive(Clone, Copy, Debug, PartialEq, Eq, Error)]
pub enum InverseFault {
    /// There is none.
    #[error("there is no inverse: {0}")]
    NoUndo(NoUndo),
    /// Memory ran out.
    #[error("out of memory")]
    Memory,
}

impl From<Memory> for InverseFault {
    ghost use Rattle.std.specs.Prelude.{◌≡◌};
    ghost use Rattle.edit_undo.specs.declared.faults.InverseFault.TheVariants.{Memory as OutOfMemory};

    ghost from_gives = { λ _ e. e ≡ OutOfMemory };

    fn from(_error: Memory) -> InverseFault {
        InverseFault::Memory
    }
}
