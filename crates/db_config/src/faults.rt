//! Why some parts are no configuration.
ghost use Rattle.std.specs.Prelude.{◌≡◌};

use emu_names::Memory;
use thiserror::Error;

/// Why some parts are no configuration.
#[derive(Clone, Copy, Debug, PartialEq, Eq, Error)]
pub enum PartsFault {
    /// The parts break a rule of configurations.
    #[error("the parts are no configuration")]
    NotValid,
    /// Memory ran out.
    #[error("out of memory")]
    Memory,
}

impl PartsFault {
    /// The same fault again.
    pub fn copy(&self) -> PartsFault
        ensures { result ≡ self.now }
    {
        *self
    }
}

impl From<Memory> for PartsFault {
    ghost use Rattle.std.specs.Prelude.{◌≡◌};
    ghost use Rattle.db_config.specs.declared.faults.PartsFault.TheVariants.{Memory as OutOfMemory};

    ghost from_gives = { λ _ e. e ≡ OutOfMemory };

    fn from(_error: Memory) -> PartsFault {
        PartsFault::Memory
    }
}
