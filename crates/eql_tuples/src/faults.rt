//! Why a query was not answered.
ghost use Rattle.std.specs.Prelude.{◌≡◌};

use emu_names::Memory;
use thiserror::Error;

/// Why what a query finds in a bundle was not told.
#[derive(Clone, Copy, Debug, PartialEq, Eq, Error)]
pub enum MatchFault {
    /// Some part of the query has over 1,000,000 tuples in the bundle.
    #[error("too many tuples")]
    TooManyTuples,
    /// Memory ran out.
    #[error("out of memory")]
    Memory,
}

impl MatchFault {
    /// The same fault again.
    pub fn copy(&self) -> MatchFault
        ensures { result ≡ self.now }
    {
        *self
    }
}

impl From<Memory> for MatchFault {
    ghost use Rattle.std.specs.Prelude.{◌≡◌};
    ghost use Rattle.eql_tuples.specs.declared.faults.MatchFault.TheVariants.{Memory as OutOfMemory};

    ghost from_gives = { λ _ e. e ≡ OutOfMemory };

    fn from(_error: Memory) -> MatchFault {
        MatchFault::Memory
    }
}
