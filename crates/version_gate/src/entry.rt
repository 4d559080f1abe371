//! A version with its number.
ghost use Rattle.std.specs.Prelude.{◌≡◌, IfOk};
ghost use Rattle.version_gate.specs.Lists.{entry};
ghost use Rattle.version_gate.specs.Inner.Snapshots.{entry_of};

use crate::fault::Memory;
use std::sync::Arc;

/// A version with its number, as contracts see it in lists. No value of it is made.
pub struct Entry<T> {
    pub number: u64,
    pub version: T,
}

/// A version that was published, with its number. Whoever has it keeps it, whatever is published
/// later.
#[derive(Drop)]
pub struct Snapshot<T: Drop> {
    pub number: u64,
    pub version: Arc<T>,
}

impl<T: Drop> Snapshot<T> {
    /// The same version once more. The version itself is shared.
    pub fn copy(&self) -> Result<Snapshot<T>, Memory>
        ensures { IfOk result (λ s. entry_of s ≡ entry_of self.now) }
    {
        Ok(Snapshot {
            number: self.number,
            version: Arc::try_clone(&self.version)?,
        })
    }
}
