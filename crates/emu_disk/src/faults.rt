//! What counts as a fault of a disk, and the count of its faults.
ghost use Rattle.std.specs.Prelude.{◌≤◌};
ghost use Rattle.emu_names.specs.Count.{Rose};

use crate::disk::Failed;
use std::alloc::{AllocError, AllocFailed};

// A growth that is refused is a fault of the disk.
impl From<AllocError> for Failed {
    fn from(_: AllocError) -> Self {
        Failed
    }
}

impl<T: Drop> From<AllocFailed<T>> for Failed {
    fn from(_: AllocFailed<T>) -> Self {
        Failed
    }
}

/// Counts a fault, unless the count is at the last number of its type.
pub(crate) fn fault(faults: &mut u64) -> Failed
    ensures rose { Rose faults.old faults.new }
    ensures later { faults.old ≤ faults.new }
{
    *faults = faults.saturating_add(1);
    Failed
}
