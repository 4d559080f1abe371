//! Tuples: what a part of a query finds in one bundle.
ghost use Rattle.std.specs.Prelude.{◌≡◌};

use emu_names::{Memory, PlainData, Series};
use std::alloc::Global;

/// A stretch of items on the level of a part of a query, with the item that is marked in it, where one
/// is. Positions are counted from 0. Tuples are ordered by their fields, in this order.
#[derive(Clone, Copy, Debug, PartialEq, Eq, PartialOrd, Ord)]
pub struct Tuple {
    /// The position of the first item.
    pub first: u32,
    /// The position of the last item.
    pub last: u32,
    /// The position of the marked item, which stands on the level of the marked condition.
    pub mark: Option<u32>,
}

/// Tuples in order, each once.
pub type Tuples = Series<Tuple>;

impl Tuple {
    /// The same tuple again.
    pub fn copy(&self) -> Tuple
        ensures { result ≡ self.now }
    {
        *self
    }
}

impl PlainData for Tuple {
    fn copy(&self, _alloc: Global) -> Result<Tuple, Memory> {
        Ok(*self)
    }
}
