//! The results of a query in one bundle.
ghost use Rattle.std.specs.Prelude.{◌≡◌};

use emu_names::{Memory, PlainData, Series};
use std::alloc::Global;

/// A result of a query in a bundle: a stretch of items, and the attribute whose labels are shown of
/// them. All numbers are counted from 0.
#[derive(Clone, Copy, Debug, PartialEq, Eq)]
pub struct Span {
    /// The number of the level in the configuration.
    pub level: u32,
    /// The attribute's place among those of the level.
    pub attribute: u32,
    /// The position of the first item.
    pub first: u32,
    /// The position of the last item.
    pub last: u32,
}

/// Results in order of first and last position, each once.
pub type Spans = Series<Span>;

impl Span {
    /// The same result again.
    pub fn copy(&self) -> Span
        ensures { result ≡ self.now }
    {
        *self
    }
}

impl PlainData for Span {
    fn copy(&self, _alloc: Global) -> Result<Span, Memory> {
        Ok(*self)
    }
}
