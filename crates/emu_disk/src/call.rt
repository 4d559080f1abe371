//! The calls that a disk in memory keeps.
ghost use Rattle.std.specs.Prelude.{◌≡◌, List, ℕ};
ghost use Rattle.std.proofs.Common.{rules};
ghost use Rattle.std.specs.Cmp.Rules.{comparing};
ghost use Rattle.std.specs.Cmp.Lexicographic.{pointwise};
ghost use Rattle.std.specs.Prelude.{nat_eq};

use std::marker::Model;

/// The bytes of a write.
#[derive(Debug, Drop)]
pub struct Written {
    bytes: Vec<u8>,
}

impl Model for Written {
    ghost Value = { List ℕ };

    ghost view = { λ w. w.bytes.items };
}

impl Written {
    pub(crate) fn new(bytes: Vec<u8>) -> Written
        ensures { result ≡ bytes.items }
    {
        Written { bytes }
    }

    /// The bytes in order.
    pub fn as_slice(&self) -> &[u8]
        ensures { result.now ≡ self.now }
    {
        &self.bytes
    }
}

impl PartialEq for Written {
    ghost eq = { pointwise nat_eq };

    ghost laws = { Prim.search (comparing, rules) };

    fn eq(&self, other: &Written) -> bool {
        self.bytes == other.bytes
    }
}

impl Eq for Written {
    ghost laws = { Prim.search (comparing, rules) };
}

/// A call of a disk, and whether it was done or failed. Places and lengths are in bytes.
#[derive(Debug, PartialEq, Eq, Drop)]
pub enum Call {
    Read { at: u64, len: u64, done: bool },
    Write { at: u64, bytes: Written, done: bool },
    Cut { len: u64, done: bool },
    Sync { done: bool },
}
