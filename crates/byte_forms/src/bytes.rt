//! The bytes of a code.
ghost use Rattle.std.specs.Prelude.{◌≡◌, ◌++◌, ◌∷◌, [], length, OnOk, OnErr};

use emu_names::Memory;
use std::alloc::Global;
use std::marker::Model;

/// The bytes of a code, which contracts see as their list.
#[derive(Debug, Drop)]
pub struct CodeBytes {
    bytes: Vec<u8>,
}

impl Model for CodeBytes {
    ghost use Rattle.std.specs.Prelude.{List, ℕ};

    ghost Value = { List ℕ };

    ghost view = { λ c. c.bytes.items };
}

impl CodeBytes {
    /// No bytes.
    pub fn new(alloc: Global) -> CodeBytes
        ensures { result ≡ [] }
    {
        CodeBytes {
            bytes: Vec::new(alloc),
        }
    }

    /// Puts bytes last. The only refusal is want of memory, which changes nothing.
    pub fn extend(&mut self, bytes: &[u8]) -> Result<(), Memory>
        ensures ok { OnOk result (self.new ≡ self.old ++ bytes.now) }
        ensures err { OnErr result (self.new ≡ self.old) }
    {
        self.bytes.extend_from_slice(bytes)?;
        Ok(())
    }

    /// How many bytes there are.
    pub fn len(&self) -> usize
        ensures { result ≡ length self.now }
    {
        self.bytes.len()
    }

    /// The bytes, in order.
    pub fn as_slice(&self) -> &[u8]
        ensures { result.now ≡ self.now }
    {
        &self.bytes
    }
}
