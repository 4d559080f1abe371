//! The bodies of a store.
ghost use Rattle.std.specs.Prelude.{◌≡◌, ◌≤◌, ◌++◌, [], ◌∷◌, List, ℕ, length, OnOk, OnErr, IfOk, MatchOption, Some, slice_get};

use emu_names::Memory;
use std::alloc::Global;
use std::marker::Model;

/// The bytes of a body.
#[derive(Debug, Drop)]
pub struct BodyBytes {
    bytes: Vec<u8>,
}

impl Model for BodyBytes {
    ghost use Rattle.std.specs.Prelude.{List, ℕ};

    ghost Value = { List ℕ };

    ghost view = { λ b. b.bytes.items };
}

impl BodyBytes {
    /// No bytes.
    pub fn new(alloc: Global) -> BodyBytes
        ensures { result ≡ [] }
    {
        BodyBytes {
            bytes: Vec::new(alloc),
        }
    }

    /// A copy of these bytes.
    pub fn from_slice(alloc: Global, bytes: &[u8]) -> Result<BodyBytes, Memory>
        ensures { IfOk result (λ b. b ≡ bytes.now) }
    {
        Ok(BodyBytes {
            bytes: bytes.to_vec(alloc)?,
        })
    }

    /// The same bytes once more.
    pub fn copy(&self, alloc: Global) -> Result<BodyBytes, Memory>
        ensures { IfOk result (λ b. b ≡ self.now) }
    {
        BodyBytes::from_slice(alloc, &self.bytes)
    }

    /// Adds a byte.
    pub fn push(&mut self, byte: u8) -> Result<(), Memory>
        ensures ok { OnOk result (self.new ≡ self.old ++ byte ∷ []) }
        ensures err { OnErr result (self.new ≡ self.old) }
    {
        self.bytes.push(byte)?;
        Ok(())
    }

    /// How many bytes there are.
    pub fn len(&self) -> usize
        ensures { result ≡ length self.now }
    {
        self.bytes.len()
    }

    /// The byte at a place.
    pub fn get(&self, place: usize) -> Option<u8>
        ensures { result ≡ slice_get self.now place }
    {
        self.bytes.get(place).copied()
    }

    /// The bytes in order.
    pub fn as_slice(&self) -> &[u8]
        ensures { result.now ≡ self.now }
    {
        &self.bytes
    }
}

/// A body of a store, and the place of its gate, in bytes from 0.
#[derive(Debug, Drop)]
pub struct Body {
    pub at: u64,
    pub bytes: BodyBytes,
}

impl Body {
    /// The same body once more.
    pub fn copy(&self, alloc: Global) -> Result<Body, Memory>
        ensures { IfOk result (λ body. body ≡ self.now) }
    {
        Ok(Body {
            at: self.at,
            bytes: self.bytes.copy(alloc)?,
        })
    }
}

/// Bodies in the order of the store.
#[derive(Debug, Drop)]
pub struct Bodies {
    items: Vec<Body>,
}

impl Model for Bodies {
    ghost use Rattle.std.specs.Prelude.{List};
    ghost use Rattle.edit_journal.specs.declared.body.Body.{Body};

    ghost Value = { List Body };

    ghost view = { λ b. b.items.items };
}

impl Bodies {
    /// No bodies.
    pub fn new(alloc: Global) -> Bodies
        ensures { result ≡ [] }
    {
        Bodies {
            items: Vec::new(alloc),
        }
    }

    /// The same bodies once more.
    pub fn copy(&self, alloc: Global) -> Result<Bodies, Memory>
        ensures { IfOk result (λ bodies. bodies ≡ self.now) }
    {
        let mut bodies = Bodies::new(alloc);
        for body in &self.items {
            bodies.push(body.copy(alloc)?)?;
        }
        Ok(bodies)
    }

    /// Adds a body.
    pub fn push(&mut self, body: Body) -> Result<(), Memory>
        ensures ok { OnOk result (self.new ≡ self.old ++ body ∷ []) }
        ensures err { OnErr result (self.new ≡ self.old) }
    {
        self.items.push(body)?;
        Ok(())
    }

    /// How many bodies there are.
    pub fn len(&self) -> usize
        ensures { result ≡ length self.now }
    {
        self.items.len()
    }

    /// The body at a place.
    pub fn get(&self, place: usize) -> Option<&Body>
        ensures { MatchOption result (length self.now ≤ place) (λ body.
            slice_get self.now place ≡ Some body.now) }
    {
        self.items.get(place)
    }

    /// The bodies in order.
    pub fn as_slice(&self) -> &[Body]
        ensures { result.now ≡ self.now }
    {
        &self.items
    }
}
