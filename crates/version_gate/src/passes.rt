//! The passes of a gate.
ghost use Rattle.std.specs.Prelude.{◌≡◌, ◌≤◌, ◌++◌, [], ◌∷◌, length, OnOk, OnErr, MatchOption, Some, slice_get};

use crate::fault::Memory;
use crate::pass::Pass;
use std::alloc::Global;
use std::marker::Model;

/// Passes, in order.
#[derive(Drop)]
pub struct Passes<T: Drop> {
    items: Vec<Pass<T>>,
}

impl<T: Drop> Model for Passes<T> {
    ghost use Rattle.std.specs.Prelude.{List};
    ghost use Rattle.version_gate.specs.Lists.{Front};

    ghost Value = { List (Front T) };

    ghost view = { λ p. p.items.items };
}

impl<T: Drop> Passes<T> {
    /// No passes.
    pub fn new(alloc: Global) -> Passes<T>
        ensures { result ≡ [] }
    {
        Passes {
            items: Vec::new(alloc),
        }
    }

    /// Adds a pass at the end. Without memory the pass is gone.
    pub fn push(&mut self, pass: Pass<T>) -> Result<(), Memory>
        ensures ok { OnOk result (self.new ≡ self.old ++ pass ∷ []) }
        ensures err { OnErr result (self.new ≡ self.old) }
    {
        self.items.push(pass)?;
        Ok(())
    }

    /// Takes the last pass.
    pub fn pop(&mut self) -> Option<Pass<T>>
        ensures { MatchOption result ((self.old ≡ []) × (self.new ≡ [])) (λ pass.
            self.old ≡ self.new ++ pass ∷ []) }
    {
        self.items.pop()
    }

    /// How many passes there are.
    pub fn len(&self) -> usize
        ensures { result ≡ length self.now }
    {
        self.items.len()
    }

    /// The pass at a place.
    pub fn get(&self, place: usize) -> Option<&Pass<T>>
        ensures { MatchOption result (length self.now ≤ place) (λ pass.
            slice_get self.now place ≡ Some pass.now) }
    {
        self.items.get(place)
    }
}
