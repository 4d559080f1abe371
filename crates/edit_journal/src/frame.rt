//! A body made ready to be written: its length, its bytes and a closed gate.
ghost use Rattle.std.specs.Prelude.{◌≡◌, ◌^◌, ◌≤◌, length, IfOk};
ghost use Rattle.edit_journal.specs.Inner.Staged.{staged_of};
ghost use Rattle.edit_journal.specs.Store.{IsSized};

use emu_names::Memory;
use std::alloc::Global;
use std::marker::Model;

/// A body of 1 to 2^28 bytes that can be appended without memory.
#[derive(Drop)]
pub struct Frame {
    staged: Vec<u8>,
}

impl Model for Frame {
    ghost use Rattle.std.specs.Prelude.{List, ℕ};
    ghost use Rattle.edit_journal.specs.Inner.Staged.{body_of, IsStaged};

    ghost Value = { List ℕ };

    ghost view = { λ f. body_of f.staged.items };

    ghost invariant = { λ f. IsStaged f.staged.items };
}

impl Frame {
    /// A frame of a body.
    pub fn new(alloc: Global, body: &[u8]) -> Result<Frame, Memory>
        requires some { 1 ≤ length body.now }
        requires most { length body.now ≤ 2 ^ 28 }
        ensures { IfOk result (λ frame. frame ≡ body.now) }
    {
        let mut staged = Vec::with_capacity(alloc, body.len() + 5)?;
        staged.extend_from_slice(&(body.len() as u32).to_be_bytes())?;
        staged.extend_from_slice(body)?;
        staged.push(0)?;
        Ok(Frame { staged })
    }

    /// The same frame once more.
    pub fn copy(&self, alloc: Global) -> Result<Frame, Memory>
        ensures { IfOk result (λ frame. frame ≡ self.now) }
    {
        Ok(Frame {
            staged: self.staged.to_vec(alloc)?,
        })
    }

    /// How many bytes the body has.
    pub fn len(&self) -> u64
        ensures len { result ≡ length self.now }
        ensures some { 1 ≤ result }
        ensures most { result ≤ 2 ^ 28 }
    {
        self.staged.len() as u64 - 5
    }

    // The length, the bytes and a closed gate.
    pub(crate) fn staged(&self) -> &[u8]
        ensures value { result.now ≡ staged_of self.now }
        ensures sized { IsSized self.now }
    {
        &self.staged
    }
}
