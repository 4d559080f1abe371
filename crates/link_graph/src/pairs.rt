//! The pairs of ids that are linked, each with the block in which its link is looked for first.
ghost use Rattle.std.specs.Prelude.{◌≡◌, ◌==◌, ◌&&◌, ◌||◌, ℕ, IfOk, OnOk, OnErr, false, true, not};
ghost use Rattle.std.specs.Option.{is_some};
ghost use Rattle.link_graph.specs.Inner.Index.{has_pair};

use emu_names::{ItemId, Memory};
use std::alloc::Global;
use std::collections::HashMap;

/// A set of pairs of ids, the upper item's first. Each has the number of a block of the list of links, a
/// hint of which nothing is promised, nor that there is such a block.
#[derive(Drop)]
pub(crate) struct Pairs {
    blocks: HashMap<(u32, u32), u32>,
}

impl Pairs {
    /// No pair, with room for so many. The only refusal is want of memory.
    pub(crate) fn with_capacity(alloc: Global, count: usize) -> Result<Pairs, Memory>
        ensures { IfOk result (λ made. (from to : ℕ) → has_pair made from to ≡ false) }
    {
        let blocks = HashMap::with_capacity(alloc, count)?;
        Ok(Pairs { blocks })
    }

    /// The block in which the link of a pair is looked for first, if the pair is there.
    pub(crate) fn block(&self, from: ItemId, to: ItemId) -> Option<usize>
        ensures { is_some result ≡ has_pair self.now from.0 to.0 }
    {
        let block = self.blocks.get(&(from.0, to.0))?;
        Some(*block as usize)
    }

    /// The same pairs again. The only refusal is want of memory.
    pub(crate) fn copy(&self) -> Result<Pairs, Memory>
        ensures { IfOk result (λ made. (from to : ℕ)
            → has_pair made from to ≡ has_pair self.now from to) }
    {
        let blocks = self.blocks.clone()?;
        Ok(Pairs { blocks })
    }

    /// Puts a pair in, with the block in which its link is looked for first. The only refusal is want of
    /// memory, which changes nothing.
    pub(crate) fn insert(&mut self, from: ItemId, to: ItemId, block: usize) -> Result<(), Memory>
        ensures ok { OnOk result ((a b : ℕ) → has_pair self.new a b
            ≡ (has_pair self.old a b || ((from.0 == a) && (to.0 == b)))) }
        ensures err { OnErr result ((a b : ℕ) → has_pair self.new a b ≡ has_pair self.old a b) }
    {
        let block = u32::try_from(block).unwrap_or(u32::MAX);
        self.blocks.insert((from.0, to.0), block)?;
        Ok(())
    }

    /// Takes a pair out, if it is there.
    pub(crate) fn remove(&mut self, from: ItemId, to: ItemId)
        ensures { (a b : ℕ) → has_pair self.new a b
            ≡ (not ((from.0 == a) && (to.0 == b)) && has_pair self.old a b) }
    {
        self.blocks.remove(&(from.0, to.0));
    }
}
