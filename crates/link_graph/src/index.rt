//! What a list of links is asked for, found without a walk over the list.
ghost use Rattle.std.specs.Prelude.{◌≡◌, ◌==◌, ◌&&◌, ◌≤◌, ℕ, List, [], insert, IfOk, OnOk, OnErr, not, false, length};
ghost use Rattle.std.specs.List.{filter, list_any};
ghost use Rattle.link_graph.specs.declared.link.Link.{Link};
ghost use Rattle.link_graph.specs.Index.{is_pair};
ghost use Rattle.link_graph.specs.Inner.Blocks.{joined};
ghost use Rattle.link_graph.specs.Inner.Ends.{other_end};
ghost use Rattle.link_graph.specs.Inner.Index.{Indexes, has_pair, links_at, forgotten};
ghost use Rattle.link_graph.specs.Link.{joins, names_item};

use crate::block::Block;
use crate::blocks::{block_at, count_of, rank};
use crate::by_item::ByItem;
use crate::ends::End;
use crate::link::Link;
use crate::pairs::Pairs;
use emu_names::limits::BUNDLE_LINKS;
use emu_names::{ItemId, Memory};
use std::alloc::Global;

/// The links of each item, at either end, and the pairs of ids.
#[derive(Drop)]
pub(crate) struct Index {
    pub(crate) down: ByItem,
    pub(crate) up: ByItem,
    pub(crate) pairs: Pairs,
}

impl Index {
    /// The index of the list of no link, with room for so many pairs and lower items. The only refusal is want of memory.
    pub(crate) fn with_capacity(alloc: Global, count: usize) -> Result<Index, Memory>
        ensures { IfOk result (λ made. Indexes made []) }
    {
        let down = ByItem::with_capacity(alloc, 0)?;
        let up = ByItem::with_capacity(alloc, count)?;
        let pairs = Pairs::with_capacity(alloc, count)?;
        Ok(Index { down, up, pairs })
    }

    /// The same index again. The only refusal is want of memory.
    pub(crate) fn copy(&self) -> Result<Index, Memory>
        ensures { IfOk result (λ made. (links : List Link)
            → Indexes self.now links → Indexes made links) }
    {
        let down = self.down.copy()?;
        let up = self.up.copy()?;
        let pairs = self.pairs.copy()?;
        Ok(Index { down, up, pairs })
    }

    /// Adds a link that will be put at a place, whose pair of ids is not there. The only refusal is want of
    /// memory, after which the index is that of the same list.
    pub(crate) fn add(&mut self, links: &[Block], place: usize, link: Link) -> Result<(), Memory>
        requires indexed { Indexes self.old (joined links.now) }
        requires few { length (joined links.now) ≤ BUNDLE_LINKS }
        requires within { place ≤ length (joined links.now) }
        requires apart { list_any (joins link.from link.to) (joined links.now) ≡ false }
        ensures ok { OnOk result (Indexes self.new (insert (joined links.now) place link)) }
        ensures err { OnErr result (Indexes self.new (joined links.now)) }
    {
        let count = count_of(links);
        let down = rank(links, place == count, place, End::From, link.from);
        let up = rank(links, place == count, place, End::To, link.to);
        let block = block_at(links, count, place).block;
        self.pairs.insert(link.from, link.to, block)?;
        if self.down.insert(link.from, down, link).is_err() {
            self.pairs.remove(link.from, link.to);
            return Err(Memory);
        }
        if self.up.insert(link.to, up, link).is_err() {
            self.pairs.remove(link.from, link.to);
            self.down.remove(link.from, link.from, link.to);
            return Err(Memory);
        }
        Ok(())
    }

    /// Takes the links out that lead from `from` to `to`.
    pub(crate) fn remove(&mut self, from: ItemId, to: ItemId)
        ensures { (links : List Link) → Indexes self.old links
            → Indexes self.new (filter (λ link. not (joins from to link)) links) }
    {
        self.pairs.remove(from, to);
        self.down.remove(from, from, to);
        self.up.remove(to, from, to);
    }

    /// Takes the links out that name an item.
    pub(crate) fn remove_item(&mut self, id: ItemId)
        ensures { (links : List Link) → Indexes self.old links
            → Indexes self.new (filter (λ link. not (names_item id link)) links) }
    {
        let children = self.down.take(id);
        let parents = self.up.take(id);
        forget_pairs(&mut self.pairs, children.as_slice());
        forget_pairs(&mut self.pairs, parents.as_slice());
        forget(&mut self.up, End::From, id, children.as_slice());
        forget(&mut self.down, End::To, id, parents.as_slice());
    }
}

/// Takes the pairs of these links out.
fn forget_pairs(pairs: &mut Pairs, links: &[Link])
    ensures { (a b : ℕ) → has_pair pairs.new a b
        ≡ (not (list_any (is_pair a b) links.now) && has_pair pairs.old a b) }
{
    for link in links {
        pairs.remove(link.from, link.to);
    }
}

/// Takes the links that name `id` out at the other end of each of its links.
fn forget(map: &mut ByItem, end: End, id: ItemId, links: &[Link])
    ensures { (key : ℕ) → links_at map.new key
        ≡ forgotten (list_any (λ link. (other_end end link).0 == key) links.now) id (links_at map.old key) }
{
    for link in links {
        map.forget(end.other(*link), id);
    }
}
