//! Many links: a list in blocks, with what it is asked for in maps.
ghost use Rattle.std.specs.Prelude.{◌≡◌, ◌<◌, ◌≤◌, [], insert, length, slice_get, Some, not, false, IfOk, OnOk, OnErr};
ghost use Rattle.std.specs.List.{filter, list_any};
ghost use Rattle.link_graph.specs.Link.{ArePairsApart, joins, names_item};
ghost use Rattle.link_graph.specs.Inner.Blocks.{joined};
ghost use Rattle.link_graph.specs.Inner.Ends.{AreSameAt};
ghost use Rattle.link_graph.specs.Inner.Link.{is_among, IsPairPlace};

use crate::block::Block;
use crate::blocks::{copied, count_of, link_at, pair_place, put_at, take_found};
use crate::ends::End;
use crate::index::Index;
use crate::link::Link;
use crate::pairs::Pairs;
use emu_names::limits::BUNDLE_LINKS;
use emu_names::{ItemId, Memory};
use std::alloc::Global;
use std::marker::Model;

/// A list of links with its index, which contracts see as the list.
#[derive(Drop)]
pub(crate) struct Indexed {
    blocks: Vec<Block>,
    index: Index,
}

impl Model for Indexed {
    ghost use Rattle.std.specs.Prelude.{List};
    ghost use Rattle.link_graph.specs.declared.link.Link.{Link};

    ghost Value = { List Link };

    ghost use Rattle.link_graph.specs.Inner.Blocks.{joined};
    ghost use Rattle.link_graph.specs.Inner.Links.{AreLinks};

    ghost view = { λ s. joined s.blocks.items };

    ghost invariant = { λ s. AreLinks (joined s.blocks.items) s.index };
}

impl Indexed {
    /// No links, with room for so many in the maps. The only refusal is want of memory.
    pub(crate) fn with_capacity(alloc: Global, count: usize) -> Result<Indexed, Memory>
        ensures { IfOk result (λ made. made ≡ []) }
    {
        let index = Index::with_capacity(alloc, count)?;
        let blocks = Vec::new(alloc);
        Ok(Indexed { blocks, index })
    }

    /// How many links there are.
    pub(crate) fn len(&self) -> usize
        ensures count { result ≡ length self.now }
        ensures limit { length self.now ≤ BUNDLE_LINKS }
        ensures apart { ArePairsApart self.now }
    {
        count_of(self.blocks.as_slice())
    }

    /// The link at a place, counted from 0.
    pub(crate) fn get(&self, place: usize) -> &Link
        requires { place < length self.now }
        ensures { slice_get self.now place ≡ Some result.now }
    {
        link_at(self.blocks.as_slice(), place)
    }

    /// Whether an item is linked to another, in this direction.
    pub(crate) fn has(&self, from: ItemId, to: ItemId) -> bool
        ensures { result ≡ list_any (joins from to) self.now }
    {
        self.index.pairs.block(from, to).is_some()
    }

    /// The place of the link of a pair, if it is there.
    pub(crate) fn place(&self, from: ItemId, to: ItemId) -> Option<usize>
        ensures { IsPairPlace from to self.now result }
    {
        let block = self.index.pairs.block(from, to)?;
        pair_place(self.blocks.as_slice(), block, from, to)
    }

    /// The links that have an item at an end.
    pub(crate) fn near(&self, end: End, id: ItemId) -> &[Link]
        ensures { AreSameAt end id.0 result.now self.now }
    {
        match end {
            End::From => self.index.down.at(id),
            End::To => self.index.up.at(id),
        }
    }

    /// Puts a link at a place, whose pair of ids is not there. The only refusal is want of memory, which
    /// changes nothing.
    pub(crate) fn put(&mut self, alloc: Global, place: usize, link: Link) -> Result<(), Memory>
        requires within { place ≤ length self.old }
        requires apart { list_any (joins link.from link.to) self.old ≡ false }
        requires room { length self.old < BUNDLE_LINKS }
        ensures ok { OnOk result (self.new ≡ insert self.old place link) }
        ensures err { OnErr result (self.new ≡ self.old) }
    {
        self.index.add(self.blocks.as_slice(), place, link)?;
        match put_at(alloc, &mut self.blocks, place, link) {
            Ok(()) => Ok(()),
            Err(fault) => {
                self.index.remove(link.from, link.to);
                Err(fault)
            }
        }
    }

    /// Takes the link of a pair out, if it is there.
    pub(crate) fn take_pair(&mut self, from: ItemId, to: ItemId)
        ensures { self.new ≡ filter (λ link. not (joins from to link)) self.old }
    {
        let block = self.index.pairs.block(from, to).unwrap_or(0);
        self.index.remove(from, to);
        take_found(&mut self.blocks, block, from, to);
    }

    /// Takes all links out that name an item, at either end.
    pub(crate) fn take_item(&mut self, id: ItemId)
        ensures { self.new ≡ filter (λ link. not (names_item id link)) self.old }
    {
        take_all(&mut self.blocks, &self.index.pairs, self.index.down.at(id));
        take_all(&mut self.blocks, &self.index.pairs, self.index.up.at(id));
        self.index.remove_item(id);
    }

    /// The same links again. The only refusal is want of memory.
    pub(crate) fn copy(&self, alloc: Global) -> Result<Indexed, Memory>
        ensures { IfOk result (λ made. made ≡ self.now) }
    {
        let blocks = copied(alloc, self.blocks.as_slice())?;
        let index = self.index.copy()?;
        Ok(Indexed { blocks, index })
    }
}

/// Takes these links out of the list.
fn take_all(blocks: &mut Vec<Block>, pairs: &Pairs, ends: &[Link])
    requires { ArePairsApart (joined blocks.old.items) }
    ensures { joined blocks.new.items
        ≡ filter (λ link. not (is_among ends.now link)) (joined blocks.old.items) }
{
    for link in ends {
        let block = pairs.block(link.from, link.to).unwrap_or(0);
        take_found(blocks, block, link.from, link.to);
    }
}
