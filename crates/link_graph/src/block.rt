//! Some links that stand behind one another.
ghost use Rattle.std.specs.Prelude.{◌≡◌, ◌<◌, ◌≤◌, ◌++◌, ◌∷◌, [], length, take, drop, insert, not, slice_get, Some, IfOk, OnOk, OnErr};
ghost use Rattle.std.specs.List.{filter, position};
ghost use Rattle.link_graph.specs.Link.{joins, names_item};
ghost use Rattle.link_graph.specs.Inner.Ends.{has_end};
ghost use Rattle.link_graph.specs.Inner.Link.{IsPairPlace};

use crate::ends::End;
use crate::link::Link;
use emu_names::{ItemId, Memory};
use std::alloc::Global;
use std::marker::Model;

/// A part of a list of links, which contracts see as a list.
#[derive(Drop)]
pub(crate) struct Block {
    links: Vec<Link>,
}

impl Model for Block {
    ghost use Rattle.std.specs.Prelude.{List};
    ghost use Rattle.link_graph.specs.declared.link.Link.{Link};

    ghost Value = { List Link };

    ghost view = { λ b. b.links.items };
}

impl Block {
    /// No link, with room for so many. The only refusal is want of memory.
    pub(crate) fn with_capacity(alloc: Global, count: usize) -> Result<Block, Memory>
        ensures { IfOk result (λ made. made ≡ []) }
    {
        let links = Vec::with_capacity(alloc, count)?;
        Ok(Block { links })
    }

    /// How many links there are.
    pub(crate) fn len(&self) -> usize
        ensures { result ≡ length self.now }
    {
        self.links.len()
    }

    /// The link at a place, counted from 0.
    pub(crate) fn get(&self, place: usize) -> &Link
        requires { place < length self.now }
        ensures { slice_get self.now place ≡ Some result.now }
    {
        &self.links[place]
    }

    /// All links.
    pub(crate) fn as_slice(&self) -> &[Link]
        ensures { result.now ≡ self.now }
    {
        self.links.as_slice()
    }

    /// Puts a link before the one at a place. The only refusal is want of memory, which changes nothing.
    pub(crate) fn insert(&mut self, place: usize, link: Link) -> Result<(), Memory>
        requires { place ≤ length self.old }
        ensures ok { OnOk result (self.new ≡ insert self.old place link) }
        ensures err { OnErr result (self.new ≡ self.old) }
    {
        self.links.insert(place, link)?;
        Ok(())
    }

    /// The links from a place on, as a block of their own. The only refusal is want of memory.
    pub(crate) fn behind(&self, alloc: Global, place: usize) -> Result<Block, Memory>
        requires { place ≤ length self.now }
        ensures { IfOk result (λ made. made ≡ drop place self.now) }
    {
        let (_front, behind) = self.links.as_slice().split_at(place);
        let links = Vec::from_slice(alloc, behind)?;
        Ok(Block { links })
    }

    /// Lets all links but the first ones go.
    pub(crate) fn truncate(&mut self, len: usize)
        ensures { self.new ≡ take len self.old }
    {
        self.links.truncate(len);
    }

    /// Takes the link of a pair out.
    pub(crate) fn take_pair(&mut self, from: ItemId, to: ItemId)
        ensures { self.new ≡ filter (λ link. not (joins from to link)) self.old }
    {
        take_pair(&mut self.links, from, to);
    }

    /// Takes the links out that name an item.
    pub(crate) fn take_item(&mut self, id: ItemId)
        ensures { self.new ≡ filter (λ link. not (names_item id link)) self.old }
    {
        take_item(&mut self.links, id);
    }

    /// The same links again. The only refusal is want of memory.
    pub(crate) fn copy(&self, alloc: Global) -> Result<Block, Memory>
        ensures { IfOk result (λ made. made ≡ self.now) }
    {
        let links = Vec::from_slice(alloc, self.links.as_slice())?;
        Ok(Block { links })
    }
}

/// How many of the first of these links lead from an item, or to it.
#[tactic(auto, using(crate::proofs::Counted::counted_more, crate::proofs::Counted::counted_all))]
pub(crate) fn count_ends(links: &[Link], place: usize, end: End, id: ItemId) -> usize
    ensures count { result ≡ length (filter (has_end end id.0) (take place links.now)) }
    ensures few { result ≤ length links.now }
{
    let last = place.min(links.len());
    let mut count = 0;
    for at in 0..last {
        count += usize::from(end.is_at(links[at], id));
    }
    count
}

/// The first place of the link of a pair among some links, counted from 0, if it is there.
pub(crate) fn place_of(links: &[Link], from: ItemId, to: ItemId) -> Option<usize>
    ensures { result ≡ position (joins from to) links.now }
{
    links
        .iter()
        .position(|link| link.from == from && link.to == to)
}

/// Takes the links out that lead from `from` to `to`.
pub(crate) fn take_pair(links: &mut Vec<Link>, from: ItemId, to: ItemId)
    ensures { links.new.items ≡ filter (λ link. not (joins from to link)) links.old.items }
{
    links.retain(|link| !(link.from == from && link.to == to));
}

/// Takes the links out that name `id`, at either end.
pub(crate) fn take_item(links: &mut Vec<Link>, id: ItemId)
    ensures { links.new.items ≡ filter (λ link. not (names_item id link)) links.old.items }
{
    links.retain(|link| !(link.from == id || link.to == id));
}
