//! The links of one item.
ghost use Rattle.std.specs.Prelude.{◌≡◌, ◌++◌, ◌∷◌, [], insert, IfOk, OnOk, OnErr, not};
ghost use Rattle.std.specs.List.{filter};
ghost use Rattle.link_graph.specs.Inner.Index.{links_of};
ghost use Rattle.link_graph.specs.Link.{joins, names_item};

use crate::block::{take_item, take_pair};
use crate::link::Link;
use emu_names::{ItemId, Memory};
use std::alloc::{AllocError, Global};
use std::slice;

/// The links of one item in the order in which they were added. One link, as nearly all items have that lead
/// up, stands in place.
#[derive(Drop)]
pub(crate) enum ItemLinks {
    /// No link.
    Empty,
    /// One link.
    One(Link),
    /// Two links or more, or what is left of them.
    Many(Box<Vec<Link>>),
}

impl ItemLinks {
    /// The links as a slice.
    pub(crate) fn as_slice(&self) -> &[Link]
        ensures { result.now ≡ links_of self.now }
    {
        match self {
            ItemLinks::Empty => &[],
            ItemLinks::One(link) => slice::from_ref(link),
            ItemLinks::Many(links) => links.as_slice(),
        }
    }

    /// Puts a link at a place, or last where links are fewer. The only refusal is want of memory, which
    /// changes nothing.
    #[tactic(auto, using(crate::proofs::Inserted::insert_none))]
    pub(crate) fn insert(&mut self, alloc: Global, place: usize, link: Link) -> Result<(), Memory>
        ensures ok { OnOk result (links_of self.new ≡ insert (links_of self.old) place link) }
        ensures err { OnErr result (links_of self.new ≡ links_of self.old) }
    {
        match self {
            ItemLinks::Empty => *self = ItemLinks::One(link),
            ItemLinks::One(other) => *self = ItemLinks::Many(both(alloc, *other, place, link)?),
            ItemLinks::Many(links) => insert_near(links, place, link)?,
        }
        Ok(())
    }

    /// Takes the links out that lead from `from` to `to`.
    pub(crate) fn take_pair(&mut self, from: ItemId, to: ItemId)
        ensures { links_of self.new
            ≡ filter (λ link. not (joins from to link)) (links_of self.old) }
    {
        match self {
            ItemLinks::Empty => {}
            ItemLinks::One(link) => {
                if link.from == from && link.to == to {
                    *self = ItemLinks::Empty;
                }
            }
            ItemLinks::Many(links) => take_pair(links, from, to),
        }
    }

    /// Takes the links out that name `id`, at either end.
    pub(crate) fn take_item(&mut self, id: ItemId)
        ensures { links_of self.new
            ≡ filter (λ link. not (names_item id link)) (links_of self.old) }
    {
        match self {
            ItemLinks::Empty => {}
            ItemLinks::One(link) => {
                if link.from == id || link.to == id {
                    *self = ItemLinks::Empty;
                }
            }
            ItemLinks::Many(links) => take_item(links, id),
        }
    }
}

impl Clone for ItemLinks {
    ghost use Rattle.std.specs.Prelude.{◌≡◌};
    ghost use Rattle.link_graph.specs.Inner.Index.{links_of};

    ghost is_clone = { λ s t. links_of t ≡ links_of s };

    fn clone(&self) -> Result<ItemLinks, AllocError> {
        match self {
            ItemLinks::Empty => Ok(ItemLinks::Empty),
            ItemLinks::One(link) => Ok(ItemLinks::One(*link)),
            ItemLinks::Many(links) => Ok(ItemLinks::Many(links.clone()?)),
        }
    }
}

/// A list of a link and another one, which stands at a place. The only refusal is want of memory.
fn both(alloc: Global, link: Link, place: usize, other: Link) -> Result<Box<Vec<Link>>, Memory>
    ensures { IfOk result (λ made. made.value.items ≡ insert (link ∷ []) place other) }
{
    let mut links = Vec::with_capacity(alloc, 2)?;
    links.push(link)?;
    insert_near(&mut links, place, other)?;
    Ok(Box::new(alloc, links)?)
}

/// Puts a link at a place, or last where links are fewer. The only refusal is want of memory, which changes nothing.
#[tactic(auto, using(crate::proofs::Inserted::insert_least))]
fn insert_near(links: &mut Vec<Link>, place: usize, link: Link) -> Result<(), Memory>
    ensures ok { OnOk result (links.new.items ≡ insert links.old.items place link) }
    ensures err { OnErr result (links.new.items ≡ links.old.items) }
{
    let at = place.min(links.len());
    links.insert(at, link)?;
    Ok(())
}
