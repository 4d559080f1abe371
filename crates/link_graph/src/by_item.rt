//! The links of each item, by the item's id, each list in the order in which it grew.
ghost use Rattle.std.specs.Prelude.{◌≡◌, ◌==◌, ◌++◌, ◌∷◌, ℕ, [], insert, IfOk, OnOk, OnErr, not, if◌then◌else◌};
ghost use Rattle.std.specs.List.{filter};
ghost use Rattle.link_graph.specs.Inner.Index.{links_at, links_of};
ghost use Rattle.link_graph.specs.Link.{joins, names_item};

use crate::item_links::ItemLinks;
use crate::link::Link;
use emu_names::{ItemId, Memory};
use std::alloc::Global;
use std::collections::HashMap;

/// A list of links for each item that has some. An item without an entry has none.
#[derive(Drop)]
pub(crate) struct ByItem {
    alloc: Global,
    lists: HashMap<u32, ItemLinks>,
}

impl ByItem {
    /// No links at any item, with room for so many items. The only refusal is want of memory.
    pub(crate) fn with_capacity(alloc: Global, count: usize) -> Result<ByItem, Memory>
        ensures { IfOk result (λ made. (id : ℕ) → links_at made id ≡ []) }
    {
        let lists = HashMap::with_capacity(alloc, count)?;
        Ok(ByItem { alloc, lists })
    }

    /// The links at an item.
    pub(crate) fn at(&self, id: ItemId) -> &[Link]
        ensures { result.now ≡ links_at self.now id.0 }
    {
        match self.lists.get(&id.0) {
            Some(links) => links.as_slice(),
            None => &[],
        }
    }

    /// The same links again. The only refusal is want of memory.
    pub(crate) fn copy(&self) -> Result<ByItem, Memory>
        ensures { IfOk result (λ made. (id : ℕ) → links_at made id ≡ links_at self.now id) }
    {
        let lists = self.lists.clone()?;
        Ok(ByItem {
            alloc: self.alloc,
            lists,
        })
    }

    /// Puts a link at a place of those of an item, or last where they are fewer. The only refusal is want of memory, which changes nothing.
    pub(crate) fn insert(&mut self, at: ItemId, place: usize, link: Link) -> Result<(), Memory>
        ensures ok { OnOk result ((id : ℕ) → links_at self.new id
            ≡ (if at.0 == id then insert (links_at self.old id) place link else links_at self.old id)) }
        ensures err { OnErr result ((id : ℕ) → links_at self.new id ≡ links_at self.old id) }
    {
        let links = self.lists.entry(at.0)?.or_insert(ItemLinks::Empty);
        links.insert(self.alloc, place, link)
    }

    /// Takes the links at an item out that lead from `from` to `to`.
    pub(crate) fn remove(&mut self, at: ItemId, from: ItemId, to: ItemId)
        ensures { (id : ℕ) → links_at self.new id
            ≡ (if at.0 == id then filter (λ link. not (joins from to link)) (links_at self.old id)
            else links_at self.old id) }
    {
        if let Some(links) = self.lists.get_mut(&at.0) {
            links.take_pair(from, to);
        }
    }

    /// Takes all links at an item out, and gives them.
    pub(crate) fn take(&mut self, at: ItemId) -> ItemLinks
        ensures taken { links_of result ≡ links_at self.old at.0 }
        ensures rest { (id : ℕ) → links_at self.new id
            ≡ (if at.0 == id then [] else links_at self.old id) }
    {
        match self.lists.remove(&at.0) {
            Some(links) => links,
            None => ItemLinks::Empty,
        }
    }

    /// Takes the links at an item out that name `id`.
    pub(crate) fn forget(&mut self, at: ItemId, id: ItemId)
        ensures { (key : ℕ) → links_at self.new key
            ≡ (if at.0 == key then filter (λ link. not (names_item id link)) (links_at self.old key)
            else links_at self.old key) }
    {
        if let Some(links) = self.lists.get_mut(&at.0) {
            links.take_item(id);
        }
    }
}
