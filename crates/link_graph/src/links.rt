//! The links of a bundle: a list in the order of adding, in which no pair of ids stands twice.
ghost use Rattle.std.specs.Prelude.{◌≡◌, ◌<◌, ◌≤◌, ◌↔◌, ◌==◌, ◌&&◌, ◌++◌, ◌∷◌, [], insert, length, slice_get, Some, None, not, true, false, IfOk, OnOk, OnErr, IsOk, IsErrOf, ◌+◌, vec_len, vec_capacity};
ghost use Rattle.std.specs.List.{filter, find, list_any};
ghost use Rattle.emu_names.specs.declared.rules.Broken.{Broken as Rule};
ghost use Rattle.link_graph.specs.Link.{ArePairsApart, joins, names_item, children_of, parent_fault, child_fault, add_fault, link_of};
ghost use Rattle.link_graph.specs.Inner.Ends.{AreSameAt, has_end};
ghost use Rattle.link_graph.specs.Inner.Link.{parents_of, IsPairPlace};

use crate::block::place_of;
use crate::ends::{End, Ends};
use crate::forms::Kept;
use crate::link::Link;
use emu_names::limits::BUNDLE_LINKS;
use emu_names::{Broken, Fault, ItemId, LinkKind, Memory, What};
use std::alloc::{AllocError, Global};
use std::marker::Model;

/// The links of a bundle, at most 262,144, which contracts see as a list in the order of adding.
#[derive(Drop)]
pub struct Links {
    alloc: Global,
    kept: Kept,
}

impl Model for Links {
    ghost use Rattle.std.specs.Prelude.{List};
    ghost use Rattle.link_graph.specs.declared.link.Link.{Link};

    ghost Value = { List Link };

    ghost use Rattle.link_graph.specs.Inner.Forms.{AreKept, kept_links};

    ghost view = { λ s. kept_links s.kept };

    ghost invariant = { λ s. AreKept s.kept };
}

impl Links {
    /// No links, with room for so many. The list grows by `alloc`. The only refusal is want of memory.
    pub fn with_capacity(alloc: Global, count: usize) -> Result<Links, Memory>
        ensures { IfOk result (λ made. made ≡ []) }
    {
        let kept = Kept::with_capacity(alloc, count)?;
        Ok(Links { alloc, kept })
    }

    /// How many links there are, at most 262,144.
    pub fn len(&self) -> usize
        ensures count { result ≡ length self.now }
        ensures limit { length self.now ≤ BUNDLE_LINKS }
        ensures apart { ArePairsApart self.now }
    {
        match &self.kept {
            Kept::Few(links) => links.len(),
            Kept::Many(links) => links.len(),
        }
    }

    /// The link at a place, counted from 0.
    pub fn get(&self, place: usize) -> &Link
        requires { place < length self.now }
        ensures { slice_get self.now place ≡ Some result.now }
    {
        match &self.kept {
            Kept::Few(links) => links.get(place),
            Kept::Many(links) => links.get(place),
        }
    }

    /// Whether an item is linked to another, in this direction.
    pub fn has(&self, from: ItemId, to: ItemId) -> bool
        ensures { result ≡ list_any (joins from to) self.now }
    {
        match &self.kept {
            Kept::Few(links) => place_of(links.as_slice(), from, to).is_some(),
            Kept::Many(links) => links.has(from, to),
        }
    }

    /// The place of the link of a pair, counted from 0, if it is there.
    #[tactic(auto, using(crate::proofs::PairPlaces::pair_place))]
    pub fn place(&self, from: ItemId, to: ItemId) -> Option<usize>
        ensures { IsPairPlace from to self.now result }
    {
        match &self.kept {
            Kept::Few(links) => place_of(links.as_slice(), from, to),
            Kept::Many(links) => links.place(from, to),
        }
    }

    /// The items that link to `id`, in the order of adding.
    pub fn parents(&self, id: ItemId) -> Ends<'_>
        ensures { result ≡ parents_of id self.now }
    {
        Ends::new(self.near(End::To, id), End::To, id)
    }

    /// The items that `id` links to, in the order of adding.
    pub fn children(&self, id: ItemId) -> Ends<'_>
        ensures { result ≡ children_of id self.now }
    {
        Ends::new(self.near(End::From, id), End::From, id)
    }

    /// Puts a link last. The refusals, of which the first counts: `LinkExists` where the pair is
    /// there, `TooMany` where there are 262,144 links, for a definition that is `OneToOne` or
    /// `OneToMany` `OneParent` with the parent that `to` has by this definition, and for one that is
    /// `OneToOne` `OneChild` with the child that `from` has by it. After a refusal nothing has changed.
    pub fn add(
        &mut self,
        definition: u32,
        kind: LinkKind,
        from: ItemId,
        to: ItemId,
    ) -> Result<(), Fault>
        ensures ok { OnOk result (self.new ≡ self.old ++ link_of definition from to ∷ []) }
        ensures fits { OnOk result (add_fault kind definition from to self.old ≡ None) }
        ensures broken { (rule : Rule) → result ≡ Err (Fault.Broken rule)
            → add_fault kind definition from to self.old ≡ Some rule }
        ensures err { OnErr result (self.new ≡ self.old) }
    {
        let last = self.len();
        self.add_at(last, definition, kind, from, to)
    }

    /// Puts a link at a place, before the link that stands there. The refusals are those of `add`, and after
    /// one nothing has changed.
    pub fn add_at(
        &mut self,
        place: usize,
        definition: u32,
        kind: LinkKind,
        from: ItemId,
        to: ItemId,
    ) -> Result<(), Fault>
        requires { place ≤ length self.old }
        ensures ok { OnOk result (self.new ≡ insert self.old place (link_of definition from to)) }
        ensures fits { OnOk result (add_fault kind definition from to self.old ≡ None) }
        ensures broken { (rule : Rule) → result ≡ Err (Fault.Broken rule)
            → add_fault kind definition from to self.old ≡ Some rule }
        ensures err { OnErr result (self.new ≡ self.old) }
    {
        let link = Link {
            definition,
            from,
            to,
        };
        match self.fault(definition, kind, from, to) {
            Some(rule) => Err(Fault::Broken(rule)),
            None => Ok(self.put(place, link)?),
        }
    }

    /// Takes the link of a pair out; the links behind it move up. `NoLink` comes exactly where the pair is not there.
    pub fn remove(&mut self, from: ItemId, to: ItemId) -> Result<(), Fault>
        ensures there { IsOk result ↔ (list_any (joins from to) self.old ≡ true) }
        ensures ok { self.new ≡ filter (λ link. not (joins from to link)) self.old }
        ensures absent { OnErr result (result ≡ Err (Fault.Broken Rule.NoLink)) }
        ensures err { OnErr result (self.new ≡ self.old) }
    {
        if !self.has(from, to) {
            return Err(Fault::Broken(Broken::NoLink));
        }
        match &mut self.kept {
            Kept::Few(links) => links.take_pair(from, to),
            Kept::Many(links) => links.take_pair(from, to),
        }
        Ok(())
    }

    /// Takes all links out that name an item, at either end; the others keep their order.
    pub fn remove_item(&mut self, id: ItemId)
        ensures { self.new ≡ filter (λ link. not (names_item id link)) self.old }
    {
        match &mut self.kept {
            Kept::Few(links) => links.take_item(id),
            Kept::Many(links) => links.take_item(id),
        }
    }

    /// The same links again. The only refusal is want of memory.
    pub fn copy(&self, alloc: Global) -> Result<Links, Memory>
        ensures { IfOk result (λ made. made ≡ self.now) }
    {
        let kept = match &self.kept {
            Kept::Few(links) => Kept::Few(links.copy(alloc)?),
            Kept::Many(links) => Kept::Many(Box::new(alloc, links.copy(alloc)?)?),
        };
        Ok(Links { alloc, kept })
    }

    /// The first rule that a new link breaks, in the order of `add`.
    pub fn fault(&self, definition: u32, kind: LinkKind, from: ItemId, to: ItemId) -> Option<Broken>
        ensures { result ≡ add_fault kind definition from to self.now }
    {
        if self.has(from, to) {
            return Some(Broken::LinkExists);
        }
        if self.len() >= BUNDLE_LINKS {
            return Some(Broken::TooMany(What::BundleLinks));
        }
        match kind {
            LinkKind::OneToOne => match self.parent_fault(definition, to) {
                Some(rule) => Some(rule),
                None => self.child_fault(definition, from),
            },
            LinkKind::OneToMany => self.parent_fault(definition, to),
            LinkKind::ManyToMany => None,
        }
    }

    /// The parent that an item has by a definition, as the rule that a second one breaks.
    fn parent_fault(&self, definition: u32, to: ItemId) -> Option<Broken>
        ensures { result ≡ parent_fault definition to self.now }
    {
        let link = first_of(self.near(End::To, to), End::To, to, definition)?;
        Some(Broken::OneParent(link.from))
    }

    /// The child that an item has by a definition, as the rule that a second one breaks.
    fn child_fault(&self, definition: u32, from: ItemId) -> Option<Broken>
        ensures { result ≡ child_fault definition from self.now }
    {
        let link = first_of(self.near(End::From, from), End::From, from, definition)?;
        Some(Broken::OneChild(link.to))
    }

    /// Links among which are all that have an item at an end.
    fn near(&self, end: End, id: ItemId) -> &[Link]
        ensures { AreSameAt end id.0 result.now self.now }
    {
        match &self.kept {
            Kept::Few(links) => links.as_slice(),
            Kept::Many(links) => links.near(end, id),
        }
    }

    /// Puts a link at a place, whose pair of ids is not there. The only refusal is want of memory, which
    /// changes nothing.
    fn put(&mut self, place: usize, link: Link) -> Result<(), Memory>
        requires within { place ≤ length self.old }
        requires apart { list_any (joins link.from link.to) self.old ≡ false }
        requires room { length self.old < BUNDLE_LINKS }
        ensures ok { OnOk result (self.new ≡ insert self.old place link) }
        ensures err { OnErr result (self.new ≡ self.old) }
    {
        self.kept.make_room(self.alloc)?;
        match &mut self.kept {
            Kept::Few(links) => links.insert(place, link),
            Kept::Many(links) => links.put(self.alloc, place, link),
        }
    }
}

impl Clone for Links {
    ghost use Rattle.std.specs.Prelude.{◌≡◌};

    ghost is_clone = { λ s t. t ≡ s };

    fn clone(&self) -> Result<Links, AllocError> {
        self.copy(self.alloc).map_err(|_| AllocError)
    }
}

/// The first link of a definition that has an item at an end.
fn first_of(links: &[Link], end: End, id: ItemId, definition: u32) -> Option<Link>
    ensures { result ≡ find (λ link. (link.definition == definition) && has_end end id.0 link) links.now }
{
    links.iter().copied().find(|link| link.definition == definition && end.is_at(*link, id))
}
