//! The items at the other ends of an item's links.
ghost use Rattle.std.specs.Prelude.{◌≡◌, ◌∷◌, [], map, IfSome, IfNone};
ghost use Rattle.std.specs.List.{filter};
ghost use Rattle.std.specs.Iterator.{YieldsFirst, item_count};
ghost use Rattle.link_graph.specs.Inner.Ends.{has_end, other_end};

use crate::link::Link;
use emu_names::ItemId;
use std::marker::Model;

/// An end of a link.
#[derive(Clone, Copy, Debug, PartialEq, Eq)]
pub(crate) enum End {
    From,
    To,
}

impl End {
    /// Whether a link has this item at this end.
    pub(crate) fn is_at(self, link: Link, id: ItemId) -> bool
        ensures { result ≡ has_end self id.0 link }
    {
        match self {
            End::From => link.from == id,
            End::To => link.to == id,
        }
    }

    /// The item at the other end of a link.
    pub(crate) fn other(self, link: Link) -> ItemId
        ensures { result ≡ other_end self link }
    {
        match self {
            End::From => link.to,
            End::To => link.from,
        }
    }
}

/// The ids of the items at the other ends of an item's links, in the order in which the links were
/// added. Contracts see it as the list of the ids that are left.
#[derive(Drop)]
pub struct Ends<'a> {
    links: &'a [Link],
    end: End,
    id: ItemId,
}

impl<'a> Model for Ends<'a> {
    ghost use Rattle.std.specs.Prelude.{List, map};
    ghost use Rattle.std.specs.List.{filter};
    ghost use Rattle.emu_names.specs.declared.kinds.ItemId.{ItemId};

    ghost Value = { List ItemId };

    ghost use Rattle.link_graph.specs.Inner.Ends.{has_end, other_end};

    ghost view = { λ ends. map (other_end ends.end) (filter (has_end ends.end ends.id.0) ends.links.now) };
}

impl<'a> Ends<'a> {
    /// The other ends of those of `links` that have an item at an end.
    pub(crate) fn new(links: &'a [Link], end: End, id: ItemId) -> Ends<'a>
        ensures { result ≡ map (other_end end) (filter (has_end end id.0) links.now) }
    {
        Ends { links, end, id }
    }
}

impl<'a> Iterator for Ends<'a> {
    type Item = ItemId;

    ghost next_gives = { YieldsFirst (λ ends. ends) };

    ghost remaining = { item_count (λ ends. ends) };

    fn next(&mut self) -> Option<ItemId> {
        let (link, others) = first_at(self.links, self.end, self.id)?;
        self.links = others;
        Some(self.end.other(link))
    }
}

/// The first of these links that has an item at an end, and those behind it.
fn first_at<'a>(links: &'a [Link], end: End, id: ItemId) -> Option<(Link, &'a [Link])>
    ensures some { IfSome result (λ found. filter (has_end end id.0) links.now
        ≡ found.0 ∷ filter (has_end end id.0) found.1.now) }
    ensures none { IfNone result (filter (has_end end id.0) links.now ≡ []) }
{
    let mut rest = links;
    while let [link, others @ ..] = rest {
        if end.is_at(*link, id) {
            return Some((*link, others));
        }
        rest = others;
    }
    None
}
