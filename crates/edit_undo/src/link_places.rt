//! Whether a bundle has links of an item.
ghost use Rattle.std.specs.Prelude.{◌≡◌};
ghost use Rattle.std.specs.List.{list_any};
ghost use Rattle.link_graph.specs.Link.{names_item};

use emu_names::ItemId;
use link_graph::Links;

/// Whether a link names an item.
pub(crate) fn has_links(links: &Links, id: ItemId) -> bool
    ensures { result ≡ list_any (names_item id) links.now }
{
    links.parents(id).next().is_some() || links.children(id).next().is_some()
}
