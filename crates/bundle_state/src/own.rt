//! Changes of links that a handle shares: where another owner has them too, this one takes a copy of them first.
ghost use Rattle.std.specs.Prelude.{◌≡◌, ◌++◌, ◌∷◌, [], insert, OnErr, OnOk};
ghost use Rattle.std.specs.Option.{option_or};
ghost use Rattle.emu_names.specs.Inner.Gives.{FindsFault};
ghost use Rattle.link_graph.specs.Link.{add_fault, link_of};
ghost use Rattle.bundle_state.specs.Changed.{links_but, missing_fault, place_fault};

use emu_names::{Broken, Fault, ItemId, LinkKind};
use level_items::Handle;
use link_graph::Links;
use std::sync::Arc;

/// Puts a link last, as the list of links does.
pub(crate) fn add(
    links: &mut Handle<Links>,
    definition: u32,
    kind: LinkKind,
    from: ItemId,
    to: ItemId,
) -> Result<(), Fault>
    ensures fault { FindsFault result (add_fault kind definition from to links.old) }
    ensures added { OnOk result (links.new ≡ links.old ++ link_of definition from to ∷ []) }
    ensures kept { OnErr result (links.new ≡ links.old) }
{
    let own = Arc::make_mut(&mut links.inside)?;
    own.add(definition, kind, from, to)
}

/// Puts a link at a place, as the list of links does. A place past the end is refused last (`PositionOut`).
pub(crate) fn add_at(
    links: &mut Handle<Links>,
    place: usize,
    definition: u32,
    kind: LinkKind,
    from: ItemId,
    to: ItemId,
) -> Result<(), Fault>
    ensures fault { FindsFault result
        (option_or (add_fault kind definition from to links.old) (place_fault place links.old)) }
    ensures added { OnOk result (links.new ≡ insert links.old place (link_of definition from to)) }
    ensures kept { OnErr result (links.new ≡ links.old) }
{
    if let Some(rule) = links.as_ref().fault(definition, kind, from, to) {
        return Err(Fault::Broken(rule));
    }
    if place > links.as_ref().len() {
        return Err(Fault::Broken(Broken::PositionOut));
    }
    let own = Arc::make_mut(&mut links.inside)?;
    own.add_at(place, definition, kind, from, to)
}

/// Takes the link of a pair out. `NoLink` comes exactly where the pair is not there.
pub(crate) fn remove(links: &mut Handle<Links>, from: ItemId, to: ItemId) -> Result<(), Fault>
    ensures fault { FindsFault result (missing_fault from to links.old) }
    ensures removed { OnOk result (links.new ≡ links_but from to links.old) }
    ensures kept { OnErr result (links.new ≡ links.old) }
{
    if !links.as_ref().has(from, to) {
        return Err(Fault::Broken(Broken::NoLink));
    }
    let own = Arc::make_mut(&mut links.inside)?;
    own.remove(from, to)
}
