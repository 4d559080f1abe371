//! The two forms of a list of links.
ghost use Rattle.std.specs.Prelude.{◌≡◌, [], length, IfOk, OnOk};
ghost use Rattle.link_graph.specs.Inner.Forms.{AreFew, AreKept, HasRoom, kept_links};

use crate::block::Block;
use crate::indexed::Indexed;
use emu_names::Memory;
use std::alloc::Global;

/// The most links that are kept without maps, since a walk over them answers as fast.
pub(crate) const FEW_LINKS: usize = 128;

/// A list of links in which no pair of ids stands twice.
#[derive(Drop)]
pub(crate) enum Kept {
    /// At most `FEW_LINKS`, without maps.
    Few(Block),
    /// Any number, with maps. A list that once had more links than `FEW_LINKS` keeps its maps.
    Many(Box<Indexed>),
}

impl Kept {
    /// No links, with room for so many. The only refusal is want of memory.
    pub(crate) fn with_capacity(alloc: Global, count: usize) -> Result<Kept, Memory>
        ensures empty { IfOk result (λ made. kept_links made ≡ []) }
        ensures kept { IfOk result AreKept }
    {
        if count > FEW_LINKS {
            let links = Indexed::with_capacity(alloc, count)?;
            return Ok(Kept::Many(Box::new(alloc, links)?));
        }
        Ok(Kept::Few(Block::with_capacity(alloc, count)?))
    }

    /// Makes maps where there is no room without them for one link more. The only refusal is want of memory.
    pub(crate) fn make_room(&mut self, alloc: Global) -> Result<(), Memory>
        requires { AreKept self.old }
        ensures same { kept_links self.new ≡ kept_links self.old }
        ensures kept { AreKept self.new }
        ensures room { OnOk result (HasRoom self.new) }
    {
        if let Kept::Few(links) = self {
            if links.len() >= FEW_LINKS {
                let many = indexed(alloc, links)?;
                *self = Kept::Many(Box::new(alloc, many)?);
            }
        }
        Ok(())
    }
}

/// The same links with maps, which have room for more. The only refusal is want of memory.
fn indexed(alloc: Global, links: &Block) -> Result<Indexed, Memory>
    requires { AreFew links.now }
    ensures { IfOk result (λ made. made ≡ links.now) }
{
    let mut many = Indexed::with_capacity(alloc, 2 * FEW_LINKS)?;
    for place in 0..links.len() {
        many.put(alloc, place, *links.get(place))?;
    }
    Ok(many)
}
