//! Laws of dominance, with nothing to run.
ghost use Rattle.hier_closure.specs.Laws.{DominanceIsByChains, DominanceIsByFirstLinks, BitsAreDominance};

/// The test of dominance passes exactly where a list of two or more ids begins with the one item and
/// ends with the other, and each neighbouring pair of it is a link.
pub fn dominance_is_by_chains()
    ensures { DominanceIsByChains }
{}

/// An item dominates another exactly where a link leads from it to that item, or to some item that
/// dominates it.
pub fn dominance_is_by_first_links()
    ensures { DominanceIsByFirstLinks }
{}

/// Bit j of row i of a closure is set exactly where item i of the upper level dominates item j of the
/// lower one.
pub fn bits_are_dominance()
    ensures { BitsAreDominance }
{}
