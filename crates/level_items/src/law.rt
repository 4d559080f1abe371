//! Laws of the rules of changes, with nothing to run.
ghost use Rattle.level_items.specs.Laws.{InsertRefusesExactly, RetimeRefusesExactly, PlaceSplitsItems};

/// A new item with whole labels is refused exactly where its position is none, or where the level would
/// not keep the level rule with it.
pub fn insert_refuses_exactly()
    ensures { InsertRefusesExactly }
{}

/// Another time of an item is refused exactly where the level would not keep the level rule with it.
pub fn retime_refuses_exactly()
    ensures { RetimeRefusesExactly }
{}

/// Before the place of a new segment or point stand the items that begin before it, and from there on
/// the others.
pub fn place_splits_items()
    ensures { PlaceSplitsItems }
{}
