//! A law with nothing to run: what merging comes to.
ghost use Rattle.segment_list.specs.Laws.{MergesAreOne};

/// Parts merge to one list alone: that of the parts in any arrangement by rising keys.
pub fn merges_are_one()
    ensures { MergesAreOne }
{}
