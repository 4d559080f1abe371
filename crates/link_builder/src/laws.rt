//! Laws over the definitions.
ghost use Rattle.link_builder.specs.Laws.{ItemsHaveOneSegment};

/// Each item stands in one pair at most.
pub fn items_have_one_segment()
    ensures { ItemsHaveOneSegment }
{}
