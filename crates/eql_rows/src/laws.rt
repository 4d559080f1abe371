//! A law with nothing to run: what a user can check of the times of rows.
ghost use Rattle.eql_rows.specs.Laws.{TouchingSegmentsMeet};

/// A segment that begins with the sample behind the last one of another starts in the microsecond in which
/// that one ends.
pub fn touching_segments_meet()
    ensures { TouchingSegmentsMeet }
{}
