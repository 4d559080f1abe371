//! Laws of the definitions, with nothing to run.
ghost use Rattle.live_laws.specs.Laws.{LanesAreLegal, LanesBegin, LanesSeeMore, LanesTakeSteps};

/// A lane that has answered no line keeps what a lane keeps.
pub fn lanes_begin()
    ensures { LanesBegin }
{}

/// What a lane keeps stays true beside a longer history.
pub fn lanes_see_more()
    ensures { LanesSeeMore }
{}

/// A lane that answers one line more keeps what a lane keeps.
pub fn lanes_take_steps()
    ensures { LanesTakeSteps }
{}

/// The replies of lanes that have ended are legal beside the history of their book, however they ran at
/// once: where each line was answered in the lane of its session, where as many edits were accepted as the
/// history has new entries, and where the disk's count rose once or more for each of its refusals.
pub fn lanes_are_legal()
    ensures { LanesAreLegal }
{}
