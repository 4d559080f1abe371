//! Laws with nothing to run: what a query that was resolved comes to.
ghost use Rattle.eql_resolve.specs.Laws.{ShownIsThere, LevelsAreThere, MarksAreFound};

/// The attribute that the results show is one of the configuration.
pub fn shown_is_there()
    ensures { ShownIsThere }
{}

/// The level of a query and that of its results are levels of the configuration.
pub fn levels_are_there()
    ensures { LevelsAreThere }
{}

/// A query is marked exactly where a marked condition is found in it.
pub fn marks_are_found()
    ensures { MarksAreFound }
{}
