//! Laws with nothing to run: what the tests of a configuration come to.
ghost use Rattle.db_config.specs.Laws.{AboveIsByPaths, CyclesAreFound, DoublesAreFound};

/// A level is above another exactly where a path of one or more link definitions leads down from it.
pub fn above_is_by_paths()
    ensures { AboveIsByPaths }
{}

/// The test of a cycle finds one exactly where a path leads from a level to itself.
pub fn cycles_are_found()
    ensures { CyclesAreFound }
{}

/// A name stands twice exactly where the names are not distinct.
pub fn doubles_are_found()
    ensures { DoublesAreFound }
{}
