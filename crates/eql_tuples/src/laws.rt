//! Laws with nothing to run: what sets of tuples and joins come to.
ghost use Rattle.eql_tuples.specs.Laws.{SetsHaveTheirTuples, SetsAreInOrder, JoinsArePairs};

/// The set of some tuples has those and no others.
pub fn sets_have_their_tuples()
    ensures { SetsHaveTheirTuples }
{}

/// A set of tuples is strictly in order, so no tuple stands twice.
pub fn sets_are_in_order()
    ensures { SetsAreInOrder }
{}

/// A tuple is among those of a sequence or a dominance exactly where a left and a right tuple that go
/// with each other make it.
pub fn joins_are_pairs()
    ensures { JoinsArePairs }
{}
