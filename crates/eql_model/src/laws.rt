//! Laws with nothing to run: what the tuples and the results of a query come to.
ghost use Rattle.eql_model.specs.Laws.{TuplesLieOnLevel, ResultsAreThere};

/// The tuples of a query lie on its level, and each has one item at least.
pub fn tuples_lie_on_level()
    ensures { TuplesLieOnLevel }
{}

/// The results of a query are there in its bundle: the attribute that is shown, and the stretch.
pub fn results_are_there()
    ensures { ResultsAreThere }
{}
